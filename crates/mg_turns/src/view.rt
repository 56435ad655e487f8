ghost use Rattle.std.specs.Prelude.{ℕ, List, Option};
ghost use Rattle.std.specs.Borrow.{ftrue};
ghost use Rattle.mg_node.specs.Views.{WorkView};
ghost use Rattle.mg_turns.specs.Parts.{LayoutView, layout_code};
ghost use Rattle.mg_turns.specs.Turns.{Turn, Sight, turns_code, sights_code, held_code};

use std::marker::Model;

// What a seat knows, in contracts alone. No value of it is made.
pub struct View {
    // The plan and the parts as they were shared.
    pub ghost key: { LayoutView } by { layout_code },
    // The seat's share of the whole, 2^32.
    pub ghost portion: { ℕ },
    // How often the seat found a word held.
    pub ghost misses: { ℕ },
    // How often the seat handed over of its portion.
    pub ghost splits: { ℕ },
    // The word that was missed last.
    pub ghost missed: { Option ℕ },
    // The turn that was taken last stands first.
    pub ghost turns: { List Turn } by { turns_code },
    // The work that the seat has.
    pub ghost work: { Option WorkView } by { held_code },
    // What was seen of the parts of words, the newest first.
    pub ghost seen: { List Sight } by { sights_code },
}

impl Model for View {
    ghost also_owns = { λ _. ftrue };
}
