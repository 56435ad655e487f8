ghost use Rattle.mg_turns.specs.Code.Plays.{looked, tried, spent_view};
ghost use Rattle.mg_turns.specs.Sights.{kept_after, handed, joined};
ghost use Rattle.std.specs.Prelude.{◌≡◌, ℕ};
ghost use Rattle.atomic_table.specs.Table.{rest};

use crate::layout::Layout;
use crate::part::Part;
use crate::view::View;
use atomic_table::{Join, Play, Split, TableRule};
use mg_calc::NodeCalculator;
use std::marker::{Brand, PhantomData};
use std::snapshot::Snapshot;

/// The key of a table: the layout that was shared.
pub type Key<C> = Snapshot<Layout<C>>;

/// The rule of a table of parts.
pub struct Law;

impl<C: NodeCalculator> TableRule<Option<Part<C>>, View, Key<C>> for Law {
    ghost use Rattle.mg_turns.specs.Rule.{RuledApart, first_view};

    ghost holds = { λ key. RuledApart C.laws key.value };

    ghost first = { λ key. first_view key.value };
}

/// The step that tries to take the turn of a word.
pub struct Try;

impl<C: NodeCalculator> Play<Option<Part<C>>, View> for Try {
    ghost then = { tried C.laws };
}

/// The step that looks at a word.
pub struct Look;

impl<C: NodeCalculator> Play<Option<Part<C>>, View> for Look {
    ghost then = { looked };
}

/// The view of a seat after a step. A call picks it.
pub trait After {
    ghost use Rattle.mg_turns.specs.declared.view.View.{View};

    ghost after: { View };
}

impl After for Brand {
    ghost after = { spent_view };
}

/// The step that gives back a turn, after which the seat has the view `N`.
pub struct Give<N: After> {
    of: PhantomData<N>,
}

impl<C: NodeCalculator, N: After> Play<Option<Part<C>>, View> for Give<N> {
    ghost then = { λ st m r n. n ≡ (N.after, rest m.1) };
}

/// How much of a portion is handed over. A call picks it.
pub trait Amount {
    ghost amount: { ℕ };
}

impl Amount for Brand {
    ghost amount = { 0 };
}

/// Hands over a part of a seat's portion.
pub struct Cut<N: Amount> {
    of: PhantomData<N>,
}

impl<N: Amount> Split<View> for Cut<N> {
    ghost left = { kept_after N.amount };

    ghost right = { handed N.amount };
}

/// Joins two seats into one.
pub struct Both;

impl Join<View> for Both {
    ghost both = { joined };

    ghost spent = { spent_view };
}
