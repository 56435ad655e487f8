//! Laws of several calls in a row, and of counts, over the definitions alone.
ghost use Rattle.std.specs.Prelude.{◌≡◌, ℕ, List, Option, ◌++◌, take, IfSome};
ghost use Rattle.mg_edge.specs.declared.source.Got.TheVariants.{Bytes, End, Failed};
ghost use Rattle.mg_edge.specs.declared.sink.Put.TheVariants.{Took};
ghost use Rattle.mg_edge.specs.Edge.{ReadTakes, WriteAppends, HasRisen, one_more};
ghost use Rattle.mg_edge.specs.Runs.{Gave, TookAll};

/// A read after others gives the bytes that follow theirs.
pub fn reads_give_in_order()
    ensures { (first before now : Option (List ℕ)) (bytes buf : List ℕ) (n : ℕ)
        → Gave first before bytes → ReadTakes before now (Bytes n) buf → Gave first now (bytes ++ take n buf) }
{}

/// A read that fails after others loses none of the bytes.
pub fn a_failed_read_loses_nothing()
    ensures { (first before now : Option (List ℕ)) (bytes buf : List ℕ)
        → Gave first before bytes → ReadTakes before now Failed buf → Gave first now bytes }
{}

/// If the end is reached, the reads gave all the bytes.
pub fn reads_to_the_end_give_all()
    ensures { (first before now : Option (List ℕ)) (bytes buf : List ℕ)
        → Gave first before bytes → ReadTakes before now End buf → IfSome first (λ all. bytes ≡ all) }
{}

/// A write after others appends to what they took.
pub fn writes_append_in_order()
    ensures { (first before now : Option (List ℕ)) (bytes piece : List ℕ) (n : ℕ)
        → TookAll first before bytes → WriteAppends before now (Took n) piece → TookAll first now (bytes ++ take n piece) }
{}

/// A count has risen if it stepped once, also from the greatest count.
pub fn a_step_is_a_rise()
    ensures { (before now : ℕ) → now ≡ one_more before → HasRisen before now }
{}
