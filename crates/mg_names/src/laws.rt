//! Laws of the definitions: each function does nothing, and its contract is the law.
ghost use Rattle.std.specs.Prelude.{◌≡◌, ◌<◌, ◌↔◌, ℕ, List, false, true, Ok, Some, map, slice_get, All, AllPairs};
ghost use Rattle.std.specs.Fmt.{decimal};
ghost use Rattle.mg_names.specs.declared.port.Port.{Port};
ghost use Rattle.std.specs.List.{list_all};
ghost use Rattle.mg_names.specs.Grammar.{is_name, index_of, index_count};
ghost use Rattle.mg_names.specs.Renaming.{with_names};
ghost use Rattle.mg_names.specs.TagIndex.{tag_index_of, text_of_tag_index, IsTagIndex};
ghost use Rattle.mg_names.specs.Ports.{has_port, is_at, stands_twice, has_gap, ports_of, place_of, text_of, IsSpelled};

/// A text spells an index exactly if the index is below 64 and the text is its decimal number.
pub fn indexes_are_decimal()
    ensures { (text : List ℕ) (index : ℕ) → (index_of text ≡ Some index) ↔ ((index < index_count) × (text ≡ decimal index)) }
{}

/// Ports that were read from texts are read once more, as the same ports, from the texts that they are written as.
pub fn ports_are_read_back()
    ensures { (texts : List (List ℕ)) (ports : List Port) → ports_of texts ≡ Ok ports → ports_of (map text_of ports) ≡ Ok ports }
{}

/// Each port that is read from a list of texts can be spelled.
pub fn ports_are_spelled()
    ensures { (texts : List (List ℕ)) (ports : List Port) → ports_of texts ≡ Ok ports → All IsSpelled ports }
{}

/// A tag and index that can be spelled are read back from the text that they are written as.
pub fn tag_indexes_are_read_back()
    ensures { (tag : List ℕ) (index : ℕ) → IsTagIndex tag index → tag_index_of (text_of_tag_index tag index) ≡ Ok (tag, index) }
{}

/// A tag and index that are read from a text can be spelled.
pub fn tag_indexes_are_spelled()
    ensures { (text tag : List ℕ) (index : ℕ) → tag_index_of text ≡ Ok (tag, index) → IsTagIndex tag index }
{}

/// No tag and index stand twice exactly if each two ports differ in tag or index.
pub fn once_is_pairwise()
    ensures { (ports : List Port) → (stands_twice ports ≡ false) ↔ AllPairs (λ first second. is_at first.tag first.index second ≡ false) ports }
{}

/// There is no gap exactly if, for each port and each lower index, some port has its tag and that index.
pub fn filled_is_downward()
    ensures { (ports : List Port) → (has_gap ports ≡ false) ↔ All (λ port. (index : ℕ) → index < port.index → has_port port.tag index ports ≡ true) ports }
{}

/// Each port that is read from a list of texts is found, by its tag and index, at the place where it stands.
pub fn ports_are_found()
    ensures { (texts : List (List ℕ)) (ports : List Port) (i : ℕ) (port : Port) → ports_of texts ≡ Ok ports → slice_get ports i ≡ Some port → place_of port.tag port.index ports ≡ Some i }
{}

/// Ports that were read from texts can be written and read again under any other names that keep the grammar of names.
pub fn names_are_free()
    ensures { (texts : List (List ℕ)) (ports : List Port) (names : List (List ℕ)) → ports_of texts ≡ Ok ports → list_all is_name names ≡ true
        → ports_of (map text_of (with_names ports names)) ≡ Ok (with_names ports names) }
{}
