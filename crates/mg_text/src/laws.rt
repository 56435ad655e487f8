//! Laws of the definitions, each as the contract of a function with an empty body.
ghost use Rattle.std.specs.Prelude.{◌≡◌, ℕ, List, ◌<◌, IsUtf8};
ghost use Rattle.mg_text.specs.Tree.{Fields, depth};
ghost use Rattle.mg_text.specs.Grammar.{Gives};
ghost use Rattle.mg_text.specs.Answer.{max_depth, IsSyntaxFault, IsTooDeep};
ghost use Rattle.mg_text.specs.Canonical.{canonical, AreSpelled, AreCharacters};

/// The grammar gives a text at most one tree.
pub fn one_tree()
    ensures { (text : List ℕ) (t u : Fields) → Gives text t → Gives text u → t ≡ u }
{}

/// The canonical text of fields is a text of the grammar that stands for them, if the grammar can spell their names and scalars.
pub fn canonical_text()
    ensures { (t : Fields) → AreSpelled t → Gives (canonical t) t }
{}

/// The grammar can spell the names and scalars of the fields that a text stands for, so these fields can be printed.
pub fn spelled_text()
    ensures { (text : List ℕ) (t : Fields) → Gives text t → AreSpelled t }
{}

/// A file has a syntax fault at one place at most, and a text of the grammar has none.
pub fn one_syntax_fault()
    ensures one { (file : List ℕ) (p q : ℕ) → IsSyntaxFault file p → IsSyntaxFault file q → p ≡ q }
    ensures no_text { (file : List ℕ) (p : ℕ) (t : Fields) → IsSyntaxFault file p → Gives file t → ⊥ }
{}

/// A file gets too deep at one place at most. Then it has no syntax fault, and if it is a text, its messages nest too deep.
pub fn one_too_deep()
    ensures one { (file : List ℕ) (p q : ℕ) → IsTooDeep file p → IsTooDeep file q → p ≡ q }
    ensures no_syntax { (file : List ℕ) (p q : ℕ) → IsTooDeep file p → IsSyntaxFault file q → ⊥ }
    ensures no_text { (file : List ℕ) (p : ℕ) (t : Fields) → IsTooDeep file p → Gives file t → max_depth < depth t }
{}

/// The characters of the grammar are those of UTF-8 (RFC 3629), so every text can be a quoted scalar.
pub fn characters_are_utf8()
    ensures characters { (bytes : List ℕ) → IsUtf8 bytes → AreCharacters bytes }
    ensures utf8 { (bytes : List ℕ) → AreCharacters bytes → IsUtf8 bytes }
{}
