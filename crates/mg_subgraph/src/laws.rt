//! Laws of the definitions: each function does nothing, and its contract is the law.
ghost use Rattle.std.specs.Prelude.{◌≡◌, ◌≢◌, ℕ, List, [], ◌∷◌, true, Some, None, Ok, slice_get, All};
ghost use Rattle.std.specs.List.{list_any};
ghost use Rattle.mg_config.specs.Config.{NodeView, GraphView};
ghost use Rattle.mg_subgraph.specs.Apart.{IsFree, StayApart, IsNew, AreNew};
ghost use Rattle.mg_subgraph.specs.Expanded.{all_replaced, expanded};
ghost use Rattle.mg_subgraph.specs.Expansion.{expansion_of};
ghost use Rattle.mg_subgraph.specs.Library.{is_subgraph, used_files};
ghost use Rattle.mg_subgraph.specs.Names as names;
ghost use Rattle.mg_subgraph.specs.Refusals.{recursive};

/// If no used file uses itself, the expanded nodes are each node replaced in its place by the expanded nodes of its
/// file. So it doesn't matter how deep files may stand in one another.
pub fn expansion_is_recursive()
    ensures { (main : GraphView) (library : List GraphView) → recursive main library ≡ None → expanded library main.nodes ≡ all_replaced (expanded library) library 0 main.nodes }
{}

/// An expanded graph has no subgraph node left: expanded again with the same files, it stays as it is.
pub fn nothing_is_left()
    ensures { (main graph : GraphView) (library : List GraphView) → expansion_of main library ≡ Ok graph → expansion_of graph library ≡ Ok graph }
{}

/// Suppose that a graph with a subgraph node is expanded. Then neither it nor a file that it uses has a name of the
/// form that expansion gives.
pub fn owners_are_free()
    ensures { (main graph : GraphView) (library : List GraphView) → expansion_of main library ≡ Ok graph → list_any (is_subgraph library) main.nodes ≡ true → All IsFree (main ∷ used_files main library) }
{}

/// Suppose that a graph has no name of the form that expansion makes, and one of its nodes uses a file. Two names of
/// the file become different names, unless both stand at ports to which the node connects the same name. Two names of
/// nodes always become different names.
pub fn names_stay_apart()
    ensures streams { (owner file : GraphView) (n : ℕ) (node : NodeView) → IsFree owner → slice_get owner.nodes n ≡ Some node → StayApart (names.outer_stream node file) (names.stream_name n node file) }
    ensures sides { (owner file : GraphView) (n : ℕ) (node : NodeView) → IsFree owner → slice_get owner.nodes n ≡ Some node → StayApart (names.outer_side node file) (names.side_name n node file) }
    ensures nodes { (n : ℕ) (first second : List ℕ) → names.node_name n first ≡ names.node_name n second → first ≡ second }
{}

/// Suppose that a graph has no name of the form that expansion makes. If a name of a file stands at no port that the
/// node connects, it becomes a name that the graph doesn't have. So does a node's name that isn't empty.
pub fn names_are_new()
    ensures streams { (owner file : GraphView) (n : ℕ) (node : NodeView) → IsFree owner → AreNew (names.outer_stream node file) (names.stream_name n node file) owner }
    ensures sides { (owner file : GraphView) (n : ℕ) (node : NodeView) → IsFree owner → AreNew (names.outer_side node file) (names.side_name n node file) owner }
    ensures nodes { (owner : GraphView) (n : ℕ) (name : List ℕ) → IsFree owner → name ≢ [] → IsNew (names.node_name n name) owner }
{}
