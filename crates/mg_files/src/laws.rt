//! Laws of the definitions: each function does nothing, and its contract is the law.
ghost use Rattle.std.specs.Prelude.{◌≡◌, ◌≤◌, ℕ, List, ◌∷◌, Ok, length};
ghost use Rattle.mg_text.specs.Answer.{max_len};
ghost use Rattle.mg_config.specs.Config.{GraphView};
ghost use Rattle.mg_subgraph.specs.Expansion.{expansion_of};
ghost use Rattle.mg_files.specs.File.{File, graph, IsFile, graph_text};
ghost use Rattle.mg_files.specs.Files.{Files, AreGraphs, AreFiles};

/// A content is at most one file: a graph, or what is refused for one reason. So the program has one answer to it.
pub fn one_file()
    ensures { (content : List ℕ) (a b : File) → IsFile content a → IsFile content b → a ≡ b }
{}

/// The files of a command are at most one thing: all graphs, or refused with one note. So the program has one answer to them.
pub fn one_reading()
    ensures { (names contents : List (List ℕ)) (a b : Files) → AreFiles names contents a → AreFiles names contents b → a ≡ b }
{}

/// The text of a graph, if it isn't too long for a file, is a file of the same graph.
pub fn texts_say_their_graph()
    ensures { (content : List ℕ) (g : GraphView) → IsFile content (graph g) → length (graph_text g) ≤ max_len → IsFile (graph_text g) (graph g) }
{}

/// The text of an expanded graph, if it isn't too long for a file, is a file of the expanded graph.
pub fn texts_say_their_expansion()
    ensures { (contents : List (List ℕ)) (main g : GraphView) (library : List GraphView) → AreGraphs contents (main ∷ library) → expansion_of main library ≡ Ok g → length (graph_text g) ≤ max_len → IsFile (graph_text g) (graph g) }
{}

/// A graph is determined by its text: if two files hold graphs that have the same text, the graphs are the same.
pub fn graphs_are_known_by_their_text()
    ensures { (a b : List ℕ) (g h : GraphView) → IsFile a (graph g) → IsFile b (graph h) → graph_text g ≡ graph_text h → g ≡ h }
{}
