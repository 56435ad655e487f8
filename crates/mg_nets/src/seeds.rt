//! Graphs at random. Each begins with a graph input, or a source, or both. Nodes follow: each node reads streams that stand before it. The
//! last stream is the graph's output. No graph has a loop, and no node fails.
use crate::cases::Case;
use crate::chance::Chance;
use std::alloc::Global;
use std::test::Fail;

/// A graph, and packet lines for it.
#[derive(Drop)]
pub struct Drawn {
    pub graph: String,
    pub lines: String,
}

// Returns a source of three packets, at 0 to 2.
fn source() -> &'static str {
    r#"node { calculator: "CountingSourceCalculator" output_stream: "s0"
  node_options: { [type.googleapis.com/mediapipe.CountingSourceCalculatorOptions] { count: 3 } } }
"#
}

// Appends the lines of three packets of a stream, at 1 to 3.
fn put_lines(lines: &mut String, chance: &mut Chance, stream: u32) -> Result<(), Fail> {
    for at in 1..4u32 {
        let value = chance.below(10);
        write!(
            lines,
            "{{\"stream\":\"s{stream}\",\"ts\":{at},\"value\":{value}}}\n"
        )?;
    }
    Ok(())
}

// Appends the source, or the input with its lines, or both. Returns how many streams these are.
fn put_beginning(drawn: &mut Drawn, chance: &mut Chance) -> Result<u32, Fail> {
    let kind = chance.below(3);
    if kind > 0 {
        drawn.graph.push_str(source())?;
    }
    if kind == 1 {
        return Ok(1);
    }
    let given = kind / 2;
    write!(drawn.graph, "input_stream: \"s{given}\"\n")?;
    put_lines(&mut drawn.lines, chance, given)?;
    Ok(given + 1)
}

// Returns a calculator that reads one stream.
fn of_one(kind: u32) -> &'static str {
    match kind {
        0 => r#"calculator: "PassThroughCalculator""#,
        1 => {
            r#"calculator: "IntMapCalculator"
  options { [mediapipe.IntMapCalculatorOptions.ext] { op: ADD operand: 1 } }"#
        }
        _ => {
            r#"calculator: "IntFilterCalculator"
  options { [mediapipe.IntFilterCalculatorOptions.ext] { keep: EVEN } }"#
        }
    }
}

// Returns a calculator that reads two streams.
fn of_two(kind: u32) -> &'static str {
    match kind {
        3 => r#"calculator: "IntSumCalculator""#,
        _ => r#"calculator: "MergeCalculator""#,
    }
}

// Appends a node whose output is the stream of number `made`. It reads streams of lower numbers.
fn put_node(graph: &mut String, chance: &mut Chance, made: u32) -> Result<(), Fail> {
    let kind = chance.below(5);
    let first = chance.below(made);
    let second = chance.below(made);
    if kind < 3 {
        let calculator = of_one(kind);
        write!(
            graph,
            "node {{ {calculator} input_stream: \"s{first}\" output_stream: \"s{made}\" }}\n"
        )?;
        return Ok(());
    }
    let calculator = of_two(kind);
    write!(
        graph,
        "node {{ {calculator} input_stream: \"s{first}\" input_stream: \"s{second}\" output_stream: \"s{made}\" }}\n"
    )?;
    Ok(())
}

// Appends nodes whose outputs are the streams from number `first` on, up to and without `end`.
fn put_nodes(graph: &mut String, chance: &mut Chance, first: u32, end: u32) -> Result<(), Fail> {
    for made in first..end {
        put_node(graph, chance, made)?;
    }
    Ok(())
}

/// Returns the graph of a seed, with 3 to 8 nodes after its source and its input.
pub fn draw_graph(alloc: Global, seed: u64) -> Result<Drawn, Fail> {
    let mut chance = Chance::new(seed);
    let mut drawn = Drawn {
        graph: String::new(alloc),
        lines: String::new(alloc),
    };
    let first = put_beginning(&mut drawn, &mut chance)?;
    let end = chance.below(6).saturating_add(first).saturating_add(3);
    put_nodes(&mut drawn.graph, &mut chance, first, end)?;
    let last = end.saturating_sub(1);
    write!(drawn.graph, "output_stream: \"s{last}\"\n")?;
    Ok(drawn)
}

/// Returns the case of a graph that was drawn, with what is wanted of it.
pub fn drawn_case<'a>(drawn: &'a Drawn, wanted: &'a str) -> Case<'a> {
    Case {
        graph: drawn.graph.as_str(),
        lines: drawn.lines.as_str(),
        limit: 100,
        wanted,
        calls: ";;",
    }
}
