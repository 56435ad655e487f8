//! Graphs with packet lines, and what comes out of their nets.
use crate::graphs::{
    adding, choosing, counting, merging, one_two_three, passing, stalling, summing, tallying,
    throttling,
};

/// A graph with packet lines, and what is wanted of its net.
#[derive(Clone, Copy)]
pub struct Case<'a> {
    /// The text of the graph file.
    pub graph: &'a str,
    /// The packet lines of its inputs.
    pub lines: &'a str,
    /// The limit of the queues under which the graph is tried.
    pub limit: i32,
    /// What may come out of the net at rest, as `come_out` shows it: one of these lines. `..` in place of a line's sets stands for any
    /// sets.
    pub wanted: &'a str,
    /// The calls of the two calculators that come back at the end, as `show_boxes` shows them.
    pub calls: &'a str,
}

/// How many cases there are.
pub const CASES: u32 = 9;

/// Returns the case of this number, below `CASES`.
pub fn case_of(number: u32) -> Case<'static> {
    match number {
        0 => passed(),
        1 => merged(),
        2 => chosen(),
        3 => summed(),
        4 => stalled(),
        5 => added(),
        6 => counted(),
        7 => tallied(),
        _ => throttled(),
    }
}

/// Returns a case with another limit.
pub fn under(case: Case<'_>, limit: i32) -> Case<'_> {
    Case {
        graph: case.graph,
        lines: case.lines,
        limit,
        wanted: case.wanted,
        calls: case.calls,
    }
}

// Returns the part of a line after its sets.
fn behind_sets(line: &str) -> &str {
    match line.split_once('|') {
        Some((_, behind)) => behind,
        None => "",
    }
}

// Returns whether a line is the wanted one, which may have `..` in place of its sets.
fn is_line(wanted: &str, shown: &str) -> bool {
    if wanted == shown {
        return true;
    }
    match wanted.split_once('|') {
        Some(("..", behind)) => behind == behind_sets(shown),
        _ => false,
    }
}

/// Returns whether what comes out of a case is one of its wanted lines.
pub(crate) fn is_wanted(case: &Case, shown: &str) -> bool {
    case.wanted.split('\n').any(|line| is_line(line, shown))
}

// One packet is laid and taken, and all streams are closed.
fn passed() -> Case<'static> {
    Case {
        graph: passing(),
        lines: r#"{"stream":"in","ts":5,"value":7}"#,
        limit: 100,
        wanted: "7@5 | 0 | 1 ; 1@Done 1@Done ;",
        calls: ";;",
    }
}

// The packets at 10 are one set, and the merge passes on only the first of them. All that is laid is claimed or taken, so
// nothing is left.
fn merged() -> Case<'static> {
    Case {
        graph: merging(),
        lines: r#"{"at":10,"packets":{"a":1,"b":5}}
{"stream":"b","ts":20,"value":7}
{"stream":"a","ts":30,"value":3}"#,
        limit: 100,
        wanted: "1@10 7@20 3@30 | 0 | 3 ; 2@Done 2@Done 3@Done ;",
        calls: ";;",
    }
}

// The second packet of sel chooses a stream that isn't there: the node fails, with its output raised to that time. The first choice waits
// for the packets of b. At the second choice all packets go that have come. If the packets of a come only after that, both wait in vain.
fn chosen() -> Case<'static> {
    Case {
        graph: choosing(),
        lines: r#"{"at":10,"packets":{"a":1,"b":2,"sel":1}}
{"at":20,"packets":{"a":3,"b":4,"sel":2}}"#,
        limit: 100,
        wanted: "2@10 | 0 | 2 ; 2@Done 2@Done 2@Done 1@20 ; 0 at 20 BadSelect
2@10 | 2 | 2 ; 2@Done 2@Done 2@Done 1@20 ; 0 at 20 BadSelect",
        calls: ";;",
    }
}

/// Returns the case of a loop of sums. The first of the loopback's three answers is empty. The last sum waits at LOOP: it would
/// be the answer to a packet after 30.
pub fn summed() -> Case<'static> {
    Case {
        graph: summing(),
        lines: one_two_three(),
        limit: 100,
        wanted: "1@10 3@20 6@30 | 1 | 3 3 ; 3@Done 2@Done 3@Done ;",
        calls: ";;",
    }
}

// The first sum is odd and doesn't come back. So the packets at 20 and 30 wait at MAIN and at the sum, and the bound of the
// sum is 20.
fn stalled() -> Case<'static> {
    Case {
        graph: stalling(),
        lines: one_two_three(),
        limit: 100,
        wanted: "1@10 | 4 | 1 1 1 ; 3@Done 0@20 1@20 0@PreStream ;",
        calls: ";;",
    }
}

/// Returns a case in which none of three packets passes the filter.
pub fn throttled() -> Case<'static> {
    Case {
        graph: throttling(),
        lines: "",
        limit: 1,
        wanted: "0@0 1@1 2@2 | 0 | 3 3 3 ; 3@Done 0@Done 3@Done ;",
        calls: ";;",
    }
}

/// Returns a case in which each packet comes out greater by ten.
pub fn added() -> Case<'static> {
    Case {
        graph: adding(),
        lines: r#"{"stream":"in","ts":1,"value":5}
{"stream":"in","ts":2,"value":6}"#,
        limit: 100,
        wanted: "15@1 16@2 | 0 | 2 ; 2@Done 2@Done ;",
        calls: ";;",
    }
}

// The first calculator is shown all three packets, and the other calculator the even one.
fn counted() -> Case<'static> {
    Case {
        graph: counting(),
        lines: one_two_three(),
        limit: 100,
        wanted: "1@10 - 2@20 1@20 3@30 - | 0 | 3 3 1 ; 3@Done 3@Done 1@Done 1@Done ;",
        calls: " begun 10 20 30 finished; begun 20 finished;",
    }
}

// A user-supplied calculator is shown both packets.
fn tallied() -> Case<'static> {
    Case {
        graph: tallying(),
        lines: r#"{"stream":"in","ts":1,"value":"a"}
{"stream":"in","ts":4,"value":"b"}"#,
        limit: 100,
        wanted: "1@1 2@4 | 0 | 2 ; 2@Done 2@Done ;",
        calls: " begun 1 4 finished;;",
    }
}
