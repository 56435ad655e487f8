//! Runs the worked rows of the program. Reads a table of JSON lines from standard input. Makes the calls of the table's
//! cases over devices in memory, and compares each outcome with what the case wants. Writes a line for each case that
//! differs, and last how many failed and whether the table is whole: whether it has as many rows as one of its lines tells. `docs/ROWS.md` says what the lines of a table are.
#![tactic(auto)]

mod call;
mod case;
mod choice;
mod devices;
mod log;
mod member;
mod report;
mod text;
mod turn;
mod watch;

use crate::case::{Verdict, judge};
use std::collections::BTreeMap;
use std::io;

fn main(rt: HostRuntime) -> io::Result<()> {
    let alloc = rt.alloc();
    let mut texts = BTreeMap::new(alloc);
    let (mut number, mut passed, mut failed) = (0u64, 0u64, 0u64);
    let mut told = None;
    for line in rt.lines(alloc) {
        number = number.saturating_add(1);
        match judge(&rt, alloc, &mut texts, line?.as_str()) {
            Ok(Verdict::Said) => {}
            Ok(Verdict::Counts(rows)) => told = Some(rows),
            Ok(Verdict::Passed) => passed = passed.saturating_add(1),
            Ok(Verdict::Failed(how)) => {
                failed = failed.saturating_add(1);
                println!(rt; "line {number}: {how}")?;
            }
            Err(why) => {
                failed = failed.saturating_add(1);
                println!(rt; "line {number} is none of a table: {why}")?;
            }
        }
    }
    if told == Some(passed.saturating_add(failed)) {
        println!(rt; "the whole table: {failed} failed")
    } else {
        println!(rt; "the table isn't whole: {passed} passed, {failed} failed")
    }
}
