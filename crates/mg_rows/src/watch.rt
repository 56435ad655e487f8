//! The gate that watches the Process calls of a call of the program.

use crate::member::numbers;
use anyhow::{Result, bail};
use mg_edge::{Gate, MeetGate};
use serde_json::Value;
use std::alloc::Global;
use std::sync::atomic::{AtomicU64, Ordering};

/// A gate that counts the Process calls of node 0, and how many of them don't come in turn. Calls have the numbers from 0 on, and each
/// enters and leaves before the next one. At the gate two calls may also have to meet.
#[derive(Drop)]
pub struct Watch {
    entered: AtomicU64,
    left: AtomicU64,
    out_of_turn: AtomicU64,
    meeting: MeetGate,
}

/// Returns the gate of a case. The case may say that two calls meet at the gate. It says the node and the number of each, and for how many
/// turns the first call waits.
pub fn watch_of(alloc: Global, case: &Value) -> Result<Watch> {
    match numbers(alloc, case, "meet")?.as_slice() {
        [] => Ok(Watch::new(MeetGate::new((u32::MAX, 0), (u32::MAX, 0), 0))),
        [node, number, other, of_other, turns] => Ok(Watch::new(MeetGate::new(
            (node_of(*node)?, *number),
            (node_of(*other)?, *of_other),
            *turns,
        ))),
        _ => bail!("meet: not five numbers"),
    }
}

fn node_of(number: u64) -> Result<u32> {
    let Ok(node) = u32::try_from(number) else {
        bail!("meet: no node: {number}");
    };
    Ok(node)
}

impl Watch {
    fn new(meeting: MeetGate) -> Watch {
        Watch {
            entered: AtomicU64::new(0),
            left: AtomicU64::new(0),
            out_of_turn: AtomicU64::new(0),
            meeting,
        }
    }

    // Counts a call as out of turn if the two numbers aren't the same.
    fn note(&self, number: u64, others: u64) {
        if number != others {
            self.out_of_turn.fetch_add(1, Ordering::SeqCst);
        }
    }

    /// Returns how many calls of node 0 have entered, how many have left, and how many have come out of turn.
    pub fn counts(&self) -> (u64, u64, u64) {
        (
            self.entered.load(Ordering::SeqCst),
            self.left.load(Ordering::SeqCst),
            self.out_of_turn.load(Ordering::SeqCst),
        )
    }

    /// Returns whether the two calls have met.
    pub fn met(&self) -> bool {
        self.meeting.met()
    }
}

impl Gate for Watch {
    fn enter(&self, node: u32, number: u64) {
        if node == 0 {
            self.note(number, self.left.load(Ordering::SeqCst));
            self.note(number, self.entered.fetch_add(1, Ordering::SeqCst));
        }
        self.meeting.enter(node, number);
    }

    fn leave(&self, node: u32, number: u64) {
        if node == 0 {
            self.note(number, self.left.fetch_add(1, Ordering::SeqCst));
        }
    }
}
