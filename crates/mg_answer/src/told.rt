//! The stalled streams and the status of a run.
ghost use Rattle.std.specs.Prelude.{◌≡◌, ◌≢◌, ◌↔◌, ◌<◌, ◌^◌, false, length, IfOk};
ghost use Rattle.mg_answer.specs.Answer.{is_ended};
ghost use Rattle.mg_answer.specs.Told.{status_of};
ghost use Rattle.mg_answer.specs.Report.{open_numbers};

use crate::Status;
use mg_calc::NodeFault;
use mg_feed::FeedEnd;
use mg_settled::StreamEnd;
use mg_time::Timestamp;
use std::alloc::{AllocError, Global};

/// Returns the numbers of the streams that haven't ended. `ends` says how far each stream has come.
pub fn stalled_of(alloc: Global, ends: &[StreamEnd]) -> Result<Vec<u32>, AllocError>
    requires { length ends.now < 2 ^ 32 }
    ensures { IfOk result (λ numbers. numbers.items ≡ open_numbers ends.now) }
{
    let mut numbers = Vec::new(alloc);
    for (number, end) in ends.iter().enumerate() {
        if end.bound != Timestamp::DONE {
            numbers.push(number as u32)?;
        }
    }
    Ok(numbers)
}

/// Returns the status of a run, by how its input ended, the faults of its nodes and its stalled streams.
pub fn status_of(end: FeedEnd, faults: &[NodeFault], stalled: &[u32]) -> Status
    ensures { result ≡ status_of end faults.now stalled.now }
{
    match end {
        FeedEnd::Failed { .. } => Status::ReadFault,
        FeedEnd::Refused { .. } => Status::LineRefused,
        FeedEnd::OutOfMemory => Status::OutOfMemory,
        FeedEnd::Ended if !faults.is_empty() => Status::NodeFault,
        FeedEnd::Ended if !stalled.is_empty() => Status::Stalled,
        FeedEnd::Ended => Status::Good,
    }
}

/// Returns whether an input ended well.
pub fn is_ended(end: FeedEnd) -> bool
    ensures { result ≡ is_ended end }
{
    match end {
        FeedEnd::Ended => true,
        FeedEnd::Failed { .. } => false,
        FeedEnd::Refused { .. } => false,
        FeedEnd::OutOfMemory => false,
    }
}

/// Returns whether memory ran out while the input was read.
pub fn ran_out(end: FeedEnd) -> bool
    ensures { (result ≡ false) ↔ (end ≢ FeedEnd.OutOfMemory) }
{
    match end {
        FeedEnd::Ended => false,
        FeedEnd::Failed { .. } => false,
        FeedEnd::Refused { .. } => false,
        FeedEnd::OutOfMemory => true,
    }
}
