//! How a run goes on if nothing comes between its batches.
ghost use Rattle.mg_drive.specs.Batches.{PlainOnward};

use crate::Onward;
use mg_feed::BatchEnd;

/// Returns that the next batch is due, or that the input ended with the last one.
pub(crate) fn plain_onward(last: BatchEnd) -> Onward
    ensures { PlainOnward last result }
{
    match last {
        BatchEnd::More => Onward::Next,
        BatchEnd::End(end) => Onward::End(end),
    }
}
