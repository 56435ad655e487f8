//! Answers of loopbacks, which go from the intake to the one output.
ghost use Rattle.std.specs.Prelude.{◌<◌, ◌+◌, ◌^◌};
ghost use Rattle.mg_node.specs.Intakes.{HasLoop};
ghost use Rattle.mg_node.specs.Code.Replying.{MayLay, Replies};

use crate::Intake;
use crate::laid::append;
use mg_loopback::Answered;
use mg_stream::Queue;

/// What became of a loopback's next answer.
#[derive(Clone, Copy, Debug, PartialEq, Eq)]
pub enum Replied {
    /// The answer is laid.
    Laid,
    /// The answer can't be told yet, and nothing has changed.
    NotYet,
    /// Out of memory: nothing has changed.
    OutOfMemory,
}

/// Lays the answer to the next packet of MAIN, if the answer can be told.
pub(crate) fn reply(output: &mut Queue, intake: &mut Intake) -> Replied
    requires looped { HasLoop intake.old.waits }
    requires few { intake.old.claimed + 1 < 2 ^ 64 }
    requires may_lay { MayLay output.old intake.old.waits }
    ensures { Replies result output.old output.new intake.old intake.new }
{
    if output.reserve(1).is_err() {
        return Replied::OutOfMemory;
    }
    match intake.answer() {
        Answered::NotYet => Replied::NotYet,
        Answered::Silent { .. } => Replied::Laid,
        Answered::Packet(packet) => {
            append(output, packet);
            Replied::Laid
        }
    }
}
