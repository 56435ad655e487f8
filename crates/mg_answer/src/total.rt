//! The totals of the packets of one output.
ghost use Rattle.std.specs.Prelude.{◌≡◌, ◌<◌, ◌^◌, ◌-◌, ◌+◌, Some, unwrap_or};
ghost use Rattle.std.specs.Option.{option_copied};
ghost use Rattle.mg_answer.specs.Summary.{addend};
ghost use Rattle.mg_answer.specs.Code.Adding.{with_place, IsWithin};

use mg_time::Timestamp;
use mg_value::{Packet, Payload};

/// How many packets an output has in some sets, when the first and the last of them stand, and the sum of its whole numbers.
#[derive(Drop)]
pub struct Total {
    pub packets: u64,
    pub first: Option<Timestamp>,
    pub last: Option<Timestamp>,
    pub sum: i128,
}

impl Total {
    /// Adds what the output has in one more set: a packet, or none. `sets` is how many sets were added before.
    pub fn add(&mut self, packet: Option<&Packet>, sets: u64)
        requires few { sets < 2 ^ 64 - 1 }
        requires within { IsWithin sets self.old }
        ensures total { self.new ≡ with_place self.old (option_copied packet.entry) }
        ensures within { IsWithin (sets + 1) self.new }
    {
        if let Some(packet) = packet {
            self.add_packet(packet, sets);
        }
    }

    // Adds a packet. `sets` is how many sets were added before.
    fn add_packet(&mut self, packet: &Packet, sets: u64)
        requires few { sets < 2 ^ 64 - 1 }
        requires within { IsWithin sets self.old }
        ensures total { self.new ≡ with_place self.old (Some packet.now) }
        ensures within { IsWithin (sets + 1) self.new }
    {
        self.packets += 1;
        self.first = first_of(self.first, packet.at);
        self.last = Some(packet.at);
        self.sum += i128::from(number_in(packet));
    }
}

// Returns `first` if there is one, or else `at`.
fn first_of(first: Option<Timestamp>, at: Timestamp) -> Option<Timestamp>
    ensures { result ≡ Some (unwrap_or first at) }
{
    match first {
        Some(first) => Some(first),
        None => Some(at),
    }
}

// Returns the whole number that a packet holds, or 0 if its payload is of another kind.
fn number_in(packet: &Packet) -> i64
    ensures { result ≡ addend packet.now.value }
{
    match &*packet.payload {
        Payload::Int(number) => *number,
        _ => 0,
    }
}
