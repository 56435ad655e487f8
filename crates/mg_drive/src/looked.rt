//! The streams of a net at rest, as free nodes read them.
ghost use Rattle.mg_sched.specs.Looks.{HasFrom};
ghost use Rattle.mg_drive.specs.Code.Live.{AreRested};

use crate::Driven;
use mg_live::Streams;
use mg_time::Timestamp;
use mg_value::Packet;

/// The streams of a net that has come to rest.
#[derive(Drop)]
pub(crate) struct Looked<'n, N: Driven> {
    pub net: &'n N,
}

impl<'n, N: Driven> Streams for Looked<'n, N> {
    ghost are = { λ l streams. AreRested N.laws (N.net l.net.now) streams };

    ghost has_from = { λ l stream number. HasFrom (N.net l.net.now) stream number };

    fn packet(&self, stream: u32, number: u64) -> Option<&Packet> {
        self.net.packet(stream, number)
    }

    fn bound(&self, stream: u32) -> Timestamp {
        self.net.bound(stream)
    }
}
