ghost use Rattle.std.specs.Prelude.{◌≡◌, ◌<◌, ℕ, List, length, slice_get, option_copied};
ghost use Rattle.mg_value.specs.Payload.{Plain};
ghost use Rattle.mg_settled.specs.Prefix.{StreamPrefix};
ghost use Rattle.mg_calc.specs.Equations.{stream_of};

use mg_time::Timestamp;
use mg_value::Packet;

/// Streams that can be read by their numbers.
pub trait Streams {
    /// A list has these streams, by number.
    ghost are: { Self → List (StreamPrefix Plain) → Type 0 };

    /// The packets of a stream can be read from a number on: only earlier ones may be given up.
    ghost has_from: { Self → ℕ → ℕ → Type 0 };

    /// Returns a stream's packet by its number, from 0 on, or none if the stream has no such packet.
    fn packet(&self, stream: u32, number: u64) -> Option<&Packet>
        requires there { has_from self.now stream number }
        requires streams { (streams : List (StreamPrefix Plain)) × are self.now streams }
        ensures { (streams : List (StreamPrefix Plain)) → are self.now streams → option_copied result ≡ slice_get (stream_of streams stream).packets number };

    /// Returns the bound of a stream.
    fn bound(&self, stream: u32) -> Timestamp
        requires { (streams : List (StreamPrefix Plain)) × are self.now streams × (stream < length streams) }
        ensures { (streams : List (StreamPrefix Plain)) → are self.now streams → result ≡ (stream_of streams stream).bound };
}
