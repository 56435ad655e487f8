ghost use Rattle.std.specs.Prelude.{◌≡◌, ◌<◌, ◌≤◌, ◌≤ℤ◌, ◌↔◌, ℕ, ℤ, map, IsTrue, IsSome, IsNone, IfSome, IfOk, Some, FitsSigned};
ghost use Rattle.std.specs.Int.{w64};
ghost use Rattle.std.specs.Fmt.{signed_decimal};
ghost use Rattle.mg_time.specs.Time.{raw_of, constant_places, constant_numbers, place_of, least, greatest, IsRange, IsAllowed, next, shift};
ghost use Rattle.mg_time.specs.Text.{Spells, time_text};

use itoa::Buffer;
use std::alloc::{AllocError, Global};
use std::fmt;
use std::marker::Model;

/// A point on the one clock that orders all packets of a graph. It is a signed 64-bit number in a unit that the graph's
/// author picks (microseconds by custom). Eight values are set apart (MediaPipe, Packets). `MIN` to `MAX` are the
/// range, in which ordinary packets stand.
#[derive(Clone, Copy, PartialEq, Eq, PartialOrd, Ord, Hash)]
pub struct Timestamp {
    place: u64,
}

impl Model for Timestamp {
    ghost use Rattle.std.specs.Prelude.{ℕ};

    ghost Value = { ℕ };

    ghost view = { λ t. t.place };

    ghost inverse = { λ n. record { place = n } };
}

impl Timestamp {
    /// The value of no timestamp yet: -2^63.
    pub const UNSET: Timestamp = Timestamp { place: 0 };

    /// The time before a graph is started: -2^63 + 1.
    pub const UNSTARTED: Timestamp = Timestamp { place: 1 };

    /// The time of a packet that is a stream's header: -2^63 + 2. No packet may follow it.
    pub const PRE_STREAM: Timestamp = Timestamp { place: 2 };

    /// The least timestamp of the range: -9223372036854775805.
    pub const MIN: Timestamp = Timestamp { place: 3 };

    /// The greatest timestamp of the range: 9223372036854775804.
    pub const MAX: Timestamp = Timestamp {
        place: u64::MAX - 3,
    };

    /// The time of a packet that stands for a whole stream, and is its only one: 2^63 - 3.
    pub const POST_STREAM: Timestamp = Timestamp {
        place: u64::MAX - 2,
    };

    /// The bound of a stream that takes no further packet, and isn't closed: 2^63 - 2.
    pub const ONE_OVER_POST_STREAM: Timestamp = Timestamp {
        place: u64::MAX - 1,
    };

    /// The bound of a closed stream: 2^63 - 1.
    pub const DONE: Timestamp = Timestamp { place: u64::MAX };

    /// Returns the eight constants, ascending.
    pub fn constants() -> [Timestamp; 8]
        ensures places { result ≡ constant_places }
        ensures numbers { map raw_of result ≡ constant_numbers }
    {
        [
            Timestamp::UNSET,
            Timestamp::UNSTARTED,
            Timestamp::PRE_STREAM,
            Timestamp::MIN,
            Timestamp::MAX,
            Timestamp::POST_STREAM,
            Timestamp::ONE_OVER_POST_STREAM,
            Timestamp::DONE,
        ]
    }

    /// Returns the timestamp of the range with this number, or `None` if the number isn't in the range.
    pub fn of_range(value: i64) -> Option<Timestamp>
        ensures some { IsSome result ↔ ((raw_of least ≤ℤ value) × (value ≤ℤ raw_of greatest)) }
        ensures place { IfSome result (λ t. t ≡ place_of value) }
        ensures number { IfSome result (λ t. raw_of t ≡ value) }
    {
        let place = if value < 0 {
            (value - i64::MIN) as u64
        } else {
            value as u64 + (1 << 63)
        };
        let time = Timestamp { place };
        if time.is_range() { Some(time) } else { None }
    }

    /// Returns the signed number.
    pub fn raw(self) -> i64
        ensures number { result ≡ raw_of self }
    {
        if self.place < 1 << 63 {
            self.place as i64 + i64::MIN
        } else {
            (self.place - (1 << 63)) as i64
        }
    }

    /// Returns whether the timestamp is in the range, `MIN` to `MAX`.
    pub fn is_range(self) -> bool
        ensures { IsTrue result ↔ IsRange self }
    {
        Timestamp::MIN <= self && self <= Timestamp::MAX
    }

    /// Returns whether a packet may stand at the timestamp (MediaPipe, Packets): `PRE_STREAM`, the range, or
    /// `POST_STREAM`.
    pub fn is_allowed(self) -> bool
        ensures { IsTrue result ↔ IsAllowed self }
    {
        Timestamp::PRE_STREAM <= self && self <= Timestamp::POST_STREAM
    }

    /// Returns the lowest timestamp that may follow a packet at this one (MediaPipe, Synchronization). After
    /// `PRE_STREAM`, `MAX` and all above it is `ONE_OVER_POST_STREAM`, and else one more.
    pub fn next_allowed(self) -> Timestamp
        ensures { result ≡ next self }
    {
        if Timestamp::MAX <= self || self == Timestamp::PRE_STREAM {
            Timestamp::ONE_OVER_POST_STREAM
        } else {
            Timestamp {
                place: self.place + 1,
            }
        }
    }

    /// Returns a bound moved by a node's offset. A timestamp of the range moves and stays in the range. Every other
    /// timestamp stays as it is.
    pub fn shift(self, offset: i64) -> Timestamp
        ensures { result ≡ shift self offset }
    {
        if !self.is_range() {
            return self;
        }
        let by = offset.unsigned_abs();
        if offset < 0 {
            Timestamp {
                place: self.place.saturating_sub(by).max(Timestamp::MIN.place),
            }
        } else {
            Timestamp {
                place: self.place.saturating_add(by).min(Timestamp::MAX.place),
            }
        }
    }

    /// Returns the timestamp that a text spells, if a packet may carry it. The text is a number in the range,
    /// `PreStream` or `PostStream`. A number has no zero before its digits, and a sign only if it is negative.
    pub fn read_text(text: &[u8]) -> Option<Timestamp>
        ensures read { (t : ℕ) → (result ≡ Some t) ↔ Spells text.now t }
        ensures none { IsNone result ↔ ((t : ℕ) → ¬ (Spells text.now t)) }
    {
        if text == b"PreStream".as_slice() {
            Some(Timestamp::PRE_STREAM)
        } else if text == b"PostStream".as_slice() {
            Some(Timestamp::POST_STREAM)
        } else {
            Timestamp::of_range(number_of(text)?)
        }
    }

    /// Returns the text of the timestamp: the number of a timestamp in the range, and the name of every other.
    pub fn print_text(self, alloc: Global) -> Result<Vec<u8>, AllocError>
        ensures { IfOk result (λ text. text.items ≡ time_text self) }
    {
        let mut buffer = Buffer::new();
        let text = match self {
            Timestamp::UNSET => "Unset",
            Timestamp::UNSTARTED => "Unstarted",
            Timestamp::PRE_STREAM => "PreStream",
            Timestamp::POST_STREAM => "PostStream",
            Timestamp::ONE_OVER_POST_STREAM => "OneOverPostStream",
            Timestamp::DONE => "Done",
            _ => buffer.format(self.raw()),
        };
        Vec::from_slice(alloc, text.as_bytes())
    }
}

impl fmt::Debug for Timestamp {
    fn fmt<W: fmt::Write>(&self, f: &mut fmt::Formatter<W>) -> fmt::Result {
        f.debug_tuple("Timestamp").field(&self.raw()).finish()
    }
}

// Reads a decimal number of 64 signed bits, in its one spelling.
fn number_of(text: &[u8]) -> Option<i64>
    ensures { (z : ℤ) → (result ≡ Some z) ↔ (FitsSigned w64 z × (text.now ≡ signed_decimal z)) }
{
    let Ok(digits) = str::from_utf8(text) else {
        return None;
    };
    let Ok(number) = digits.parse::<i64>() else {
        return None;
    };
    if Buffer::new().format(number).as_bytes() == text {
        Some(number)
    } else {
        None
    }
}
