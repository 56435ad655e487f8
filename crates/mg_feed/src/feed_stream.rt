ghost use Rattle.std.specs.Prelude.{◌<◌, ◌^◌, vec_len};

use mg_time::Timestamp;
use mg_value::Packet;

/// What is known of an input stream: the packets that weren't taken yet, its bound, and whether packets were taken before.
#[derive(Drop)]
pub struct FeedStream {
    pub packets: Vec<Packet>,
    pub bound: Timestamp,
    pub taken: bool,
    ghost small: { vec_len packets < 2 ^ 32 },
}
