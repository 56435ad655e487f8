ghost use Rattle.mg_feed.specs.Sent.{Sent};

use mg_edge::{Put, Sink};

/// Writes all the bytes, with as many writes as the sink needs. Returns false if a write failed: the sink then took a prefix of the
/// bytes, perhaps none. The function takes no memory.
pub fn put_all<K: Sink>(sink: &mut K, bytes: &[u8]) -> bool
    ensures { Sent result (K.told sink.old) (K.told sink.new) bytes.now }
{
    let mut left = bytes;
    while !left.is_empty() {
        match sink.write(left) {
            Put::Took(count) => left = left.split_at(count).1,
            Put::Failed => return false,
        }
    }
    true
}
