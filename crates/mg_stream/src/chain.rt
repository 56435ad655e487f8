//! The entries of one port of a pool.
ghost use Rattle.std.specs.Prelude.{◌≡◌, ◌≢◌, ℕ, ◌+◌, ◌-◌, ◌<◌, ◌^◌, [], ◌∷◌, ◌++◌, None};
ghost use Rattle.slab.specs.Slab.{HasRoomFor, slab_len};
ghost use Rattle.mg_time.specs.Time.{next as next_time};
ghost use Rattle.mg_stream.specs.Code.Chain.{entry_at, entries_of, IsWhole};

use mg_time::Timestamp;
use mg_value::Packet;
use slab::Slab;

/// A packet that waits, and the key of the entry after it.
#[derive(Debug, Drop)]
pub(crate) struct Entry {
    pub(crate) packet: Packet,
    pub(crate) next: usize,
}

/// The entries of one port as a linked list, and the counts and the bound of the port's stream.
#[derive(Clone, Copy, Debug)]
pub(crate) struct Chain {
    pub(crate) first: usize,
    pub(crate) last: usize,
    pub(crate) waiting: u64,
    pub(crate) gone: u64,
    pub(crate) bound: Timestamp,
}

impl Chain {
    /// The chain of a port to which nothing came.
    pub(crate) const EMPTY: Chain = Chain {
        first: 0,
        last: 0,
        waiting: 0,
        gone: 0,
        bound: Timestamp::PRE_STREAM,
    };
}

/// Takes the first entry out of a chain.
pub(crate) fn pop_first(entries: &mut Slab<Entry>, chain: &mut Chain) -> Packet
    requires whole { IsWhole entries.old.slots chain.old }
    requires waits { 0 < chain.old.waiting }
    requires few { chain.old.gone + 1 < 2 ^ 64 }
    ensures entries { entries_of entries.old.slots chain.old ≡ (chain.old.first, result) ∷ entries_of entries.new.slots chain.new }
    ensures chain { chain.new ≡ record chain.old { first = chain.new.first; waiting = chain.old.waiting - 1; gone = chain.old.gone + 1 } }
    ensures others { (key : ℕ) → key ≢ chain.old.first → entry_at entries.new.slots key ≡ entry_at entries.old.slots key }
    ensures len { slab_len entries.new + 1 ≡ slab_len entries.old }
    ensures capacity { entries.new.capacity ≡ entries.old.capacity }
{
    let entry = entries.remove(chain.first);
    chain.first = entry.next;
    chain.waiting -= 1;
    chain.gone += 1;
    entry.packet
}

/// Puts a packet into a vacant entry, which becomes the last of a chain.
pub(crate) fn push_last(entries: &mut Slab<Entry>, chain: &mut Chain, packet: Packet)
    requires whole { IsWhole entries.old.slots chain.old }
    requires room { HasRoomFor entries.old 1 }
    requires few { chain.old.waiting + 1 < 2 ^ 64 }
    ensures entries { entries_of entries.new.slots chain.new ≡ entries_of entries.old.slots chain.old ++ (entries.old.vacant_key, packet) ∷ [] }
    ensures chain { chain.new ≡ record chain.old { first = chain.new.first; last = entries.old.vacant_key; waiting = chain.old.waiting + 1; bound = next_time packet.at } }
    ensures vacant { entry_at entries.old.slots entries.old.vacant_key ≡ None }
    ensures others { (key : ℕ) → key ≢ entries.old.vacant_key → (0 < chain.old.waiting → key ≢ chain.old.last)
        → entry_at entries.new.slots key ≡ entry_at entries.old.slots key }
    ensures len { slab_len entries.new ≡ slab_len entries.old + 1 }
    ensures capacity { entries.new.capacity ≡ entries.old.capacity }
{
    let bound = packet.at.next_allowed();
    let key = entries.insert_reserved(Entry { packet, next: 0 });
    chain.bound = bound;
    if chain.waiting == 0 {
        chain.first = key;
        chain.last = key;
        chain.waiting = 1;
        return;
    }
    entries[chain.last].next = key;
    chain.last = key;
    chain.waiting += 1;
}
