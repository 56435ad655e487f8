ghost use Rattle.std.specs.Prelude.{◌≡◌};
ghost use Rattle.std.specs.Iterator.{YieldsFirstRef, item_count};

use crate::chain::Entry;
use mg_value::Packet;
use slab::Slab;
use std::marker::Model;

/// An iterator over the packets that wait at a port of a pool, in order. Contracts see the list of those that are still to come.
#[derive(Drop)]
pub struct Waits<'a> {
    pub(crate) entries: &'a Slab<Entry>,
    pub(crate) next: usize,
    pub(crate) left: u64,
}

impl<'a> Model for Waits<'a> {
    ghost use Rattle.std.specs.Prelude.{List};
    ghost use Rattle.std.specs.Coded.{coded_list};
    ghost use Rattle.mg_value.specs.Payload.{Plain};
    ghost use Rattle.mg_value.specs.Packet.{Stamped};
    ghost use Rattle.mg_value.specs.Codes.{packet_code};

    ghost Value = { List (Stamped Plain) };

    ghost coded = { coded_list packet_code };

    ghost use Rattle.mg_stream.specs.Code.Chain.{linked, packets_of};
    ghost use Rattle.std.specs.Prelude.{◌≡◌, length};

    ghost view = { λ w. packets_of (linked w.entries.now.slots w.left w.next) };

    ghost invariant = { λ w. length (linked w.entries.now.slots w.left w.next) ≡ w.left };
}

impl<'a> Iterator for Waits<'a> {
    type Item = &'a Packet;

    ghost next_gives = { YieldsFirstRef (λ s. s) };

    ghost remaining = { item_count (λ s. s) };

    fn next(&mut self) -> Option<&'a Packet> {
        if self.left == 0 {
            return None;
        }
        let entry = &self.entries[self.next];
        self.next = entry.next;
        self.left -= 1;
        Some(&entry.packet)
    }
}
