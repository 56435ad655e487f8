ghost use Rattle.std.specs.Prelude.{◌≡◌, ◌==◌, ◌<◌, ◌^◌, ◌↔◌, map, length, slice_get, option_map, IsOk, IfOk, IfErr};

use crate::{MgText, Payload};
use std::alloc::AllocFailed;
use std::marker::Model;

/// An entry of a record.
#[cycle(payload)]
#[derive(Debug, Drop)]
pub struct Entry {
    pub key: MgText,
    pub value: Payload,
}

/// The entries of a record, with keys in strictly ascending byte order.
#[cycle(payload)]
#[derive(Debug, Drop)]
pub struct RecordList {
    entries: Vec<Entry>,
}

impl Model for RecordList {
    ghost use Rattle.std.specs.Prelude.{List, map, ◌<◌, ◌^◌, vec_len};
    ghost use Rattle.mg_value.specs.Plain.{PlainEntry, entries_depth, entries_of};
    ghost use Rattle.mg_value.specs.Codes.{plain_entries_code};

    ghost Value = { List PlainEntry };

    ghost coded = { plain_entries_code };

    ghost use Rattle.mg_value.specs.Payload.{plain_entry, KeysAscend};

    ghost view = { λ l. map plain_entry l.entries.items };

    ghost invariant = { λ l. KeysAscend (map plain_entry l.entries.items) × (vec_len l.entries < 2 ^ 32) };

    ghost size = { λ es. entries_depth (entries_of es) };

    ghost use Rattle.mg_value.specs.PayloadFalls.{entries_fall};

    ghost size_decreases = { λ l _. entries_fall l.entries.items };
}

impl RecordList {
    ghost use Rattle.mg_value.specs.Payload.{plain_entry, KeysAscend};

    /// Makes a record of a vector's entries. Their keys have to ascend strictly in byte order. 2^32 entries or more are refused as
    /// out of memory, and the vector comes back.
    pub fn from_vec(entries: Vec<Entry>) -> Result<RecordList, AllocFailed<Vec<Entry>>>
        requires { KeysAscend (map plain_entry entries.items) }
        ensures ok { IsOk result ↔ (length entries.items < 2 ^ 32) }
        ensures entries { IfOk result (λ l. l ≡ map plain_entry entries.items) }
        ensures value_returned { IfErr result (λ e. e.value ≡ entries) }
    {
        if entries.len() < 1 << 32 {
            Ok(RecordList { entries })
        } else {
            Err(AllocFailed { value: entries })
        }
    }

    /// Returns how many entries there are.
    pub fn len(&self) -> u32
        ensures { result ≡ length self.now }
    {
        self.entries.len() as u32
    }

    /// Returns whether there is no entry.
    pub fn is_empty(&self) -> bool
        ensures { result ≡ (length self.now == 0) }
    {
        self.entries.is_empty()
    }

    /// Returns the entry at a place, from 0 on, in the order of the keys, or None after the last.
    pub fn get(&self, i: u32) -> Option<&Entry>
        ensures { option_map (λ e. plain_entry e.now) result ≡ slice_get self.now i }
    {
        self.entries.get(i as usize)
    }

    /// Returns all entries, in the order of their keys.
    pub fn as_slice(&self) -> &[Entry]
        ensures entries { map plain_entry result.now ≡ self.now }
        ensures ascend { KeysAscend self.now }
    {
        self.entries.as_slice()
    }
}
