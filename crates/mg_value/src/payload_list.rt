ghost use Rattle.std.specs.Prelude.{◌≡◌, ◌==◌, ◌<◌, ◌^◌, ◌↔◌, map, length, slice_get, option_map, IsOk, IfOk, IfErr};

use crate::Payload;
use std::alloc::AllocFailed;
use std::marker::Model;

/// Payloads in order, inside a payload.
#[cycle(payload)]
#[derive(Debug, Drop)]
pub struct PayloadList {
    payloads: Vec<Payload>,
}

impl Model for PayloadList {
    ghost use Rattle.std.specs.Prelude.{List, map, ◌<◌, ◌^◌, vec_len};
    ghost use Rattle.std.specs.Coded.{coded_list};
    ghost use Rattle.mg_value.specs.Plain.{Plain, items_depth, items_of};
    ghost use Rattle.mg_value.specs.Codes.{plain_code};

    ghost Value = { List Plain };

    ghost coded = { coded_list plain_code };

    ghost use Rattle.mg_value.specs.Payload.{plain};

    ghost view = { λ l. map plain l.payloads.items };

    ghost invariant = { λ l. vec_len l.payloads < 2 ^ 32 };

    ghost size = { λ ps. items_depth (items_of ps) };

    ghost use Rattle.mg_value.specs.PayloadFalls.{items_fall};

    ghost size_decreases = { λ l _. items_fall l.payloads.items };
}

impl PayloadList {
    ghost use Rattle.mg_value.specs.Payload.{plain};

    /// Makes a list of a vector's payloads. 2^32 payloads or more are refused as out of memory, and the vector comes back.
    pub fn from_vec(payloads: Vec<Payload>) -> Result<PayloadList, AllocFailed<Vec<Payload>>>
        ensures ok { IsOk result ↔ (length payloads.items < 2 ^ 32) }
        ensures payloads { IfOk result (λ l. l ≡ map plain payloads.items) }
        ensures value_returned { IfErr result (λ e. e.value ≡ payloads) }
    {
        if payloads.len() < 1 << 32 {
            Ok(PayloadList { payloads })
        } else {
            Err(AllocFailed { value: payloads })
        }
    }

    /// Returns how many payloads there are.
    pub fn len(&self) -> u32
        ensures { result ≡ length self.now }
    {
        self.payloads.len() as u32
    }

    /// Returns whether there is no payload.
    pub fn is_empty(&self) -> bool
        ensures { result ≡ (length self.now == 0) }
    {
        self.payloads.is_empty()
    }

    /// Returns the payload at a place, from 0 on, or None after the last.
    pub fn get(&self, i: u32) -> Option<&Payload>
        ensures { option_map (λ p. plain p.now) result ≡ slice_get self.now i }
    {
        self.payloads.get(i as usize)
    }

    /// Returns all payloads in order.
    pub fn as_slice(&self) -> &[Payload]
        ensures { map plain result.now ≡ self.now }
    {
        self.payloads.as_slice()
    }
}
