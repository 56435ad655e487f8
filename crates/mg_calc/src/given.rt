ghost use Rattle.std.specs.Prelude.{◌≡◌, ◌<◌, ◌^◌, ◌==◌, map, length, slice_get, option_map, IsOk, IfOk, IfErr, ◌↔◌};
ghost use Rattle.mg_calc.specs.Given.{given};

use mg_value::Payload;
use std::alloc::{AllocError, AllocFailed, Global};
use std::marker::Model;
use std::sync::Arc;

/// Side packets by their places. Each may be missing. Contracts see the list of their payloads as plain trees.
#[derive(Debug, Drop)]
pub struct GivenList {
    places: Vec<Option<Arc<Payload>>>,
}

impl Model for GivenList {
    ghost use Rattle.std.specs.Prelude.{List, Option, map, ◌<◌, ◌^◌, vec_len};
    ghost use Rattle.std.specs.Coded.{coded_list, coded_option};
    ghost use Rattle.mg_value.specs.Payload.{Plain};
    ghost use Rattle.mg_value.specs.Codes.{plain_code};
    ghost use Rattle.mg_calc.specs.Given.{given};

    ghost Value = { List (Option Plain) };

    ghost coded = { coded_list (coded_option plain_code) };

    ghost view = { λ l. map given l.places.items };

    ghost invariant = { λ l. vec_len l.places < 2 ^ 32 };
}

impl GivenList {
    /// Returns the list of a vector's places. For 2^32 places or more it is an error, which gives the vector back.
    pub fn from_vec(
        places: Vec<Option<Arc<Payload>>>,
    ) -> Result<GivenList, AllocFailed<Vec<Option<Arc<Payload>>>>>
        ensures ok { IsOk result ↔ (length places.items < 2 ^ 32) }
        ensures places { IfOk result (λ l. l ≡ map given places.items) }
        ensures value_returned { IfErr result (λ e. e.value ≡ places) }
    {
        if places.len() < 1 << 32 {
            Ok(GivenList { places })
        } else {
            Err(AllocFailed { value: places })
        }
    }

    /// Returns a copy, which shares the payloads.
    pub fn try_clone(&self, alloc: Global) -> Result<GivenList, AllocError>
        ensures { IfOk result (λ copy. copy ≡ self.now) }
    {
        let mut places = Vec::with_capacity(alloc, self.places.len())?;
        for place in self.places.as_slice() {
            let again = match place {
                Some(payload) => Some(Arc::try_clone(payload)?),
                None => None,
            };
            places.push(again)?;
        }
        Ok(GivenList::from_vec(places)?)
    }

    /// Returns how many places there are.
    pub fn len(&self) -> u32
        ensures { result ≡ length self.now }
    {
        self.places.len() as u32
    }

    /// Returns whether there are no places.
    pub fn is_empty(&self) -> bool
        ensures { result ≡ (length self.now == 0) }
    {
        self.places.is_empty()
    }

    /// Returns what is at a place, from 0 on: a side packet, or none if it is missing. Returns `None` if there is no such place.
    pub fn get(&self, i: u32) -> Option<&Option<Arc<Payload>>>
        ensures { option_map (λ p. given p.now) result ≡ slice_get self.now i }
    {
        self.places.get(i as usize)
    }
}
