ghost use Rattle.std.specs.Prelude.{◌≡◌, ◌∷◌, [], IfOk, is_some, take, option_copied};
ghost use Rattle.std.specs.List.{list_any};
ghost use Rattle.mg_calc.specs.Answer.{emission_of, laid};
ghost use Rattle.mg_route.specs.Places.{first_places};

use mg_calc::{Emission, Laid, ShortList, State, no_emission, one_output, one_packet};
use mg_settled::InputSet;
use mg_time::Timestamp;
use mg_value::Packet;
use std::alloc::{AllocError, Global};
use std::sync::Arc;

/// Places whose packets can be taken by number: a set or a state. A state's payloads become packets at the time that is asked for.
pub trait Places {
    ghost use Rattle.std.specs.Prelude.{ℕ, Option};
    ghost use Rattle.mg_value.specs.Plain.{Plain};
    ghost use Rattle.mg_value.specs.Packet.{Stamped};

    /// The packet at a number, if there is one, as it is taken at a time.
    ghost place: { Self → ℕ → ℕ → Option (Stamped Plain) };

    /// Whether there is a packet at a number.
    fn is_full(&self, i: u32) -> bool
        ensures { (t : ℕ) → result ≡ is_some (place self.now t i) };

    /// Returns the packet at a number, if there is one. It shares the payload.
    fn packet(&self, at: Timestamp, i: u32) -> Result<Option<Packet>, AllocError>
        ensures { IfOk result (λ p. p ≡ place self.now at i) };
}

impl Places for InputSet {
    ghost use Rattle.mg_calc.specs.Values.{place_at};

    ghost place = { λ set t i. place_at set i };

    fn is_full(&self, i: u32) -> bool {
        self.get(i).is_some()
    }

    fn packet(&self, _at: Timestamp, i: u32) -> Result<Option<Packet>, AllocError> {
        match self.get(i) {
            Some(packet) => Ok(Some(packet.try_clone()?)),
            None => Ok(None),
        }
    }
}

impl Places for State {
    ghost use Rattle.mg_calc.specs.State.{kept_at};
    ghost use Rattle.mg_calc.specs.Routing.{copy_at};

    ghost place = { λ state t i. copy_at t (kept_at state i) };

    fn is_full(&self, i: u32) -> bool {
        self.place(i).is_some()
    }

    fn packet(&self, at: Timestamp, i: u32) -> Result<Option<Packet>, AllocError> {
        match self.place(i) {
            Some(payload) => {
                let payload = Arc::try_clone(payload)?;
                Ok(Some(Packet { at, payload }))
            }
            None => Ok(None),
        }
    }
}

// Whether one of the first `count` places has a packet.
fn has_packet<P: Places>(from: &P, at: Timestamp, count: u32) -> bool
    ensures { result ≡ list_any is_some (first_places (P.place from.now at) count) }
{
    for i in 0..count {
        if from.is_full(i) {
            return true;
        }
    }
    false
}

/// Returns the emission of the packets of the first `count` places, each at the output of its number.
pub fn placed<P: Places>(
    alloc: Global,
    from: &P,
    at: Timestamp,
    count: u32,
) -> Result<Emission, AllocError>
    ensures { IfOk result (λ emission. emission ≡ emission_of (first_places (P.place from.now at) count)) }
{
    if !has_packet(from, at, count) {
        return no_emission(alloc);
    }
    if count == 1 {
        return Ok(one_output(entry(alloc, from, at, 0)?));
    }
    let mut entries = Vec::with_capacity(alloc, count as usize)?;
    for i in 0..count {
        entries.push(entry(alloc, from, at, i)?)?;
    }
    Ok(ShortList::from_vec(entries)?)
}

// Returns the packet of a place, if there is one, as what is laid at an output.
fn entry<P: Places>(alloc: Global, from: &P, at: Timestamp, i: u32) -> Result<Laid, AllocError>
    ensures { IfOk result (λ entry. entry ≡ laid (P.place from.now at i)) }
{
    let packet = from.packet(at, i)?;
    let entry = Laid::new(alloc, packet, None)?;
    Ok(entry)
}

/// Returns the emission of the packets at the first ports of a set, each at the output of its number.
#[inline(always)]
pub fn front(alloc: Global, set: &InputSet, lanes: u32) -> Result<Emission, AllocError>
    ensures { IfOk result (λ emission. emission ≡ emission_of (take lanes set.now)) }
{
    if lanes == 1 {
        let only = handed_on(alloc, set.get(0))?;
        return Ok(only);
    }
    let emission = several(alloc, set, lanes)?;
    Ok(emission)
}

fn several(alloc: Global, set: &InputSet, lanes: u32) -> Result<Emission, AllocError>
    ensures { IfOk result (λ emission. emission ≡ emission_of (take lanes set.now)) }
{
    // Packets of a set have their own times, whatever time is asked for.
    placed(alloc, set, Timestamp::MIN, lanes.min(set.len()))
}

/// Returns the emission of a packet, if there is one, by a calculator with one output.
#[inline(always)]
pub fn handed_on(alloc: Global, packet: Option<&Packet>) -> Result<Emission, AllocError>
    ensures { IfOk result (λ emission. emission ≡ emission_of (option_copied packet.entry ∷ [])) }
{
    match packet {
        Some(packet) => Ok(one_packet(packet.try_clone()?)),
        None => no_emission(alloc),
    }
}
