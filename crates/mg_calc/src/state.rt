ghost use Rattle.std.specs.Prelude.{◌≡◌, ◌∷◌, ◌++◌, map, option_map, option_copied, slice_get, [], true, IfOk, OnErr};
ghost use Rattle.std.specs.Option.{option_to_list};
ghost use Rattle.std.specs.Arc.{arc_value};
ghost use Rattle.mg_value.specs.Payload.{plain};
ghost use Rattle.mg_calc.specs.Given.{given};
ghost use Rattle.mg_calc.specs.Values.{stored};
ghost use Rattle.mg_calc.specs.State.{state_of, number_in, count_in, time_kept as its_time, next_valid as its_next_valid, kept_at, kept_list, full_places};

use mg_time::Timestamp;
use mg_value::Payload;
use std::alloc::{AllocError, Global};
use std::marker::Model;
use std::sync::Arc;

/// What a calculator keeps between its calls: nothing, a number, or places that have a payload or none. Contracts see a list of plain
/// payloads: a number as itself, and each place as a list of its payload or an empty list. Payloads are shared, and a number
/// allocates nothing. A list that is gathered is kept as places that are all full, and grows in place.
#[derive(Debug)]
pub struct State {
    kept: Kept,
}

#[derive(Debug, Drop)]
enum Kept {
    Nothing,
    Number(i64),
    Places(Vec<Option<Arc<Payload>>>),
    Full(Vec<Arc<Payload>>),
}

impl Model for State {
    ghost use Rattle.std.specs.Prelude.{List};
    ghost use Rattle.std.specs.Coded.{coded_list};
    ghost use Rattle.mg_value.specs.Payload.{Plain};
    ghost use Rattle.mg_value.specs.Codes.{plain_code};

    ghost Value = { List Plain };

    ghost coded = { coded_list plain_code };

    ghost use Rattle.mg_calc.specs.Code.StateView.{payloads_of};

    ghost view = { λ s. payloads_of s.kept };
}

// Written out, so that proofs about code that drops a state needn't ask what it keeps.
impl Drop for State {
    fn drop(self) {
        let State { kept } = self;
        drop(kept);
    }
}

impl State {
    /// Returns the state that keeps nothing.
    pub fn empty() -> State
        ensures { result ≡ [] }
    {
        State {
            kept: Kept::Nothing,
        }
    }

    /// Returns the state of one number.
    pub fn of_number(number: i64) -> State
        ensures { result ≡ state_of number }
    {
        State {
            kept: Kept::Number(number),
        }
    }

    /// Returns the state of places. Each place keeps a payload or none.
    pub fn of_places(places: Vec<Option<Arc<Payload>>>) -> State
        ensures { result ≡ map (λ place. stored (given place)) places.items }
    {
        State {
            kept: Kept::Places(places),
        }
    }

    /// Returns the number that the state keeps, or 0 if it keeps none.
    pub fn number(&self) -> i64
        ensures { result ≡ number_in self.now }
    {
        match &self.kept {
            Kept::Number(number) => *number,
            Kept::Nothing => 0,
            Kept::Places(_) => 0,
            Kept::Full(_) => 0,
        }
    }

    /// Returns the number that the state keeps as a count, or 0 if it keeps none or a negative one.
    pub fn count(&self) -> u64
        ensures { result ≡ count_in self.now }
    {
        match &self.kept {
            Kept::Number(number) if *number >= 0 => *number as u64,
            Kept::Number(_) => 0,
            Kept::Nothing => 0,
            Kept::Places(_) => 0,
            Kept::Full(_) => 0,
        }
    }

    /// Returns the timestamp from which on a thinner with this state lets a packet pass: PreStream if it keeps no number.
    pub fn next_valid(&self) -> Timestamp
        ensures { result ≡ its_next_valid self.now }
    {
        match &self.kept {
            Kept::Number(number) => time_kept(*number),
            Kept::Nothing => Timestamp::PRE_STREAM,
            Kept::Places(_) => Timestamp::PRE_STREAM,
            Kept::Full(_) => Timestamp::PRE_STREAM,
        }
    }

    /// Returns the payload at a place, from 0 on, or none if the place is empty or there is no such place.
    pub fn place(&self, i: u32) -> Option<&Arc<Payload>>
        ensures { option_map (λ p. plain (arc_value p.now)) result ≡ kept_at self.now i }
    {
        match &self.kept {
            Kept::Places(places) => places.get(i as usize)?.as_ref(),
            Kept::Full(list) => nth(list, i as usize),
            Kept::Nothing => None,
            Kept::Number(_) => None,
        }
    }

    /// Returns a copy, which shares the payloads.
    pub fn try_clone(&self, alloc: Global) -> Result<State, AllocError>
        ensures { IfOk result (λ copy. copy ≡ self.now) }
    {
        match &self.kept {
            Kept::Nothing => Ok(State::empty()),
            Kept::Number(number) => Ok(State::of_number(*number)),
            Kept::Places(places) => Ok(State::of_places(shared(alloc, places)?)),
            Kept::Full(list) => Ok(State {
                kept: Kept::Full(all_shared(alloc, list)?),
            }),
        }
    }

    /// Returns the payloads of the full places, in order. They are shared.
    pub fn list(&self, alloc: Global) -> Result<Vec<Arc<Payload>>, AllocError>
        ensures { IfOk result (λ list. map (λ p. plain (arc_value p)) list.items ≡ kept_list self.now) }
    {
        match &self.kept {
            Kept::Places(places) => full_ones(alloc, places),
            Kept::Full(list) => all_shared(alloc, list),
            Kept::Nothing => Ok(Vec::new(alloc)),
            Kept::Number(_) => Ok(Vec::new(alloc)),
        }
    }

    /// Keeps only the full places: empty places and a number go. On an error the state stays.
    pub fn fill(&mut self, alloc: Global) -> Result<(), AllocError>
        ensures full { IfOk result (λ _. self.new ≡ full_places (kept_list self.old)) }
        ensures same { OnErr result (self.new ≡ self.old) }
    {
        if self.is_full() {
            return Ok(());
        }
        let list = self.list(alloc)?;
        self.kept = Kept::Full(list);
        Ok(())
    }

    /// Keeps only the full places, as `fill` does, and then a further place with a payload. On an error the state stays.
    pub fn push(&mut self, alloc: Global, payload: Arc<Payload>) -> Result<(), AllocError>
        ensures more { IfOk result (λ _. self.new ≡ full_places (kept_list self.old ++ plain (arc_value payload) ∷ [])) }
        ensures same { OnErr result (self.new ≡ self.old) }
    {
        if let Kept::Full(list) = &mut self.kept {
            return put(list, payload);
        }
        let mut list = self.list(alloc)?;
        list.push(payload)?;
        self.kept = Kept::Full(list);
        Ok(())
    }

    // Whether the state is kept in the form in which all places are full.
    fn is_full(&self) -> bool
        ensures { result ≡ true → self.now ≡ full_places (kept_list self.now) }
    {
        matches!(&self.kept, Kept::Full(_))
    }
}

// Returns the payload at a place of a list, if there is one.
fn nth(list: &[Arc<Payload>], i: usize) -> Option<&Arc<Payload>>
    ensures { option_copied result ≡ slice_get list.now i }
{
    list.get(i)
}

fn share(place: &Option<Arc<Payload>>) -> Result<Option<Arc<Payload>>, AllocError>
    ensures { IfOk result (λ copy. given copy ≡ given place.now) }
{
    match place {
        Some(payload) => Ok(Some(Arc::try_clone(payload)?)),
        None => Ok(None),
    }
}

fn shared(
    alloc: Global,
    places: &[Option<Arc<Payload>>],
) -> Result<Vec<Option<Arc<Payload>>>, AllocError>
    ensures { IfOk result (λ copies. map given copies.items ≡ map given places.now) }
{
    let mut copies = Vec::with_capacity(alloc, places.len())?;
    for place in places {
        copies.push(share(place)?)?;
    }
    Ok(copies)
}

fn all_shared(alloc: Global, list: &[Arc<Payload>]) -> Result<Vec<Arc<Payload>>, AllocError>
    ensures { IfOk result (λ copies. map (λ p. plain (arc_value p)) copies.items ≡ map (λ p. plain (arc_value p)) list.now) }
{
    let mut copies = Vec::with_capacity(alloc, list.len())?;
    for payload in list {
        copies.push(Arc::try_clone(payload)?)?;
    }
    Ok(copies)
}

// Returns the payloads of the places that are full, in order.
fn full_ones(
    alloc: Global,
    places: &[Option<Arc<Payload>>],
) -> Result<Vec<Arc<Payload>>, AllocError>
    ensures { IfOk result (λ list. map (λ p. plain (arc_value p)) list.items ≡ kept_list (map (λ place. stored (given place)) places.now)) }
{
    let mut list = Vec::new(alloc);
    for place in places {
        put_full(&mut list, place)?;
    }
    Ok(list)
}

// Appends a payload to a list. Out of memory: the list stays as it is.
fn put(list: &mut Vec<Arc<Payload>>, payload: Arc<Payload>) -> Result<(), AllocError>
    ensures more { IfOk result (λ _. map (λ p. plain (arc_value p)) list.new.items ≡ map (λ p. plain (arc_value p)) list.old.items ++ plain (arc_value payload) ∷ []) }
    ensures same { OnErr result (list.new.items ≡ list.old.items) }
{
    list.push(payload)?;
    Ok(())
}

// Appends the payload of a place to a list, if the place is full.
fn put_full(list: &mut Vec<Arc<Payload>>, place: &Option<Arc<Payload>>) -> Result<(), AllocError>
    ensures { IfOk result (λ _. map (λ p. plain (arc_value p)) list.new.items ≡ map (λ p. plain (arc_value p)) list.old.items ++ option_to_list (given place.now)) }
{
    if let Some(payload) = place {
        list.push(Arc::try_clone(payload)?)?;
    }
    Ok(())
}

/// Returns the timestamp that a number kept by a thinner stands for: PreStream or one of the range by its own number, and
/// OneOverPostStream by every other number.
fn time_kept(number: i64) -> Timestamp
    ensures { result ≡ its_time number }
{
    if number == Timestamp::PRE_STREAM.raw() {
        Timestamp::PRE_STREAM
    } else {
        Timestamp::of_range(number).unwrap_or(Timestamp::ONE_OVER_POST_STREAM)
    }
}
