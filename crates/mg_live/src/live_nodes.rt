ghost use Rattle.std.specs.Prelude.{◌≡◌, ◌<◌, ℕ, List, Some, IfOk, OnOk, true, false, length, map, replicate, slice_get};
ghost use Rattle.std.specs.List.Sorted.{IsNonDecreasing};
ghost use Rattle.mg_value.specs.Payload.{Plain};
ghost use Rattle.mg_settled.specs.Prefix.{StreamPrefix};
ghost use Rattle.mg_free.specs.declared.node.FreeNode.{FreeNode as FreeNodeView};
ghost use Rattle.mg_free.specs.Rounds.{Taken};
ghost use Rattle.mg_live.specs.declared.taker.Taker.{Taker as TakerView};
ghost use Rattle.mg_live.specs.Takes.{HaveTaken, MayRound, MayTurnIn, turns_of, nothing_taken, handed_of, outputs_so_far, told, AreRising, IsNoneOf, DidAt, ArePiecesAt, AreCountedBut};
ghost use Rattle.mg_live.specs.Due.{IsUndue, AreIdleBut};
ghost use Rattle.mg_live.specs.Code.Turned.{IsFirst, StandsBefore, HadTurn};

use crate::{Arrived, Due, Streams, Taker};
use mg_free::{FreeNode, FreeNodeList};
use mg_settled::{Prefix, PrefixList};
use mg_value::NumberList;
use std::alloc::{AllocError, Global};

/// The free nodes of a graph that runs, each with its taker.
#[derive(Drop)]
pub struct LiveNodes {
    free: FreeNodeList,
    takers: Vec<Taker>,
}

// Returns the takers of free nodes that have taken nothing.
fn takers_of(alloc: Global, frees: &[FreeNode]) -> Result<Vec<Taker>, AllocError>
    ensures taken { IfOk result (λ takers. HaveTaken frees.now (nothing_taken frees.now) takers.items) }
    ensures handed { IfOk result (λ takers. handed_of takers.items ≡ replicate (length frees.now) 0) }
{
    let mut takers = Vec::with_capacity(alloc, frees.len())?;
    for free in frees {
        takers.push(Taker::new(alloc, free)?)?;
    }
    Ok(takers)
}

// Returns whether a number of a sorted list stands there for the first time.
fn is_first(numbers: &[u32], i: usize) -> bool
    requires sorted { IsNonDecreasing numbers.now }
    requires there { i < length numbers.now }
    ensures first { result ≡ true → IsFirst numbers.now i }
    ensures again { result ≡ false → StandsBefore numbers.now i }
{
    if i == 0 {
        return true;
    }
    numbers[i - 1] < numbers[i]
}

// Gives a free node its turn, by its place in a sorted list, unless the place stands earlier in the list too. Returns whether the node did
// something.
fn turn_at<S: Streams>(
    frees: &[FreeNode],
    due: &[u32],
    i: usize,
    takers: &mut [Taker],
    streams: &S,
) -> Result<bool, AllocError>
    requires sorted { IsNonDecreasing due.now }
    requires there { i < length due.now }
    requires long { length takers.old ≡ length frees.now }
    requires may { IsFirst due.now i → (place : ℕ) (free : FreeNodeView) (taker : TakerView) → slice_get due.now i ≡ Some place → slice_get frees.now place ≡ Some free
        → slice_get takers.old place ≡ Some taker → MayTurnIn S.are S.has_from streams.now free taker }
    ensures long { length takers.new ≡ length takers.old }
    ensures handed { handed_of takers.new ≡ handed_of takers.old }
    ensures others { (place : ℕ) → ¬ (slice_get due.now i ≡ Some place) → slice_get takers.new place ≡ slice_get takers.old place }
    ensures had { IfOk result (λ did. (ss : List (StreamPrefix Plain)) → S.are streams.now ss → HadTurn ss frees.now due.now i did takers.old takers.new) }
{
    if !is_first(due, i) {
        return Ok(false);
    }
    let place = due[i] as usize;
    if place >= frees.len() {
        return Ok(false);
    }
    let did = takers[place].turn(&frees[place], streams)?;
    Ok(did)
}

// Makes a round: each free node that is due has its turn, in order. `due` has the places of these nodes. Returns the places of the free
// nodes that did something.
fn round<S: Streams>(
    alloc: Global,
    frees: &[FreeNode],
    due: &[u32],
    takers: &mut [Taker],
    streams: &S,
) -> Result<Vec<u32>, AllocError>
    requires sorted { IsNonDecreasing due.now }
    requires may { MayRound S.are S.has_from streams.now frees.now takers.old }
    requires idle { (ss : List (StreamPrefix Plain)) → S.are streams.now ss → AreIdleBut (IsNoneOf due.now) ss frees.now takers.old }
    ensures taken { (ss : List (StreamPrefix Plain)) (takens : List Taken) → S.are streams.now ss → HaveTaken frees.now takens takers.old
        → OnOk result (HaveTaken frees.now (turns_of ss frees.now takens) takers.new) }
    ensures did { (ss : List (StreamPrefix Plain)) (takens : List Taken) → S.are streams.now ss → HaveTaken frees.now takens takers.old
        → IfOk result (λ did. DidAt did.items takens (turns_of ss frees.now takens)) }
    ensures idle { IfOk result (λ did. (ss : List (StreamPrefix Plain)) → S.are streams.now ss → AreIdleBut (IsNoneOf did.items) ss frees.now takers.new) }
    ensures handed { handed_of takers.new ≡ handed_of takers.old }
{
    let mut did = Vec::new(alloc);
    for i in 0..due.len() {
        if turn_at(frees, due, i, takers, streams)? {
            did.push(due[i])?;
        }
    }
    Ok(did)
}

// Returns the log of the taker at a place.
fn log_at(takers: &[Taker], place: usize) -> &[Arrived]
    requires { place < length takers.now }
    ensures { (taker : TakerView) → slice_get takers.now place ≡ Some taker → result.now ≡ taker.log.items }
{
    takers[place].log()
}

// Returns for each of some free nodes what was laid on its output since the node last handed on.
fn hand_on(alloc: Global, takers: &mut [Taker], places: &[u32]) -> Result<Vec<Prefix>, AllocError>
    requires rising { AreRising places.now }
    requires within { (i place : ℕ) → slice_get places.now i ≡ Some place → place < length takers.old }
    ensures pieces { (frees : List FreeNodeView) (takens : List Taken) → HaveTaken frees takens takers.old
        → IfOk result (λ pieces. ArePiecesAt places.now pieces.items (handed_of takers.old) (outputs_so_far frees takens)) }
    ensures taken { (frees : List FreeNodeView) (takens : List Taken) → HaveTaken frees takens takers.old → OnOk result (HaveTaken frees takens takers.new) }
    ensures handed { (frees : List FreeNodeView) (takens : List Taken) → HaveTaken frees takens takers.old → AreCountedBut places.now (handed_of takers.old) (outputs_so_far frees takens)
        → OnOk result (handed_of takers.new ≡ map (λ s. length s.packets) (outputs_so_far frees takens)) }
    ensures others { OnOk result ((place : ℕ) → IsNoneOf places.now place → slice_get takers.new place ≡ slice_get takers.old place) }
{
    let mut pieces = Vec::new(alloc);
    for i in 0..places.len() {
        pieces.push(takers[places[i] as usize].hand_on()?)?;
    }
    Ok(pieces)
}

impl LiveNodes {
    /// Returns free nodes that have taken nothing.
    pub fn new(alloc: Global, free: FreeNodeList) -> Result<LiveNodes, AllocError>
        ensures free { IfOk result (λ live. live.free ≡ free) }
        ensures taken { IfOk result (λ live. HaveTaken free (nothing_taken free) live.takers.items) }
        ensures handed { IfOk result (λ live. handed_of live.takers.items ≡ replicate (length free) 0) }
    {
        let takers = takers_of(alloc, free.as_slice())?;
        Ok(LiveNodes { free, takers })
    }

    /// Makes a round, in streams of a graph that can go no further: each free node that is due has its turn, in order. All others have to
    /// be idle: a turn would change nothing of them. Returns the places of the free nodes that did something. After the round these are
    /// due. The cost grows with the ports of the free nodes that were due, and with the packets that they take. Their places are sorted.
    /// After an error some free nodes may have had their turns.
    pub fn round<S: Streams>(
        &mut self,
        alloc: Global,
        due: &mut Due,
        streams: &S,
    ) -> Result<NumberList, AllocError>
        requires may { MayRound S.are S.has_from streams.now self.old.free self.old.takers.items }
        requires idle { (ss : List (StreamPrefix Plain)) → S.are streams.now ss → AreIdleBut (IsUndue due.old) ss self.old.free self.old.takers.items }
        ensures free { self.new.free ≡ self.old.free }
        ensures taken { (ss : List (StreamPrefix Plain)) (takens : List Taken) → S.are streams.now ss → HaveTaken self.old.free takens self.old.takers.items
            → OnOk result (HaveTaken self.old.free (turns_of ss self.old.free takens) self.new.takers.items) }
        ensures did { (ss : List (StreamPrefix Plain)) (takens : List Taken) → S.are streams.now ss → HaveTaken self.old.free takens self.old.takers.items
            → IfOk result (λ did. DidAt did takens (turns_of ss self.old.free takens)) }
        ensures idle { OnOk result ((ss : List (StreamPrefix Plain)) → S.are streams.now ss → AreIdleBut (IsUndue due.new) ss self.old.free self.new.takers.items) }
        ensures due { IfOk result (λ did. (place : ℕ) → IsUndue due.new place → IsNoneOf did place) }
        ensures handed { handed_of self.new.takers.items ≡ handed_of self.old.takers.items }
    {
        due.sort(self.free.len())?;
        let did = self.have_turns(alloc, &due.places, streams)?;
        due.set(&did)?;
        Ok(NumberList::from_vec(did)?)
    }

    // Gives the free nodes at these places their turns, in order, and returns the places of those that did something.
    fn have_turns<S: Streams>(
        &mut self,
        alloc: Global,
        due: &[u32],
        streams: &S,
    ) -> Result<Vec<u32>, AllocError>
        requires sorted { IsNonDecreasing due.now }
        requires may { MayRound S.are S.has_from streams.now self.old.free self.old.takers.items }
        requires idle { (ss : List (StreamPrefix Plain)) → S.are streams.now ss → AreIdleBut (IsNoneOf due.now) ss self.old.free self.old.takers.items }
        ensures free { self.new.free ≡ self.old.free }
        ensures taken { (ss : List (StreamPrefix Plain)) (takens : List Taken) → S.are streams.now ss → HaveTaken self.old.free takens self.old.takers.items
            → OnOk result (HaveTaken self.old.free (turns_of ss self.old.free takens) self.new.takers.items) }
        ensures did { (ss : List (StreamPrefix Plain)) (takens : List Taken) → S.are streams.now ss → HaveTaken self.old.free takens self.old.takers.items
            → IfOk result (λ did. DidAt did.items takens (turns_of ss self.old.free takens)) }
        ensures idle { IfOk result (λ did. (ss : List (StreamPrefix Plain)) → S.are streams.now ss → AreIdleBut (IsNoneOf did.items) ss self.old.free self.new.takers.items) }
        ensures handed { handed_of self.new.takers.items ≡ handed_of self.old.takers.items }
    {
        let did = round(alloc, self.free.as_slice(), due, &mut self.takers, streams)?;
        Ok(did)
    }

    /// Returns a piece for each of some free nodes, which the caller names by their rising places. The piece is what was laid on the
    /// node's output since the node last handed on. No other free node costs anything.
    pub fn hand_on(&mut self, alloc: Global, places: &[u32]) -> Result<PrefixList, AllocError>
        requires rising { AreRising places.now }
        requires within { (i place : ℕ) → slice_get places.now i ≡ Some place → place < length self.old.takers.items }
        ensures free { self.new.free ≡ self.old.free }
        ensures pieces { (takens : List Taken) → HaveTaken self.old.free takens self.old.takers.items
            → IfOk result (λ pieces. ArePiecesAt places.now pieces (handed_of self.old.takers.items) (outputs_so_far self.old.free takens)) }
        ensures taken { (takens : List Taken) → HaveTaken self.old.free takens self.old.takers.items → OnOk result (HaveTaken self.old.free takens self.new.takers.items) }
        ensures handed { (takens : List Taken) → HaveTaken self.old.free takens self.old.takers.items → AreCountedBut places.now (handed_of self.old.takers.items) (outputs_so_far self.old.free takens)
            → OnOk result (handed_of self.new.takers.items ≡ map (λ s. length s.packets) (outputs_so_far self.old.free takens)) }
        ensures others { OnOk result ((place : ℕ) → IsNoneOf places.now place → slice_get self.new.takers.items place ≡ slice_get self.old.takers.items place) }
    {
        let pieces = hand_on(alloc, &mut self.takers, places)?;
        Ok(PrefixList::from_vec(pieces)?)
    }

    /// Returns how many free nodes there are.
    pub fn len(&self) -> usize
        ensures { result ≡ length self.now.takers.items }
    {
        self.takers.as_slice().len()
    }

    /// Returns the number in the plan of the free node at a place, from 0 on.
    pub fn node(&self, place: usize) -> u32
        requires { place < length self.now.free }
        ensures { (free : FreeNodeView) → slice_get self.now.free place ≡ Some free → result ≡ free.node }
    {
        self.free.as_slice()[place].node
    }

    /// Returns the arrivals so far at the free node at a place, from 0 on.
    pub fn log(&self, place: usize) -> &[Arrived]
        requires { place < length self.now.takers.items }
        ensures { (takens : List Taken) (taken : Taken) → HaveTaken self.now.free takens self.now.takers.items → slice_get takens place ≡ Some taken → result.now ≡ map told taken.log }
    {
        log_at(&self.takers, place)
    }
}
