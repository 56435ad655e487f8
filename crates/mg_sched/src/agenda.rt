ghost use Rattle.std.specs.Prelude.{◌≡◌, ℕ, ◌+◌, ◌-◌, ◌^◌, ◌<◌, ◌≤◌, ◌⊎◌, ◌↔◌, Contains, IfSome, IfNone, IfOk, None, Some, length, replicate, slice_get, slice_set, slice_index_or, vec_len};
ghost use Rattle.mg_calc.specs.Plan.{IsValid, HasEachOnce};
ghost use Rattle.mg_ready.specs.Ready.{none_ready, IsIn, IsEmpty, IsHighest, ChangesOnly};
ghost use Rattle.mg_calc.specs.declared.edge.Edge.{Edge};
ghost use Rattle.mg_sched.specs.Places.{source_of};
ghost use Rattle.mg_sched.specs.Code.Quiet.{WakesLast, WakesAt, Touches, OfKept};
ghost use Rattle.mg_sched.specs.Code.Agendas.{LeadOn, AreLeads, IsAgendaOf, waiting_in, touched_in, priorities};

use crate::sources::source_of;
use mg_calc::Plan;
use mg_ready::Ready;
use mg_value::{BlockList, NumberList};
use std::alloc::{AllocError, Global};
use std::marker::Model;

/// What a sweep visits next: the places of a net that may have something to do, by priority. An agenda also has the edges that lead from
/// each place. A place is the number of an engine. The nodes' engines have the nodes' numbers, and those of the graph inputs have the
/// numbers after them. Nodes go before graph inputs. Of two nodes, the node that stands later in the plan's order goes first (MediaPipe,
/// Synchronization).
///
/// A net keeps its agenda from sweep to sweep, with the places whose parts may have changed since the net was at rest. Among these a place
/// stands for an intake too. The first number after those of the nodes stands for the collector and for the first graph input.
#[derive(Drop)]
pub(crate) struct Agenda {
    // The places that are to be visited.
    ready: Ready,
    // The feeders that were found throttled, which `release` adds to `ready` again.
    held: Ready,
    // The places whose parts may have changed since the net was at rest.
    touched: Ready,
    // For each place the edge from which sending goes on, if there is one. For a node it is the first edge that leads from it. For a graph
    // input it is the first edge along which not all has gone.
    first: Vec<Option<u32>>,
    // For each place the first edge that leads from it.
    starts: Vec<Option<u32>>,
    // For each edge the next edge that leads from the same place.
    next: Vec<Option<u32>>,
}

impl Model for Agenda {
    ghost use Rattle.std.specs.Prelude.{vec_len};
    ghost use Rattle.mg_sched.specs.Code.Agendas.{AgendaView, IsAgenda};
    ghost use Rattle.mg_sched.specs.Codes.{agenda_code};

    ghost Value = { AgendaView };

    ghost coded = { agenda_code };

    ghost view = { λ a. record { ready = a.ready; held = a.held; touched = a.touched; heads = a.first.items; starts = a.starts.items; links = a.next.items } };

    ghost invariant = { λ a. IsAgenda (vec_len a.first) (vec_len a.next) a.ready.order a.held.order a.touched.order a.first.items a.starts.items a.next.items };
}

/// The sets of places of a new agenda, each of them empty.
#[derive(Drop)]
struct Sets {
    ready: Ready,
    held: Ready,
    touched: Ready,
}

/// The edges of a plan, as a list for each place from which edges lead. `first` has the first edge of each place. `next` has for each edge
/// the next edge from the same place.
#[derive(Drop)]
struct Leads {
    first: Vec<Option<u32>>,
    next: Vec<Option<u32>>,
}

// Returns how many nodes and graph inputs a plan has, all together. 2^32 - 1 of them or more count as out of memory.
fn count_of(plan: &Plan) -> Result<u32, AllocError>
    ensures count { IfOk result (λ n. n ≡ length plan.now.nodes + length plan.now.inputs) }
    ensures few { IfOk result (λ n. n + 1 < 2 ^ 32) }
{
    match plan.nodes.len().checked_add(plan.inputs.len()) {
        Some(count) => {
            if count == u32::MAX {
                return Err(AllocError);
            }
            Ok(count)
        }
        None => Err(AllocError),
    }
}

// Returns the places by rising priority: those of the graph inputs, and then those of the nodes in the plan's order.
fn order_of(alloc: Global, plan: &Plan, count: u32) -> Result<NumberList, AllocError>
    requires valid { IsValid plan.now }
    requires count { count ≡ length plan.now.nodes + length plan.now.inputs }
    ensures each { IfOk result (λ l. HasEachOnce count l) }
    ensures order { IfOk result (λ l. l ≡ priorities plan.now) }
{
    let mut places = Vec::new(alloc);
    for place in plan.nodes.len()..count {
        places.push(place)?;
    }
    places.extend_from_slice(plan.order.as_slice())?;
    Ok(BlockList::from_vec(places)?)
}

// Returns the place of the engine from which an edge leads.
fn place_of(plan: &Plan, edge: u32) -> usize
    requires valid { IsValid plan.now }
    requires there { edge < length plan.now.edges }
    ensures place { result < length plan.now.nodes + length plan.now.inputs }
    ensures from { (e : Edge) → slice_get plan.now.edges edge ≡ Some e → source_of plan.now e ≡ Some result }
{
    source_of(plan, plan.edges.as_slice()[edge as usize])
}

// Returns `count` entries without an edge.
fn nowhere(alloc: Global, count: u32) -> Result<Vec<Option<u32>>, AllocError>
    ensures items { IfOk result (λ v. v.items ≡ replicate count None) }
    ensures len { IfOk result (λ v. vec_len v ≡ count) }
{
    vec![in alloc; None; count as usize]
}

// Lets an edge lead from a place, as the first of those that lead from it.
fn lead(leads: &mut Leads, place: usize, edge: u32)
    requires place { place < vec_len leads.old.first }
    requires edge { edge < vec_len leads.old.next }
    ensures places { vec_len leads.new.first ≡ vec_len leads.old.first }
    ensures edges { vec_len leads.new.next ≡ vec_len leads.old.next }
    ensures first { leads.new.first.items ≡ slice_set leads.old.first.items place (Some edge) }
    ensures next { leads.new.next.items ≡ slice_set leads.old.next.items edge (slice_index_or leads.old.first.items place None) }
{
    leads.next[edge as usize] = leads.first[place];
    leads.first[place] = Some(edge);
}

// Returns the edges of a plan by the places from which they lead.
fn leads_of(alloc: Global, plan: &Plan, count: u32) -> Result<Leads, AllocError>
    requires valid { IsValid plan.now }
    requires count { count ≡ length plan.now.nodes + length plan.now.inputs }
    ensures places { IfOk result (λ l. vec_len l.first ≡ count) }
    ensures edges { IfOk result (λ l. vec_len l.next ≡ length plan.now.edges) }
    ensures lead { IfOk result (λ l. LeadOn 0 (length plan.now.edges) l.first.items l.next.items) }
    ensures leads { IfOk result (λ l. AreLeads plan.now 0 l.first.items l.next.items) }
{
    let first = nowhere(alloc, count)?;
    let next = nowhere(alloc, plan.edges.len())?;
    let mut leads = Leads { first, next };
    for edge in (0..plan.edges.len()).rev() {
        let place = place_of(plan, edge);
        lead(&mut leads, place, edge);
    }
    Ok(leads)
}

// Returns the numbers below `count`, from 0 on.
fn first_numbers(alloc: Global, count: u32) -> Result<NumberList, AllocError>
    ensures { IfOk result (λ l. HasEachOnce count l) }
{
    let mut numbers = Vec::new(alloc);
    for number in 0..count {
        numbers.push(number)?;
    }
    Ok(BlockList::from_vec(numbers)?)
}

// Returns the sets of places of a new agenda of a plan.
fn sets_of(alloc: Global, plan: &Plan, count: u32) -> Result<Sets, AllocError>
    requires valid { IsValid plan.now }
    requires count { count ≡ length plan.now.nodes + length plan.now.inputs }
    requires few { count + 1 < 2 ^ 32 }
    ensures ready { IfOk result (λ s. s.ready ≡ none_ready (priorities plan.now)) }
    ensures held { IfOk result (λ s. s.held ≡ none_ready (priorities plan.now)) }
    ensures each { IfOk result (λ s. HasEachOnce count s.ready.order) }
    ensures touched { IfOk result (λ s. HasEachOnce (count + 1) s.touched.order) }
{
    let order = order_of(alloc, plan, count)?;
    let numbers = first_numbers(alloc, count + 1)?;
    let ready = Ready::new(alloc, &order)?;
    let held = Ready::new(alloc, &order)?;
    let touched = Ready::new(alloc, &numbers)?;
    Ok(Sets {
        ready,
        held,
        touched,
    })
}

// Moves all places of one set into another.
fn pour(from: &mut Ready, into: &mut Ready)
    requires { (n : ℕ) → Contains from.old.order n → Contains into.old.order n }
    ensures from { from.new.order ≡ from.old.order }
    ensures into { into.new.order ≡ into.old.order }
    ensures none { IsEmpty from.new }
    ensures all { (n : ℕ) → IsIn into.new n ↔ (IsIn into.old n ⊎ IsIn from.old n) }
{
    while let Some(place) = from.take() {
        into.put(place);
    }
}

/// Wakes the last `count` places of an agenda, if there is one.
pub(crate) fn wake_last(kept: &mut Option<Agenda>, count: u32)
    requires { IfSome kept.old (λ a. count ≤ length a.heads) }
    ensures { OfKept (WakesLast count) kept.old kept.new }
{
    if let Some(agenda) = kept {
        agenda.wake_last(count);
    }
}

/// Wakes the places of some graph inputs in an agenda, if there is one. The place of the first graph input is `from`.
pub(crate) fn wake_some(kept: &mut Option<Agenda>, from: u32, inputs: &[u32])
    requires { IfSome kept.old (λ a. (i input : ℕ) → slice_get inputs.now i ≡ Some input → from + input < length a.heads) }
    ensures { OfKept (WakesAt from inputs.now) kept.old kept.new }
{
    if let Some(agenda) = kept {
        agenda.wake_at(from, inputs);
    }
}

/// Notes in an agenda, if there is one, that the parts of a place have changed.
pub(crate) fn touch(kept: &mut Option<Agenda>, place: u32)
    requires { IfSome kept.old (λ a. place ≤ length a.heads) }
    ensures { OfKept (Touches place) kept.old kept.new }
{
    if let Some(agenda) = kept {
        agenda.touch(place);
    }
}

impl Agenda {
    /// Returns an agenda for the nets of a plan, with no place in it.
    pub(crate) fn new(alloc: Global, plan: &Plan) -> Result<Agenda, AllocError>
        requires { IsValid plan.now }
        ensures of_plan { IfOk result (λ a. IsAgendaOf plan.now a) }
        ensures ready { IfOk result (λ a. a.ready ≡ none_ready (priorities plan.now)) }
        ensures held { IfOk result (λ a. a.held ≡ none_ready (priorities plan.now)) }
    {
        let count = count_of(plan)?;
        let first = nowhere(alloc, count)?;
        let leads = leads_of(alloc, plan, count)?;
        let sets = sets_of(alloc, plan, count)?;
        Ok(Agenda {
            ready: sets.ready,
            held: sets.held,
            touched: sets.touched,
            first,
            starts: leads.first,
            next: leads.next,
        })
    }

    /// Adds a place to those that are to be visited, unless it is one of them.
    pub(crate) fn put(&mut self, place: u32)
        requires { place < length self.old.heads }
        ensures put { IsIn self.new.ready place }
        ensures only { ChangesOnly self.old.ready self.new.ready place }
        ensures others { self.new ≡ record self.old { ready = self.new.ready } }
    {
        self.ready.put(place);
    }

    /// Notes that the parts of a place have changed.
    pub(crate) fn touch(&mut self, place: u32)
        requires { place ≤ length self.old.heads }
        ensures touched { IsIn self.new.touched place }
        ensures only { ChangesOnly self.old.touched self.new.touched place }
        ensures others { self.new ≡ record self.old { touched = self.new.touched } }
    {
        self.touched.put(place);
    }

    /// Adds a place whose parts have changed outside of a sweep, and notes that. Sending from it begins with the first edge that leads from
    /// it.
    pub(crate) fn wake(&mut self, place: u32)
        requires { place < length self.old.heads }
        ensures touched { IsIn self.new.touched place }
        ensures only { ChangesOnly self.old.touched self.new.touched place }
        ensures heads { length self.new.heads ≡ length self.old.heads }
        ensures leads { (self.new.starts ≡ self.old.starts) × (self.new.links ≡ self.old.links) }
    {
        self.ready.put(place);
        self.touched.put(place);
        self.first[place as usize] = self.starts[place as usize];
    }

    /// Wakes the last `count` places, whose parts have changed outside of a sweep.
    pub(crate) fn wake_last(&mut self, count: u32)
        requires { count ≤ length self.old.heads }
        ensures { WakesLast count self.old self.new }
    {
        let end = self.count();
        let first = end - count;
        for place in first..end {
            self.wake(place);
        }
    }

    /// Wakes the places of some graph inputs, whose parts have changed outside of a sweep. The place of the first graph input is `from`.
    pub(crate) fn wake_at(&mut self, from: u32, inputs: &[u32])
        requires { (i input : ℕ) → slice_get inputs.now i ≡ Some input → from + input < length self.old.heads }
        ensures { WakesAt from inputs.now self.old self.new }
    {
        let end = self.count();
        let _ = end;
        for i in 0..inputs.len() {
            self.wake(from + inputs[i]);
        }
    }

    /// Wakes all places, for when it isn't known which of them have changed.
    pub(crate) fn wake_all(&mut self)
        ensures all { (n : ℕ) → n ≤ length self.old.heads → IsIn self.new.touched n }
        ensures heads { length self.new.heads ≡ length self.old.heads }
        ensures leads { (self.new.starts ≡ self.old.starts) × (self.new.links ≡ self.old.links) }
    {
        let count = self.count();
        self.wake_last(count);
        self.touch(count);
    }

    /// Returns how many places of engines there are: one for each node and each graph input.
    pub(crate) fn count(&self) -> u32
        ensures count { result ≡ length self.now.heads }
        ensures few { result < 2 ^ 32 - 1 }
    {
        self.first.len() as u32
    }

    /// Takes a place out of those whose parts may have changed, if there is one.
    pub(crate) fn next_touched(&mut self) -> Option<u32>
        ensures place { IfSome result (λ p. p ≤ length self.old.heads) }
        ensures only { IfSome result (λ p. ChangesOnly self.old.touched self.new.touched p) }
        ensures fewer { IfSome result (λ _. touched_in self.new < touched_in self.old) }
        ensures none { IfNone result (IsEmpty self.old.touched) }
        ensures unchanged { IfNone result (self.new ≡ self.old) }
        ensures others { self.new ≡ record self.old { touched = self.new.touched } }
    {
        self.touched.take()
    }

    /// Takes the place of the highest priority out of those that are to be visited, if there is one.
    pub(crate) fn take(&mut self) -> Option<u32>
        ensures place { IfSome result (λ p. p < length self.old.heads) }
        ensures highest { IfSome result (λ p. IsHighest self.old.ready p) }
        ensures taken { IfSome result (λ p. ¬ IsIn self.new.ready p) }
        ensures only { IfSome result (λ p. ChangesOnly self.old.ready self.new.ready p) }
        ensures fewer { IfSome result (λ _. waiting_in self.new < waiting_in self.old) }
        ensures none { IfNone result (IsEmpty self.old.ready) }
        ensures unchanged { IfNone result (self.new ≡ self.old) }
        ensures others { self.new ≡ record self.old { ready = self.new.ready } }
    {
        self.ready.take()
    }

    /// Holds back a feeder that is throttled, until `release`.
    pub(crate) fn hold(&mut self, place: u32)
        requires { place < length self.old.heads }
        ensures held { IsIn self.new.held place }
        ensures only { ChangesOnly self.old.held self.new.held place }
        ensures others { self.new ≡ record self.old { held = self.new.held } }
    {
        self.held.put(place);
    }

    /// Adds the feeders that were held back to the places that are to be visited.
    pub(crate) fn release(&mut self)
        ensures none { IsEmpty self.new.held }
        ensures ready { (n : ℕ) → IsIn self.new.ready n ↔ (IsIn self.old.ready n ⊎ IsIn self.old.held n) }
        ensures orders { (self.new.ready.order ≡ self.old.ready.order) × (self.new.held.order ≡ self.old.held.order) }
        ensures others { self.new ≡ record self.old { ready = self.new.ready; held = self.new.held } }
    {
        pour(&mut self.held, &mut self.ready);
    }

    /// Returns the edge from which sending from a place goes on.
    pub(crate) fn first_edge(&self, place: u32) -> Option<u32>
        requires { place < length self.now.heads }
        ensures first { result ≡ slice_index_or self.now.heads place None }
        ensures there { IfSome result (λ edge. edge < length self.now.links) }
    {
        self.first[place as usize]
    }

    /// Returns the first edge that leads from a place.
    pub(crate) fn start(&self, place: u32) -> Option<u32>
        requires { place < length self.now.heads }
        ensures start { result ≡ slice_index_or self.now.starts place None }
        ensures there { IfSome result (λ edge. edge < length self.now.links) }
    {
        self.starts[place as usize]
    }

    /// Returns the next edge that leads from the same place as this one.
    pub(crate) fn next_edge(&self, edge: u32) -> Option<u32>
        requires { edge < length self.now.links }
        ensures next { result ≡ slice_index_or self.now.links edge None }
        ensures later { IfSome result (λ later. (edge < later) × (later < length self.now.links)) }
    {
        self.next[edge as usize]
    }

    /// Lets sending from a place go on from this edge.
    pub(crate) fn resume_at(&mut self, place: u32, edge: u32)
        requires place { place < length self.old.heads }
        requires edge { edge < length self.old.links }
        ensures { self.new ≡ record self.old { heads = slice_set self.old.heads place (Some edge) } }
    {
        self.first[place as usize] = Some(edge);
    }

    /// Notes that there is nothing left to send along the edges of a place.
    pub(crate) fn finish(&mut self, place: u32)
        requires { place < length self.old.heads }
        ensures { self.new ≡ record self.old { heads = slice_set self.old.heads place None } }
    {
        self.first[place as usize] = None;
    }
}
