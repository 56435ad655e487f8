//! How packets go on from a place of a net while it is swept.
ghost use Rattle.std.specs.Prelude.{◌≡◌, ◌<◌, ◌≤◌, length, slice_get, slice_set, Some, IfSome, IfOk, OnOk, OnErr, true, false};
ghost use Rattle.mg_ready.specs.Ready.{IsIn, ChangesOnly};
ghost use Rattle.mg_sched.specs.StandsFor.{StandsForSome, IsRunning};
ghost use Rattle.mg_calc.specs.declared.edge.Edge.{Edge};
ghost use Rattle.mg_calc.specs.declared.event.Event.TheVariants.{Deliver as ToDeliver};
ghost use Rattle.mg_calc.specs.declared.event.Effect.TheVariants.{Idle};
ghost use Rattle.mg_sched.specs.Acts.{IsHeld, Acts};
ghost use Rattle.mg_sched.specs.Sweeps.{Becomes};
ghost use Rattle.mg_sched.specs.Heard.{Heard, HeardSome};
ghost use Rattle.mg_sched.specs.Places.{first_edge};
ghost use Rattle.mg_sched.specs.Code.Agendas.{IsAgendaOf};
ghost use Rattle.mg_sched.specs.Code.Left.{Goes};
ghost use Rattle.mg_sched.specs.Code.Quiet.{Notes, EdgesRestFrom};

use super::Net;
use crate::Hears;
use crate::agenda::Agenda;
use mg_calc::{Edge, Event, NodeCalculator};
use mg_edge::Gate;
use std::alloc::AllocError;

// Notes that the parts of a consumer have changed, and adds it to the agenda if it is a node and not the collector.
fn put_next(agenda: &mut Agenda, consumer: u32, nodes: u32)
    requires place { consumer ≤ length agenda.old.heads }
    requires nodes { nodes ≤ length agenda.old.heads }
    ensures touched { IsIn agenda.new.touched consumer }
    ensures only { ChangesOnly agenda.old.touched agenda.new.touched consumer }
    ensures leads { (agenda.new.heads ≡ agenda.old.heads) × (agenda.new.links ≡ agenda.old.links) × (agenda.new.starts ≡ agenda.old.starts) }
{
    agenda.touch(consumer);
    if consumer < nodes {
        agenda.put(consumer);
    }
}

// Holds back a graph input that is throttled. Sending from it goes on from this edge.
fn hold_at(agenda: &mut Agenda, place: u32, edge: u32)
    requires place { place < length agenda.old.heads }
    requires edge { edge < length agenda.old.links }
    ensures held { IsIn agenda.new.held place }
    ensures ready { agenda.new.ready ≡ agenda.old.ready }
    ensures heads { agenda.new.heads ≡ slice_set agenda.old.heads place (Some edge) }
    ensures links { agenda.new.links ≡ agenda.old.links }
    ensures starts { agenda.new.starts ≡ agenda.old.starts }
    ensures touched { agenda.new.touched ≡ agenda.old.touched }
{
    agenda.hold(place);
    agenda.resume_at(place, edge);
}

impl<C: NodeCalculator> Net<C> {
    // Brings what came at a graph input along its edges, edge by edge, until the input is throttled. Then holds the input back, and
    // remembers the edge to resume from. All has gone along the edges before that edge, since nothing comes at a graph input while a net is
    // swept. Returns whether something was brought.
    pub(super) fn send_until_held<G: Gate, H: Hears>(
        &mut self,
        place: u32,
        agenda: &mut Agenda,
        gate: &G,
        hearer: &mut H,
    ) -> Result<bool, AllocError>
        requires running { IsRunning self.old }
        requires stands { StandsForSome C.laws self.old }
        requires agenda { IsAgendaOf self.old.plan agenda.old }
        requires there { place < length agenda.old.heads }
        ensures becomes { Becomes C.laws self.old self.new }
        ensures heard { OnOk result (Heard C.laws H.has_heard hearer.old hearer.new self.old self.new) }
        ensures heard_some { OnErr result (HeardSome C.laws H.has_heard hearer.old hearer.new self.old) }
        ensures goes { IfOk result (λ did. Goes did self.old self.new) }
        ensures agenda { IsAgendaOf self.old.plan agenda.new }
        ensures notes { OnOk result (Notes self.old agenda.old self.new agenda.new) }
        ensures unchanged { IfOk result (λ did. did ≡ false → agenda.new.ready ≡ agenda.old.ready) }
    {
        let mut did = false;
        let mut cursor = agenda.first_edge(place);
        'edges: while let Some(edge) = cursor {
            if self.is_held_at(edge) {
                hold_at(agenda, place, edge);
                return Ok(did);
            }
            did |= self.send_along(edge, agenda, gate, hearer)?;
            cursor = agenda.next_edge(edge);
        }
        agenda.finish(place);
        Ok(did)
    }

    // Whether the edge of this number leads from a graph input that is throttled.
    fn is_held_at(&self, edge: u32) -> bool
        requires there { edge < length self.now.plan.edges }
        requires stands { StandsForSome C.laws self.now }
        ensures held { (e : Edge) → slice_get self.now.plan.edges edge ≡ Some e → result ≡ true → IsHeld self.now e }
        ensures not_held { (e : Edge) → slice_get self.now.plan.edges edge ≡ Some e → result ≡ false → ¬ IsHeld self.now e }
    {
        self.is_held(self.plan.edges.as_slice()[edge as usize])
    }

    // Brings along the edges that lead from a place what their ports haven't got. Adds each node to which something came to the agenda.
    // Returns whether something came.
    pub(super) fn send<G: Gate, H: Hears>(
        &mut self,
        place: u32,
        agenda: &mut Agenda,
        gate: &G,
        hearer: &mut H,
    ) -> Result<bool, AllocError>
        requires running { IsRunning self.old }
        requires stands { StandsForSome C.laws self.old }
        requires agenda { IsAgendaOf self.old.plan agenda.old }
        requires there { place < length agenda.old.heads }
        ensures becomes { Becomes C.laws self.old self.new }
        ensures heard { OnOk result (Heard C.laws H.has_heard hearer.old hearer.new self.old self.new) }
        ensures heard_some { OnErr result (HeardSome C.laws H.has_heard hearer.old hearer.new self.old) }
        ensures goes { IfOk result (λ did. Goes did self.old self.new) }
        ensures agenda { IsAgendaOf self.old.plan agenda.new }
        ensures notes { OnOk result (Notes self.old agenda.old self.new agenda.new) }
    {
        let first = agenda.first_edge(place);
        let did = self.send_from(first, agenda, gate, hearer)?;
        Ok(did)
    }

    // Brings along an edge, and along the later edges from the same place, what their ports haven't got. Adds each node to which something
    // came to the agenda. Returns whether something came.
    pub(super) fn send_from<G: Gate, H: Hears>(
        &mut self,
        first: Option<u32>,
        agenda: &mut Agenda,
        gate: &G,
        hearer: &mut H,
    ) -> Result<bool, AllocError>
        requires running { IsRunning self.old }
        requires stands { StandsForSome C.laws self.old }
        requires agenda { IsAgendaOf self.old.plan agenda.old }
        requires there { IfSome first (λ edge. edge < length agenda.old.links) }
        ensures becomes { Becomes C.laws self.old self.new }
        ensures heard { OnOk result (Heard C.laws H.has_heard hearer.old hearer.new self.old self.new) }
        ensures heard_some { OnErr result (HeardSome C.laws H.has_heard hearer.old hearer.new self.old) }
        ensures goes { IfOk result (λ did. Goes did self.old self.new) }
        ensures agenda { IsAgendaOf self.old.plan agenda.new }
        ensures notes { OnOk result (Notes self.old agenda.old self.new agenda.new) }
        ensures unchanged { IfOk result (λ did. did ≡ false → agenda.new ≡ agenda.old) }
        ensures rest { IfOk result (λ did. did ≡ false → EdgesRestFrom C.laws self.old.plan first self.new) }
    {
        let mut did = false;
        let mut cursor = first;
        'edges: while let Some(edge) = cursor {
            did |= self.send_along(edge, agenda, gate, hearer)?;
            cursor = agenda.next_edge(edge);
        }
        Ok(did)
    }

    // Brings along an edge what its port hasn't got, and adds the node to the agenda if something came to it. Returns whether something
    // came.
    pub(super) fn send_along<G: Gate, H: Hears>(
        &mut self,
        edge: u32,
        agenda: &mut Agenda,
        gate: &G,
        hearer: &mut H,
    ) -> Result<bool, AllocError>
        requires running { IsRunning self.old }
        requires stands { StandsForSome C.laws self.old }
        requires agenda { IsAgendaOf self.old.plan agenda.old }
        requires there { edge < length self.old.plan.edges }
        ensures becomes { Becomes C.laws self.old self.new }
        ensures heard { OnOk result (Heard C.laws H.has_heard hearer.old hearer.new self.old self.new) }
        ensures heard_some { OnErr result (HeardSome C.laws H.has_heard hearer.old hearer.new self.old) }
        ensures goes { IfOk result (λ did. Goes did self.old self.new) }
        ensures agenda { IsAgendaOf self.old.plan agenda.new }
        ensures notes { OnOk result (Notes self.old agenda.old self.new agenda.new) }
        ensures unchanged { IfOk result (λ did. did ≡ false → agenda.new ≡ agenda.old) }
        ensures rest { IfOk result (λ did. did ≡ false → Acts C.laws (ToDeliver edge) Idle self.new self.new) }
    {
        if !self.step(Event::Deliver { edge }, gate, hearer)? {
            return Ok(false);
        }
        self.put_consumer(edge, agenda);
        Ok(true)
    }

    // Notes that the parts of an edge's consumer have changed, and adds it to the agenda if it is a node.
    fn put_consumer(&self, edge: u32, agenda: &mut Agenda)
        requires there { edge < length self.now.plan.edges }
        requires stands { StandsForSome C.laws self.now }
        requires agenda { IsAgendaOf self.now.plan agenda.old }
        ensures agenda { IsAgendaOf self.now.plan agenda.new }
        ensures touched { (e : Edge) → slice_get self.now.plan.edges edge ≡ Some e → IsIn agenda.new.touched e.node × ChangesOnly agenda.old.touched agenda.new.touched e.node }
    {
        let edge = self.edge_at(edge);
        let nodes = self.node_count();
        put_next(agenda, edge.node, nodes);
    }

    // Returns the edge of this number.
    fn edge_at(&self, number: u32) -> Edge
        requires { number < length self.now.plan.edges }
        ensures { slice_get self.now.plan.edges number ≡ Some result }
    {
        self.plan.edges.as_slice()[number as usize]
    }
}
