//! How a net looks over the places whose parts may have changed, and makes one of its events.
ghost use Rattle.std.specs.Prelude.{◌≡◌, ◌<◌, ◌≤◌, ℕ, length, IfOk, OnOk, OnErr, false};
ghost use Rattle.mg_node.specs.Job.{ports_of};
ghost use Rattle.mg_sched.specs.StandsFor.{StandsForSome, IsRunning};
ghost use Rattle.mg_sched.specs.Acts.{IsEventOf, IsAnyFull};
ghost use Rattle.mg_sched.specs.AtRest.{IsAtRest};
ghost use Rattle.mg_sched.specs.Sweeps.{Becomes};
ghost use Rattle.mg_sched.specs.Heard.{Heard, HeardSome};
ghost use Rattle.mg_sched.specs.Code.Agendas.{IsAgendaOf};
ghost use Rattle.mg_sched.specs.Code.Left.{Goes, Steps, RestsAt};
ghost use Rattle.mg_sched.specs.Code.Quiet.{IsAt, OnlyAt, Notes, RestsBut, EdgesRestInto, EdgesRestBehind, RestsHere};

use super::Net;
use super::sweeping::go_on_with;
use crate::Hears;
use crate::agenda::Agenda;
use mg_calc::{Effect, Event, NodeCalculator};
use mg_edge::Gate;
use std::alloc::AllocError;

impl<C: NodeCalculator> Net<C> {
    // Relaxes the limits of full queues. If no queue is full, looks over the places whose parts may have changed, one after the other.
    // Stops after the first place at which something is done. Returns whether something was done.
    pub(super) fn look_over<G: Gate, H: Hears>(
        &mut self,
        agenda: &mut Agenda,
        gate: &G,
        hearer: &mut H,
    ) -> Result<bool, AllocError>
        requires running { IsRunning self.old }
        requires stands { StandsForSome C.laws self.old }
        requires agenda { IsAgendaOf self.old.plan agenda.old }
        requires rests { RestsBut self.old agenda.old }
        ensures becomes { Becomes C.laws self.old self.new }
        ensures heard { OnOk result (Heard C.laws H.has_heard hearer.old hearer.new self.old self.new) }
        ensures heard_some { OnErr result (HeardSome C.laws H.has_heard hearer.old hearer.new self.old) }
        ensures goes { IfOk result (λ did. Goes did self.old self.new) }
        ensures agenda { IsAgendaOf self.old.plan agenda.new }
        ensures rest { IfOk result (λ did. did ≡ false → IsAtRest C.laws self.new) }
        ensures left { OnOk result (RestsBut self.new agenda.new) }
    {
        let relaxed = self.step(Event::Relax, gate, hearer)?;
        if relaxed {
            return Ok(true);
        }
        let did = self.look_at_touched(agenda, gate, hearer)?;
        Ok(did)
    }

    // Looks over the places whose parts may have changed, one after the other. Stops after the first place at which something is done. No
    // queue is full. Returns whether something was done.
    fn look_at_touched<G: Gate, H: Hears>(
        &mut self,
        agenda: &mut Agenda,
        gate: &G,
        hearer: &mut H,
    ) -> Result<bool, AllocError>
        requires running { IsRunning self.old }
        requires stands { StandsForSome C.laws self.old }
        requires agenda { IsAgendaOf self.old.plan agenda.old }
        requires rests { RestsBut self.old agenda.old }
        requires free { ¬ IsAnyFull self.old.limits }
        ensures becomes { Becomes C.laws self.old self.new }
        ensures heard { OnOk result (Heard C.laws H.has_heard hearer.old hearer.new self.old self.new) }
        ensures heard_some { OnErr result (HeardSome C.laws H.has_heard hearer.old hearer.new self.old) }
        ensures goes { IfOk result (λ did. Goes did self.old self.new) }
        ensures agenda { IsAgendaOf self.old.plan agenda.new }
        ensures rest { IfOk result (λ did. did ≡ false → IsAtRest C.laws self.new) }
        ensures left { OnOk result (RestsBut self.new agenda.new) }
    {
        'places: while let Some(place) = agenda.next_touched() {
            if self.look_at(place, agenda, gate, hearer)? {
                agenda.touch(place);
                return Ok(true);
            }
        }
        Ok(false)
    }

    // Brings what there is to bring to a place and from it, and lets its node work. Returns whether something was done.
    fn look_at<G: Gate, H: Hears>(
        &mut self,
        place: u32,
        agenda: &mut Agenda,
        gate: &G,
        hearer: &mut H,
    ) -> Result<bool, AllocError>
        requires running { IsRunning self.old }
        requires stands { StandsForSome C.laws self.old }
        requires agenda { IsAgendaOf self.old.plan agenda.old }
        requires there { place ≤ length agenda.old.heads }
        ensures becomes { Becomes C.laws self.old self.new }
        ensures heard { OnOk result (Heard C.laws H.has_heard hearer.old hearer.new self.old self.new) }
        ensures heard_some { OnErr result (HeardSome C.laws H.has_heard hearer.old hearer.new self.old) }
        ensures goes { IfOk result (λ did. Goes did self.old self.new) }
        ensures agenda { IsAgendaOf self.old.plan agenda.new }
        ensures notes { OnOk result (Notes self.old agenda.old self.new agenda.new) }
        ensures unchanged { IfOk result (λ did. did ≡ false → agenda.new ≡ agenda.old) }
        ensures rest { IfOk result (λ did. did ≡ false → RestsHere C.laws self.new place) }
    {
        let came = self.look_into(place, agenda, gate, hearer)?;
        let sent = self.look_from(place, agenda, gate, hearer)?;
        let worked = self.look_on(place, agenda, gate, hearer)?;
        Ok(came | sent | worked)
    }

    // Brings along each edge into a place what its port hasn't got. Returns whether something was brought.
    fn look_into<G: Gate, H: Hears>(
        &mut self,
        place: u32,
        agenda: &mut Agenda,
        gate: &G,
        hearer: &mut H,
    ) -> Result<bool, AllocError>
        requires running { IsRunning self.old }
        requires stands { StandsForSome C.laws self.old }
        requires agenda { IsAgendaOf self.old.plan agenda.old }
        ensures becomes { Becomes C.laws self.old self.new }
        ensures heard { OnOk result (Heard C.laws H.has_heard hearer.old hearer.new self.old self.new) }
        ensures heard_some { OnErr result (HeardSome C.laws H.has_heard hearer.old hearer.new self.old) }
        ensures goes { IfOk result (λ did. Goes did self.old self.new) }
        ensures agenda { IsAgendaOf self.old.plan agenda.new }
        ensures notes { OnOk result (Notes self.old agenda.old self.new agenda.new) }
        ensures unchanged { IfOk result (λ did. did ≡ false → agenda.new ≡ agenda.old) }
        ensures rest { IfOk result (λ did. did ≡ false → EdgesRestInto C.laws self.new place) }
    {
        let nodes = self.node_count();
        if nodes < place {
            return Ok(false);
        }
        let did = self.receive(place, agenda, gate, hearer)?;
        Ok(did)
    }

    // Brings along each edge into a consumer what its port hasn't got. Returns whether something was brought.
    fn receive<G: Gate, H: Hears>(
        &mut self,
        consumer: u32,
        agenda: &mut Agenda,
        gate: &G,
        hearer: &mut H,
    ) -> Result<bool, AllocError>
        requires running { IsRunning self.old }
        requires stands { StandsForSome C.laws self.old }
        requires agenda { IsAgendaOf self.old.plan agenda.old }
        requires there { consumer ≤ length self.old.plan.nodes }
        ensures becomes { Becomes C.laws self.old self.new }
        ensures heard { OnOk result (Heard C.laws H.has_heard hearer.old hearer.new self.old self.new) }
        ensures heard_some { OnErr result (HeardSome C.laws H.has_heard hearer.old hearer.new self.old) }
        ensures goes { IfOk result (λ did. Goes did self.old self.new) }
        ensures agenda { IsAgendaOf self.old.plan agenda.new }
        ensures notes { OnOk result (Notes self.old agenda.old self.new agenda.new) }
        ensures unchanged { IfOk result (λ did. did ≡ false → agenda.new ≡ agenda.old) }
        ensures rest { IfOk result (λ did. did ≡ false → EdgesRestInto C.laws self.new consumer) }
    {
        let first = self.first_edge(consumer);
        let ports = self.port_count(consumer);
        let mut did = false;
        'ports: for port in 0..ports {
            did |= self.send_along(first + port, agenda, gate, hearer)?;
        }
        Ok(did)
    }

    // Returns how many ports a consumer has.
    fn port_count(&self, consumer: u32) -> u32
        requires stands { StandsForSome C.laws self.now }
        requires there { consumer ≤ length self.now.plan.nodes }
        ensures { result ≡ length (ports_of self.now.plan consumer) }
    {
        self.intakes[consumer as usize].ports()
    }

    // Brings along each edge from a place what its port hasn't got. Returns whether something was brought.
    fn look_from<G: Gate, H: Hears>(
        &mut self,
        place: u32,
        agenda: &mut Agenda,
        gate: &G,
        hearer: &mut H,
    ) -> Result<bool, AllocError>
        requires running { IsRunning self.old }
        requires stands { StandsForSome C.laws self.old }
        requires agenda { IsAgendaOf self.old.plan agenda.old }
        requires there { place ≤ length agenda.old.heads }
        ensures becomes { Becomes C.laws self.old self.new }
        ensures heard { OnOk result (Heard C.laws H.has_heard hearer.old hearer.new self.old self.new) }
        ensures heard_some { OnErr result (HeardSome C.laws H.has_heard hearer.old hearer.new self.old) }
        ensures goes { IfOk result (λ did. Goes did self.old self.new) }
        ensures agenda { IsAgendaOf self.old.plan agenda.new }
        ensures notes { OnOk result (Notes self.old agenda.old self.new agenda.new) }
        ensures unchanged { IfOk result (λ did. did ≡ false → agenda.new ≡ agenda.old) }
        ensures rest { IfOk result (λ did. did ≡ false → EdgesRestBehind C.laws self.new place) }
    {
        let count = agenda.count();
        if place < count {
            let first = agenda.start(place);
            let did = self.send_from(first, agenda, gate, hearer)?;
            return Ok(did);
        }
        Ok(false)
    }

    // Lets the node at a place work, if there is one. Returns whether something was done.
    fn look_on<G: Gate, H: Hears>(
        &mut self,
        place: u32,
        agenda: &mut Agenda,
        gate: &G,
        hearer: &mut H,
    ) -> Result<bool, AllocError>
        requires running { IsRunning self.old }
        requires stands { StandsForSome C.laws self.old }
        requires agenda { IsAgendaOf self.old.plan agenda.old }
        ensures becomes { Becomes C.laws self.old self.new }
        ensures heard { OnOk result (Heard C.laws H.has_heard hearer.old hearer.new self.old self.new) }
        ensures heard_some { OnErr result (HeardSome C.laws H.has_heard hearer.old hearer.new self.old) }
        ensures goes { IfOk result (λ did. Goes did self.old self.new) }
        ensures agenda { IsAgendaOf self.old.plan agenda.new }
        ensures notes { OnOk result (Notes self.old agenda.old self.new agenda.new) }
        ensures unchanged { IfOk result (λ did. did ≡ false → agenda.new ≡ agenda.old) }
        ensures rest { IfOk result (λ did. did ≡ false → place < length self.new.plan.nodes → RestsAt C.laws self.new place) }
    {
        let nodes = self.node_count();
        if place < nodes {
            let worked = self.work_here(place, agenda, gate, hearer)?;
            return Ok(worked);
        }
        Ok(false)
    }

    // Lets a node work, and adds it to the agenda if it did something. Returns whether something was done.
    fn work_here<G: Gate, H: Hears>(
        &mut self,
        node: u32,
        agenda: &mut Agenda,
        gate: &G,
        hearer: &mut H,
    ) -> Result<bool, AllocError>
        requires running { IsRunning self.old }
        requires stands { StandsForSome C.laws self.old }
        requires agenda { IsAgendaOf self.old.plan agenda.old }
        requires there { node < length self.old.plan.nodes }
        ensures becomes { Becomes C.laws self.old self.new }
        ensures heard { OnOk result (Heard C.laws H.has_heard hearer.old hearer.new self.old self.new) }
        ensures heard_some { OnErr result (HeardSome C.laws H.has_heard hearer.old hearer.new self.old) }
        ensures goes { IfOk result (λ did. Goes did self.old self.new) }
        ensures agenda { IsAgendaOf self.old.plan agenda.new }
        ensures notes { OnOk result (Notes self.old agenda.old self.new agenda.new) }
        ensures unchanged { IfOk result (λ did. did ≡ false → agenda.new ≡ agenda.old) }
        ensures rest { IfOk result (λ did. did ≡ false → RestsAt C.laws self.new node) }
    {
        let worked = self.work(node, gate, hearer)?;
        if worked {
            go_on_with(agenda, node, true, true);
            return Ok(true);
        }
        Ok(false)
    }

    // Returns how many nodes there are.
    pub(super) fn node_count(&self) -> u32
        ensures { result ≡ length self.now.plan.nodes }
    {
        self.plan.nodes.len()
    }

    pub(super) fn edge_count(&self) -> u32
        ensures { result ≡ length self.now.plan.edges }
    {
        self.plan.edges.len()
    }

    // Makes a step, and lets the hearer hear it if it did something. Returns whether the step did something.
    pub(super) fn step<G: Gate, H: Hears>(
        &mut self,
        event: Event,
        gate: &G,
        hearer: &mut H,
    ) -> Result<bool, AllocError>
        requires event { IsEventOf self.old event }
        requires running { IsRunning self.old }
        requires stands { StandsForSome C.laws self.old }
        ensures becomes { Becomes C.laws self.old self.new }
        ensures heard { OnOk result (Heard C.laws H.has_heard hearer.old hearer.new self.old self.new) }
        ensures heard_some { OnErr result (HeardSome C.laws H.has_heard hearer.old hearer.new self.old) }
        ensures steps { IfOk result (λ did. Steps C.laws did event self.old self.new) }
        ensures only { OnOk result ((place : ℕ) → IsAt self.old.plan event place → OnlyAt place self.old self.new) }
    {
        match self.act(event, gate) {
            Effect::Did => {
                hearer.hear(event);
                Ok(true)
            }
            Effect::Idle => Ok(false),
            Effect::OutOfMemory => Err(AllocError),
        }
    }
}
