//! How a net comes to rest.
ghost use Rattle.std.specs.Prelude.{◌≡◌, ℕ, ◌<◌, ◌+◌, ◌≤◌, ◌^◌, List, length, slice_get, Some, IfOk, OnOk, OnErr, true, false};
ghost use Rattle.mg_value.specs.Payload.{Plain};
ghost use Rattle.mg_settled.specs.Prefix.{StreamPrefix};
ghost use Rattle.mg_calc.specs.Meaning.{weight};
ghost use Rattle.mg_node.specs.Job.{LoggedJob, Solves};
ghost use Rattle.mg_node.specs.Ports.{ports_in};
ghost use Rattle.mg_ready.specs.Ready.{IsIn, ChangesOnly};
ghost use Rattle.mg_sched.specs.StandsFor.{StandsFor, StandsForSome, IsRunning};
ghost use Rattle.mg_sched.specs.AtRest.{IsAtRest};
ghost use Rattle.mg_sched.specs.Taking.{taken_out};
ghost use Rattle.mg_sched.specs.Reports.{claimed_in};
ghost use Rattle.mg_sched.specs.Sweeps.{Becomes};
ghost use Rattle.mg_sched.specs.Heard.{Heard, HeardSome};
ghost use Rattle.mg_node.specs.Views.{IntakeView};
ghost use Rattle.mg_sched.specs.Places.{first_edge};
ghost use Rattle.mg_sched.specs.Code.Agendas.{IsAgendaOf};
ghost use Rattle.mg_sched.specs.Code.AtLimits.{is_at_limit, TellsAtLimit};
ghost use Rattle.mg_sched.specs.Code.Left.{Goes};
ghost use Rattle.mg_sched.specs.Code.Quiet.{Notes, RestsBut};

use super::Net;
use crate::Hears;
use crate::agenda::Agenda;
use mg_calc::{Event, NodeCalculator};
use mg_edge::Gate;
use mg_node::Intake;
use mg_throttle::Limits;
use std::alloc::AllocError;

// Whether `packets` packets reach the limit of a queue, if it has one.
fn is_queue_at_limit(limits: &Limits, number: u32, packets: u64) -> bool
    requires { number < length limits.now.queues }
    ensures { result ≡ is_at_limit limits.now.queues number packets }
{
    match limits.limit(number) {
        Some(limit) => limit <= packets,
        None => false,
    }
}

// Returns whether some queue of an intake holds its limit of packets or more. The queues of the ports have the numbers from `first` on.
fn is_at_limit(limits: &Limits, first: u32, intake: &Intake) -> bool
    requires queues { first + ports_in intake.now.waits ≤ length limits.now.queues }
    requires short { length limits.now.queues < 2 ^ 32 }
    ensures { TellsAtLimit result limits.now.queues first intake.now.waits }
{
    for port in 0..intake.ports() {
        if is_queue_at_limit(limits, first + port, intake.waiting(port)) {
            return true;
        }
    }
    false
}

// Adds a node to the agenda if it may have more to do.
fn put_again(agenda: &mut Agenda, node: u32, again: bool)
    requires { node < length agenda.old.heads }
    ensures { agenda.new ≡ record agenda.old { ready = agenda.new.ready } }
{
    if again {
        agenda.put(node);
    }
}

// Notes that a node has worked, and adds it to the agenda if it may have more to do. If one of its queues was full, the feeders that were
// held back are added too.
pub(super) fn go_on_with(agenda: &mut Agenda, node: u32, again: bool, was_full: bool)
    requires { node < length agenda.old.heads }
    ensures touched { IsIn agenda.new.touched node }
    ensures only { ChangesOnly agenda.old.touched agenda.new.touched node }
    ensures leads { (agenda.new.heads ≡ agenda.old.heads) × (agenda.new.links ≡ agenda.old.links) × (agenda.new.starts ≡ agenda.old.starts) }
{
    put_again(agenda, node, again);
    agenda.touch(node);
    if was_full {
        agenda.release();
    }
}

// Returns the agenda as it is if it is known to have noted all changes. Otherwise returns it with all places woken.
fn woken_unless(known: bool, agenda: Agenda) -> Agenda
    ensures heads { length result.heads ≡ length agenda.heads }
    ensures leads { (result.starts ≡ agenda.starts) × (result.links ≡ agenda.links) }
    ensures known { known ≡ true → result ≡ agenda }
    ensures all { known ≡ false → (n : ℕ) → n ≤ length agenda.heads → IsIn result.touched n }
{
    let mut agenda = agenda;
    if !known {
        agenda.wake_all();
    }
    agenda
}

impl<C: NodeCalculator> Net<C> {
    /// Makes steps until none would do anything; the net is at rest then. Of the nodes that may have something to do, the node that stands
    /// last in the plan's order goes first. Graph inputs go after all nodes (MediaPipe, Synchronization). A feeder that is throttled waits
    /// until a queue falls below its limit. If nothing else can be done, limits are relaxed (MediaPipe, Real-time Streams). No set is taken
    /// from the collector. Out of memory: the steps made so far stand, and this may be called again.
    ///
    /// The net tells the hearer each event that does something, once the event has done it. What the hearer hears is a run of the net. That
    /// run leads to where the net is now. Out of memory: the run may end before a step that was made only in part.
    ///
    /// A packet costs what the steps on its way cost. At its end a sweep looks over the whole net, with one exception. If the last sweep
    /// came to rest and only `extend`, `extend_some`, `keep` and `take_out` have changed the net since, the sweep looks over less. It
    /// begins with the graph inputs that were extended, and looks over these, the collector and the places of its own steps alone. The
    /// first sweep takes memory for the agenda that the net keeps. So does the first sweep after the net was put together of its parts.
    pub fn sweep<G: Gate, H: Hears>(&mut self, gate: &G, hearer: &mut H) -> Result<(), AllocError>
        requires running { IsRunning self.old }
        requires stands { StandsForSome C.laws self.old }
        ensures becomes { Becomes C.laws self.old self.new }
        ensures heard { OnOk result (Heard C.laws H.has_heard hearer.old hearer.new self.old self.new) }
        ensures heard_some { OnErr result (HeardSome C.laws H.has_heard hearer.old hearer.new self.old) }
        ensures rest { IfOk result (λ _. IsAtRest C.laws self.new) }
        ensures running { IsRunning self.new }
        ensures stands { (job : LoggedJob C.laws) → StandsFor job self.old → StandsFor job self.new }
        ensures taken { taken_out self.new ≡ taken_out self.old }

        // The nodes have claimed at most as many sets, calls and answers, all together, as the weight of the job is.
        ensures weight { (job : LoggedJob C.laws) (solution : List (StreamPrefix Plain)) → StandsFor job self.old → Solves job solution → claimed_in self.new ≤ weight job.job solution }
    {
        self.come_to_rest(gate, hearer)
    }

    // Makes steps until none would do anything, and keeps the agenda for the next sweep.
    fn come_to_rest<G: Gate, H: Hears>(
        &mut self,
        gate: &G,
        hearer: &mut H,
    ) -> Result<(), AllocError>
        requires running { IsRunning self.old }
        requires stands { StandsForSome C.laws self.old }
        ensures becomes { Becomes C.laws self.old self.new }
        ensures heard { OnOk result (Heard C.laws H.has_heard hearer.old hearer.new self.old self.new) }
        ensures heard_some { OnErr result (HeardSome C.laws H.has_heard hearer.old hearer.new self.old) }
        ensures rest { IfOk result (λ _. IsAtRest C.laws self.new) }
    {
        let mut agenda = self.take_agenda()?;
        match self.rest_by(&mut agenda, gate, hearer) {
            Ok(()) => {
                self.keep_agenda(agenda, true);
                Ok(())
            }
            Err(error) => {
                self.keep_agenda(agenda, false);
                Err(error)
            }
        }
    }

    // Takes the agenda that the last sweep left, or makes a new one. All places are in the agenda if it isn't known which of them have
    // changed.
    fn take_agenda(&mut self) -> Result<Agenda, AllocError>
        requires { StandsForSome C.laws self.old }
        ensures same { self.new ≡ self.old }
        ensures agenda { IfOk result (λ a. IsAgendaOf self.old.plan a) }
        ensures rests { IfOk result (λ a. RestsBut self.old a) }
    {
        let known = self.known;
        self.known = false;
        let Some(agenda) = self.agenda.take() else {
            let agenda = self.made_agenda()?;
            return Ok(agenda);
        };
        Ok(woken_unless(known, agenda))
    }

    // Returns a new agenda with all places in it.
    fn made_agenda(&self) -> Result<Agenda, AllocError>
        requires { StandsForSome C.laws self.now }
        ensures agenda { IfOk result (λ a. IsAgendaOf self.now.plan a) }
        ensures rests { IfOk result (λ a. RestsBut self.now a) }
    {
        let agenda = Agenda::new(self.alloc, &self.plan)?;
        Ok(woken_unless(false, agenda))
    }

    // Keeps an agenda for the next sweep.
    fn keep_agenda(&mut self, agenda: Agenda, known: bool)
        requires agenda { IsAgendaOf self.old.plan agenda }
        requires rests { known ≡ true → RestsBut self.old agenda }
        ensures { self.new ≡ self.old }
    {
        self.agenda = Some(agenda);
        self.known = known;
    }

    // Visits the places of the agenda, and looks over the places whose parts have changed, until nothing is done.
    fn rest_by<G: Gate, H: Hears>(
        &mut self,
        agenda: &mut Agenda,
        gate: &G,
        hearer: &mut H,
    ) -> Result<(), AllocError>
        requires running { IsRunning self.old }
        requires stands { StandsForSome C.laws self.old }
        requires agenda { IsAgendaOf self.old.plan agenda.old }
        requires rests { RestsBut self.old agenda.old }
        ensures becomes { Becomes C.laws self.old self.new }
        ensures heard { OnOk result (Heard C.laws H.has_heard hearer.old hearer.new self.old self.new) }
        ensures heard_some { OnErr result (HeardSome C.laws H.has_heard hearer.old hearer.new self.old) }
        ensures rest { IfOk result (λ _. IsAtRest C.laws self.new) }
        ensures agenda { IsAgendaOf self.old.plan agenda.new }
        ensures left { OnOk result (RestsBut self.new agenda.new) }
    {
        'passes: loop {
            self.work_off(agenda, gate, hearer)?;
            if !self.look_over(agenda, gate, hearer)? {
                return Ok(());
            }
        }
    }

    // Visits the places of the agenda, and those that are added on the way, and relaxes limits, until nothing is done.
    fn work_off<G: Gate, H: Hears>(
        &mut self,
        agenda: &mut Agenda,
        gate: &G,
        hearer: &mut H,
    ) -> Result<(), AllocError>
        requires running { IsRunning self.old }
        requires stands { StandsForSome C.laws self.old }
        requires agenda { IsAgendaOf self.old.plan agenda.old }
        ensures becomes { Becomes C.laws self.old self.new }
        ensures heard { OnOk result (Heard C.laws H.has_heard hearer.old hearer.new self.old self.new) }
        ensures heard_some { OnErr result (HeardSome C.laws H.has_heard hearer.old hearer.new self.old) }
        ensures agenda { IsAgendaOf self.old.plan agenda.new }
        ensures notes { OnOk result (Notes self.old agenda.old self.new agenda.new) }
    {
        'steps: while self.go_on(agenda, gate, hearer)? {}
        Ok(())
    }

    // Visits the places of the agenda until something is done, and relaxes limits if nothing was. Returns whether something was done.
    fn go_on<G: Gate, H: Hears>(
        &mut self,
        agenda: &mut Agenda,
        gate: &G,
        hearer: &mut H,
    ) -> Result<bool, AllocError>
        requires running { IsRunning self.old }
        requires stands { StandsForSome C.laws self.old }
        requires agenda { IsAgendaOf self.old.plan agenda.old }
        ensures becomes { Becomes C.laws self.old self.new }
        ensures heard { OnOk result (Heard C.laws H.has_heard hearer.old hearer.new self.old self.new) }
        ensures heard_some { OnErr result (HeardSome C.laws H.has_heard hearer.old hearer.new self.old) }
        ensures goes { IfOk result (λ did. Goes did self.old self.new) }
        ensures agenda { IsAgendaOf self.old.plan agenda.new }
        ensures notes { OnOk result (Notes self.old agenda.old self.new agenda.new) }
    {
        'places: while let Some(place) = agenda.take() {
            if self.visit(place, agenda, gate, hearer)? {
                return Ok(true);
            }
        }
        let relaxed = self.step(Event::Relax, gate, hearer)?;
        agenda.release();
        Ok(relaxed)
    }

    // Lets the node or the graph input at a place do what it can. Returns whether something was done.
    fn visit<G: Gate, H: Hears>(
        &mut self,
        place: u32,
        agenda: &mut Agenda,
        gate: &G,
        hearer: &mut H,
    ) -> Result<bool, AllocError>
        requires running { IsRunning self.old }
        requires stands { StandsForSome C.laws self.old }
        requires agenda { IsAgendaOf self.old.plan agenda.old }
        requires there { place < length agenda.old.heads }
        ensures becomes { Becomes C.laws self.old self.new }
        ensures heard { OnOk result (Heard C.laws H.has_heard hearer.old hearer.new self.old self.new) }
        ensures heard_some { OnErr result (HeardSome C.laws H.has_heard hearer.old hearer.new self.old) }
        ensures goes { IfOk result (λ did. Goes did self.old self.new) }
        ensures agenda { IsAgendaOf self.old.plan agenda.new }
        ensures notes { OnOk result (Notes self.old agenda.old self.new agenda.new) }
        ensures unchanged { IfOk result (λ did. did ≡ false → agenda.new.ready ≡ agenda.old.ready) }
    {
        if place < self.node_count() {
            self.visit_node(place, agenda, gate, hearer)
        } else {
            self.send_until_held(place, agenda, gate, hearer)
        }
    }

    // Lets a node work, unless it is a source that is throttled, and sends on what it laid. A source may have more to do then. Any other
    // node has more to do only once something new reaches it. If the node took packets from a full queue, the feeders that were held back
    // may feed again. Returns whether something was done.
    fn visit_node<G: Gate, H: Hears>(
        &mut self,
        node: u32,
        agenda: &mut Agenda,
        gate: &G,
        hearer: &mut H,
    ) -> Result<bool, AllocError>
        requires running { IsRunning self.old }
        requires stands { StandsForSome C.laws self.old }
        requires agenda { IsAgendaOf self.old.plan agenda.old }
        requires there { node < length self.old.plan.nodes }
        ensures becomes { Becomes C.laws self.old self.new }
        ensures heard { OnOk result (Heard C.laws H.has_heard hearer.old hearer.new self.old self.new) }
        ensures heard_some { OnErr result (HeardSome C.laws H.has_heard hearer.old hearer.new self.old) }
        ensures goes { IfOk result (λ did. Goes did self.old self.new) }
        ensures agenda { IsAgendaOf self.old.plan agenda.new }
        ensures notes { OnOk result (Notes self.old agenda.old self.new agenda.new) }
        ensures unchanged { IfOk result (λ did. did ≡ false → agenda.new.ready ≡ agenda.old.ready) }
    {
        if self.is_held_source(node) {
            agenda.hold(node);
            return Ok(false);
        }
        let was_full = self.is_full(node);
        let again = self.has_no_input(node);
        if !self.work_long(node, gate, hearer)? {
            return Ok(false);
        }
        go_on_with(agenda, node, again, was_full);
        self.send(node, agenda, gate, hearer)?;
        Ok(true)
    }

    // Whether a queue of a node holds its limit of packets or more.
    fn is_full(&self, node: u32) -> bool
        requires there { node < length self.now.plan.nodes }
        requires stands { StandsForSome C.laws self.now }
        ensures { (intake : IntakeView) → slice_get self.now.intakes node ≡ Some intake
            → TellsAtLimit result self.now.limits.queues (first_edge self.now.plan node) intake.waits }
    {
        is_at_limit(
            &self.limits,
            self.first_edge(node),
            &self.intakes[node as usize],
        )
    }
}
