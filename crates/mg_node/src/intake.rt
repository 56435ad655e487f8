ghost use Rattle.std.specs.Prelude.{◌≡◌, ◌<◌, ◌≤◌, ◌+◌, ◌-◌, ℕ, List, ◌^◌, min, true, false, length, replicate, slice_get, option_map, is_ok, IfOk, IfSome, IsSomeAnd, IsTrue, IsSome, if◌then◌else◌, ◌↔◌};
ghost use Rattle.std.specs.Bool.{OnTrue, OnFalse};
ghost use Rattle.mg_value.specs.Payload.{Plain};
ghost use Rattle.mg_settled.specs.Prefix.{StreamPrefix};
ghost use Rattle.mg_stream.specs.Queue.{count_of, with_packet, raised_to, MayCome};
ghost use Rattle.mg_stream.specs.Pool.{empty_backlog};
ghost use Rattle.mg_policy.specs.Inbox.{HasPorts};
ghost use Rattle.mg_calc.specs.Rules.{Laws};
ghost use Rattle.mg_calc.specs.Plan.{IsValid};
ghost use Rattle.mg_node.specs.Claims.{Takes};
ghost use Rattle.mg_node.specs.Intakes.{IsLeft, NoneWaits, HoldsNone, IsFresh, next_set_of, SomeJobHasIntake, HasSet, HasSets, HasLoop, AnswersBy, ClaimsSet};
ghost use Rattle.mg_policy.specs.declared.readiness.Readiness as Readiness;
ghost use Rattle.mg_node.specs.Job.{LoggedJob, Solves};
ghost use Rattle.mg_node.specs.Lawful.{HoldsWaits, LawfulIntake};
ghost use Rattle.mg_node.specs.IntakeStanding.{HasGrown, IntakeGrows};
ghost use Rattle.mg_node.specs.Ports.{ports_in, waiting_in, port_queue, with_port, with_room, IsNext, horizon_of};

use crate::Pending;
use crate::counting::held_in;
use mg_calc::{Law, Plan, PlanNode};
use mg_loopback::{Answered, Loopback};
use mg_policy::{Inbox, Readiness};
use mg_settled::InputSet;
use mg_time::Timestamp;
use mg_value::{Packet, Policy};
use std::alloc::{AllocError, Global};
use std::marker::Model;

/// What waits at a node, and how many of its input sets were claimed.
#[derive(Debug, Drop)]
pub struct Intake {
    waits: Pending,
    claimed: u64,
}

impl Model for Intake {
    ghost use Rattle.mg_node.specs.Views.{IntakeView};
    ghost use Rattle.mg_node.specs.Codes.{intake_code};

    ghost Value = { IntakeView };

    ghost coded = { intake_code };

    ghost view = { λ i. record { claimed = i.claimed; waits = i.waits } };
}

impl Intake {
    /// Makes the intake of a consumer of a plan, to which nothing came yet. The consumer is a node by its number, or the collector by the
    /// number of nodes.
    pub fn new(alloc: Global, plan: &Plan, consumer: u32) -> Result<Intake, AllocError>
        requires valid { IsValid plan.now }
        requires consumer { consumer ≤ length plan.now.nodes }
        ensures fresh { IfOk result (λ i. IsFresh plan.now consumer i) }

        // The intake is lawful for every job of the plan.
        ensures lawful { (laws : Laws) (job : LoggedJob laws) (streams : List (StreamPrefix Plain)) → job.job.plan ≡ plan.now → Solves job streams
            → IfOk result (λ i. LawfulIntake job consumer i) }
    {
        let waits = waits_at(alloc, plan, consumer)?;
        Ok(Intake { waits, claimed: 0 })
    }

    /// Claims the next input set, and returns whether there was one: the set is then in `into`, and its packets are gone. If there is none,
    /// nothing changes. A loopback has no sets.
    pub fn claim(&mut self, into: &mut InputSet) -> bool
        requires places { length into.old ≡ ports_in self.old.waits }
        requires lawful { SomeJobHasIntake self.old }
        ensures claimed { IsTrue result ↔ IsSome (next_set_of self.old.waits) }
        ensures shown { IfSome (next_set_of self.old.waits) (λ e. into.new ≡ e.set) }
        ensures counted { OnTrue result (self.new.claimed ≡ self.old.claimed + 1) }
        ensures unchanged { OnFalse result ((self.new ≡ self.old) × (into.new ≡ into.old)) }
        ensures places { length into.new ≡ length into.old }

        // The packets that go with the set are gone, and no other. All that came is counted.
        ensures left { OnTrue result (IsLeft self.old.waits self.new.waits) }
        ensures ports { ports_in self.new.waits ≡ ports_in self.old.waits }
        ensures counts { (port : ℕ) → count_of (port_queue self.new.waits port) ≡ count_of (port_queue self.old.waits port) }
        ensures bounds { (port : ℕ) → (port_queue self.new.waits port).bound ≡ (port_queue self.old.waits port).bound }

        // The intake's standing only grows.
        ensures grows { IntakeGrows self.old self.new }

        // Lawful in, lawful out, for every job; and the set is that of its number in the solution.
        ensures stays_lawful { (laws : Laws) (job : LoggedJob laws) (consumer : ℕ) → LawfulIntake job consumer self.old → LawfulIntake job consumer self.new }
        ensures in_solution { (laws : Laws) (job : LoggedJob laws) (consumer : ℕ) (streams : List (StreamPrefix Plain)) → Solves job streams → LawfulIntake job consumer self.old
            → OnTrue result (HasSet job streams consumer self.old.claimed into.new) }
    {
        if !claim_of(&mut self.waits, into) {
            return false;
        }
        self.claimed += 1;
        true
    }

    /// Claims the next input set, which must stand at `at`. The intake must not be a loopback's.
    pub(crate) fn claim_at(&mut self, at: Timestamp, into: &mut InputSet)
        requires places { length into.old ≡ ports_in self.old.waits }
        requires lawful { SomeJobHasIntake self.old }
        requires sets { HasSets self.old.waits }
        requires next { IsNext self.old.waits (Readiness.Ready at) }
        ensures { Takes self.old self.new into.new }
    {
        claim_known(&mut self.waits, at, into);
        self.claimed += 1;
    }

    /// Returns how many input sets were claimed, or packets of MAIN answered.
    pub fn claimed(&self) -> u64
        ensures { result ≡ self.now.claimed }
    {
        self.claimed
    }

    /// Returns how many ports there are.
    pub fn ports(&self) -> u32
        ensures { result ≡ ports_in self.now.waits }
    {
        match &self.waits {
            Pending::Sets(inbox) => inbox.ports(),
            Pending::Loop(_) => 2,
        }
    }

    /// Returns the timestamp of the first packet that waits at a port.
    pub fn first(&self, port: u32) -> Option<Timestamp>
        requires { port < ports_in self.now.waits }
        ensures { result ≡ option_map (λ p. p.at) (slice_get (port_queue self.now.waits port).packets 0) }
    {
        match &self.waits {
            Pending::Sets(inbox) => inbox.first(port),
            Pending::Loop(loopback) => loopback.first(port),
        }
    }

    /// Returns the lowest timestamp that a further packet of a port may have.
    pub fn bound(&self, port: u32) -> Timestamp
        requires { port < ports_in self.now.waits }
        ensures { result ≡ (port_queue self.now.waits port).bound }
    {
        match &self.waits {
            Pending::Sets(inbox) => inbox.bound(port),
            Pending::Loop(loopback) => loopback.bound(port),
        }
    }

    /// Returns how many packets wait at a port.
    pub fn waiting(&self, port: u32) -> u64
        requires { port < ports_in self.now.waits }
        ensures { result ≡ length (port_queue self.now.waits port).packets }
    {
        match &self.waits {
            Pending::Sets(inbox) => inbox.waiting(port),
            Pending::Loop(loopback) => loopback.waiting(port),
        }
    }

    /// Returns how many packets wait at all ports, at most `u64::MAX`.
    pub fn held(&self) -> u64
        ensures { result ≡ min (waiting_in self.now.waits) (2 ^ 64 - 1) }
    {
        match &self.waits {
            Pending::Sets(inbox) => held_in(inbox),
            Pending::Loop(loopback) => loopback.waiting(0).saturating_add(loopback.waiting(1)),
        }
    }

    /// Returns how many packets came at a port, those that are gone included.
    pub fn count(&self, port: u32) -> u64
        requires { port < ports_in self.now.waits }
        ensures { result ≡ count_of (port_queue self.now.waits port) }
    {
        match &self.waits {
            Pending::Sets(inbox) => inbox.count(port),
            Pending::Loop(loopback) => loopback.count(port),
        }
    }

    /// Returns whether there is a next input set, and at which time, or why there is none. The intake must not be a loopback's.
    pub(crate) fn set_readiness(&self) -> Readiness
        requires { HasSets self.now.waits }
        ensures { IsNext self.now.waits result }
    {
        match &self.waits {
            Pending::Sets(inbox) => inbox.readiness(),
            Pending::Loop(_) => unreachable!(),
        }
    }

    /// Returns whether a loopback is at its end: no packet waits on MAIN, and none comes there any more. The intake must be a loopback's.
    pub(crate) fn is_over(&self) -> bool
        requires { HasLoop self.now.waits }
        ensures yes { result ≡ true → IsNext self.now.waits Readiness.Close }
        ensures no { result ≡ false → ¬ IsNext self.now.waits Readiness.Close }
    {
        match &self.waits {
            Pending::Sets(_) => unreachable!(),
            Pending::Loop(loopback) => loopback.waiting(1) == 0
                && loopback.bound(1) == Timestamp::DONE,
        }
    }

    /// Answers the next packet of MAIN, if its answer can be told. The intake must be a loopback's.
    pub(crate) fn answer(&mut self) -> Answered
        requires looped { HasLoop self.old.waits }
        requires few { self.old.claimed + 1 < 2 ^ 64 }
        ensures { AnswersBy self.old.waits result self.old self.new }
    {
        let answered = match &mut self.waits {
            Pending::Sets(_) => unreachable!(),
            Pending::Loop(loopback) => loopback.answer(),
        };
        if let Answered::NotYet = answered {
            return answered;
        }
        self.claimed += 1;
        answered
    }

    /// Returns the time below which no further set is claimed, or answer given, whatever comes.
    pub fn horizon(&self) -> Timestamp
        ensures { result ≡ horizon_of self.now.waits }
    {
        match &self.waits {
            Pending::Sets(inbox) => inbox.horizon(),
            Pending::Loop(loopback) => loopback.out_bound(),
        }
    }

    /// Puts a packet that may come after those that wait at a port. Out of memory: drops the packet, and nothing but the room changes.
    pub(crate) fn put(&mut self, port: u32, packet: Packet) -> Result<(), AllocError>
        requires port { port < ports_in self.old.waits }
        requires may_come { MayCome (port_queue self.old.waits port) packet.at }
        ensures { self.new ≡ record {
          claimed = self.old.claimed;
          waits = with_port self.old.waits port
              (with_room (if is_ok result then with_packet (port_queue self.old.waits port) packet else port_queue self.old.waits port) (port_queue self.new.waits port).spare);
        } }
    {
        let refused = match &mut self.waits {
            Pending::Sets(inbox) => inbox.bring(port, packet).is_err(),
            Pending::Loop(loopback) => loopback.append(port, packet).is_err(),
        };
        if refused { Err(AllocError) } else { Ok(()) }
    }

    /// Raises the bound of a port.
    pub(crate) fn raise(&mut self, port: u32, bound: Timestamp)
        requires { port < ports_in self.old.waits }
        ensures { self.new ≡ record { claimed = self.old.claimed; waits = with_port self.old.waits port (raised_to (port_queue self.old.waits port) bound) } }
    {
        match &mut self.waits {
            Pending::Sets(inbox) => inbox.raise(port, bound),
            Pending::Loop(loopback) => loopback.raise(port, bound),
        }
    }
}

/// Returns what waits at a consumer to which nothing came yet.
fn waits_at(alloc: Global, plan: &Plan, consumer: u32) -> Result<Pending, AllocError>
    requires { IsValid plan.now }
    ensures { IfOk result (λ w. HoldsNone plan.now consumer w) }
{
    let Some(node) = plan.nodes.get(consumer) else {
        let inbox = Inbox::new(alloc, plan.outputs.len(), Policy::Default)?;
        return Ok(Pending::Sets(inbox));
    };
    waits_of(alloc, node)
}

/// Returns what waits at a node to which nothing came yet.
fn waits_of(alloc: Global, node: &PlanNode) -> Result<Pending, AllocError>
    requires { HasPorts node.now.policy (record { ports = replicate (length node.now.inputs) empty_backlog; spare = 0 }) }
    ensures { IfOk result (λ w. NoneWaits node.now w) }
{
    if let Law::Loopback = node.law {
        return Ok(Pending::Loop(Loopback::new(alloc)));
    }
    Ok(Pending::Sets(Inbox::new(alloc, node.inputs.len(), node.policy)?))
}

/// Claims the next input set of what waits into `into`, and returns whether there was one.
fn claim_of(waits: &mut Pending, into: &mut InputSet) -> bool
    requires { length into.old ≡ ports_in waits.old }
    ensures claimed { IsTrue result ↔ IsSome (next_set_of waits.old) }
    ensures shown { IfSome (next_set_of waits.old) (λ e. into.new ≡ e.set) }
    ensures unchanged { OnFalse result ((waits.new ≡ waits.old) × (into.new ≡ into.old)) }
    ensures places { length into.new ≡ length into.old }
    ensures left { OnTrue result (IsLeft waits.old waits.new) }
    ensures ports { ports_in waits.new ≡ ports_in waits.old }
    ensures counts { (port : ℕ) → count_of (port_queue waits.new port) ≡ count_of (port_queue waits.old port) }
    ensures bounds { (port : ℕ) → (port_queue waits.new port).bound ≡ (port_queue waits.old port).bound }
    ensures holds { (laws : Laws) (job : LoggedJob laws) (streams : List (StreamPrefix Plain)) (consumer k : ℕ) → HoldsWaits job streams consumer k waits.old
        → OnTrue result (ClaimsSet job streams consumer k waits.new into.new) }
    ensures grow { (laws : Laws) (job : LoggedJob laws) (streams : List (StreamPrefix Plain)) (consumer k port : ℕ) → HoldsWaits job streams consumer k waits.old
        → HasGrown (port_queue waits.old port) (port_queue waits.new port) }
{
    match waits {
        Pending::Sets(inbox) => inbox.claim(into),
        Pending::Loop(_) => false,
    }
}

/// Claims the next input set of what waits, which must stand at `at`. What waits must not be a loopback's.
fn claim_known(waits: &mut Pending, at: Timestamp, into: &mut InputSet)
    requires places { length into.old ≡ ports_in waits.old }
    requires sets { HasSets waits.old }
    requires next { IsNext waits.old (Readiness.Ready at) }
    ensures shown { IsSomeAnd (next_set_of waits.old) (λ e. into.new ≡ e.set) }
    ensures left { IsLeft waits.old waits.new }
    ensures ports { ports_in waits.new ≡ ports_in waits.old }
    ensures counts { (port : ℕ) → count_of (port_queue waits.new port) ≡ count_of (port_queue waits.old port) }
    ensures bounds { (port : ℕ) → (port_queue waits.new port).bound ≡ (port_queue waits.old port).bound }
    ensures holds { (laws : Laws) (job : LoggedJob laws) (streams : List (StreamPrefix Plain)) (consumer k : ℕ) → HoldsWaits job streams consumer k waits.old
        → ClaimsSet job streams consumer k waits.new into.new }
    ensures grow { (laws : Laws) (job : LoggedJob laws) (streams : List (StreamPrefix Plain)) (consumer k port : ℕ) → HoldsWaits job streams consumer k waits.old
        → HasGrown (port_queue waits.old port) (port_queue waits.new port) }
{
    match waits {
        Pending::Sets(inbox) => inbox.claim_at(at, into),
        Pending::Loop(_) => unreachable!(),
    }
}
