ghost use Rattle.std.specs.Prelude.{◌≡◌, ◌<◌, ◌≤◌, ℕ, List, None, length, slice_get, option_copied, IfOk, OnOk, OnErr};
ghost use Rattle.std.specs.Bool.{OnTrue};
ghost use Rattle.mg_value.specs.Payload.{Plain};
ghost use Rattle.mg_settled.specs.Prefix.{StreamPrefix};
ghost use Rattle.mg_stream.specs.Pool.{Backlog};
ghost use Rattle.mg_calc.specs.Rules.{Laws};
ghost use Rattle.mg_calc.specs.declared.inputs.Inputs.{Inputs as Given};
ghost use Rattle.mg_node.specs.Job.{LoggedJob, Solves};
ghost use Rattle.mg_node.specs.Looking.{kept_packet};
ghost use Rattle.mg_node.specs.Intakes.{HasSet};
ghost use Rattle.mg_sched.specs.Views.{NetView};
ghost use Rattle.mg_sched.specs.StandsFor.{StandsFor, StandsForSome, IsRunning};
ghost use Rattle.mg_sched.specs.AtRest.{IsAtRest};
ghost use Rattle.mg_sched.specs.Extends.{GoesOnWith, MayGoOnWith, ComesAt, MayGoOnAt};
ghost use Rattle.mg_sched.specs.Taking.{TakesOut, taken_out};
ghost use Rattle.mg_sched.specs.Looks.{IsOutputOf, HasFrom};
ghost use Rattle.mg_sched.specs.Reports.{report_of};
ghost use Rattle.mg_sched.specs.WindsUp.{MayWindUp, WindsUpNet};
ghost use Rattle.mg_drive.specs.Nets.{Keeps, GaveNothingUp, HasAtMost, NotesMoves, IsNoInput};

use crate::Moved;
use mg_calc::Inputs;
use mg_sched::Report;
use mg_settled::{InputSet, PrefixList};
use mg_time::Timestamp;
use mg_value::{NumberList, Packet};
use std::alloc::{AllocError, Global};

/// A net that can be driven, however its nodes are made to run.
pub trait Driven {
    /// The rules of the stated laws.
    ghost laws: { Laws };

    /// The net as contracts see it.
    ghost net: { Self → NetView };

    /// Begins each node that isn't begun yet: opens its calculator, and lays what that emits. An `Err` means that memory ran out; the call
    /// may be made again.
    fn begin(&mut self) -> Result<(), AllocError>
        requires stands { StandsForSome laws (net self.old) }
        ensures running { OnOk result (IsRunning (net self.new)) }
        ensures keeps { Keeps (net self.old) (net self.new) }
        ensures whole { GaveNothingUp (net self.old) (net self.new) }
        ensures taken { taken_out (net self.new) ≡ taken_out (net self.old) }
        ensures stands { (job : LoggedJob laws) → StandsFor job (net self.old) → StandsFor job (net self.new) };

    /// Sweeps the net until no node can go further. It takes no set of the outputs. It notes the engines that may have changed.
    fn to_rest(&mut self, moved: &mut Moved) -> Result<(), AllocError>
        requires running { IsRunning (net self.old) }
        requires stands { StandsForSome laws (net self.old) }
        ensures rest { OnOk result (IsAtRest laws (net self.new)) }
        ensures moved { OnOk result (NotesMoves moved.old moved.new (net self.old) (net self.new)) }
        ensures running { IsRunning (net self.new) }
        ensures keeps { Keeps (net self.old) (net self.new) }
        ensures whole { GaveNothingUp (net self.old) (net self.new) }
        ensures taken { taken_out (net self.new) ≡ taken_out (net self.old) }
        ensures stands { (job : LoggedJob laws) → StandsFor job (net self.old) → StandsFor job (net self.new) };

    /// Takes in further input. An `Err` means that memory ran out, and leaves the net as it was.
    fn extend(&mut self, more: &Inputs) -> Result<(), AllocError>
        requires may { MayGoOnWith laws more.now (net self.old) }
        ensures running { IsRunning (net self.old) → IsRunning (net self.new) }
        ensures keeps { Keeps (net self.old) (net self.new) }
        ensures whole { GaveNothingUp (net self.old) (net self.new) }
        ensures taken { taken_out (net self.new) ≡ taken_out (net self.old) }
        ensures unchanged { OnErr result (net self.new ≡ net self.old) }
        ensures stands { (first later : LoggedJob laws) → GoesOnWith more.now first later → StandsFor first (net self.old) → OnOk result (StandsFor later (net self.new)) };

    /// Takes in further input at some graph inputs alone, by their rising numbers, a piece for each of them. All other engines stay as they
    /// are. An `Err` means that memory ran out, and leaves the net as it was.
    fn extend_some(&mut self, inputs: &NumberList, pieces: &PrefixList) -> Result<(), AllocError>
        requires may { MayGoOnAt laws inputs.now pieces.now (net self.old) }
        ensures others { OnOk result ((place : ℕ) → IsNoInput (length (net self.old).plan.nodes) inputs.now place → slice_get (net self.new).engines place ≡ slice_get (net self.old).engines place) }
        ensures running { IsRunning (net self.old) → IsRunning (net self.new) }
        ensures keeps { Keeps (net self.old) (net self.new) }
        ensures whole { GaveNothingUp (net self.old) (net self.new) }
        ensures taken { taken_out (net self.new) ≡ taken_out (net self.old) }
        ensures unchanged { OnErr result (net self.new ≡ net self.old) }
        ensures stands { (more : Given) (first later : LoggedJob laws) → ComesAt inputs.now pieces.now first.job.inputs.streams more → GoesOnWith more first later → StandsFor first (net self.old) → OnOk result (StandsFor later (net self.new)) };

    /// Gives up the packets that all readers of their stream have got.
    fn trim(&mut self)
        requires stands { StandsForSome laws (net self.old) }
        ensures running { IsRunning (net self.old) → IsRunning (net self.new) }
        ensures keeps { Keeps (net self.old) (net self.new) }
        ensures laid { (stream number : ℕ) → HasAtMost (net self.old) stream number → HasFrom (net self.new) stream number }
        ensures taken { taken_out (net self.new) ≡ taken_out (net self.old) }
        ensures stands { (job : LoggedJob laws) → StandsFor job (net self.old) → StandsFor job (net self.new) };

    /// Takes the next settled set of the graph's outputs, and returns whether there was one.
    fn take_out(&mut self, into: &mut InputSet) -> bool
        requires places { length into.old ≡ length (net self.old).plan.outputs }
        requires stands { StandsForSome laws (net self.old) }
        ensures taken { TakesOut result into.old into.new (net self.old) (net self.new) }
        ensures whole { GaveNothingUp (net self.old) (net self.new) }
        ensures stands { (job : LoggedJob laws) → StandsFor job (net self.old) → StandsFor job (net self.new) }
        ensures in_solution { (job : LoggedJob laws) (streams : List (StreamPrefix Plain)) → Solves job streams → StandsFor job (net self.old)
            → OnTrue result (HasSet job streams (length (net self.old).plan.nodes) (taken_out (net self.old)) into.new) };

    /// Returns the packet of a stream with a number, counted from 0. The packet is there exactly if it was laid and wasn't given up.
    fn packet(&self, stream: u32, number: u64) -> Option<&Packet>
        requires stands { StandsForSome laws (net self.now) }
        ensures packet { (output : Backlog Plain) → IsOutputOf (net self.now) stream output → option_copied result ≡ kept_packet output number }
        ensures past { length (net self.now).plan.streams ≤ stream → option_copied result ≡ None };

    /// Returns the bound of a stream.
    fn bound(&self, stream: u32) -> Timestamp
        requires stream { stream < length (net self.now).plan.streams }
        requires stands { StandsForSome laws (net self.now) }
        ensures { (output : Backlog Plain) → IsOutputOf (net self.now) stream output → result ≡ output.bound };

    /// Returns how far the net's nodes and streams have come.
    fn report(&self, alloc: Global) -> Result<Report, AllocError>
        ensures { IfOk result (λ r. r ≡ report_of (net self.now)) };

    /// Closes the nodes that were opened and had no Close.
    fn wind_up(&mut self) -> Result<(), AllocError>
        requires may { MayWindUp (net self.old) }
        ensures wound_up { WindsUpNet laws (net self.old) (net self.new) }
        ensures all { OnOk result ((net self.new).wound ≡ length (net self.old).plan.nodes) };
}
