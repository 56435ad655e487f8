//! Laws of the definitions: each function does nothing, and its contract is the law.
ghost use Rattle.std.specs.Prelude.{◌≡◌, ℕ, List, [], All, Some, None, length};
ghost use Rattle.mg_config.specs.Config.{GraphView};
ghost use Rattle.mg_calc.specs.Plan.{HasEachOnce, StandsBefore};
ghost use Rattle.mg_check.specs.Cycle.{FeedsItself, IsLargestCycle, largest_cycle};
ghost use Rattle.mg_check.specs.Drafts.{DraftView};
ghost use Rattle.mg_check.specs.Joining.{links, order, cycle, cycle_of};
ghost use Rattle.mg_check.specs.Order.{left_out};
ghost use Rattle.mg_check.specs.declared.fault.CheckFault.TheVariants.{Cycle};

/// A graph has a cycle exactly if a set of some nodes feeds itself. Each of these nodes reads, by an edge that isn't
/// back, what one of them writes. A refused cycle names the largest such set, by ascending numbers (MediaPipe, Graphs:
/// a graph is acyclic but for its back edges).
pub fn a_cycle_is_the_largest_set()
    ensures named { (graph : GraphView) (ds : List DraftView) (ns : List ℕ) → cycle graph ds ≡ Some (Cycle ns) → IsLargestCycle (links graph ds) ns }
    ensures none { (graph : GraphView) (ds : List DraftView) → cycle graph ds ≡ None → (ns : List ℕ) → FeedsItself (links graph ds) ns → ns ≡ [] }

    // There is one such set, so the refusal is that of any set that is the largest.
    ensures only { (graph : GraphView) (ds : List DraftView) (ns : List ℕ) → IsLargestCycle (links graph ds) ns → cycle graph ds ≡ cycle_of ns }
{}

/// The order of a graph's nodes is that of its plan. It leads forward along each edge that isn't back: the node that
/// writes stands before the node that reads. It leaves out exactly the nodes of the largest cycle, so if there is no
/// cycle it has each node once.
pub fn the_order_leads_forward()
    ensures forward { (graph : GraphView) (ds : List DraftView) → All (λ link. StandsBefore (order graph ds) link.from link.to) (links graph ds) }
    ensures left { (graph : GraphView) (ds : List DraftView) → left_out (length ds) (order graph ds) ≡ largest_cycle (length ds) (links graph ds) }
    ensures each { (graph : GraphView) (ds : List DraftView) → cycle graph ds ≡ None → HasEachOnce (length ds) (order graph ds) }
{}
