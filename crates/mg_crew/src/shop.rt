ghost use Rattle.std.specs.Prelude.{◌≡◌, ◌+◌, ◌^◌, length, IfOk};
ghost use Rattle.mg_calc.specs.Plan.{IsValid, HasEachOnce, sources, feeders};
ghost use Rattle.mg_levels.specs.Levels.{order_of, portion_of, IsSeatOf};

use crate::board::Board;
use crate::chart::Chart;
use crate::gauge::Gauge;
use crate::marks::Marks;
use crate::throttle::Throttle;
use crate::waiting::Waiting;
use mg_calc::{NodeCalculator, Plan};
use mg_edge::Gate;
use mg_levels::{LevelSeat, Levels};
use mg_turns::SharedNet;
use std::alloc::{AllocError, Global};

/// What workers share beside a net: what they look up, the nodes that may run, and what they tell each other.
#[derive(Drop)]
pub(crate) struct Tools {
    pub chart: Chart,
    pub levels: Levels,
    pub marks: NodeMarks,
    /// Who waits for turns.
    pub waiting: Waiting,
    /// What holds feeders back, if queues have limits.
    pub throttle: Option<Throttle>,
    pub board: Board,
}

/// Marks of nodes, and of edges from graph inputs. No contract rests on them.
#[derive(Drop)]
pub(crate) struct NodeMarks {
    /// The nodes that are in the levels, or about to be, or with a worker that serves or keeps them. So none is in twice, and none is
    /// served by two workers. If several works of a node may run at once, it has the mark only until a worker looks at it.
    pub inside: Marks,
    /// The nodes that were to be put into the levels while they had that mark. The worker that has such a node puts it in afterwards.
    pub again: Marks,
    /// The sources that are held, until a worker puts them into the levels.
    pub held: Marks,
    /// The nodes that laid packets which couldn't all be brought yet.
    pub behind: Marks,
    /// The edges from graph inputs that are late. Another worker had the consumer's turn before, and has called the edge since. So packets are
    /// brought along it even if the input is throttled.
    pub late: Marks,
    /// The places from which late edges lead.
    pub late_from: Marks,
}

/// What all workers that run a net have in common.
#[derive(Drop)]
pub(crate) struct Shop<'a, C: NodeCalculator, G: Gate> {
    pub alloc: Global,
    pub net: &'a SharedNet<C>,
    pub tools: &'a Tools,
    pub gate: &'a G,
}

/// What came of a try.
#[derive(Clone, Copy)]
pub(crate) struct Came {
    /// Whether something was done.
    pub did: bool,
    /// Whether there may be more to do.
    pub more: bool,
    /// The word whose turn another worker had, if one was. The rest is left to that worker.
    pub left: Option<u32>,
}

impl Came {
    /// Returns that nothing was done, and that there is no more to do.
    pub(crate) fn nothing() -> Came {
        Came {
            did: false,
            more: false,
            left: None,
        }
    }

    /// Returns that nothing was done, since another worker had the turn of a word.
    pub(crate) fn left_to(word: u32) -> Came {
        Came {
            did: false,
            more: false,
            left: Some(word),
        }
    }

    /// Returns whether something was done, and that there is no more to do.
    pub(crate) fn if_did(did: bool) -> Came {
        Came {
            did,
            more: false,
            left: None,
        }
    }

    /// Returns whether a work was done, and that there may be more to do if it was.
    pub(crate) fn if_worked(did: bool) -> Came {
        Came {
            did,
            more: did,
            left: None,
        }
    }

    /// Whether nothing was done, and there is no more to do.
    pub(crate) fn is_nothing(&self) -> bool {
        !self.did && self.is_all()
    }

    /// Whether there is no more to do, and nothing is left to another worker.
    pub(crate) fn is_all(&self) -> bool {
        !self.more && self.left.is_none()
    }

    /// Returns what came of two tries together.
    pub(crate) fn and(&self, other: &Came) -> Came {
        Came {
            did: self.did | other.did,
            more: self.more | other.more,
            left: either(self.left, other.left),
        }
    }
}

// Returns the first of two words that is one.
fn either(one: Option<u32>, other: Option<u32>) -> Option<u32> {
    match one {
        Some(word) => Some(word),
        None => other,
    }
}

// Returns what holds feeders back, if the queues of a plan have limits. `count` is how many feeders the plan has.
fn throttle_of(alloc: Global, plan: &Plan, count: usize) -> Result<Option<Throttle>, AllocError>
    requires valid { IsValid plan.now }
    requires feeders { count ≡ length (feeders plan.now) }
{
    if plan.limit < 0 {
        return Ok(None);
    }
    let gauge = Gauge::new(alloc, plan, count)?;
    let throttle = Throttle::new(alloc, gauge, plan.limit as u64, plan.edges.len())?;
    Ok(Some(throttle))
}

// Returns the first marks for a plan: no node is in the levels, all are held, none is behind, and no edge is late.
fn marks_of(alloc: Global, plan: &Plan) -> Result<NodeMarks, AllocError> {
    let nodes = plan.nodes.len();
    let places = nodes.checked_add(plan.inputs.len()).ok_or(AllocError)?;
    let inside = Marks::new(alloc, nodes, false)?;
    let again = Marks::new(alloc, nodes, false)?;
    let held = Marks::new(alloc, nodes, true)?;
    let behind = Marks::new(alloc, nodes, false)?;
    let late = Marks::new(alloc, plan.edges.len(), false)?;
    let late_from = Marks::new(alloc, places, false)?;
    Ok(NodeMarks {
        inside,
        again,
        held,
        behind,
        late,
        late_from,
    })
}

// Returns the lists of a plan, in which nobody waits.
fn waiting_of(alloc: Global, plan: &Plan) -> Result<Waiting, AllocError> {
    let nodes = plan.nodes.len();
    let words = 2 * nodes as usize + plan.inputs.len() as usize + 1;
    let count = plan.edges.len().checked_add(nodes).ok_or(AllocError)?;
    Waiting::new(alloc, words, count)
}

/// Returns the tools for a plan, and a seat at its levels that has the whole portion.
pub(crate) fn tools_of(alloc: Global, plan: &Plan) -> Result<(Tools, LevelSeat), AllocError>
    requires { IsValid plan.now }
    ensures levels { IfOk result (λ r. HasEachOnce (length plan.now.nodes) (order_of r.0.levels)) }
    ensures places { IfOk result (λ r. r.0.chart.from.places ≡ length plan.now.nodes + length plan.now.inputs) }
    ensures consumers { IfOk result (λ r. r.0.chart.into.places ≡ length plan.now.nodes + 1) }
    ensures edges { IfOk result (λ r. (r.0.chart.from.edges ≡ length plan.now.edges) × (r.0.chart.into.edges ≡ length plan.now.edges)) }
    ensures sources { IfOk result (λ r. r.0.chart.sources.items ≡ sources plan.now) }
    ensures place { IfOk result (λ r. IsSeatOf r.0.levels r.1 × (portion_of r.1 ≡ 2 ^ 32)) }
{
    let chart = Chart::new(alloc, plan)?;
    let throttle = throttle_of(alloc, plan, chart.feeder_count)?;
    let marks = marks_of(alloc, plan)?;
    let waiting = waiting_of(alloc, plan)?;
    let (levels, seat) = Levels::new(alloc, &plan.order)?;
    let tools = Tools {
        chart,
        levels,
        marks,
        waiting,
        throttle,
        board: Board::new(),
    };
    Ok((tools, seat))
}
