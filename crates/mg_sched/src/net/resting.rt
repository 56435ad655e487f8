//! A look whether a net is at rest.
ghost use Rattle.std.specs.Prelude.{◌≡◌, ◌<◌, length, IfOk};
ghost use Rattle.mg_sched.specs.StandsFor.{StandsForSome, IsRunning};
ghost use Rattle.mg_sched.specs.AtRest.{LooksOver};
ghost use Rattle.mg_sched.specs.Sweeps.{Becomes};
ghost use Rattle.mg_sched.specs.Code.Left.{HasNoWork, HasNoShelf, EdgesRest, NodesRest, RestsAt, effect_if, Finds};

use super::Net;
use mg_calc::{Effect, NodeCalculator};
use std::alloc::AllocError;

// Returns whether a step did something. Out of memory is an error.
fn did(effect: Effect) -> Result<bool, AllocError>
    ensures { IfOk result (λ did. effect ≡ effect_if did) }
{
    match effect {
        Effect::Did => Ok(true),
        Effect::Idle => Ok(false),
        Effect::OutOfMemory => Err(AllocError),
    }
}

impl<C: NodeCalculator> Net<C> {
    /// Returns whether the net is at rest: no event would do anything. Looks at each event at most once, up to the first that would do
    /// something. Makes that event unless it performs a work: no calculator is called. So a look costs what the graph has of nodes, ports
    /// and edges, and one step. Out of memory: what a delivery has moved stays moved.
    pub fn rests(&mut self) -> Result<bool, AllocError>
        requires running { IsRunning self.old }
        requires stands { StandsForSome C.laws self.old }
        ensures looks { IfOk result (λ rests. LooksOver C.laws rests self.old self.new) }
        ensures becomes { Becomes C.laws self.old self.new }
    {
        let brings = self.goes_along_edges()?;
        if brings {
            return Ok(false);
        }
        let works = self.goes_on_at_nodes()?;
        if works {
            return Ok(false);
        }
        let relaxed = did(self.relax())?;
        Ok(!relaxed)
    }

    // Whether something goes along some edge. What goes along the first such edge is brought.
    fn goes_along_edges(&mut self) -> Result<bool, AllocError>
        requires running { IsRunning self.old }
        requires stands { StandsForSome C.laws self.old }
        ensures finds { IfOk result (λ found. Finds C.laws found (EdgesRest C.laws self.old (length self.old.plan.edges)) self.old self.new) }
        ensures becomes { Becomes C.laws self.old self.new }
    {
        'edges: for edge in 0..self.edge_count() {
            let brought = did(self.carry(edge))?;
            if brought {
                return Ok(true);
            }
        }
        Ok(false)
    }

    // Whether some node has something to do. What the first such node has to do is done, unless it is to perform a work.
    fn goes_on_at_nodes(&mut self) -> Result<bool, AllocError>
        requires running { IsRunning self.old }
        requires stands { StandsForSome C.laws self.old }
        ensures finds { IfOk result (λ found. Finds C.laws found (NodesRest C.laws self.old (length self.old.plan.nodes)) self.old self.new) }
        ensures becomes { Becomes C.laws self.old self.new }
    {
        'nodes: for node in 0..self.node_count() {
            let goes = self.goes_on_at(node)?;
            if goes {
                return Ok(true);
            }
        }
        Ok(false)
    }

    // Whether a node has something to do, which is done, unless it is to perform a work.
    fn goes_on_at(&mut self, node: u32) -> Result<bool, AllocError>
        requires running { IsRunning self.old }
        requires stands { StandsForSome C.laws self.old }
        requires there { node < length self.old.plan.nodes }
        ensures finds { IfOk result (λ found. Finds C.laws found (RestsAt C.laws self.old node) self.old self.new) }
        ensures becomes { Becomes C.laws self.old self.new }
    {
        match self.first_claimed(node) {
            Some(_) => Ok(true),
            None => {
                let goes = self.lays_at(node)?;
                Ok(goes)
            }
        }
    }

    // Whether a node has a work to commit or to claim, or an output to raise, which is done. No work lies in its work queue.
    fn lays_at(&mut self, node: u32) -> Result<bool, AllocError>
        requires running { IsRunning self.old }
        requires stands { StandsForSome C.laws self.old }
        requires there { node < length self.old.plan.nodes }
        requires works { HasNoWork self.old node }
        ensures finds { IfOk result (λ found. Finds C.laws found (RestsAt C.laws self.old node) self.old self.new) }
        ensures becomes { Becomes C.laws self.old self.new }
    {
        match self.first_performed(node) {
            Some(number) => {
                let did = did(self.commit(node, number))?;
                Ok(did)
            }
            None => {
                let goes = self.takes_at(node)?;
                Ok(goes)
            }
        }
    }

    // Whether a node has a work to claim or an output to raise, which is done. No work lies in its work queue, and none in its window is
    // performed and not committed.
    fn takes_at(&mut self, node: u32) -> Result<bool, AllocError>
        requires running { IsRunning self.old }
        requires stands { StandsForSome C.laws self.old }
        requires there { node < length self.old.plan.nodes }
        requires works { HasNoWork self.old node }
        requires shelf { HasNoShelf self.old node }
        ensures finds { IfOk result (λ found. Finds C.laws found (RestsAt C.laws self.old node) self.old self.new) }
        ensures becomes { Becomes C.laws self.old self.new }
    {
        let claimed = did(self.claim(node))?;
        if claimed {
            return Ok(true);
        }
        let raised = did(self.raise(node))?;
        Ok(raised)
    }
}
