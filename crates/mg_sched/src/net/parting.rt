//! How a net comes apart.
ghost use Rattle.std.specs.Prelude.{◌≡◌, ◌≢◌, ◌<◌, [], length, All, AllPairs};
ghost use Rattle.mg_node.specs.Job.{LoggedJob};
ghost use Rattle.mg_node.specs.Shelves.{IsOut};
ghost use Rattle.mg_sched.specs.StandsFor.{StandsFor, StandsForSome, IsRunning};
ghost use Rattle.mg_sched.specs.ComesApart.{all_shelved, PutsBack, NoneOnWorkQueues, HasComeApart, ArePartsOf};
ghost use Rattle.mg_sched.specs.Code.Telling.{PutsBackAt};

use super::{IndexedPlan, Net, NetRest};
use crate::net_parts::NetParts;
use crate::work_queue::WorkQueue;
use mg_calc::NodeCalculator;
use mg_node::{Engine, Outcome};

// Puts all works that lie in a work queue back into the window of their engine, as they are.
fn put_back<C: NodeCalculator>(engine: &mut Engine<C>, work_queue: &mut WorkQueue<C>)
    requires out { All (IsOut engine.old) work_queue.old.works }
    requires apart { AllPairs (λ a b. a.number ≢ b.number) work_queue.old.works }
    ensures engine { engine.new ≡ all_shelved engine.old work_queue.old.works }
    ensures work_queue { work_queue.new ≡ record work_queue.old { works = [] } }
{
    while let Some(work) = work_queue.take_last() {
        engine.shelve(Outcome::unrun(work));
    }
}

impl<C: NodeCalculator> Net<C> {
    /// Takes a net apart: the works that lie in work queues stand in their windows again, as they are, and each part comes out. Nothing is
    /// copied, and no memory is taken. The parts are those of each job for which the net stood, and `put_together` makes a net of them
    /// again.
    pub fn apart(self) -> NetParts<C>
        requires running { IsRunning self }
        requires stands { StandsForSome C.laws self }
        ensures apart { HasComeApart self (record { plan = result.plan; engines = result.engines.items; intakes = result.intakes.items; rest = result.rest }) }

        // For every job for which the net stands, the parts are those of one net.
        ensures parts { (job : LoggedJob C.laws) → StandsFor job self
            → ArePartsOf job (record { plan = result.plan; engines = result.engines.items; intakes = result.intakes.items; rest = result.rest }) }
    {
        let mut net = self;
        net.put_back_all();
        let Net {
            alloc,
            plan,
            given,
            engines,
            intakes,
            work_queues,
            limits,
            first_edges,
            own_feeders,
            got,
            kept,
            spare,
            boxes,
            ..
        } = net;
        NetParts {
            plan: IndexedPlan {
                plan,
                first_edges,
                own_feeders,
                got,
            },
            engines,
            intakes,
            rest: NetRest {
                alloc,
                given,
                work_queues,
                limits,
                spare,
                boxes,
                kept,
            },
        }
    }

    /// Puts all works that lie in work queues back into their windows, as they are: what is claimed isn't performed. The net still stands
    /// for each job for which it stood.
    pub fn put_back_all(&mut self)
        requires running { IsRunning self.old }
        requires stands { StandsForSome C.laws self.old }
        ensures puts_back { PutsBack (length self.old.plan.nodes) self.old.engines self.new.engines self.old.work_queues self.new.work_queues }
        ensures others { self.new ≡ record self.old { engines = self.new.engines; work_queues = self.new.work_queues } }
        ensures stands { (job : LoggedJob C.laws) → StandsFor job self.old → StandsFor job self.new }
        ensures none { NoneOnWorkQueues self.new }
    {
        for node in 0..self.plan.nodes.len() {
            self.put_back_at(node);
        }
    }

    // Puts the works of a node back into its window.
    fn put_back_at(&mut self, node: u32)
        requires there { node < length self.old.plan.nodes }
        requires running { IsRunning self.old }
        requires stands { StandsForSome C.laws self.old }
        ensures { PutsBackAt node self.old self.new }
    {
        self.known = false;
        let place = node as usize;
        put_back(&mut self.engines[place], &mut self.work_queues[place]);
    }
}
