//! How a net is put together again.
ghost use Rattle.std.specs.Prelude.{◌≡◌, ◌+◌, ◌<◌, length};
ghost use Rattle.mg_node.specs.Job.{LoggedJob};
ghost use Rattle.mg_sched.specs.Views.{NetView};
ghost use Rattle.mg_sched.specs.Places.{with_limits};
ghost use Rattle.mg_sched.specs.StandsFor.{StandsFor, KnowsLimits, IsRunning};
ghost use Rattle.mg_sched.specs.ComesApart.{parts_in, net_of, ArePartsOf, AreParts, IsPutTogether};
ghost use Rattle.mg_sched.specs.Code.Telling.{ToldTo};

use super::{IndexedPlan, Net, NetRest};
use crate::net_parts::NetParts;
use mg_calc::NodeCalculator;

// Returns the net that has these parts. Its limits aren't told anew what waits.
fn joined<C: NodeCalculator>(parts: NetParts<C>) -> Net<C>
    ensures { result ≡ net_of (record { plan = parts.plan; engines = parts.engines.items; intakes = parts.intakes.items; rest = parts.rest }) }
{
    let NetParts {
        plan,
        engines,
        intakes,
        rest,
    } = parts;
    let IndexedPlan {
        plan,
        first_edges,
        own_feeders,
        got,
    } = plan;
    let NetRest {
        alloc,
        given,
        work_queues,
        limits,
        spare,
        boxes,
        kept,
    } = rest;
    let begun = plan.nodes.len();
    Net {
        alloc,
        plan,
        given,
        engines,
        intakes,
        work_queues,
        limits,
        first_edges,
        own_feeders,
        got,
        kept,
        spare,
        boxes,
        begun,
        wound: 0,
        agenda: None,
        known: false,
    }
}

impl<C: NodeCalculator> Net<C> {
    /// Puts a net together of the parts into which a net came apart, whatever became of them since. The new net stands for each job for
    /// which these are the parts of one net. Its limits are told anew what waits. Nothing is copied, and no memory is taken.
    pub fn put_together(parts: NetParts<C>) -> Net<C>
        requires { AreParts C.laws (record { plan = parts.plan; engines = parts.engines.items; intakes = parts.intakes.items; rest = parts.rest }) }
        ensures together { IsPutTogether (record { plan = parts.plan; engines = parts.engines.items; intakes = parts.intakes.items; rest = parts.rest }) result }
        ensures running { IsRunning result }
        ensures stands { (job : LoggedJob C.laws) → ArePartsOf job (record { plan = parts.plan; engines = parts.engines.items; intakes = parts.intakes.items; rest = parts.rest })
            → StandsFor job result }
    {
        let mut net = joined(parts);
        net.tell_limits();
        net
    }

    // Tells the limits how many packets wait at each port, and which nodes have ended.
    fn tell_limits(&mut self)
        requires { AreParts C.laws (parts_in self.old) }
        ensures same { self.new ≡ with_limits self.old self.new.limits }
        ensures knows { KnowsLimits self.new }
    {
        let nodes = self.plan.nodes.len();
        for node in 0..nodes {
            self.tell_of(node);
        }
        self.note_ports(nodes);
    }

    // Tells the limits what waits at a node, and whether it has ended.
    fn tell_of(&mut self, node: u32)
        requires there { node < length self.old.plan.nodes }
        requires parts { AreParts C.laws (parts_in self.old) }
        ensures { (start : NetView) → AreParts C.laws (parts_in start) → ToldTo node node start self.old → ToldTo (node + 1) (node + 1) start self.new }
    {
        self.note_ports(node);
        self.stop_ended(node);
    }
}
