//! Deliveries along an edge while the parts of a net lie apart.
ghost use Rattle.std.specs.Prelude.{◌≡◌, ◌<◌, length, Some, slice_get};
ghost use Rattle.mg_route.specs.TableLaws.{table_laws};
ghost use Rattle.mg_node.specs.Job.{LoggedJob};
ghost use Rattle.mg_sched.specs.Places.{source_of};
ghost use Rattle.mg_sched.specs.ComesApart.{RestView, ArePartsOf, AreParts};

use mg_calc::{Edge, Plan, Producer};
use mg_node::{Engine, Intake};
use mg_route::LawBox;

// Returns the place of the engine that writes the stream of an edge.
fn source_of(plan: &Plan, edge: Edge) -> usize
    requires { edge.stream < length plan.now.streams }
    ensures { source_of plan.now edge ≡ Some result }
{
    match plan.streams.as_slice()[edge.stream as usize].producer {
        Producer::Input(input) => plan.nodes.len() as usize + input as usize,
        Producer::Node { node, .. } => node as usize,
    }
}

// Delivers along an edge the packets and the bound that its port hasn't got.
fn bring(
    plan: &Plan,
    engines: &Vec<Engine<LawBox>>,
    intakes: &mut Vec<Intake>,
    number: u32,
    edge: Edge,
)
    requires there { slice_get plan.now.edges number ≡ Some edge }
    requires parts { (rest : RestView) × AreParts table_laws (record { plan = plan.now; engines = engines.now.items; intakes = intakes.old.items; rest = rest }) }
    ensures { (job : LoggedJob table_laws) (rest : RestView) → ArePartsOf job (record { plan = plan.now; engines = engines.now.items; intakes = intakes.old.items; rest = rest })
        → ArePartsOf job (record { plan = plan.now; engines = engines.now.items; intakes = intakes.new.items; rest = rest }) }
{
    let place = source_of(plan, edge);
    let engine = &engines[place];
    let intake = &mut intakes[edge.node as usize];
    let _ = engine.deliver(edge, intake, u32::MAX);
}

/// Delivers along the edge of this number, if there is such an edge, what its port hasn't got. The parts stay the parts of
/// one net.
pub(crate) fn carry(
    plan: &Plan,
    engines: &Vec<Engine<LawBox>>,
    intakes: &mut Vec<Intake>,
    number: u32,
)
    requires { (rest : RestView) × AreParts table_laws (record { plan = plan.now; engines = engines.now.items; intakes = intakes.old.items; rest = rest }) }
    ensures { (job : LoggedJob table_laws) (rest : RestView) → ArePartsOf job (record { plan = plan.now; engines = engines.now.items; intakes = intakes.old.items; rest = rest })
        → ArePartsOf job (record { plan = plan.now; engines = engines.now.items; intakes = intakes.new.items; rest = rest }) }
{
    if number >= plan.edges.len() {
        return;
    }
    let edge = plan.edges.as_slice()[number as usize];
    bring(plan, engines, intakes, number, edge);
}
