use crate::net::{IndexedPlan, NetRest};
use mg_calc::NodeCalculator;
use mg_node::{Engine, Intake};

/// The parts into which a net comes apart. A net can be put together of them again. Each engine and each intake may go elsewhere meanwhile.
#[derive(Drop)]
pub struct NetParts<C: NodeCalculator> {
    /// The plan, with its tables.
    pub plan: IndexedPlan,
    /// The engines of the nodes, and after them those of the graph inputs.
    pub engines: Vec<Engine<C>>,
    /// The intakes of the nodes, and after them the collector's.
    pub intakes: Vec<Intake>,
    /// The rest of the net: its side packets, its work queues, its limits, and the user-supplied calculators that no node uses.
    pub rest: NetRest<C>,
}
