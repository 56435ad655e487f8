use crate::FreeNodeList;
use mg_calc::Plan;
use mg_value::NumberList;

/// A plan that is split into its core and its free nodes.
#[derive(Drop)]
pub struct FreePlan {
    /// The plan without its free nodes, whose outputs are further graph inputs.
    pub core: Plan,
    /// The plan's numbers of the core's nodes.
    pub numbers: NumberList,
    /// The core's number of each stream of the plan.
    pub streams: NumberList,
    pub free: FreeNodeList,
}
