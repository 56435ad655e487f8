//! Plans with the limit of queues and the number of workers that the words ask for.
ghost use Rattle.std.specs.Prelude.{◌≡◌, ◌≢◌, pos, List, Some};
ghost use Rattle.mg_calc.specs.declared.shape.OuterShape.{OuterShape};
ghost use Rattle.mg_calc.specs.Plan.{IsValid, IsValidWithFree, OutersFit};
ghost use Rattle.mg_run.specs.Answer as answers;

use mg_calc::Plan;
use mg_words::{Instruction, MOST_WORKERS};

/// Returns a plan with another limit of queues, if one is given; 0 leaves the plan's own limit.
pub fn limited(limit: Option<i32>, plan: Plan) -> Plan
    ensures limit { result ≡ answers.with_limit limit plan }
    ensures valid { IsValid plan → IsValid result }
    ensures valid_with_free { IsValidWithFree plan → IsValidWithFree result }
    ensures fit { (outers : List OuterShape) → OutersFit plan outers → OutersFit result outers }
{
    match limit {
        Some(limit) => with_limit(limit, plan),
        None => plan,
    }
}

// Returns `limit`, or `own` if `limit` is 0.
fn limit_or(limit: i32, own: i32) -> i32
    ensures limit { result ≡ answers.limit_or limit own }
    ensures some { own ≢ pos 0 → result ≢ pos 0 }
{
    if limit == 0 { own } else { limit }
}

fn with_limit(limit: i32, plan: Plan) -> Plan
    ensures limit { result ≡ answers.with_limit (Some limit) plan }
    ensures valid { IsValid plan → IsValid result }
    ensures valid_with_free { IsValidWithFree plan → IsValidWithFree result }
    ensures fit { (outers : List OuterShape) → OutersFit plan outers → OutersFit result outers }
{
    let mut plan = plan;
    plan.limit = limit_or(limit, plan.limit);
    plan
}

// Returns a plan with another number of workers, at most 64, if one is given.
fn with_workers(workers: Option<u32>, plan: Plan) -> Plan
    ensures workers { result ≡ answers.with_workers workers plan }
    ensures valid { IsValid plan → IsValid result }
    ensures valid_with_free { IsValidWithFree plan → IsValidWithFree result }
    ensures fit { (outers : List OuterShape) → OutersFit plan outers → OutersFit result outers }
{
    match workers {
        Some(workers) => worked_by(workers, plan),
        None => plan,
    }
}

fn worked_by(workers: u32, plan: Plan) -> Plan
    ensures workers { result ≡ answers.with_workers (Some workers) plan }
    ensures valid { IsValid plan → IsValid result }
    ensures valid_with_free { IsValidWithFree plan → IsValidWithFree result }
    ensures fit { (outers : List OuterShape) → OutersFit plan outers → OutersFit result outers }
{
    let mut plan = plan;
    plan.workers = workers.min(MOST_WORKERS);
    plan
}

/// Returns a plan with the limit of queues and the number of workers that an instruction asks for.
pub fn as_asked(instruction: Instruction, plan: Plan) -> Plan
    ensures asked { result ≡ answers.as_asked instruction plan }
    ensures valid { IsValid plan → IsValid result }
    ensures valid_with_free { IsValidWithFree plan → IsValidWithFree result }
    ensures fit { (outers : List OuterShape) → OutersFit plan outers → OutersFit result outers }
{
    with_workers(instruction.workers, limited(instruction.limit, plan))
}
