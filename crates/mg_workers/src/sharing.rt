//! How a net is shared, and put together again.
ghost use Rattle.std.specs.Prelude.{◌≡◌, ◌+◌, ◌≤◌, ◌^◌, [], IfOk, IfErr, IfSome, OnSome, IsNone, length, vec_len, vec_capacity};
ghost use Rattle.mg_node.specs.Job.{LoggedJob};
ghost use Rattle.mg_sched.specs.Views.{NetView};
ghost use Rattle.mg_sched.specs.StandsFor.{StandsFor, StandsForSome, IsRunning};
ghost use Rattle.mg_sched.specs.ComesApart.{parts_in};
ghost use Rattle.mg_turns.specs.Parts.{Fits};
ghost use Rattle.mg_turns.specs.Rule.{Ready, first_view};
ghost use Rattle.mg_turns.specs.Ends.{Unshared};
ghost use Rattle.mg_turns.specs.Calls.{key_of, view_of, IsSeatOf};
ghost use Rattle.mg_workers.specs.Woven.{layout_by, layout_of};
ghost use Rattle.mg_workers.specs.Shared.{IsShared, IsSharedOf};
ghost use Rattle.mg_workers.specs.Became.{Became, CameBack};

use crate::kept::Kept;
use crate::unweaving::unweave;
use crate::weaving::weave;
use mg_calc::{NodeCalculator, Plan, TryClone};
use mg_node::{Engine, Intake};
use mg_sched::{Net, NetParts};
use mg_turns::{Layout, NetSeat, Part, SharedNet};
use std::alloc::{AllocError, Global};

/// A net that is shared, its first seat, which has the whole portion, and what stays aside.
pub type Shared<C> = (SharedNet<C>, NetSeat<C>, Kept<C>);

// Returns an empty list with room for the parts of a net. More than 2^32 parts count as out of memory: there are no more words.
fn make_room<C: NodeCalculator>(
    alloc: Global,
    engines: usize,
    intakes: usize,
) -> Result<Vec<Part<C>>, AllocError>
    ensures empty { IfOk result (λ v. v.items ≡ []) }
    ensures room { IfOk result (λ v. (engines + intakes ≤ vec_capacity v) × (engines + intakes ≤ 2 ^ 32)) }
{
    let many = engines.checked_add(intakes).ok_or(AllocError)?;
    if many > 1 << 32 {
        return Err(AllocError);
    }
    Vec::with_capacity(alloc, many)
}

// Shares engines and intakes, whose lists are emptied. If there is no memory, nothing changes.
fn share_parts<C: NodeCalculator>(
    alloc: Global,
    plan: &Plan,
    engines: &mut Vec<Engine<C>>,
    intakes: &mut Vec<Intake>,
) -> Option<(SharedNet<C>, NetSeat<C>)>
    requires counts { (length plan.now.nodes ≤ vec_len engines.old) × (vec_len intakes.old ≡ length plan.now.nodes + 1) }
    requires ready { Ready (layout_by plan.now engines.old.items intakes.old.items) }
    ensures seat { IfSome result (λ r. IsSeatOf r.0 r.1 × (view_of r.1 ≡ first_view (layout_by plan.now engines.old.items intakes.old.items))) }
    ensures key { IfSome result (λ r. key_of r.0 ≡ layout_by plan.now engines.old.items intakes.old.items) }
    ensures emptied { OnSome result ((engines.new.items ≡ []) × (intakes.new.items ≡ [])) }
    ensures unchanged { IsNone result → (engines.new.items ≡ engines.old.items) × (intakes.new.items ≡ intakes.old.items) }
    ensures room { (vec_capacity engines.new ≡ vec_capacity engines.old) × (vec_capacity intakes.new ≡ vec_capacity intakes.old) }
{
    let Ok(mut parts) = make_room(alloc, engines.len(), intakes.len()) else {
        return None;
    };
    let nodes = plan.nodes.len();
    let Ok(copy) = plan.try_clone(alloc) else {
        return None;
    };
    if !weave(alloc, nodes, engines, intakes, &mut parts) {
        unweave(nodes, parts, engines, intakes);
        return None;
    }
    match SharedNet::share(alloc, Layout::new(copy, parts)) {
        Ok(shared) => Some(shared),
        Err(layout) => {
            let (_, parts) = layout.into_parts();
            unweave(nodes, parts, engines, intakes);
            None
        }
    }
}

/// Shares a net whose nodes are begun. The works in its work queues stand in their windows again, as they are. The first seat
/// has the whole portion, 2^32. If there is no memory, the net comes back, as it was but for these works.
pub fn share<C: NodeCalculator>(alloc: Global, net: Net<C>) -> Result<Shared<C>, Net<C>>
    requires running { IsRunning net }
    requires stands { StandsForSome C.laws net }

    // The seat is one of the net, and has no work.
    ensures shared { IfOk result (λ r. IsShared C.laws r.0 r.1) }
    ensures whole { IfOk result (λ r. (view_of r.1).portion ≡ 2 ^ 32) }

    // What is shared and what is kept aside are what the net came apart into.
    ensures of { IfOk result (λ r. IsSharedOf C.laws net (key_of r.0) r.2) }

    // Its parts are lawful for each job for which the net stood.
    ensures jobs { IfOk result (λ r. (job : LoggedJob C.laws) → StandsFor job net → Fits job (key_of r.0)) }
    ensures back { IfErr result (λ n. CameBack net n) }
    ensures became { IfErr result (λ n. IsRunning n × Became C.laws net n) }
{
    let NetParts {
        plan,
        mut engines,
        mut intakes,
        rest,
    } = net.apart();
    match share_parts(alloc, plan.plan(), &mut engines, &mut intakes) {
        Some((shared, seat)) => Ok((
            shared,
            seat,
            Kept {
                plan,
                engines,
                intakes,
                rest,
            },
        )),
        None => Err(Net::put_together(NetParts {
            plan,
            engines,
            intakes,
            rest,
        })),
    }
}

/// Puts a shared net together again. Every other seat was joined into this one, so that it has the whole portion, and it has no work.
pub fn unshare<C: NodeCalculator>(net: SharedNet<C>, seat: NetSeat<C>, kept: Kept<C>) -> Net<C>
    requires shared { IsShared C.laws net seat }
    requires whole { (view_of seat).portion ≡ 2 ^ 32 }
    requires kept { (before : NetView) × StandsForSome C.laws before × IsSharedOf C.laws before (key_of net) kept }
    ensures running { IsRunning result }

    // Its parts are those that were shared, and each has come at least as far as the seat saw.
    ensures parts { Unshared C.laws (key_of net) (view_of seat) (layout_of (parts_in result)).parts }

    // The net is one that the shared net may have become.
    ensures became { (before : NetView) → StandsForSome C.laws before → IsSharedOf C.laws before (key_of net) kept → Became C.laws before result }
{
    let Kept {
        plan,
        mut engines,
        mut intakes,
        rest,
    } = kept;
    let nodes = net.nodes();
    let parts = net.unshare(seat);
    unweave(nodes, parts, &mut engines, &mut intakes);
    Net::put_together(NetParts {
        plan,
        engines,
        intakes,
        rest,
    })
}
