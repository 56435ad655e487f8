ghost use Rattle.std.specs.Prelude.{◌≡◌, IfOk, slice_get, option_copied};
ghost use Rattle.mg_check.specs.Code.Streams.{streams_of as by_parts};

use crate::inferred::Inferred;
use crate::names::Names;
use mg_calc::{PlanStream, PlanStreamList, Producer};
use mg_value::{BlockList, MgText};
use std::alloc::{AllocError, Global};

fn at<T>(items: &[T], place: u32) -> Option<&T>
    ensures { option_copied result ≡ slice_get items.now place }
{
    items.get(place as usize)
}

#[tactic(auto, using(crate::proofs::Shown::no_name, crate::proofs::Shown::no_inferred, crate::proofs::Shown::no_writer, crate::proofs::Shown::all_named))]
fn stream_at(
    alloc: Global,
    names: &Names,
    mets: &[Inferred],
    writers: &[Producer],
    place: u32,
) -> Result<Option<PlanStream>, AllocError>
    ensures { IfOk result (λ stream. stream ≡ slice_get (by_parts names.now mets.now writers.now) place) }
{
    let Some(name) = names.get(place) else {
        return Ok(None);
    };
    let Some(inferred) = at(mets, place) else {
        return Ok(None);
    };
    let Some(producer) = at(writers, place) else {
        return Ok(None);
    };
    Ok(Some(PlanStream {
        name: MgText::new(alloc, name)?,
        kind: inferred.kind,
        producer: *producer,
    }))
}

/// Returns the streams of a plan, made of their names, their kinds and their producers.
#[tactic(auto, using(crate::proofs::Shown::one_stream_more, crate::proofs::Shown::streams_ended, crate::proofs::Shown::streams_all))]
pub(crate) fn streams_of(
    alloc: Global,
    names: &Names,
    mets: &[Inferred],
    writers: &[Producer],
) -> Result<PlanStreamList, AllocError>
    ensures { IfOk result (λ streams. streams ≡ by_parts names.now mets.now writers.now) }
{
    let mut streams = Vec::new(alloc);
    for place in 0..names.len() {
        let Some(stream) = stream_at(alloc, names, mets, writers, place)? else {
            return Ok(BlockList::from_vec(streams)?);
        };
        streams.push(stream)?;
    }
    Ok(BlockList::from_vec(streams)?)
}
