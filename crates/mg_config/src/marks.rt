//! The back edges that the fields of a node tell of.
ghost use Rattle.std.specs.Prelude.{◌≡◌, ◌≢◌, [], ◌++◌, Ok, Err, OnOk, IfOk, IfErr, map, codes};
ghost use Rattle.mg_text.specs.View.{field_view};
ghost use Rattle.mg_config.specs.Values.{messages_in};
ghost use Rattle.mg_config.specs.Path as paths;
ghost use Rattle.mg_config.specs.Config as config;

use crate::fault::ConfigFault;
use crate::mark::{Mark, mark_named};
use crate::node::MarkList;
use crate::path::within_numbered;
use crate::value::{fields_of_value, has_name, truth_named};
use mg_text::Field;
use mg_value::BlockList;
use std::alloc::{AllocError, Global};

/// Returns the input that the `input_stream_info` with the number `k`, from 0 on, names; a fault has that message in its path.
fn mark_at(alloc: Global, k: usize, info: &[Field]) -> Result<Mark, ConfigFault>
    ensures ok { IfOk result (λ mark. paths.result_within (paths.numbered (codes "input_stream_info") k) (config.mark_in (map field_view info.now)) ≡ Ok mark) }
    ensures err { IfErr result (λ fault. fault ≢ ConfigFault.OutOfMemory → paths.result_within (paths.numbered (codes "input_stream_info") k) (config.mark_in (map field_view info.now)) ≡ Err fault) }
{
    match mark_named(alloc, info) {
        Ok(mark) => Ok(mark),
        Err(fault) => Err(within_numbered(alloc, "input_stream_info", k, fault)),
    }
}

fn keep(marks: &mut Vec<Mark>, back: bool, mark: Mark) -> Result<(), AllocError>
    ensures { OnOk result (marks.new.items ≡ marks.old.items ++ config.kept back mark []) }
{
    if back {
        marks.push(mark)?;
    }
    Ok(())
}

/// Returns the back edges that the fields of a node tell of. Each `input_stream_info` is judged, and kept if it is a back edge.
pub fn marks_named(alloc: Global, fields: &[Field]) -> Result<MarkList, ConfigFault>
    ensures ok { IfOk result (λ marks. config.marks_from 0 (messages_in (codes "input_stream_info") (map field_view fields.now)) ≡ Ok marks) }
    ensures err { IfErr result (λ fault. fault ≢ ConfigFault.OutOfMemory → config.marks_from 0 (messages_in (codes "input_stream_info") (map field_view fields.now)) ≡ Err fault) }
{
    let mut marks = Vec::new(alloc);
    let mut k: usize = 0;
    for field in fields {
        if !has_name(field, b"input_stream_info") {
            continue;
        }
        let info = fields_of_value(&field.value);
        let mark = mark_at(alloc, k, info)?;
        keep(&mut marks, truth_named(info, b"back_edge"), mark)?;
        k += 1;
    }
    Ok(BlockList::from_vec(marks)?)
}
