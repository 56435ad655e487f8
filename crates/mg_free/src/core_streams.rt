//! The streams of a core, each with its producer in the core.
ghost use Rattle.std.specs.Prelude.{◌≡◌, ◌++◌, IfOk, OnOk, map};
ghost use Rattle.std.specs.List.{enumerate_from};
ghost use Rattle.mg_calc.specs.declared.plan_stream.Producer.TheVariants.{Input as the_input};
ghost use Rattle.mg_free.specs.Core.{entering as the_entering, written_by as the_written, output_streams, streams_of as the_streams};

use crate::kinds::is_free;
use crate::numbering::entering;
use mg_calc::{Plan, PlanStream, PlanStreamList, Producer, TryClone};
use mg_value::{Kind, MgText, NumberList};
use std::alloc::{AllocError, Global};

// Returns a stream of the plan with its producer in the core.
fn written_by(
    alloc: Global,
    plan: &Plan,
    number: u32,
    producer: Producer,
) -> Result<PlanStream, AllocError>
    ensures { IfOk result (λ stream. stream ≡ the_written plan.now number producer) }
{
    match plan.streams.get(number) {
        Some(stream) => {
            let mut stream = stream.try_clone(alloc)?;
            stream.producer = producer;
            Ok(stream)
        }
        None => {
            let name = MgText::new(alloc, "")?;
            let kind = Kind::Any;
            Ok(PlanStream {
                name,
                kind,
                producer,
            })
        }
    }
}

// Returns the graph inputs of the core: the streams that enter it from outside.
fn entering_streams(alloc: Global, plan: &Plan) -> Result<Vec<PlanStream>, AllocError>
    ensures { IfOk result (λ streams. streams.items ≡ map (λ e. the_written plan.now e.1 (the_input e.0)) (enumerate_from 0 (the_entering plan.now))) }
{
    let entering = entering(alloc, plan)?;
    let numbers = entering.as_slice();
    let mut streams = Vec::new(alloc);
    for place in 0..entering.len() {
        let producer = Producer::Input(place);
        streams.push(written_by(alloc, plan, numbers[place as usize], producer)?)?;
    }
    Ok(streams)
}

// Appends the outputs of a node of the core to a list of streams.
fn add_outputs(
    alloc: Global,
    into: &mut Vec<PlanStream>,
    plan: &Plan,
    node: u32,
    outputs: &NumberList,
) -> Result<(), AllocError>
    ensures { OnOk result (into.new.items ≡ into.old.items ++ output_streams plan.now node outputs.now) }
{
    let numbers = outputs.as_slice();
    for port in 0..outputs.len() {
        let producer = Producer::Node { node, port };
        into.push(written_by(alloc, plan, numbers[port as usize], producer)?)?;
    }
    Ok(())
}

/// Returns the streams of the core: first the streams that enter it from outside, and then the outputs of the core's nodes.
pub fn core_streams(alloc: Global, plan: &Plan) -> Result<PlanStreamList, AllocError>
    ensures { IfOk result (λ streams. streams ≡ the_streams plan.now) }
{
    let mut streams = entering_streams(alloc, plan)?;
    let mut number = 0;
    let nodes = plan.nodes.as_slice();
    for place in 0..plan.nodes.len() {
        let node = &nodes[place as usize];
        if !is_free(node) {
            add_outputs(alloc, &mut streams, plan, number, &node.outputs)?;
            number += 1;
        }
    }
    Ok(PlanStreamList::from_vec(streams)?)
}
