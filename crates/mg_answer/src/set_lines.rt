//! Puts the lines of sets of a graph's outputs at a text's end.
ghost use Rattle.std.specs.Prelude.{◌≡◌, ◌<◌, ◌^◌, ◌++◌, ℕ, List, All, length, IfOk, OnOk, OnErr};
ghost use Rattle.std.specs.Option.{option_copied};
ghost use Rattle.mg_answer.specs.Text.{name_of, output_names, packet_text, set_text};

use crate::Puts;
use mg_calc::Plan;
use mg_feed::{LineWriter, whole_or_none};
use mg_settled::InputSet;
use mg_value::{MgText, Packet};
use std::alloc::{AllocError, Global};

/// Returns a writer of lines for each output of a graph, in order.
pub fn writers_of(alloc: Global, plan: &Plan) -> Result<Vec<LineWriter>, AllocError>
    requires { All (λ s. s < length plan.now.streams) plan.now.outputs }
    ensures names { IfOk result (λ writers. writers.items ≡ output_names plan.now) }
    ensures few { IfOk result (λ writers. length writers.items < 2 ^ 32) }
{
    let mut writers = Vec::with_capacity(alloc, plan.outputs.len() as usize)?;
    for number in plan.outputs.as_slice() {
        writers.push(writer_of(alloc, plan, *number)?)?;
    }
    Ok(writers)
}

fn writer_of(alloc: Global, plan: &Plan, number: u32) -> Result<LineWriter, AllocError>
    requires { number < length plan.now.streams }
    ensures { IfOk result (λ writer. writer ≡ name_of plan.now number) }
{
    LineWriter::new(alloc, stream_name(plan, number))
}

/// Returns the name of the stream of a number.
pub fn stream_name(plan: &Plan, number: u32) -> &MgText
    requires { number < length plan.now.streams }
    ensures { result.now ≡ name_of plan.now number }
{
    &plan.streams.as_slice()[number as usize].name
}

/// The lines of a set of a graph's outputs: one for each output that has a packet in it.
#[derive(Drop)]
pub struct SetLines<'w, 's> {
    pub writers: &'w [LineWriter],
    pub set: &'s InputSet,
    ghost few: { length writers.now < 2 ^ 32 },
}

impl<'w, 's> Puts for SetLines<'w, 's> {
    ghost says = { λ lines. set_text lines.writers.now lines.set.now };

    fn put_at(&self, text: &mut Vec<u8>) -> Result<(), AllocError> {
        let len = text.len();
        let put = push_set(text, self.writers, self.set);
        whole_or_none(text, len, put)
    }
}

// Puts the lines of a set at a text's end. After an `Err` some of them may stand there.
fn push_set(text: &mut Vec<u8>, writers: &[LineWriter], set: &InputSet) -> Result<(), AllocError>
    requires { length writers.now < 2 ^ 32 }
    ensures put { OnOk result (text.new.items ≡ text.old.items ++ set_text writers.now set.now) }
    ensures part { OnErr result ((part : List ℕ) × (text.new.items ≡ text.old.items ++ part)) }
{
    for (port, writer) in writers.iter().enumerate() {
        push_packet(text, writer, set.get(port as u32))?;
    }
    Ok(())
}

// Puts the line of a packet, if there is a packet.
fn push_packet(
    text: &mut Vec<u8>,
    writer: &LineWriter,
    packet: Option<&Packet>,
) -> Result<(), AllocError>
    ensures put { OnOk result (text.new.items ≡ text.old.items ++ packet_text writer.now (option_copied packet.entry)) }
    ensures unchanged { OnErr result (text.new.items ≡ text.old.items) }
{
    match packet {
        Some(packet) => writer.push_line(text, packet),
        None => Ok(()),
    }
}
