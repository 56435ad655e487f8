//! The pieces that notes and reports are made of, each put at a text's end.
ghost use Rattle.std.specs.Prelude.{◌≡◌, ◌<◌, ◌++◌, length, decimal, OnOk};
ghost use Rattle.mg_time.specs.Text.{time_text};
ghost use Rattle.mg_answer.specs.Notes.{label_of};

use itoa::Buffer;
use mg_calc::Plan;
use mg_time::Timestamp;
use mg_value::MgText;
use std::alloc::AllocError;

/// Returns the label of a node.
pub fn label_at(plan: &Plan, node: usize) -> &MgText
    requires { node < length plan.now.nodes }
    ensures { result.now ≡ label_of plan.now node }
{
    &plan.nodes.as_slice()[node].label
}

/// Puts the text of a timestamp at a text's end.
pub fn put_time(text: &mut Vec<u8>, time: Timestamp) -> Result<(), AllocError>
    ensures { OnOk result (text.new.items ≡ text.old.items ++ time_text time) }
{
    let alloc = *text.allocator();
    put(text, &time.print_text(alloc)?)
}

/// Puts the decimal digits of a number at a text's end.
pub fn put_number(text: &mut Vec<u8>, number: u64) -> Result<(), AllocError>
    ensures { OnOk result (text.new.items ≡ text.old.items ++ decimal number) }
{
    let mut digits = Buffer::new();
    put(text, digits.format(number).as_bytes())
}

/// Puts bytes at a text's end.
pub fn put(text: &mut Vec<u8>, bytes: &[u8]) -> Result<(), AllocError>
    ensures { OnOk result (text.new.items ≡ text.old.items ++ bytes.now) }
{
    text.extend_from_slice(bytes)
}
