//! The note of a graph whose expansion is refused.
ghost use Rattle.std.specs.Prelude.{◌≡◌, ◌≢◌, ◌++◌, OnOk, IfOk, codes, decimal};
ghost use Rattle.mg_answer.specs.Shown.{escaped};
ghost use Rattle.mg_files.specs.Notes as notes;

use crate::refusal::{of_text, put_next_number, put_next_text, stage_note};
use mg_names::print_port;
use mg_subgraph::ExpandFault;
use mg_value::MgText;
use std::alloc::{AllocError, Global};

/// Returns the note that the expansion of a graph is refused, or an error if memory ran out. Running out of memory isn't noted.
pub fn expand_note(alloc: Global, fault: &ExpandFault) -> Result<Vec<u8>, AllocError>
    ensures some { OnOk result (fault.now ≢ ExpandFault.OutOfMemory) }
    ensures note { IfOk result (λ v. v.items ≡ notes.expand_note fault.now) }
{
    let refusal = expand_refusal(alloc, fault)?;
    let note = stage_note(alloc, b"expand", &refusal)?;
    Ok(note)
}

fn expand_refusal(alloc: Global, fault: &ExpandFault) -> Result<Vec<u8>, AllocError>
    ensures some { OnOk result (fault.now ≢ ExpandFault.OutOfMemory) }
    ensures text { IfOk result (λ v. v.items ≡ notes.expand_refusal fault.now) }
{
    match fault {
        ExpandFault::TypeTwice { name } => of_text(alloc, b"TypeTwice ", name),
        ExpandFault::Recursive { name } => of_text(alloc, b"Recursive ", name),
        ExpandFault::TooManyNodes => Vec::from_slice(alloc, b"TooManyNodes"),
        ExpandFault::ReservedName { name } => of_text(alloc, b"ReservedName ", name),
        ExpandFault::PortShared { owner, name } => shared_refusal(alloc, owner, name),
        ExpandFault::BadField { owner, node, field } => {
            node_refusal(alloc, b"BadField ", owner, *node, field)
        }
        ExpandFault::NoSuchPort { owner, node, port } => {
            let port = print_port(alloc, port)?;
            node_refusal(alloc, b"NoSuchPort ", owner, *node, &port)
        }
        ExpandFault::OutOfMemory => Err(AllocError),
    }
}

fn shared_refusal(alloc: Global, owner: &MgText, name: &MgText) -> Result<Vec<u8>, AllocError>
    ensures { IfOk result (λ v. v.items ≡ notes.expand_refusal (ExpandFault.PortShared owner.now name.now)) }
{
    let mut text = of_text(alloc, b"PortShared ", owner)?;
    put_next_text(&mut text, name)?;
    Ok(text)
}

// Returns the words of a refusal of a node: what is wrong, the node's owner and number, and the wrong part of the node.
fn node_refusal(
    alloc: Global,
    refusal: &[u8],
    owner: &MgText,
    node: u32,
    part: &MgText,
) -> Result<Vec<u8>, AllocError>
    ensures { IfOk result (λ v. v.items ≡ refusal.now ++ escaped owner.now ++ codes " " ++ decimal node ++ codes " " ++ escaped part.now) }
{
    let mut text = of_text(alloc, refusal, owner)?;
    put_next_number(&mut text, node)?;
    put_next_text(&mut text, part)?;
    Ok(text)
}
