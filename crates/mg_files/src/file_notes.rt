//! The notes of files that couldn't be loaded, or are no graphs.
ghost use Rattle.std.specs.Prelude.{◌≡◌, ◌≢◌, OnOk, IfOk, codes};
ghost use Rattle.mg_files.specs.Notes as notes;

use crate::refusal::{at_place, of_text};
use mg_answer::put_shown;
use mg_config::ConfigFault;
use mg_names::NameFault;
use mg_text::TextFault;
use mg_value::MgText;
use std::alloc::{AllocError, Global};

/// Returns the note that a file couldn't be loaded.
pub fn store_note(alloc: Global, file: &str) -> Result<Vec<u8>, AllocError>
    ensures { IfOk result (λ v. v.items ≡ notes.store_note file.now) }
{
    let mut note = Vec::from_slice(alloc, b"store: ")?;
    put_shown(&mut note, file.as_bytes())?;
    note.extend_from_slice(b"\n")?;
    Ok(note)
}

/// Returns the note that a file isn't text of the grammar, or an error if memory ran out. Running out of memory isn't noted.
pub fn text_note(alloc: Global, file: &str, fault: &TextFault) -> Result<Vec<u8>, AllocError>
    ensures some { OnOk result (fault.now ≢ TextFault.OutOfMemory) }
    ensures note { IfOk result (λ v. v.items ≡ notes.file_note file.now (codes "text") (notes.text_refusal fault.now)) }
{
    let refusal = text_refusal(alloc, fault)?;
    file_note(alloc, file, b"text", &refusal)
}

/// Returns the note that a file's fields are no configuration, or an error if memory ran out. Running out of memory isn't noted.
pub fn config_note(alloc: Global, file: &str, fault: &ConfigFault) -> Result<Vec<u8>, AllocError>
    ensures some { OnOk result (fault.now ≢ ConfigFault.OutOfMemory) }
    ensures note { IfOk result (λ v. v.items ≡ notes.file_note file.now (codes "config") (notes.config_refusal fault.now)) }
{
    let refusal = config_refusal(alloc, fault)?;
    file_note(alloc, file, b"config", &refusal)
}

fn file_note(alloc: Global, file: &str, stage: &[u8], refusal: &[u8]) -> Result<Vec<u8>, AllocError>
    ensures { IfOk result (λ v. v.items ≡ notes.file_note file.now stage.now refusal.now) }
{
    let mut note = Vec::from_slice(alloc, b"refused: ")?;
    put_shown(&mut note, file.as_bytes())?;
    note.extend_from_slice(b" ")?;
    note.extend_from_slice(stage)?;
    note.extend_from_slice(b" ")?;
    note.extend_from_slice(refusal)?;
    note.extend_from_slice(b"\n")?;
    Ok(note)
}

fn text_refusal(alloc: Global, fault: &TextFault) -> Result<Vec<u8>, AllocError>
    ensures some { OnOk result (fault.now ≢ TextFault.OutOfMemory) }
    ensures text { IfOk result (λ v. v.items ≡ notes.text_refusal fault.now) }
{
    match fault {
        TextFault::Syntax { at } => at_place(alloc, b"Syntax ", *at),
        TextFault::TooDeep { at } => at_place(alloc, b"TooDeep ", *at),
        TextFault::TooLong => Vec::from_slice(alloc, b"TooLong"),
        TextFault::OutOfMemory => Err(AllocError),
    }
}

fn config_refusal(alloc: Global, fault: &ConfigFault) -> Result<Vec<u8>, AllocError>
    ensures some { OnOk result (fault.now ≢ ConfigFault.OutOfMemory) }
    ensures text { IfOk result (λ v. v.items ≡ notes.config_refusal fault.now) }
{
    match fault {
        ConfigFault::UnknownField { path } => of_text(alloc, b"UnknownField ", path),
        ConfigFault::WrongShape { path } => of_text(alloc, b"WrongShape ", path),
        ConfigFault::Repeated { path } => of_text(alloc, b"Repeated ", path),
        ConfigFault::BadPort { path, cause } => port_refusal(alloc, path, *cause),
        ConfigFault::OutOfMemory => Err(AllocError),
    }
}

fn port_refusal(alloc: Global, path: &MgText, cause: NameFault) -> Result<Vec<u8>, AllocError>
    ensures { IfOk result (λ v. v.items ≡ notes.config_refusal (ConfigFault.BadPort path.now cause)) }
{
    let mut text = of_text(alloc, b"BadPort ", path)?;
    text.extend_from_slice(b" ")?;
    text.extend_from_slice(cause_name(cause).as_bytes())?;
    Ok(text)
}

fn cause_name(cause: NameFault) -> &'static str
    ensures { result.now ≡ notes.cause_name cause }
{
    match cause {
        NameFault::BadName => "BadName",
        NameFault::BadTag => "BadTag",
        NameFault::BadIndex => "BadIndex",
        NameFault::Gap => "Gap",
        NameFault::Twice => "Twice",
        NameFault::OutOfMemory => "",
    }
}
