//! A tag and an index by themselves, as `TAG`, `TAG:index` or `:index` (MediaPipe, calculator.proto:
//! InputStreamInfo.tag_index).
ghost use Rattle.std.specs.Prelude.{◌≡◌, ◌≢◌, Ok, Err, IfOk, IfErr, string_bytes};
ghost use Rattle.mg_names.specs.declared.fault.NameFault.{NameFault};
ghost use Rattle.mg_names.specs.TagIndex as spelled;

use crate::fault::NameFault;
use crate::grammar::{cut, index_of, is_tag, owned};
use mg_value::MgText;
use std::alloc::{AllocError, Global};

fn is_tag_or_empty(text: &[u8]) -> bool
    ensures { result ≡ spelled.is_tag_or_empty text.now }
{
    text.is_empty() || is_tag(text)
}

/// Reads `TAG`, a tag alone, which has the index 0.
#[tactic(auto, using(crate::proofs::Parts::tag_is_ascii))]
fn tag_alone(alloc: Global, tag: &[u8]) -> Result<(MgText, u8), NameFault>
    ensures ok { IfOk result (λ pair. spelled.tag_alone tag.now ≡ Ok pair) }
    ensures err { IfErr result (λ fault. fault ≢ NameFault.OutOfMemory → spelled.tag_alone tag.now ≡ Err fault) }
    ensures refused { (fault : NameFault) → spelled.tag_alone tag.now ≡ Err fault → result ≡ Err fault }
{
    if !is_tag(tag) {
        return Err(NameFault::BadTag);
    }
    Ok((owned(alloc, tag)?, 0))
}

/// Reads `TAG:index` or `:index`, from its two parts.
#[tactic(auto, using(crate::proofs::Parts::tag_or_empty_is_ascii))]
fn tag_before(alloc: Global, tag: &[u8], index: &[u8]) -> Result<(MgText, u8), NameFault>
    ensures ok { IfOk result (λ pair. spelled.tag_before tag.now index.now ≡ Ok pair) }
    ensures err { IfErr result (λ fault. fault ≢ NameFault.OutOfMemory → spelled.tag_before tag.now index.now ≡ Err fault) }
    ensures refused { (fault : NameFault) → spelled.tag_before tag.now index.now ≡ Err fault → result ≡ Err fault }
{
    if !is_tag_or_empty(tag) {
        return Err(NameFault::BadTag);
    }
    match index_of(index) {
        None => Err(NameFault::BadIndex),
        Some(index) => Ok((owned(alloc, tag)?, index)),
    }
}

/// Reads the tag and index of a text. A tag alone has the index 0, and a tag before an index may be empty. A text is
/// refused for the first of these rules that it breaks. It has at most one colon, its tag is a tag, and its index is an index.
#[tactic(auto, using(crate::proofs::Parts::second_colon_refused))]
pub fn read_tag_index(alloc: Global, text: &[u8]) -> Result<(MgText, u8), NameFault>
    ensures ok { IfOk result (λ pair. spelled.tag_index_of text.now ≡ Ok pair) }
    ensures err { IfErr result (λ fault. fault ≢ NameFault.OutOfMemory → spelled.tag_index_of text.now ≡ Err fault) }

    // A text that has no tag and index is refused however little memory there is.
    ensures refused { (fault : NameFault) → spelled.tag_index_of text.now ≡ Err fault → result ≡ Err fault }
{
    let Some((tag, index)) = cut(text) else {
        return tag_alone(alloc, text);
    };
    match cut(index) {
        Some(_) => Err(NameFault::BadName),
        None => tag_before(alloc, tag, index),
    }
}

fn written(alloc: Global, tag: &MgText, index: u8) -> Result<String, AllocError>
    ensures { IfOk result (λ text. string_bytes text ≡ spelled.text_of_tag_index tag.now index) }
{
    let mut text = String::new(alloc);
    text.push_str(tag.as_str())?;
    if index != 0 || tag.as_bytes().is_empty() {
        write!(text, ":{index}")?;
    }
    Ok(text)
}

/// Returns the text of a tag, which may be empty, and an index: `TAG` at index 0, `TAG:index` at another index, and
/// `:index` for the empty tag. Both are read back from the text if the tag is empty or a tag, and the index is below 64.
pub fn print_tag_index(alloc: Global, tag: &MgText, index: u8) -> Result<MgText, AllocError>
    ensures text { IfOk result (λ text. text ≡ spelled.text_of_tag_index tag.now index) }
    ensures read_back { IfOk result (λ text. spelled.IsTagIndex tag.now index → spelled.tag_index_of text ≡ Ok (tag.now, index)) }
{
    let text = written(alloc, tag, index)?;
    Ok(MgText::from_string(text))
}
