ghost use Rattle.std.specs.Prelude.{◌≡◌, ◌≢◌, IfOk, IfErr, Ok, Err};
ghost use Rattle.mg_names.specs.declared.fault.NameFault.{NameFault};
ghost use Rattle.std.specs.Str.{IsAscii};
ghost use Rattle.mg_names.specs.Grammar as grammar;
ghost use Rattle.mg_names.specs.Spelling as spelled;

use crate::fault::NameFault;
use crate::grammar::{cut, index_of, is_name, is_tag, owned};
use crate::spelling::Spelling;
use std::alloc::Global;

/// Returns the spelling of these parts, after the last test, which is that of the name. The tag is empty or was tested.
#[tactic(auto, using(crate::proofs::Parts::tag_is_ascii, crate::proofs::Parts::name_is_ascii))]
fn named(alloc: Global, tag: &[u8], index: Option<u8>, name: &[u8]) -> Result<Spelling, NameFault>
    requires { IsAscii tag.now }
    ensures ok { IfOk result (λ spelling. spelled.named tag.now index name.now ≡ Ok spelling) }
    ensures err { IfErr result (λ fault. fault ≢ NameFault.OutOfMemory → spelled.named tag.now index name.now ≡ Err fault) }
    ensures refused { (fault : NameFault) → spelled.named tag.now index name.now ≡ Err fault → result ≡ Err fault }
{
    if !is_name(name) {
        return Err(NameFault::BadName);
    }
    Ok(Spelling {
        tag: owned(alloc, tag)?,
        index,
        name: owned(alloc, name)?,
    })
}

/// Returns the spelling of `TAG:name`, from its two parts.
#[tactic(auto, using(crate::proofs::Parts::tag_is_ascii, crate::proofs::Parts::name_is_ascii))]
fn tagged(alloc: Global, tag: &[u8], name: &[u8]) -> Result<Spelling, NameFault>
    ensures ok { IfOk result (λ spelling. spelled.tagged tag.now name.now ≡ Ok spelling) }
    ensures err { IfErr result (λ fault. fault ≢ NameFault.OutOfMemory → spelled.tagged tag.now name.now ≡ Err fault) }
    ensures refused { (fault : NameFault) → spelled.tagged tag.now name.now ≡ Err fault → result ≡ Err fault }
{
    if !is_tag(tag) {
        return Err(NameFault::BadTag);
    }
    named(alloc, tag, None, name)
}

/// Returns the spelling of `TAG:index:name`, from its three parts.
#[tactic(auto, using(crate::proofs::Parts::tag_is_ascii, crate::proofs::Parts::name_is_ascii))]
fn indexed(alloc: Global, tag: &[u8], index: &[u8], name: &[u8]) -> Result<Spelling, NameFault>
    ensures ok { IfOk result (λ spelling. spelled.indexed tag.now index.now name.now ≡ Ok spelling) }
    ensures err { IfErr result (λ fault. fault ≢ NameFault.OutOfMemory → spelled.indexed tag.now index.now name.now ≡ Err fault) }
    ensures refused { (fault : NameFault) → spelled.indexed tag.now index.now name.now ≡ Err fault → result ≡ Err fault }
{
    if !is_tag(tag) {
        return Err(NameFault::BadTag);
    }
    match index_of(index) {
        None => Err(NameFault::BadIndex),
        Some(index) => named(alloc, tag, Some(index), name),
    }
}

/// Reads the spelling of one port. A text is refused for the first of these rules that it breaks. It has at most two
/// colons, its tag is a tag, its index is an index, and its name is a name.
#[tactic(auto, using(crate::proofs::Parts::third_colon_refused))]
pub fn read_port(alloc: Global, text: &[u8]) -> Result<Spelling, NameFault>
    ensures ok { IfOk result (λ spelling. spelled.spelling_of text.now ≡ Ok spelling) }
    ensures err { IfErr result (λ fault. fault ≢ NameFault.OutOfMemory → spelled.spelling_of text.now ≡ Err fault) }

    // A text that spells no port is refused however little memory there is.
    ensures refused { (fault : NameFault) → spelled.spelling_of text.now ≡ Err fault → result ≡ Err fault }
{
    let Some((tag, rest)) = cut(text) else {
        return named(alloc, b"", None, text);
    };
    let Some((index, name)) = cut(rest) else {
        return tagged(alloc, tag, rest);
    };
    match cut(name) {
        Some(_) => Err(NameFault::BadName),
        None => indexed(alloc, tag, index, name),
    }
}
