ghost use Rattle.std.specs.Prelude.{◌≡◌, ◌≢◌, ◌<◌, ◌+◌, [], true, if◌then◌else◌, IfOk, IfErr, Ok, Err};
ghost use Rattle.std.specs.Str.{bytes_eq};
ghost use Rattle.mg_names.specs.Spelling.{is_untagged};
ghost use Rattle.mg_names.specs.Ports as ports;

use crate::fault::NameFault;
use crate::grammar::is_untagged;
use crate::placed_fault::PlacedFault;
use crate::port::Port;
use crate::reading::read_port;
use crate::spelling::Spelling;
use std::alloc::Global;

/// Returns the port that a spelling makes with `number` untagged ports before it.
fn port_of(number: u8, spelling: Spelling) -> Port
    ensures { result ≡ ports.port_of number spelling }
{
    let Spelling { tag, index, name } = spelling;
    let index = if tag.as_bytes().is_empty() {
        number
    } else {
        index.unwrap_or(0)
    };
    Port { tag, index, name }
}

/// Reads the port of a text with `number` untagged ports before it.
#[tactic(auto, using(crate::proofs::Counting::untagged_is_empty, crate::proofs::Counting::untagged_has_room))]
fn port_at(alloc: Global, number: u8, text: &[u8]) -> Result<Port, NameFault>
    ensures ok { IfOk result (λ port. ports.port_at number text.now ≡ Ok port) }
    ensures err { IfErr result (λ fault. fault ≢ NameFault.OutOfMemory → ports.port_at number text.now ≡ Err fault) }
    ensures untagged { IfOk result (λ port. bytes_eq port.tag [] ≡ is_untagged text.now) }
    ensures room { IfOk result (λ port. bytes_eq port.tag [] ≡ true → number < 64) }
{
    if is_untagged(text) && number >= 64 {
        return Err(NameFault::BadIndex);
    }
    let spelling = read_port(alloc, text)?;
    Ok(port_of(number, spelling))
}

/// Returns how many untagged ports stand before the next text. `untagged` of them stand before this port.
pub(crate) fn count_after(untagged: u8, port: &Port) -> u8
    requires { bytes_eq port.now.tag [] ≡ true → untagged < 64 }
    ensures { result ≡ untagged + (if bytes_eq port.now.tag [] then 1 else 0) }
{
    if port.tag.as_bytes().is_empty() {
        untagged + 1
    } else {
        untagged
    }
}

/// Returns the refusal of the text at a place for this cause. Out of memory is returned without the place.
fn refused_at(place: usize, cause: NameFault) -> PlacedFault
    ensures { result ≢ PlacedFault.OutOfMemory → (cause ≢ NameFault.OutOfMemory) × (result ≡ PlacedFault.At place cause) }
{
    match cause {
        NameFault::OutOfMemory => PlacedFault::OutOfMemory,
        cause => PlacedFault::At { place, cause },
    }
}

/// Reads the port of the text at a place, with `number` untagged ports before it.
pub(crate) fn placed_port(
    alloc: Global,
    place: usize,
    number: u8,
    text: &[u8],
) -> Result<Port, PlacedFault>
    ensures ok { IfOk result (λ port. ports.port_at number text.now ≡ Ok port) }
    ensures err { IfErr result (λ fault. fault ≢ PlacedFault.OutOfMemory → ports.placed_at place (ports.port_at number text.now) ≡ Err fault) }
    ensures untagged { IfOk result (λ port. bytes_eq port.tag [] ≡ is_untagged text.now) }
    ensures room { IfOk result (λ port. bytes_eq port.tag [] ≡ true → number < 64) }
{
    match port_at(alloc, number, text) {
        Ok(port) => Ok(port),
        Err(cause) => Err(refused_at(place, cause)),
    }
}
