//! The search in lists of at most `FEW` ports, one port after the other. Most nodes have no more, and need no table of places.
ghost use Rattle.std.specs.Prelude.{◌≡◌, ◌<◌, ◌^◌, ◌&&◌, ◌==◌, length, Ok, Err, OnOk, IfErr};
ghost use Rattle.std.specs.Str.{bytes_eq};
ghost use Rattle.mg_names.specs.Ports.{is_at, has_port, stands_twice, has_gap, place_of, checked};
ghost use Rattle.mg_names.specs.Code.Places.{lacks_below};

use crate::fault::NameFault;
use crate::placed_fault::PlacedFault;
use crate::port::Port;

/// Lists of at most this many ports are searched one by one; longer ones have a table of places.
pub(crate) const FEW: usize = 8;

/// Whether two texts have the same bytes.
#[inline]
fn is(text: &[u8], other: &[u8]) -> bool
    ensures { result ≡ bytes_eq text.now other.now }
{
    text == other
}

/// Whether a port has this tag and this index. Most ports of a list have other indexes, so that their tags aren't compared.
#[inline(always)]
#[tactic(auto, using(crate::proofs::Searched::at_other_index, crate::proofs::Searched::at_same_index))]
fn is_at(tag: &[u8], index: u8, port: &Port) -> bool
    ensures { result ≡ is_at tag.now index port.now }
{
    if index != port.index {
        return false;
    }
    is(tag, port.tag.as_bytes())
}

/// Whether one of the ports has this tag and this index.
fn has_port(tag: &[u8], index: u8, ports: &[Port]) -> bool
    ensures { result ≡ has_port tag.now index ports.now }
{
    ports.iter().any(|port| is_at(tag, index, port))
}

/// Returns the place, from 0 on, of the first port with this tag and index, or none if no port has them.
pub(crate) fn place_among(ports: &[Port], tag: &[u8], index: u8) -> Option<u32>
    requires { length ports.now < 2 ^ 32 }
    ensures { result ≡ place_of tag.now index ports.now }
{
    for (place, port) in ports.iter().enumerate() {
        if is_at(tag, index, port) {
            return Some(place as u32);
        }
    }
    None
}

/// Whether two of the ports have the same tag and index.
fn stands_twice(ports: &[Port]) -> bool
    ensures { result ≡ stands_twice ports.now }
{
    for (place, port) in ports.iter().enumerate() {
        let rest = ports.split_at(place + 1).1;
        if has_port(port.tag.as_bytes(), port.index, rest) {
            return true;
        }
    }
    false
}

/// Whether a port has an index above 0 while none of the ports has its tag and the index one lower.
fn lacks_below(ports: &[Port], port: &Port) -> bool
    ensures { result ≡ lacks_below ports.now port.now }
{
    port.index != 0 && !has_port(port.tag.as_bytes(), port.index - 1, ports)
}

fn has_gap(ports: &[Port]) -> bool
    ensures { result ≡ has_gap ports.now }
{
    ports.iter().any(|port| lacks_below(ports, port))
}

/// Refuses ports if two of them have the same tag and index, or else if the indexes of a tag have a gap.
pub(crate) fn check_few(ports: &[Port]) -> Result<(), PlacedFault>
    ensures ok { OnOk result (checked ports.now ≡ Ok ports.now) }
    ensures err { IfErr result (λ fault. checked ports.now ≡ Err fault) }
{
    if stands_twice(ports) {
        return Err(PlacedFault::Whole {
            cause: NameFault::Twice,
        });
    }
    if has_gap(ports) {
        return Err(PlacedFault::Whole {
            cause: NameFault::Gap,
        });
    }
    Ok(())
}
