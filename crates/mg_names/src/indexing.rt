ghost use Rattle.std.specs.Prelude.{◌≡◌, ◌≢◌, ◌<◌, ◌^◌, ℕ, List, true, false, Ok, Err, IfOk, OnOk, IfErr, length};
ghost use Rattle.std.specs.List.{list_any};
ghost use Rattle.mg_names.specs.Code.Places.{kept_place, found_in};
ghost use Rattle.mg_names.specs.Ports.{stands_twice, place_of, checked};
ghost use Rattle.mg_names.specs.Code.Places as table;

use crate::fault::NameFault;
use crate::few::{FEW, check_few};
use crate::placed_fault::PlacedFault;
use crate::places::Places;
use crate::port::Port;
use std::alloc::{AllocError, Global};

/// Returns the table of the places of ports by tag and index, or the refusal if two ports have the same tag and index.
pub(crate) fn places_of(alloc: Global, ports: &[Port]) -> Result<Places, PlacedFault>
    requires { length ports.now < 2 ^ 32 }
    ensures places { IfOk result (λ places. (tag : List ℕ) (index : ℕ) → kept_place places tag index ≡ place_of tag index ports.now) }
    ensures once { OnOk result (stands_twice ports.now ≡ false) }
    ensures twice { IfErr result (λ fault. fault ≢ PlacedFault.OutOfMemory → (fault ≡ PlacedFault.Whole NameFault.Twice) × (stands_twice ports.now ≡ true)) }
{
    let mut places = Places::new(alloc);
    for (place, port) in ports.iter().enumerate() {
        let tag = port.tag.as_bytes();
        if places.get(tag, port.index).is_some() {
            return Err(PlacedFault::Whole {
                cause: NameFault::Twice,
            });
        }
        places.put(alloc, tag, port.index, place as u32)?;
    }
    Ok(places)
}

fn lacks_lower(places: &Places, port: &Port) -> bool
    ensures { result ≡ table.lacks_lower places.now port.now }
{
    port.index != 0 && places.get(port.tag.as_bytes(), port.index - 1).is_none()
}

/// Whether one of the ports has an index above 0 while the table has no place for its tag and the index one lower.
pub(crate) fn any_lacks_lower(places: &Places, ports: &[Port]) -> bool
    ensures { result ≡ list_any (table.lacks_lower places.now) ports.now }
{
    ports.iter().any(|port| lacks_lower(places, port))
}

/// Returns the table of the places of ports, or why they are refused: a tag and index that stand twice, or else a gap.
fn table_of(alloc: Global, ports: &[Port]) -> Result<Places, PlacedFault>
    requires { length ports.now < 2 ^ 32 }
    ensures places { IfOk result (λ places. (tag : List ℕ) (index : ℕ) → kept_place places tag index ≡ place_of tag index ports.now) }
    ensures ok { OnOk result (checked ports.now ≡ Ok ports.now) }
    ensures err { IfErr result (λ fault. fault ≢ PlacedFault.OutOfMemory → checked ports.now ≡ Err fault) }
{
    let places = places_of(alloc, ports)?;
    if any_lacks_lower(&places, ports) {
        return Err(PlacedFault::Whole {
            cause: NameFault::Gap,
        });
    }
    Ok(places)
}

/// Judges ports. Returns the table of their places, or none if there are at most `FEW` ports: so few need no table.
pub(crate) fn judged_places(alloc: Global, ports: &[Port]) -> Result<Option<Places>, PlacedFault>
    requires { length ports.now < 2 ^ 32 }
    ensures places { IfOk result (λ places. (tag : List ℕ) (index : ℕ) → found_in places ports.now tag index ≡ place_of tag index ports.now) }
    ensures ok { OnOk result (checked ports.now ≡ Ok ports.now) }
    ensures err { IfErr result (λ fault. fault ≢ PlacedFault.OutOfMemory → checked ports.now ≡ Err fault) }
{
    if ports.len() <= FEW {
        check_few(ports)?;
        Ok(None)
    } else {
        Ok(Some(table_of(alloc, ports)?))
    }
}

/// Returns the table of places for a copy of ports that were judged, or none if they had none.
pub(crate) fn copied_places(
    alloc: Global,
    ports: &[Port],
    places: &Option<Places>,
) -> Result<Option<Places>, AllocError>
    requires { length ports.now < 2 ^ 32 }
    ensures { IfOk result (λ places. (tag : List ℕ) (index : ℕ) → found_in places ports.now tag index ≡ place_of tag index ports.now) }
{
    if places.is_none() {
        return Ok(None);
    }
    // Ports that were judged have no tag and index twice, so the only fault here is out of memory.
    match places_of(alloc, ports) {
        Ok(places) => Ok(Some(places)),
        Err(_) => Err(AllocError),
    }
}
