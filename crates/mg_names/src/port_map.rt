ghost use Rattle.std.specs.Prelude.{◌≡◌, ◌≢◌, [], IfOk, IfErr, length, slice_get, option_copied, Ok, Err, ◌==◌};

use crate::fault::NameFault;
use crate::few::place_among;
use crate::indexing::{copied_places, judged_places};
use crate::placed_fault::PlacedFault;
use crate::places::Places;
use crate::port::Port;
use crate::port_reader::PortReader;
use crate::renaming::{copies_of, named};
use mg_value::{BlockList, MgText};
use std::alloc::{AllocError, Global};
use std::marker::Model;

/// A list of ports, such as the input streams of a node, in the order in which they are spelled. Contracts see it as the list of its ports.
#[derive(Debug, Drop)]
pub struct PortMap {
    ports: BlockList<Port>,
    // The places by tag and index, if there are more than `FEW` ports. Shorter lists are searched one by one.
    places: Option<Places>,
}

impl Model for PortMap {
    ghost use Rattle.std.specs.Prelude.{◌≡◌, ◌<◌, ◌^◌, ℕ, List, length};
    ghost use Rattle.mg_names.specs.declared.port.Port.{Port};

    ghost Value = { List Port };

    ghost use Rattle.mg_names.specs.Code.Places.{found_in};
    ghost use Rattle.mg_names.specs.Ports.{place_of};

    ghost view = { λ m. m.ports };

    ghost invariant = { λ m. (length m.ports < 2 ^ 32) × ((tag : List ℕ) (index : ℕ) → found_in m.places m.ports tag index ≡ place_of tag index m.ports) };
}

impl PortMap {
    ghost use Rattle.mg_names.specs.Ports.{ports_of, placed_ports_of, checked, HasCause, place_of};
    ghost use Rattle.mg_names.specs.Renaming as renaming;

    /// Returns a list of no ports.
    pub fn new(alloc: Global) -> PortMap
        ensures { result ≡ [] }
    {
        PortMap {
            ports: BlockList::from_vec(Vec::new(alloc)).unwrap(),
            places: None,
        }
    }

    /// Reads the ports of texts, each spelled as `name`, `TAG:name` or `TAG:index:name`. A tagged port without a
    /// spelled index has the index 0, and an untagged port has its running number among the untagged ports. The texts go in order,
    /// and the first that spells no port is refused. After that, a tag and index that stand twice are refused, and then
    /// a gap in the indexes of a tag.
    pub fn read(alloc: Global, texts: &[MgText]) -> Result<PortMap, NameFault>
        ensures ok { IfOk result (λ map. ports_of texts.now ≡ Ok map) }
        ensures err { IfErr result (λ fault. fault ≢ NameFault.OutOfMemory → ports_of texts.now ≡ Err fault) }
    {
        Ok(PortMap::read_placed(alloc, texts)?)
    }

    /// Reads the ports of some texts like `read`; a refusal tells the place of the text that is refused.
    pub fn read_placed(alloc: Global, texts: &[MgText]) -> Result<PortMap, PlacedFault>
        ensures ok { IfOk result (λ map. placed_ports_of texts.now ≡ Ok map) }
        ensures err { IfErr result (λ fault. fault ≢ PlacedFault.OutOfMemory → placed_ports_of texts.now ≡ Err fault) }

        // The cause of an `At` or `Whole` is never out of memory, which is a fault of its own.
        ensures cause { IfErr result HasCause }
    {
        let mut reader = PortReader::new(alloc);
        for text in texts {
            reader.read(alloc, text.as_str())?;
        }
        let map = reader.ports(alloc)?;
        Ok(map)
    }

    /// Returns the list of these ports, unless the ports are refused as a whole.
    pub(crate) fn of(alloc: Global, made: Vec<Port>) -> Result<PortMap, PlacedFault>
        ensures ok { IfOk result (λ map. checked made.items ≡ Ok map) }
        ensures err { IfErr result (λ fault. fault ≢ PlacedFault.OutOfMemory → checked made.items ≡ Err fault) }
    {
        let ports = BlockList::from_vec(made)?;
        let places = judged_places(alloc, ports.as_slice())?;
        Ok(PortMap { ports, places })
    }

    /// How many ports there are.
    pub fn len(&self) -> u32
        ensures { result ≡ length self.now }
    {
        self.ports.len()
    }

    /// Whether there are no ports.
    pub fn is_empty(&self) -> bool
        ensures { result ≡ (length self.now == 0) }
    {
        self.ports.is_empty()
    }

    /// Returns the port at a place, from 0 on, or none past the last.
    pub fn get(&self, i: u32) -> Option<&Port>
        ensures { option_copied result ≡ slice_get self.now i }
    {
        self.ports.get(i)
    }

    /// Returns the place, from 0 on, of the port with a tag and an index, or none if no port has them. The tag of
    /// untagged ports is empty. In a long list the place is looked up in a tree of the tags.
    pub fn find(&self, tag: &[u8], index: u8) -> Option<u32>
        ensures { result ≡ place_of tag.now index self.now }
    {
        match &self.places {
            Some(places) => places.get(tag, index),
            None => place_among(self.ports.as_slice(), tag, index),
        }
    }

    /// Returns a copy of the list of ports.
    pub fn try_clone(&self, alloc: Global) -> Result<PortMap, AllocError>
        ensures { IfOk result (λ map. map ≡ self.now) }
    {
        let ports = BlockList::from_vec(copies_of(alloc, self.ports.as_slice())?)?;
        let places = copied_places(alloc, ports.as_slice(), &self.places)?;
        Ok(PortMap { ports, places })
    }

    /// Returns the ports with these names instead of their own, in order. Ports past the last name keep theirs, and
    /// names past the last port are dropped.
    pub fn with_names(self, names: Vec<MgText>) -> PortMap
        ensures { result ≡ renaming.with_names self names.items }
    {
        let PortMap { ports, places } = self;
        let ports = named(ports, names);
        PortMap { ports, places }
    }
}
