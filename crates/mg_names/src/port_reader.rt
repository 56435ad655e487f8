ghost use Rattle.std.specs.Prelude.{◌≡◌, ◌≢◌, ◌++◌, ◌∷◌, [], ℕ, List, Ok, Err, IfOk, OnOk, IfErr};
ghost use Rattle.mg_names.specs.Ports.{ports_after, checked};

use crate::numbering::{count_after, placed_port};
use crate::placed_fault::PlacedFault;
use crate::port::Port;
use crate::port_map::PortMap;
use std::alloc::Global;
use std::marker::Model;

/// Reads the ports of texts, one text after another, so that nobody has to make a list of the texts. Contracts see it as the list of the
/// ports so far.
#[derive(Debug, Drop)]
pub struct PortReader {
    made: Vec<Port>,
    // How many of the ports are untagged: the next such port has this index.
    untagged: u8,
}

impl Model for PortReader {
    ghost use Rattle.std.specs.Prelude.{◌≡◌, [], List, count_by};
    ghost use Rattle.std.specs.Str.{bytes_eq};
    ghost use Rattle.mg_names.specs.declared.port.Port.{Port};

    ghost Value = { List Port };

    ghost view = { λ r. r.made.items };

    ghost invariant = { λ r. r.untagged ≡ count_by (λ port. bytes_eq port.tag []) r.made.items };
}

impl PortReader {
    /// Returns a reader that has read no text.
    pub fn new(alloc: Global) -> PortReader
        ensures { result ≡ [] }
    {
        PortReader {
            made: Vec::new(alloc),
            untagged: 0,
        }
    }

    /// Reads the port of the next text, which is spelled as `name`, `TAG:name` or `TAG:index:name`. A refusal tells how
    /// many texts were read before. After a refusal, and if memory runs out, the ports are the ones before.
    pub fn read(&mut self, alloc: Global, text: &str) -> Result<(), PlacedFault>
        ensures ok { OnOk result ((texts : List (List ℕ)) → ports_after [] texts ≡ Ok self.old → ports_after [] (texts ++ text.now ∷ []) ≡ Ok self.new) }
        ensures err { IfErr result (λ fault. fault ≢ PlacedFault.OutOfMemory → (texts more : List (List ℕ)) → ports_after [] texts ≡ Ok self.old → ports_after [] (texts ++ text.now ∷ more) ≡ Err fault) }
    {
        let place = self.made.as_slice().len();
        let port = placed_port(alloc, place, self.untagged, text.as_bytes())?;
        let untagged = count_after(self.untagged, &port);
        self.made.push(port)?;
        self.untagged = untagged;
        Ok(())
    }

    /// Returns the ports of all texts that were read. They are refused if a tag and index stand twice, or else if the
    /// indexes of a tag have a gap.
    pub fn ports(self, alloc: Global) -> Result<PortMap, PlacedFault>
        ensures ok { IfOk result (λ map. checked self ≡ Ok map) }
        ensures err { IfErr result (λ fault. fault ≢ PlacedFault.OutOfMemory → checked self ≡ Err fault) }
    {
        let PortReader { made, untagged: _ } = self;
        PortMap::of(alloc, made)
    }
}
