ghost use Rattle.std.specs.Prelude.{◌≡◌};
ghost use Rattle.mg_calc.specs.Kinds.{is_wrong, has_wrong_kind as some_are_wrong};
ghost use Rattle.mg_calc.specs.Shape.{input_kind as its_kind};
ghost use Rattle.mg_calc.specs.Values.{place_at};

use crate::{Law, input_kind};
use mg_settled::InputSet;
use mg_value::has_kind;

// Whether the packet of a set at a port, if there is one, isn't of the port's kind.
fn is_wrong_at(law: &Law, set: &InputSet, port: u32) -> bool
    ensures { result ≡ is_wrong (its_kind law.now port) (place_at set.now port) }
{
    match set.get(port) {
        Some(packet) => !has_kind(&packet.payload, input_kind(law, port)),
        None => false,
    }
}

/// Whether a packet of a set isn't of its port's kind.
pub fn has_wrong_kind(law: &Law, set: &InputSet) -> bool
    ensures { result ≡ some_are_wrong law.now set.now }
{
    for port in 0..set.len() {
        if is_wrong_at(law, set, port) {
            return true;
        }
    }
    false
}
