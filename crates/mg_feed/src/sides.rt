ghost use Rattle.std.specs.Prelude.{◌≡◌, Some, map};
ghost use Rattle.std.specs.Arc.{arc_value};
ghost use Rattle.mg_value.specs.Payload.{plain};
ghost use Rattle.mg_calc.specs.Given.{given};
ghost use Rattle.mg_feed.specs.Accepted.{stepped};

use mg_value::Payload;
use std::sync::Arc;

/// Puts a side packet at its place.
pub fn put_at(sides: &mut [Option<Arc<Payload>>], place: u32, payload: Arc<Payload>)
    ensures { map given sides.new ≡ stepped place (λ _. Some (plain (arc_value payload))) (map given sides.old) }
{
    let i = place as usize;
    if i < sides.len() {
        sides[i] = Some(payload);
    }
}
