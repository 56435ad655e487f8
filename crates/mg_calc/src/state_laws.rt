//! Laws of what calculators keep: each function does nothing, and its contract is the law.
ghost use Rattle.std.specs.Prelude.{ℕ, List, Option, IfOk};
ghost use Rattle.mg_value.specs.Payload.{Plain};
ghost use Rattle.mg_value.specs.Packet.{Stamped};
ghost use Rattle.mg_calc.specs.declared.law.Law.{Law};
ghost use Rattle.mg_calc.specs.declared.shape.Shape.{Shape};
ghost use Rattle.mg_calc.specs.Law.{opening, step};
ghost use Rattle.mg_calc.specs.Shape.{IsShapeOf, FitsInputs};
ghost use Rattle.mg_calc.specs.StateForm.{IsStateOf};

/// Open gives a state of the form that the law asks for, and a set gives one again if the state has that form.
pub fn states_keep_their_form()
    ensures opened { (law : Law) (sides : List (Option Plain)) → IfOk (opening law sides) (λ given. IsStateOf law given.0) }
    ensures stepped { (law : Law) (shape : Shape) (state : List Plain) (t : ℕ) (set : List (Option (Stamped Plain))) → IsShapeOf law shape
        → FitsInputs shape set → IsStateOf law state → IfOk (step law state t set) (λ given. IsStateOf law given.0) }
{}
