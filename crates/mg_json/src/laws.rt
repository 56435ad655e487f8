//! Laws of the definitions: each function does nothing, and its contract is the law.
ghost use Rattle.std.specs.Prelude.{◌≡◌, ◌≤◌, None};
ghost use Rattle.mg_value.specs.Plain.{Plain, depth, NumbersFit};
ghost use Rattle.mg_json.specs.Json.{json_of, first_fault};

/// The JSON value of a payload is read back as that payload, if no list or record lies inside 16 others. Such a value has no
/// fault, and says no other payload.
pub fn payloads_are_read_back()
    ensures faultless { (p : Plain) → NumbersFit p → depth p ≤ 16 → first_fault (json_of p) ≡ None }
    ensures one { (p q : Plain) → json_of q ≡ json_of p → q ≡ p }
{}
