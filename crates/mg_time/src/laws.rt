//! Laws of the definitions: each function does nothing, and its contract is the law.
ghost use Rattle.std.specs.Prelude.{◌≡◌, ◌<◌, ◌≤◌, ◌⊎◌, ◌↔◌, ℕ, ℤ, ◌≤ℤ◌, List, FitsSigned};
ghost use Rattle.std.specs.Int.{w64};
ghost use Rattle.mg_time.specs.Time.{raw_of, place_of, done, IsAllowed, next, shift};
ghost use Rattle.mg_time.specs.Text.{Spells, time_text};

use crate::Timestamp;

/// Times are in the order of their numbers.
pub fn order_is_of_numbers()
    ensures { (t u : ℕ) → (t ≤ u) ↔ (raw_of t ≤ℤ raw_of u) }
{}

/// A number of 64 signed bits is the number of its place.
pub fn numbers_are_of_their_places()
    ensures { (n : ℤ) → FitsSigned w64 n → raw_of (place_of n) ≡ n }
{}

/// A place is the place of its number.
pub fn places_are_of_their_numbers()
    ensures { (t : ℕ) → place_of (raw_of t) ≡ t }
{}

/// Of any two times one is at most the other.
pub fn order_is_total()
    ensures { (t u : ℕ) → (t ≤ u) ⊎ (u ≤ t) }
{}

/// No timestamp stands above `DONE`.
pub fn done_is_greatest(time: Timestamp)
    ensures { time ≤ done }
{}

/// The lowest time that may follow a packet is above the packet's.
pub fn next_is_above()
    ensures { (t : ℕ) → IsAllowed t → t < next t }
{}

/// A shift keeps the order of bounds.
pub fn shift_keeps_order()
    ensures { (t u : ℕ) (offset : ℤ) → t ≤ u → shift t offset ≤ shift u offset }
{}

/// A time that a packet may carry is read back from its text. A text that is read as a time is the text of that time.
pub fn texts_are_read_back()
    ensures printed { (t : ℕ) → IsAllowed t → Spells (time_text t) t }
    ensures read { (text : List ℕ) (t : ℕ) → Spells text t → IsAllowed t × (text ≡ time_text t) }
{}
