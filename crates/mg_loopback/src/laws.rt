//! Laws of the answers: each function does nothing, and its contract is the law.
ghost use Rattle.std.specs.Prelude.{◌≡◌, ℕ, None, [], length, take, slice_get};
ghost use Rattle.mg_time.specs.Time.{done};
ghost use Rattle.mg_value.specs.Payload.{Plain};
ghost use Rattle.mg_settled.specs.Prefix.{StreamPrefix};
ghost use Rattle.mg_settled.specs.Extension.{IsExtendedBy};
ghost use Rattle.mg_settled.specs.Loopback.{replies, loopback};
ghost use Rattle.mg_stream.specs.Queue.{StandsFor};
ghost use Rattle.mg_loopback.specs.Loopback.{Held, IsAsFar, next_reply};
ghost use Rattle.mg_loopback.specs.Standing.{StandsAfter, after_replies};

/// If k answers are given, the next one is answer k of the whole streams, counted from 0.
pub fn the_next_answer_is_the_streams()
    ensures { (k : ℕ) (held : Held Plain) (main loop : StreamPrefix Plain) → StandsAfter k held main loop → next_reply held ≡ slice_get (replies main loop) k }
{}

/// Packets arrive: the prefixes are extended, and the loopback stands for the extended ones, with as many packets gone. It has
/// then given as many answers as before. The answers that were given are the first answers of the extended prefixes.
pub fn arrivals_keep_the_answers()
    ensures stands { (k : ℕ) (held now : Held Plain) (main wider loop more : StreamPrefix Plain)
        → StandsAfter k held main loop → IsExtendedBy main wider → IsExtendedBy loop more
        → StandsFor now.main wider → StandsFor now.loop more → IsAsFar now held → StandsAfter k now wider more }
    ensures answers { (k : ℕ) (held : Held Plain) (main wider loop more : StreamPrefix Plain)
        → StandsAfter k held main loop → IsExtendedBy main wider → IsExtendedBy loop more
        → take k (replies wider more) ≡ take k (replies main loop) }
{}

/// If no answer can be told yet, all of them are given, and make up the output stream. If MAIN has ended too, and nothing waits
/// on it, each of its packets has its answer. The output stream has ended then.
pub fn all_answers_make_the_stream()
    ensures all { (k : ℕ) (held : Held Plain) (main loop : StreamPrefix Plain) → StandsAfter k held main loop → next_reply held ≡ None
        → k ≡ length (replies main loop) }
    ensures stream { (k : ℕ) (held : Held Plain) (main loop : StreamPrefix Plain) → StandsAfter k held main loop → next_reply held ≡ None
        → after_replies k main loop ≡ loopback main loop }
    ensures each { (k : ℕ) (held : Held Plain) (main loop : StreamPrefix Plain) → StandsAfter k held main loop → held.main.packets ≡ []
        → length (replies main loop) ≡ length main.packets }
    ensures end { (k : ℕ) (held : Held Plain) (main loop : StreamPrefix Plain) → StandsAfter k held main loop → held.main.packets ≡ [] → held.main.bound ≡ done
        → (loopback main loop).bound ≡ done }
{}

/// What the answers so far tell of the output stream is a prefix that the output stream extends.
pub fn the_stream_extends_what_is_told()
    ensures { (k : ℕ) (held : Held Plain) (main loop : StreamPrefix Plain) → StandsAfter k held main loop
        → IsExtendedBy (after_replies k main loop) (loopback main loop) }
{}
