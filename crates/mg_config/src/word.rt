//! The comparison of texts with known words.
ghost use Rattle.std.specs.Prelude.{◌≡◌};
ghost use Rattle.std.specs.Str.{bytes_eq};

/// Whether a text is this word, byte for byte. Most other texts have another length, and no byte of these is looked at.
#[inline(always)]
#[tactic(auto, using(crate::proofs::Words::of_other_length))]
pub fn is(text: &[u8], word: &[u8]) -> bool
    ensures { result ≡ bytes_eq text.now word.now }
{
    if text.len() != word.len() {
        return false;
    }
    text == word
}
