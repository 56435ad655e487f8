//! A set of numbers as words of 64 bits.

ghost use Rattle.std.specs.Prelude.{◌≡◌, ℕ, ◌+◌, ◌*◌, ◌/◌, ◌^◌, ◌<◌, length, MatchOption};
ghost use Rattle.mg_ready.specs.Code.Bits.{bit_of, ChangesBit, IsGreatest};

/// Puts a number into the set.
pub(crate) fn set_bit(words: &mut [u64], number: usize)
    requires { number < 64 * length words.old }
    ensures set { bit_of words.new number ≡ 1 }
    ensures others { ChangesBit words.old words.new number }
{
    words[number / 64] |= 1u64 << (number % 64);
}

/// Takes a number out of the set.
pub(crate) fn clear_bit(words: &mut [u64], number: usize)
    requires { number < 64 * length words.old }
    ensures clear { bit_of words.new number ≡ 0 }
    ensures others { ChangesBit words.old words.new number }
{
    words[number / 64] &= !(1u64 << (number % 64));
}

/// Returns the greatest number of the set, if there is one. It looks at each word from the last on.
pub(crate) fn greatest(words: &[u64]) -> Option<usize>
    requires { length words.now < 2 ^ 32 }
    ensures { MatchOption result ((k : ℕ) → bit_of words.now k ≡ 0) (λ n. IsGreatest words.now n) }
{
    for i in (0..words.len()).rev() {
        let word = words[i];
        if word != 0 {
            return Some(i * 64 + word.ilog2() as usize);
        }
    }
    None
}
