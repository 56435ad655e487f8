ghost use Rattle.std.specs.Prelude.{◌≡◌, map, option_map};
ghost use Rattle.std.specs.Str.{bytes_eq};
ghost use Rattle.mg_calc.specs.Row.{said, number_at as its_number, word_at as its_word};

/// What an option of a node is set to, as each form of value. An option that isn't set says nothing.
#[derive(Clone, Copy, Debug, Drop)]
pub struct Setting<'a> {
    /// The number, if the option is set to one of 64 signed bits.
    pub number: Option<i64>,
    /// The word, if the option is set to one, and otherwise no bytes.
    pub word: &'a [u8],
}

/// Returns the number that the setting at a place says, or none if it says none.
pub(crate) fn number_at(settings: &[Setting], i: usize) -> Option<i64>
    ensures { result ≡ its_number (map said settings.now) i }
{
    settings.get(i)?.number
}

/// Returns the word that the setting at a place says, or none if there is no such setting.
pub(crate) fn word_at<'a>(settings: &[Setting<'a>], i: usize) -> Option<&'a [u8]>
    ensures { option_map (λ word. word.now) result ≡ its_word (map said settings.now) i }
{
    Some(settings.get(i)?.word)
}

/// Whether a text is a word.
pub(crate) fn is(text: &[u8], word: &[u8]) -> bool
    ensures { result ≡ bytes_eq text.now word.now }
{
    text == word
}
