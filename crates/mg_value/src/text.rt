ghost use Rattle.std.specs.Prelude.{◌≡◌, ◌↔◌, IsTrue, IfOk, string_bytes, IsUtf8};

use arrayvec::ArrayString;
use std::alloc::{AllocError, Global};
use std::marker::Model;

/// A name or another text, UTF-8. Contracts see it as the list of its bytes. A text of at most 16 bytes takes no memory
/// beside itself.
#[derive(Debug)]
pub struct MgText {
    kept: Kept,
}

/// Where the bytes of a text are: in the text itself, or in a block of their own.
#[derive(Debug, Drop)]
enum Kept {
    Short(ArrayString<16>),
    Long(String),
}

impl Model for MgText {
    ghost use Rattle.std.specs.Prelude.{ℕ, List};

    ghost Value = { List ℕ };

    ghost use Rattle.mg_value.specs.Code.Text.{bytes_of};

    ghost view = { λ t. bytes_of t.kept };
}

// Written out, so that a proof about code that drops a text needn't ask where its bytes are.
impl Drop for MgText {
    fn drop(self) {
        let MgText { kept } = self;
        drop(kept);
    }
}

impl MgText {
    /// Makes a `MgText` with a copy of a text.
    pub fn new(alloc: Global, text: &str) -> Result<MgText, AllocError>
        ensures { IfOk result (λ t. t ≡ text.now) }
    {
        let kept = match ArrayString::from(text) {
            Ok(short) => Kept::Short(short),
            Err(_) => Kept::Long(String::from_str(alloc, text)?),
        };
        Ok(MgText { kept })
    }

    /// Turns a string into a `MgText`.
    pub fn from_string(text: String) -> MgText
        ensures { result ≡ string_bytes text }
    {
        let kept = match ArrayString::from(text.as_str()).ok() {
            Some(short) => Kept::Short(short),
            None => Kept::Long(text),
        };
        MgText { kept }
    }

    /// Returns the text.
    pub fn as_str(&self) -> &str
        ensures { result.now ≡ self.now }
    {
        match &self.kept {
            Kept::Short(text) => text.as_str(),
            Kept::Long(text) => text.as_str(),
        }
    }

    /// Returns the bytes, which are UTF-8.
    pub fn as_bytes(&self) -> &[u8]
        ensures bytes { result.now ≡ self.now }
        ensures utf8 { IsUtf8 result.now }
    {
        self.as_str().as_bytes()
    }

    /// Returns whether the text has just these bytes.
    pub fn is(&self, bytes: &[u8]) -> bool
        ensures { IsTrue result ↔ (self.now ≡ bytes.now) }
    {
        self.as_bytes() == bytes
    }

    /// Makes a copy of the text.
    pub fn try_clone(&self, alloc: Global) -> Result<MgText, AllocError>
        ensures { IfOk result (λ t. t ≡ self.now) }
    {
        MgText::new(alloc, self.as_str())
    }
}
