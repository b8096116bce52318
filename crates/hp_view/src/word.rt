use std::marker::Model;

/// A field of a line, or a line, as it stands in the report. Contracts see its bytes. Own.
#[derive(Drop)]
pub struct Word<'a> {
    text: &'a [u8],
}

impl<'a> Model for Word<'a> {
    ghost use Rattle.std.specs.Prelude.{ℕ, List};

    ghost Value = { List ℕ };

    ghost view = { λ a. a.text.now };
}

impl<'a> Word<'a> {
    ghost use Rattle.std.specs.Prelude.{◌≡◌};
    ghost use Rattle.std.specs.Str.{bytes_eq};

    /// The field with these bytes.
    pub fn new(text: &'a [u8]) -> Word<'a>
        ensures { result ≡ text.entry.now }
    {
        Word { text }
    }

    /// Its bytes.
    pub fn as_bytes(&self) -> &'a [u8]
        ensures { result.now ≡ self.now }
    {
        self.text
    }

    /// Whether it has these bytes.
    pub fn is(&self, text: &[u8]) -> bool
        ensures { result ≡ bytes_eq self.now text.now }
    {
        self.text == text
    }

    /// This field once more.
    pub fn again(&self) -> Word<'a>
        ensures { result ≡ self.now }
    {
        Word { text: self.text }
    }
}
