//! The name of an entry, beside its text.
ghost use Rattle.std.specs.Prelude.{◌≡◌};
ghost use Rattle.std.specs.Str.{bytes_eq};

use std::marker::Model;

// The most bytes of a short name.
const SHORT: usize = 8;

/// A name of the text. A short one stands here once more, with zeros after it, so that it is compared without a look into the text.
#[derive(Drop)]
pub struct NotedName<'a> {
    text: &'a [u8],
    short: [u8; SHORT],
}

impl<'a> Model for NotedName<'a> {
    ghost use Rattle.std.specs.Prelude.{ℕ, List};
    ghost use Rattle.hp_script.specs.ShortNames.{StandsShort};

    ghost Value = { List ℕ };

    ghost view = { λ a. a.text.now };

    ghost invariant = { λ a. StandsShort a.text.now a.short };
}

impl<'a> NotedName<'a> {
    /// The name with this text.
    pub fn new(text: &'a [u8]) -> NotedName<'a>
        ensures { result ≡ text.entry.now }
    {
        let mut short = [0u8; SHORT];
        if text.len() <= SHORT {
            let (front, _rest) = short.split_at_mut(text.len());
            front.copy_from_slice(text);
        }
        NotedName { text, short }
    }

    /// Whether its text is this one.
    pub fn is(&self, text: &[u8]) -> bool
        ensures { result ≡ bytes_eq self.now text.now }
    {
        if self.text.len() <= SHORT {
            return &self.short[..self.text.len()] == text;
        }
        self.text == text
    }
}
