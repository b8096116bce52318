use std::marker::Model;

/// A part of a text: a slice of it, and its place in bytes from the begin.
#[derive(Drop)]
pub struct Piece<'a> {
    start: usize,
    text: &'a [u8],
}

impl<'a> Model for Piece<'a> {
    ghost use Rattle.std.specs.Prelude.{ℕ, ◌+◌, ◌<◌, ◌≤◌, ◌^◌, length};
    ghost use Rattle.hp_script.specs.Part.{Part, part_at};

    ghost Value = { Part };

    ghost view = { λ a. part_at a.start a.text };

    ghost invariant = { λ a. (a.start + length a.text.now < 2 ^ 32) × (a.start ≤ a.text.ref_ptr.1) };
}

impl<'a> Piece<'a> {
    ghost use Rattle.std.specs.Prelude.{◌≡◌, ◌+◌, ◌<◌, ◌≤◌, ◌^◌, length, take};
    ghost use Rattle.hp_script.specs.Part.{address_of, behind, is_word, part_at};

    /// The piece with this text at this place.
    pub fn new(start: usize, text: &'a [u8]) -> Piece<'a>
        requires within { start + length text.now < 2 ^ 32 }
        requires behind { start ≤ text.ref_ptr.1 }
        ensures { result ≡ part_at start text.entry }
    {
        Piece { start, text }
    }

    /// Its bytes.
    pub fn as_bytes(&self) -> &'a [u8]
        ensures text { result.now ≡ self.now.text }
        ensures within { self.now.start + length self.now.text < 2 ^ 32 }
        ensures lent { result.ref_ptr ≡ address_of self.now }
    {
        self.text
    }

    /// Its first bytes.
    #[tactic(auto, using(crate::proofs::TokenFacts::PartLemmas::part_is))]
    pub fn front(&self, n: usize) -> Piece<'a>
        requires { n ≤ length self.now.text }
        ensures { result ≡ record { start = self.now.start; text = take n self.now.text; base = self.now.base } }
    {
        Piece {
            start: self.start,
            text: &self.text[..n],
        }
    }

    /// What stands in it after its first bytes.
    #[tactic(auto, using(crate::proofs::TokenFacts::PartLemmas::part_is, crate::proofs::TokenFacts::PartLemmas::to_end))]
    pub fn rest(&self, n: usize) -> Piece<'a>
        requires { n ≤ length self.now.text }
        ensures { result ≡ behind n self.now }
    {
        Piece {
            start: self.start + n,
            text: &self.text[n..],
        }
    }

    /// The place of its first byte in the text, from 0.
    pub fn start(&self) -> usize
        ensures { result ≡ self.now.start }
    {
        self.start
    }

    /// Whether it is this word.
    pub fn is(&self, word: &[u8]) -> bool
        ensures { result ≡ is_word word.now self.now }
    {
        self.text == word
    }

    /// This piece once more. Own.
    pub fn again(&self) -> Piece<'a>
        ensures { result ≡ self.now }
    {
        Piece {
            start: self.start,
            text: self.text,
        }
    }
}
