use crate::piece::Piece;
use std::marker::Model;

/// A field of a workload, as it stands there: a slice of the text, and its place in bytes from the begin. It has 1 to 255
/// bytes, all of them printable ASCII and none of them a space. Own.
#[derive(Drop)]
pub struct Token<'a> {
    start: u32,
    // The number of the line that makes what it names, where the reader noted it. A hint: any number may stand here.
    maker: u32,
    text: &'a [u8],
}

impl<'a> Model for Token<'a> {
    ghost use Rattle.std.specs.Prelude.{ℕ, ◌+◌, ◌<◌, ◌≤◌, ◌^◌, length};
    ghost use Rattle.hp_script.specs.Part.{Part, part_at};
    ghost use Rattle.hp_script.specs.Words.{IsWord};

    ghost Value = { Part };

    ghost view = { λ a. part_at a.start a.text };

    ghost invariant = { λ a. (a.start + length a.text.now < 2 ^ 32) × (a.start ≤ a.text.ref_ptr.1) × IsWord a.text.now };
}

impl<'a> Token<'a> {
    ghost use Rattle.std.specs.Prelude.{◌≡◌, ◌+◌, ◌<◌, ◌≤◌, ◌^◌, length, nat_lt, IsTrue, Some, None, if◌then◌else◌};
    ghost use Rattle.hp_script.specs.Part.{address_of, behind, is_word, has_front, part_at};
    ghost use Rattle.hp_script.specs.Words.{IsWord};

    /// The token with this text at this place.
    pub(crate) fn new(start: usize, text: &'a [u8]) -> Token<'a>
        requires within { start + length text.now < 2 ^ 32 }
        requires behind { start ≤ text.ref_ptr.1 }
        requires word { IsWord text.now }
        ensures { result ≡ part_at start text.entry }
    {
        Token {
            start: start as u32,
            maker: 0,
            text,
        }
    }

    /// Its bytes. Own.
    pub fn as_bytes(&self) -> &'a [u8]
        ensures text { result.now ≡ self.now.text }
        ensures within { self.now.start + length self.now.text < 2 ^ 32 }
        ensures lent { result.ref_ptr ≡ address_of self.now }
        ensures word { IsWord self.now.text }
    {
        self.text
    }

    /// Its text. Own.
    #[tactic(auto, using(crate::proofs::TokenFacts::WordLemmas::word_utf8))]
    pub fn as_str(&self) -> &'a str
        ensures text { result.now ≡ self.now.text }
        ensures word { IsWord self.now.text }
    {
        match std::str::from_utf8(self.text) {
            Ok(text) => text,
            Err(_) => unreachable!(),
        }
    }

    /// The place of its first byte in the text of the workload, from 0. Own.
    pub fn start(&self) -> usize
        ensures { result ≡ self.now.start }
    {
        self.start as usize
    }

    /// Notes the number of the line that makes what it names.
    pub(crate) fn note_maker(&mut self, maker: u32)
        ensures { self.new ≡ self.old }
    {
        self.maker = maker;
    }

    /// The number that was noted, and 0 where none was. No clause speaks of it: who goes by it looks whether it is right.
    pub(crate) fn noted_maker(&self) -> u32 {
        self.maker
    }

    /// Whether it is this word.
    pub(crate) fn is(&self, word: &[u8]) -> bool
        ensures { result ≡ is_word word.now self.now }
    {
        self.text == word
    }

    /// Whether it begins with this word.
    pub(crate) fn begins(&self, word: &[u8]) -> bool
        ensures value { result ≡ has_front word.now self.now }
        ensures long { IsTrue result → length word.now ≤ length self.now.text }
    {
        self.text.starts_with(word)
    }

    /// What stands in it after its first bytes.
    #[tactic(auto, using(crate::proofs::TokenFacts::PartLemmas::part_is, crate::proofs::TokenFacts::PartLemmas::to_end))]
    pub(crate) fn behind(&self, n: usize) -> Piece<'a>
        requires { n ≤ length self.now.text }
        ensures { result ≡ behind n self.now }
    {
        Piece::new(self.start as usize + n, &self.text[n..])
    }

    /// The token that stands in it after its first bytes, where that is not empty.
    #[tactic(auto, using(crate::proofs::TokenFacts::WordLemmas::word_behind))]
    pub(crate) fn token_behind(&self, n: usize) -> Option<Token<'a>>
        requires { n ≤ length self.now.text }
        ensures { result ≡ (if nat_lt (length (behind n self.now).text) 1 then None else Some (behind n self.now)) }
    {
        if self.text.len() == n {
            return None;
        }
        let rest = self.behind(n);
        Some(Token::new(rest.start(), rest.as_bytes()))
    }

    /// This token once more. Own.
    pub fn again(&self) -> Token<'a>
        ensures { result ≡ self.now }
    {
        Token {
            start: self.start,
            maker: self.maker,
            text: self.text,
        }
    }
}
