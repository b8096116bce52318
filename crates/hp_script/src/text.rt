ghost use Rattle.std.specs.Prelude.{◌≡◌, ◌∷◌, ◌<◌, length, position, not, IfSome};
ghost use Rattle.std.specs.List.{find};
ghost use Rattle.hp_script.specs.Text.{is_separator, parts_of, parts_left, without_return, fields_of, first_byte, is_call, is_skipped, is_plain};

use crate::piece::Piece;
use memchr::memchr;

/// What stands between the parts of a text.
#[derive(Clone, Copy)]
pub enum Separator {
    /// Between lines.
    Newline,
    /// Between fields: a space or a tab.
    Blank,
}

fn is_separator(separator: Separator, byte: u8) -> bool
    ensures { result ≡ is_separator separator byte }
{
    match separator {
        Separator::Newline => byte == b'\n',
        Separator::Blank => byte == b' ' || byte == b'\t',
    }
}

// The place of the first newline.
fn newline_at(text: &[u8]) -> Option<usize>
    ensures place { result ≡ position (is_separator Separator.Newline) text.now }
    ensures within { IfSome result (λ n. n < length text.now) }
{
    memchr(b'\n', text)
}

// The place of the first space or tab.
fn blank_at(text: &[u8]) -> Option<usize>
    ensures place { result ≡ position (is_separator Separator.Blank) text.now }
    ensures within { IfSome result (λ n. n < length text.now) }
{
    text.iter()
        .position(|byte| is_separator(Separator::Blank, *byte))
}

// The place of the first separator.
fn separator_at(separator: Separator, text: &[u8]) -> Option<usize>
    ensures place { result ≡ position (is_separator separator) text.now }
    ensures within { IfSome result (λ n. n < length text.now) }
{
    match separator {
        Separator::Newline => newline_at(text),
        Separator::Blank => blank_at(text),
    }
}

/// The first part, and what stands after the separator that ends it.
pub fn cut<'a>(separator: Separator, whole: &Piece<'a>) -> (Piece<'a>, Option<Piece<'a>>)
    ensures parts { parts_of separator whole.now ≡ result.0 ∷ parts_left separator result.1 }
    ensures shorter { IfSome result.1 (λ rest. length rest.text < length whole.now.text) }
{
    let text = whole.as_bytes();
    match separator_at(separator, text) {
        None => (whole.again(), None),
        Some(n) => (whole.front(n), Some(whole.rest(n + 1))),
    }
}

/// The line without a carriage return at its end.
pub fn without_return<'a>(line: &Piece<'a>) -> Piece<'a>
    ensures { result ≡ without_return line.now }
{
    let text = line.as_bytes();
    let n = text.len();
    if n > 0 && text[n - 1] == b'\r' {
        return line.front(n - 1);
    }
    line.again()
}

// The first byte of a line that is no space or tab.
fn first_visible(line: &Piece) -> Option<u8>
    ensures { result ≡ find (λ byte. not (is_separator Separator.Blank byte)) line.now.text }
{
    line.as_bytes()
        .iter()
        .copied()
        .find(|byte| !is_separator(Separator::Blank, *byte))
}

/// The first byte of a line's fields: nothing after it is read.
#[tactic(auto, using(crate::proofs::TokenFacts::TextLemmas::first_of_fields))]
fn first_byte(line: &Piece) -> Option<u8>
    ensures { result ≡ first_byte (fields_of line.now) }
{
    first_visible(line)
}

/// Whether a line is skipped: it has no field, or its first one begins with '#'.
#[tactic(auto, using(crate::proofs::TokenFacts::TextLemmas::skipped_first))]
pub fn is_skipped(line: &Piece) -> bool
    ensures { result ≡ is_skipped (fields_of line.now) }
{
    match first_byte(line) {
        None => true,
        Some(byte) => byte == b'#',
    }
}

/// Whether a line is a participant line: its first field begins with a digit.
#[tactic(auto, using(crate::proofs::TokenFacts::TextLemmas::call_first))]
pub fn is_call(line: &Piece) -> bool
    ensures { result ≡ is_call (fields_of line.now) }
{
    match first_byte(line) {
        None => false,
        Some(byte) => byte.is_ascii_digit(),
    }
}

/// Whether a byte may stand in a line: printable ASCII or a tab.
pub fn is_plain(byte: u8) -> bool
    ensures { result ≡ is_plain byte }
{
    byte == b'\t' || (32 <= byte && byte <= 126)
}
