//! The values among the words of a command: all words but the first `--`.
ghost use Rattle.std.specs.Prelude.{◌≡◌, ◌<◌, ◌≤◌, [], IfSome, length, map, slice_index_or, string_bytes};
ghost use Rattle.hp_command.specs.Words.{dashes_at, number_within, values_of};

use crate::numbers::number_within;

/// The index of the first word `--`, or how many words there are, where none is that. Own.
pub fn dashes_at(words: &[String]) -> usize
    ensures { result ≡ dashes_at (map string_bytes words.now) }
{
    let mut at = 0;
    for word in words {
        if word.as_str() == "--" {
            return at;
        }
        at += 1;
    }
    at
}

/// How many values there are. Own.
pub fn count(words: &[String], dashes: usize) -> usize
    requires { dashes ≡ dashes_at (map string_bytes words.now) }
    ensures { result ≡ length (values_of (map string_bytes words.now)) }
{
    if dashes < words.len() {
        words.len() - 1
    } else {
        words.len()
    }
}

/// The number that the value at an index writes in decimal digits, one or more and nothing else, where it is in the range. Leading zeros
/// are accepted. Own.
pub fn number(words: &[String], dashes: usize, at: usize, least: u32, most: u32) -> Option<u32>
    requires dashes { dashes ≡ dashes_at (map string_bytes words.now) }
    requires within { at < length (values_of (map string_bytes words.now)) }
    ensures number { result ≡ number_within least most (slice_index_or (values_of (map string_bytes words.now)) at []) }
    ensures range { IfSome result (λ n. (least ≤ n) × (n ≤ most)) }
{
    number_within(value(words, dashes, at).as_bytes(), least, most)
}

// The value at an index: the word there, or past the `--` the next one.
fn value<'a>(words: &'a [String], dashes: usize, at: usize) -> &'a String
    requires dashes { dashes ≡ dashes_at (map string_bytes words.now) }
    requires within { at < length (values_of (map string_bytes words.now)) }
    ensures { string_bytes result.now ≡ slice_index_or (values_of (map string_bytes words.entry.now)) at [] }
{
    if at < dashes {
        &words[at]
    } else {
        &words[at + 1]
    }
}
