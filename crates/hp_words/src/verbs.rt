//! Which form values are: the first is the verb, and numbers and a last word follow where the verb takes them.
ghost use Rattle.std.specs.Prelude.{◌≡◌, IfSome, map};
ghost use Rattle.hp_words.specs.Forms.{IsWithin, form_of_values, four_words, generated_by, one_word, three_words};

use crate::form::Form;
use crate::number::number_within;

/// The greatest number of participant lines that a generated workload has.
const MAX_LINES: u64 = 20_000;

/// The form that values are, where they are one.
pub fn form_of_values(values: &[&str]) -> Option<Form>
    ensures form { result ≡ form_of_values (map (λ value. value.now) values.now) }
    ensures lines { IfSome result IsWithin }
{
    match values {
        [verb] => one_word(verb),
        [verb, start, lines] => three_words(verb, start, lines),
        [verb, start, lines, last] => four_words(verb, start, lines, last),
        _ => None,
    }
}

// The form of one word.
fn one_word(verb: &str) -> Option<Form>
    ensures form { result ≡ one_word verb.now }
    ensures lines { IfSome result IsWithin }
{
    if verb == "solo" {
        Some(Form::Solo)
    } else if verb == "run" {
        Some(Form::Run)
    } else if verb == "check" {
        Some(Form::Check)
    } else {
        None
    }
}

// The form of three words.
fn three_words(verb: &str, start: &str, lines: &str) -> Option<Form>
    ensures form { result ≡ three_words verb.now start.now lines.now }
    ensures lines { IfSome result IsWithin }
{
    if verb == "generate" {
        generated_by(start, lines, false)
    } else {
        None
    }
}

// The form of four words.
fn four_words(verb: &str, start: &str, lines: &str, last: &str) -> Option<Form>
    ensures form { result ≡ four_words verb.now start.now lines.now last.now }
    ensures lines { IfSome result IsWithin }
{
    if last == "summary" && verb == "generate" {
        generated_by(start, lines, true)
    } else {
        None
    }
}

// The form of two numbers after the verb `generate`.
fn generated_by(start: &str, lines: &str, summary: bool) -> Option<Form>
    ensures form { result ≡ generated_by summary start.now lines.now }
    ensures lines { IfSome result IsWithin }
{
    let start = number_within(start, 0, u64::MAX)?;
    let lines = number_within(lines, 1, MAX_LINES)? as u32;
    if summary {
        Some(Form::Summary { start, lines })
    } else {
        Some(Form::Text { start, lines })
    }
}
