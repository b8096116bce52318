//! The form of a line: its fields, and what it asks for.
ghost use Rattle.std.specs.Prelude.{◌≡◌, ◌==◌, ◌<◌, ◌&&◌, nat_le, nat_lt, length, position, OnOk, IfSome};
ghost use Rattle.std.specs.List.{list_all};
ghost use Rattle.hp_bytes.specs.Form.{is_visible, is_label, label_of, number_within, new_line, put_line, copy_line, get_line, drop_line, form_of, fields_of};

use crate::line::Line;
use crate::number::decimal;
use crate::word::Word;
use std::alloc::AllocError;

/// The greatest number of bytes of a label.
pub const LABEL_LIMIT: usize = 64;

/// The greatest number of bytes that a line may show.
pub const GET_LIMIT: u64 = 64;

// Whether a byte may stand in a label.
fn is_visible(byte: u8) -> bool
    ensures { result ≡ is_visible byte }
{
    33 <= byte && byte <= 126
}

// Whether a label may have so many bytes.
fn is_label_length(n: usize) -> bool
    ensures { result ≡ (nat_lt 0 n && nat_le n 64) }
{
    0 < n && n <= LABEL_LIMIT
}

fn are_visible(text: &[u8]) -> bool
    ensures { result ≡ list_all is_visible text.now }
{
    text.iter().all(|byte| is_visible(*byte))
}

// Whether a field is a label.
fn is_label(text: &[u8]) -> bool
    ensures { result ≡ is_label text.now }
{
    is_label_length(text.len()) && are_visible(text)
}

// The label that a field is, where it is one.
fn label_of<'a>(field: &Word<'a>) -> Option<Word<'a>>
    ensures { result ≡ label_of field.now }
{
    if is_label(field.as_bytes()) {
        Some(field.again())
    } else {
        None
    }
}

// The number that a field is, where it is one from a least to a greatest.
fn number_within(low: u64, high: u64, field: &Word<'_>) -> Option<u64>
    ensures { result ≡ number_within low high field.now }
{
    let number = decimal(field.as_bytes())?;
    if low <= number && number <= high {
        Some(number)
    } else {
        None
    }
}

// `new <label> <size>`
fn new_line<'a>(label: &Word<'a>, size: &Word<'a>) -> Option<Line<'a>>
    ensures { result ≡ new_line label.now size.now }
{
    let label = label_of(label)?;
    let size = decimal(size.as_bytes())?;
    Some(Line::New { label, size })
}

// `put <label> <at> <byte> <len>`
fn put_line<'a>(
    label: &Word<'a>,
    at: &Word<'a>,
    byte: &Word<'a>,
    len: &Word<'a>,
) -> Option<Line<'a>>
    ensures { result ≡ put_line label.now at.now byte.now len.now }
{
    let label = label_of(label)?;
    let at = decimal(at.as_bytes())?;
    let byte = number_within(0, 255, byte)?;
    let len = decimal(len.as_bytes())?;
    Some(Line::Put {
        label,
        at,
        byte: byte as u8,
        len,
    })
}

// `copy <a> <b>`
fn copy_line<'a>(from: &Word<'a>, to: &Word<'a>) -> Option<Line<'a>>
    ensures { result ≡ copy_line from.now to.now }
{
    let from = label_of(from)?;
    let to = label_of(to)?;
    Some(Line::Copy { from, to })
}

// `get <label> <at> <len>`
fn get_line<'a>(label: &Word<'a>, at: &Word<'a>, len: &Word<'a>) -> Option<Line<'a>>
    ensures { result ≡ get_line label.now at.now len.now }
{
    let label = label_of(label)?;
    let at = decimal(at.as_bytes())?;
    let len = number_within(1, GET_LIMIT, len)?;
    Some(Line::Get { label, at, len })
}

// `drop <label>`
fn drop_line<'a>(label: &Word<'a>) -> Option<Line<'a>>
    ensures { result ≡ drop_line label.now }
{
    let label = label_of(label)?;
    Some(Line::Drop { label })
}

/// What a line asks for by its fields, where it is of one of the forms.
pub fn form_of<'a>(fields: &[Word<'a>]) -> Option<Line<'a>>
    ensures { result ≡ form_of fields.now }
{
    match fields {
        [word, label] if word.is(b"drop") => drop_line(label),
        [word, label, size] if word.is(b"new") => new_line(label, size),
        [word, from, to] if word.is(b"copy") => copy_line(from, to),
        [word, label, at, len] if word.is(b"get") => get_line(label, at, len),
        [word, label, at, byte, len] if word.is(b"put") => put_line(label, at, byte, len),
        _ => None,
    }
}

/// Puts the fields of a line into a buffer: what stands before, between and after its spaces.
pub fn read_fields<'a>(fields: &mut Vec<Word<'a>>, line: &'a [u8]) -> Result<(), AllocError>
    ensures { OnOk result (fields.new.items ≡ fields_of line.entry.now) }
{
    fields.clear();
    let mut rest = line;
    while let Some(n) = space_at(rest) {
        fields.push(Word::new(&rest[..n]))?;
        rest = &rest[n + 1..];
    }
    fields.push(Word::new(rest))?;
    Ok(())
}

// The index of the first space.
fn space_at(text: &[u8]) -> Option<usize>
    ensures place { result ≡ position (λ byte. byte == 32) text.now }
    ensures within { IfSome result (λ n. n < length text.now) }
{
    text.iter().position(|byte| *byte == b' ')
}
