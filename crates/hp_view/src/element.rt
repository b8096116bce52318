//! What the picture says of elements.
ghost use Rattle.std.specs.Prelude.{◌≡◌, ◌++◌, codes, IfOk, string_bytes};
ghost use Rattle.hp_view.specs.Elements.{busy_words, colour_of, element_words, free_words, is_busy, is_element, label_of, start_of, whole_of};

use crate::line::Line;
use crate::shape::Colour;
use crate::words::Words;
use std::alloc::{AllocError, Global};

/// Whether a line is an element.
pub fn is_element(line: &Line<'_>) -> bool
    ensures { result ≡ is_element line.now }
{
    matches!(line, Line::Free { .. } | Line::Busy { .. })
}

/// Whether it is a busy one.
pub fn is_busy(line: &Line<'_>) -> bool
    ensures { result ≡ is_busy line.now }
{
    matches!(line, Line::Busy { .. })
}

/// The bytes of an element with its header.
pub fn whole_of(line: &Line<'_>) -> u64
    ensures { result ≡ whole_of line.now }
{
    match line {
        Line::Free { whole, .. } => *whole,
        Line::Busy { whole, .. } => *whole,
        _ => 0,
    }
}

/// Where an element begins.
pub fn start_of(line: &Line<'_>) -> u64
    ensures { result ≡ start_of line.now }
{
    match line {
        Line::Free { start, .. } => *start,
        Line::Busy { start, .. } => *start,
        _ => 0,
    }
}

/// The label of a busy element.
pub fn label_of<'a>(line: &Line<'a>) -> &'a [u8]
    ensures { result.now ≡ label_of line.now }
{
    match line {
        Line::Busy { label, .. } => label.as_bytes(),
        _ => b"",
    }
}

/// The colour of an element.
pub fn colour_of(line: &Line<'_>) -> Colour
    ensures { result ≡ colour_of line.now }
{
    match line {
        Line::Free { class, .. } => Colour::Free { class: *class },
        _ => Colour::Busy,
    }
}

/// The words that an element shows.
pub fn element_words(alloc: Global, line: &Line<'_>) -> Result<Words, AllocError>
    ensures { IfOk result (λ words. words ≡ element_words line.now) }
{
    match line {
        Line::Free {
            start,
            whole,
            class,
        } => {
            let words = free_words(alloc, *start, *whole, *class)?;
            Words::of(alloc, words.as_bytes())
        }
        Line::Busy {
            start,
            whole,
            size,
            who,
            label,
        } => {
            let words = busy_words(alloc, *start, *whole, *size, *who)?;
            Words::joined(alloc, b"", label.as_bytes(), words.as_bytes())
        }
        _ => Words::of(alloc, b""),
    }
}

fn free_words(alloc: Global, start: u64, whole: u64, class: u64) -> Result<String, AllocError>
    ensures { IfOk result (λ words. string_bytes words ≡ free_words start whole class) }
{
    format!(in alloc; "free: {whole} bytes from 0x{start:x} on, in the free list of class {class}")
}

fn busy_words(
    alloc: Global,
    start: u64,
    whole: u64,
    size: u64,
    who: u64,
) -> Result<String, AllocError>
    ensures { IfOk result (λ words. string_bytes words ≡ busy_words start whole size who) }
{
    format!(in alloc;
        ": busy, {size} bytes of data in an element of {whole} bytes from 0x{start:x} on; participant {who} asked for it"
    )
}
