//! What is written above the band of a heap, and above its log.
ghost use Rattle.std.specs.Prelude.{◌≡◌, ◌++◌, OnOk, IfOk, string_bytes};
ghost use Rattle.hp_view.specs.Heaps.{first_byte, caption_shapes, caption_words, head_front, head_rest, head_shapes, head_words};

use crate::element::start_of;
use crate::line::Line;
use crate::page::Page;
use crate::scale::{LEFT, plus};
use crate::shape::Style;
use crate::words::Words;
use std::alloc::{AllocError, Global};

/// Writes the line above a band, with the address of its first byte where it has one.
pub fn draw_head(
    alloc: Global,
    page: &mut Page,
    line: &Line<'_>,
    elements: &[Line<'_>],
    y: u64,
) -> Result<(), AllocError>
    ensures { OnOk result (page.new ≡ page.old ++ head_shapes y line.now elements.now) }
{
    let start = first_byte(elements);
    let words = head_words(alloc, line, start)?;
    page.label(LEFT, plus(y, 14), Style::Head, words)
}

// The address of the first byte.
fn first_byte(elements: &[Line<'_>]) -> u64
    ensures { result ≡ first_byte elements.now }
{
    match elements.first() {
        Some(line) => start_of(line),
        None => 0,
    }
}

fn head_words(alloc: Global, line: &Line<'_>, start: u64) -> Result<Words, AllocError>
    ensures { IfOk result (λ words. words ≡ head_words start line.now) }
{
    match line {
        Line::Heap {
            index,
            name,
            socket,
            total,
            used,
            busy,
            frees,
        } => {
            let front = head_front(alloc, *index)?;
            let rest = head_rest(alloc, *socket, *total, *used, *busy, *frees, start)?;
            Words::joined(alloc, front.as_bytes(), name.as_bytes(), rest.as_bytes())
        }
        _ => Words::of(alloc, b""),
    }
}

fn head_front(alloc: Global, index: u64) -> Result<String, AllocError>
    ensures { IfOk result (λ words. string_bytes words ≡ head_front index) }
{
    format!(in alloc; "Heap {index}, ")
}

fn head_rest(
    alloc: Global,
    socket: u64,
    total: u64,
    used: u64,
    busy: u64,
    frees: u64,
    start: u64,
) -> Result<String, AllocError>
    ensures { IfOk result (λ words. string_bytes words ≡ head_rest socket total used busy frees start) }
{
    format!(in alloc;
        ", of socket {socket}: {total} bytes from 0x{start:x} on, {used} of them used; busy elements {busy}, free ones {frees}"
    )
}

/// Writes the line above a heap's log.
pub fn draw_caption(
    alloc: Global,
    page: &mut Page,
    records: u64,
    most: u64,
    y: u64,
) -> Result<(), AllocError>
    ensures { OnOk result (page.new ≡ page.old ++ caption_shapes records most y) }
{
    let text = caption_words(alloc, records, most)?;
    let words = Words::of(alloc, text.as_bytes())?;
    page.label(LEFT, y, Style::Note, words)
}

fn caption_words(alloc: Global, records: u64, most: u64) -> Result<String, AllocError>
    ensures { IfOk result (λ words. string_bytes words ≡ caption_words records most) }
{
    format!(in alloc;
        "size after each record of the log, 1 on the left, {records} on the right; at most {most} bytes"
    )
}
