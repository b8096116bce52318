//! The pages of a heap, as ticks under its band.
ghost use Rattle.std.specs.Prelude.{◌≡◌, ◌++◌, OnOk, IfOk, string_bytes};
ghost use Rattle.hp_view.specs.Ticks.{bytes_after, bytes_past, page_of, page_size, tick_of, tick_shapes, tick_words, ticks};
ghost use Rattle.hp_view.specs.Shapes.{rectangle};

use crate::line::Line;
use crate::lists::{Slots, list_at};
use crate::page::Page;
use crate::scale::{place, plus};
use crate::shape::{Area, Colour};
use crate::words::Words;
use std::alloc::{AllocError, Global};

/// Draws the ticks of the pages of a heap.
pub fn draw_ticks(
    alloc: Global,
    page: &mut Page,
    lines: &[Line<'_>],
    lists: &[Slots],
    heap: u64,
    total: u64,
    y: u64,
) -> Result<(), AllocError>
    ensures { OnOk result (page.new ≡ page.old ++ ticks lists.now heap total y 0 lines.now) }
{
    let mut before = 0;
    for line in lines {
        let addr = page_of(line, heap);
        draw_page(alloc, page, lists, total, y, before, addr)?;
        before = bytes_past(lists, before, addr);
    }
    Ok(())
}

// Where a page of the heap begins.
fn page_of(line: &Line<'_>, of: u64) -> Option<u64>
    ensures { result ≡ page_of of line.now }
{
    match line {
        Line::Owned { addr, heap } => { if *heap == of { Some(*addr) } else { None } }
        _ => None,
    }
}

// The size of the page at an address.
fn page_size(lists: &[Slots], addr: u64) -> u64
    ensures { result ≡ page_size lists.now addr }
{
    match list_at(lists, addr) {
        Some(list) => list.page,
        None => 0,
    }
}

fn bytes_after(lists: &[Slots], before: u64, addr: u64) -> u64
    ensures { result ≡ bytes_after lists.now before addr }
{
    plus(before, page_size(lists, addr))
}

// The bytes of the heap's pages up to the end of one, where there is one.
fn bytes_past(lists: &[Slots], before: u64, addr: Option<u64>) -> u64
    ensures { result ≡ bytes_past lists.now before addr }
{
    match addr {
        Some(addr) => bytes_after(lists, before, addr),
        None => before,
    }
}

fn draw_page(
    alloc: Global,
    page: &mut Page,
    lists: &[Slots],
    total: u64,
    y: u64,
    before: u64,
    addr: Option<u64>,
) -> Result<(), AllocError>
    ensures { OnOk result (page.new ≡ page.old ++ tick_of lists.now total y before addr) }
{
    match addr {
        Some(addr) => draw_tick(alloc, page, lists, total, y, before, addr),
        None => Ok(()),
    }
}

// The tick of a page, where it begins; none where the next page begins in the same pixel.
fn draw_tick(
    alloc: Global,
    page: &mut Page,
    lists: &[Slots],
    total: u64,
    y: u64,
    before: u64,
    addr: u64,
) -> Result<(), AllocError>
    ensures { OnOk result (page.new ≡ page.old ++ tick_shapes lists.now total y before addr) }
{
    let x = place(before, total);
    if x == place(bytes_after(lists, before, addr), total) {
        return Ok(());
    }
    let text = tick_words(alloc, page_size(lists, addr), addr)?;
    let words = Words::of(alloc, text.as_bytes())?;
    page.field(tick_area(x, y), Colour::Tick, words)
}

fn tick_area(x: u64, y: u64) -> Area
    ensures { result ≡ rectangle x y 1 8 }
{
    Area {
        x,
        y,
        width: 1,
        height: 8,
    }
}

fn tick_words(alloc: Global, size: u64, addr: u64) -> Result<String, AllocError>
    ensures { IfOk result (λ words. string_bytes words ≡ tick_words size addr) }
{
    format!(in alloc; "a page of {size} bytes begins at 0x{addr:x}")
}
