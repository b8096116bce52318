//! The heaps of a report: for each its band, its pages and its log.
ghost use Rattle.std.specs.Prelude.{◌≡◌, ◌<◌, ◌≤◌, ◌++◌, OnOk, Some, drop, length};
ghost use Rattle.std.specs.List.{prefix_len};
ghost use Rattle.hp_view.specs.Elements.{is_element};
ghost use Rattle.hp_view.specs.Heaps.{below, below_shapes, drawn_at, elements_of, heaps, key_of, total_of};

use crate::bands::draw_elements;
use crate::element::is_element;
use crate::heads::{draw_caption, draw_head};
use crate::line::Line;
use crate::lists::Slots;
use crate::log::{Chart, Key, draw_steps, peak};
use crate::page::Page;
use crate::pages::draw_ticks;
use crate::scale::plus;
use std::alloc::{AllocError, Global};

/// Draws the heaps of a report, from a height on.
pub fn draw_heaps(
    alloc: Global,
    page: &mut Page,
    lines: &[Line<'_>],
    lists: &[Slots],
    records: u64,
    top: u64,
) -> Result<(), AllocError>
    ensures { OnOk result (page.new ≡ page.old ++ heaps lines.now lists.now records top lines.now) }
{
    let mut y = top;
    for at in 0..lines.len() {
        let key = key_of(&lines[at]);
        draw_at(alloc, page, lists, records, y, key, lines, at)?;
        y = below(y, key);
    }
    Ok(())
}

// Where the next heap stands.
fn below(y: u64, key: Option<Key>) -> u64
    ensures { result ≡ below y key }
{
    match key {
        Some(_) => plus(y, 190),
        None => y,
    }
}

// Draws the heap whose line stands at a place, where that is one.
fn draw_at(
    alloc: Global,
    page: &mut Page,
    lists: &[Slots],
    records: u64,
    y: u64,
    key: Option<Key>,
    lines: &[Line<'_>],
    at: usize,
) -> Result<(), AllocError>
    requires { at < length lines.now }
    ensures { OnOk result (page.new ≡ page.old ++ drawn_at lists.now records y key lines.now at) }
{
    match key {
        Some(key) => draw_heap(alloc, page, lists, records, y, key, lines, at),
        None => Ok(()),
    }
}

fn draw_heap(
    alloc: Global,
    page: &mut Page,
    lists: &[Slots],
    records: u64,
    y: u64,
    key: Key,
    lines: &[Line<'_>],
    at: usize,
) -> Result<(), AllocError>
    requires { at < length lines.now }
    ensures { OnOk result (page.new ≡ page.old ++ drawn_at lists.now records y (Some key) lines.now at) }
{
    let elements = elements_of(lines, at + 1);
    let total = total_of(&lines[at]);
    draw_head(alloc, page, &lines[at], elements, y)?;
    draw_elements(alloc, page, elements, total, plus(y, 28))?;
    draw_below(alloc, page, lines, lists, records, key, total, y)
}

// What tells a heap's records, where the line is a heap.
fn key_of(line: &Line<'_>) -> Option<Key>
    ensures { result ≡ key_of line.now }
{
    match line {
        Line::Heap { index, socket, .. } => Some(Key {
            index: *index,
            socket: *socket,
        }),
        _ => None,
    }
}

// The bytes of a heap.
fn total_of(line: &Line<'_>) -> u64
    ensures { result ≡ total_of line.now }
{
    match line {
        Line::Heap { total, .. } => *total,
        _ => 0,
    }
}

// The elements that come after a heap's line.
fn elements_of<'a, 'b>(lines: &'a [Line<'b>], from: usize) -> &'a [Line<'b>]
    requires { from ≤ length lines.now }
    ensures { result.now ≡ elements_of (drop from lines.entry.now) }
{
    let (_before, rest) = lines.split_at(from);
    let n = element_count(rest);
    &rest[..n]
}

// How many elements stand at the front.
fn element_count(lines: &[Line<'_>]) -> usize
    ensures count { result ≡ prefix_len is_element lines.now }
    ensures within { result ≤ length lines.now }
{
    let mut n = 0;
    for line in lines {
        if !is_element(line) {
            return n;
        }
        n += 1;
    }
    n
}

// The ticks of a heap's pages, and its log.
fn draw_below(
    alloc: Global,
    page: &mut Page,
    lines: &[Line<'_>],
    lists: &[Slots],
    records: u64,
    key: Key,
    total: u64,
    y: u64,
) -> Result<(), AllocError>
    ensures { OnOk result (page.new ≡ page.old ++ below_shapes lines.now lists.now records y key total) }
{
    draw_ticks(alloc, page, lines, lists, key.index, total, plus(y, 74))?;
    let most = peak(key, lists, lines);
    let chart = Chart {
        key,
        records,
        peak: most,
        y: plus(y, 110),
    };
    draw_steps(alloc, page, lines, lists, chart)?;
    draw_caption(alloc, page, records, most, plus(y, 104))
}
