//! The log over time, as a heap sees it: its bytes after each record.
ghost use Rattle.std.specs.Prelude.{◌≡◌, ◌++◌, OnOk, IfOk, string_bytes};
ghost use Rattle.hp_view.specs.Logs.{failed_words, generation_of, grown_words, is_own, is_record, is_told, names, other_words, peak, record_shapes, records_after, shrunk_words, step_area, step_colour, step_shapes, step_words, steps, total_after};

use crate::line::Line;
use crate::lists::{Slots, list_at};
use crate::outcome::Outcome;
use crate::page::Page;
use crate::scale::{place, plus, scaled};
use crate::shape::{Area, Colour};
use crate::words::Words;
use std::alloc::{AllocError, Global};

/// What tells a heap's records: its index, and its socket.
#[derive(Clone, Copy)]
pub struct Key {
    pub index: u64,
    pub socket: u64,
}

/// Whether a line is a record.
pub fn is_record(line: &Line<'_>) -> bool
    ensures { result ≡ is_record line.now }
{
    matches!(line, Line::Add { .. } | Line::Gone { .. })
}

// Whether a record is of the heap: it names it, or what goes lies in a list of its socket.
fn is_own(key: Key, lists: &[Slots], line: &Line<'_>) -> bool
    ensures { result ≡ is_own key lists.now line.now }
{
    match line {
        Line::Add { heap, .. } => *heap == key.index,
        Line::Gone { addr, .. } => match list_at(lists, *addr) {
            Some(list) => list.socket == key.socket,
            None => false,
        },
        _ => false,
    }
}

// The bytes of the heap after a record.
fn total_after(key: Key, lists: &[Slots], total: u64, line: &Line<'_>) -> u64
    ensures { result ≡ total_after key lists.now total line.now }
{
    if !is_own(key, lists, line) {
        return total;
    }
    match line {
        Line::Add { len, .. } => plus(total, *len),
        Line::Gone { len, .. } => total.saturating_sub(*len),
        _ => total,
    }
}

/// The most bytes that the heap has after any of the records.
pub fn peak(key: Key, lists: &[Slots], lines: &[Line<'_>]) -> u64
    ensures { result ≡ peak key lists.now 0 0 lines.now }
{
    let mut total = 0u64;
    let mut most = 0u64;
    for line in lines {
        total = total_after(key, lists, total, line);
        most = most.max(total);
    }
    most
}

/// How the log of a heap is drawn: what tells its records, how many records there are, the most bytes that it has, and the upper edge.
#[derive(Clone, Copy)]
pub struct Chart {
    pub key: Key,
    pub records: u64,
    pub peak: u64,
    pub y: u64,
}

/// Draws the steps of a heap by the records.
pub fn draw_steps(
    alloc: Global,
    page: &mut Page,
    lines: &[Line<'_>],
    lists: &[Slots],
    chart: Chart,
) -> Result<(), AllocError>
    ensures { OnOk result (page.new ≡ page.old ++ steps lines.now lists.now chart 0 0 lines.now) }
{
    let mut at = 0;
    let mut total = 0;
    for line in lines {
        total = total_after(chart.key, lists, total, line);
        draw_record(alloc, page, lines, lists, chart, at, total, line)?;
        at = records_after(at, line);
    }
    Ok(())
}

// How many records there are up to a line.
fn records_after(at: u64, line: &Line<'_>) -> u64
    ensures { result ≡ records_after at line.now }
{
    if is_record(line) { plus(at, 1) } else { at }
}

fn draw_record(
    alloc: Global,
    page: &mut Page,
    lines: &[Line<'_>],
    lists: &[Slots],
    chart: Chart,
    at: u64,
    total: u64,
    line: &Line<'_>,
) -> Result<(), AllocError>
    ensures { OnOk result (page.new ≡ page.old ++ record_shapes lines.now lists.now chart at total line.now) }
{
    if is_record(line) {
        let own = is_own(chart.key, lists, line);
        draw_step(alloc, page, lines, chart, at, total, own, line)
    } else {
        Ok(())
    }
}

// The step of a record, as wide as its place; none where it has no pixel of its own.
fn draw_step(
    alloc: Global,
    page: &mut Page,
    lines: &[Line<'_>],
    chart: Chart,
    at: u64,
    total: u64,
    own: bool,
    line: &Line<'_>,
) -> Result<(), AllocError>
    ensures { OnOk result (page.new ≡ page.old ++ step_shapes chart at total own (is_told lines.now (generation_of line.now)) line.now) }
{
    if step_area(chart, at, total).width == 0 {
        return Ok(());
    }
    let told = is_told(lines, generation_of(line));
    draw_told(alloc, page, chart, at, total, own, told, line)
}

fn draw_told(
    alloc: Global,
    page: &mut Page,
    chart: Chart,
    at: u64,
    total: u64,
    own: bool,
    told: bool,
    line: &Line<'_>,
) -> Result<(), AllocError>
    ensures { OnOk result (page.new ≡ page.old ++ step_shapes chart at total own told line.now) }
{
    let area = step_area(chart, at, total);
    if area.width == 0 {
        return Ok(());
    }
    let text = step_words(alloc, line, own, total)?;
    let more = failed_words(own, told).as_bytes();
    let words = Words::joined(alloc, b"", text.as_bytes(), more)?;
    page.field(area, step_colour(line, own, told), words)
}

fn step_area(chart: Chart, at: u64, total: u64) -> Area
    ensures { result ≡ step_area chart at total }
{
    let x = place(at, chart.records);
    let right = place(plus(at, 1), chart.records);
    let height = scaled(total, chart.peak, 50);
    Area {
        x,
        y: plus(chart.y, 50u64.saturating_sub(height)),
        width: right.saturating_sub(x),
        height: plus(height, 1),
    }
}

// Whether an ask that was granted, or pages that were given up, name a record. Those of a growth that failed have no such name.
fn is_told(lines: &[Line<'_>], generation: u64) -> bool
    ensures { result ≡ is_told lines.now generation }
{
    lines.iter().any(|line| names(line, generation))
}

fn names(line: &Line<'_>, generation: u64) -> bool
    ensures { result ≡ names generation line.now }
{
    match line {
        Line::Ask { outcome, .. } => match outcome {
            Outcome::Granted { generation: of } => *of == generation,
            Outcome::Freed { generation: of } => *of == generation,
            _ => false,
        },
        _ => false,
    }
}

fn generation_of(line: &Line<'_>) -> u64
    ensures { result ≡ generation_of line.now }
{
    match line {
        Line::Add { generation, .. } => *generation,
        Line::Gone { generation, .. } => *generation,
        _ => 0,
    }
}

fn failed_words(own: bool, told: bool) -> &'static str
    ensures { result.now ≡ failed_words own told }
{
    if own && !told {
        "; of a growth that failed"
    } else {
        ""
    }
}

fn step_colour(line: &Line<'_>, own: bool, told: bool) -> Colour
    ensures { result ≡ step_colour line.now own told }
{
    if !own {
        return Colour::Stayed;
    }
    if !told {
        return Colour::Refused;
    }
    match line {
        Line::Add { .. } => Colour::Grown,
        _ => Colour::Shrunk,
    }
}

fn step_words(alloc: Global, line: &Line<'_>, own: bool, total: u64) -> Result<String, AllocError>
    ensures { IfOk result (λ words. string_bytes words ≡ step_words line.now own total) }
{
    match line {
        Line::Add {
            generation,
            addr,
            len,
            ..
        } => {
            if own {
                grown_words(alloc, *generation, *len, *addr, total)
            } else {
                other_words(alloc, *generation, total)
            }
        }
        Line::Gone {
            generation,
            addr,
            len,
        } => {
            if own {
                shrunk_words(alloc, *generation, *len, *addr, total)
            } else {
                other_words(alloc, *generation, total)
            }
        }
        _ => Ok(String::new(alloc)),
    }
}

fn grown_words(
    alloc: Global,
    generation: u64,
    len: u64,
    addr: u64,
    total: u64,
) -> Result<String, AllocError>
    ensures { IfOk result (λ words. string_bytes words ≡ grown_words generation len addr total) }
{
    format!(in alloc;
        "record {generation}: {len} bytes come at 0x{addr:x}; the heap has {total} bytes then"
    )
}

fn shrunk_words(
    alloc: Global,
    generation: u64,
    len: u64,
    addr: u64,
    total: u64,
) -> Result<String, AllocError>
    ensures { IfOk result (λ words. string_bytes words ≡ shrunk_words generation len addr total) }
{
    format!(in alloc;
        "record {generation}: {len} bytes go from 0x{addr:x}; the heap has {total} bytes then"
    )
}

fn other_words(alloc: Global, generation: u64, total: u64) -> Result<String, AllocError>
    ensures { IfOk result (λ words. string_bytes words ≡ other_words generation total) }
{
    format!(in alloc; "record {generation} is of another heap; this one has {total} bytes then")
}
