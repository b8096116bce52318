//! The asks for pages that were refused, over time.
ghost use Rattle.std.specs.Prelude.{◌≡◌, ◌++◌, None, OnOk, IfOk, slice_index_or, string_bytes};
ghost use Rattle.hp_view.specs.declared.line.Line.TheVariants as line;
ghost use Rattle.hp_view.specs.Asks.{after_ask, beside_shapes, beside_words, drawn_before, last_shapes, mark_after, mark_of_ask, none_shapes, one_more, refusals, refused_area, refused_shapes, refused_words, several_words, stands_at, text_of, words_of};

use crate::line::Line;
use crate::outcome::{Cause, Outcome};
use crate::page::Page;
use crate::scale::{LEFT, WIDTH, place, plus};
use crate::shape::{Area, Colour, Style};
use crate::tallies::{cause_meaning, cause_word};
use crate::words::Words;
use std::alloc::{AllocError, Global};

/// Refused asks that are drawn as one: the place of the first one's line among the lines, its cause, where they are drawn, the record after
/// which that is, and how many they are.
#[derive(Clone, Copy)]
pub struct RefusedMark {
    pub at: usize,
    pub cause: Cause,
    pub x: u64,
    pub after: u64,
    pub count: u64,
}

/// Draws the asks that were refused. A mark is drawn once the next one does not join it.
pub fn draw_refusals(
    alloc: Global,
    page: &mut Page,
    lines: &[Line<'_>],
    records: u64,
    y: u64,
) -> Result<(), AllocError>
    ensures { OnOk result (page.new ≡ page.old ++ refusals lines.now records y 0 0 None lines.now) }
{
    let mut after = 0;
    let mut mark = None;
    for at in 0..lines.len() {
        let next = mark_of_ask(&lines[at], at, after, records);
        draw_before(alloc, page, lines, y, mark, next)?;
        mark = mark_after(mark, next);
        after = after_ask(after, &lines[at]);
    }
    draw_last(alloc, page, lines, y, mark)
}

// Draws the last mark, or writes that there is none.
fn draw_last(
    alloc: Global,
    page: &mut Page,
    lines: &[Line<'_>],
    y: u64,
    mark: Option<RefusedMark>,
) -> Result<(), AllocError>
    ensures { OnOk result (page.new ≡ page.old ++ last_shapes lines.now y mark) }
{
    match mark {
        Some(_) => draw_refused(alloc, page, lines, y, mark, LEFT + WIDTH),
        None => draw_none(alloc, page, y),
    }
}

fn draw_none(alloc: Global, page: &mut Page, y: u64) -> Result<(), AllocError>
    ensures { OnOk result (page.new ≡ page.old ++ none_shapes y) }
{
    let words = Words::of(alloc, b"none")?;
    page.label(40, plus(y, 12), Style::Pale, words)
}

// Whether a mark stands at a place.
fn stands_at(mark: Option<RefusedMark>, x: u64) -> bool
    ensures { result ≡ stands_at x mark }
{
    match mark {
        Some(mark) => mark.x == x,
        None => false,
    }
}

// Draws the mark where the next refused ask does not join it.
fn draw_before(
    alloc: Global,
    page: &mut Page,
    lines: &[Line<'_>],
    y: u64,
    mark: Option<RefusedMark>,
    next: Option<RefusedMark>,
) -> Result<(), AllocError>
    ensures { OnOk result (page.new ≡ page.old ++ drawn_before lines.now y mark next) }
{
    match next {
        Some(next) => {
            if stands_at(mark, next.x) {
                Ok(())
            } else {
                draw_refused(alloc, page, lines, y, mark, next.x)
            }
        }
        None => Ok(()),
    }
}

// The mark after a line: with one refused ask more, or the next one, or as it was.
fn mark_after(mark: Option<RefusedMark>, next: Option<RefusedMark>) -> Option<RefusedMark>
    ensures { result ≡ mark_after mark next }
{
    match next {
        Some(next) => {
            if stands_at(mark, next.x) {
                one_more(mark)
            } else {
                Some(next)
            }
        }
        None => mark,
    }
}

fn one_more(mark: Option<RefusedMark>) -> Option<RefusedMark>
    ensures { result ≡ one_more mark }
{
    match mark {
        Some(mark) => Some(RefusedMark {
            at: mark.at,
            cause: mark.cause,
            x: mark.x,
            after: mark.after,
            count: plus(mark.count, 1),
        }),
        None => None,
    }
}

// The last record that an ask tells.
fn after_ask(before: u64, line: &Line<'_>) -> u64
    ensures { result ≡ after_ask before line.now }
{
    match line {
        Line::Ask { outcome, .. } => match outcome {
            Outcome::Granted { generation } => *generation,
            Outcome::Freed { generation } => *generation,
            _ => before,
        },
        _ => before,
    }
}

// The mark of one refused ask, whose line has a place among the lines.
fn mark_of_ask(line: &Line<'_>, at: usize, after: u64, records: u64) -> Option<RefusedMark>
    ensures { result ≡ mark_of_ask records at after line.now }
{
    match line {
        Line::Ask { outcome, .. } => match outcome {
            Outcome::Refused { cause } => Some(RefusedMark {
                at,
                cause: *cause,
                x: place(after, records),
                after,
                count: 1,
            }),
            _ => None,
        },
        _ => None,
    }
}

// The text of an ask.
fn text_of<'a>(line: &Line<'a>) -> &'a [u8]
    ensures { result.now ≡ text_of line.now }
{
    match line {
        Line::Ask { text, .. } => text.as_bytes(),
        _ => b"",
    }
}

// The words of a mark: the line of its first ask, what its cause means, and how many asks it stands for.
fn words_of(alloc: Global, lines: &[Line<'_>], mark: RefusedMark) -> Result<Words, AllocError>
    ensures { IfOk result (λ words. words ≡ words_of lines.now mark) }
{
    let more = refused_words(alloc, mark)?;
    if mark.at < lines.len() {
        Words::joined(alloc, b"", text_of(&lines[mark.at]), more.as_bytes())
    } else {
        Words::of(alloc, more.as_bytes())
    }
}

// Draws the mark, where there is one, with words beside it where they have room up to the next one.
fn draw_refused(
    alloc: Global,
    page: &mut Page,
    lines: &[Line<'_>],
    y: u64,
    mark: Option<RefusedMark>,
    next: u64,
) -> Result<(), AllocError>
    ensures { OnOk result (page.new ≡ page.old ++ refused_shapes lines.now y next mark) }
{
    let Some(mark) = mark else {
        return Ok(());
    };
    let words = words_of(alloc, lines, mark)?;
    page.field(refused_area(y, mark.x), Colour::Refused, words)?;
    draw_beside(alloc, page, lines, y, mark, next)
}

fn refused_area(y: u64, x: u64) -> Area
    ensures { result ≡ refused_area y x }
{
    Area {
        x,
        y,
        width: 3,
        height: 14,
    }
}

fn draw_beside(
    alloc: Global,
    page: &mut Page,
    lines: &[Line<'_>],
    y: u64,
    mark: RefusedMark,
    next: u64,
) -> Result<(), AllocError>
    ensures { OnOk result (page.new ≡ page.old ++ beside_shapes lines.now y next mark) }
{
    if next < plus(mark.x, 220) {
        return Ok(());
    }
    let words = beside_words(alloc, lines, mark)?;
    page.label(plus(mark.x, 8), plus(y, 12), Style::Plain, words)
}

fn refused_words(alloc: Global, mark: RefusedMark) -> Result<String, AllocError>
    ensures { IfOk result (λ words. string_bytes words ≡ refused_words mark) }
{
    let meaning = cause_meaning(mark.cause);
    let after = mark.after;
    let count = mark.count;
    format!(in alloc; ": {meaning}; after record {after}; {count} refused here")
}

// The words beside a mark: the line of the ask, or of several the cause of the first and how many they are.
fn beside_words(alloc: Global, lines: &[Line<'_>], mark: RefusedMark) -> Result<Words, AllocError>
    ensures { IfOk result (λ words. words ≡ beside_words lines.now mark) }
{
    if mark.count == 1 {
        Words::of(alloc, text_at(lines, mark.at))
    } else {
        let text = several_words(alloc, mark)?;
        Words::of(alloc, text.as_bytes())
    }
}

// The text of the ask at a place among the lines.
fn text_at<'a>(lines: &[Line<'a>], at: usize) -> &'a [u8]
    ensures { result.now ≡ text_of (slice_index_or lines.now at line.Other) }
{
    if at < lines.len() {
        text_of(&lines[at])
    } else {
        b""
    }
}

fn several_words(alloc: Global, mark: RefusedMark) -> Result<String, AllocError>
    ensures { IfOk result (λ words. string_bytes words ≡ several_words mark) }
{
    let word = cause_word(mark.cause);
    let count = mark.count;
    format!(in alloc; "{word}, {count} in all")
}
