//! The band of a heap: its elements by address, and neighbours that fall below a pixel as one mark.
ghost use Rattle.std.specs.Prelude.{◌≡◌, ◌<◌, ◌++◌, OnOk, IfOk, length, string_bytes, if◌then◌else◌};
ghost use Rattle.hp_view.specs.Bands.{area_of, band_by, band_of, drawn_unless, element_shapes, group_words, label_shapes, mark_shapes, next_mark, small_words};
ghost use Rattle.hp_view.specs.Elements.{has_room};

use crate::element::{colour_of, element_words, label_of, start_of, whole_of};
use crate::line::Line;
use crate::mark::{Mark, joins, single, with_next};
use crate::page::Page;
use crate::scale::{is_narrow, place, plus};
use crate::shape::{Area, Colour, Style};
use crate::words::Words;
use std::alloc::{AllocError, Global};

/// With so many elements or fewer, the label of one that takes less than a pixel is written beside it.
const FEW: usize = 12;

/// How a band is drawn: the bytes of its heap, whether its elements are few, and its upper edge.
#[derive(Clone, Copy)]
pub struct Band {
    pub total: u64,
    pub few: bool,
    pub y: u64,
}

/// Draws the elements of a heap with so many bytes.
pub fn draw_elements(
    alloc: Global,
    page: &mut Page,
    elements: &[Line<'_>],
    total: u64,
    y: u64,
) -> Result<(), AllocError>
    ensures { OnOk result (page.new ≡ page.old ++ band_of total y elements.now) }
{
    if elements.is_empty() {
        return Ok(());
    }
    let few = elements.len() <= FEW;
    draw_band(alloc, page, elements, Band { total, few, y })
}

// A mark is drawn once the next element does not join it.
fn draw_band(
    alloc: Global,
    page: &mut Page,
    elements: &[Line<'_>],
    band: Band,
) -> Result<(), AllocError>
    requires { 0 < length elements.now }
    ensures { OnOk result (page.new ≡ page.old ++ band_by band elements.now) }
{
    let mut at = 0;
    let mut mark = single(&elements[0], 0);
    for i in 1..elements.len() {
        let joined = joins(&elements[at], mark, &elements[i], band.total);
        draw_unless(joined, alloc, page, &elements[at], mark, band)?;
        mark = next_mark(joined, mark, &elements[i]);
        at = next_first(joined, at, i);
    }
    draw_mark(alloc, page, &elements[at], mark, band)
}

// Draws a mark that the next element does not join.
fn draw_unless(
    joined: bool,
    alloc: Global,
    page: &mut Page,
    first: &Line<'_>,
    mark: Mark,
    band: Band,
) -> Result<(), AllocError>
    ensures { OnOk result (page.new ≡ page.old ++ drawn_unless joined band first.now mark) }
{
    if joined {
        Ok(())
    } else {
        draw_mark(alloc, page, first, mark, band)
    }
}

// The mark with the next element, or that of the next element.
fn next_mark(joined: bool, mark: Mark, next: &Line<'_>) -> Mark
    ensures { result ≡ next_mark joined mark next.now }
{
    if joined {
        with_next(mark, next)
    } else {
        single(next, mark.to)
    }
}

// Where the first element of that mark stands.
fn next_first(joined: bool, at: usize, next: usize) -> usize
    ensures { result ≡ (if joined then at else next) }
{
    if joined { at } else { next }
}

// Where a mark is drawn. What takes less than a pixel is three pixels wide and stands out above and below, so that it is seen; between others
// a pixel stays empty.
fn area_of(first: &Line<'_>, mark: Mark, band: Band) -> Area
    ensures { result ≡ area_of band first.now mark }
{
    let x = place(mark.from, band.total);
    let right = place(mark.to, band.total);
    if is_narrow(whole_of(first), band.total) {
        Area {
            x,
            y: band.y.saturating_sub(4),
            width: 3,
            height: 48,
        }
    } else {
        Area {
            x,
            y: band.y,
            width: right.saturating_sub(plus(x, 1)).max(1),
            height: 40,
        }
    }
}

fn draw_mark(
    alloc: Global,
    page: &mut Page,
    first: &Line<'_>,
    mark: Mark,
    band: Band,
) -> Result<(), AllocError>
    ensures { OnOk result (page.new ≡ page.old ++ mark_shapes band first.now mark) }
{
    let area = area_of(first, mark, band);
    if mark.count == 1 {
        let beside = band.few && is_narrow(whole_of(first), band.total);
        draw_element(alloc, page, first, area, beside)
    } else {
        let text = group_words(alloc, mark, start_of(first))?;
        let words = Words::of(alloc, text.as_bytes())?;
        page.field(area, Colour::Many, words)
    }
}

// A mark of one element, with its label where that has room.
fn draw_element(
    alloc: Global,
    page: &mut Page,
    line: &Line<'_>,
    area: Area,
    beside: bool,
) -> Result<(), AllocError>
    ensures { OnOk result (page.new ≡ page.old ++ element_shapes beside area line.now) }
{
    let words = element_words(alloc, line)?;
    page.field(area, colour_of(line), words)?;
    draw_label(alloc, page, label_of(line), area, beside)
}

// A label in its field, or to the left of it, pointing at it, where it may stand beside it.
fn draw_label(
    alloc: Global,
    page: &mut Page,
    label: &[u8],
    area: Area,
    beside: bool,
) -> Result<(), AllocError>
    ensures { OnOk result (page.new ≡ page.old ++ label_shapes beside area label.now) }
{
    if has_room(label, area.width) {
        let words = Words::of(alloc, label)?;
        return page.label(plus(area.x, 5), plus(area.y, 25), Style::Inside, words);
    }
    if beside && has_room(label, area.x) {
        let words = Words::joined(alloc, b"", label, b" >")?;
        return page.label(
            area.x.saturating_sub(4),
            plus(area.y, 29),
            Style::Before,
            words,
        );
    }
    Ok(())
}

// Whether a label has room in a field so wide.
fn has_room(label: &[u8], width: u64) -> bool
    ensures { result ≡ has_room label.now width }
{
    !label.is_empty() && (label.len() as u64) < width / 9
}

fn group_words(alloc: Global, mark: Mark, start: u64) -> Result<String, AllocError>
    ensures { IfOk result (λ words. string_bytes words ≡ group_words mark start) }
{
    let bytes = mark.to.saturating_sub(mark.from);
    small_words(alloc, mark.count, mark.busy, bytes, start)
}

fn small_words(
    alloc: Global,
    count: u64,
    busy: u64,
    bytes: u64,
    start: u64,
) -> Result<String, AllocError>
    ensures { IfOk result (λ words. string_bytes words ≡ small_words count busy bytes start) }
{
    format!(in alloc;
        "{count} small elements, {busy} of them busy: {bytes} bytes from 0x{start:x} on"
    )
}
