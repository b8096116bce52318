//! What is written above the heaps.
ghost use Rattle.std.specs.Prelude.{◌≡◌, ◌++◌, OnOk, IfOk, string_bytes};
ghost use Rattle.hp_view.specs.Legend.{legend, remark, swatch, swatches, title, title_words};

use crate::counts::{Kind, count_of};
use crate::line::Line;
use crate::page::Page;
use crate::scale::{LEFT, plus};
use crate::shape::{Area, Colour, Style};
use crate::words::Words;
use std::alloc::{AllocError, Global};

/// Draws the title, how to read the picture, and what the colours say.
pub fn draw_legend(alloc: Global, page: &mut Page, lines: &[Line<'_>]) -> Result<(), AllocError>
    ensures { OnOk result (page.new ≡ page.old ++ legend lines.now) }
{
    draw_title(alloc, page, lines)?;
    draw_remark(
        alloc,
        page,
        54,
        b"A band is a heap, its bytes by rising address from left to right; a tick below it is where a page begins. What sticks out is wider than it is.",
    )?;
    draw_remark(
        alloc,
        page,
        72,
        b"Below that, its size after each record of the log. Where a growth failed, pages came and went again, in red: a mark further down says why. Point at anything to read what it is.",
    )?;
    draw_swatches(alloc, page)
}

fn draw_title(alloc: Global, page: &mut Page, lines: &[Line<'_>]) -> Result<(), AllocError>
    ensures { OnOk result (page.new ≡ page.old ++ title lines.now) }
{
    let heaps = count_of(lines, Kind::Heap);
    let records = count_of(lines, Kind::Record);
    let asks = count_of(lines, Kind::Ask);
    let tables = count_of(lines, Kind::Table);
    let text = title_words(alloc, heaps, records, asks, tables)?;
    let words = Words::of(alloc, text.as_bytes())?;
    page.label(LEFT, 30, Style::Title, words)
}

fn title_words(
    alloc: Global,
    heaps: u64,
    records: u64,
    asks: u64,
    tables: u64,
) -> Result<String, AllocError>
    ensures { IfOk result (λ words. string_bytes words ≡ title_words heaps records asks tables) }
{
    format!(in alloc;
        "A report of heapsim: heaps {heaps}, participants {tables}, records of the log {records}, asks of the coordinator {asks}"
    )
}

fn draw_remark(alloc: Global, page: &mut Page, y: u64, text: &[u8]) -> Result<(), AllocError>
    ensures { OnOk result (page.new ≡ page.old ++ remark y text.now) }
{
    let words = Words::of(alloc, text)?;
    page.label(LEFT, y, Style::Note, words)
}

fn draw_swatches(alloc: Global, page: &mut Page) -> Result<(), AllocError>
    ensures { OnOk result (page.new ≡ page.old ++ swatches) }
{
    draw_swatch(alloc, page, 20, Colour::Busy, b"a busy element")?;
    draw_swatch(alloc, page, 165, Colour::Free { class: 0 }, b"a free one")?;
    draw_swatch(alloc, page, 275, Colour::Many, b"several small elements")?;
    draw_swatch(alloc, page, 470, Colour::Grown, b"pages came to the heap")?;
    draw_swatch(alloc, page, 675, Colour::Shrunk, b"pages went")?;
    draw_swatch(
        alloc,
        page,
        795,
        Colour::Stayed,
        b"a record of another heap",
    )?;
    draw_swatch(alloc, page, 1_000, Colour::Refused, b"an ask was refused")
}

fn draw_swatch(
    alloc: Global,
    page: &mut Page,
    x: u64,
    colour: Colour,
    text: &[u8],
) -> Result<(), AllocError>
    ensures { OnOk result (page.new ≡ page.old ++ swatch x colour text.now) }
{
    let area = Area {
        x,
        y: 90,
        width: 20,
        height: 14,
    };
    let words = Words::of(alloc, text)?;
    page.field(area, colour, words)?;
    let words = Words::of(alloc, text)?;
    page.label(plus(x, 26), 102, Style::Plain, words)
}
