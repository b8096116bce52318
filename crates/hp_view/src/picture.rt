//! The picture of a report.
ghost use Rattle.std.specs.Prelude.{◌≡◌, ◌++◌, OnOk, IfOk, string_bytes, codes};
ghost use Rattle.hp_view.specs.Picture.{asks_shapes, below_heaps, heaps_shapes, height_of, picture_of, shapes_of, tables_shapes, words_at};

use crate::asks::draw_refusals;
use crate::counts::{Kind, count_of};
use crate::heaps::draw_heaps;
use crate::legend::draw_legend;
use crate::line::Line;
use crate::lists::lists_of;
use crate::page::Page;
use crate::printing::printed;
use crate::scale::{LEFT, plus};
use crate::shape::Style;
use crate::tables::draw_rows;
use crate::tallies::draw_tallies;
use crate::words::Words;
use std::alloc::{AllocError, Global};

/// The picture of a report.
pub fn picture_of(alloc: Global, lines: &[Line<'_>]) -> Result<String, AllocError>
    ensures { IfOk result (λ text. string_bytes text ≡ picture_of lines.now) }
{
    let mut page = Page::new(alloc);
    draw_all(alloc, &mut page, lines)?;
    printed(alloc, height_of(lines), page.shapes())
}

// Where the heaps end.
fn below_heaps(lines: &[Line<'_>]) -> u64
    ensures { result ≡ below_heaps lines.now }
{
    plus(140, count_of(lines, Kind::Heap).saturating_mul(190))
}

fn height_of(lines: &[Line<'_>]) -> u64
    ensures { result ≡ height_of lines.now }
{
    let tables = count_of(lines, Kind::Table).saturating_mul(18);
    plus(below_heaps(lines), plus(384, tables))
}

fn draw_all(alloc: Global, page: &mut Page, lines: &[Line<'_>]) -> Result<(), AllocError>
    ensures { OnOk result (page.new ≡ page.old ++ shapes_of lines.now) }
{
    let below = below_heaps(lines);
    draw_legend(alloc, page, lines)?;
    draw_all_heaps(alloc, page, lines)?;
    draw_asks(alloc, page, lines, below)?;
    draw_tables(alloc, page, lines, plus(below, 334))
}

fn draw_all_heaps(alloc: Global, page: &mut Page, lines: &[Line<'_>]) -> Result<(), AllocError>
    ensures { OnOk result (page.new ≡ page.old ++ heaps_shapes lines.now) }
{
    let lists = lists_of(alloc, lines)?;
    let records = count_of(lines, Kind::Record);
    draw_heaps(alloc, page, lines, lists.as_slice(), records, 140)
}

fn draw_asks(alloc: Global, page: &mut Page, lines: &[Line<'_>], y: u64) -> Result<(), AllocError>
    ensures { OnOk result (page.new ≡ page.old ++ asks_shapes y lines.now) }
{
    draw_words(
        alloc,
        page,
        plus(y, 14),
        Style::Head,
        b"Asks for pages that were refused, over the same records (ask p n: number n of participant p)",
    )?;
    let records = count_of(lines, Kind::Record);
    draw_refusals(alloc, page, lines, records, plus(y, 26))?;
    draw_words(
        alloc,
        page,
        plus(y, 76),
        Style::Head,
        b"Asks of the coordinator, for pages and of pages given up, by outcome",
    )?;
    draw_tallies(alloc, page, lines, plus(y, 100))
}

fn draw_tables(alloc: Global, page: &mut Page, lines: &[Line<'_>], y: u64) -> Result<(), AllocError>
    ensures { OnOk result (page.new ≡ page.old ++ tables_shapes y lines.now) }
{
    draw_words(alloc, page, y, Style::Head, b"Participants")?;
    let records = count_of(lines, Kind::Record);
    draw_rows(alloc, page, lines, records, plus(y, 24))
}

fn draw_words(
    alloc: Global,
    page: &mut Page,
    y: u64,
    style: Style,
    text: &[u8],
) -> Result<(), AllocError>
    ensures { OnOk result (page.new ≡ page.old ++ words_at y style text.now) }
{
    let words = Words::of(alloc, text)?;
    page.label(LEFT, y, style, words)
}
