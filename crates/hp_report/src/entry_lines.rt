//! The lines of the report on the history of a heap.
ghost use Rattle.std.specs.Prelude.{◌≡◌, ◌++◌, OnOk};
ghost use Rattle.hp_report.specs.KnownNames.{known};
ghost use Rattle.hp_report.specs.CallTexts.{call_text, outcome_text, request_text};
ghost use Rattle.hp_report.specs.EntryTexts.{entry_line};

use crate::lines::Lines;
use crate::names::Names;
use crate::page::Page;
use hp_base::Request;
use hp_heap::{Entry, HeapAnswer, HeapCall};
use std::alloc::AllocError;

/// The entries of a heap's history from one on, numbered from 1.
#[derive(Drop)]
pub struct EntryLines<'a> {
    pub heap: u32,
    pub entries: &'a [Entry],
    pub at: usize,
    pub names: &'a Names<'a>,
}

impl<'a> Lines for EntryLines<'a> {
    ghost use Rattle.std.specs.Prelude.{◌+◌, ◌-◌, drop, length};
    ghost use Rattle.hp_report.specs.EntryTexts.{entry_line};
    ghost use Rattle.hp_report.specs.KnownNames.{known};
    ghost use Rattle.hp_report.specs.Numbered.{numbered};

    ghost rest = { λ s. numbered (entry_line (known s.names.now) s.heap) (s.at + 1) (drop s.at s.entries.now) };

    ghost count = { λ s. length s.entries.now - s.at };

    fn next(&mut self, page: &mut Page) -> Result<bool, AllocError> {
        if self.at >= self.entries.len() {
            return Ok(false);
        }
        let entry = &self.entries[self.at];
        put_entry(page, self.heap, self.at as u64 + 1, entry, self.names)?;
        self.at += 1;
        Ok(true)
    }
}

pub fn put_entry(
    page: &mut Page,
    heap: u32,
    number: u64,
    entry: &Entry,
    names: &Names<'_>,
) -> Result<(), AllocError>
    ensures { OnOk result (page.new ≡ page.old ++ entry_line (known names.now) heap number entry.now) }
{
    page.put(b"hist")?;
    page.number(u64::from(heap))?;
    page.number(number)?;
    page.number(u64::from(entry.caller.participant))?;
    page.number(entry.caller.number)?;
    put_call(page, &entry.call, names)?;
    page.put(b" ->")?;
    put_outcome(page, &entry.answer)?;
    page.put(b"\n")
}

fn put_call(page: &mut Page, call: &HeapCall, names: &Names<'_>) -> Result<(), AllocError>
    ensures { OnOk result (page.new ≡ page.old ++ call_text (known names.now) call.now) }
{
    match call {
        HeapCall::Alloc { request, tag } => {
            page.put(b" alloc")?;
            put_request(page, request)?;
            page.put(b" ")?;
            page.put(names.of(*tag))
        }
        HeapCall::Find { tag } => {
            page.put(b" find ")?;
            page.put(names.of(*tag))
        }
        HeapCall::Free { addr, .. } => {
            page.put(b" free")?;
            page.address(*addr)
        }
        HeapCall::Cut { addr } => {
            page.put(b" cut")?;
            page.address(*addr)
        }
        HeapCall::Grow { run } => {
            page.put(b" grow")?;
            page.run(run)
        }
        HeapCall::Name { name, socket } => {
            page.put(b" name ")?;
            page.put(name.as_bytes())?;
            page.number(u64::from(*socket))
        }
        HeapCall::Stats => page.put(b" stats"),
        HeapCall::Unname => page.put(b" unname"),
        HeapCall::Resize { addr, size: len } => page.word_range(b" resize", *addr, *len),
        HeapCall::Chunk { chunk } => page.word_range(b" chunk", chunk.addr, chunk.len),
        HeapCall::Unchunk { addr, len } => page.word_range(b" unchunk", *addr, *len),
        HeapCall::Share { addr, len } => page.word_range(b" share", *addr, *len),
        HeapCall::Unshare { addr, len } => page.word_range(b" unshare", *addr, *len),
    }
}

fn put_request(page: &mut Page, request: &Request) -> Result<(), AllocError>
    ensures { OnOk result (page.new ≡ page.old ++ request_text request.now) }
{
    page.number(request.size)?;
    page.number(request.align)?;
    page.number(request.bound)?;
    page.address(u64::from(request.flags))
}

fn put_outcome(page: &mut Page, answer: &HeapAnswer) -> Result<(), AllocError>
    ensures { OnOk result (page.new ≡ page.old ++ outcome_text answer.now) }
{
    match answer {
        HeapAnswer::Address { addr } => page.address(*addr),
        HeapAnswer::Nothing => page.put(b" none"),
        HeapAnswer::Done => page.put(b" ok"),
        HeapAnswer::NotAnElement => page.put(b" notelem"),
        HeapAnswer::IsZone => page.put(b" iszone"),
        HeapAnswer::Yes => page.put(b" yes"),
        HeapAnswer::No => page.put(b" no"),
        HeapAnswer::Pages { run } => page.run(run),
        HeapAnswer::Statistics { stats } => page.numbers(stats),
    }
}
