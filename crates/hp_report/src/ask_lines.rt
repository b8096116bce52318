//! The lines of the report on the logged outcomes of asks.
ghost use Rattle.std.specs.Prelude.{◌≡◌, ◌++◌, OnOk};
ghost use Rattle.hp_script.specs.Answers.{number_text};
ghost use Rattle.hp_report.specs.LogTexts.{ask_line, ending_text, cause_text, got_text};

use crate::lines::Lines;
use crate::page::Page;
use hp_base::MapAnswer;
use hp_segs::{AskLog, Cause, Outcome};
use std::alloc::AllocError;

/// The logged outcomes that are left.
#[derive(Drop)]
pub struct AskLines<'a> {
    pub asks: &'a [AskLog],
}

impl<'a> Lines for AskLines<'a> {
    ghost use Rattle.std.specs.Prelude.{length};
    ghost use Rattle.std.specs.List.{flat_map};
    ghost use Rattle.hp_report.specs.LogTexts.{ask_line};

    ghost rest = { λ s. flat_map ask_line s.asks.now };

    ghost count = { λ s. length s.asks.now };

    fn next(&mut self, page: &mut Page) -> Result<bool, AllocError> {
        let Some((entry, asks)) = self.asks.split_first() else {
            return Ok(false);
        };
        put_ask(page, entry)?;
        self.asks = asks;
        Ok(true)
    }
}

pub fn put_ask(page: &mut Page, entry: &AskLog) -> Result<(), AllocError>
    ensures { OnOk result (page.new ≡ page.old ++ ask_line entry.now) }
{
    page.put(b"ask")?;
    page.number(u64::from(entry.from))?;
    page.number(entry.number)?;
    put_ending(page, &entry.outcome)?;
    page.put(b"\n")
}

// How an ask ended.
fn put_ending(page: &mut Page, outcome: &Outcome) -> Result<(), AllocError>
    ensures { OnOk result (page.new ≡ page.old ++ ending_text outcome.now) }
{
    match outcome {
        Outcome::Granted { generation } => {
            page.put(b" granted")?;
            page.number(*generation)
        }
        Outcome::Refused { cause } => {
            page.put(b" refused")?;
            put_cause(page, cause)
        }
        Outcome::Stale { done } => {
            page.put(b" stale")?;
            page.number(*done)
        }
        Outcome::Freed { generation } => {
            page.put(b" freed")?;
            page.number(*generation)
        }
    }
}

fn put_cause(page: &mut Page, cause: &Cause) -> Result<(), AllocError>
    ensures { OnOk result (page.new ≡ page.old ++ cause_text cause.now) }
{
    match cause {
        Cause::NoList => page.put(b" nolist"),
        Cause::TooFew { have, need } => put_two(page, b" toofew", *have, *need),
        Cause::ListFull { longest, need } => put_two(page, b" listfull", *longest, *need),
        Cause::CannotHold { addr, len } => page.word_range(b" cannothold", *addr, *len),
        Cause::Denied {
            validator,
            limit,
            total,
        } => {
            page.put(b" denied ")?;
            put_two(page, validator.as_bytes(), *limit, *total)
        }
        Cause::MapFailed {
            participant,
            call,
            addr,
            got,
        } => {
            put_two(page, b" mapfailed", u64::from(*participant), *call)?;
            page.address(*addr)?;
            put_got(page, got)
        }
        Cause::Late {
            participant,
            from,
            to,
        } => {
            page.put(b" late")?;
            page.number(u64::from(*participant))?;
            page.number(*from)?;
            page.number(*to)
        }
        Cause::Withdrawn { from, to } => put_two(page, b" withdrawn", *from, *to),
    }
}

// A word and two numbers.
fn put_two(page: &mut Page, word: &[u8], first: u64, second: u64) -> Result<(), AllocError>
    ensures { OnOk result (page.new ≡ page.old ++ (word.now ++ number_text first ++ number_text second)) }
{
    page.put(word)?;
    page.number(first)?;
    page.number(second)
}

// What a mapping answered in place of the row's place.
fn put_got(page: &mut Page, got: &MapAnswer) -> Result<(), AllocError>
    ensures { OnOk result (page.new ≡ page.old ++ got_text got.now) }
{
    match got {
        MapAnswer::Refused => page.put(b" refused"),
        MapAnswer::At {
            addr,
            page: size,
            socket,
        } => {
            page.address(*addr)?;
            page.number(*size)?;
            page.number(u64::from(*socket))
        }
    }
}
