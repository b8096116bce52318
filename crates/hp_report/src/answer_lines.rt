//! The lines of the report that answer a workload's lines.
ghost use Rattle.std.specs.Prelude.{◌≡◌, ◌++◌, OnOk};
ghost use Rattle.hp_script.specs.Answers.{answer_text, answer_numbers};
ghost use Rattle.hp_report.specs.LineTexts.{line_text};

use crate::lines::Lines;
use crate::page::Page;
use hp_script::{Answer, Line};
use std::alloc::AllocError;

/// Participant lines from one on, each with its answer.
#[derive(Drop)]
pub struct AnswerLines<'a> {
    pub lines: &'a [Line<'a>],
    pub answers: &'a [Answer],
    pub at: usize,
}

impl<'a> Lines for AnswerLines<'a> {
    ghost use Rattle.std.specs.Prelude.{◌-◌, drop, length};
    ghost use Rattle.hp_report.specs.LineTexts.{lines_text};

    ghost rest = { λ s. lines_text (drop s.at s.lines.now) (drop s.at s.answers.now) };

    ghost count = { λ s. length s.lines.now - s.at };

    fn next(&mut self, page: &mut Page) -> Result<bool, AllocError> {
        if self.at >= self.lines.len() || self.at >= self.answers.len() {
            return Ok(false);
        }
        put_line(page, &self.lines[self.at], &self.answers[self.at])?;
        self.at += 1;
        Ok(true)
    }
}

pub fn put_line(page: &mut Page, line: &Line<'_>, answer: &Answer) -> Result<(), AllocError>
    ensures { OnOk result (page.new ≡ page.old ++ line_text line.now answer.now) }
{
    page.put(b"line")?;
    page.number(u64::from(line.line))?;
    page.number(u64::from(line.participant))?;
    page.put(b" ")?;
    page.put(line.act.verb().as_bytes())?;
    page.put(b" ")?;
    put_answer(page, answer)?;
    page.put(b"\n")
}

pub fn put_answer(page: &mut Page, answer: &Answer) -> Result<(), AllocError>
    ensures { OnOk result (page.new ≡ page.old ++ answer_text answer.now) }
{
    page.put(answer.words().as_bytes())?;
    put_answer_numbers(page, answer)
}

// The numbers of an answer, each after a blank.
fn put_answer_numbers(page: &mut Page, answer: &Answer) -> Result<(), AllocError>
    ensures { OnOk result (page.new ≡ page.old ++ answer_numbers answer.now) }
{
    match answer {
        Answer::Address { addr }
        | Answer::BusyAddress { addr }
        | Answer::Overlaps { addr }
        | Answer::InUse { addr } => page.address(*addr),
        Answer::Found { addr, len } => page.range(*addr, *len),
        Answer::Records { records: n }
        | Answer::Refused { call: n }
        | Answer::BusyChunks { chunks: n } => page.number(*n),
        Answer::Socket { socket } => page.number(u64::from(*socket)),
        Answer::Attached { participant } => page.number(u64::from(*participant)),
        Answer::Statistics { stats } => page.statistics(stats),
        _ => Ok(()),
    }
}
