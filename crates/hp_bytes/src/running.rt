//! The answers to the lines of a session, as text.
ghost use Rattle.std.specs.Prelude.{◌≡◌, ◌<◌, ◌^◌, List, IfOk, OnOk, ◌++◌, codes, length, string_bytes};
ghost use Rattle.hp_bytes.specs.Answers.{answer_text};
ghost use Rattle.hp_bytes.specs.Running.{IsReplyText};

use crate::answer::Answer;
use crate::line::Line;
use crate::sessions::Session;
use std::alloc::{AllocError, Global};
use std::fmt::Write;

/// The answers to these lines, in order, each on a line of its own.
pub fn reply_text(alloc: Global, lines: &[Line<'_>]) -> Result<String, AllocError>
    requires { length lines.now < 2 ^ 31 }
    ensures { IfOk result (λ text. IsReplyText lines.now (string_bytes text)) }
{
    let mut session = Session::open(alloc, lines.len())?;
    let mut text = String::new(alloc);
    let mut number = 1;
    for line in lines {
        let answer = session.do_line(alloc, number, line)?;
        push_answer(&mut text, &answer)?;
        number += 1;
    }
    Ok(text)
}

// One answer more, on a line of its own.
fn push_answer(text: &mut String, answer: &Answer) -> Result<(), AllocError>
    ensures { OnOk result (string_bytes text.new ≡ string_bytes text.old ++ (answer_text answer.now ++ codes "\n")) }
{
    write!(text, "{answer}\n")
}
