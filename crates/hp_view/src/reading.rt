//! The lines of a report.
ghost use Rattle.std.specs.Prelude.{◌≡◌, ◌<◌, ◌+◌, ◌^◌, ◌==◌, ◌++◌, ◌∷◌, [], length, position, IfOk, IfSome, MatchResult, OnOk};
ghost use Rattle.hp_view.specs.Form.{line_of};
ghost use Rattle.hp_view.specs.Reading.{parts_of, reading, reading_from, IsFormFault};
ghost use Rattle.hp_view.specs.declared.reading.FormFault.TheVariants.{OutOfMemory};

use crate::form::{are_printable, form_of, read_fields};
use crate::line::Line;
use crate::word::Word;
use std::alloc::{AllocError, Global};

/// The first line of a report.
const FIRST: &[u8] = b"heapsim report 1";

/// Why an input is no report.
#[derive(Clone, Copy)]
pub enum FormFault {
    /// The line with this number, from 1, is the first that is none of a report at its place, or is not there.
    Bad { line: u32 },
    /// Memory ran out.
    OutOfMemory,
}

impl From<AllocError> for FormFault {
    ghost use Rattle.std.specs.Prelude.{◌≡◌};

    ghost from_gives = { λ _ fault. fault ≡ OutOfMemory };

    fn from(_e: AllocError) -> FormFault {
        FormFault::OutOfMemory
    }
}

/// What the picture takes of each line of a report but the first and the last, or the first line that is none of a report.
pub fn read_report<'a>(alloc: Global, input: &'a [u8]) -> Result<Vec<Line<'a>>, FormFault>
    requires { length input.now < 2 ^ 31 }
    ensures { MatchResult result (λ lines. reading input.entry.now ≡ Ok lines.items) (IsFormFault (reading input.entry.now)) }
{
    match newline_at(input) {
        Some(n) => {
            if Word::new(&input[..n]).is(FIRST) {
                read_lines(alloc, &input[n + 1..])
            } else {
                Err(FormFault::Bad { line: 1 })
            }
        }
        None => Err(FormFault::Bad { line: 1 }),
    }
}

// The lines after the first one.
fn read_lines<'a>(alloc: Global, input: &'a [u8]) -> Result<Vec<Line<'a>>, FormFault>
    requires { length input.now + 1 < 2 ^ 31 }
    ensures { MatchResult result (λ lines. reading_from 2 (parts_of input.entry.now) ≡ Ok lines.items)
        (IsFormFault (reading_from 2 (parts_of input.entry.now))) }
{
    let mut lines = Vec::new(alloc);
    let mut fields = Vec::new(alloc);
    let mut number = 2;
    let mut rest = input;
    while let Some(n) = newline_at(rest) {
        let Some(line) = read_line(&mut fields, &rest[..n])? else {
            return Err(FormFault::Bad { line: number });
        };
        number += 1;
        rest = &rest[n + 1..];
        if line.is_end() {
            if rest.is_empty() {
                return Ok(lines);
            }
            return Err(FormFault::Bad { line: number });
        }
        push_line(&mut lines, line)?;
    }
    Err(FormFault::Bad { line: number })
}

// What the picture takes of a line, where it is of one of the forms. Its fields are left in the buffer.
fn read_line<'a>(fields: &mut Vec<Word<'a>>, text: &'a [u8]) -> Result<Option<Line<'a>>, AllocError>
    ensures { IfOk result (λ line. line ≡ line_of text.entry.now) }
{
    if !are_printable(text) {
        return Ok(None);
    }
    read_fields(fields, text)?;
    Ok(form_of(text, fields.as_slice()))
}

fn push_line<'a>(lines: &mut Vec<Line<'a>>, line: Line<'a>) -> Result<(), AllocError>
    ensures { OnOk result (lines.new.items ≡ lines.old.items ++ line.entry ∷ []) }
{
    lines.push(line)?;
    Ok(())
}

// The index of the first newline.
fn newline_at(text: &[u8]) -> Option<usize>
    ensures place { result ≡ position (λ byte. byte == 10) text.now }
    ensures within { IfSome result (λ n. n < length text.now) }
{
    text.iter().position(|byte| *byte == b'\n')
}
