//! The lines of an input.
ghost use Rattle.std.specs.Prelude.{◌≡◌, ◌<◌, ◌^◌, ◌==◌, ◌++◌, ◌∷◌, [], length, position, IfOk, IfSome, MatchResult, OnOk};
ghost use Rattle.hp_bytes.specs.Form.{line_of, reading, IsFormFault};
ghost use Rattle.hp_bytes.specs.declared.reading.FormFault.TheVariants.{OutOfMemory};

use crate::form::{form_of, read_fields};
use crate::line::Line;
use crate::word::Word;
use std::alloc::{AllocError, Global};

/// Why an input has no session.
#[derive(Clone, Copy)]
pub enum FormFault {
    /// The line with this number, from 1, is the first that is of no form.
    Bad { line: u32 },
    /// Memory ran out.
    OutOfMemory,
}

impl From<AllocError> for FormFault {
    ghost use Rattle.std.specs.Prelude.{◌≡◌};

    ghost from_gives = { λ _ fault. fault ≡ OutOfMemory };

    fn from(_e: AllocError) -> FormFault {
        FormFault::OutOfMemory
    }
}

/// The lines of an input, each of one of the forms and with a newline at its end; or the first that is not.
pub fn read_lines<'a>(alloc: Global, input: &'a [u8]) -> Result<Vec<Line<'a>>, FormFault>
    requires { length input.now < 2 ^ 31 }
    ensures { MatchResult result (λ lines. reading input.entry.now ≡ Ok lines.items) (IsFormFault (reading input.entry.now)) }
{
    let mut lines = Vec::new(alloc);
    let mut fields = Vec::new(alloc);
    let mut number = 1;
    let mut rest = input;
    while !rest.is_empty() {
        let Some(n) = newline_at(rest) else {
            return Err(FormFault::Bad { line: number });
        };
        let Some(line) = read_line(&mut fields, &rest[..n])? else {
            return Err(FormFault::Bad { line: number });
        };
        push_line(&mut lines, line)?;
        number += 1;
        rest = &rest[n + 1..];
    }
    Ok(lines)
}

// What a line asks for, where it is of one of the forms. Its fields are left in the buffer.
fn read_line<'a>(fields: &mut Vec<Word<'a>>, text: &'a [u8]) -> Result<Option<Line<'a>>, AllocError>
    ensures { IfOk result (λ line. line ≡ line_of text.entry.now) }
{
    read_fields(fields, text)?;
    Ok(form_of(fields.as_slice()))
}

fn push_line<'a>(lines: &mut Vec<Line<'a>>, line: Line<'a>) -> Result<(), AllocError>
    ensures { OnOk result (lines.new.items ≡ lines.old.items ++ line.entry ∷ []) }
{
    lines.push(line)?;
    Ok(())
}

// The index of the first newline.
fn newline_at(text: &[u8]) -> Option<usize>
    ensures place { result ≡ position (λ byte. byte == 10) text.now }
    ensures within { IfSome result (λ n. n < length text.now) }
{
    text.iter().position(|byte| *byte == b'\n')
}
