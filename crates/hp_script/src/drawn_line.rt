//! The lines that the generator draws, and their text.

ghost use Rattle.std.specs.Prelude.{◌≡◌, ◌++◌, codes, OnOk};
ghost use Rattle.std.specs.Fmt.{decimal};
ghost use Rattle.hp_script.specs.DrawnWords.GeneratedText.{drawn_act_text, drawn_line_text};

use itoa::Buffer;
use std::alloc::AllocError;

/// What a participant does in a drawn line. Its label is named by the number of the line that makes it.
#[derive(Clone, Copy)]
pub enum DrawnAct {
    Alloc { label: u32, size: u64, socket: u64 },
    Free { label: u32 },
    Resize { label: u32, size: u64 },
}

/// A line that the generator draws.
#[derive(Clone, Copy)]
pub struct DrawnLine {
    pub participant: u64,
    pub act: DrawnAct,
}

/// Adds the text of a line.
pub fn put_line(text: &mut Vec<u8>, line: DrawnLine) -> Result<(), AllocError>
    ensures { OnOk result (text.new.items ≡ text.old.items ++ drawn_line_text line) }
{
    put_number(text, line.participant)?;
    put_act(text, line.act)?;
    text.push(b'\n')?;
    Ok(())
}

// Adds the text of what a participant does.
fn put_act(text: &mut Vec<u8>, act: DrawnAct) -> Result<(), AllocError>
    ensures { OnOk result (text.new.items ≡ text.old.items ++ drawn_act_text act) }
{
    match act {
        DrawnAct::Alloc {
            label,
            size,
            socket,
        } => put_alloc(text, label, size, socket),
        DrawnAct::Free { label } => {
            text.extend_from_slice(b" free l")?;
            put_number(text, u64::from(label))
        }
        DrawnAct::Resize { label, size } => {
            text.extend_from_slice(b" resize l")?;
            put_number(text, u64::from(label))?;
            text.push(b' ')?;
            put_number(text, size)
        }
    }
}

fn put_alloc(text: &mut Vec<u8>, label: u32, size: u64, socket: u64) -> Result<(), AllocError>
    ensures { OnOk result (text.new.items ≡ text.old.items ++ drawn_act_text (DrawnAct.Alloc label size socket)) }
{
    text.extend_from_slice(b" alloc l")?;
    put_number(text, u64::from(label))?;
    text.push(b' ')?;
    put_number(text, size)?;
    text.extend_from_slice(b" socket=")?;
    put_number(text, socket)
}

// Adds the digits of a number. Participants and sockets have one.
#[tactic(auto, using(std::proofs::lemmas::Fmt::decimal_digit))]
fn put_number(text: &mut Vec<u8>, n: u64) -> Result<(), AllocError>
    ensures { OnOk result (text.new.items ≡ text.old.items ++ decimal n) }
{
    if n < 10 {
        text.push(48 + n as u8)?;
        return Ok(());
    }
    put_digits(text, n)
}

// Adds the digits of a number of any length.
fn put_digits(text: &mut Vec<u8>, n: u64) -> Result<(), AllocError>
    ensures { OnOk result (text.new.items ≡ text.old.items ++ decimal n) }
{
    let mut buffer = Buffer::new();
    text.extend_from_slice(buffer.format(n).as_bytes())
}
