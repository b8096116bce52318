//! The lines that make labels and memzone names.

ghost use Rattle.std.specs.Prelude.{◌≡◌};
ghost use Rattle.std.specs.Option.{option_map};
ghost use Rattle.hp_script.specs.Labels.{has_label, name_made, makes_name, maker_of};
ghost use Rattle.hp_script.specs.Limits.{AreParticipantLines};

use crate::line::{Act, Line};
use crate::token::Token;

/// The line that makes a label or a memzone's name, among the lines of a workload: the `alloc` line that has the label, or
/// the first `zone` line that has the name. Its participant allocates the element, and its number is the element's. It
/// goes over the lines. Own.
pub fn maker_of<'b, 'a>(lines: &'b [Line<'a>], name: &[u8]) -> Option<&'b Line<'a>>
    ensures { option_map (λ line. line.now) result ≡ maker_of lines.now name.now }
{
    lines.iter().find(|line| makes_name(name, *line))
}

/// The same of a label that a line of these uses. The reader noted the line that makes it, which is looked at first; the lines are gone
/// over where it is a memzone's. Own.
pub fn maker_near<'b, 'a>(lines: &'b [Line<'a>], label: &Token<'_>) -> Option<&'b Line<'a>>
    requires { AreParticipantLines lines.now }
    ensures { option_map (λ line. line.now) result ≡ maker_of lines.now label.now.text }
{
    let place = place_near(lines, label.noted_maker());
    if let Some(line) = lines.get(place) {
        if has_label(label.as_bytes(), line) {
            return Some(line);
        }
    }
    maker_of(lines, label.as_bytes())
}

// Where the line of a number stands among lines by rising numbers: at once where none is left out between the first and it.
fn place_near(lines: &[Line], number: u32) -> usize {
    let Some(first) = lines.first() else {
        return 0;
    };
    let place = number.saturating_sub(first.line) as usize;
    match lines.get(place) {
        Some(line) if line.line == number => place,
        _ => lines.partition_point(|line| line.line < number),
    }
}

// Whether a line makes a label, which is this one.
fn has_label(name: &[u8], line: &Line) -> bool
    ensures { result ≡ has_label name.now line.now }
{
    match &line.act {
        Act::Alloc { label, .. } => label.is(name),
        _ => false,
    }
}

fn makes_name(name: &[u8], line: &Line) -> bool
    ensures { result ≡ makes_name name.now line.now }
{
    match name_made(&line.act) {
        None => false,
        Some(made) => made.is(name),
    }
}

/// What an act makes.
pub(crate) fn name_made<'a, 'b>(act: &'b Act<'a>) -> Option<&'b Token<'a>>
    ensures { option_map (λ name. name.now) result ≡ name_made act.now }
{
    match act {
        Act::Alloc { label, .. } => Some(label),
        Act::Zone { name, .. } => Some(name),
        _ => None,
    }
}
