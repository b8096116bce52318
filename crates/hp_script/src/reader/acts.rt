//! What participant lines add.

ghost use Rattle.std.specs.Prelude.{◌≡◌, ◌<◌, is_none};
ghost use Rattle.std.specs.Option.{option_map};
ghost use Rattle.hp_script.specs.Known.{known};
ghost use Rattle.hp_script.specs.ShapeWords.Acts.{label_made, label_used, is_duplicate, is_unknown};

use crate::bad_kind::BadKind;
use crate::judge::refuse;
use crate::line::{Act, Line};
use crate::line_fault::LineFault;
use crate::makers::KnownMakers;
use crate::reader::Reader;
use crate::token::Token;
use hp_base::MAX_LINES;

impl<'a> Reader<'a> {
    ghost use Rattle.hp_script.specs.ShapeWords.Acts.{add_act, add_await, add_line};
    ghost use Rattle.hp_script.specs.Reading.{Steps};

    #[tactic(auto, unfolding(crate::specs::ShapeWords::Acts::add_act))]
    pub(crate) fn add_act(
        &mut self,
        makers: &KnownMakers<'a>,
        number: u32,
        party: u64,
        act: Act<'a>,
    ) -> Result<(), LineFault>
        ensures { Steps result self.new (add_act (known makers.now) self.old number party act.entry) }
    {
        refuse(is_duplicate(makers, number, &act), BadKind::Duplicate)?;
        refuse(self.is_strange(party), BadKind::Unknown)?;
        let maker = maker_used(makers, &act);
        refuse(maker.is_none(), BadKind::Unknown)?;
        let mut act = act;
        note_maker(&mut act, u32::try_from(maker.unwrap_or(0)).unwrap_or(0));
        self.add_line(number, party, act)
    }

    #[tactic(auto, unfolding(crate::specs::ShapeWords::Acts::add_await))]
    pub(crate) fn add_await(
        &mut self,
        number: u32,
        party: u64,
        other: u64,
        lines: u64,
    ) -> Result<(), LineFault>
        ensures { Steps result self.new (add_await self.old number party other lines) }
    {
        refuse(self.is_strange(party), BadKind::Unknown)?;
        refuse(self.is_strange(other), BadKind::Unknown)?;
        let other = other as u8;
        let before = self.lines.lines_by(other);
        refuse(lines > u64::from(before), BadKind::Ahead)?;
        let act = Act::Await {
            other,
            lines: lines as u32,
        };
        self.add_line(number, party, act)
    }

    #[tactic(auto, unfolding(crate::specs::ShapeWords::Acts::add_line))]
    fn add_line(&mut self, number: u32, party: u64, act: Act<'a>) -> Result<(), LineFault>
        requires { party < 16 }
        ensures { Steps result self.new (add_line self.old number party act.entry) }
    {
        refuse(self.lines.len() >= MAX_LINES, BadKind::Limit)?;
        self.lines.push(Line {
            line: number,
            participant: party as u8,
            act,
        })?;
        Ok(())
    }
}

// The label that an act makes.
fn label_made<'a, 'b>(act: &'b Act<'a>) -> Option<&'b Token<'a>>
    ensures { option_map (λ label. label.now) result ≡ label_made act.now }
{
    match act {
        Act::Alloc { label, .. } => Some(label),
        _ => None,
    }
}

// The label or name that an act frees or resizes.
fn label_used<'a, 'b>(act: &'b Act<'a>) -> Option<&'b Token<'a>>
    ensures { option_map (λ label. label.now) result ≡ label_used act.now }
{
    match act {
        Act::Free { label } => Some(label),
        Act::Resize { label, .. } => Some(label),
        _ => None,
    }
}

fn is_duplicate(makers: &KnownMakers, number: u32, act: &Act) -> bool
    ensures { result ≡ is_duplicate (known makers.now) number act.now }
{
    match label_made(act) {
        None => false,
        Some(label) => makers.is_taken(number, label.as_bytes()),
    }
}

// The number of a line that makes what an act frees or resizes, 0 where the act does neither. It is none where no line makes it.
fn maker_used(makers: &KnownMakers, act: &Act) -> Option<usize>
    ensures { is_none result ≡ is_unknown (known makers.now) act.now }
{
    match label_used(act) {
        None => Some(0),
        Some(label) => makers.maker_of(label.as_bytes()),
    }
}

// Notes that number at what an act frees or resizes.
fn note_maker(act: &mut Act, maker: u32)
    ensures { act.new ≡ act.old }
{
    match act {
        Act::Free { label } => label.note_maker(maker),
        Act::Resize { label, .. } => label.note_maker(maker),
        _ => {}
    }
}
