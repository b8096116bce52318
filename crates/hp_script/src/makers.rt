ghost use Rattle.std.specs.Prelude.{◌≡◌, ◌≤◌, length, codes, is_none, IfOk, OnOk};
ghost use Rattle.hp_script.specs.Made.{Notes};
ghost use Rattle.hp_script.specs.Makers.{makers_of, is_taken, is_unmade, is_earlier};

use crate::first_lines::FirstLines;
use crate::lines_left::LinesLeft;
use crate::made::{Made, made_in};
use crate::piece::Piece;
use std::alloc::{AllocError, Global};

/// The first lines that make each label, and those that make each memzone name.
#[derive(Drop)]
pub struct KnownMakers<'a> {
    pub allocs: FirstLines<'a>,
    pub zones: FirstLines<'a>,
}

impl<'a> KnownMakers<'a> {
    ghost use Rattle.hp_script.specs.Known.{known};

    /// The makers of a text with these lines. For labels, and for names of memzones, there are so many buckets.
    pub fn of(
        alloc: Global,
        room: usize,
        mut lines: LinesLeft<'a>,
    ) -> Result<KnownMakers<'a>, AllocError>
        requires { length lines ≤ 1048577 }
        ensures { IfOk result (λ makers. known makers ≡ makers_of lines.entry) }
    {
        let mut makers = KnownMakers {
            allocs: FirstLines::new(alloc, room),
            zones: FirstLines::new(alloc, room),
        };
        let mut number = 1;
        while let Some(line) = lines.take() {
            makers.note_line(&line, number)?;
            number += 1;
        }
        Ok(makers)
    }

    // Notes the number of a line at the name that it makes.
    fn note_line(&mut self, line: &Piece<'a>, number: usize) -> Result<(), AllocError>
        ensures allocs { OnOk result (Notes (codes "alloc") line.now number (known self.old).alloc_line (known self.new).alloc_line) }
        ensures zones { OnOk result (Notes (codes "zone") line.now number (known self.old).zone_line (known self.new).zone_line) }
    {
        match made_in(line) {
            None => Ok(()),
            Some(Made::Label { name }) => self.allocs.note(name.as_bytes(), number),
            Some(Made::Zone { name }) => self.zones.note(name.as_bytes(), number),
        }
    }

    /// Whether the label on this `alloc` line is taken: by an earlier one, or by any `zone` line.
    pub fn is_taken(&self, number: u32, label: &[u8]) -> bool
        ensures { result ≡ is_taken (known self.now) number label.now }
    {
        self.zones.line_of(label).is_some() || is_earlier(self.allocs.line_of(label), number)
    }

    /// The number of a line that makes the label or name: the `alloc` line that has it, or else the first `zone` line.
    pub fn maker_of(&self, label: &[u8]) -> Option<usize>
        ensures { is_none result ≡ is_unmade (known self.now) label.now }
    {
        match self.allocs.line_of(label) {
            Some(number) => Some(number),
            None => self.zones.line_of(label),
        }
    }
}

fn is_earlier(first: Option<usize>, number: u32) -> bool
    ensures { result ≡ is_earlier first number }
{
    match first {
        None => false,
        Some(first) => first < number as usize,
    }
}
