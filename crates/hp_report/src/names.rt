ghost use Rattle.std.specs.Prelude.{◌≡◌, ◌==◌, ℕ, OnOk, cond};
ghost use Rattle.hp_report.specs.Names.{act_name};
ghost use Rattle.hp_report.specs.KnownNames.{kept_at};

use hp_base::Tag;
use hp_script::{Act, Line};
use std::alloc::{AllocError, Global};

/// The names of a workload's allocations and memzones, by the number of their line. Own.
#[derive(Drop)]
pub struct Names<'a> {
    // Empty where no line has the number, or one that gives no name.
    names: Vec<&'a [u8]>,
}

impl<'a> Names<'a> {
    ghost use Rattle.std.specs.Prelude.{◌≡◌, IfOk};
    ghost use Rattle.hp_report.specs.Names.{act_name, name_at};
    ghost use Rattle.hp_report.specs.KnownNames.{known};

    /// The names that these lines give.
    pub fn new(alloc: Global, lines: &'a [Line<'a>]) -> Result<Names<'a>, AllocError>
        ensures { IfOk result (λ names. known names ≡ name_at lines.entry.now) }
    {
        let mut names = Vec::new(alloc);
        // From the last line on, so that the first line of a number is the one that stays.
        let mut left = lines.len();
        while left > 0 {
            left -= 1;
            let line = &lines[left];
            keep(&mut names, line.line, act_name(&line.act))?;
        }
        Ok(Names { names })
    }

    /// The name that a tag stands for, which is empty where no line has its number.
    pub fn of(&self, tag: Tag) -> &'a [u8]
        ensures { result.now ≡ known self.now tag.number }
    {
        let number = tag.number as usize;
        if number < self.names.len() {
            self.names[number]
        } else {
            b""
        }
    }
}

// Keeps a name at a number, in place of another.
fn keep<'a>(names: &mut Vec<&'a [u8]>, number: u32, name: &'a [u8]) -> Result<(), AllocError>
    ensures { OnOk result ((k : ℕ) → kept_at names.new.items k ≡ cond (number == k) name.now (kept_at names.old.items k)) }
{
    let place = number as usize;
    if place >= names.len() {
        names.resize(place + 1, b"")?;
    }
    names[place] = name;
    Ok(())
}

// The name that a call gives.
fn act_name<'a>(act: &Act<'a>) -> &'a [u8]
    ensures { result.now ≡ act_name act.now }
{
    match act {
        Act::Alloc { label: name, .. } | Act::Zone { name, .. } => name.as_bytes(),
        _ => b"",
    }
}
