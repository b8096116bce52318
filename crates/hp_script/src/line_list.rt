use crate::line::Line;
use std::alloc::{AllocError, Global};
use std::marker::Model;

/// The participant lines so far, in their order.
#[derive(Drop)]
pub struct LineList<'a> {
    lines: Vec<Line<'a>>,
    // The lines of each participant.
    counts: [u32; 16],
}

impl<'a> Model for LineList<'a> {
    ghost use Rattle.std.specs.Prelude.{◌≡◌, ◌≤◌, List, length};
    ghost use Rattle.hp_script.specs.declared.line.Line.{Line};
    ghost use Rattle.hp_script.specs.Counts.{AreCounts};

    ghost Value = { List Line };

    ghost view = { λ a. a.lines.items };

    ghost invariant = { λ a. AreCounts a.counts a.lines.items × (length a.lines.items ≤ 20000) };
}

impl<'a> LineList<'a> {
    ghost use Rattle.std.specs.Prelude.{◌≡◌, ◌<◌, ◌≤◌, ◌+◌, ◌++◌, ◌∷◌, [], length, if◌then◌else◌, is_ok};
    ghost use Rattle.hp_script.specs.Counts.{lines_by};

    /// No line.
    pub fn new(alloc: Global) -> LineList<'a>
        ensures { result ≡ [] }
    {
        LineList {
            lines: Vec::new(alloc),
            counts: [0; 16],
        }
    }

    /// The number of lines.
    pub fn len(&self) -> usize
        ensures { result ≡ length self.now }
    {
        self.lines.len()
    }

    /// The number of lines of a participant.
    pub fn lines_by(&self, party: u8) -> u32
        requires { party < 16 }
        ensures { result ≡ lines_by party self.now }
    {
        self.counts[party as usize]
    }

    /// Adds a line.
    pub fn push(&mut self, line: Line<'a>) -> Result<(), AllocError>
        requires party { line.participant < 16 }
        requires room { length self.old < 20000 }
        ensures { self.new ≡ (if is_ok result then self.old ++ line.entry ∷ [] else self.old) }
    {
        let party = line.participant as usize;
        self.lines.push(line)?;
        self.counts[party] += 1;
        Ok(())
    }

    /// The lines.
    pub fn into_lines(self) -> Vec<Line<'a>>
        ensures lines { result.items ≡ self.entry }
        ensures few { length result.items ≤ 20000 }
    {
        let LineList { lines, counts: _ } = self;
        lines
    }
}
