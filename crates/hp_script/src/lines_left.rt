use crate::piece::Piece;
use crate::text::{Separator, cut, without_return};
use std::marker::Model;

/// The lines of a text that are not taken yet, in their order. It takes no memory.
#[derive(Drop)]
pub struct LinesLeft<'a> {
    rest: Option<Piece<'a>>,
}

impl<'a> Model for LinesLeft<'a> {
    ghost use Rattle.std.specs.Prelude.{List, map};
    ghost use Rattle.hp_script.specs.Part.{Part};
    ghost use Rattle.hp_script.specs.Text.{parts_left, without_return};
    ghost use Rattle.hp_script.specs.declared.text.Separator.TheVariants.{Newline};

    ghost Value = { List Part };

    ghost view = { λ a. map without_return (parts_left Newline a.rest) };
}

impl<'a> LinesLeft<'a> {
    ghost use Rattle.std.specs.Prelude.{◌≡◌, ◌∷◌, ◌+◌, ◌<◌, ◌≤◌, ◌^◌, [], length, IfSome, IfNone};
    ghost use Rattle.hp_script.specs.Text.{lines_of};

    /// All lines of a text, one more than it has newlines.
    #[tactic(auto, unfolding(crate::specs::Text::lines_of))]
    pub fn of(bytes: &'a [u8]) -> LinesLeft<'a>
        requires { length bytes.now < 2 ^ 32 }
        ensures all { result ≡ lines_of bytes.entry }
        ensures few { length result ≤ length bytes.entry.now + 1 }
    {
        LinesLeft {
            rest: Some(Piece::new(0, bytes)),
        }
    }

    /// Takes the next line.
    pub fn take(&mut self) -> Option<Piece<'a>>
        ensures some { IfSome result (λ line. self.old ≡ line ∷ self.new) }
        ensures none { IfNone result ((self.old ≡ []) × (self.new ≡ [])) }
    {
        let text = self.rest.take()?;
        let (line, others) = cut(Separator::Newline, &text);
        self.rest = others;
        Some(without_return(&line))
    }
}
