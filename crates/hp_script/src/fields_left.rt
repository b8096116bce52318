use crate::piece::Piece;
use crate::text::{Separator, cut};
use std::marker::Model;

/// The fields of a line that are not taken yet, in their order. It takes no memory.
#[derive(Drop)]
pub struct FieldsLeft<'a> {
    rest: Option<Piece<'a>>,
}

impl<'a> Model for FieldsLeft<'a> {
    ghost use Rattle.std.specs.Prelude.{List, filter};
    ghost use Rattle.hp_script.specs.Part.{Part};
    ghost use Rattle.hp_script.specs.Text.{is_filled, parts_left};
    ghost use Rattle.hp_script.specs.declared.text.Separator.TheVariants.{Blank};

    ghost Value = { List Part };

    ghost view = { λ a. filter is_filled (parts_left Blank a.rest) };
}

impl<'a> FieldsLeft<'a> {
    ghost use Rattle.std.specs.Prelude.{◌≡◌, ◌∷◌, [], IfSome, IfNone};
    ghost use Rattle.hp_script.specs.Text.{fields_of};

    /// All fields of a line.
    #[tactic(auto, unfolding(crate::specs::Text::fields_of))]
    pub fn of(line: &Piece<'a>) -> FieldsLeft<'a>
        ensures { result ≡ fields_of line.now }
    {
        FieldsLeft {
            rest: Some(line.again()),
        }
    }

    /// Takes the next field.
    pub fn take(&mut self) -> Option<Piece<'a>>
        ensures some { IfSome result (λ field. self.old ≡ field ∷ self.new) }
        ensures none { IfNone result ((self.old ≡ []) × (self.new ≡ [])) }
    {
        while let Some(text) = self.rest.take() {
            let (field, others) = cut(Separator::Blank, &text);
            self.rest = others;
            if !field.as_bytes().is_empty() {
                return Some(field);
            }
        }
        None
    }
}
