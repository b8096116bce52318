ghost use Rattle.std.specs.Prelude.{◌≡◌, ◌||◌, Some, None, if◌then◌else◌, codes};
ghost use Rattle.hp_script.specs.Made.{label_in, zone_in};
ghost use Rattle.hp_script.specs.Makers.{made_by};
ghost use Rattle.hp_script.specs.Part.{is_word};
ghost use Rattle.hp_script.specs.Text.{fields_of};

use crate::fields_left::FieldsLeft;
use crate::piece::Piece;
use crate::text::is_call;

/// The name that a line makes.
#[derive(Drop)]
pub enum Made<'a> {
    /// The label of an allocation.
    Label { name: Piece<'a> },
    /// The name of a memzone.
    Zone { name: Piece<'a> },
}

/// What a line makes, by its first three fields. It takes no memory, and looks at no more than the first byte of lines that no participant
/// does, and at the first two fields of those with another verb.
#[tactic(auto, using(crate::proofs::MakerLemmas::no_call_makes, crate::proofs::MakerLemmas::no_verb_makes))]
pub fn made_in<'a>(line: &Piece<'a>) -> Option<Made<'a>>
    ensures label { label_in result ≡ made_by (codes "alloc") (fields_of line.now) }
    ensures zone { zone_in result ≡ made_by (codes "zone") (fields_of line.now) }
{
    if !is_call(line) {
        return None;
    }
    let mut fields = FieldsLeft::of(line);
    let _party = fields.take()?;
    let word = fields.take()?;
    if !makes_names(&word) {
        return None;
    }
    let name = fields.take()?;
    made_with(&word, name)
}

// Whether participant lines with this verb make names.
fn makes_names(word: &Piece) -> bool
    ensures { result ≡ (is_word (codes "alloc") word.now || is_word (codes "zone") word.now) }
{
    word.is(b"alloc") || word.is(b"zone")
}

// What a participant line makes by a verb and the field after it.
fn made_with<'a>(word: &Piece, name: Piece<'a>) -> Option<Made<'a>>
    ensures label { label_in result ≡ (if is_word (codes "alloc") word.now then Some name.entry.text else None) }
    ensures zone { zone_in result ≡ (if is_word (codes "zone") word.now then Some name.entry.text else None) }
{
    if word.is(b"alloc") {
        Some(Made::Label { name })
    } else if word.is(b"zone") {
        Some(Made::Zone { name })
    } else {
        None
    }
}
