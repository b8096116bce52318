//! The fields of the lines that allocate.

ghost use Rattle.std.specs.Prelude.{◌≡◌};
ghost use Rattle.hp_script.specs.ShapeWords.ShapesMemory.{alloc_line, zone_line, resize_line};

use crate::bad_kind::BadKind;
use crate::given::options_of;
use crate::judge::{number_field, party_field, refuse};
use crate::line::Act;
use crate::shape::Shape;
use crate::token::Token;

#[tactic(auto, unfolding(crate::specs::ShapeWords::ShapesMemory::alloc_line))]
pub fn alloc_line<'a>(party: &Token<'a>, arguments: &[Token<'a>]) -> Result<Shape<'a>, BadKind>
    ensures { result ≡ alloc_line party.now arguments.now }
{
    let [label, size, options @ ..] = arguments else {
        return Err(BadKind::Fields);
    };
    let party = party_field(party)?;
    let size = number_field(size)?;
    let options = options_of(options).ok_or(BadKind::Option)?;
    let act = Act::Alloc {
        label: label.again(),
        size,
        options,
    };
    Ok(Shape::Does { party, act })
}

#[tactic(auto, unfolding(crate::specs::ShapeWords::ShapesMemory::zone_line))]
pub fn zone_line<'a>(party: &Token<'a>, arguments: &[Token<'a>]) -> Result<Shape<'a>, BadKind>
    ensures { result ≡ zone_line party.now arguments.now }
{
    let [name, len, options @ ..] = arguments else {
        return Err(BadKind::Fields);
    };
    let party = party_field(party)?;
    let len = number_field(len)?;
    refuse(len < 1, BadKind::Range)?;
    let options = options_of(options).ok_or(BadKind::Option)?;
    let act = Act::Zone {
        name: name.again(),
        len,
        options,
    };
    Ok(Shape::Does { party, act })
}

#[tactic(auto, unfolding(crate::specs::ShapeWords::ShapesMemory::resize_line))]
pub fn resize_line<'a>(party: &Token<'a>, arguments: &[Token<'a>]) -> Result<Shape<'a>, BadKind>
    ensures { result ≡ resize_line party.now arguments.now }
{
    let [label, size] = arguments else {
        return Err(BadKind::Fields);
    };
    let party = party_field(party)?;
    let size = number_field(size)?;
    let act = Act::Resize {
        label: label.again(),
        size,
    };
    Ok(Shape::Does { party, act })
}
