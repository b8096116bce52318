//! The fields of the lines that take one name, and of those of external heaps.

ghost use Rattle.std.specs.Prelude.{◌≡◌};
ghost use Rattle.hp_script.specs.ShapeWords.ShapesHeaps.{name_act, name_line, range_act, range_line, add_line};

use crate::bad_kind::BadKind;
use crate::judge::{number_field, party_field};
use crate::line::Act;
use crate::shape::Shape;
use crate::token::Token;
use crate::verb::{NameCall, RangeCall};

fn name_act<'a>(call: NameCall, name: Token<'a>) -> Act<'a>
    ensures { result ≡ name_act call name.entry }
{
    match call {
        NameCall::Free => Act::Free { label: name },
        NameCall::Lookup => Act::Lookup { name },
        NameCall::Unzone => Act::Unzone { name },
        NameCall::Heap => Act::Heap { name },
        NameCall::Unheap => Act::Unheap { name },
        NameCall::Watch => Act::Watch { name },
        NameCall::Unwatch => Act::Unwatch { name },
        NameCall::Dump => Act::Dump { heap: name },
        NameCall::Stats => Act::Stats { heap: name },
    }
}

#[tactic(auto, unfolding(crate::specs::ShapeWords::ShapesHeaps::name_line))]
pub fn name_line<'a>(
    call: NameCall,
    party: &Token<'a>,
    arguments: &[Token<'a>],
) -> Result<Shape<'a>, BadKind>
    ensures { result ≡ name_line call party.now arguments.now }
{
    let [name] = arguments else {
        return Err(BadKind::Fields);
    };
    let party = party_field(party)?;
    let act = name_act(call, name.again());
    Ok(Shape::Does { party, act })
}

fn range_act<'a>(call: RangeCall, heap: Token<'a>, addr: u64, len: u64) -> Act<'a>
    ensures { result ≡ range_act call heap.entry addr len }
{
    match call {
        RangeCall::Remove => Act::Remove { heap, addr, len },
        RangeCall::Map => Act::Map { heap, addr, len },
        RangeCall::Unmap => Act::Unmap { heap, addr, len },
    }
}

#[tactic(auto, unfolding(crate::specs::ShapeWords::ShapesHeaps::range_line))]
pub fn range_line<'a>(
    call: RangeCall,
    party: &Token<'a>,
    arguments: &[Token<'a>],
) -> Result<Shape<'a>, BadKind>
    ensures { result ≡ range_line call party.now arguments.now }
{
    let [heap, addr, len] = arguments else {
        return Err(BadKind::Fields);
    };
    let party = party_field(party)?;
    let addr = number_field(addr)?;
    let len = number_field(len)?;
    let act = range_act(call, heap.again(), addr, len);
    Ok(Shape::Does { party, act })
}

#[tactic(auto, unfolding(crate::specs::ShapeWords::ShapesHeaps::add_line))]
pub fn add_line<'a>(party: &Token<'a>, arguments: &[Token<'a>]) -> Result<Shape<'a>, BadKind>
    ensures { result ≡ add_line party.now arguments.now }
{
    let [heap, addr, len, page] = arguments else {
        return Err(BadKind::Fields);
    };
    let party = party_field(party)?;
    let addr = number_field(addr)?;
    let len = number_field(len)?;
    let page = number_field(page)?;
    let act = Act::Add {
        heap: heap.again(),
        addr,
        len,
        page,
    };
    Ok(Shape::Does { party, act })
}
