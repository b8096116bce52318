//! The fields of the lines that join and leave, of those that limit a socket, and of those that wait.

ghost use Rattle.std.specs.Prelude.{◌≡◌};
ghost use Rattle.hp_script.specs.ShapeWords.ShapesMembers.{member_act, member_line, is_allow, limit_line, unlimit_line, await_line};

use crate::bad_kind::BadKind;
use crate::judge::{is_within, number_field, party_field, refuse};
use crate::line::Act;
use crate::shape::Shape;
use crate::token::Token;
use crate::verb::MemberCall;

fn member_act<'a>(call: MemberCall) -> Act<'a>
    ensures { result ≡ member_act call }
{
    match call {
        MemberCall::Attach => Act::Attach,
        MemberCall::Detach => Act::Detach,
    }
}

#[tactic(auto, unfolding(crate::specs::ShapeWords::ShapesMembers::member_line))]
pub fn member_line<'a>(
    call: MemberCall,
    party: &Token<'a>,
    arguments: &[Token<'a>],
) -> Result<Shape<'a>, BadKind>
    ensures { result ≡ member_line call party.now arguments.now }
{
    let [] = arguments else {
        return Err(BadKind::Fields);
    };
    let party = party_field(party)?;
    refuse(!is_within(1, 15, party), BadKind::Range)?;
    let act = member_act(call);
    Ok(Shape::Does { party, act })
}

// The word after a limit: none, or `allow`.
fn is_allow(words: &[Token]) -> Result<bool, BadKind>
    ensures { result ≡ is_allow words.now }
{
    match words {
        [] => Ok(false),
        [word, ..] => {
            if word.is(b"allow") {
                Ok(true)
            } else {
                Err(BadKind::Option)
            }
        }
    }
}

#[tactic(auto, unfolding(crate::specs::ShapeWords::ShapesMembers::limit_line))]
pub fn limit_line<'a>(party: &Token<'a>, arguments: &[Token<'a>]) -> Result<Shape<'a>, BadKind>
    ensures { result ≡ limit_line party.now arguments.now }
{
    let [name, socket, bytes, words @ ..] = arguments else {
        return Err(BadKind::Fields);
    };
    refuse(words.len() > 1, BadKind::Fields)?;
    let party = party_field(party)?;
    let socket = number_field(socket)?;
    let bytes = number_field(bytes)?;
    refuse(party > 0, BadKind::Range)?;
    refuse(socket > 31, BadKind::Range)?;
    let allow = is_allow(words)?;
    let act = Act::Limit {
        name: name.again(),
        socket: socket as u32,
        bytes,
        allow,
    };
    Ok(Shape::Does { party, act })
}

#[tactic(auto, unfolding(crate::specs::ShapeWords::ShapesMembers::unlimit_line))]
pub fn unlimit_line<'a>(party: &Token<'a>, arguments: &[Token<'a>]) -> Result<Shape<'a>, BadKind>
    ensures { result ≡ unlimit_line party.now arguments.now }
{
    let [name, socket] = arguments else {
        return Err(BadKind::Fields);
    };
    let party = party_field(party)?;
    let socket = number_field(socket)?;
    refuse(party > 0, BadKind::Range)?;
    refuse(socket > 31, BadKind::Range)?;
    let act = Act::Unlimit {
        name: name.again(),
        socket: socket as u32,
    };
    Ok(Shape::Does { party, act })
}

#[tactic(auto, unfolding(crate::specs::ShapeWords::ShapesMembers::await_line))]
pub fn await_line<'a>(party: &Token<'a>, arguments: &[Token<'a>]) -> Result<Shape<'a>, BadKind>
    ensures { result ≡ await_line party.now arguments.now }
{
    let [other, lines] = arguments else {
        return Err(BadKind::Fields);
    };
    let party = party_field(party)?;
    let other = party_field(other)?;
    let lines = number_field(lines)?;
    refuse(lines < 1, BadKind::Range)?;
    Ok(Shape::Awaits {
        party,
        other,
        lines,
    })
}
