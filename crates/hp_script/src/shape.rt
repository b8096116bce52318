ghost use Rattle.std.specs.Prelude.{◌≡◌, slice_index};
ghost use Rattle.std.specs.Char.{is_ascii_digit};
ghost use Rattle.hp_script.specs.ShapeWords.Shapes.{shape_of, participant_line, setup_line, act_line, setup_act};

mod heaps;
mod members;
mod memory;
mod setup_lines;

use crate::bad_kind::BadKind;
use crate::deadline::Deadline;
use crate::line::Act;
use crate::party_count::PartyCount;
use crate::token::Token;
use crate::verb::{SetupVerb, Verb, setup_named, verb_named};
use hp_base::{MsgKind, PoolLine};

/// What a line says by its fields alone.
#[derive(Drop)]
pub enum Shape<'a> {
    /// A setup line.
    Setup { setup: Setup },
    /// A participant does something. Whether there is such a participant is not judged yet.
    Does { party: u64, act: Act<'a> },
    /// A participant awaits the first lines of another.
    Awaits { party: u64, other: u64, lines: u64 },
}

/// What a setup line says.
#[derive(Clone, Copy, Drop)]
pub enum Setup {
    Participants {
        count: PartyCount,
    },
    Absent {
        party: u8,
    },
    Socket {
        party: u64,
        socket: u32,
    },
    Deadline {
        deadline: Deadline,
    },
    Pool {
        pool: PoolLine,
    },
    Message {
        kind: MsgKind,
        party: u64,
        k: u64,
        twice: bool,
    },
    Mapping {
        party: u64,
        call: u64,
        elsewhere: bool,
    },
}

/// What a line that is not skipped says by its fields, or its first refusal by them.
pub fn shape_of<'a>(fields: &[Token<'a>]) -> Result<Shape<'a>, BadKind>
    ensures { result ≡ shape_of fields.now }
{
    match fields {
        [] => Err(BadKind::Fields),
        [first, others @ ..] => {
            if is_participant_line(first.as_bytes()) {
                participant_line(first, others)
            } else {
                setup_line(first, others)
            }
        }
    }
}

/// Whether a line that begins with a field of these bytes is a participant line.
pub fn is_participant_line(first: &[u8]) -> bool
    ensures { result ≡ is_ascii_digit (slice_index first.now 0) }
{
    match first.first() {
        None => false,
        Some(byte) => byte.is_ascii_digit(),
    }
}

#[tactic(auto, unfolding(crate::specs::ShapeWords::Shapes::participant_line))]
fn participant_line<'a>(party: &Token<'a>, others: &[Token<'a>]) -> Result<Shape<'a>, BadKind>
    ensures { result ≡ participant_line party.now others.now }
{
    match others {
        [] => Err(BadKind::Fields),
        [word, arguments @ ..] => {
            let verb = verb_named(word).ok_or(BadKind::Verb)?;
            act_line(verb, party, arguments)
        }
    }
}

fn act_line<'a>(
    verb: Verb,
    party: &Token<'a>,
    arguments: &[Token<'a>],
) -> Result<Shape<'a>, BadKind>
    ensures { result ≡ act_line verb party.now arguments.now }
{
    match verb {
        Verb::Alloc => memory::alloc_line(party, arguments),
        Verb::Zone => memory::zone_line(party, arguments),
        Verb::Resize => memory::resize_line(party, arguments),
        Verb::Name { call } => heaps::name_line(call, party, arguments),
        Verb::Member { call } => members::member_line(call, party, arguments),
        Verb::Add => heaps::add_line(party, arguments),
        Verb::Range { call } => heaps::range_line(call, party, arguments),
        Verb::Limit => members::limit_line(party, arguments),
        Verb::Unlimit => members::unlimit_line(party, arguments),
        Verb::Await => members::await_line(party, arguments),
    }
}

#[tactic(auto, unfolding(crate::specs::ShapeWords::Shapes::setup_line))]
fn setup_line<'a>(word: &Token<'a>, arguments: &[Token<'a>]) -> Result<Shape<'a>, BadKind>
    ensures { result ≡ setup_line word.now arguments.now }
{
    let verb = setup_named(word).ok_or(BadKind::Verb)?;
    let setup = setup_act(verb, arguments)?;
    Ok(Shape::Setup { setup })
}

fn setup_act(verb: SetupVerb, arguments: &[Token]) -> Result<Setup, BadKind>
    ensures { result ≡ setup_act verb arguments.now }
{
    match verb {
        SetupVerb::Participants => setup_lines::participants_line(arguments),
        SetupVerb::Absent => setup_lines::absent_line(arguments),
        SetupVerb::Socket => setup_lines::socket_line(arguments),
        SetupVerb::Deadline => setup_lines::deadline_line(arguments),
        SetupVerb::Pool => setup_lines::pool_line(arguments),
        SetupVerb::Message { twice } => setup_lines::message_line(twice, arguments),
        SetupVerb::Mapping { elsewhere } => setup_lines::mapping_line(elsewhere, arguments),
    }
}
