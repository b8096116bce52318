//! The fields of setup lines.

ghost use Rattle.std.specs.Prelude.{◌≡◌};
ghost use Rattle.hp_script.specs.ShapeWords.ShapesSetup.{participants_line, absent_line, socket_line, deadline_line, slots_field, pool_line, message_line, counted_line, mapping_line};

use crate::bad_kind::BadKind;
use crate::deadline::Deadline;
use crate::judge::{is_within, number_field, party_field, refuse};
use crate::party_count::PartyCount;
use crate::shape::Setup;
use crate::token::Token;
use crate::verb::kind_named;
use hp_base::{MAX_COUNT, MAX_DEADLINE, MAX_LIST_SEGMENTS, PoolLine, is_page_size};

#[tactic(auto, unfolding(crate::specs::ShapeWords::ShapesSetup::participants_line))]
pub fn participants_line(arguments: &[Token]) -> Result<Setup, BadKind>
    ensures { result ≡ participants_line arguments.now }
{
    let [count] = arguments else {
        return Err(BadKind::Fields);
    };
    let count = number_field(count)?;
    refuse(!is_within(1, 16, count), BadKind::Range)?;
    let count = PartyCount::new(count as u8);
    Ok(Setup::Participants { count })
}

#[tactic(auto, unfolding(crate::specs::ShapeWords::ShapesSetup::absent_line))]
pub fn absent_line(arguments: &[Token]) -> Result<Setup, BadKind>
    ensures { result ≡ absent_line arguments.now }
{
    let [party] = arguments else {
        return Err(BadKind::Fields);
    };
    let party = party_field(party)?;
    refuse(!is_within(1, 15, party), BadKind::Range)?;
    Ok(Setup::Absent { party: party as u8 })
}

#[tactic(auto, unfolding(crate::specs::ShapeWords::ShapesSetup::socket_line))]
pub fn socket_line(arguments: &[Token]) -> Result<Setup, BadKind>
    ensures { result ≡ socket_line arguments.now }
{
    let [party, socket] = arguments else {
        return Err(BadKind::Fields);
    };
    let party = party_field(party)?;
    let socket = number_field(socket)?;
    refuse(socket > 31, BadKind::Range)?;
    Ok(Setup::Socket {
        party,
        socket: socket as u32,
    })
}

#[tactic(auto, unfolding(crate::specs::ShapeWords::ShapesSetup::deadline_line))]
pub fn deadline_line(arguments: &[Token]) -> Result<Setup, BadKind>
    ensures { result ≡ deadline_line arguments.now }
{
    let [ms] = arguments else {
        return Err(BadKind::Fields);
    };
    let ms = number_field(ms)?;
    refuse(!is_within(1, MAX_DEADLINE, ms), BadKind::Range)?;
    let deadline = Deadline::new(ms);
    Ok(Setup::Deadline { deadline })
}

// The slots of a pool's list: those that are given, or the pages, but at least 1.
fn slots_field(words: &[Token], pages: u64) -> Result<u64, BadKind>
    ensures { result ≡ slots_field words.now pages }
{
    match words {
        [] => Ok(pages.max(1)),
        [slots, ..] => number_field(slots),
    }
}

#[tactic(auto, unfolding(crate::specs::ShapeWords::ShapesSetup::pool_line))]
pub fn pool_line(arguments: &[Token]) -> Result<Setup, BadKind>
    ensures { result ≡ pool_line arguments.now }
{
    let [socket, page, pages, words @ ..] = arguments else {
        return Err(BadKind::Fields);
    };
    refuse(words.len() > 1, BadKind::Fields)?;
    let socket = number_field(socket)?;
    let page = number_field(page)?;
    let pages = number_field(pages)?;
    let slots = slots_field(words, pages)?;
    refuse(socket > 31, BadKind::Range)?;
    refuse(!is_page_size(page), BadKind::Range)?;
    refuse(pages > MAX_LIST_SEGMENTS, BadKind::Range)?;
    refuse(!is_within(1, MAX_LIST_SEGMENTS, slots), BadKind::Range)?;
    let pool = PoolLine {
        socket: socket as u32,
        page,
        pages,
        slots: slots as u32,
    };
    Ok(Setup::Pool { pool })
}

#[tactic(auto, unfolding(crate::specs::ShapeWords::ShapesSetup::message_line))]
pub fn message_line(twice: bool, arguments: &[Token]) -> Result<Setup, BadKind>
    ensures { result ≡ message_line twice arguments.now }
{
    let [kind, others @ ..] = arguments else {
        return Err(BadKind::Fields);
    };
    let kind = kind_named(kind).ok_or(BadKind::Verb)?;
    let (party, k) = counted_line(others)?;
    Ok(Setup::Message {
        kind,
        party,
        k,
        twice,
    })
}

#[tactic(auto, unfolding(crate::specs::ShapeWords::ShapesSetup::mapping_line))]
pub fn mapping_line(elsewhere: bool, arguments: &[Token]) -> Result<Setup, BadKind>
    ensures { result ≡ mapping_line elsewhere arguments.now }
{
    let (party, call) = counted_line(arguments)?;
    Ok(Setup::Mapping {
        party,
        call,
        elsewhere,
    })
}

// A participant, and the number of one of its messages or mapping calls.
#[tactic(auto, unfolding(crate::specs::ShapeWords::ShapesSetup::counted_line))]
fn counted_line(arguments: &[Token]) -> Result<(u64, u64), BadKind>
    ensures { result ≡ counted_line arguments.now }
{
    let [party, k] = arguments else {
        return Err(BadKind::Fields);
    };
    let party = party_field(party)?;
    let k = number_field(k)?;
    refuse(!is_within(1, MAX_COUNT, k), BadKind::Range)?;
    Ok((party, k))
}
