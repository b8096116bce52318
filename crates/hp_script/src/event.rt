ghost use Rattle.std.specs.Prelude.{◌≡◌};
ghost use Rattle.hp_script.specs.Counts.{event_of, message_event, mapping_event};
ghost use Rattle.hp_base.specs.Plans.{kind_place};

use hp_base::{MsgKind, PlanEntry};

/// What a plan line disturbs: the k-th message of a kind, or the k-th mapping call, of a participant. The kinds of
/// messages are 0 to 4, and 5 is a mapping call.
#[derive(Clone, Copy, PartialEq, Eq, Hash)]
pub struct Event {
    pub kind: u8,
    pub party: u64,
    pub k: u64,
}

fn kind_number(kind: MsgKind) -> u8
    ensures { result ≡ kind_place kind }
{
    match kind {
        MsgKind::Alloc => 0,
        MsgKind::Free => 1,
        MsgKind::Sync => 2,
        MsgKind::Reply => 3,
        MsgKind::Answer => 4,
    }
}

/// The k-th message of a kind that concerns a participant.
pub fn message_event(kind: MsgKind, party: u64, k: u64) -> Event
    ensures { result ≡ message_event kind party k }
{
    Event {
        kind: kind_number(kind),
        party,
        k,
    }
}

/// The k-th mapping call of a participant.
pub fn mapping_event(party: u64, k: u64) -> Event
    ensures { result ≡ mapping_event party k }
{
    Event { kind: 5, party, k }
}

/// The event that a plan line disturbs.
pub fn event_of(entry: PlanEntry) -> Event
    ensures { result ≡ event_of entry }
{
    match entry {
        PlanEntry::Message { kind, party, k, .. } => message_event(kind, u64::from(party), k),
        PlanEntry::Mapping { party, call, .. } => mapping_event(u64::from(party), call),
    }
}
