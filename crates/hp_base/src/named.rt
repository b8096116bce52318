ghost use Rattle.std.specs.Prelude.{◌≡◌};
ghost use Rattle.hp_base.specs.PlanIndex.{message_named, mapping_named, named_by};
ghost use Rattle.hp_base.specs.Plans.{kind_place};

use crate::plan_entry::{MsgKind, PlanEntry};

/// What an entry of a plan names: the message of a kind, 0 to 4, or the mapping call, 5, of a participant, by its count.
#[derive(Clone, Copy, PartialEq, Eq, Hash)]
pub struct Named {
    pub kind: u8,
    pub party: u8,
    pub count: u64,
}

/// The name of a message.
pub fn message_named(kind: MsgKind, party: u8, k: u64) -> Named
    ensures { result ≡ message_named kind party k }
{
    Named {
        kind: kind_place(kind),
        party,
        count: k,
    }
}

/// The name of a mapping call.
pub fn mapping_named(party: u8, call: u64) -> Named
    ensures { result ≡ mapping_named party call }
{
    Named {
        kind: 5,
        party,
        count: call,
    }
}

/// What an entry names.
pub fn named_by(entry: PlanEntry) -> Named
    ensures { result ≡ named_by entry }
{
    match entry {
        PlanEntry::Message { kind, party, k, .. } => message_named(kind, party, k),
        PlanEntry::Mapping { party, call, .. } => mapping_named(party, call),
    }
}

fn kind_place(kind: MsgKind) -> u8
    ensures { result ≡ kind_place kind }
{
    kind as u8
}
