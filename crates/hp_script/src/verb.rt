ghost use Rattle.std.specs.Prelude.{◌≡◌, drop};
ghost use Rattle.std.specs.Map.{lookup};
ghost use Rattle.hp_script.specs.Part.{is_word};
ghost use Rattle.hp_script.specs.ShapeWords.Verbs.{verbs, verb_named, setup_named, kind_named};

use crate::token::Token;
use hp_base::MsgKind;

/// The verbs of participant lines; those that take the same fields stand together.
#[derive(Clone, Copy)]
pub enum Verb {
    Alloc,
    Zone,
    Resize,
    Name { call: NameCall },
    Member { call: MemberCall },
    Add,
    Range { call: RangeCall },
    Limit,
    Unlimit,
    Await,
}

/// The calls that take one name or label.
#[derive(Clone, Copy)]
pub enum NameCall {
    Free,
    Lookup,
    Unzone,
    Heap,
    Unheap,
    Watch,
    Unwatch,
    Dump,
    Stats,
}

/// The calls without a field.
#[derive(Clone, Copy)]
pub enum MemberCall {
    Attach,
    Detach,
}

/// The calls that take a heap, an address and a length.
#[derive(Clone, Copy)]
pub enum RangeCall {
    Remove,
    Map,
    Unmap,
}

/// The first fields of setup lines.
#[derive(Clone, Copy)]
pub enum SetupVerb {
    Participants,
    Absent,
    Socket,
    Deadline,
    Pool,
    /// `lose`, or `repeat` where it comes twice.
    Message { twice: bool },
    /// `refuse`, or `elsewhere`.
    Mapping { elsewhere: bool },
}

/// The verb that a field names.
#[tactic(auto, unfolding(crate::specs::ShapeWords::Verbs::verb_named))]
pub fn verb_named(word: &Token) -> Option<Verb>
    ensures { result ≡ verb_named word.now }
{
    if word.is(b"alloc") {
        Some(Verb::Alloc)
    } else if word.is(b"free") {
        Some(Verb::Name {
            call: NameCall::Free,
        })
    } else if word.is(b"resize") {
        Some(Verb::Resize)
    } else if word.is(b"zone") {
        Some(Verb::Zone)
    } else if word.is(b"lookup") {
        Some(Verb::Name {
            call: NameCall::Lookup,
        })
    } else if word.is(b"unzone") {
        Some(Verb::Name {
            call: NameCall::Unzone,
        })
    } else if word.is(b"dump") {
        Some(Verb::Name {
            call: NameCall::Dump,
        })
    } else if word.is(b"stats") {
        Some(Verb::Name {
            call: NameCall::Stats,
        })
    } else {
        heap_verb(word)
    }
}

// The verbs after those of memory.
fn heap_verb(word: &Token) -> Option<Verb>
    ensures { result ≡ lookup (λ verb. is_word verb word.now) (drop 8 verbs) }
{
    if word.is(b"heap") {
        Some(Verb::Name {
            call: NameCall::Heap,
        })
    } else if word.is(b"unheap") {
        Some(Verb::Name {
            call: NameCall::Unheap,
        })
    } else if word.is(b"add") {
        Some(Verb::Add)
    } else if word.is(b"remove") {
        Some(Verb::Range {
            call: RangeCall::Remove,
        })
    } else if word.is(b"map") {
        Some(Verb::Range {
            call: RangeCall::Map,
        })
    } else if word.is(b"unmap") {
        Some(Verb::Range {
            call: RangeCall::Unmap,
        })
    } else {
        member_verb(word)
    }
}

// The verbs of participants, watchers and validators.
fn member_verb(word: &Token) -> Option<Verb>
    ensures { result ≡ lookup (λ verb. is_word verb word.now) (drop 14 verbs) }
{
    if word.is(b"attach") {
        Some(Verb::Member {
            call: MemberCall::Attach,
        })
    } else if word.is(b"detach") {
        Some(Verb::Member {
            call: MemberCall::Detach,
        })
    } else if word.is(b"watch") {
        Some(Verb::Name {
            call: NameCall::Watch,
        })
    } else if word.is(b"unwatch") {
        Some(Verb::Name {
            call: NameCall::Unwatch,
        })
    } else if word.is(b"limit") {
        Some(Verb::Limit)
    } else if word.is(b"unlimit") {
        Some(Verb::Unlimit)
    } else if word.is(b"await") {
        Some(Verb::Await)
    } else {
        None
    }
}

/// The setup line that a field names.
#[tactic(auto, unfolding(crate::specs::ShapeWords::Verbs::setup_named))]
pub fn setup_named(word: &Token) -> Option<SetupVerb>
    ensures { result ≡ setup_named word.now }
{
    if word.is(b"participants") {
        Some(SetupVerb::Participants)
    } else if word.is(b"absent") {
        Some(SetupVerb::Absent)
    } else if word.is(b"socket") {
        Some(SetupVerb::Socket)
    } else if word.is(b"deadline") {
        Some(SetupVerb::Deadline)
    } else if word.is(b"pool") {
        Some(SetupVerb::Pool)
    } else if word.is(b"lose") {
        Some(SetupVerb::Message { twice: false })
    } else if word.is(b"repeat") {
        Some(SetupVerb::Message { twice: true })
    } else if word.is(b"refuse") {
        Some(SetupVerb::Mapping { elsewhere: false })
    } else if word.is(b"elsewhere") {
        Some(SetupVerb::Mapping { elsewhere: true })
    } else {
        None
    }
}

/// The kind of message that a field names.
#[tactic(auto, unfolding(crate::specs::ShapeWords::Verbs::kind_named))]
pub fn kind_named(word: &Token) -> Option<MsgKind>
    ensures { result ≡ kind_named word.now }
{
    if word.is(b"alloc") {
        Some(MsgKind::Alloc)
    } else if word.is(b"free") {
        Some(MsgKind::Free)
    } else if word.is(b"sync") {
        Some(MsgKind::Sync)
    } else if word.is(b"reply") {
        Some(MsgKind::Reply)
    } else if word.is(b"answer") {
        Some(MsgKind::Answer)
    } else {
        None
    }
}
