ghost use Rattle.std.specs.Prelude.{◌≡◌, ◌↔◌, IsTrue};
ghost use Rattle.hp_frame.specs.Spelling.{kind_of, HasFieldValues, IsValid};

use crate::kind::Kind;
use hp_base::Name;

/// A message between a participant and the coordinator: who it is for, by name, and what it says.
/// After struct rte_mp_msg (the chapter Multi-process Support).
#[derive(Clone, Copy)]
pub struct Message {
    pub name: Name,
    pub body: Body,
}

impl Message {
    /// Whether it can be written: each byte of its name is visible ASCII, and each field of its body is
    /// among its values. Own.
    pub fn is_valid(&self) -> bool
        ensures { IsTrue result ↔ IsValid self.now }
    {
        let name = self.name.as_bytes();
        name.iter().all(|byte| byte.is_ascii_graphic()) && self.body.has_field_values()
    }
}

/// What a message says; own. `from` is a participant, at most 15, and `number` counts its asks. Addresses,
/// lengths, sizes and page sizes are in bytes.
#[derive(Clone, Copy, PartialEq, Eq)]
pub enum Body {
    /// Asks the coordinator to let a heap grow so that the request has a place.
    Alloc {
        from: u8,
        number: u64,
        heap: u32,
        socket: u32,
        page: u64,
        size: u64,
        align: u64,
        bound: u64,
        flags: u32,
    },
    /// Tells the coordinator that a heap gave pages back.
    Free {
        from: u8,
        number: u64,
        heap: u32,
        address: u64,
        length: u64,
    },
    /// Asks a participant to catch up with the log. `round` is 1 for a growth and 2 for a drop.
    Sync {
        generation: u64,
        round: u8,
    },
    /// An answer. `what` is 1 for a reply to a Sync, whose `number` is the generation, 2 for the answer to
    /// an Alloc and 3 for the answer to a Free. `code` is 0 for success and 1 for failure.
    Answer {
        from: u8,
        number: u64,
        what: u8,
        code: u8,
    },
}

impl Body {
    fn has_field_values(&self) -> bool
        ensures { IsTrue result ↔ HasFieldValues self.now }
    {
        match self {
            Body::Alloc { from, .. } | Body::Free { from, .. } => *from <= 15,
            Body::Sync { round, .. } => *round == 1 || *round == 2,
            Body::Answer {
                from,
                what,
                code,
                ..
            } => *from <= 15 && *what >= 1 && *what <= 3 && *code <= 1,
        }
    }

    pub(crate) fn kind(&self) -> Kind
        ensures { result ≡ kind_of self.now }
    {
        match self {
            Body::Alloc { .. } => Kind::Alloc,
            Body::Free { .. } => Kind::Free,
            Body::Sync { .. } => Kind::Sync,
            Body::Answer { .. } => Kind::Answer,
        }
    }
}
