ghost use Rattle.std.specs.Prelude.{◌≡◌};
ghost use Rattle.hp_script.specs.Answers.{bad_words};

use crate::stats_text::StatsText;
use hp_base::{BadRequest, Stats};
use std::fmt;

/// What a participant line is answered. Addresses and lengths are bytes. Own; they stand for the error codes of rte_malloc,
/// rte_memzone and rte_memory.
#[derive(Clone, Copy, PartialEq, Eq)]
pub enum Answer {
    /// It is done, and there is nothing more to say.
    Done,
    /// The address of an allocation's data or of a memzone.
    Address { addr: u64 },
    /// The address and the length of a memzone that was found.
    Found { addr: u64, len: u64 },
    /// The number of log records that the participant took in when it attached.
    Records { records: u64 },
    /// The socket number of a new external heap.
    Socket { socket: u32 },
    /// No memory is free for the request.
    None,
    /// No heap is there for the request.
    NoHeap,
    /// The request itself is refused.
    BadRequest { kind: BadRequest },
    /// The name is longer than its kind allows.
    NameTooLong,
    /// The name is taken.
    Exists,
    /// There is no room for one more.
    NoSpace,
    /// The alignment is no power of two.
    BadAlign,
    /// The bound is no power of two, or too small.
    BadBound,
    /// The label stands for no element.
    NoElement,
    /// The label stands for a memzone.
    IsZone,
    /// The element has the new size.
    Yes,
    /// The element keeps its size.
    No,
    /// The name stands for nothing.
    NotFound,
    /// It is so already.
    Already,
    /// A mapping was refused: the number of the participant's mapping call.
    Refused { call: u64 },
    /// The name is none for a heap.
    BadName,
    /// The heap is a socket's.
    SocketHeap,
    /// The heap has this many pieces of memory.
    BusyChunks { chunks: u64 },
    /// The data at this address are in use.
    BusyAddress { addr: u64 },
    /// The range is none for external memory.
    BadRange,
    /// The range meets the slot at this address.
    Overlaps { addr: u64 },
    /// There is no such piece of memory.
    NoChunk,
    /// This participant has the memory attached.
    Attached { participant: u8 },
    /// The memory is not attached.
    NotAttached,
    /// The data at this address are in use here.
    InUse { addr: u64 },
    /// The participant has as many watchers as it can have.
    Full,
    /// The statistics of a heap.
    Statistics { stats: Stats },
    /// The participant is not attached.
    Detached,
}

impl Answer {
    ghost use Rattle.hp_script.specs.Answers.{answer_word};

    /// The words of the answer, without its numbers. Own.
    pub fn words(&self) -> &'static str
        ensures { result.now ≡ answer_word self.now }
    {
        match self {
            Answer::Done
            | Answer::Address { .. }
            | Answer::Found { .. }
            | Answer::Records { .. }
            | Answer::Socket { .. } => "ok",
            Answer::None => "none",
            Answer::NoHeap => "noheap",
            Answer::BadRequest { kind } => bad_words(*kind),
            Answer::NameTooLong => "namelong",
            Answer::Exists => "exists",
            Answer::NoSpace => "nospace",
            Answer::BadAlign => "badalign",
            Answer::BadBound => "badbound",
            Answer::NoElement => "noelem",
            Answer::IsZone => "iszone",
            Answer::Yes => "yes",
            Answer::No => "no",
            Answer::NotFound => "notfound",
            Answer::Already => "already",
            Answer::Refused { .. } => "refused",
            Answer::BadName => "badname",
            Answer::SocketHeap => "socketheap",
            Answer::BusyChunks { .. } | Answer::BusyAddress { .. } => "busy",
            Answer::BadRange => "badrange",
            Answer::Overlaps { .. } => "overlaps",
            Answer::NoChunk => "nochunk",
            Answer::Attached { .. } => "attached",
            Answer::NotAttached => "notattached",
            Answer::InUse { .. } => "inuse",
            Answer::Full => "full",
            Answer::Statistics { .. } => "",
            Answer::Detached => "detached",
        }
    }
}

fn bad_words(kind: BadRequest) -> &'static str
    ensures { result.now ≡ bad_words kind }
{
    match kind {
        BadRequest::Zero => "bad zero",
        BadRequest::Overflow => "bad overflow",
        BadRequest::Align => "bad align",
        BadRequest::Bound => "bad bound",
    }
}

/// The answer as the report writes it.
impl fmt::Display for Answer {
    ghost use Rattle.std.specs.Prelude.{Some};
    ghost use Rattle.hp_script.specs.Answers.{answer_text};

    ghost output = { λ answer. Some (answer_text answer) };

    fn fmt<W: fmt::Write>(&self, f: &mut fmt::Formatter<W>) -> fmt::Result {
        let words = self.words();
        match self {
            Answer::Address { addr }
            | Answer::BusyAddress { addr }
            | Answer::Overlaps { addr }
            | Answer::InUse { addr } => write!(f, "{words} 0x{addr:x}"),
            Answer::Found { addr, len } => write!(f, "{words} 0x{addr:x} {len}"),
            Answer::Records { records: n }
            | Answer::Refused { call: n }
            | Answer::BusyChunks { chunks: n } => write!(f, "{words} {n}"),
            Answer::Socket { socket } => write!(f, "{words} {socket}"),
            Answer::Attached { participant } => write!(f, "{words} {participant}"),
            Answer::Statistics { stats } => {
                let text = StatsText(*stats);
                write!(f, "{text}")
            }
            _ => f.write_str(words),
        }
    }
}
