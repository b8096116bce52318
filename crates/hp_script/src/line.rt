use crate::options::Options;
use crate::token::Token;

/// A participant line of a workload: its number in the text, from 1, who makes the call, and which call. Own.
#[derive(Drop)]
pub struct Line<'a> {
    pub line: u32,
    pub participant: u8,
    pub act: Act<'a>,
}

/// What a participant line asks for: one variant for each verb. Sizes, lengths, addresses, pages and limits are
/// bytes. Own; the calls are those of rte_malloc, rte_memzone and rte_memory.
#[derive(Drop)]
pub enum Act<'a> {
    /// Allocate; the label names the allocation in the whole text.
    Alloc {
        label: Token<'a>,
        size: u64,
        options: Options<'a>,
    },
    /// Free what the label or the memzone's name stands for.
    Free {
        label: Token<'a>,
    },
    /// Resize it in place.
    Resize {
        label: Token<'a>,
        size: u64,
    },
    /// Reserve a memzone of at least one byte.
    Zone {
        name: Token<'a>,
        len: u64,
        options: Options<'a>,
    },
    /// Find a memzone.
    Lookup {
        name: Token<'a>,
    },
    /// Free a memzone.
    Unzone {
        name: Token<'a>,
    },
    /// Join the run.
    Attach,
    /// Leave the run.
    Detach,
    /// Create an external heap.
    Heap {
        name: Token<'a>,
    },
    /// Destroy an external heap.
    Unheap {
        name: Token<'a>,
    },
    /// Add memory to an external heap.
    Add {
        heap: Token<'a>,
        addr: u64,
        len: u64,
        page: u64,
    },
    /// Remove memory from it.
    Remove {
        heap: Token<'a>,
        addr: u64,
        len: u64,
    },
    /// Attach memory of it.
    Map {
        heap: Token<'a>,
        addr: u64,
        len: u64,
    },
    /// Detach memory of it.
    Unmap {
        heap: Token<'a>,
        addr: u64,
        len: u64,
    },
    /// Register a memory event callback.
    Watch {
        name: Token<'a>,
    },
    /// Unregister it.
    Unwatch {
        name: Token<'a>,
    },
    /// Register an allocation validator of a socket, 0 to 31, which is asked above the limit. It denies unless it
    /// allows.
    Limit {
        name: Token<'a>,
        socket: u32,
        bytes: u64,
        allow: bool,
    },
    /// Unregister it.
    Unlimit {
        name: Token<'a>,
        socket: u32,
    },
    /// Go on once the other participant has finished its first lines, at least one.
    Await {
        other: u8,
        lines: u32,
    },
    /// The statistics of a heap, taken under its lock.
    Dump {
        heap: Token<'a>,
    },
    /// The statistics of a heap, read without its lock.
    Stats {
        heap: Token<'a>,
    },
}

impl<'a> Act<'a> {
    ghost use Rattle.std.specs.Prelude.{◌≡◌};
    ghost use Rattle.hp_script.specs.ShapeWords.ActVerbs.{verb_word};

    /// The word of its verb, as workloads have it. Own.
    pub fn verb(&self) -> &'static str
        ensures { result.now ≡ verb_word self.now }
    {
        match self {
            Act::Alloc { .. } => "alloc",
            Act::Free { .. } => "free",
            Act::Resize { .. } => "resize",
            Act::Zone { .. } => "zone",
            Act::Lookup { .. } => "lookup",
            Act::Unzone { .. } => "unzone",
            Act::Attach => "attach",
            Act::Detach => "detach",
            Act::Heap { .. } => "heap",
            Act::Unheap { .. } => "unheap",
            Act::Add { .. } => "add",
            Act::Remove { .. } => "remove",
            Act::Map { .. } => "map",
            Act::Unmap { .. } => "unmap",
            Act::Watch { .. } => "watch",
            Act::Unwatch { .. } => "unwatch",
            Act::Limit { .. } => "limit",
            Act::Unlimit { .. } => "unlimit",
            Act::Await { .. } => "await",
            Act::Dump { .. } => "dump",
            Act::Stats { .. } => "stats",
        }
    }
}
