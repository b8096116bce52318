use crate::outcome::Outcome;
use crate::word::Word;

/// What the picture takes of a line of a report. Addresses and sizes are bytes.
#[derive(Drop)]
pub enum Line<'a> {
    /// A heap, with its bytes in all and used, and how many of its elements are busy and free.
    Heap {
        index: u64,
        name: Word<'a>,
        socket: u64,
        total: u64,
        used: u64,
        busy: u64,
        frees: u64,
    },
    /// A free element of the heap before it.
    Free {
        start: u64,
        whole: u64,
        class: u64,
    },
    /// A busy one.
    Busy {
        start: u64,
        whole: u64,
        size: u64,
        who: u64,
        label: Word<'a>,
    },
    /// A segment list.
    List {
        socket: u64,
        page: u64,
        base: u64,
        slots: u64,
    },
    /// A segment that a heap owns.
    Owned {
        addr: u64,
        heap: u64,
    },
    /// A record that a run of pages came to a heap.
    Add {
        generation: u64,
        addr: u64,
        len: u64,
        heap: u64,
    },
    /// A record that a run of pages went.
    Gone {
        generation: u64,
        addr: u64,
        len: u64,
    },
    /// The outcome of an ask, with its line.
    Ask {
        outcome: Outcome,
        text: Word<'a>,
    },
    /// A participant: whether it is attached, how many records it has taken in, and how many rows its table has.
    Table {
        who: u64,
        attached: bool,
        records: u64,
        rows: u64,
    },
    /// A line that the picture does not show.
    Other,
    /// The last line.
    End,
}

impl<'a> Line<'a> {
    ghost use Rattle.std.specs.Prelude.{◌≡◌};
    ghost use Rattle.hp_view.specs.Reading.{is_end};

    /// Whether it is the last line.
    pub fn is_end(&self) -> bool
        ensures { result ≡ is_end self.now }
    {
        matches!(self, Line::End)
    }
}
