use crate::word::Word;

/// What a line of a session asks for. Sizes and places are bytes. Own.
#[derive(Drop)]
pub enum Line<'a> {
    /// An element of at least `size` bytes, under a label.
    New {
        label: Word<'a>,
        size: u64,
    },
    /// `len` bytes of an element, from the one at `at` on, become `byte`.
    Put {
        label: Word<'a>,
        at: u64,
        byte: u8,
        len: u64,
    },
    /// The first bytes of an element go to another.
    Copy {
        from: Word<'a>,
        to: Word<'a>,
    },
    /// `len` bytes of an element are shown, from the one at `at` on.
    Get {
        label: Word<'a>,
        at: u64,
        len: u64,
    },
    /// An element is freed, and its label with it.
    Drop {
        label: Word<'a>,
    },
}
