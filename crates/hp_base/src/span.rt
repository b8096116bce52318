ghost use Rattle.std.specs.Prelude.{◌≡◌, ◌^◌, ◌<◌};

use crate::tag::Tag;

/// An element of a heap: a header of 128 bytes and what follows it, `whole` bytes from `addr` on, in a segment
/// list with pages of `page` bytes. After malloc_elem of rte_malloc.
#[derive(Clone, Copy, PartialEq, Eq)]
pub struct Span {
    pub addr: u64,
    pub whole: u64,
    pub list: u32,
    pub page: u64,
    pub state: SpanState,
}

/// Whether an element is free or busy. After elem_state of malloc_elem.h; stamps and tags are own.
#[derive(Clone, Copy, PartialEq, Eq)]
pub enum SpanState {
    /// Free. The stamp counts the heap's insertions into its free lists, from 1.
    Free { stamp: u64 },
    /// Busy: `pad` bytes lie in front of the header, and the data are `size` bytes.
    Busy { pad: u64, size: u64, tag: Tag },
}

impl Span {
    ghost use Rattle.hp_base.specs.Extents.{span_end};

    /// The address behind its last byte. Own.
    pub fn end(&self) -> u64
        requires { span_end self.now < 2 ^ 64 }
        ensures { result ≡ span_end self.now }
    {
        self.addr + self.whole
    }
}
