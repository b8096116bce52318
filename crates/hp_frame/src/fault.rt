use thiserror::Error;

/// Why bytes are no frame: the first fault, in the order in which the reader checks. Own.
#[derive(Clone, Copy, Debug, PartialEq, Eq, Error)]
pub enum Fault {
    /// Fewer bytes than a header has, or fewer than it says.
    #[error("the frame has {have} bytes and needs {need}")]
    Short { have: usize, need: usize },
    /// The first byte stands for no kind.
    #[error("no kind of message has the byte {byte}")]
    Kind { byte: u8 },
    /// The name is to be empty, or longer than 63 bytes.
    #[error("a name of {len} bytes")]
    NameLong { len: u8 },
    /// The parameter is to be longer than 256 bytes.
    #[error("a parameter of {len} bytes")]
    ParamLong { len: u16 },
    /// The byte at this place, counted from 0, is none of its values. Place 2 is a parameter's length that
    /// is not the kind's.
    #[error("the byte at place {place} is none of its values")]
    Field { place: usize },
    /// Bytes behind the end that the header says.
    #[error("{rest} bytes behind the frame")]
    Extra { rest: usize },
}
