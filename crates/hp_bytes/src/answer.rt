use crate::digits::Digits;
use hp_base::BadRequest;
use std::fmt;

/// What a line of a session is answered. Own.
#[derive(Drop)]
pub enum Answer {
    /// The label of a `new` is live.
    Exists,
    /// Its size is refused.
    Bad { why: BadRequest },
    /// No free element has room for it.
    Nothing,
    /// Its data are at this address.
    At { addr: u64 },
    /// A label is not live.
    NoLabel,
    /// The bytes that are asked for are not all among the element's, of which there are so many.
    Range { size: u64 },
    /// A `copy` is asked for from an element to itself.
    Same,
    /// It is done.
    Done,
    /// These bytes are there.
    Bytes { digits: Digits },
}

/// The answer as the program writes it.
impl fmt::Display for Answer {
    ghost use Rattle.std.specs.Prelude.{Some};
    ghost use Rattle.hp_bytes.specs.Answers.{answer_text};

    ghost output = { λ answer. Some (answer_text answer) };

    fn fmt<W: fmt::Write>(&self, f: &mut fmt::Formatter<W>) -> fmt::Result {
        match self {
            Answer::Exists => write!(f, "exists"),
            Answer::Bad { why } => match why {
                BadRequest::Zero => write!(f, "bad zero"),
                BadRequest::Overflow => write!(f, "bad overflow"),
                BadRequest::Align => write!(f, "bad align"),
                BadRequest::Bound => write!(f, "bad bound"),
            },
            Answer::Nothing => write!(f, "none"),
            Answer::At { addr } => write!(f, "ok 0x{addr:x}"),
            Answer::NoLabel => write!(f, "nolabel"),
            Answer::Range { size } => write!(f, "range {size}"),
            Answer::Same => write!(f, "same"),
            Answer::Done => write!(f, "ok"),
            Answer::Bytes { digits } => write!(f, "{digits}"),
        }
    }
}
