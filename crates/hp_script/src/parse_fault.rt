ghost use Rattle.hp_script.specs.declared.parse_fault.ParseFault.TheVariants.{OutOfMemory};

use crate::bad_kind::BadKind;
use std::alloc::{AllocError, AllocFailed};
use thiserror::Error;

/// Why a workload is not read. Own.
#[derive(Debug, Drop, Error)]
pub enum ParseFault {
    /// The first bad line, counted from 1, and the first kind of refusal that it meets.
    #[error("line {line} is refused: {kind}")]
    Bad { line: u32, kind: BadKind },
    /// Memory ran out.
    #[error("out of memory")]
    OutOfMemory,
}

impl From<AllocError> for ParseFault {
    ghost use Rattle.std.specs.Prelude.{◌≡◌};

    ghost from_gives = { λ _ e. e ≡ OutOfMemory };

    fn from(_e: AllocError) -> ParseFault {
        ParseFault::OutOfMemory
    }
}

impl<T: Drop> From<AllocFailed<T>> for ParseFault {
    ghost use Rattle.std.specs.Prelude.{◌≡◌};

    ghost from_gives = { λ _ e. e ≡ OutOfMemory };

    fn from(_e: AllocFailed<T>) -> ParseFault {
        ParseFault::OutOfMemory
    }
}
