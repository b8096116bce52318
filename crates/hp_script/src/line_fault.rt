ghost use Rattle.hp_script.specs.declared.line_fault.LineFault.TheVariants.{Bad, OutOfMemory};

use crate::bad_kind::BadKind;
use std::alloc::{AllocError, AllocFailed};

/// Why a line is not read.
#[derive(Drop)]
pub enum LineFault {
    Bad { kind: BadKind },
    OutOfMemory,
}

impl From<BadKind> for LineFault {
    ghost use Rattle.std.specs.Prelude.{◌≡◌};

    ghost from_gives = { λ kind e. e ≡ Bad kind };

    fn from(kind: BadKind) -> LineFault {
        LineFault::Bad { kind }
    }
}

impl From<AllocError> for LineFault {
    ghost use Rattle.std.specs.Prelude.{◌≡◌};

    ghost from_gives = { λ _ e. e ≡ OutOfMemory };

    fn from(_e: AllocError) -> LineFault {
        LineFault::OutOfMemory
    }
}

impl<T: Drop> From<AllocFailed<T>> for LineFault {
    ghost use Rattle.std.specs.Prelude.{◌≡◌};

    ghost from_gives = { λ _ e. e ≡ OutOfMemory };

    fn from(_e: AllocFailed<T>) -> LineFault {
        LineFault::OutOfMemory
    }
}
