ghost use Rattle.hp_run.specs.declared.refusal.RunFault.TheVariants.{OutOfMemory};

use hp_script::BadKind;
use std::alloc::AllocError;
use std::fmt;

/// Why a workload is not run: its first bad line, which the language refuses by this kind. Lines are counted from 1.
#[derive(Clone, Copy)]
pub struct Refusal {
    pub line: u32,
    pub kind: BadKind,
}

/// The refusal as the program writes it.
impl fmt::Display for Refusal {
    ghost use Rattle.std.specs.Prelude.{Some};
    ghost use Rattle.hp_run.specs.Refusals.{refusal_text};

    ghost output = { λ refusal. Some (refusal_text refusal) };

    fn fmt<W: fmt::Write>(&self, f: &mut fmt::Formatter<W>) -> fmt::Result {
        let Refusal { line, kind } = self;
        write!(f, "refused line {line} {kind}\n")
    }
}

/// Why a workload has no report.
#[derive(Drop)]
pub enum RunFault {
    /// The text is refused.
    Refused { refusal: Refusal },
    /// Memory ran out.
    OutOfMemory,
}

impl From<AllocError> for RunFault {
    ghost use Rattle.std.specs.Prelude.{◌≡◌};

    ghost from_gives = { λ _ fault. fault ≡ OutOfMemory };

    fn from(_e: AllocError) -> RunFault {
        RunFault::OutOfMemory
    }
}
