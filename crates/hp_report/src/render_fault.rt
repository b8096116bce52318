use crate::writing::WriteFault;
use std::alloc::AllocError;

/// Why a report was not written whole. Own.
#[derive(Clone, Copy, PartialEq, Eq)]
pub enum RenderFault {
    /// The sink failed.
    WriteFault,
    /// Memory ran out.
    OutOfMemory,
}

impl From<AllocError> for RenderFault {
    ghost use Rattle.std.specs.Prelude.{◌≡◌};
    ghost use Rattle.hp_report.specs.declared.render_fault.RenderFault.TheVariants.{OutOfMemory};

    ghost from_gives = { λ _ fault. fault ≡ OutOfMemory };

    fn from(_e: AllocError) -> RenderFault {
        RenderFault::OutOfMemory
    }
}

impl From<WriteFault> for RenderFault {
    ghost use Rattle.std.specs.Prelude.{◌≡◌};
    ghost use Rattle.hp_report.specs.declared.render_fault.RenderFault.TheVariants.{WriteFault};

    ghost from_gives = { λ _ fault. fault ≡ WriteFault };

    fn from(_e: WriteFault) -> RenderFault {
        RenderFault::WriteFault
    }
}
