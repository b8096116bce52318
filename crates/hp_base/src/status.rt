ghost use Rattle.std.specs.Prelude.{◌≡◌};

/// How a run of the program ends. Own.
#[derive(Clone, Copy, PartialEq, Eq)]
pub enum Status {
    /// The whole text was written.
    Ok,
    /// The words are none that the program takes.
    Usage,
    /// The workload is refused.
    BadWorkload,
    /// Reading failed.
    ReadFault,
    /// Writing failed.
    WriteFault,
    /// Memory ran out.
    OutOfMemory,
    /// The workload is longer than 1,048,576 bytes.
    TooLong,
}

impl Status {
    ghost use Rattle.hp_base.specs.Exit.{exit_code};

    /// The exit status of the process, from 0 to 6. Own.
    pub fn code(self) -> u8
        ensures { result ≡ exit_code self }
    {
        self as u8
    }
}
