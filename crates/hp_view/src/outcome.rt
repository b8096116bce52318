/// How an ask ended, by the words of its line.
#[derive(Clone, Copy, PartialEq, Eq)]
pub enum Outcome {
    /// By the record of that generation its pages came.
    Granted { generation: u64 },
    /// By the record of that generation pages went back.
    Freed { generation: u64 },
    /// It came again.
    Stale,
    /// It was refused.
    Refused { cause: Cause },
}

/// Why an ask was refused.
#[derive(Clone, Copy, PartialEq, Eq)]
pub enum Cause {
    /// `nolist`
    NoList,
    /// `toofew`
    TooFew,
    /// `listfull`
    ListFull,
    /// `cannothold`
    CannotHold,
    /// `denied`
    Denied,
    /// `mapfailed`
    MapFailed,
    /// `late`
    Late,
    /// `withdrawn`
    Withdrawn,
}
