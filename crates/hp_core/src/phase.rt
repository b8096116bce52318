use crate::out::Out;

/// What a round of SYNC is for. Own.
#[derive(Clone, Copy)]
pub enum RoundKind {
    /// A growth that is open.
    Growth,
    /// A growth that was cancelled or taken back.
    Rollback,
    /// Memory that was given up.
    Drop,
}

/// A round: what it is for, the generation that the members are to acknowledge, and the participant and number of its ask.
/// Own.
#[derive(Clone, Copy)]
pub struct Round {
    pub kind: RoundKind,
    pub generation: u64,
    pub from: u8,
    pub number: u64,
}

/// What the coordinator has under way. Own.
#[derive(Clone, Copy)]
pub enum Phase {
    /// Nothing.
    Idle,
    /// A round, for which participant 0 is to catch up first.
    Mapping { round: Round },
    /// A round, whose first SYNC was sent when the clock read `since`.
    Waiting { round: Round, since: u64 },
}

// How the coordinator goes on: with which phase, and what is to be done.
#[derive(Clone, Copy)]
pub(crate) struct Next {
    pub phase: Phase,
    pub out: Out,
}
