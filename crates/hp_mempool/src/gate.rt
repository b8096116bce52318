/// Asked before a step of a worker, until it answers true, so that a test can hold a worker until another has come. It has no other
/// meaning. Own.
pub trait Gate {
    /// Whether the worker may go on in that round.
    fn ready(&self, worker: u8, round: u32) -> bool;
}

/// A gate that is always open. Own.
#[derive(Clone, Copy)]
pub struct OpenGate;

impl Gate for OpenGate {
    fn ready(&self, _worker: u8, _round: u32) -> bool {
        true
    }
}
