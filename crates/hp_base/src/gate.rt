/// What is asked before each line, by the participant's thread, until it answers true. It has no other meaning, so a test can hold a line
/// up by it. Own.
pub trait Gate {
    /// Whether the participant may do the line of that number in the text.
    fn ready(&self, participant: u8, line: u32) -> bool;
}

/// A gate that holds no line up. Own.
#[derive(Clone, Copy, Drop)]
pub struct OpenGate;

impl Gate for OpenGate {
    fn ready(&self, participant: u8, line: u32) -> bool {
        let _ = (participant, line);
        true
    }
}
