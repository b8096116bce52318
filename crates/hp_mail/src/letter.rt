use hp_frame::Frame;

/// A frame in a mailbox, with the participant that posted it. Own.
#[derive(Clone, Copy)]
pub struct Letter {
    pub from: u8,
    pub frame: Frame,
}
