ghost use Rattle.std.specs.Prelude.{◌≡◌, ◌≤◌, length, take};
ghost use Rattle.hp_frame.specs.Spelling.{IsValid, Spells};

use crate::message::Message;
use crate::writing::write;

/// A frame in a buffer of its own: the first `len` bytes.
#[derive(Clone, Copy)]
pub struct Frame {
    pub bytes: [u8; 384],
    pub len: usize,
    pub ghost fits: { len ≤ 384 },
}

impl Frame {
    /// The message's frame. Own.
    pub fn new(msg: &Message) -> Frame
        requires valid { IsValid msg.now }
        ensures { Spells (take result.len result.bytes) msg.now }
    {
        let mut bytes = [0; 384];
        let len = write(msg, &mut bytes);
        Frame { bytes, len }
    }

    /// The frame's bytes. Own.
    pub fn as_bytes(&self) -> &[u8]
        ensures bytes { result.now ≡ take self.now.len self.now.bytes }
        ensures len { length result.now ≡ self.now.len }
    {
        &self.bytes[..self.len]
    }
}
