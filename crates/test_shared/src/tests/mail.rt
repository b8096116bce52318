//! A mailbox of participant 2, in which participants 0 and 1 post.
ghost use Rattle.std.specs.Prelude.{◌≡◌, ◌<◌, ◌≤◌, ◌∷◌, [], IfSome};

mod steps;
mod threads;

use hp_frame::Frame;
use hp_mail::Pass;

// A frame that says a sender and a number.
fn frame_of(sender: u8, number: u32) -> Frame {
    let mut bytes = [0; 384];
    let [first, second, third, fourth] = number.to_le_bytes();
    bytes[0] = sender;
    bytes[1] = first;
    bytes[2] = second;
    bytes[3] = third;
    bytes[4] = fourth;
    bytes[383] = 7;
    Frame { bytes, len: 384 }
}

// What a frame says, if it is whole.
fn said(frame: &Frame) -> Option<(u8, u32)> {
    if frame.len != 384 || frame.bytes[383] != 7 {
        return None;
    }
    let bytes = &frame.bytes;
    let number = u32::from_le_bytes([bytes[1], bytes[2], bytes[3], bytes[4]]);
    Some((bytes[0], number))
}

// The passes of three participants, if there are so many.
fn three(passes: Vec<Pass>) -> Option<(Pass, Pass, Pass)>
    ensures { IfSome result (λ all. passes.items ≡ all.0 ∷ all.1 ∷ all.2 ∷ []) }
{
    let mut passes = passes;
    let third = passes.pop()?;
    let second = passes.pop()?;
    let first = passes.pop()?;
    if !passes.is_empty() {
        return None;
    }
    Some((first, second, third))
}
