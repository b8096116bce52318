//! What the two do in their halls, and in any others, before these come home: the first makes a call of heap 0, each sends the other a frame,
//! and the second reads the statistics of the heap.
ghost use Rattle.std.specs.Prelude.{◌≡◌, ℕ, None, OnOk};
ghost use Rattle.hp_hall.specs.HallCalls.{GivesOnceTold};
ghost use Rattle.hp_hall.specs.HallState.{IsLater, SlotsStayBut, known_to};
ghost use Rattle.test_board.specs.Visiting.{IsIdle, IsUntouched};

use super::HEAP;
use hp_base::{Action, Caller};
use hp_frame::Frame;
use hp_hall::{Hall, Kept};
use hp_heap::Heap;
use hp_stats::StatPen;
use std::alloc::AllocError;

/// The first byte of the frame that each fetched, the second one's in front, and of how many calls the statistics were that this one read.
pub type Visit = ((Option<u8>, Option<u8>), u64);

// A frame that begins with that byte.
fn frame_of(byte: u8) -> Frame {
    let mut bytes = [0; 384];
    bytes[0] = byte;
    Frame { bytes, len: 384 }
}

// How a frame begins.
fn said(frame: Option<Frame>) -> Option<u8> {
    frame.map(|frame| frame.bytes[0])
}

// The first publishes the statistics of heap 0, which it has in hand, and gives the heap back.
fn publish_and_give<H: Hall>(hall: &mut H, heap: Heap, pen: StatPen)
    requires serves { (H.state hall.old).serves 0 }
    requires gives { GivesOnceTold (known_to 0 (H.state hall.old)) 0 (record { heap = heap; pen = pen }) }
    ensures free { (H.state hall.new).taken 0 ≡ None }
    ensures slots { SlotsStayBut 0 (H.state hall.old) (H.state hall.new) }
    ensures later { IsLater (H.state hall.old) (H.state hall.new) }
    ensures goes_on { H.goes_on hall.old hall.new }
{
    heap.sound();
    let mut kept = Kept::Heap { heap, pen };
    hall.publish(0, 0, &mut kept);
    hall.give(0, HEAP, kept);
}

// It takes heap 0, asks for its statistics as the first of its calls, and gives it back.
fn call_first<H: Hall>(hall: &mut H) -> Result<(), AllocError>
    requires idle { IsIdle 0 (H.state hall.old) }
    requires home { (H.state hall.old).may_take 0 }
    requires untouched { (heap : ℕ) → IsUntouched ((H.state hall.old).part 0 heap) }
    ensures idle { OnOk result (IsIdle 0 (H.state hall.new)) }
    ensures goes_on { H.goes_on hall.old hall.new }
{
    let (mut heap, pen) = hall.take(0, HEAP).into_heap();
    heap.reserve(1)?;
    let _stats = heap.stats(Caller {
        participant: 0,
        number: 1,
    });
    publish_and_give(hall, heap, pen);
    Ok(())
}

// A frame goes from each to the other.
fn write<H: Hall>(first: &mut H, second: &mut H) -> (Option<u8>, Option<u8>)
    requires first { IsIdle 0 (H.state first.old) }
    requires second { IsIdle 1 (H.state second.old) }
    ensures first { IsIdle 0 (H.state first.new) }
    ensures second { IsIdle 1 (H.state second.new) }
    ensures first_on { H.goes_on first.old first.new }
    ensures second_on { H.goes_on second.old second.new }
{
    let _ = first.post(0, 1, frame_of(7), Action::Deliver);
    let there = second.fetch(1);
    let _ = second.post(1, 0, frame_of(8), Action::Deliver);
    (said(there), said(first.fetch(0)))
}

/// All that, in two halls.
pub fn visit<H: Hall>(first: &mut H, second: &mut H) -> Result<Visit, AllocError>
    requires first { IsIdle 0 (H.state first.old) }
    requires home { (H.state first.old).may_take 0 }
    requires untouched { (heap : ℕ) → IsUntouched ((H.state first.old).part 0 heap) }
    requires second { IsIdle 1 (H.state second.old) }
    ensures first { OnOk result (IsIdle 0 (H.state first.new)) }
    ensures second { OnOk result (IsIdle 1 (H.state second.new)) }
    ensures first_on { H.goes_on first.old first.new }
    ensures second_on { H.goes_on second.old second.new }
{
    call_first(first)?;
    let written = write(first, second);
    Ok((written, second.read(1, 0).0))
}
