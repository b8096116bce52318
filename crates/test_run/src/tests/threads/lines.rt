//! Lines of two participants beside one another, and servings before a line.

use super::gates::{MeetingGate, RefusingGate};
use super::leaving::{Left, holds, leaves};
use hp_script::Answer;
use std::test::Fail;

// The only line of the second participant, and the second one of the third, are held up until both were asked for: so the third has done its
// first line by then, and neither of the two waits for the other's end.
pub(super) const BESIDE: &str = "participants 3\n1 dump x\n2 dump x\n2 dump x\n";

// The first participant's line is refused until the second one has come to its own second line. That one's first line needs a page, so the
// first participant has to serve before it does its line.
const SERVING: &str = "participants 2\npool 0 2M 4\n1 alloc a 1000\n1 dump x\n0 dump x\n";

// What the lines of the first workload leave: no heap of that name is found.
const BESIDE_LEFT: Left = Left {
    answers: &[Answer::NotFound, Answer::NotFound, Answer::NotFound],
    records: 0,
    participants: 3,
    rows: 0,
    taken_in: None,
};

// And those of the second.
const SERVING_LEFT: Left = Left {
    answers: &[
        Answer::Address { addr: 0x1001_ffc00 },
        Answer::NotFound,
        Answer::NotFound,
    ],
    records: 1,
    participants: 2,
    rows: 1,
    taken_in: None,
};

#[test]
fn does_lines_beside_one_another(rt: HostRuntime) -> Result<(), Fail> {
    let gate = MeetingGate::new(2, 4);
    leaves(&rt, rt.alloc(), BESIDE, &gate, &BESIDE_LEFT)?;
    holds(gate.have_met())
}

#[test]
fn serves_before_a_line_that_is_refused(rt: HostRuntime) -> Result<(), Fail> {
    let gate = RefusingGate::new(5, 3, 4);
    leaves(&rt, rt.alloc(), SERVING, &gate, &SERVING_LEFT)?;
    holds(gate.has_refused())
}
