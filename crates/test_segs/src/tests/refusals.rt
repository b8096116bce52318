//! Why no run is planned.

use super::steps::Step::{self, Agree, Drop, GiveUp, Open, Refuse, Take};
use super::steps::play;
use super::taking::{FEW_BYTES, Wants, segs_of};
use super::{BASE, FIRST_RUN, PAGE};
use hp_base::Run;
use hp_segs::PlanRefusal;
use std::test::Fail;

// As many bytes as a page has, which with a header are more.
const A_PAGE: Wants = Wants {
    size: PAGE,
    ..FEW_BYTES
};

#[test]
fn refuses_a_plan_with_too_few_pages(rt: HostRuntime) -> Result<(), Fail> {
    let steps = [Refuse(1, A_PAGE, PlanRefusal::TooFew { have: 1, need: 2 })];
    play(segs_of(rt.alloc(), 1), rt.alloc(), steps.as_slice())
}

const LARGE: Wants = Wants {
    page: 0x4000_0000,
    ..FEW_BYTES
};

const ELSEWHERE: Wants = Wants {
    socket: 1,
    ..FEW_BYTES
};

const ALIGNED: Wants = Wants {
    size: 4_194_304,
    align: 4_194_304,
    ..FEW_BYTES
};

const UNFIT: PlanRefusal = PlanRefusal::CannotHold {
    addr: BASE,
    len: 6_291_456,
};

// One wants pages of a size, or on a socket, of which there are none, one has no place in its run, and one comes while a growth is open.
const UNPLANNED: &[Step] = &[
    Refuse(1, LARGE, PlanRefusal::NoList),
    Refuse(1, ELSEWHERE, PlanRefusal::NoList),
    Refuse(1, ALIGNED, UNFIT),
    Open(1, FIRST_RUN),
    Refuse(2, FEW_BYTES, PlanRefusal::GrowthOpen { generation: 1 }),
];

#[test]
fn refuses_what_cannot_be_planned(rt: HostRuntime) -> Result<(), Fail> {
    play(segs_of(rt.alloc(), 4), rt.alloc(), UNPLANNED)
}

const CLOSED_ASK: &[Step] = &[
    Open(7, FIRST_RUN),
    Agree(1, 1, None),
    Refuse(6, FEW_BYTES, PlanRefusal::StaleAsk { number: 6, done: 7 }),
];

#[test]
fn refuses_a_closed_ask(rt: HostRuntime) -> Result<(), Fail> {
    play(segs_of(rt.alloc(), 4), rt.alloc(), CLOSED_ASK)
}

const SECOND: Run = Run {
    first: 1,
    addr: 0x1_0020_0000,
    ..FIRST_RUN
};

const THIRD: Run = Run {
    first: 2,
    addr: 0x1_0040_0000,
    ..FIRST_RUN
};

const FULL: PlanRefusal = PlanRefusal::ListFull {
    longest: 1,
    need: 2,
};

// Of four slots the second and the fourth are free.
const NO_STRETCH: &[Step] = &[
    Take(1, FIRST_RUN),
    GiveUp(2, SECOND),
    Take(3, THIRD),
    Drop(4),
    Refuse(4, A_PAGE, FULL),
];

#[test]
fn refuses_a_plan_without_a_stretch(rt: HostRuntime) -> Result<(), Fail> {
    play(segs_of(rt.alloc(), 8), rt.alloc(), NO_STRETCH)
}
