//! Lines of each verb, and each answer.

use super::{Scene, assert_reports};
use hp_base::{BadRequest, Stats};
use hp_report::Ended;
use hp_script::Answer;
use std::alloc::Global;
use std::process::Abort;
use std::test::Fail;

const ADDR: u64 = 0x1_001f_fc00;

const STATS: Stats = Stats {
    total: 2_097_152,
    free: 2_096_000,
    used: 1_152,
    greatest: 2_096_000,
    busy: 1,
    frees: 1,
};

// A line of each verb, and then lines for the answers that are left.
const TEXT: &str = "participants 2\n\
    0 alloc a 1\n\
    0 free a\n\
    0 resize a 1\n\
    0 zone z 1\n\
    0 lookup z\n\
    0 unzone z\n\
    1 attach\n\
    1 detach\n\
    0 heap x\n\
    0 unheap x\n\
    0 add x 0 2M 2M\n\
    0 remove x 0 2M\n\
    0 map x 0 2M\n\
    0 unmap x 0 2M\n\
    0 watch w\n\
    0 unwatch w\n\
    0 limit l 0 1\n\
    0 unlimit l 0\n\
    1 await 0 1\n\
    0 dump x\n\
    0 stats x\n\
    0 alloc b 1\n\
    0 alloc c 1\n\
    0 alloc d 0\n\
    0 alloc e 0xffffffffffffffff\n\
    0 alloc f 1 align=3\n\
    0 alloc g 1 bound=3\n\
    0 zone y 1 align=3\n\
    0 zone y 1 bound=3\n\
    0 free z\n\
    0 resize a 2\n\
    1 attach\n\
    0 heap x\n\
    0 unheap x\n\
    0 add x 0 2M 2M\n\
    0 remove x 0 2M\n\
    0 map x 0 2M\n\
    0 unmap x 0 2M\n";

const ANSWERS: [Answer; 38] = [
    Answer::Address { addr: ADDR },
    Answer::NoElement,
    Answer::Yes,
    Answer::NoSpace,
    Answer::Found {
        addr: ADDR,
        len: 128,
    },
    Answer::NotFound,
    Answer::Records { records: 2 },
    Answer::Detached,
    Answer::Socket { socket: 256 },
    Answer::BusyChunks { chunks: 1 },
    Answer::Overlaps { addr: ADDR },
    Answer::Attached { participant: 1 },
    Answer::Refused { call: 2 },
    Answer::InUse { addr: ADDR },
    Answer::Full,
    Answer::NameTooLong,
    Answer::Exists,
    Answer::Done,
    Answer::Done,
    Answer::Statistics { stats: STATS },
    Answer::NotFound,
    Answer::None,
    Answer::NoHeap,
    Answer::BadRequest {
        kind: BadRequest::Zero,
    },
    Answer::BadRequest {
        kind: BadRequest::Overflow,
    },
    Answer::BadRequest {
        kind: BadRequest::Align,
    },
    Answer::BadRequest {
        kind: BadRequest::Bound,
    },
    Answer::BadAlign,
    Answer::BadBound,
    Answer::IsZone,
    Answer::No,
    Answer::Already,
    Answer::BadName,
    Answer::SocketHeap,
    Answer::BadRange,
    Answer::BusyAddress { addr: ADDR },
    Answer::NoChunk,
    Answer::NotAttached,
];

const REPORT: &str = "heapsim report 1\n\
    line 2 0 alloc ok 0x1001ffc00\n\
    line 3 0 free noelem\n\
    line 4 0 resize yes\n\
    line 5 0 zone nospace\n\
    line 6 0 lookup ok 0x1001ffc00 128\n\
    line 7 0 unzone notfound\n\
    line 8 1 attach ok 2\n\
    line 9 1 detach detached\n\
    line 10 0 heap ok 256\n\
    line 11 0 unheap busy 1\n\
    line 12 0 add overlaps 0x1001ffc00\n\
    line 13 0 remove attached 1\n\
    line 14 0 map refused 2\n\
    line 15 0 unmap inuse 0x1001ffc00\n\
    line 16 0 watch full\n\
    line 17 0 unwatch namelong\n\
    line 18 0 limit exists\n\
    line 19 0 unlimit ok\n\
    line 20 1 await ok\n\
    line 21 0 dump total 2097152 free 2096000 used 1152 greatest 2096000 busy 1 frees 1\n\
    line 22 0 stats notfound\n\
    line 23 0 alloc none\n\
    line 24 0 alloc noheap\n\
    line 25 0 alloc bad zero\n\
    line 26 0 alloc bad overflow\n\
    line 27 0 alloc bad align\n\
    line 28 0 alloc bad bound\n\
    line 29 0 zone badalign\n\
    line 30 0 zone badbound\n\
    line 31 0 free iszone\n\
    line 32 0 resize no\n\
    line 33 1 attach already\n\
    line 34 0 heap badname\n\
    line 35 0 unheap socketheap\n\
    line 36 0 add badrange\n\
    line 37 0 remove busy 0x1001ffc00\n\
    line 38 0 map nochunk\n\
    line 39 0 unmap notattached\n\
    end\n";

pub fn show(rt: &impl Abort, alloc: Global, ended: &mut Ended<'_>) -> Result<(), Fail> {
    assert_reports(rt, alloc, ended, ANSWERS.as_slice(), REPORT)
}

#[test]
fn shows_each_verb_and_each_answer(rt: HostRuntime) -> Result<(), Fail> {
    super::show(&rt, rt.alloc(), TEXT, Scene::Answers)
}
