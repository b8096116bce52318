//! The whole report of a run of two participants over a page of 2M and one of 256K.
ghost use Rattle.std.specs.Prelude.{◌≡◌, Some};
ghost use Rattle.hp_heap.specs.PlainHeap.{opening_heap};

use super::growths::{Asked, Turn, do_turns};
use super::heaps::{Step, Wanted, do_steps, grow_large, grow_small};
use super::{Scene, add_table, assert_reports};
use hp_base::Stats;
use hp_heap::Heap;
use hp_report::Ended;
use hp_script::Answer;
use std::alloc::Global;
use std::process::Abort;
use std::test::Fail;

const TEXT: &str = "participants 2\n\
    pool 0 2M 1\n\
    pool 0 256K 1\n\
    0 alloc a 1000 flags=0x1\n\
    1 zone s 64 bound=2048 flags=0x10000\n\
    0 alloc b 1000 align=128 flags=0x1\n\
    0 alloc c 64 flags=0x1\n\
    0 alloc d 1000 flags=0x1\n\
    0 free b\n\
    1 zone z 960\n\
    0 free c\n\
    0 resize d 512\n\
    0 resize d 2048\n\
    0 free s\n\
    1 unzone s\n\
    0 free b\n\
    1 dump socket_0\n";

const REPORT: &str = "heapsim report 1\n\
    line 4 0 alloc ok 0x1001ffc00\n\
    line 5 1 zone ok 0x10023ffc0\n\
    line 6 0 alloc ok 0x1001ff780\n\
    line 7 0 alloc ok 0x1001ff6c0\n\
    line 8 0 alloc ok 0x1001ff240\n\
    line 9 0 free ok\n\
    line 10 1 zone ok 0x1001ff7c0\n\
    line 11 0 free ok\n\
    line 12 0 resize yes\n\
    line 13 0 resize no\n\
    line 14 0 free iszone\n\
    line 15 1 unzone ok\n\
    line 16 0 free noelem\n\
    line 17 1 dump total 2097152 free 2093696 used 3456 greatest 2093504 busy 3 frees 2\n\
    heap 0 socket_0 0 total 2097152 free 2093696 used 3456 greatest 2093504 busy 3 frees 2\n\
    elem 0x100000000 2093504 free 7\n\
    elem 0x1001ff1c0 1152 busy 0 512 0 d\n\
    elem 0x1001ff640 192 free 0\n\
    elem 0x1001ff700 1152 busy 64 960 1 z\n\
    elem 0x1001ffb80 1152 busy 0 1024 0 a\n\
    hist 0 1 0 1 alloc 1024 64 0 0x1 a -> none\n\
    hist 0 2 0 2 grow 0x100000000 2097152 -> ok\n\
    hist 0 3 0 3 alloc 1024 64 0 0x1 a -> 0x1001ffc00\n\
    hist 0 4 1 1 alloc 64 64 2048 0x10000 s -> none\n\
    hist 0 5 1 2 grow 0x100200000 262144 -> ok\n\
    hist 0 6 1 3 alloc 64 64 2048 0x10000 s -> 0x10023ffc0\n\
    hist 0 7 0 4 alloc 1024 128 0 0x1 b -> 0x1001ff780\n\
    hist 0 8 0 5 alloc 64 64 0 0x1 c -> 0x1001ff6c0\n\
    hist 0 9 0 6 alloc 1024 64 0 0x1 d -> 0x1001ff240\n\
    hist 0 10 0 7 find b -> 0x1001ff780\n\
    hist 0 11 0 8 free 0x1001ff780 -> ok\n\
    hist 0 12 0 9 cut 0x1001ff780 -> none\n\
    hist 0 13 1 4 alloc 960 64 0 0x0 z -> 0x1001ff7c0\n\
    hist 0 14 0 10 find c -> 0x1001ff6c0\n\
    hist 0 15 0 11 free 0x1001ff6c0 -> ok\n\
    hist 0 16 0 12 cut 0x1001ff6c0 -> none\n\
    hist 0 17 0 13 find d -> 0x1001ff240\n\
    hist 0 18 0 14 resize 0x1001ff240 512 -> yes\n\
    hist 0 19 0 15 find d -> 0x1001ff240\n\
    hist 0 20 0 16 resize 0x1001ff240 2048 -> no\n\
    hist 0 21 0 17 find s -> 0x10023ffc0\n\
    hist 0 22 0 18 free 0x10023ffc0 -> iszone\n\
    hist 0 23 1 5 find s -> 0x10023ffc0\n\
    hist 0 24 1 6 free 0x10023ffc0 -> ok\n\
    hist 0 25 1 7 cut 0x10023ffc0 -> 0x100200000 262144\n\
    hist 0 26 0 19 find b -> none\n\
    hist 0 27 1 8 stats -> 2097152 2093696 3456 2093504 3 2\n\
    hist 0 28 1 9 free 0x0 -> notelem\n\
    hist 0 29 1 18446744073709551615 find  -> none\n\
    pool 0 2097152 0\n\
    pool 0 262144 1\n\
    list 0 0 2097152 0x100000000 1\n\
    list 1 0 262144 0x100200000 1\n\
    seg 0x100000000 owned 0\n\
    rec 1 add 0x100000000 2097152 0\n\
    rec 2 add 0x100200000 262144 0\n\
    rec 3 drop 0x100200000 262144\n\
    ask 0 1 granted 1\n\
    ask 1 1 granted 2\n\
    ask 1 2 freed 3\n\
    table 0 in 3 1\n\
    map 0 0x100000000 2097152 0\n\
    table 1 in 3 1\n\
    map 1 0x100000000 2097152 0\n\
    end\n";

const STATS: Stats = Stats {
    total: 2_097_152,
    free: 2_093_696,
    used: 3_456,
    greatest: 2_093_504,
    busy: 3,
    frees: 2,
};

const ANSWERS: [Answer; 14] = [
    Answer::Address {
        addr: 0x1_001f_fc00,
    },
    Answer::Address {
        addr: 0x1_0023_ffc0,
    },
    Answer::Address {
        addr: 0x1_001f_f780,
    },
    Answer::Address {
        addr: 0x1_001f_f6c0,
    },
    Answer::Address {
        addr: 0x1_001f_f240,
    },
    Answer::Done,
    Answer::Address {
        addr: 0x1_001f_f7c0,
    },
    Answer::Done,
    Answer::Yes,
    Answer::No,
    Answer::IsZone,
    Answer::Done,
    Answer::NoElement,
    Answer::Statistics { stats: STATS },
];

// What lines 4, 5 and the later ones ask for.
const A: Wanted = Wanted {
    line: 4,
    zone: false,
    size: 1000,
    align: 0,
    bound: 0,
    flags: 0x1,
};

const S: Wanted = Wanted {
    line: 5,
    zone: true,
    size: 64,
    align: 0,
    bound: 2048,
    flags: 0x1_0000,
};

const B: Wanted = Wanted {
    line: 6,
    align: 128,
    ..A
};

const C: Wanted = Wanted {
    line: 7,
    size: 64,
    ..A
};

const D: Wanted = Wanted { line: 8, ..A };

const Z: Wanted = Wanted {
    line: 10,
    zone: true,
    size: 960,
    flags: 0,
    ..A
};

const ADDR_B: u64 = 0x1_001f_f780;

const ADDR_C: u64 = 0x1_001f_f6c0;

const ADDR_S: u64 = 0x1_0023_ffc0;

// The calls after the growths, each with its participant and the number of the first one. No line makes the last two.
const STEPS: [(u8, u64, Step); 20] = [
    (0, 4, Step::Alloc { wanted: B }),
    (0, 5, Step::Alloc { wanted: C }),
    (0, 6, Step::Alloc { wanted: D }),
    (
        0,
        7,
        Step::Find {
            line: 6,
            zone: false,
        },
    ),
    (0, 8, Step::Free { addr: ADDR_B }),
    (0, 9, Step::Cut { addr: ADDR_B }),
    (1, 4, Step::Alloc { wanted: Z }),
    (
        0,
        10,
        Step::Find {
            line: 7,
            zone: false,
        },
    ),
    (0, 11, Step::Free { addr: ADDR_C }),
    (0, 12, Step::Cut { addr: ADDR_C }),
    (0, 13, Step::Resize { line: 8, size: 512 }),
    (
        0,
        15,
        Step::Resize {
            line: 8,
            size: 2048,
        },
    ),
    (
        0,
        17,
        Step::Find {
            line: 5,
            zone: true,
        },
    ),
    (0, 18, Step::Free { addr: ADDR_S }),
    (1, 5, Step::FreeZone { line: 5 }),
    (1, 7, Step::Cut { addr: ADDR_S }),
    (
        0,
        19,
        Step::Find {
            line: 6,
            zone: false,
        },
    ),
    (1, 8, Step::Stats),
    (1, 9, Step::Free { addr: 0 }),
    (
        1,
        u64::MAX,
        Step::Find {
            line: 9,
            zone: false,
        },
    ),
];

const LARGE: Asked = Asked {
    heap: 0,
    socket: 0,
    page: 0x20_0000,
    size: 1000,
    align: 0,
};

const SMALL: Asked = Asked {
    page: 0x4_0000,
    size: 64,
    ..LARGE
};

// The asks for the two pages, and the notice that the second is given up.
const TURNS: [(u8, u64, Asked, Turn); 4] = [
    (0, 1, LARGE, Turn::Take),
    (1, 1, SMALL, Turn::Retire),
    (1, 2, SMALL, Turn::Drop),
    (1, 2, SMALL, Turn::Freed),
];

fn add_heap(alloc: Global, heaps: &mut Vec<Heap>) -> Result<(), Fail> {
    heaps.reserve(1)?;
    let mut heap = Heap::socket(alloc, 0, 0);
    use_heap(&mut heap)?;
    heaps.push_reserved(heap);
    Ok(())
}

fn use_heap(heap: &mut Heap) -> Result<(), Fail>
    requires opens { heap.old.plain ≡ opening_heap 0 (Some 0) }
{
    grow_large(heap, &A)?;
    grow_small(heap, &S)?;
    do_steps(heap, STEPS.as_slice())
}

pub fn show(rt: &impl Abort, alloc: Global, ended: &mut Ended<'_>) -> Result<(), Fail> {
    add_heap(alloc, &mut ended.heaps)?;
    do_turns(&mut ended.segs, TURNS.as_slice())?;
    add_table(alloc, ended)?;
    add_table(alloc, ended)?;
    assert_reports(rt, alloc, ended, ANSWERS.as_slice(), REPORT)
}

#[test]
fn shows_a_run_of_two_participants(rt: HostRuntime) -> Result<(), Fail> {
    super::show(&rt, rt.alloc(), TEXT, Scene::Heap)
}
