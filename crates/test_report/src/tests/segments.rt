//! Segments in each state, records of both kinds, and each outcome of an ask.

use super::growths::{Asked, Turn, do_turns};
use super::{Scene, add_table, assert_reports};
use hp_base::MapAnswer;
use hp_report::Ended;
use std::alloc::Global;
use std::process::Abort;
use std::test::Fail;

// Eight pages of 2M in four slots, and a page of 256K on another socket.
const TEXT: &str = "participants 2\npool 0 2M 8 4\npool 1 256K 1\n";

const REPORT: &str = "heapsim report 1\n\
    pool 0 2097152 4\n\
    pool 1 262144 0\n\
    list 0 0 2097152 0x100000000 4\n\
    list 1 1 262144 0x100800000 1\n\
    seg 0x100000000 owned 0\n\
    seg 0x100200000 agreed 3\n\
    seg 0x100400000 agreed 3\n\
    seg 0x100600000 opened\n\
    seg 0x100800000 retiring\n\
    rec 1 add 0x100000000 2097152 0\n\
    rec 2 add 0x100800000 262144 1\n\
    rec 3 add 0x100200000 2097152 0\n\
    rec 4 drop 0x100200000 2097152\n\
    rec 5 add 0x100200000 2097152 0\n\
    rec 6 drop 0x100200000 2097152\n\
    rec 7 add 0x100200000 2097152 0\n\
    rec 8 drop 0x100200000 2097152\n\
    rec 9 add 0x100200000 4194304 3\n\
    rec 10 add 0x100600000 2097152 0\n\
    ask 0 1 refused cannothold 0x100000000 6291456\n\
    ask 0 2 refused nolist\n\
    ask 0 3 refused toofew 8 9\n\
    ask 0 4 refused listfull 4 5\n\
    ask 1 1 granted 1\n\
    ask 0 5 refused denied cap 2097152 4194304\n\
    ask 1 2 granted 2\n\
    ask 0 6 refused mapfailed 1 1 0x100200000 refused\n\
    ask 0 7 refused mapfailed 0 2 0x100200000 0x100400000 2097152 0\n\
    ask 1 3 refused late 1 0 200\n\
    ask 1 4 refused withdrawn 0 600\n\
    ask 0 3 stale 7\n\
    ask 1 5 freed 8\n\
    ask 0 8 granted 9\n\
    table 0 in 10 5\n\
    map 0 0x100000000 2097152 0\n\
    map 0 0x100200000 2097152 0\n\
    map 0 0x100400000 2097152 0\n\
    map 0 0x100600000 2097152 0\n\
    map 0 0x100800000 262144 1\n\
    end\n";

// 1000 bytes in a page of 2M.
const ONE_PAGE: Asked = Asked {
    heap: 0,
    socket: 0,
    page: 0x20_0000,
    size: 1000,
    align: 0,
};

const TWO_PAGES: Asked = Asked {
    heap: 3,
    size: 0x20_0000,
    ..ONE_PAGE
};

// More than the list has slots, and more than the pool has pages.
const FIVE_PAGES: Asked = Asked {
    size: 0x80_0000,
    ..ONE_PAGE
};

const NINE_PAGES: Asked = Asked {
    size: 0x100_0000,
    ..ONE_PAGE
};

// Three pages, in which 4M have no place at a multiple of 4M.
const ALIGNED: Asked = Asked {
    size: 0x40_0000,
    align: 0x40_0000,
    ..ONE_PAGE
};

const PAGE_1G: Asked = Asked {
    page: 0x4000_0000,
    ..ONE_PAGE
};

const PAGE_256K: Asked = Asked {
    heap: 1,
    socket: 1,
    page: 0x4_0000,
    ..ONE_PAGE
};

const REFUSED: Turn = Turn::Fail {
    participant: 1,
    call: 1,
    got: MapAnswer::Refused,
};

const ELSEWHERE: Turn = Turn::Fail {
    participant: 0,
    call: 2,
    got: MapAnswer::At {
        addr: 0x1_0040_0000,
        page: 0x20_0000,
        socket: 0,
    },
};

// Asks of the two participants, by their numbers.
const TURNS: [(u8, u64, Asked, Turn); 15] = [
    (0, 1, ALIGNED, Turn::Refuse),
    (0, 2, PAGE_1G, Turn::Refuse),
    (0, 3, NINE_PAGES, Turn::Refuse),
    (0, 4, FIVE_PAGES, Turn::Refuse),
    (1, 1, ONE_PAGE, Turn::Take),
    (0, 5, ONE_PAGE, Turn::Deny { limit: 0x20_0000 }),
    (1, 2, PAGE_256K, Turn::Retire),
    (0, 6, ONE_PAGE, REFUSED),
    (0, 7, ONE_PAGE, ELSEWHERE),
    (1, 3, ONE_PAGE, Turn::Late { to: 200 }),
    (1, 4, ONE_PAGE, Turn::Withdraw { to: 600 }),
    (0, 3, ONE_PAGE, Turn::Stale),
    (1, 5, ONE_PAGE, Turn::Freed),
    (0, 8, TWO_PAGES, Turn::Grant),
    (0, 9, ONE_PAGE, Turn::Open),
];

pub fn show(rt: &impl Abort, alloc: Global, ended: &mut Ended<'_>) -> Result<(), Fail> {
    do_turns(&mut ended.segs, TURNS.as_slice())?;
    add_table(alloc, ended)?;
    assert_reports(rt, alloc, ended, &[], REPORT)
}

#[test]
fn shows_each_state_record_and_outcome(rt: HostRuntime) -> Result<(), Fail> {
    super::show(&rt, rt.alloc(), TEXT, Scene::Segments)
}
