use super::{ended_at, judged, outcome};
use hp_script::{BadKind, Line, ParseFault, maker_of, parse};
use std::alloc::Global;
use std::test::Fail;

// A text at a limit, and one past it in its last line, with that line and its refusal.
type Limit = (&'static [u8], &'static [u8], u32, BadKind);

// The limits of the facts that hold of each workload: of setup lines, and of participant lines by verb.
const SETUPS: &[Limit] = &[
    (b"participants 16", b"participants 17", 1, BadKind::Range),
    (b"participants 1", b"participants 0", 1, BadKind::Range),
    (b"deadline 3600000", b"deadline 3600001", 1, BadKind::Range),
    (b"deadline 1", b"deadline 0", 1, BadKind::Range),
    (b"socket 0 31", b"socket 0 32", 1, BadKind::Range),
    (
        b"participants 16\nsocket 15 0",
        b"participants 16\nsocket 16 0",
        2,
        BadKind::Unknown,
    ),
    (
        b"participants 16\nabsent 15",
        b"participants 16\nabsent 16",
        2,
        BadKind::Range,
    ),
    (
        b"participants 2\nabsent 1",
        b"participants 2\nabsent 0",
        2,
        BadKind::Range,
    ),
    (
        b"participants 3\nabsent 1\nabsent 2",
        b"participants 3\nabsent 2\nabsent 02",
        3,
        BadKind::Duplicate,
    ),
    (
        b"participants 2\nsocket 0 1\nsocket 1 1",
        b"participants 2\nsocket 1 1\nsocket 01 2",
        3,
        BadKind::Duplicate,
    ),
    (
        b"lose alloc 0 1000000",
        b"lose alloc 0 1000001",
        1,
        BadKind::Range,
    ),
    (b"refuse 0 1", b"refuse 0 0", 1, BadKind::Range),
    (
        b"lose alloc 0 1\nrepeat alloc 0 2",
        b"lose alloc 0 1\nrepeat alloc 00 0x1",
        2,
        BadKind::Duplicate,
    ),
    (
        b"refuse 0 1\nelsewhere 0 2",
        b"refuse 0 1\nelsewhere 0 1",
        2,
        BadKind::Duplicate,
    ),
];

const CALLS: &[Limit] = &[
    (
        b"0 alloc a 18446744073709551615",
        b"0 alloc a 18446744073709551616",
        1,
        BadKind::Number,
    ),
    (
        b"0 alloc a 1 socket=31",
        b"0 alloc a 1 socket=32",
        1,
        BadKind::Option,
    ),
    (
        b"0 alloc a 1 flags=4294967295",
        b"0 alloc a 1 flags=4294967296",
        1,
        BadKind::Option,
    ),
    (
        b"0 alloc a 1 bound=0xffffffffffffffff align=17179869183G",
        b"0 alloc a 1 bound=0xffffffffffffffff align=17179869184G",
        1,
        BadKind::Option,
    ),
    (b"0 zone z 1", b"0 zone z 0", 1, BadKind::Range),
    (
        b"participants 16\n15 attach",
        b"participants 16\n16 attach",
        2,
        BadKind::Range,
    ),
    (
        b"participants 2\n1 detach",
        b"participants 2\n0 detach",
        2,
        BadKind::Range,
    ),
    (b"0 limit v 31 1", b"0 limit v 32 1", 1, BadKind::Range),
    (b"0 unlimit v 31", b"0 unlimit v 32", 1, BadKind::Range),
    (
        b"participants 2\n0 limit v 0 1",
        b"participants 2\n1 limit v 0 1",
        2,
        BadKind::Range,
    ),
    (
        b"0 dump x\n0 await 0 1",
        b"0 dump x\n0 await 0 0",
        2,
        BadKind::Range,
    ),
    (
        b"participants 2\n1 dump x\n1 dump x\n0 dump x\n0 await 1 2",
        b"participants 2\n1 dump x\n1 dump x\n0 dump x\n0 await 1 3",
        5,
        BadKind::Ahead,
    ),
    (
        b"participants 2\n1 dump x\n0 await 1 1",
        b"participants 2\n1 dump x\n0 await 2 1",
        3,
        BadKind::Unknown,
    ),
    (
        b"participants 2\n1 dump x",
        b"participants 2\n2 dump x",
        2,
        BadKind::Unknown,
    ),
    (b"0 free a\n0 alloc a 1", b"0 free a", 1, BadKind::Unknown),
    (
        b"0 resize z 1\n0 zone z 1",
        b"0 zone y 1\n0 resize z 1",
        2,
        BadKind::Unknown,
    ),
];

fn is_limit(alloc: Global, limit: Limit) -> bool {
    let (within, past, number, expected) = limit;
    let refused = judged(alloc, past) == Some(Err((number, expected)));
    refused && outcome(alloc, within).is_ok()
}

// Each of these texts is one at its limit.
fn are_limits(alloc: Global, limits: &[Limit]) -> Result<(), Fail> {
    for at in 0..limits.len() {
        if !is_limit(alloc, limits[at]) {
            return ended_at(at);
        }
    }
    Ok(())
}

#[test]
fn facts_of_setup_lines_hold_up_to_their_limits(rt: HostRuntime) -> Result<(), Fail> {
    are_limits(rt.alloc(), SETUPS)
}

#[test]
fn facts_of_participant_lines_hold_up_to_their_limits(rt: HostRuntime) -> Result<(), Fail> {
    are_limits(rt.alloc(), CALLS)
}

// The label `z` of a memzone that two lines reserve, and the label `a`, which is freed before it is made.
const MAKERS: &[u8] = b"participants 3
# 0 alloc b 1
2 free a
0 lookup z
1 zone z 1
2 zone z 2
1 alloc a 1
0 resize z 1";

// The number and the participant of the line that makes a name, or 0.
fn maker(lines: &[Line], name: &[u8]) -> (u32, u8) {
    match maker_of(lines, name) {
        None => (0, 0),
        Some(line) => (line.line, line.participant),
    }
}

// The makers of three names.
fn makers(alloc: Global) -> Result<[(u32, u8); 3], ParseFault> {
    let read = parse(alloc, MAKERS)?;
    Ok([
        maker(&read.lines, b"a"),
        maker(&read.lines, b"z"),
        maker(&read.lines, b"b"),
    ])
}

#[test]
fn the_maker_of_a_name_is_the_first_line_that_makes_it(rt: HostRuntime) -> Result<(), Fail> {
    assert!(rt; makers(rt.alloc())? == [(7, 1), (5, 1), (0, 0)]);
    Ok(())
}

const VERBS: &[&str] = &[
    "alloc", "free", "resize", "zone", "lookup", "unzone", "attach", "detach", "heap", "unheap",
    "add", "remove", "map", "unmap", "watch", "unwatch", "limit", "unlimit", "await", "dump",
    "stats",
];

// One line for each verb, in the order of the words.
const EACH: &[u8] = b"participants 2
0 alloc a 1
0 free a
0 resize a 1
0 zone z 1
0 lookup z
0 unzone z
1 attach
1 detach
0 heap h
0 unheap h
0 add h 1 2 3
0 remove h 1 2
0 map h 1 2
0 unmap h 1 2
0 watch w
0 unwatch w
0 limit v 0 1
0 unlimit v 0
0 await 0 1
0 dump h
0 stats h";

// Whether the lines have these verbs, each line one.
fn have_verbs(lines: &[Line], verbs: &[&str]) -> bool {
    if lines.len() != verbs.len() {
        return false;
    }
    for at in 0..lines.len() {
        if lines[at].act.verb() != verbs[at] {
            return false;
        }
    }
    true
}

#[test]
fn an_act_has_the_word_of_its_verb(rt: HostRuntime) -> Result<(), Fail> {
    let read = parse(rt.alloc(), EACH)?;
    assert!(rt; have_verbs(&read.lines, VERBS));
    Ok(())
}
