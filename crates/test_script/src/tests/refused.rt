use super::{ended_at, judged};
use hp_script::BadKind;
use std::alloc::Global;
use std::test::Fail;

// A line, the number of the bad one, and its kind.
type Case = (&'static [u8], u32, BadKind);

// Bytes, words and fields.
const WORDS: &[Case] = &[
    (b"\x00", 1, BadKind::Byte),
    (b"0 alloc a 10\x7f0", 1, BadKind::Byte),
    (b"0 alloc \xc3\xa4 10", 1, BadKind::Byte),
    (b"pool 0 2M 4\r \n", 1, BadKind::Byte),
    (b"\n\r\r\n", 2, BadKind::Byte),
    (b"frob \x01\n0 alloc", 1, BadKind::Byte),
    (b"# \x01 0 alloc a\n0 alloc\n", 2, BadKind::Fields),
    (b"frob 1", 1, BadKind::Verb),
    (b"Pool 0 2M 4", 1, BadKind::Verb),
    (b"alloc a 10", 1, BadKind::Verb),
    (b"-1 alloc a 10", 1, BadKind::Verb),
    (b"0 frob a", 1, BadKind::Verb),
    (b"0x1 frob", 1, BadKind::Verb),
    (b"0 Alloc a 10", 1, BadKind::Verb),
    (b"lose frob 0 1", 1, BadKind::Verb),
    (b"repeat frob", 1, BadKind::Verb),
    (b"0", 1, BadKind::Fields),
    (b"pool 0 2M 4\n0 alloc a", 2, BadKind::Fields),
    (b"0x1 alloc", 1, BadKind::Fields),
    (b"lose", 1, BadKind::Fields),
    (b"lose sync", 1, BadKind::Fields),
    (b"lose sync x", 1, BadKind::Fields),
    (b"refuse 0 1 1", 1, BadKind::Fields),
    (b"participants", 1, BadKind::Fields),
    (b"participants 2 3", 1, BadKind::Fields),
    (b"deadline 1 2", 1, BadKind::Fields),
    (b"pool 0 2M", 1, BadKind::Fields),
    (b"pool 0 2M 4 4 4", 1, BadKind::Fields),
    (b"0 free", 1, BadKind::Fields),
    (b"0 free a b", 1, BadKind::Fields),
    (b"0 resize a 1 2", 1, BadKind::Fields),
    (b"0 attach 1", 1, BadKind::Fields),
    (b"0 add ext 1 2", 1, BadKind::Fields),
    (b"0 map ext 1 2 3", 1, BadKind::Fields),
    (b"0 limit v 0 1 allow allow", 1, BadKind::Fields),
    (b"\n\n\t# x\n 0 zone a", 4, BadKind::Fields),
];

// Numbers, ranges and options.
const NUMBERS: &[Case] = &[
    (b"participants x", 1, BadKind::Number),
    (b"absent 0x1", 1, BadKind::Number),
    (b"socket 0x0 0", 1, BadKind::Number),
    (b"lose sync 0x0 1", 1, BadKind::Number),
    (b"pool 32 2M x", 1, BadKind::Number),
    (b"0x0 alloc a 1", 1, BadKind::Number),
    (b"0a alloc a 1", 1, BadKind::Number),
    (b"18446744073709551616 dump x", 1, BadKind::Number),
    (b"0 await 0x0 1", 1, BadKind::Number),
    (b"0 alloc a 12k", 1, BadKind::Number),
    (b"0 alloc a 1K0", 1, BadKind::Number),
    (b"0 alloc a K", 1, BadKind::Number),
    (b"0 alloc a +1", 1, BadKind::Number),
    (b"0 alloc a 0x", 1, BadKind::Number),
    (b"0 alloc a 0X10", 1, BadKind::Number),
    (b"0 alloc a 0x10K", 1, BadKind::Number),
    (b"0 alloc a 18446744073709551616", 1, BadKind::Number),
    (b"0 alloc a 17179869184G", 1, BadKind::Number),
    (b"0 alloc a 0x10000000000000000", 1, BadKind::Number),
    (b"participants 0", 1, BadKind::Range),
    (b"participants 17", 1, BadKind::Range),
    (b"absent 0", 1, BadKind::Range),
    (b"absent 16", 1, BadKind::Range),
    (b"socket 0 32", 1, BadKind::Range),
    (b"deadline 0", 1, BadKind::Range),
    (b"deadline 3600001", 1, BadKind::Range),
    (b"pool 32 2M 4", 1, BadKind::Range),
    (b"pool 0 3M 4", 1, BadKind::Range),
    (b"pool 0 2M 8193", 1, BadKind::Range),
    (b"pool 0 2M 4 0", 1, BadKind::Range),
    (b"lose sync 0 0", 1, BadKind::Range),
    (b"refuse 0 1000001", 1, BadKind::Range),
    (b"0 attach", 1, BadKind::Range),
    (b"16 detach", 1, BadKind::Range),
    (b"1 limit v 0 1", 1, BadKind::Range),
    (b"0 unlimit v 32", 1, BadKind::Range),
    (b"0 zone z 0 frob", 1, BadKind::Range),
    (b"0 await 0 0", 1, BadKind::Range),
    (b"0 alloc a 1 frob", 1, BadKind::Option),
    (b"0 alloc a 1 align=1 align=1", 1, BadKind::Option),
    (b"0 alloc a 1 socket=32", 1, BadKind::Option),
    (b"0 alloc a 1 heap=", 1, BadKind::Option),
    (b"9 alloc a 1 heap=x socket=any", 1, BadKind::Option),
    (b"0 limit v 0 1 deny", 1, BadKind::Option),
];

// What is judged along the text.
const ALONG: &[Case] = &[
    (b"0 zone z 1 flags=4294967296", 1, BadKind::Option),
    (b"0 dump x\npool 0 2M 4", 2, BadKind::Order),
    (b"0 dump x\nparticipants 17", 2, BadKind::Range),
    (
        b"participants 2\n0 dump x\nparticipants 2",
        3,
        BadKind::Order,
    ),
    (b"participants 2\nparticipants 3", 2, BadKind::Duplicate),
    (b"deadline 1\ndeadline 2", 2, BadKind::Duplicate),
    (
        b"participants 3\nabsent 1\nabsent 2\nabsent 1",
        4,
        BadKind::Duplicate,
    ),
    (b"socket 0 0\nsocket 0 1", 2, BadKind::Duplicate),
    (
        b"pool 0 2M 4\npool 1 2M 4\npool 0 2097152 9",
        3,
        BadKind::Duplicate,
    ),
    (
        b"lose sync 0 1\nlose sync 0 2\nrepeat sync 0 1",
        3,
        BadKind::Duplicate,
    ),
    (
        b"lose sync 0 1\nrefuse 0 1\nelsewhere 0 1",
        3,
        BadKind::Duplicate,
    ),
    (
        b"0 alloc a 1\n0 alloc b 1\n0 alloc a 1",
        3,
        BadKind::Duplicate,
    ),
    (b"0 alloc z 1\n0 zone z 1", 1, BadKind::Duplicate),
    (b"0 zone z 1\n0 alloc z 1", 2, BadKind::Duplicate),
    (b"0 alloc a 1\n5 alloc a 1", 2, BadKind::Duplicate),
    (b"0 alloc a 1\n0 zone a", 1, BadKind::Duplicate),
    (b"1 dump x", 1, BadKind::Unknown),
    (b"99 alloc a 1", 1, BadKind::Unknown),
    (b"absent 1\nparticipants 2", 1, BadKind::Unknown),
    (b"participants 2\nsocket 2 0", 2, BadKind::Unknown),
    (b"lose sync 1 1", 1, BadKind::Unknown),
    (b"refuse 18446744073709551615 1", 1, BadKind::Unknown),
    (b"0 free a", 1, BadKind::Unknown),
    (b"0 resize a 1", 1, BadKind::Unknown),
    (b"# 0 alloc a 1\n0 free a", 2, BadKind::Unknown),
    (b"0 free a\n0 alloc b 1", 1, BadKind::Unknown),
    (b"0 free a\n0 alloc a", 2, BadKind::Fields),
    (b"0 await 1 1", 1, BadKind::Unknown),
    (b"0 await 0 1", 1, BadKind::Ahead),
    (b"0 dump x\n0 await 0 2", 2, BadKind::Ahead),
    (b"participants 2\n0 await 1 1\n1 dump x", 2, BadKind::Ahead),
    (
        b"0 dump x\n0 await 0 18446744073709551615",
        2,
        BadKind::Ahead,
    ),
    (b"0 frob\nfrob", 1, BadKind::Verb),
];

// Each of these texts is refused so.
fn are_refused(alloc: Global, cases: &[Case]) -> Result<(), Fail> {
    for at in 0..cases.len() {
        let (text, line, kind) = cases[at];
        if judged(alloc, text) != Some(Err((line, kind))) {
            return ended_at(at);
        }
    }
    Ok(())
}

#[test]
fn words_are_refused(rt: HostRuntime) -> Result<(), Fail> {
    are_refused(rt.alloc(), WORDS)
}

#[test]
fn numbers_are_refused(rt: HostRuntime) -> Result<(), Fail> {
    are_refused(rt.alloc(), NUMBERS)
}

#[test]
fn lines_are_refused_along_the_text(rt: HostRuntime) -> Result<(), Fail> {
    are_refused(rt.alloc(), ALONG)
}
