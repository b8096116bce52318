use super::{ended_at, judged};
use hp_script::BadKind;
use std::alloc::{AllocError, Global};
use std::test::Fail;

const PAGES: &[&str] = &["256K", "2M", "16M", "256M", "512M", "1G", "4G", "16G"];

// A text that is made.
#[derive(Clone, Copy)]
enum Made {
    // So many pool lines, of the eight page sizes of one socket after another, each with so many segments.
    Pools(u32, u32),
    // A word so often, and what comes after it.
    Words(&'static str, u32, &'static str),
}

// The lines of a socket, one for each page size, while there are fewer than so many.
fn add_socket(
    text: &mut String,
    socket: u32,
    written: u32,
    count: u32,
    slots: u32,
) -> Result<u32, AllocError> {
    let mut written = written;
    for at in 0..PAGES.len() {
        if written < count {
            let page = PAGES[at];
            write!(text, "pool {socket} {page} 0 {slots}\n")?;
            written = written.saturating_add(1);
        }
    }
    Ok(written)
}

fn add_pools(text: &mut String, count: u32, slots: u32) -> Result<(), AllocError> {
    let mut written = 0u32;
    for socket in 0..32u32 {
        written = add_socket(text, socket, written, count, slots)?;
    }
    Ok(())
}

fn add_words(text: &mut String, word: &str, count: u32) -> Result<(), AllocError> {
    for _ in 0..count {
        text.push_str(word)?;
    }
    Ok(())
}

fn make(text: &mut String, made: Made) -> Result<(), AllocError> {
    match made {
        Made::Pools(count, slots) => add_pools(text, count, slots),
        Made::Words(word, count, behind) => {
            add_words(text, word, count)?;
            text.push_str(behind)
        }
    }
}

// A text that is made, with the number of its participant lines, or its refusal.
type Case = (Made, Result<usize, (u32, BadKind)>);

fn is_so(alloc: Global, case: Case) -> Result<bool, AllocError> {
    let (made, ends) = case;
    let mut text = String::new(alloc);
    make(&mut text, made)?;
    Ok(judged(alloc, text.as_bytes()) == Some(ends))
}

// Each text is read or refused so.
fn are_so(alloc: Global, cases: &[Case]) -> Result<(), Fail> {
    for at in 0..cases.len() {
        if !is_so(alloc, cases[at])? {
            return ended_at(at);
        }
    }
    Ok(())
}

const COUNTS: &[Case] = &[
    (Made::Pools(128, 1), Ok(0)),
    (Made::Pools(129, 1), Err((129, BadKind::Limit))),
    (Made::Pools(2, 8192), Ok(0)),
    (Made::Pools(3, 8192), Err((3, BadKind::Limit))),
    (Made::Words("0 dump x\n", 20_000, ""), Ok(20_000)),
    (
        Made::Words("0 dump x\n", 20_001, ""),
        Err((20_001, BadKind::Limit)),
    ),
];

#[test]
fn lists_segments_and_lines_have_limits(rt: HostRuntime) -> Result<(), Fail> {
    are_so(rt.alloc(), COUNTS)
}

const LENGTHS: &[Case] = &[
    (Made::Words("x", 255, ""), Err((1, BadKind::Verb))),
    (Made::Words("x", 255, "x 1"), Err((1, BadKind::Long))),
    (Made::Words("x", 255, "x 1\x01"), Err((1, BadKind::Byte))),
];

#[test]
fn fields_have_at_most_255_bytes(rt: HostRuntime) -> Result<(), Fail> {
    are_so(rt.alloc(), LENGTHS)
}
