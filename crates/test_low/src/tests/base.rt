//! Worked values of what is counted and named: classes, multiples, requests, places, names and statuses.
use super::ended;
use hp_base::{
    BadRequest, Name, Request, Status, align_ceil, align_floor, class_of, is_page_size, pages_for,
    place, round64,
};
use std::test::Fail;

const MB: u64 = 0x10_0000;

// One call, with its answer.
#[derive(Clone, Copy)]
enum Case {
    // The class of a size.
    Class(u64, u8),
    // The multiple of 256 at a number or below it, and that at it or above.
    Multiples(u64, u64, Option<u64>),
    // The bytes of the cache lines of a size.
    Lines(u64, Option<u64>),
    // A request of a size, an alignment and a bound is refused, or taken.
    Asks(u64, u64, u64, Option<BadRequest>),
    // A request of a size and an alignment, with the flags 5, keeps these two.
    Keeps(u64, u64, (u64, u64)),
    // Where the data of a request of a size, an alignment and a bound lie that ends at an address, from 4 GB on.
    Places(u64, (u64, u64, u64), Option<u64>),
    // The pages, of that size, of a request of a size and an alignment.
    Pages(u64, u64, u64, u64),
    // Whether pages have that size.
    PageSize(u64, bool),
    // A name may have so many bytes, or not.
    Names(usize, bool),
    // A status has that code.
    Code(Status, u8),
}

// The two multiples of 256 beside a number.
fn multiples(n: u64) -> Option<(u64, Option<u64>)> {
    let unit = 256u64;
    if unit.is_power_of_two() {
        Some((align_floor(n, unit), align_ceil(n, unit)))
    } else {
        None
    }
}

// What a request keeps: its size and alignment, and its bound and flags.
fn kept(size: u64, align: u64) -> Option<((u64, u64), (u64, u32))> {
    let request = Request::new(size, align, 0, 5).ok()?;
    Some((
        (request.size, request.align),
        (request.bound, request.flags),
    ))
}

// Where a request lies that ends at an address.
fn placed(end: u64, size: u64, align: u64, bound: u64) -> Option<Option<u64>> {
    let request = Request::new(size, align, bound, 0).ok()?;
    if end <= 0x1_0000_0000 {
        return None;
    }
    Some(place(0x1_0000_0000, end, &request))
}

// How many pages a request takes.
fn pages(size: u64, align: u64, page: u64) -> Option<u64> {
    let request = Request::new(size, align, 0, 0).ok()?;
    if is_page_size(page) {
        Some(pages_for(&request, page))
    } else {
        None
    }
}

// The name of so many letters, 64 at most: it keeps them all, the first ones make the same name as the last, and no other one.
fn is_named(len: usize) -> bool {
    let text = [b'z'; 64];
    if len > 64 {
        return false;
    }
    let Some(name) = Name::new(&text[..len]) else {
        return false;
    };
    name.as_bytes().len() == len
        && Some(name) == Name::new(&text[64 - len..])
        && Some(name) != Name::new(b"zy")
}

// Whether a call has that answer.
fn is_so(case: Case) -> bool {
    match case {
        Case::Class(size, class) => class_of(size) == class,
        Case::Multiples(n, down, up) => multiples(n) == Some((down, up)),
        Case::Lines(n, up) => round64(n) == up,
        Case::Asks(size, align, bound, refusal) => {
            Request::new(size, align, bound, 0).err() == refusal
        }
        Case::Keeps(size, align, both) => kept(size, align) == Some((both, (0, 5))),
        Case::Places(end, (size, align, bound), address) => {
            placed(end, size, align, bound) == Some(address)
        }
        Case::Pages(size, align, page, count) => pages(size, align, page) == Some(count),
        Case::PageSize(page, known) => is_page_size(page) == known,
        Case::Names(len, named) => is_named(len) == named,
        Case::Code(status, code) => status.code() == code,
    }
}

// Each call has its answer.
fn hold(cases: &[Case]) -> Result<(), Fail> {
    for at in 0..cases.len() {
        if !is_so(cases[at]) {
            return ended(Some(at));
        }
    }
    Ok(())
}

const CLASSES: &[Case] = &[
    Case::Class(0, 0),
    Case::Class(1, 0),
    Case::Class(256, 0),
    Case::Class(257, 1),
    Case::Class(1024, 1),
    Case::Class(1025, 2),
    Case::Class(0x4000_0000, 11),
    Case::Class(0x4000_0001, 12),
    Case::Class(u64::MAX, 12),
];

#[test]
fn classes_have_their_limits() -> Result<(), Fail> {
    hold(CLASSES)
}

const ROUNDED: &[Case] = &[
    Case::Multiples(0, 0, Some(0)),
    Case::Multiples(1, 0, Some(256)),
    Case::Multiples(256, 256, Some(256)),
    Case::Multiples(1000, 768, Some(1024)),
    Case::Multiples(
        0xffff_ffff_ffff_ff00,
        0xffff_ffff_ffff_ff00,
        Some(0xffff_ffff_ffff_ff00),
    ),
    Case::Multiples(0xffff_ffff_ffff_ff01, 0xffff_ffff_ffff_ff00, None),
    Case::Lines(1000, Some(1024)),
    Case::Lines(u64::MAX, None),
];

#[test]
fn rounds_to_the_multiple_on_its_side() -> Result<(), Fail> {
    hold(ROUNDED)
}

const REFUSED: &[Case] = &[
    Case::Asks(0, 48, 3, Some(BadRequest::Zero)),
    Case::Asks(u64::MAX, 0, 0, Some(BadRequest::Overflow)),
    // Rounded to cache lines it passes 64 bits, whatever the alignment; one byte less does not.
    Case::Asks(0xffff_ffff_ffff_ffc1, 48, 3, Some(BadRequest::Overflow)),
    Case::Asks(0xffff_ffff_ffff_ffc0, 48, 3, Some(BadRequest::Align)),
    // The greatest size whose header and pages are numbers of 64 bits, and one byte more.
    Case::Asks(0xffff_fffb_ffff_ff80, 0, 0, None),
    Case::Asks(0xffff_fffb_ffff_ff81, 0, 0, Some(BadRequest::Overflow)),
    Case::Asks(64, 48, 3, Some(BadRequest::Align)),
    Case::Asks(64, 48, 0, Some(BadRequest::Align)),
    Case::Asks(1000, 0, 512, Some(BadRequest::Bound)),
    Case::Asks(1000, 0, 1000, Some(BadRequest::Bound)),
    Case::Asks(1000, 0, 1024, None),
];

#[test]
fn requests_are_refused_in_order() -> Result<(), Fail> {
    hold(REFUSED)
}

const KEPT: &[Case] = &[
    Case::Keeps(1, 0, (64, 64)),
    Case::Keeps(1000, 32, (1024, 64)),
    Case::Keeps(64, MB, (64, MB)),
];

#[test]
fn requests_are_rounded() -> Result<(), Fail> {
    hold(KEPT)
}

const PLACED: &[Case] = &[
    Case::Places(0x1_0020_0000, (1000, 0, 0), Some(0x1_001f_fc00)),
    Case::Places(0x1_0020_0000, (2_096_960, 0, 0), Some(0x1_0000_00c0)),
    Case::Places(0x1_0020_0000, (2_097_088, 0, 0), None),
    Case::Places(0x1_0020_0000, (64, MB, 0), Some(0x1_0010_0000)),
    Case::Places(0x1_000f_ff80, (64, 0, 0), Some(0x1_000f_ff40)),
    Case::Places(0x1_0020_0000, (1000, 0, 1024), Some(0x1_001f_fc00)),
    Case::Places(0x1_001f_fb80, (1000, 0, 1024), Some(0x1_001f_f400)),
    Case::Places(0x1_0060_0000, (4 * MB, 4 * MB, 0), None),
];

#[test]
fn places_are_those_of_worked_heaps() -> Result<(), Fail> {
    hold(PLACED)
}

const PAGES: &[Case] = &[
    Case::Pages(1000, 0, 2 * MB, 1),
    Case::Pages(2_097_024, 0, 2 * MB, 1),
    Case::Pages(2_097_025, 0, 2 * MB, 2),
    Case::Pages(2_097_152, 0, 2 * MB, 2),
    Case::Pages(4 * MB, 4 * MB, 2 * MB, 3),
    Case::Pages(4_194_240, 0, 2 * MB, 3),
    Case::PageSize(0x4_0000, true),
    Case::PageSize(2 * MB, true),
    Case::PageSize(4 * MB, false),
    Case::PageSize(0, false),
];

#[test]
fn asks_for_the_pages_of_size_and_header() -> Result<(), Fail> {
    hold(PAGES)
}

const NAMED: &[Case] = &[
    Case::Names(0, false),
    Case::Names(1, true),
    Case::Names(31, true),
    Case::Names(63, true),
    Case::Names(64, false),
];

#[test]
fn names_have_1_to_63_bytes() -> Result<(), Fail> {
    hold(NAMED)
}

const CODES: &[Case] = &[
    Case::Code(Status::Ok, 0),
    Case::Code(Status::Usage, 1),
    Case::Code(Status::BadWorkload, 2),
    Case::Code(Status::ReadFault, 3),
    Case::Code(Status::WriteFault, 4),
    Case::Code(Status::OutOfMemory, 5),
    Case::Code(Status::TooLong, 6),
];

#[test]
fn statuses_have_their_codes() -> Result<(), Fail> {
    hold(CODES)
}
