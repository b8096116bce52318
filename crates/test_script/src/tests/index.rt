use hp_script::{Act, Line, ParseFault, Token, maker_near, maker_of, parse};
use std::alloc::{AllocError, Global};
use std::test::Fail;

// The number and the participant of a line, or 0.
fn place(line: Option<&Line>) -> (u32, u8) {
    match line {
        None => (0, 0),
        Some(line) => (line.line, line.participant),
    }
}

// What a line frees, resizes or looks up.
fn named<'a, 'b>(line: &'b Line<'a>) -> Option<&'b Token<'a>> {
    match &line.act {
        Act::Free { label } => Some(label),
        Act::Resize { label, .. } => Some(label),
        Act::Lookup { name } => Some(name),
        _ => None,
    }
}

// The label `z` of a memzone that two lines reserve; `a`, which is freed before it is made, and the front of `ab`; `b`, which is
// looked up alone.
const NAMES: &[u8] = b"participants 3

2 free a
0 alloc ab 1
0 lookup z
0 lookup b
1 zone z 1
2 zone z 2
1 alloc a 1
2 resize ab 1";

// The lines that make what lines free, resize or look up.
fn places(alloc: Global) -> Result<Vec<(u32, u8)>, ParseFault> {
    let read = parse(alloc, NAMES)?;
    let mut places = Vec::new(alloc);
    for line in &read.lines {
        if let Some(label) = named(line) {
            places.push(place(maker_near(&read.lines, label)))?;
        }
    }
    Ok(places)
}

#[test]
fn the_first_line_that_makes_a_name_is_found(rt: HostRuntime) -> Result<(), Fail> {
    assert!(rt; places(rt.alloc())?.as_slice() == [(9, 1), (7, 1), (0, 0), (4, 0)].as_slice());
    Ok(())
}

// The lines of an empty name, and of the front of another.
fn others(alloc: Global) -> Result<[(u32, u8); 2], ParseFault> {
    let read = parse(alloc, NAMES)?;
    Ok([
        place(maker_of(&read.lines, b"")),
        place(maker_of(&read.lines, b"a")),
    ])
}

#[test]
fn another_name_is_not_found(rt: HostRuntime) -> Result<(), Fail> {
    assert!(rt; others(rt.alloc())? == [(0, 0), (9, 1)]);
    Ok(())
}

// Lines that free 10,000 labels, the last one first, and after them those that make them, with a line that is skipped before each.
fn make_labels(text: &mut String) -> Result<(), AllocError> {
    for number in 0..10_000u32 {
        write!(text, "0 free l{}\n", 10_000 - number)?;
    }
    for number in 1..10_001u32 {
        write!(text, "#\n0 alloc l{number} 64\n")?;
    }
    Ok(())
}

// How many of the labels that lines free are found in the line that makes them.
fn found(alloc: Global, text: &[u8]) -> Result<u32, ParseFault> {
    if text.len() > 1048576 {
        return Ok(0);
    }
    let read = parse(alloc, text)?;
    let mut count = 0u32;
    for line in &read.lines {
        if let Some(label) = named(line) {
            let (number, _who) = place(maker_near(&read.lines, label));
            if number == 30_002u32.saturating_sub(line.line.saturating_mul(2)) {
                count = count.saturating_add(1);
            }
        }
    }
    Ok(count)
}

// Every look-up goes to a few lines: 10,000 of 20,000 lines take milliseconds.
#[test]
fn each_of_many_names_is_found(rt: HostRuntime) -> Result<(), Fail> {
    let mut text = String::new(rt.alloc());
    make_labels(&mut text)?;
    assert!(rt; found(rt.alloc(), text.as_bytes())? == 10_000);
    Ok(())
}
