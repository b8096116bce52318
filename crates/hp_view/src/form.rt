//! The form of a line of a report: its fields, and what the picture takes of it.
ghost use Rattle.std.specs.Prelude.{◌≡◌, ◌==◌, ◌<◌, length, position, OnOk, IfSome};
ghost use Rattle.std.specs.List.{list_all};
ghost use Rattle.hp_view.specs.Form.{address, ask_line, busy_line, cause_of, element_line, field, fields_of, form_of, free_line, heap_line, is_at, is_other, is_printable, list_line, log_line, number, number_to, other_line, outcome_of, record_line, segment_line, table_line};

use crate::line::Line;
use crate::number::numeral;
use crate::outcome::{Cause, Outcome};
use crate::word::Word;
use std::alloc::AllocError;

// Whether a byte may stand in a line of a report: printable ASCII.
fn is_printable(byte: u8) -> bool
    ensures { result ≡ is_printable byte }
{
    32 <= byte && byte <= 126
}

/// Whether all bytes of a line may stand there.
pub fn are_printable(text: &[u8]) -> bool
    ensures { result ≡ list_all is_printable text.now }
{
    text.iter().all(|byte| is_printable(*byte))
}

// A field, or an empty one where there are not so many.
fn field<'a>(fields: &[Word<'a>], at: usize) -> Word<'a>
    ensures { result ≡ field fields.now at }
{
    if at < fields.len() {
        fields[at].again()
    } else {
        Word::new(b"")
    }
}

// Whether a field is this word.
fn is_at(fields: &[Word<'_>], at: usize, word: &[u8]) -> bool
    ensures { result ≡ is_at fields.now at word.now }
{
    field(fields, at).is(word)
}

// The number that a field writes.
fn number(fields: &[Word<'_>], at: usize) -> Option<u64>
    ensures { result ≡ number fields.now at }
{
    numeral(10, field(fields, at).as_bytes())
}

// The number that a field writes, where it is at most so large.
fn number_to(most: u64, fields: &[Word<'_>], at: usize) -> Option<u64>
    ensures { result ≡ number_to most fields.now at }
{
    let n = number(fields, at)?;
    if n <= most { Some(n) } else { None }
}

// The address that a field writes.
fn address(fields: &[Word<'_>], at: usize) -> Option<u64>
    ensures { result ≡ address fields.now at }
{
    let text = field(fields, at).as_bytes();
    if text.len() < 2 {
        return None;
    }
    let (front, digits) = text.split_at(2);
    if Word::new(front).is(b"0x") {
        numeral(16, digits)
    } else {
        None
    }
}

// `heap <index> <name> <socket> total <t> free <f> used <u> greatest <g> busy <b> frees <c>`
fn heap_line<'a>(fields: &[Word<'a>]) -> Option<Line<'a>>
    ensures { result ≡ heap_line fields.now }
{
    let index = number(fields, 1)?;
    let socket = number(fields, 3)?;
    let total = number(fields, 5)?;
    let used = number(fields, 9)?;
    let busy = number(fields, 13)?;
    let frees = number(fields, 15)?;
    Some(Line::Heap {
        index,
        name: field(fields, 2),
        socket,
        total,
        used,
        busy,
        frees,
    })
}

// `elem <start> <whole> free <class>`
fn free_line<'a>(fields: &[Word<'a>]) -> Option<Line<'a>>
    ensures { result ≡ free_line fields.now }
{
    let start = address(fields, 1)?;
    let whole = number(fields, 2)?;
    let class = number_to(12, fields, 4)?;
    Some(Line::Free {
        start,
        whole,
        class,
    })
}

// `elem <start> <whole> busy <pad> <size> <p> <label>`
fn busy_line<'a>(fields: &[Word<'a>]) -> Option<Line<'a>>
    ensures { result ≡ busy_line fields.now }
{
    let start = address(fields, 1)?;
    let whole = number(fields, 2)?;
    let size = number(fields, 5)?;
    let who = number(fields, 6)?;
    Some(Line::Busy {
        start,
        whole,
        size,
        who,
        label: field(fields, 7),
    })
}

fn element_line<'a>(fields: &[Word<'a>]) -> Option<Line<'a>>
    ensures { result ≡ element_line fields.now }
{
    if fields.len() == 5 && is_at(fields, 3, b"free") {
        return free_line(fields);
    }
    if fields.len() == 8 && is_at(fields, 3, b"busy") {
        return busy_line(fields);
    }
    None
}

// `list <index> <socket> <page> <base> <slots>`
fn list_line<'a>(fields: &[Word<'a>]) -> Option<Line<'a>>
    ensures { result ≡ list_line fields.now }
{
    let socket = number(fields, 2)?;
    let page = number(fields, 3)?;
    let base = address(fields, 4)?;
    let slots = number(fields, 5)?;
    Some(Line::List {
        socket,
        page,
        base,
        slots,
    })
}

// `seg <address> owned <heap>`, or `agreed <heap>`, `opened` or `retiring` in place of it
fn segment_line<'a>(fields: &[Word<'a>]) -> Option<Line<'a>>
    ensures { result ≡ segment_line fields.now }
{
    let addr = address(fields, 1)?;
    if fields.len() == 4 && is_at(fields, 2, b"owned") {
        let heap = number(fields, 3)?;
        return Some(Line::Owned { addr, heap });
    }
    Some(Line::Other)
}

// `rec <generation> add <address> <bytes> <heap>`, or `drop <address> <bytes>`
fn record_line<'a>(fields: &[Word<'a>]) -> Option<Line<'a>>
    ensures { result ≡ record_line fields.now }
{
    let generation = number(fields, 1)?;
    let addr = address(fields, 3)?;
    let len = number(fields, 4)?;
    if fields.len() == 6 && is_at(fields, 2, b"add") {
        let heap = number(fields, 5)?;
        return Some(Line::Add {
            generation,
            addr,
            len,
            heap,
        });
    }
    if fields.len() == 5 && is_at(fields, 2, b"drop") {
        return Some(Line::Gone {
            generation,
            addr,
            len,
        });
    }
    None
}

// The cause of a refusal.
fn cause_of(word: &Word<'_>) -> Option<Cause>
    ensures { result ≡ cause_of word.now }
{
    if word.is(b"nolist") {
        Some(Cause::NoList)
    } else if word.is(b"toofew") {
        Some(Cause::TooFew)
    } else if word.is(b"listfull") {
        Some(Cause::ListFull)
    } else if word.is(b"cannothold") {
        Some(Cause::CannotHold)
    } else if word.is(b"denied") {
        Some(Cause::Denied)
    } else if word.is(b"mapfailed") {
        Some(Cause::MapFailed)
    } else if word.is(b"late") {
        Some(Cause::Late)
    } else if word.is(b"withdrawn") {
        Some(Cause::Withdrawn)
    } else {
        None
    }
}

// `granted <generation>`, `freed <generation>`, `stale <number>`, or `refused` with its cause
fn outcome_of(fields: &[Word<'_>]) -> Option<Outcome>
    ensures { result ≡ outcome_of fields.now }
{
    if is_at(fields, 3, b"refused") {
        let cause = cause_of(&field(fields, 4))?;
        return Some(Outcome::Refused { cause });
    }
    let generation = number(fields, 4)?;
    if is_at(fields, 3, b"granted") {
        Some(Outcome::Granted { generation })
    } else if is_at(fields, 3, b"freed") {
        Some(Outcome::Freed { generation })
    } else if is_at(fields, 3, b"stale") {
        Some(Outcome::Stale)
    } else {
        None
    }
}

// `ask <p> <number> <outcome>`
fn ask_line<'a>(text: &'a [u8], fields: &[Word<'a>]) -> Option<Line<'a>>
    ensures { result ≡ ask_line text.entry.now fields.now }
{
    let outcome = outcome_of(fields)?;
    Some(Line::Ask {
        outcome,
        text: Word::new(text),
    })
}

// `table <p> <in or out> <n> <rows>`
fn table_line<'a>(fields: &[Word<'a>]) -> Option<Line<'a>>
    ensures { result ≡ table_line fields.now }
{
    let who = number(fields, 1)?;
    let records = number(fields, 3)?;
    let rows = number(fields, 4)?;
    let attached = is_at(fields, 2, b"in");
    if attached || is_at(fields, 2, b"out") {
        Some(Line::Table {
            who,
            attached,
            records,
            rows,
        })
    } else {
        None
    }
}

// Whether a line that the picture does not show may begin with this word.
fn is_other(word: &Word<'_>) -> bool
    ensures { result ≡ is_other word.now }
{
    word.is(b"line")
        || word.is(b"hist")
        || word.is(b"zone")
        || word.is(b"pool")
        || word.is(b"map")
        || word.is(b"event")
}

fn other_line<'a>(fields: &[Word<'a>]) -> Option<Line<'a>>
    ensures { result ≡ other_line fields.now }
{
    if fields.len() >= 4 && is_other(&field(fields, 0)) {
        Some(Line::Other)
    } else {
        None
    }
}

fn log_line<'a>(text: &'a [u8], fields: &[Word<'a>]) -> Option<Line<'a>>
    ensures { result ≡ log_line text.entry.now fields.now }
{
    if is_at(fields, 0, b"rec") {
        record_line(fields)
    } else if is_at(fields, 0, b"ask") && fields.len() >= 5 {
        ask_line(text, fields)
    } else if is_at(fields, 0, b"table") && fields.len() == 5 {
        table_line(fields)
    } else if is_at(fields, 0, b"end") && fields.len() == 1 {
        Some(Line::End)
    } else {
        other_line(fields)
    }
}

/// What the picture takes of a line by its text and its fields, where it is of one of the forms.
pub fn form_of<'a>(text: &'a [u8], fields: &[Word<'a>]) -> Option<Line<'a>>
    ensures { result ≡ form_of text.entry.now fields.now }
{
    if is_at(fields, 0, b"heap") && fields.len() == 16 {
        heap_line(fields)
    } else if is_at(fields, 0, b"elem") {
        element_line(fields)
    } else if is_at(fields, 0, b"list") && fields.len() == 6 {
        list_line(fields)
    } else if is_at(fields, 0, b"seg") && fields.len() >= 3 {
        segment_line(fields)
    } else {
        log_line(text, fields)
    }
}

/// The fields of a line.
pub fn read_fields<'a>(fields: &mut Vec<Word<'a>>, text: &'a [u8]) -> Result<(), AllocError>
    ensures { OnOk result (fields.new.items ≡ fields_of text.entry.now) }
{
    fields.clear();
    let mut rest = text;
    while let Some(n) = space_at(rest) {
        fields.push(Word::new(&rest[..n]))?;
        rest = &rest[n + 1..];
    }
    fields.push(Word::new(rest))?;
    Ok(())
}

// The index of the first space.
fn space_at(text: &[u8]) -> Option<usize>
    ensures place { result ≡ position (λ byte. byte == 32) text.now }
    ensures within { IfSome result (λ n. n < length text.now) }
{
    text.iter().position(|byte| *byte == b' ')
}
