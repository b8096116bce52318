//! Segment lists: which of them an address lies in.
ghost use Rattle.std.specs.Prelude.{◌≡◌, IfOk, OnOk, ◌++◌, option_to_list};
ghost use Rattle.hp_view.specs.Lists.{holds, list_at, list_of, lists_of};

use crate::line::Line;
use std::alloc::{AllocError, Global};

/// A segment list: its socket and the size of its pages, where its slots begin, and how many they are.
#[derive(Clone, Copy)]
pub struct Slots {
    pub socket: u64,
    pub page: u64,
    pub base: u64,
    pub slots: u64,
}

/// The segment lists of a report.
pub fn lists_of(alloc: Global, lines: &[Line<'_>]) -> Result<Vec<Slots>, AllocError>
    ensures { IfOk result (λ lists. lists.items ≡ lists_of lines.now) }
{
    let mut lists = Vec::new(alloc);
    for line in lines {
        push_list(&mut lists, list_of(line))?;
    }
    Ok(lists)
}

fn push_list(lists: &mut Vec<Slots>, list: Option<Slots>) -> Result<(), AllocError>
    ensures { OnOk result (lists.new.items ≡ lists.old.items ++ option_to_list list) }
{
    if let Some(list) = list {
        lists.push(list)?;
    }
    Ok(())
}

fn list_of(line: &Line<'_>) -> Option<Slots>
    ensures { result ≡ list_of line.now }
{
    match line {
        Line::List {
            socket,
            page,
            base,
            slots,
        } => Some(Slots {
            socket: *socket,
            page: *page,
            base: *base,
            slots: *slots,
        }),
        _ => None,
    }
}

// Whether an address lies in one of a list's slots.
fn holds(list: &Slots, addr: u64) -> bool
    ensures { result ≡ holds list.now addr }
{
    list.page > 0 && list.base <= addr && (addr - list.base) / list.page < list.slots
}

/// The first list that an address lies in.
pub fn list_at(lists: &[Slots], addr: u64) -> Option<Slots>
    ensures { result ≡ list_at addr lists.now }
{
    for list in lists {
        if holds(list, addr) {
            return Some(*list);
        }
    }
    None
}
