//! Steps of the directory of heaps.

use hp_base::Name;
use hp_zone::{Directory, FIRST_EXTERNAL_SOCKET, Names};
use std::alloc::Global;

/// One thing that is done with the directory, and what it must give.
#[derive(Clone, Copy)]
pub enum HeapStep {
    /// A name is found, with that index and socket number.
    Find(&'static str, u32, u32),
    /// No heap has the name.
    Missing(&'static str),
    /// The heap of an index has that name and socket number.
    At(u32, &'static str, u32),
    /// A heap gets the name, with that index and socket number.
    Give(&'static str, u32, u32),
    /// A range of 4 MB at an address comes to the heap of an index, and there are so many then.
    Add(u32, u64, usize),
    /// The range of a heap at an address goes.
    LoseRange(u32, u64),
    /// The name of a heap goes, and no heap has a range.
    LoseName(u32),
    /// There were so many changes.
    Changes(usize),
    /// Whether there is a place for another name.
    HasPlace(bool),
}

// A heap gets a name.
fn give(heaps: &mut Directory, text: &[u8]) -> Option<(u32, u32)> {
    let name = Name::new(text)?;
    if heaps.lookup(name.as_bytes()).is_some() || !heaps.has_place() {
        return None;
    }
    heaps.reserve().ok()?;
    Some(heaps.insert(name))
}

// A range comes to the heap of an index, which has a name.
fn add(heaps: &mut Directory, index: u32, addr: u64) -> Option<usize> {
    heaps.reserve().ok()?;
    let (_name, _socket) = heaps.at(index)?;
    heaps.add_range(index, addr, 0x40_0000, 0x20_0000);
    Some(heaps.ranges().len())
}

// The first range goes, which is that of a heap at an address.
fn lose_range(heaps: &mut Directory, index: u32, addr: u64) -> bool {
    let Some(range) = heaps.ranges().first() else {
        return false;
    };
    if range.index != index || range.addr != addr {
        return false;
    }
    heaps.remove_range(index, addr);
    true
}

// The name of an external heap goes, where no heap has a range.
fn lose_name(heaps: &mut Directory, index: u32) -> bool {
    let Some((_name, socket)) = heaps.at(index) else {
        return false;
    };
    if socket < FIRST_EXTERNAL_SOCKET || !heaps.ranges().is_empty() {
        return false;
    }
    heaps.remove(index);
    true
}

fn do_step(heaps: &mut Directory, step: &HeapStep) -> bool {
    match step {
        HeapStep::Find(text, index, socket) => {
            heaps.lookup(text.as_bytes()) == Some((*index, *socket))
        }
        HeapStep::Missing(text) => heaps.lookup(text.as_bytes()).is_none(),
        HeapStep::At(index, text, socket) => match heaps.at(*index) {
            Some((name, known)) => name.as_bytes() == text.as_bytes() && known == *socket,
            None => false,
        },
        HeapStep::Give(text, index, socket) => {
            give(heaps, text.as_bytes()) == Some((*index, *socket))
        }
        HeapStep::Add(index, addr, count) => add(heaps, *index, *addr) == Some(*count),
        HeapStep::LoseRange(index, addr) => lose_range(heaps, *index, *addr),
        HeapStep::LoseName(index) => lose_name(heaps, *index),
        HeapStep::Changes(count) => heaps.log().len() == *count,
        HeapStep::HasPlace(has) => heaps.has_place() == *has,
    }
}

fn do_steps(heaps: &mut Directory, steps: &[HeapStep]) -> bool {
    for step in steps {
        if !do_step(heaps, step) {
            return false;
        }
    }
    true
}

/// How many changes there are after all steps, if each gave what it must, in the directory of sockets 0 and 3.
pub fn play(alloc: Global, steps: &[HeapStep]) -> Option<usize> {
    let mut names = Names::new(alloc, &[0, 3]).ok()?;
    if !do_steps(&mut names.heaps, steps) {
        return None;
    }
    Some(names.heaps.log().len())
}
