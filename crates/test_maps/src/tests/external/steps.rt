//! Steps, one after another.
ghost use Rattle.test_maps.specs.World.{IsWorld};

use super::calls::{add, alloc_for, attach, create, destroy, detach, fill, free, remove};
use super::looks::have_rows;
use super::world::{World, opening_world};
use hp_external::{AddFault, AttachFault, CreateFault, DestroyFault, DetachFault, RemoveFault};
use std::alloc::Global;
use std::test::Fail;

/// One step, with what has to come of it. The heap has index 1, and participants 0 and 1 have a table each.
#[derive(Clone, Copy)]
pub enum Step {
    /// A heap is made, with that index and socket number, or refused; or it is destroyed.
    Create(&'static str, Result<(u32, u32), CreateFault>),
    Destroy(&'static str, Result<(), DestroyFault>),
    /// Memory comes to a heap, by address, length and page size, or goes from it.
    Add(&'static str, u64, u64, u64, Result<(), AddFault>),
    Remove(&'static str, u64, u64, Result<(), RemoveFault>),
    /// A participant attaches memory of a heap, by address and length, or leaves it.
    Attach(u8, &'static str, u64, u64, Result<(), AttachFault>),
    Detach(u8, &'static str, u64, u64, Result<(), DetachFault>),
    /// A participant allocates so many bytes, which are given at an address, or not. Or they are freed.
    Alloc(u8, u64, Option<u64>),
    Free(u64),
    /// The heap had so many calls; and the tables of the two participants have so many rows.
    Entries(usize),
    Rows(usize, usize),
    /// So many heaps are made, each under a name of one letter.
    Fill(u8),
}

// The step at that place, counted from 0, came out otherwise.
#[derive(Debug, Drop)]
struct Otherwise {
    place: usize,
}

/// Each step comes out as it stands. The mapping calls of participant 0 with these numbers are refused.
pub fn play(alloc: Global, fails: &[u64], steps: &[Step]) -> Result<(), Fail> {
    let mut all = opening_world(alloc, fails)?;
    go_on(&mut all, steps)
}

fn go_on(all: &mut World, steps: &[Step]) -> Result<(), Fail>
    requires { IsWorld all.old.names.heaps all.old.heap all.old.segs all.old.first all.old.second }
{
    for place in 0..steps.len() {
        if !perform(all, steps[place]) {
            return Err(Otherwise { place }.into());
        }
    }
    Ok(())
}

// Whether a step came out as it stands.
fn perform(all: &mut World, step: Step) -> bool
    requires { IsWorld all.old.names.heaps all.old.heap all.old.segs all.old.first all.old.second }
    ensures { IsWorld all.new.names.heaps all.new.heap all.new.segs all.new.first all.new.second }
{
    match step {
        Step::Create(text, made) => create(all, text.as_bytes()) == made,
        Step::Destroy(text, done) => destroy(all, text.as_bytes()) == Some(done),
        Step::Add(text, addr, len, page, done) => {
            add(all, text.as_bytes(), addr, len, page) == Some(done)
        }
        Step::Remove(text, addr, len, done) => {
            remove(all, text.as_bytes(), addr, len) == Some(done)
        }
        Step::Attach(who, text, addr, len, done) => {
            attach(all, who, text.as_bytes(), addr, len) == Some(done)
        }
        Step::Detach(who, text, addr, len, done) => {
            detach(all, who, text.as_bytes(), addr, len) == Some(done)
        }
        Step::Alloc(who, size, addr) => alloc_for(all, who, size) == Some(addr),
        Step::Free(addr) => free(all, addr),
        Step::Entries(count) => all.heap.history().len() == count,
        Step::Rows(first, second) => have_rows(all, first, second),
        Step::Fill(count) => fill(all, count),
    }
}
