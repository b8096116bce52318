//! The segment value and how it begins.
ghost use Rattle.std.specs.Prelude.{◌≡◌, ◌≤◌, IfOk, OnErr, OnOk};
ghost use Rattle.hp_base.specs.Participants.{IsAbsent};
ghost use Rattle.hp_segs.specs.Opening.{opening};
ghost use Rattle.hp_segs.specs.Steps.{after_reserve};
ghost use Rattle.hp_base.specs.PoolLines.{ArePoolLines};

mod armed;
mod drops;
mod failures;
mod growth;
mod outcomes;
mod owners;
mod plan;
mod queries;
mod ranges;
mod roster;

use crate::ask::Ask;
use crate::asks::Asks;
use crate::external_range::ExternalRange;
use crate::growth::Growth;
use crate::retired_log::RetiredLog;
use crate::table::Table;
use hp_base::{MAX_PARTICIPANTS, PoolLine, Run};
use std::alloc::{AllocError, Global};
use std::marker::Model;

/// The number of participants that there can be. Own.
pub const PARTICIPANTS: usize = MAX_PARTICIPANTS as usize;

/// The segment lists of the pools, the log of what was mapped and unmapped, and the state of each mapped segment.
/// Contracts see it as a `SegsView`. After rte_memseg_list, and the growth of heaps in malloc_heap.c and
/// malloc_mp.c; the log, the states and the roster are own.
#[derive(Drop)]
pub struct Segs {
    // In a box, so that the value takes eight bytes wherever it goes.
    parts: Box<Parts>,
}

#[derive(Drop)]
struct Parts {
    table: Table,
    asks: Asks,
    // By rising address, with room for every slot.
    retiring: Vec<Run>,
    retired: RetiredLog,
    growth: Option<Growth>,
    roster: [bool; 16],
    armed: Box<[Option<Ask>; 16]>,
    ranges: Vec<ExternalRange>,
    spare: usize,
}

impl Model for Segs {
    ghost use Rattle.std.specs.Prelude.{vec_capacity};
    ghost use Rattle.hp_segs.specs.SegsView.{SegsView};

    ghost Value = { SegsView };

    ghost use Rattle.hp_segs.specs.SegsLayout.{IsKept, view_of};

    ghost view = { λ s. view_of s.parts.value.table s.parts.value.asks s.parts.value.retiring.items s.parts.value.retired
        s.parts.value.growth s.parts.value.roster s.parts.value.armed.value s.parts.value.ranges.items s.parts.value.spare };

    ghost invariant = { λ s. IsKept s.parts.value.table s.parts.value.asks s.parts.value.retiring.items s.parts.value.retired
        s.parts.value.growth s.parts.value.roster s.parts.value.armed.value s.parts.value.ranges.items s.parts.value.spare
        (vec_capacity s.parts.value.retiring) };
}

impl Segs {
    /// The value of pools without a record, for participants of which those with a bit in `absent` are not in the
    /// roster. Own.
    pub fn new(
        alloc: Global,
        pools: &[PoolLine],
        participants: u8,
        absent: u16,
    ) -> Result<Segs, AllocError>
        requires pools { ArePoolLines pools.now }
        requires participants { IsAbsent participants absent }
        ensures { IfOk result (λ segs. segs ≡ opening pools.now participants absent) }
    {
        let mut slots = 0;
        for line in pools {
            slots += line.slots as usize;
        }
        let retired = RetiredLog::new();
        let armed = Box::new(alloc, [None; 16])?;
        let retiring = Vec::with_capacity(alloc, slots)?;
        let asks = Asks::new(alloc)?;
        let table = Table::new(alloc, pools)?;
        let parts = Parts {
            table,
            asks,
            retiring,
            retired,
            growth: None,
            roster: roster::opening(participants, absent),
            armed,
            ranges: Vec::new(alloc),
            spare: 0,
        };
        Ok(Segs {
            parts: Box::new(alloc, parts)?,
        })
    }

    /// Takes memory, so that spare is at least `n`: each record and each logged outcome uses one. Own.
    pub fn reserve_records(&mut self, n: usize) -> Result<(), AllocError>
        ensures ok { OnOk result (self.new ≡ after_reserve n self.old) }
        ensures err { OnErr result (self.new ≡ self.old) }
    {
        // Beside them stand the places that are set aside for armed asks, two for each participant.
        let parts = &mut *self.parts;
        let Some(places) = n.max(parts.spare).checked_add(2 * PARTICIPANTS) else {
            return Err(AllocError);
        };
        parts.table.reserve(places)?;
        parts.asks.reserve(places)?;
        parts.spare = n.max(parts.spare);
        Ok(())
    }
}
