//! The end of a hall of one thread.
ghost use Rattle.std.specs.Prelude.{◌≡◌, ◌↔◌, IfOk, IsTrue, length, replicate};
ghost use Rattle.hp_solo.specs.Draining.{IsDrained};
ghost use Rattle.hp_solo.specs.Ending.{AreThere, LeaveTables, LeaveWatchers, has_absent};
ghost use Rattle.hp_solo.specs.Solo.{AreTied};

use super::SoloHall;
use crate::alone::Alone;
use crate::solo_end::SoloEnd;
use hp_base::Mapper;
use hp_events::Watchers;
use hp_maps::Table;
use hp_serve::Decide;
use std::alloc::{AllocError, Global};

impl<'p, M: Mapper, F: Decide + Copy + Drop> SoloHall<'p, M, F> {
    // Whether one is away.
    fn has_absent(&self) -> bool
        ensures { result ≡ has_absent self.now.servers }
    {
        self.servers.iter().any(|server| server.is_away())
    }

    /// Whether each participant is there, and none away. Own.
    pub fn has_all(&self) -> bool
        ensures { IsTrue result ↔ AreThere self.now.servers }
    {
        !self.has_absent()
    }

    /// Ends the hall, to which each participant has come back, once nothing is left for any of them, and hands out their tables as they
    /// stand, their watchers, each with what it was told, and its plain values. It is refused only where there is no memory for the tables
    /// and the watchers. Own.
    pub fn end(self, alloc: Global) -> Result<SoloEnd, AllocError>
        requires there { AreThere self.servers }
        requires drained { IsDrained self }
        ensures tables { IfOk result (λ end. LeaveTables self.entry.servers end.tables.items) }
        ensures watchers { IfOk result (λ end. LeaveWatchers self.entry.servers end.watchers.items) }
        ensures plain { IfOk result (λ end. end.plain ≡ self.entry.plain) }

        // Each participant's table is tied to what the plain values have of it.
        ensures tied { AreTied self.entry.plain self.entry.servers }
    {
        self.sound();
        let SoloHall { plain, servers } = self;
        let (tables, watchers) = ends_of(alloc, servers)?;
        Ok(SoloEnd {
            tables,
            watchers,
            plain,
        })
    }
}

// What participants that are all there leave, by number: their tables and their watchers.
fn ends_of<M: Mapper, F: Decide + Copy + Drop>(
    alloc: Global,
    servers: Vec<Alone<'_, M, F>>,
) -> Result<(Vec<Table>, Vec<Watchers>), AllocError>
    requires { AreThere servers.items }
    ensures tables { IfOk result (λ ends. LeaveTables servers.entry.items ends.0.items) }
    ensures watchers { IfOk result (λ ends. LeaveWatchers servers.entry.items ends.1.items) }
{
    let many = servers.len();
    let mut servers = servers;
    let mut tables = Vec::with_capacity(alloc, many)?;
    let mut watchers = Vec::with_capacity(alloc, many)?;
    for _number in 0..many {
        let server = servers.remove(0);
        let end = server.end(alloc)?;
        tables.push_reserved(end.table);
        watchers.push_reserved(end.watchers);
    }
    Ok((tables, watchers))
}
