use crate::event::{Event, event_of};
use hp_base::PlanEntry;
use std::alloc::{AllocError, Global};
use std::collections::HashSet;
use std::marker::Model;

/// The plan lines so far, in their order.
#[derive(Drop)]
pub struct PlanLines {
    entries: Vec<PlanEntry>,
    // The events of the entries.
    events: HashSet<Event>,
}

impl Model for PlanLines {
    ghost use Rattle.std.specs.Prelude.{List};
    ghost use Rattle.hp_base.specs.declared.plan_entry.PlanEntry.{PlanEntry};
    ghost use Rattle.hp_script.specs.EventIndex.{IsIndex};

    ghost Value = { List PlanEntry };

    ghost view = { λ a. a.entries.items };

    ghost invariant = { λ a. IsIndex a.events a.entries.items };
}

impl PlanLines {
    ghost use Rattle.std.specs.Prelude.{◌≡◌, ◌++◌, ◌∷◌, [], if◌then◌else◌, is_ok};
    ghost use Rattle.hp_script.specs.Counts.{is_planned};

    /// No plan line.
    pub fn new(alloc: Global) -> PlanLines
        ensures { result ≡ [] }
    {
        PlanLines {
            entries: Vec::new(alloc),
            events: HashSet::new(alloc),
        }
    }

    /// Whether a plan line disturbs the event.
    pub fn is_planned(&self, event: Event) -> bool
        ensures { result ≡ is_planned self.now event }
    {
        self.events.contains(&event)
    }

    /// Adds a plan line.
    pub fn push(&mut self, entry: PlanEntry) -> Result<(), AllocError>
        ensures { self.new ≡ (if is_ok result then self.old ++ entry ∷ [] else self.old) }
    {
        self.entries.reserve(1)?;
        self.events.insert(event_of(entry))?;
        self.entries.push(entry).unwrap();
        Ok(())
    }

    /// The plan lines.
    pub fn into_entries(self) -> Vec<PlanEntry>
        ensures { result.items ≡ self }
    {
        let PlanLines { entries, events: _ } = self;
        entries
    }
}
