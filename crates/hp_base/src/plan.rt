ghost use Rattle.hp_base.specs.Plans.{entry_action, entry_map_action};
ghost use Rattle.std.specs.Prelude.{◌≡◌};

use crate::named::{Named, mapping_named, message_named, named_by};
use crate::plan_entry::{MsgKind, PlanEntry};
use std::alloc::{AllocError, Global};
use std::collections::HashMap;
use std::marker::Model;

/// What becomes of a message. `line` is the line of the workload that plans it. Own.
#[derive(Clone, Copy, PartialEq, Eq)]
pub enum Action {
    /// It is lost.
    Lose { line: u32 },
    /// It comes twice.
    Repeat { line: u32 },
    /// It comes once: no line plans anything for it.
    Deliver,
}

/// What becomes of a mapping call. `line` is the line of the workload that plans it. Own.
#[derive(Clone, Copy, PartialEq, Eq)]
pub enum MapAction {
    /// It is refused.
    Refuse { line: u32 },
    /// It comes out one page above the row's address.
    Elsewhere { line: u32 },
    /// The mapper is asked: no line plans anything for it.
    Ask,
}

/// The planned disturbances of a run: at most one for each message and each mapping call. Contracts see the list of its
/// entries. Own.
#[derive(Drop)]
pub struct Plan {
    entries: Vec<PlanEntry>,
    // Each entry by what it names.
    index: HashMap<Named, PlanEntry>,
}

impl Model for Plan {
    ghost use Rattle.std.specs.Prelude.{List};
    ghost use Rattle.hp_base.specs.declared.plan_entry.PlanEntry.{PlanEntry};
    ghost use Rattle.hp_base.specs.PlanIndex.{IsIndexed};

    ghost Value = { List PlanEntry };

    ghost view = { λ a. a.entries.items };

    ghost invariant = { λ a. IsIndexed a.index a.entries.items };
}

impl Plan {
    ghost use Rattle.std.specs.Prelude.{AllPairs, OnErr, OnOk, [], ◌∷◌, ◌++◌, false};
    ghost use Rattle.hp_base.specs.Plans.{IsAction, IsMapAction, IsOtherEntry, action_of, has_named, map_action_of};
    ghost use Rattle.hp_base.specs.PlanIndex.{entry_named};

    /// A plan without an entry. Own.
    pub fn new(alloc: Global) -> Plan
        ensures { result ≡ [] }
    {
        Plan {
            entries: Vec::new(alloc),
            index: HashMap::new(alloc),
        }
    }

    /// Adds an entry, for a message or a mapping call that no entry names yet. Own.
    pub fn add(&mut self, entry: PlanEntry) -> Result<(), AllocError>
        requires { has_named self.old entry ≡ false }
        ensures ok { OnOk result (self.new ≡ self.old ++ entry ∷ []) }
        ensures err { OnErr result (self.new ≡ self.old) }
    {
        self.entries.reserve(1)?;
        self.index.insert(named_by(entry), entry)?;
        self.entries.push(entry).unwrap();
        Ok(())
    }

    /// Its entries, in the order in which they were added. No two name the same message or mapping call. Own.
    pub fn entries(&self) -> &[PlanEntry]
        ensures entries { result.now ≡ self.now }
        ensures distinct { AllPairs IsOtherEntry self.now }
    {
        self.entries.as_slice()
    }

    /// What becomes of the `k`-th message of a kind that concerns a participant, counted from 1. Own.
    pub fn message(&self, kind: MsgKind, party: u8, k: u64) -> Action
        ensures action { result ≡ action_of self.now kind party k }
        ensures planned { IsAction self.now kind party k result }
    {
        match self.entry(message_named(kind, party, k)) {
            Some(entry) => entry_action(entry),
            None => Action::Deliver,
        }
    }

    /// What becomes of a mapping call of a participant. Its calls are counted from 1. Own.
    pub fn mapping(&self, party: u8, call: u64) -> MapAction
        ensures action { result ≡ map_action_of self.now party call }
        ensures planned { IsMapAction self.now party call result }
    {
        match self.entry(mapping_named(party, call)) {
            Some(entry) => entry_map_action(entry),
            None => MapAction::Ask,
        }
    }

    fn entry(&self, named: Named) -> Option<PlanEntry>
        ensures { result ≡ entry_named self.now named }
    {
        self.index.get(&named).copied()
    }
}

fn entry_action(entry: PlanEntry) -> Action
    ensures { result ≡ entry_action entry }
{
    match entry {
        PlanEntry::Message {
            twice: false,
            line,
            ..
        } => Action::Lose { line },
        PlanEntry::Message {
            twice: true,
            line,
            ..
        } => Action::Repeat { line },
        PlanEntry::Mapping { .. } => Action::Deliver,
    }
}

fn entry_map_action(entry: PlanEntry) -> MapAction
    ensures { result ≡ entry_map_action entry }
{
    match entry {
        PlanEntry::Message { .. } => MapAction::Ask,
        PlanEntry::Mapping {
            elsewhere: false,
            line,
            ..
        } => MapAction::Refuse { line },
        PlanEntry::Mapping {
            elsewhere: true,
            line,
            ..
        } => MapAction::Elsewhere { line },
    }
}
