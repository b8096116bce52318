ghost use Rattle.std.specs.Prelude.{◌≡◌, ◌⊎◌, ◌+◌, ◌*◌, ◌^◌, ◌<◌, ◌≤◌, ◌++◌, ◌∷◌, [], length, map, take, if◌then◌else◌, IfSome};
ghost use Rattle.hp_base.specs.Mapping.{AreAdjacent, CanMap, CanMapAll, FailsSo, held_after, is_refused, is_row, next_place, own_place, owned, without_row, without_rows};
ghost use Rattle.hp_base.specs.Streams.{CountsFault};
ghost use Rattle.hp_maps.specs.PlannedView.{AreAsked, action_for, after_mapping, after_unmapping, may_fail_by, IsPlannedAnswer};
ghost use Rattle.hp_maps.specs.PlannedLayout.{misplaced_held};

use crate::rows::is_row;
use hp_base::{Answers, MapAction, MapAnswer, Mapper, Plan, Row};
use std::marker::Model;

/// A mapper that refuses or misplaces rows where a plan names its mapping call, and else asks another mapper. Its calls are
/// counted from 1. Own.
#[derive(Drop)]
pub struct Planned<'p, M: Mapper> {
    inner: M,
    plan: &'p Plan,
    party: u8,
    // The row that came out one page further on, until it is unmapped.
    misplaced: Option<Row>,
    answers: Answers,
    calls: u64,
    // How many rows it refused by itself.
    refused: u64,
}

impl<'p, M: Mapper> Model for Planned<'p, M> {
    ghost use Rattle.std.specs.Prelude.{◌+◌, ◌++◌};
    ghost use Rattle.hp_maps.specs.PlannedView.{PlannedView};
    ghost use Rattle.hp_maps.specs.PlannedLayout.{IsPlanned, misplaced_held};

    ghost Value = { PlannedView };

    ghost view = { λ a. record {
      held = M.held a.inner ++ misplaced_held a.misplaced;
      capacity = M.capacity a.inner;
      answers = a.answers;
      asked = M.answers a.inner;
      faults = M.faults a.inner + a.refused;
      other_may_fail = M.may_fail a.inner;
      plan = a.plan.now;
      party = a.party;
    } };

    ghost invariant = { λ a. IsPlanned a.misplaced a.calls a.refused a.answers (M.answers a.inner) };
}

impl<'p, M: Mapper> Planned<'p, M> {
    /// A mapper over another one, for the mapping calls of a participant. Own.
    pub fn new(inner: M, plan: &'p Plan, party: u8) -> Planned<'p, M>
        requires holds { M.held inner ≡ [] }
        requires calls { M.answers inner ≡ [] }
        ensures { result ≡ record {
          held = [];
          capacity = M.capacity inner;
          answers = [];
          asked = [];
          faults = M.faults inner;
          other_may_fail = M.may_fail inner;
          plan = plan.now;
          party = party;
        } }
    {
        Planned {
            inner,
            plan,
            party,
            misplaced: None,
            answers: Answers::new(),
            calls: 0,
            refused: 0,
        }
    }
}

impl<'p, M: Mapper> Mapper for Planned<'p, M> {
    ghost held = { λ m. m.held };

    ghost capacity = { λ m. m.capacity };

    ghost answers = { λ m. m.answers };

    ghost faults = { λ m. m.faults };

    ghost may_fail = { λ m. may_fail_by m.plan m.party m.other_may_fail };

    fn map(&mut self, row: &Row) -> MapAnswer
        requires { CanMap row.now self.old.held self.old.capacity (length self.old.answers) }
        ensures held { self.new.held ≡ held_after row.now result self.old.held }
        ensures capacity { self.new.capacity ≡ self.old.capacity }
        ensures answers { self.new.answers ≡ self.old.answers ++ result ∷ [] }
        ensures cause { CountsFault self.old.faults self.new.faults (is_refused result) }
        ensures may_fail { may_fail_by self.new.plan self.new.party self.new.other_may_fail
            ≡ may_fail_by self.old.plan self.old.party self.old.other_may_fail }
        ensures told { (result ≡ own_place row.now)
            ⊎ FailsSo (may_fail_by self.old.plan self.old.party self.old.other_may_fail) (length self.old.answers + 1) row.now result }

        // The answer is what the plan has of that call, and else that of the other mapper.
        ensures planned { IsPlannedAnswer
            (action_for self.old.plan self.old.party (length self.old.answers + 1) row.now)
            row.now result self.old.asked self.new.asked }
        ensures plan { self.new.plan ≡ self.old.plan }
        ensures party { self.new.party ≡ self.old.party }
        ensures other { self.new.other_may_fail ≡ self.old.other_may_fail }
    {
        self.calls += 1;
        match action_for(self.plan, self.party, self.calls, row) {
            MapAction::Refuse { .. } => {
                self.refused += 1;
                self.answers = self.answers.with(MapAnswer::Refused);
                MapAnswer::Refused
            }
            MapAction::Elsewhere { .. } => {
                let answer = next_place(row);
                self.misplaced = Some(*row);
                self.answers = self.answers.with(answer);
                answer
            }
            MapAction::Ask => {
                let answer = self.inner.map(row);
                self.answers = self.answers.with(answer);
                answer
            }
        }
    }

    fn unmap(&mut self, row: &Row)
        ensures held { self.new.held ≡ without_row row.now self.old.held }
        ensures capacity { self.new.capacity ≡ self.old.capacity }
        ensures answers { self.new.answers ≡ self.old.answers }
        ensures faults { self.new.faults ≡ self.old.faults }
        ensures may_fail { may_fail_by self.new.plan self.new.party self.new.other_may_fail
            ≡ may_fail_by self.old.plan self.old.party self.old.other_may_fail }

        ensures asked { self.new.asked ≡ self.old.asked }
        ensures plan { self.new.plan ≡ self.old.plan }
        ensures party { self.new.party ≡ self.old.party }
        ensures other { self.new.other_may_fail ≡ self.old.other_may_fail }
    {
        self.inner.unmap(row);
        forget(&mut self.misplaced, row);
    }

    fn map_first(&mut self, rows: &[Row]) -> usize
        requires { CanMapAll rows.now self.old.held self.old.capacity (length self.old.answers) }
        ensures within { result ≤ length rows.now }
        ensures held { self.new.held ≡ self.old.held ++ owned (take result rows.now) }
        ensures capacity { self.new.capacity ≡ self.old.capacity }
        ensures answers { self.new.answers ≡ self.old.answers ++ map own_place (take result rows.now) }
        ensures faults { self.new.faults ≡ self.old.faults }
        ensures may_fail { may_fail_by self.new.plan self.new.party self.new.other_may_fail
            ≡ may_fail_by self.old.plan self.old.party self.old.other_may_fail }

        // The plan has nothing of any of these calls, and the other mapper has mapped each row.
        ensures planned { AreAsked self.old.plan self.old.party (length self.old.answers + 1) (take result rows.now) }
        ensures after { self.new ≡ after_mapping self.old (take result rows.now) }
    {
        if !self.plan.entries().is_empty() {
            return 0;
        }
        let count = self.inner.map_first(rows);
        self.calls += count as u64;
        self.answers.add_own(&rows[..count]);
        count
    }

    fn unmap_first(&mut self, rows: &[Row]) -> usize
        ensures within { result ≤ length rows.now }
        ensures adjacent { AreAdjacent (take result rows.now) }
        ensures held { self.new.held ≡ without_rows (take result rows.now) self.old.held }
        ensures capacity { self.new.capacity ≡ self.old.capacity }
        ensures answers { self.new.answers ≡ self.old.answers }
        ensures faults { self.new.faults ≡ self.old.faults }
        ensures may_fail { may_fail_by self.new.plan self.new.party self.new.other_may_fail
            ≡ may_fail_by self.old.plan self.old.party self.old.other_may_fail }

        ensures after { self.new ≡ after_unmapping self.old (take result rows.now) }
    {
        match self.misplaced {
            Some(_) => 0,
            None => self.inner.unmap_first(rows),
        }
    }
}

// What a plan has of the mapping of a row. A row without bytes has no page further on, and a plan without an entry has nothing.
#[tactic(auto, using(crate::proofs::PlannedLemmas::nothing_planned))]
fn action_for(plan: &Plan, party: u8, call: u64, row: &Row) -> MapAction
    ensures { result ≡ action_for plan.now party call row.now }
{
    if row.page == 0 || plan.entries().is_empty() {
        MapAction::Ask
    } else {
        plan.mapping(party, call)
    }
}

fn next_place(row: &Row) -> MapAnswer
    requires { row.now.addr + row.now.page < 2 ^ 64 }
    ensures { result ≡ next_place row.now }
{
    MapAnswer::At {
        addr: row.addr + row.page,
        page: row.page,
        socket: row.socket,
    }
}

// Forgets the misplaced row, if it is the one that is unmapped.
fn forget(misplaced: &mut Option<Row>, row: &Row)
    requires { IfSome misplaced.old (λ other. 0 < other.page) }
    ensures held { misplaced_held misplaced.new ≡ without_row row.now (misplaced_held misplaced.old) }
    ensures aside { IfSome misplaced.new (λ other. 0 < other.page) }
{
    if is_misplaced(misplaced, row) {
        *misplaced = None;
    }
}

// Whether a row is the misplaced one.
fn is_misplaced(misplaced: &Option<Row>, row: &Row) -> bool
    ensures { without_row row.now (misplaced_held misplaced.now) ≡ (if result then [] else misplaced_held misplaced.now) }
{
    match misplaced {
        Some(other) => is_row(row, other),
        None => false,
    }
}
