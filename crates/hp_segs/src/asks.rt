//! The logged outcomes, with the closed number and the last failed mapping call of each participant.
ghost use Rattle.std.specs.Prelude.{◌≡◌, ◌-◌, ◌<◌, ◌≤◌, [], ◌∷◌, ◌++◌, None, IfOk, IfSome, OnOk, find, IsTrue, length, take, vec_capacity};
ghost use Rattle.hp_segs.specs.SegsView.{closed_number, grant_or_refusal_of, grants_or_refuses, is_grant_or_refusal, is_outcome_for, is_stale, outcome_of};
ghost use Rattle.hp_segs.specs.AsksView.{cause_failure, closed_after, failed_after, failure_of, later_call};
ghost use Rattle.hp_segs.specs.LaterSteps.{has_failed_from};

use crate::outcome::{AskLog, Cause, Outcome};
use std::alloc::{AllocError, Global};
use std::marker::Model;

// The outcomes in the order in which they were logged.
#[derive(Drop)]
pub(crate) struct Asks {
    entries: Vec<AskLog>,
    // Beside each outcome, whether its number was above the closed one of its participant.
    above: Vec<bool>,
    // The closed number of each of the participants 0 to 15.
    closed: [u64; 16],
    // The greatest failed mapping call of each participant that a number can name.
    failed: Box<[Option<u64>; 256]>,
}

impl Model for Asks {
    ghost use Rattle.std.specs.Prelude.{◌-◌, length, min, vec_capacity};
    ghost use Rattle.hp_segs.specs.AsksView.{AsksView, AreKeptAsks};

    ghost Value = { AsksView };

    ghost view = { λ a. record {
      entries = a.entries.items;
      room = min (vec_capacity a.entries - length a.entries.items) (vec_capacity a.above - length a.above.items);
    } };

    ghost invariant = { λ a. AreKeptAsks a.entries.items a.above.items a.closed a.failed.value };
}

// Whether the outcome is Stale.
fn is_stale(outcome: &Outcome) -> bool
    ensures { result ≡ is_stale outcome.now }
{
    match outcome {
        Outcome::Stale { .. } => true,
        _ => false,
    }
}

// Whether the entry is an outcome other than Stale of that ask.
fn is_outcome_for(from: u8, number: u64, entry: &AskLog) -> bool
    ensures { result ≡ is_outcome_for from number entry.now }
{
    entry.from == from && entry.number == number && !is_stale(&entry.outcome)
}

// Whether the outcome is a grant or a refusal.
fn is_grant_or_refusal(outcome: &Outcome) -> bool
    ensures { result ≡ is_grant_or_refusal outcome.now }
{
    match outcome {
        Outcome::Granted { .. } | Outcome::Refused { .. } => true,
        _ => false,
    }
}

// Whether the entry is a grant or a refusal of that ask.
fn grants_or_refuses(from: u8, number: u64, entry: &AskLog) -> bool
    ensures { result ≡ grants_or_refuses from number entry.now }
{
    entry.from == from && entry.number == number && is_grant_or_refusal(&entry.outcome)
}

// The participant and the mapping call of a cause that is a failed mapping.
fn cause_failure(cause: &Cause) -> Option<(u8, u64)>
    ensures { result ≡ cause_failure cause.now }
{
    match cause {
        Cause::MapFailed {
            participant,
            call,
            ..
        } => Some((*participant, *call)),
        _ => None,
    }
}

// The participant and the mapping call of an outcome that is a failed mapping.
fn failure_of(outcome: &Outcome) -> Option<(u8, u64)>
    ensures failure { result ≡ failure_of outcome.now }
    ensures small { IfSome result (λ failure. failure.0 < 256) }
{
    match outcome {
        Outcome::Refused { cause } => cause_failure(cause),
        _ => None,
    }
}

// The later of a mapping call and the last one, where there is one.
fn later_call(last: Option<u64>, call: u64) -> u64
    ensures { result ≡ later_call last call }
{
    match last {
        Some(last) => last.max(call),
        None => call,
    }
}

// A failed mapping counts for its participant.
fn count_failure(failed: &mut [Option<u64>; 256], failure: Option<(u8, u64)>)
    ensures { failed.new ≡ failed_after failed.old failure }
{
    if let Some((participant, call)) = failure {
        let last = &mut failed[participant as usize];
        *last = Some(later_call(*last, call));
    }
}

// The entry's number closes all up to it, unless it is Stale.
fn close(closed: &mut [u64; 16], entry: &AskLog)
    requires { entry.now.from < 16 }
    ensures { closed.new ≡ closed_after closed.old entry.now }
{
    if !is_stale(&entry.outcome) {
        let number = &mut closed[entry.from as usize];
        *number = (*number).max(entry.number);
    }
}

// The entry comes after the others.
fn append(entries: &mut Vec<AskLog>, entry: AskLog)
    requires { length entries.old.items < vec_capacity entries.old }
    ensures items { entries.new.items ≡ entries.old.items ++ entry ∷ [] }
    ensures room { vec_capacity entries.new ≡ vec_capacity entries.old }
{
    // The check has to be told of the types that an entry holds.
    let (_outcome, _cause): (Option<Outcome>, Option<Cause>) = (None, None);
    entries.push_reserved(entry);
}

// The first outcome other than Stale of an ask.
#[tactic(auto, using(crate::proofs::Finds::find_step, crate::proofs::Finds::find_here, crate::proofs::Finds::find_end))]
fn first_outcome(entries: &[AskLog], from: u8, number: u64) -> Option<Outcome>
    ensures { result ≡ outcome_of entries.now from number }
{
    for entry in entries {
        if is_outcome_for(from, number, entry) {
            return Some(entry.outcome);
        }
    }
    None
}

// The first grant or refusal of an ask.
#[tactic(auto, using(crate::proofs::Finds::find_step, crate::proofs::Finds::find_here, crate::proofs::Finds::find_end))]
fn first_answer(entries: &[AskLog], from: u8, number: u64) -> Option<Outcome>
    ensures { result ≡ grant_or_refusal_of entries.now from number }
{
    for entry in entries {
        if grants_or_refuses(from, number, entry) {
            return Some(entry.outcome);
        }
    }
    None
}

impl Asks {
    pub(crate) fn new(alloc: Global) -> Result<Asks, AllocError>
        ensures { IfOk result (λ asks. asks.entries ≡ []) }
    {
        let failed = Box::new(alloc, [None; 256])?;
        Ok(Asks {
            entries: Vec::new(alloc),
            above: Vec::new(alloc),
            closed: [0; 16],
            failed,
        })
    }

    // Room for n outcomes more.
    pub(crate) fn reserve(&mut self, n: usize) -> Result<(), AllocError>
        ensures same { self.new ≡ record self.old { room = self.new.room } }
        ensures never_falls { self.old.room ≤ self.new.room }
        ensures room { OnOk result (n ≤ self.new.room) }
    {
        self.above.reserve(n)?;
        self.entries.reserve(n)
    }

    pub(crate) fn entries(&self) -> &[AskLog]
        ensures { result.now ≡ self.now.entries }
    {
        self.entries.as_slice()
    }

    // The closed number of a participant.
    pub(crate) fn closed(&self, from: u8) -> u64
        requires { from < 16 }
        ensures { result ≡ closed_number self.now.entries from }
    {
        self.closed[from as usize]
    }

    // Logs an outcome after the others.
    pub(crate) fn push(&mut self, entry: AskLog)
        requires participant { entry.from < 16 }
        requires room { 0 < self.old.room }
        ensures { self.new ≡ record self.old {
          entries = self.old.entries ++ entry ∷ [];
          room = self.old.room - 1;
        } }
    {
        self.above
            .push_reserved(self.closed[entry.from as usize] < entry.number);
        close(&mut self.closed, &entry);
        count_failure(&mut self.failed, failure_of(&entry.outcome));
        append(&mut self.entries, entry);
    }

    // A place before which no outcome other than Stale of an ask stands.
    fn since(&self, from: u8, number: u64) -> usize
        ensures within { result ≤ length self.now.entries }
        ensures none { find (is_outcome_for from number) (take result self.now.entries) ≡ None }
    {
        let len = self.entries.len();
        if self.is_above(from, number) {
            return len;
        }
        for n in 0..len {
            let place = len - 1 - n;
            if self.begins(place, from, number) {
                return place;
            }
        }
        0
    }

    // Whether the number is above the participant's closed one.
    fn is_above(&self, from: u8, number: u64) -> bool
        ensures { IsTrue result → closed_number self.now.entries from < number }
    {
        if usize::from(from) < self.closed.len() {
            self.closed[from as usize] < number
        } else {
            false
        }
    }

    // Whether the outcome at a place is the participant's, has at most that number, and was above the closed one.
    fn begins(&self, place: usize, from: u8, number: u64) -> bool
        requires { place < length self.now.entries }
        ensures { IsTrue result → closed_number (take place self.now.entries) from < number }
    {
        let entry = &self.entries[place];
        if entry.from == from && entry.number <= number {
            self.above[place]
        } else {
            false
        }
    }

    // The first outcome other than Stale of an ask.
    pub(crate) fn outcome(&self, from: u8, number: u64) -> Option<Outcome>
        ensures { result ≡ outcome_of self.now.entries from number }
    {
        let since = self.since(from, number);
        first_outcome(&self.entries[since..], from, number)
    }

    // Whether a failed mapping of that participant is logged, by this call of its mapper or a later one.
    pub(crate) fn has_failed_from(&self, participant: u8, call: u64) -> bool
        ensures { result ≡ has_failed_from self.now.entries participant call }
    {
        match self.failed[participant as usize] {
            Some(last) => call <= last,
            None => false,
        }
    }

    // The first grant or refusal of an ask.
    pub(crate) fn grant_or_refusal(&self, from: u8, number: u64) -> Option<Outcome>
        ensures { result ≡ grant_or_refusal_of self.now.entries from number }
    {
        let since = self.since(from, number);
        first_answer(&self.entries[since..], from, number)
    }
}
