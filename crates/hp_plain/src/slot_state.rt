ghost use Rattle.std.specs.Prelude.{◌≡◌, IsSome, Some, None, length};
ghost use Rattle.hp_plain.specs.HallSteps.{home_slot, out_slot, telling_slot};
ghost use Rattle.hp_plain.specs.HallView.{newest_of};
ghost use Rattle.hp_hall.specs.Values.{IsHeap, log_of, pair_in};

use crate::pairs::pair_now;
use hp_hall::Kept;
use hp_stats::StatPair;
use std::marker::Model;
use std::mem;
use std::snapshot::Snapshot;

// A slot of a hall of plain values: its value, or the value as it was taken, who holds it and what that one has published; and the newest
// pair of a heap. Of a value that is out the number of records alone is kept.
#[derive(Drop)]
pub(crate) struct SlotState {
    state: State,
    newest: StatPair,
}

#[derive(Drop)]
enum State {
    Home(Kept),
    Out(Snapshot<Kept>, usize, u8, Snapshot<Option<StatPair>>),
}

impl Model for SlotState {
    ghost use Rattle.hp_plain.specs.HallView.{SlotView};

    ghost Value = { SlotView };

    ghost use Rattle.hp_plain.specs.SlotStates.{slot_view, IsKeptIn};

    ghost view = { λ a. slot_view a.state };

    ghost invariant = { λ a. IsKeptIn a.state a.newest };
}

impl SlotState {
    // A slot with its value.
    pub fn new(kept: Kept) -> SlotState
        ensures { result ≡ home_slot kept }
    {
        SlotState {
            newest: pair_now(&kept),
            state: State::Home(kept),
        }
    }

    // Its value goes out, to the participant that holds it from then on.
    pub fn take(&mut self, who: u8) -> Kept
        requires home { self.old.holder ≡ None }
        ensures kept { self.old ≡ home_slot result }
        ensures out { self.new ≡ out_slot who result }
    {
        let out = match &self.state {
            State::Home(kept) => State::Out(
                Snapshot::of(kept),
                records_of(kept),
                who,
                Snapshot::of(&None),
            ),
            State::Out(..) => unreachable!(),
        };
        match mem::replace(&mut self.state, out) {
            State::Home(kept) => kept,
            State::Out(..) => unreachable!(),
        }
    }

    // A value comes in, of which the pair was published last.
    pub fn give(&mut self, kept: Kept)
        requires told { newest_of self.old ≡ pair_in kept }
        ensures { self.new ≡ home_slot kept }
    {
        self.state = State::Home(kept);
    }

    // The holder of its heap publishes a pair.
    pub fn tell(&mut self, pair: StatPair)
        requires heap { IsHeap self.old.kept }
        requires out { IsSome self.old.holder }
        ensures { self.new ≡ telling_slot pair self.old }
    {
        match &mut self.state {
            State::Home(_) => unreachable!(),
            State::Out(_, _, _, told) => *told = Snapshot::of(&Some(pair)),
        }
        self.newest = pair;
    }

    // The newest pair of its heap.
    pub fn newest(&self) -> StatPair
        ensures { result ≡ newest_of self.now }
    {
        self.newest
    }

    // How many records its log has, as far as they were given back.
    pub fn records(&self) -> usize
        ensures { result ≡ length (log_of self.now.kept) }
    {
        match &self.state {
            State::Home(kept) => records_of(kept),
            State::Out(_, records, _, _) => *records,
        }
    }

    // Its value, at the end.
    pub fn into_kept(self) -> Kept
        requires home { self.holder ≡ None }
        ensures { self ≡ home_slot result }
    {
        match self.state {
            State::Home(kept) => kept,
            State::Out(..) => unreachable!(),
        }
    }
}

// How many records the log of a value has.
fn records_of(kept: &Kept) -> usize
    ensures { result ≡ length (log_of kept.now) }
{
    match kept {
        Kept::Segments { segs } => segs.records().len(),
        Kept::Heap { .. } | Kept::Names { .. } => 0,
    }
}
