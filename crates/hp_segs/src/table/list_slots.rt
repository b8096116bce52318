//! What the table keeps of the slots of one list.
ghost use Rattle.std.specs.Prelude.{◌≡◌, ◌+◌, ◌<◌, ◌≤◌, ◌^◌, IfOk, length, replicate, slice_index_or};
ghost use Rattle.hp_segs.specs.Masks.{with_places};
ghost use Rattle.hp_segs.specs.Slots.{SlotsView};

use crate::row_state::RowState;
use std::alloc::{AllocError, Global};
use std::marker::Model;

// The generation and the state of the row at each slot. Where a slot has no row, they say nothing.
#[derive(Drop)]
pub(crate) struct ListSlots {
    generations: Vec<u64>,
    states: Vec<RowState>,
}

impl Model for ListSlots {
    ghost use Rattle.hp_segs.specs.Slots.{SlotsView};

    ghost Value = { SlotsView };

    ghost view = { λ s. record { generations = s.generations.items; states = s.states.items } };
}

// Sets `count` generations from `first` on.
#[tactic(auto, using(crate::proofs::SlotFacts::MaskLemmas::with_places_more, crate::proofs::SlotFacts::MaskLemmas::length_with_places))]
fn set_generations(generations: &mut Vec<u64>, first: u32, count: u32, generation: u64)
    requires within { first + count ≤ length generations.old.items }
    requires slots { first + count < 2 ^ 32 }
    ensures { generations.new.items ≡ with_places generations.old.items first count generation }
{
    for n in 0..count {
        generations[(first + n) as usize] = generation;
    }
}

// Sets `count` states from `first` on.
#[tactic(auto, using(crate::proofs::SlotFacts::MaskLemmas::with_places_more, crate::proofs::SlotFacts::MaskLemmas::length_with_places))]
fn set_states(states: &mut Vec<RowState>, first: u32, count: u32, state: RowState)
    requires within { first + count ≤ length states.old.items }
    requires slots { first + count < 2 ^ 32 }
    ensures { states.new.items ≡ with_places states.old.items first count state }
{
    for n in 0..count {
        states[(first + n) as usize] = state;
    }
}

impl ListSlots {
    pub(crate) fn new(alloc: Global, slots: usize) -> Result<ListSlots, AllocError>
        ensures { IfOk result (λ list. list ≡ record {
          generations = replicate slots 0;
          states = replicate slots RowState.Opened;
        }) }
    {
        Ok(ListSlots {
            generations: vec![in alloc; 0_u64; slots]?,
            states: vec![in alloc; RowState::Opened; slots]?,
        })
    }

    pub(crate) fn generation(&self, slot: usize) -> u64
        requires { slot < length self.now.generations }
        ensures { result ≡ slice_index_or self.now.generations slot 0 }
    {
        self.generations[slot]
    }

    pub(crate) fn state(&self, slot: usize) -> RowState
        requires { slot < length self.now.states }
        ensures { result ≡ slice_index_or self.now.states slot RowState.Opened }
    {
        self.states[slot]
    }

    // The rows of a generation come at `count` slots from `first` on.
    pub(crate) fn put_generation(&mut self, first: u32, count: u32, generation: u64)
        requires within { first + count ≤ length self.old.generations }
        requires slots { first + count < 2 ^ 32 }
        ensures { self.new ≡ record self.old {
          generations = with_places self.old.generations first count generation;
        } }
    {
        set_generations(&mut self.generations, first, count, generation);
    }

    // The rows at `count` slots from `first` on take a state.
    pub(crate) fn put_state(&mut self, first: u32, count: u32, state: RowState)
        requires within { first + count ≤ length self.old.states }
        requires slots { first + count < 2 ^ 32 }
        ensures { self.new ≡ record self.old {
          states = with_places self.old.states first count state;
        } }
    {
        set_states(&mut self.states, first, count, state);
    }
}
