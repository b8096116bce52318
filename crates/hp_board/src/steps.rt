ghost use Rattle.std.specs.Prelude.{◌≡◌, ◌<◌, ◌≤◌, ◌∷◌, Option, Some, None, IfOk, IfErr, Contains, length, slice_index, vec_len, vec_capacity};
ghost use Rattle.atomic_table.specs.Table.{rest};
ghost use Rattle.hp_heap.specs.History.{entries_of};
ghost use Rattle.hp_hall.specs.Values.{history_of};
ghost use Rattle.hp_hall.specs.declared.kept.Kept.{Kept};
ghost use Rattle.hp_board.specs.declared.words.TheConstants.{SLOTS, WORDS};
ghost use Rattle.hp_hall.specs.Slots.{slot_number, IsSlot};
ghost use Rattle.hp_board.specs.Parts.{part_of, one_part};
ghost use Rattle.hp_board.specs.Agreement.{AgreesFrom};
ghost use Rattle.hp_board.specs.Giving.{IsGiveAt};
ghost use Rattle.hp_board.specs.Views.{after_give, after_look, made_in, value_of};
ghost use Rattle.hp_board.specs.Handed.{HasTakenOut, IsHanded, IsHeldWord};
ghost use Rattle.hp_board.specs.Knowing.{HasMappedHeld, knows_of};
ghost use Rattle.hp_board.specs.Turns.{turned_by};

use crate::board::Board;
use crate::plays::{Give, SharedSlots, Token, Try};
use crate::seat::Seat;
use hp_hall::{Kept, Slot};

impl Board {
    /// Tries to lock a slot by one compare and exchange of its lock word, from 0 to the participant's number plus 1, and
    /// hands out the value; or gives the word that was found. After rte_spinlock_trylock.
    pub fn try_lock(&self, seat: &mut Seat, slot: Slot) -> Result<Kept, u64>
        requires board { seat.old.board ≡ self.now.id }
        requires slot { IsSlot slot }

        // Where the word was 0, the value is the slot's, and the seat holds it from then on.
        ensures handed { IfOk result (λ kept. IsHanded seat.old.mine (slot_number slot) kept seat.new.mine) }
        ensures taken { IfOk result (λ kept. HasTakenOut (slot_number slot) kept seat.old.mine seat.new.mine) }

        // Else the word says who holds the slot, and that it was found is all that changes.
        ensures held { IfErr result (IsHeldWord seat.old.mine (slot_number slot)) }
        ensures noted { IfErr result (λ word. seat.new.mine ≡ after_look (slot_number slot) word seat.old.mine) }
        ensures board { seat.new.board ≡ seat.old.board }
    {
        let number = slot.number();
        let kept = lock_word(&self.table.shared, &mut seat.token, number, seat.who)?;
        put_first(&mut seat.order, number);
        Ok(kept)
    }

    /// Gives a value back and unlocks its slot, by one store of 0 to the lock word. After rte_spinlock_unlock.
    pub fn unlock(&self, seat: &mut Seat, slot: Slot, kept: Kept)
        requires board { seat.old.board ≡ self.now.id }
        requires slot { IsSlot slot }
        requires gives { IsGiveAt (knows_of seat.old.mine) (slot_number slot) kept }
        ensures given { seat.new.mine ≡ after_give (slot_number slot) kept seat.old.mine }
        ensures own { entries_of seat.old.mine.who (history_of kept) ≡ made_in (slot_number slot) seat.new.mine }

        // Rows become agreed only by numbers of all members that this seat has loaded.
        ensures agreed { AgreesFrom seat.old.mine (value_of (slot_number slot) seat.old.mine.held) kept }

        // Where this participant is in the roster, its own table has the pages of the heaps that it still holds.
        ensures mapped { HasMappedHeld seat.new.mine }
        ensures board { seat.new.board ≡ seat.old.board }
    {
        let number = slot.number();
        let before = place_of(&seat.order, number);
        turn(&mut seat.token, before);
        unlock_word(&self.table.shared, &mut seat.token, number, kept);
        seat.order.remove(before);
        turn(&mut seat.token, seat.order.len() - before);
    }
}

// Puts a number in front.
fn put_first(order: &mut Vec<usize>, number: usize)
    requires { vec_len order.old < vec_capacity order.old }
    ensures items { order.new.items ≡ number ∷ order.old.items }
    ensures room { vec_capacity order.old ≤ vec_capacity order.new }
{
    let _ = order.insert(0, number);
}

// Where a number stands that is there.
fn place_of(order: &[usize], number: usize) -> usize
    requires { Contains order.now number }
    ensures inside { result < length order.now }
    ensures here { slice_index order.now result ≡ number }
{
    for (place, other) in order.iter().enumerate() {
        if *other == number {
            return place;
        }
    }
    unreachable!()
}

// Turns a token so many times.
fn turn(token: &mut Token, times: usize)
    ensures table { token.new.table_id ≡ token.old.table_id }
    ensures me { token.new.me ≡ (token.old.me.0, turned_by times token.old.me.1) }
{
    for _ in 0..times {
        token.turn();
    }
}

// Tries a lock word, and moves the value out of the slot.
fn lock_word(shared: &SharedSlots, token: &mut Token, number: usize, who: u8) -> Result<Kept, u64>
    requires table { token.old.table_id ≡ shared.now.table_id }
    requires slots { (number < SLOTS) × (shared.now.table_id.words ≡ WORDS)
        × (shared.now.table_id.slots ≡ SLOTS) }
    requires one { token.old.me.0 ≡ one_part (part_of token.old.me.0) }
    requires who { who ≡ (part_of token.old.me.0).who }
    ensures table { token.new.table_id ≡ token.old.table_id }
    ensures handed { IfOk result (λ kept. IsHanded (part_of token.old.me.0) number kept (part_of token.new.me.0)) }
    ensures taken { IfOk result (λ kept. HasTakenOut number kept (part_of token.old.me.0) (part_of token.new.me.0)) }
    ensures out { IfOk result (λ kept. token.new.me ≡ (one_part (part_of token.new.me.0), (number, None) ∷ token.old.me.1)) }
    ensures held { IfErr result (IsHeldWord (part_of token.old.me.0) number) }
    ensures noted { IfErr result (λ word. token.new.me
        ≡ (one_part (after_look number word (part_of token.old.me.0)), token.old.me.1)) }
{
    let found = shared.compare_exchange::<Try>(token, number, 0, u64::from(who) + 1);
    if found != 0 {
        return Err(found);
    }
    Ok(moved_out(shared, token, number))
}

// Moves a value out of the slot in front.
fn moved_out(shared: &SharedSlots, token: &mut Token, number: usize) -> Kept
    requires table { token.old.table_id ≡ shared.now.table_id }
    requires front { (kept : Kept) × (token.old.me.1 ≡ (number, Some kept) ∷ rest token.old.me.1) }
    ensures table { token.new.table_id ≡ token.old.table_id }
    ensures value { token.old.me.1 ≡ (number, Some result) ∷ rest token.old.me.1 }
    ensures me { token.new.me ≡ (token.old.me.0, (number, None) ∷ rest token.old.me.1) }
{
    shared.exchange(token, number, None).unwrap()
}

// Moves a value into the slot in front, and stores 0 to its lock word.
fn unlock_word(shared: &SharedSlots, token: &mut Token, number: usize, kept: Kept)
    requires table { token.old.table_id ≡ shared.now.table_id }
    requires slots { (number < SLOTS) × (shared.now.table_id.words ≡ WORDS)
        × (shared.now.table_id.slots ≡ SLOTS) }
    requires one { token.old.me.0 ≡ one_part (part_of token.old.me.0) }
    requires gives { IsGiveAt (knows_of (part_of token.old.me.0)) number kept }
    requires front { (was : Option Kept) × (token.old.me.1 ≡ (number, was) ∷ rest token.old.me.1) }
    ensures table { token.new.table_id ≡ token.old.table_id }
    ensures given { token.new.me
        ≡ (one_part (after_give number kept (part_of token.old.me.0)), rest token.old.me.1) }
    ensures own { entries_of (part_of token.old.me.0).who (history_of kept) ≡ made_in number (after_give number kept (part_of token.old.me.0)) }
    ensures agreed { AgreesFrom (part_of token.old.me.0) (value_of number (part_of token.old.me.0).held) kept }
    ensures mapped { HasMappedHeld (after_give number kept (part_of token.old.me.0)) }
{
    kept.sound();
    drop(shared.exchange(token, number, Some(kept)));
    shared.store::<Give>(token, number, 0);
}
