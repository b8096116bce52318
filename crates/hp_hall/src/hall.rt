ghost use Rattle.std.specs.Prelude.{◌≡◌, ◌⊎◌, ℕ, ◌+◌, ◌*◌, ◌^◌, ◌<◌, ◌≤◌, [], ◌∷◌, true, IfErr, IfOk, length};
ghost use Rattle.hp_base.specs.declared.limits.TheConstants.{MAX_HEAPS};
ghost use Rattle.hp_stats.specs.Pairs.{pair};
ghost use Rattle.hp_hall.specs.declared.note.Note.{Note};
ghost use Rattle.hp_hall.specs.Giving.{IsGiveOf};
ghost use Rattle.hp_hall.specs.HallCalls.{
  HasComeTo,
  HasFoundHeld,
  HasGiven,
  HasLoadedLines,
  HasPublished,
  HasReadPair,
  HasStored,
  HasTaken,
  HavePosted,
  MayPublish,
  MayStore,
};
ghost use Rattle.hp_hall.specs.HallState.{Did, HallState, IsBusy, IsLater, OthersStay, SlotsStayBut, Stays, known_to};
ghost use Rattle.hp_hall.specs.Mail.{Fetches, HasInHand, Notes, Posts};
ghost use Rattle.hp_hall.specs.Own.{after_ack, after_partial};
ghost use Rattle.hp_hall.specs.Slots.{IsSlot, slot_number};
ghost use Rattle.hp_hall.specs.Measures.{fetched_measure, frame_measure};

use crate::busy::Busy;
use crate::kept::Kept;
use crate::slot::Slot;
use hp_base::{Action, Row, Stats};
use hp_frame::Frame;
use hp_mail::Posted;

/// Where a participant does its lines and serves: the values that all share, the mailboxes, and its clock. Each call is one of the
/// participant `me`. The methods take no handle, so that a hall of threads is an instance too. Own.
pub trait Hall {
    /// How the hall looks to its callers.
    ghost state: { Self → HallState };

    /// What a deadline counts at a clock, and what a frame's measure counts for: 1 in one thread, and 0 where a count of turns falls
    /// instead.
    ghost pending: { ℕ → ℕ → ℕ };

    ghost scale: { ℕ };

    /// Whatever a hall says of its own course.
    ghost goes_on: { Self → Self → Type 0 };

    /// The number of its participants.
    fn participants(&self) -> u8
        ensures { result ≡ (state self.now).count };

    /// Takes the value of a slot. In one thread the value has to be there; over threads it waits for it. After
    /// rte_spinlock_lock.
    fn take(&mut self, me: u8, slot: Slot) -> Kept
        requires serves { (state self.old).serves me }
        requires slot { IsSlot slot }
        requires home { (state self.old).may_take (slot_number slot) }
        ensures took { HasTaken me (slot_number slot) result (state self.old) (state self.new) }
        ensures slots { SlotsStayBut (slot_number slot) (state self.old) (state self.new) }
        ensures others { OthersStay me (state self.old) (state self.new) }
        ensures measure { (state self.new).measure ≤ (state self.old).measure }
        ensures goes_on { goes_on self.old self.new };

    /// Tries to take the value of a slot, at one step. After rte_spinlock_trylock.
    fn try_take(&mut self, me: u8, slot: Slot) -> Result<Kept, Busy>
        requires serves { (state self.old).serves me }
        requires slot { IsSlot slot }
        requires home { (state self.old).may_take (slot_number slot) }
        ensures took { IfOk result (λ kept. HasTaken me (slot_number slot) kept (state self.old) (state self.new)) }
        ensures held { IfErr result (λ busy. HasFoundHeld me (slot_number slot) busy.word (state self.old) (state self.new)) }
        ensures slots { SlotsStayBut (slot_number slot) (state self.old) (state self.new) }
        ensures others { OthersStay me (state self.old) (state self.new) }
        ensures measure { (state self.new).measure ≤ (state self.old).measure }
        ensures goes_on { goes_on self.old self.new };

    /// Gives a value back to its slot. After rte_spinlock_unlock.
    fn give(&mut self, me: u8, slot: Slot, kept: Kept)
        requires serves { (state self.old).serves me }
        requires slot { IsSlot slot }
        requires gives { IsGiveOf (known_to me (state self.old)) (slot_number slot) kept }
        ensures gave { HasGiven me (slot_number slot) kept (state self.old) (state self.new) }
        ensures slots { SlotsStayBut (slot_number slot) (state self.old) (state self.new) }
        ensures others { OthersStay me (state self.old) (state self.new) }
        ensures measure { (state self.new).measure ≤ (state self.old).measure }
        ensures goes_on { goes_on self.old self.new };

    /// Acknowledges records: the participant's table has taken in so many. It is in the roster, or has the segment value in hand, so that
    /// it may come in. Own.
    fn ack(&mut self, me: u8, number: u64)
        requires serves { (state self.old).serves me }
        requires may { ((state self.old).joined me ≡ true) ⊎ HasInHand MAX_HEAPS ((state self.old).done me) }
        requires rises { ((state self.old).own me).number ≤ number }
        requires seen { number ≤ length ((state self.old).seen me) }
        ensures own { HasComeTo me (after_ack number) (Notes (Note.Acked number) ∷ []) (state self.old) (state self.new) }
        ensures measure { (state self.new).measure ≤ (state self.old).measure }
        ensures goes_on { goes_on self.old self.new };

    /// Tells that the table has lost all that the records after the participant's number drop, as far as it has seen them. Own.
    fn note_unmapped(&mut self, me: u8)
        requires serves { (state self.old).serves me }
        ensures own { HasComeTo me (after_partial (length ((state self.old).seen me)) ((state self.old).own me))
            (Notes Note.Unmapped ∷ []) (state self.old) (state self.new) }
        ensures measure { (state self.new).measure ≤ (state self.old).measure }
        ensures goes_on { goes_on self.old self.new };

    /// Tells that the participant's table has no row: these are its rows. Own.
    fn emptied(&mut self, me: u8, rows: &[Row])
        requires serves { (state self.old).serves me }
        requires none { rows.now ≡ [] }
        ensures did { Did me (Notes Note.Emptied ∷ []) (state self.old) (state self.new) }
        ensures stays { Stays me (state self.old) (state self.new) }
        ensures measure { (state self.new).measure ≤ (state self.old).measure }
        ensures goes_on { goes_on self.old self.new };

    /// How many records a participant has acknowledged. Own.
    fn load_ack(&mut self, me: u8, participant: u8) -> u64
        requires serves { (state self.old).serves me }
        requires declared { participant < (state self.old).count }
        ensures noted { result ≡ ((state self.new).noted me participant).number }
        ensures mine { participant ≡ me → result ≡ ((state self.old).own me).number }
        ensures did { Did me (Notes (Note.Loaded participant result) ∷ []) (state self.old) (state self.new) }
        ensures stays { Stays me (state self.old) (state self.new) }
        ensures measure { (state self.new).measure ≤ (state self.old).measure }
        ensures goes_on { goes_on self.old self.new };

    /// Tells that so many of the participant's lines are done. All that they did is home. Own.
    fn store_done(&mut self, me: u8, lines: u32)
        requires serves { (state self.old).serves me }
        requires may { MayStore me lines (state self.old) }
        ensures stored { HasStored me lines (state self.old) (state self.new) }
        ensures measure { (state self.new).measure ≤ (state self.old).measure }
        ensures goes_on { goes_on self.old self.new };

    /// How many of its lines a participant has told to be done. Own.
    fn load_done(&mut self, me: u8, participant: u8) -> u32
        requires serves { (state self.old).serves me }
        requires declared { participant < (state self.old).count }
        ensures loaded { HasLoadedLines me participant result (state self.old) (state self.new) }
        ensures measure { (state self.new).measure ≤ (state self.old).measure }
        ensures goes_on { goes_on self.old self.new };

    /// Publishes the statistics of a heap in hand, with the count of its entries, by the heap's pen. Own; rte_malloc_get_socket_stats
    /// takes the heap's lock.
    fn publish(&mut self, me: u8, heap: u32, kept: &mut Kept)
        requires serves { (state self.old).serves me }
        requires may { MayPublish (known_to me (state self.old)) heap kept.old }
        ensures published { HasPublished me heap kept.old kept.new (state self.old) (state self.new) }
        ensures measure { (state self.new).measure ≤ (state self.old).measure }
        ensures goes_on { goes_on self.old self.new };

    /// The newest count of entries and statistics of a heap, whoever holds it. After rte_malloc_get_socket_stats, without the heap's lock.
    fn read(&mut self, me: u8, heap: u32) -> (u64, Stats)
        requires serves { (state self.old).serves me }
        requires heap { heap < MAX_HEAPS }
        ensures read { HasReadPair me heap (pair result.0 result.1) (state self.old) (state self.new) }
        ensures measure { (state self.new).measure ≤ (state self.old).measure }
        ensures goes_on { goes_on self.old self.new };

    /// Posts a frame to a participant, as it is planned. After rte_mp_sendmsg.
    fn post(&mut self, me: u8, to: u8, frame: Frame, action: Action) -> Posted
        requires serves { (state self.old).serves me }
        requires declared { to < (state self.old).count }
        ensures did { Did me (Posts to frame action result ∷ []) (state self.old) (state self.new) }
        ensures stays { Stays me (state self.old) (state self.new) }
        ensures measure { (state self.new).measure ≤ (state self.old).measure + scale * (2 * frame_measure frame) }
        ensures goes_on { goes_on self.old self.new };

    /// Fetches the first frame of the participant's mailbox, or none where that was empty. After the actions of rte_mp_action_register.
    fn fetch(&mut self, me: u8) -> Option<Frame>
        requires serves { (state self.old).serves me }
        ensures did { Did me (Fetches result ∷ []) (state self.old) (state self.new) }
        ensures stays { Stays me (state self.old) (state self.new) }
        ensures measure { (state self.new).measure + scale * fetched_measure result ≤ (state self.old).measure }
        ensures goes_on { goes_on self.old self.new };

    /// A reading of the participant's clock, in milliseconds. It is at most 2^63, as long as one thread's clock is. After
    /// rte_get_timer_cycles.
    fn now(&mut self, me: u8) -> u64
        requires serves { (state self.old).serves me }
        ensures most { (state self.old).clock ≤ 2 ^ 63 → result ≤ 2 ^ 63 }
        ensures before { (deadline : ℕ) → result < deadline → pending (state self.new).clock deadline ≡ scale }
        ensures reached { (deadline : ℕ) → deadline ≤ result → pending (state self.new).clock deadline ≡ 0 }
        ensures did { Did me (Notes (Note.Read result) ∷ []) (state self.old) (state self.new) }
        ensures stays { Stays me (state self.old) (state self.new) }
        ensures measure { (state self.new).measure ≤ (state self.old).measure }
        ensures goes_on { goes_on self.old self.new };

    /// The course: from a state to itself, and on from state to state; on it a hall is later on, and each post comes to what the hall
    /// counts and the plan says.
    ghost goes_on_same: { (a : Self) → goes_on a a };

    ghost goes_on_then: { (a b c : Self) → goes_on a b → goes_on b c → goes_on a c };

    ghost goes_on_later: { (a b : Self) → goes_on a b → IsLater (state a) (state b) };

    ghost goes_on_posts: { (a b : Self) → goes_on a b → HavePosted (state a) (state b) };

    /// No deadline counts for more than the scale, and while a slot is held each may still come.
    ghost pending_most: { (at deadline : ℕ) → pending at deadline ≤ scale };

    ghost busy_pending: { (a : Self) (deadline : ℕ) → IsBusy (state a) → pending (state a).clock deadline ≡ scale };
}
