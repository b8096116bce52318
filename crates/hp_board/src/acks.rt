ghost use Rattle.std.specs.Prelude.{◌≡◌, ◌⊎◌, ◌<◌, ◌≤◌, true, length};
ghost use Rattle.hp_base.specs.declared.limits.TheConstants.{MAX_PARTICIPANTS};
ghost use Rattle.hp_log.specs.Log.{IsWellFormed};
ghost use Rattle.hp_board.specs.Parts.{one_part, part_of};
ghost use Rattle.hp_board.specs.Restoring.{IsRestored};
ghost use Rattle.hp_board.specs.Views.{after_acking, after_load, after_unmapping, holds_segments, noted_of};
ghost use Rattle.hp_board.specs.declared.words.TheConstants.{WORDS};

use crate::board::Board;
use crate::plays::{Ack, Load, SharedSlots, Token, Unmap};
use crate::seat::Seat;
use crate::words::ACK_WORDS;

impl Board {
    /// Acknowledges records by one store to the participant's word: its table has taken in so many of those that it has seen. Who
    /// is not in the roster holds the segment slot, to join. Own.
    pub fn ack(&self, seat: &mut Seat, number: u64)
        requires board { seat.old.board ≡ self.now.id }
        requires hand { (seat.old.mine.joined ≡ true) ⊎ (holds_segments seat.old.mine ≡ true) }
        requires rises { seat.old.mine.number ≤ number }
        requires seen { number ≤ length seat.old.mine.log }
        ensures acked { seat.new.mine ≡ after_acking number seat.old.mine }

        // At the Drop of a growth that failed the table is the one from before that.
        ensures restored { IsRestored seat.new.mine }
        ensures board { seat.new.board ≡ seat.old.board }
    {
        ack_word(&self.table.shared, &mut seat.token, seat.who, number);
    }

    /// Tells, by one load of the participant's own word, that its table has lost all that the records after its number drop, as
    /// far as it has seen them. Own.
    pub fn note_unmapped(&self, seat: &mut Seat)
        requires board { seat.old.board ≡ self.now.id }
        ensures unmapped { seat.new.mine ≡ after_unmapping seat.old.mine }
        ensures board { seat.new.board ≡ seat.old.board }
    {
        unmap_word(&self.table.shared, &mut seat.token, seat.who);
    }

    /// How many records a participant has acknowledged, by one load of its word. Own.
    pub fn load_ack(&self, seat: &mut Seat, participant: u8) -> u64
        requires board { seat.old.board ≡ self.now.id }
        requires declared { participant < seat.old.mine.opening.participants }
        ensures loaded { seat.new.mine ≡ after_load participant result seat.old.mine }

        // It is not below what was known before, and one's own word is one's own number.
        ensures rises { noted_of participant seat.old.mine ≤ result }
        ensures own { participant ≡ seat.old.mine.who → result ≡ seat.old.mine.number }
        ensures board { seat.new.board ≡ seat.old.board }
    {
        load_word(&self.table.shared, &mut seat.token, participant)
    }
}

// Stores the number of records to the participant's word.
fn ack_word(shared: &SharedSlots, token: &mut Token, who: u8, number: u64)
    requires table { token.old.table_id ≡ shared.now.table_id }
    requires words { shared.now.table_id.words ≡ WORDS }
    requires one { token.old.me.0 ≡ one_part (part_of token.old.me.0) }
    requires who { (who ≡ (part_of token.old.me.0).who) × (who < MAX_PARTICIPANTS) }
    requires hand { ((part_of token.old.me.0).joined ≡ true) ⊎ (holds_segments (part_of token.old.me.0) ≡ true) }
    requires rises { (part_of token.old.me.0).number ≤ number }
    requires seen { number ≤ length (part_of token.old.me.0).log }
    ensures table { token.new.table_id ≡ token.old.table_id }
    ensures acked { token.new.me ≡ (one_part (after_acking number (part_of token.old.me.0)), token.old.me.1) }
    ensures formed { IsWellFormed (part_of token.old.me.0).log }
{
    shared.store::<Ack>(token, ACK_WORDS + who as usize, number);
}

// Loads the participant's own word.
fn unmap_word(shared: &SharedSlots, token: &mut Token, who: u8)
    requires table { token.old.table_id ≡ shared.now.table_id }
    requires words { shared.now.table_id.words ≡ WORDS }
    requires one { token.old.me.0 ≡ one_part (part_of token.old.me.0) }
    requires who { who < MAX_PARTICIPANTS }
    ensures table { token.new.table_id ≡ token.old.table_id }
    ensures unmapped { token.new.me ≡ (one_part (after_unmapping (part_of token.old.me.0)), token.old.me.1) }
{
    let _ = shared.load::<Unmap>(token, ACK_WORDS + who as usize);
}

// Loads a participant's word.
fn load_word(shared: &SharedSlots, token: &mut Token, participant: u8) -> u64
    requires table { token.old.table_id ≡ shared.now.table_id }
    requires words { shared.now.table_id.words ≡ WORDS }
    requires one { token.old.me.0 ≡ one_part (part_of token.old.me.0) }
    requires declared { participant < (part_of token.old.me.0).opening.participants }
    requires few { participant < MAX_PARTICIPANTS }
    ensures table { token.new.table_id ≡ token.old.table_id }
    ensures loaded { token.new.me ≡ (one_part (after_load participant result (part_of token.old.me.0)), token.old.me.1) }
    ensures rises { noted_of participant (part_of token.old.me.0) ≤ result }
    ensures own { participant ≡ (part_of token.old.me.0).who → result ≡ (part_of token.old.me.0).number }
{
    shared.load::<Load>(token, ACK_WORDS + participant as usize)
}
