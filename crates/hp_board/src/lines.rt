ghost use Rattle.std.specs.Prelude.{◌≡◌, ◌<◌, ◌≤◌};
ghost use Rattle.hp_base.specs.declared.limits.TheConstants.{MAX_PARTICIPANTS};
ghost use Rattle.hp_board.specs.Lines.{HasAllHome};
ghost use Rattle.hp_board.specs.Parts.{one_part, part_of};
ghost use Rattle.hp_board.specs.Views.{after_lookup, after_telling, lines_known, lines_told};
ghost use Rattle.hp_board.specs.declared.words.TheConstants.{WORDS};

use crate::board::Board;
use crate::plays::{LookUp, SharedSlots, Tell, Token};
use crate::seat::Seat;
use crate::words::DONE_WORDS;

impl Board {
    /// Tells, by one store to the participant's done word, that so many of its lines are done. All that these made is home: the participant
    /// holds no heap, and the names neither. Own.
    pub fn store_done(&self, seat: &mut Seat, lines: u32)
        requires board { seat.old.board ≡ self.now.id }
        requires rises { lines_told seat.old.mine ≤ lines }
        requires home { HasAllHome seat.old.mine }
        ensures told { seat.new.mine ≡ after_telling lines seat.old.mine }
        ensures board { seat.new.board ≡ seat.old.board }
    {
        tell_word(&self.table.shared, &mut seat.token, seat.who, lines);
    }

    /// How many lines of a participant are done, by one load of its done word. Own.
    pub fn load_done(&self, seat: &mut Seat, participant: u8) -> u32
        requires board { seat.old.board ≡ self.now.id }
        requires declared { participant < seat.old.mine.opening.participants }
        ensures looked { seat.new.mine ≡ after_lookup participant result seat.old.mine }

        // There are not fewer than were known before, and of one's own they are those that one has told.
        ensures rises { lines_known participant seat.old.mine ≤ result }
        ensures own { participant ≡ seat.old.mine.who → result ≡ lines_told seat.old.mine }
        ensures board { seat.new.board ≡ seat.old.board }
    {
        look_word(&self.table.shared, &mut seat.token, participant)
    }
}

// Stores the number of lines to the participant's done word.
fn tell_word(shared: &SharedSlots, token: &mut Token, who: u8, lines: u32)
    requires table { token.old.table_id ≡ shared.now.table_id }
    requires words { shared.now.table_id.words ≡ WORDS }
    requires one { token.old.me.0 ≡ one_part (part_of token.old.me.0) }
    requires who { (who ≡ (part_of token.old.me.0).who) × (who < MAX_PARTICIPANTS) }
    requires rises { lines_told (part_of token.old.me.0) ≤ lines }
    requires home { HasAllHome (part_of token.old.me.0) }
    ensures table { token.new.table_id ≡ token.old.table_id }
    ensures told { token.new.me ≡ (one_part (after_telling lines (part_of token.old.me.0)), token.old.me.1) }
{
    shared.store::<Tell>(token, DONE_WORDS + who as usize, u64::from(lines));
}

// Loads a participant's done word, whose number is one of lines.
fn look_word(shared: &SharedSlots, token: &mut Token, participant: u8) -> u32
    requires table { token.old.table_id ≡ shared.now.table_id }
    requires words { shared.now.table_id.words ≡ WORDS }
    requires one { token.old.me.0 ≡ one_part (part_of token.old.me.0) }
    requires declared { participant < (part_of token.old.me.0).opening.participants }
    requires few { participant < MAX_PARTICIPANTS }
    ensures table { token.new.table_id ≡ token.old.table_id }
    ensures looked { token.new.me ≡ (one_part (after_lookup participant result (part_of token.old.me.0)), token.old.me.1) }
    ensures rises { lines_known participant (part_of token.old.me.0) ≤ result }
    ensures own { participant ≡ (part_of token.old.me.0).who → result ≡ lines_told (part_of token.old.me.0) }
{
    let lines = shared.load::<LookUp>(token, DONE_WORDS + participant as usize);
    lines as u32
}
