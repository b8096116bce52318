use hp_base::MAX_PARTICIPANTS;

/// How many slots a board has, which are those of a hall: one for each heap, one for the segment value, and one for the names. Own.
pub const SLOTS: usize = hp_hall::SLOTS;

/// The number of participant 0's acknowledgement word, which stands after the lock words. Own.
pub const ACK_WORDS: usize = SLOTS;

/// The number of participant 0's done word, which stands after the acknowledgement words. Own.
pub const DONE_WORDS: usize = ACK_WORDS + MAX_PARTICIPANTS as usize;

/// How many words a board has: a lock word for each slot, and an acknowledgement word and a done word for each participant that there may
/// be. Own.
pub const WORDS: usize = DONE_WORDS + MAX_PARTICIPANTS as usize;
