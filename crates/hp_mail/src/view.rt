use crate::letter::Letter;
use hp_frame::Frame;
use std::collections::LinkedList;

// A participant, and the frames that it has posted into a mailbox. No value of it is made.
pub struct Sender {
    pub who: u64,
    pub posted: LinkedList<Frame>,
}

// What a pass of the queue knows: of its senders what they have posted; where it fetches, what was fetched; where it deals, or has taken
// over the dealing, how many participants have a pass. No value of it is made.
pub struct View {
    pub senders: LinkedList<Sender>,
    pub fetches: bool,
    pub fetched: LinkedList<Letter>,
    pub deals: bool,
    pub dealt: u64,
}
