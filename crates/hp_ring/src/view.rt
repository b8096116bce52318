use crate::bulk::Bulk;
use std::collections::LinkedList;

// A sender, and the bulks that it has put. No value of it is made.
pub struct Sender {
    pub who: u64,
    pub sent: LinkedList<Bulk>,
}

// What a pass of the queue knows: of its senders what they have put; where it takes, what was taken; where it deals, how many senders have
// a pass. No value of it is made.
pub struct View {
    pub senders: LinkedList<Sender>,
    pub takes: bool,
    pub taken: LinkedList<Bulk>,
    pub deals: bool,
    pub dealt: u64,
}
