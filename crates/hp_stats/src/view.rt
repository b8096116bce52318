use crate::stat_pair::StatPair;
use std::collections::LinkedList;

// What a pass of a cell knows: whether it is the pen, and then what was published; and the pairs that it has seen. No value of it is made.
pub struct View {
    pub pen: bool,
    pub published: LinkedList<StatPair>,
    pub seen: LinkedList<StatPair>,
}
