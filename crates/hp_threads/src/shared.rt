use hp_board::Board;
use hp_chair::Marks;
use hp_mail::Mailbox;
use hp_stats::StatCells;

// What all threads share: the marks, the board, the mailboxes, and the cells of the heaps' statistics.
#[derive(Clone, Copy)]
pub struct Shared<'a> {
    pub marks: &'a Marks,
    pub board: &'a Board,
    pub boxes: &'a [Mailbox],
    pub cells: &'a StatCells,
}
