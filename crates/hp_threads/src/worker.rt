use crate::newcomer::Newcomer;
use hp_base::{Clock, Mapper};
use hp_board::Seat;
use hp_mail::Pass;
use hp_serve::Decide;
use hp_stats::StatPass;
use std::marker::Model;

// A participant with its place at the board: its seat, its passes to all mailboxes, and that to the statistics of all heaps.
#[derive(Drop)]
pub struct Worker<'p, M: Mapper, C: Clock, F: Decide + Copy + Drop> {
    pub(crate) newcomer: Newcomer<'p, M, C, F>,
    pub(crate) seat: Seat,
    pub(crate) passes: Vec<Pass>,
    pub(crate) stats: StatPass,
}

impl<'p, M: Mapper, C: Clock, F: Decide + Copy + Drop> Model for Worker<'p, M, C, F> {
    ghost use Rattle.hp_threads.specs.Workers.{WorkerView};

    ghost Value = { WorkerView };

    ghost view = { λ a. record { doer = a.newcomer; seat = a.seat; passes = a.passes.items; stats = a.stats } };
}
