// The rule of a cell, and the names of its steps. These types are for contracts alone.
use crate::stat_pair::StatPair;
use crate::view::View;
use atomic_table::{Join, Split};
use crossbeam_utils::atomic::seq_cell::{Pass, RuledSeqCell};
use crossbeam_utils::rule::{Outcome, Protocol};

pub(crate) type Cell = RuledSeqCell<StatPair, View, Rising, 7>;

pub(crate) type Token = Pass<StatPair, View>;

pub(crate) struct Rising;

impl Protocol<StatPair, View> for Rising {
    ghost use Rattle.hp_stats.specs.CellRule.{IsNewest};
    ghost use Rattle.hp_stats.specs.Views.{first_view};

    ghost holds = { IsNewest };

    ghost first = { first_view };
}

// A reader comes that has seen nothing.
pub(crate) struct NewReader;

impl Split<View> for NewReader {
    ghost use Rattle.hp_stats.specs.Views.{new_reader_view};

    ghost left = { λ v. v };

    ghost right = { new_reader_view };
}

// The pen tells of the newest pair.
pub(crate) struct Tell;

impl Split<View> for Tell {
    ghost use Rattle.hp_stats.specs.Views.{told_view};

    ghost left = { λ v. v };

    ghost right = { told_view };
}

// A reader tells of the pairs that it has seen.
pub(crate) struct Report;

impl Split<View> for Report {
    ghost use Rattle.hp_stats.specs.Views.{seen_view};

    ghost left = { λ v. v };

    ghost right = { seen_view };
}

// What was told is seen.
pub(crate) struct Hear;

impl Join<View> for Hear {
    ghost use Rattle.hp_stats.specs.Views.{both_seen, new_reader};

    ghost both = { both_seen };

    ghost spent = { new_reader };
}

// A pair is published.
pub(crate) struct Publishes;

impl Outcome<StatPair, View> for Publishes {
    ghost use Rattle.std.specs.Prelude.{◌≡◌};
    ghost use Rattle.hp_stats.specs.Views.{after_publish};

    ghost then = { λ v x y w. w ≡ after_publish y v };
}

// The newest pair is seen.
pub(crate) struct Reads;

impl Outcome<StatPair, View> for Reads {
    ghost use Rattle.std.specs.Prelude.{◌≡◌};
    ghost use Rattle.hp_stats.specs.Pairs.{IsNotBelow};
    ghost use Rattle.hp_stats.specs.Views.{after_see};

    ghost then = { λ v x y w. (w ≡ after_see y v) × IsNotBelow v.seen y.entries };
}

// The pen finds what it was told of among what it has published, and forgets it.
pub(crate) struct Checks;

impl Outcome<StatPair, View> for Checks {
    ghost use Rattle.std.specs.Prelude.{◌≡◌, true};
    ghost use Rattle.hp_stats.specs.Pairs.{AreAmong};
    ghost use Rattle.hp_stats.specs.Views.{without_seen};

    ghost then = { λ v x y w. (w ≡ without_seen v) × (v.pen ≡ true → AreAmong v.published v.seen) };
}
