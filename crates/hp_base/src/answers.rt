ghost use Rattle.std.specs.Prelude.{◌≡◌, [], ◌∷◌, ◌++◌, map};
ghost use Rattle.hp_base.specs.Mapping.{own_place};

use crate::map_answer::MapAnswer;
use crate::mapper::own_place;
use crate::row::Row;
use std::marker::Model;
use std::snapshot::Snapshot;

/// All answers that a mapper gave, in their order. Contracts see the list; of its bytes it keeps none but whether there is one, since the
/// answers stand in snapshots. Own.
#[cycle(answers)]
#[derive(Drop)]
pub struct Answers {
    past: Past,
}

#[cycle(answers)]
#[derive(Drop)]
enum Past {
    Nothing,
    Behind(Snapshot<Answers>, Snapshot<MapAnswer>),
}

impl Model for Answers {
    ghost use Rattle.std.specs.Prelude.{List, length};
    ghost use Rattle.std.proofs.Common.{arith, length-append};
    ghost use Rattle.hp_base.specs.declared.map_answer.MapAnswer.{MapAnswer};

    ghost Value = { List MapAnswer };

    ghost use Rattle.hp_base.specs.Answered.{answers_in};

    ghost view = { λ a. answers_in a.past };

    ghost size = { length };

    ghost size_decreases = { λ a h. Prim.grind (arith, length-append) };
}

impl Answers {
    /// No answer yet. Own.
    pub fn new() -> Answers
        ensures { result ≡ [] }
    {
        Answers {
            past: Past::Nothing,
        }
    }

    /// These answers, and another one. Own.
    pub fn with(&self, answer: MapAnswer) -> Answers
        ensures { result ≡ self.now ++ answer ∷ [] }
    {
        Answers {
            past: Past::Behind(Snapshot::of(self), Snapshot::of(&answer)),
        }
    }

    /// Adds an answer for each of these rows: its own place. Own.
    pub fn add_own(&mut self, rows: &[Row])
        ensures { self.new ≡ self.old ++ map own_place rows.now }
    {
        for row in rows {
            *self = self.with(own_place(row));
        }
    }
}
