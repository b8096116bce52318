ghost use Rattle.std.specs.Prelude.{◌≡◌, [], ◌∷◌, ◌++◌};

use hp_script::Answer;
use std::marker::Model;
use std::snapshot::Snapshot;

// The answers of lines, in their order. Contracts see the list; of its bytes it keeps none but which of two cases it is, since the answers
// stand in snapshots.
#[cycle(answer_log)]
#[derive(Drop)]
pub(crate) struct AnswerLog {
    past: AnswerPast,
}

#[cycle(answer_log)]
#[derive(Drop)]
enum AnswerPast {
    Nothing,
    // What was answered before, and the answer.
    Answered(Snapshot<AnswerLog>, Snapshot<Answer>),
}

impl Model for AnswerLog {
    ghost use Rattle.std.specs.Prelude.{List, length};
    ghost use Rattle.std.proofs.Common.{arith, length-append};
    ghost use Rattle.hp_script.specs.declared.answer.Answer.{Answer};

    ghost Value = { List Answer };

    ghost use Rattle.hp_run.specs.AnswersKept.{answered_in};

    ghost view = { λ a. answered_in a.past };

    ghost size = { length };

    ghost size_decreases = { λ a h. Prim.grind (arith, length-append) };
}

impl AnswerLog {
    // Nothing was answered yet.
    pub fn new() -> AnswerLog
        ensures { result ≡ [] }
    {
        AnswerLog {
            past: AnswerPast::Nothing,
        }
    }

    // These answers, and one more.
    pub fn with(&self, answer: &Answer) -> AnswerLog
        ensures { result ≡ self.now ++ answer.now ∷ [] }
    {
        AnswerLog {
            past: AnswerPast::Answered(Snapshot::of(self), Snapshot::of(answer)),
        }
    }
}
