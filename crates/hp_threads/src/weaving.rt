//! The answers of all participants in the order of the lines.
ghost use Rattle.std.specs.Prelude.{◌≡◌, ◌≤◌, ℕ, IfOk, length, map, slice_index_or};
ghost use Rattle.hp_base.specs.declared.limits.TheConstants.{MAX_PARTICIPANTS};
ghost use Rattle.hp_script.specs.Limits.{AreDeclared};
ghost use Rattle.hp_weave.specs.Weaving.{woven};
ghost use Rattle.hp_threads.specs.Working.{lines_for};
ghost use Rattle.hp_threads.specs.Running.{answers_of};

use crate::answers::Answers;
use hp_base::MAX_PARTICIPANTS;
use hp_script::{Answer, Line};
use std::alloc::{AllocError, Global};

/// The answers in the order of the lines, by those of each participant in its own.
pub fn woven(alloc: Global, lines: &[Line<'_>], by: &[Answers]) -> Result<Vec<Answer>, AllocError>
    requires few { length by.now ≤ MAX_PARTICIPANTS }
    requires declared { AreDeclared (length by.now) lines.now }
    requires count { (who : ℕ) → length (answers_of by.now who) ≡ length (lines_for who lines.now) }
    ensures { IfOk result (λ answers. answers.items ≡ woven (map (λ line. line.participant) lines.now) (answers_of by.now)) }
{
    let mut answers = Vec::with_capacity(alloc, lines.len())?;
    let mut next = [0; MAX_PARTICIPANTS as usize];
    for line in lines {
        let who = line.participant as usize;
        let Some(answer) = by[who].get(next[who]) else {
            unreachable!();
        };
        answers.push_reserved(answer);
        next[who] += 1;
    }
    Ok(answers)
}
