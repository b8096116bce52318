//! The answers of the lines so far.
ghost use Rattle.std.specs.Prelude.{◌≡◌, ◌+◌, ◌<◌, ◌≤◌, ◌^◌, [], ◌∷◌, ◌++◌, Some, None, IfSome, IfOk, OnErr, OnOk, length};
ghost use Rattle.hp_run.specs.AnswersKept.{count_more, counts_more};

use crate::answer_log::AnswerLog;
use crate::summary::Counts;
use hp_script::{Act, Answer};
use std::alloc::{AllocError, Global};
use std::marker::Model;

// The answers themselves, or what is counted of them.
#[derive(Drop)]
enum Held {
    Kept(Vec<Answer>),
    Counted(Counts),
}

/// The answers of lines, in their order. Contracts see all of them. They are kept, or what their lines did is counted, which takes no
/// memory. Own.
#[derive(Drop)]
pub struct Told {
    held: Held,
    all: AnswerLog,
}

impl Model for Told {
    ghost use Rattle.hp_run.specs.AnswersKept.{ToldView, IsHeldOf, counts_in};

    ghost Value = { ToldView };

    ghost view = { λ told. record { items = told.all; counts = counts_in told.held } };

    ghost invariant = { λ told. IsHeldOf told.held told.all };
}

impl Told {
    /// No answer. Up to so many are kept without memory more.
    pub fn kept(alloc: Global, room: usize) -> Result<Told, AllocError>
        ensures items { IfOk result (λ told. told.items ≡ []) }
        ensures counts { IfOk result (λ told. told.counts ≡ None) }
    {
        let kept = Vec::with_capacity(alloc, room)?;
        Ok(Told {
            held: Held::Kept(kept),
            all: AnswerLog::new(),
        })
    }

    /// No answer, and those to come are counted.
    pub fn counted() -> Told
        ensures items { result.items ≡ [] }
        ensures counts { result.counts ≡ Some (record { lines = 0; allocs = 0; frees = 0; resized = 0 }) }
    {
        Told {
            held: Held::Counted(Counts::NONE),
            all: AnswerLog::new(),
        }
    }

    /// Takes the answer of an act in. It is refused only where answers are kept.
    pub fn push(&mut self, act: &Act<'_>, answer: Answer) -> Result<(), AllocError>
        requires room { length self.old.items + 1 < 2 ^ 64 }
        ensures items { OnOk result (self.new.items ≡ self.old.items ++ answer ∷ []) }
        ensures counts { OnOk result (self.new.counts ≡ counts_more self.old.counts act.now answer) }
        ensures err { OnErr result (self.old.counts ≡ None) }
    {
        match &mut self.held {
            Held::Kept(kept) => kept.push(answer)?,
            Held::Counted(counts) => *counts = counts.with(act, &answer),
        }
        self.all = self.all.with(&answer);
        Ok(())
    }

    /// The answers, where they are kept.
    pub fn into_answers(self) -> Vec<Answer>
        requires { self.counts ≡ None }
        ensures { result.items ≡ self.items }
    {
        let Told { held, all: _ } = self;
        match held {
            Held::Kept(kept) => kept,
            Held::Counted(_) => unreachable!(),
        }
    }

    /// What is counted, where they are not kept.
    pub fn counts(&self) -> Option<Counts>
        ensures { result ≡ self.now.counts }
    {
        match &self.held {
            Held::Kept(_) => None,
            Held::Counted(counts) => Some(*counts),
        }
    }
}
