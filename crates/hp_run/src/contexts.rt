//! What the participants of a run know of their lines.
ghost use Rattle.std.specs.Prelude.{◌≡◌, ◌<◌, [], IfOk, Some, None, length, set, slice_get};
ghost use Rattle.thm_run.specs.EndLaws.{said_in};
ghost use Rattle.hp_run.specs.Running.{IsRunnable, KnowSoFar};

use crate::running::is_present;
use hp_proc::{LineContext, WorkloadFacts};
use hp_script::Workload;
use std::alloc::{AllocError, Global};
use std::marker::Model;

/// What each participant knows when it does a line, by number. One that does a line has taken it along. Own.
#[derive(Drop)]
pub struct Contexts<'p> {
    contexts: Vec<Option<LineContext<'p>>>,
}

impl<'p> Model for Contexts<'p> {
    ghost use Rattle.std.specs.Prelude.{List, Option};
    ghost use Rattle.hp_proc.specs.Contexts.{Context};

    ghost Value = { List (Option Context) };

    ghost view = { λ a. a.contexts.items };
}

impl<'p> Contexts<'p> {
    /// What they know before their first lines. Own.
    pub fn first(
        alloc: Global,
        workload: &Workload<'_>,
        facts: &'p WorkloadFacts<'p>,
    ) -> Result<Contexts<'p>, AllocError>
        requires runnable { IsRunnable workload.now }
        requires facts { facts.now ≡ said_in workload.now }
        ensures { IfOk result (KnowSoFar workload.now []) }
    {
        let mut contexts = Vec::with_capacity(alloc, workload.participants as usize)?;
        for who in 0..workload.participants {
            let joined = is_present(workload, who);
            contexts.push(Some(LineContext::new(alloc, Some(facts), joined)))?;
        }
        Ok(Contexts { contexts })
    }

    /// A participant takes along what it knows; it is `None` where it has taken it along already. Own.
    pub fn take(&mut self, who: u8) -> Option<LineContext<'p>>
        requires within { who < length self.old }
        ensures taken { slice_get self.old who ≡ Some result }
        ensures left { self.new ≡ set self.old who None }
    {
        self.contexts[who as usize].take()
    }

    /// It brings back what it knows. Own.
    pub fn put(&mut self, who: u8, context: LineContext<'p>)
        requires within { who < length self.old }
        ensures { self.new ≡ set self.old who (Some context.entry) }
    {
        self.contexts[who as usize] = Some(context);
    }
}
