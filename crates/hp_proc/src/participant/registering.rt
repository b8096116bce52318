//! The lines by which a participant registers watchers and validators, and takes them back.
ghost use Rattle.std.specs.Prelude.{◌≡◌, IfOk, OnErr};
ghost use Rattle.hp_script.specs.declared.line.Act.TheVariants as act;
ghost use Rattle.hp_proc.specs.ParticipantView.{after_registering};
ghost use Rattle.hp_proc.specs.Registering.{
  IsLimitAnswer,
  IsUnlimitAnswer,
  IsUnwatchAnswer,
  IsWatchAnswer,
  registering,
};

use super::Participant;
use hp_base::Mapper;
use hp_events::{LimitFault, NotFound, UnwatchFault, WatchFault};
use hp_script::{Answer, Token};
use hp_serve::Decide;
use std::alloc::{AllocError, Global};

// How a watcher that was to be registered is answered.
fn watch_answer(judged: Result<(), WatchFault>) -> Result<Answer, AllocError>
    ensures { IsWatchAnswer judged result }
{
    match judged {
        Ok(()) => Ok(Answer::Done),
        Err(WatchFault::NameLong { .. }) => Ok(Answer::NameTooLong),
        Err(WatchFault::Exists) => Ok(Answer::Exists),
        Err(WatchFault::Full { .. }) => Ok(Answer::Full),
        Err(WatchFault::OutOfMemory) => Err(AllocError),
    }
}

// How a watcher that was to be unregistered is answered.
fn unwatch_answer(judged: Result<(), UnwatchFault>) -> Answer
    ensures { IsUnwatchAnswer judged result }
{
    match judged {
        Ok(()) => Answer::Done,
        Err(UnwatchFault::NameLong { .. }) => Answer::NameTooLong,
        Err(UnwatchFault::NotFound) => Answer::NotFound,
    }
}

// How a validator that was to be registered is answered.
fn limit_answer(judged: Result<(), LimitFault>) -> Result<Answer, AllocError>
    ensures { IsLimitAnswer judged result }
{
    match judged {
        Ok(()) => Ok(Answer::Done),
        Err(LimitFault::NameLong { .. }) => Ok(Answer::NameTooLong),
        Err(LimitFault::Exists) => Ok(Answer::Exists),
        Err(LimitFault::OutOfMemory) => Err(AllocError),
    }
}

// How a validator that was to be unregistered is answered.
fn unlimit_answer(judged: Result<(), NotFound>) -> Answer
    ensures { IsUnlimitAnswer judged result }
{
    match judged {
        Ok(()) => Answer::Done,
        Err(_) => Answer::NotFound,
    }
}

impl<'p, M: Mapper, F: Decide + Copy + Drop> Participant<'p, M, F> {
    // A line that registers a watcher.
    pub(crate) fn do_watch(&mut self, alloc: Global, name: &Token<'_>) -> Result<Answer, AllocError>
        ensures given { IfOk result (λ given. given ≡ registering self.old.context.standing.watchers
            self.old.context.standing.validators (act.Watch name.now)) }
        ensures left { IfOk result (λ given. self.new ≡ after_registering (act.Watch name.now) given self.old) }
        ensures err { OnErr result (self.new ≡ self.old) }
    {
        let judged = self.judged.as_mut();
        watch_answer(judged.server.watch(alloc, name.as_bytes()))
    }

    // A line that unregisters one.
    pub(crate) fn do_unwatch(&mut self, name: &Token<'_>) -> Answer
        ensures given { result ≡ registering self.old.context.standing.watchers self.old.context.standing.validators
            (act.Unwatch name.now) }
        ensures left { self.new ≡ after_registering (act.Unwatch name.now) result self.old }
    {
        let judged = self.judged.as_mut();
        unwatch_answer(judged.server.unwatch(name.as_bytes()))
    }

    // A line that registers a validator.
    pub(crate) fn do_limit(
        &mut self,
        name: &Token<'_>,
        socket: u32,
        bytes: u64,
        allow: bool,
    ) -> Result<Answer, AllocError>
        ensures given { IfOk result (λ given. given ≡ registering self.old.context.standing.watchers
            self.old.context.standing.validators (act.Limit name.now socket bytes allow)) }
        ensures left { IfOk result (λ given. self.new ≡ after_registering (act.Limit name.now socket bytes allow) given self.old) }
        ensures err { OnErr result (self.new ≡ self.old) }
    {
        let judged = self.judged.as_mut();
        limit_answer(
            judged
                .limits
                .register(name.as_bytes(), socket, bytes, allow),
        )
    }

    // A line that unregisters one.
    pub(crate) fn do_unlimit(&mut self, name: &Token<'_>, socket: u32) -> Answer
        ensures given { result ≡ registering self.old.context.standing.watchers self.old.context.standing.validators
            (act.Unlimit name.now socket) }
        ensures left { self.new ≡ after_registering (act.Unlimit name.now socket) result self.old }
    {
        let judged = self.judged.as_mut();
        unlimit_answer(judged.limits.unregister(name.as_bytes(), socket))
    }
}
