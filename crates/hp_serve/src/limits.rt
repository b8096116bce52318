//! The validators of a participant, as its lines leave them, with what each always answers.
ghost use Rattle.std.specs.Prelude.{◌≡◌, ◌++◌, ◌∷◌, [], false, filter, not, true, OnErr, OnOk};
ghost use Rattle.std.specs.List.{list_any};
ghost use Rattle.hp_events.specs.Validators.{
  Allows,
  AnswersLimit,
  AreAnswered,
  HasNone,
  IsDenying,
  Unregisters,
  is_its,
  limit_below,
  limit_refusal,
};
ghost use Rattle.hp_serve.specs.Denials.{AnswersSo, denials_by};
ghost use Rattle.hp_serve.specs.Limiting.{AlwaysAnswers, AreTwo};

use crate::decide::Decide;
use hp_base::{Judge, Name};
use hp_events::{LimitFault, NotFound, Validator};
use std::alloc::Global;
use std::marker::Model;

/// The allocation validators of a participant, in the order of their registration. Each is decided by one of two, of which one allows all and
/// the other denies all. Contracts see the validators, each with what is always answered. After rte_mem_alloc_validator_register.
#[derive(Drop)]
pub struct Limits<F: Decide + Copy + Drop> {
    allow: F,
    deny: F,
    // Each with which of the two decides it.
    kept: Vec<Validator<bool>>,
}

impl<F: Decide + Copy + Drop> Model for Limits<F> {
    ghost use Rattle.std.specs.Prelude.{Bool, List};
    ghost use Rattle.hp_events.specs.declared.validator.Validator.{Validator};
    ghost use Rattle.hp_serve.specs.Limiting.{AreTwo};

    ghost Value = { List (Validator Bool) };

    ghost view = { λ a. a.kept.items };

    ghost invariant = { λ a. AreTwo F.decides a.allow a.deny };
}

impl<F: Decide + Copy + Drop> Limits<F> {
    /// There is none. The first of the two always allows, the second always denies. No memory is taken. Own.
    pub fn new(alloc: Global, allow: F, deny: F) -> Limits<F>
        requires allows { AlwaysAnswers F.decides allow true }
        requires denies { AlwaysAnswers F.decides deny false }
        ensures { result ≡ [] }
    {
        Limits {
            allow,
            deny,
            kept: Vec::new(alloc),
        }
    }

    /// Registers a validator of a socket, which allows or denies all above its limit. It is refused for its name, for one of the socket that
    /// has the name, in this order, and where memory is wanting. After rte_mem_alloc_validator_register.
    pub fn register(
        &mut self,
        name: &[u8],
        socket: u32,
        limit: u64,
        allows: bool,
    ) -> Result<(), LimitFault>
        ensures judged { AnswersLimit (limit_refusal self.old name.now socket) result }
        ensures ok { OnOk result (self.new ≡ self.old
            ++ record { name = name.now; socket = socket; limit = limit; allows = allows } ∷ []) }
        ensures err { OnErr result (self.new ≡ self.old) }
    {
        let Some(own) = Name::new(name) else {
            return Err(LimitFault::NameLong { len: name.len() });
        };
        if has_name(&self.kept, name, socket) {
            return Err(LimitFault::Exists);
        }
        let validator = Validator {
            name: own,
            socket,
            limit,
            allows,
        };
        match self.kept.push(validator) {
            Ok(()) => Ok(()),
            Err(_) => Err(LimitFault::OutOfMemory),
        }
    }

    /// The validator of that socket and name is asked no more. After rte_mem_alloc_validator_unregister.
    pub fn unregister(&mut self, name: &[u8], socket: u32) -> Result<(), NotFound>
        ensures ok { OnOk result (Unregisters name.now socket self.old self.new) }
        ensures not_found { OnErr result (HasNone name.now socket self.old self.new) }
    {
        if !has_name(&self.kept, name, socket) {
            return Err(NotFound);
        }
        take_out(&mut self.kept, name, socket);
        Ok(())
    }
}

impl<F: Decide + Copy + Drop> Judge for Limits<F> {
    ghost may_ask = { λ _. Unit {0} };

    ghost denies = { denials_by };

    ghost limits = { λ v socket total answer is. limit_below AnswersSo socket total v answer is };

    fn ask(&self, socket: u32, total: u64) -> Option<(Name, u64)> {
        first_to_deny(&self.kept, &self.allow, &self.deny, socket, total)
    }
}

// The first of the validators that denies the bytes of a socket, where two decide them.
fn first_to_deny<F: Decide>(
    kept: &[Validator<bool>],
    allow: &F,
    deny: &F,
    socket: u32,
    total: u64,
) -> Option<(Name, u64)>
    requires { AreTwo F.decides allow.now deny.now }
    ensures { AreAnswered AnswersSo socket total kept.now result }
{
    for own in kept {
        let closure = if own.allows { allow } else { deny };
        if denies(own, closure, socket, total) {
            return Some((own.name, own.limit));
        }
    }
    None
}

// Whether a validator is asked for the bytes of a socket, and what decides it denies them.
fn denies<F: Decide>(own: &Validator<bool>, closure: &F, socket: u32, total: u64) -> bool
    requires { AlwaysAnswers F.decides closure.now own.now.allows }
    ensures denied { result ≡ true → IsDenying AnswersSo socket total own.now }
    ensures allowed { result ≡ false → Allows AnswersSo socket total own.now }
{
    own.socket == socket && own.limit < total && !closure.decide(socket, own.limit, total)
}

// Whether a validator of the socket has the name.
fn has_name(kept: &[Validator<bool>], name: &[u8], socket: u32) -> bool
    ensures { result ≡ list_any (is_its name.now socket) kept.now }
{
    kept.iter()
        .any(|own| own.socket == socket && own.name.as_bytes() == name)
}

// Takes the one of that socket and name out.
fn take_out(kept: &mut Vec<Validator<bool>>, name: &[u8], socket: u32)
    ensures { kept.new.items ≡ filter (λ own. not (is_its name.now socket own)) kept.old.items }
{
    kept.retain(|own: &Validator<bool>| !(own.socket == socket && own.name.as_bytes() == name));
}
