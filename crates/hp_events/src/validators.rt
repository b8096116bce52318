//! The allocation validators of all sockets, and what they answer.
ghost use Rattle.std.specs.Prelude.{◌≡◌, ◌++◌, ◌∷◌, [], false, filter, not, true, OnErr, OnOk};
ghost use Rattle.std.specs.List.{All, list_any};
ghost use Rattle.hp_events.specs.Validators.{
  Allows,
  AnswersLimit,
  AreAnswered,
  HasNone,
  IsDenying,
  Unregisters,
  is_its,
  limit_below,
  limit_refusal,
  validators_in,
};

use crate::fault::{LimitFault, NotFound};
use crate::validator::Validator;
use hp_base::{Judge, Name};
use std::alloc::Global;

/// The allocation validators of all sockets, in the order of their registration. Each has a name of 1 to 63 bytes, a socket, a limit and a
/// closure, which is asked for the socket, the limit and the bytes that the socket would have. After rte_mem_alloc_validator_register.
#[derive(Drop)]
pub struct Validators<F: Fn(u32, u64, u64) -> bool + Drop> {
    list: Vec<Validator<F>>,
}

impl<F: Fn(u32, u64, u64) -> bool + Drop> Validators<F> {
    /// There is none, and no memory is taken.
    pub fn new(alloc: Global) -> Validators<F>
        ensures { validators_in result ≡ [] }
    {
        Validators {
            list: Vec::new(alloc),
        }
    }

    /// Registers a validator of a socket. It is refused for its name, for one of the socket that has the name, in this order, and where
    /// memory is wanting. After rte_mem_alloc_validator_register.
    pub fn register(
        &mut self,
        name: &[u8],
        socket: u32,
        limit: u64,
        allows: F,
    ) -> Result<(), LimitFault>
        ensures judged { AnswersLimit (limit_refusal (validators_in self.old) name.now socket) result }
        ensures ok { OnOk result (validators_in self.new ≡ validators_in self.old
            ++ record { name = name.now; socket = socket; limit = limit; allows = allows } ∷ []) }
        ensures err { OnErr result (validators_in self.new ≡ validators_in self.old) }
    {
        let Some(own) = Name::new(name) else {
            return Err(LimitFault::NameLong { len: name.len() });
        };
        if has_name(&self.list, name, socket) {
            return Err(LimitFault::Exists);
        }
        let validator = Validator {
            name: own,
            socket,
            limit,
            allows,
        };
        match self.list.push(validator) {
            Ok(()) => Ok(()),
            Err(_) => Err(LimitFault::OutOfMemory),
        }
    }

    /// The validator of that socket and name is asked no more. After rte_mem_alloc_validator_unregister.
    pub fn unregister(&mut self, name: &[u8], socket: u32) -> Result<(), NotFound>
        ensures ok { OnOk result (Unregisters name.now socket (validators_in self.old) (validators_in self.new)) }
        ensures not_found { OnErr result (HasNone name.now socket (validators_in self.old) (validators_in self.new)) }
    {
        if !has_name(&self.list, name, socket) {
            return Err(NotFound);
        }
        take_out(&mut self.list, name, socket);
        Ok(())
    }
}

impl<F: Fn(u32, u64, u64) -> bool + Drop> Judge for Validators<F> {
    ghost may_ask = { λ v. All (λ own. F.IsAlwaysCallable own.allows) (validators_in v) };

    ghost denies = { λ v socket total answer. AreAnswered F.post socket total (validators_in v) answer };

    ghost limits = { λ v socket total answer is. limit_below F.post socket total (validators_in v) answer is };

    fn ask(&self, socket: u32, total: u64) -> Option<(Name, u64)> {
        first_to_deny(&self.list, socket, total)
    }
}

// The first of the validators that denies the bytes of a socket.
fn first_to_deny<F: Fn(u32, u64, u64) -> bool + Drop>(
    list: &[Validator<F>],
    socket: u32,
    total: u64,
) -> Option<(Name, u64)>
    requires { All (λ own. F.IsAlwaysCallable own.allows) list.now }
    ensures { AreAnswered F.post socket total list.now result }
{
    for own in list {
        if denies(own, socket, total) {
            return Some((own.name, own.limit));
        }
    }
    None
}

// Whether a validator is asked for the bytes of a socket, and its closure answers false.
fn denies<F: Fn(u32, u64, u64) -> bool + Drop>(own: &Validator<F>, socket: u32, total: u64) -> bool
    requires { F.IsAlwaysCallable own.now.allows }
    ensures denied { result ≡ true → IsDenying F.post socket total own.now }
    ensures allowed { result ≡ false → Allows F.post socket total own.now }
{
    own.socket == socket && own.limit < total && !(own.allows)(socket, own.limit, total)
}

// Whether a validator of the socket has the name.
fn has_name<F: Fn(u32, u64, u64) -> bool + Drop>(
    list: &[Validator<F>],
    name: &[u8],
    socket: u32,
) -> bool
    ensures { result ≡ list_any (is_its name.now socket) list.now }
{
    list.iter()
        .any(|own| own.socket == socket && own.name.as_bytes() == name)
}

// Takes the one of that socket and name out.
fn take_out<F: Fn(u32, u64, u64) -> bool + Drop>(
    list: &mut Vec<Validator<F>>,
    name: &[u8],
    socket: u32,
)
    ensures { list.new.items ≡ filter (λ own. not (is_its name.now socket own)) list.old.items }
{
    list.retain(|own: &Validator<F>| !(own.socket == socket && own.name.as_bytes() == name));
}
