//! Validators that are registered, asked and unregistered.
ghost use Rattle.std.specs.List.{All};
ghost use Rattle.hp_events.specs.Validators.{validators_in};

use super::ended;
use hp_base::Judge;
use hp_events::{LimitFault, NotFound, Validators};
use std::alloc::Global;
use std::test::Fail;

// What a call is answered.
#[derive(Clone, Copy, PartialEq, Eq)]
enum Said {
    Done,
    NameLong(usize),
    Exists,
    NotFound,
    NoMemory,
}

// A call, with its answer. A validator with an odd limit denies.
#[derive(Clone, Copy)]
enum Step {
    // A validator of that name, socket and limit.
    Register(&'static str, u32, u64, Said),
    Unregister(&'static str, u32, Said),
    // Those bytes of that socket are denied by the validator of that name and limit, or by none.
    Denied(u32, u64, &'static str, u64),
    Allowed(u32, u64),
}

fn register<F: Fn(u32, u64, u64) -> bool + Copy + Drop>(
    validators: &mut Validators<F>,
    name: &str,
    socket: u32,
    limit: u64,
    allows: F,
) -> Said
    requires old { All (λ own. F.IsAlwaysCallable own.allows) (validators_in validators.old) }
    requires new { F.IsAlwaysCallable allows }
    ensures { All (λ own. F.IsAlwaysCallable own.allows) (validators_in validators.new) }
{
    match validators.register(name.as_bytes(), socket, limit, allows) {
        Ok(()) => Said::Done,
        Err(LimitFault::NameLong { len }) => Said::NameLong(len),
        Err(LimitFault::Exists) => Said::Exists,
        Err(LimitFault::OutOfMemory) => Said::NoMemory,
    }
}

fn unregister<F: Fn(u32, u64, u64) -> bool + Copy + Drop>(
    validators: &mut Validators<F>,
    name: &str,
    socket: u32,
) -> Said
    requires { All (λ own. F.IsAlwaysCallable own.allows) (validators_in validators.old) }
    ensures { All (λ own. F.IsAlwaysCallable own.allows) (validators_in validators.new) }
{
    match validators.unregister(name.as_bytes(), socket) {
        Ok(()) => Said::Done,
        Err(NotFound) => Said::NotFound,
    }
}

fn is_denied_by<F: Fn(u32, u64, u64) -> bool + Copy + Drop>(
    validators: &Validators<F>,
    socket: u32,
    total: u64,
    denier: Option<(&str, u64)>,
) -> bool
    requires { All (λ own. F.IsAlwaysCallable own.allows) (validators_in validators.now) }
{
    match (validators.ask(socket, total), denier) {
        (None, None) => true,
        (Some((name, limit)), Some((wanted, its_limit))) => {
            name.as_bytes() == wanted.as_bytes() && limit == its_limit
        }
        _ => false,
    }
}

fn comes_out<F: Fn(u32, u64, u64) -> bool + Copy + Drop>(
    validators: &mut Validators<F>,
    allows: F,
    step: Step,
) -> bool
    requires old { All (λ own. F.IsAlwaysCallable own.allows) (validators_in validators.old) }
    requires new { F.IsAlwaysCallable allows }
    ensures { All (λ own. F.IsAlwaysCallable own.allows) (validators_in validators.new) }
{
    match step {
        Step::Register(name, socket, limit, said) => {
            register(validators, name, socket, limit, allows) == said
        }
        Step::Unregister(name, socket, said) => unregister(validators, name, socket) == said,
        Step::Denied(socket, total, name, limit) => {
            is_denied_by(validators, socket, total, Some((name, limit)))
        }
        Step::Allowed(socket, total) => is_denied_by(validators, socket, total, None),
    }
}

// The place of the first step that comes out otherwise, with no validator at the start.
fn play<F: Fn(u32, u64, u64) -> bool + Copy + Drop>(
    alloc: Global,
    allows: F,
    steps: &[Step],
) -> Option<usize>
    requires { F.IsAlwaysCallable allows }
{
    let mut validators = Validators::new(alloc);
    for place in 0..steps.len() {
        if !comes_out(&mut validators, allows, steps[place]) {
            return Some(place);
        }
    }
    None
}

// A limit is no denial at its own total, nor for another socket; the first that denies is named, whatever stands after it.
const DENIED: &[Step] = &[
    Step::Allowed(0, u64::MAX),
    Step::Register("", 0, 1, Said::NameLong(0)),
    Step::Register("even", 0, 2, Said::Done),
    Step::Register("odd", 0, 5, Said::Done),
    Step::Register("odd", 1, 3, Said::Done),
    Step::Register("odd", 0, 7, Said::Exists),
    Step::Register("last", 0, 1, Said::Done),
    Step::Denied(0, 5, "last", 1),
    Step::Denied(0, 6, "odd", 5),
    Step::Denied(1, 6, "odd", 3),
    Step::Allowed(1, 3),
    Step::Allowed(2, 9),
    Step::Allowed(0, 1),
    Step::Unregister("odd", 2, Said::NotFound),
    Step::Unregister("", 0, Said::NotFound),
    Step::Unregister("odd", 0, Said::Done),
    Step::Unregister("odd", 0, Said::NotFound),
    Step::Denied(0, 6, "last", 1),
    Step::Denied(1, 4, "odd", 3),
];

#[test]
fn validators_deny_above_their_limits(rt: HostRuntime) -> Result<(), Fail> {
    let even = |_socket: u32, limit: u64, _total: u64| limit % 2 == 0;
    ended(play(rt.alloc(), even, DENIED))
}

// The closure is asked for the socket, the limit and the bytes.
const ASKED: &[Step] = &[
    Step::Register("a", 3, 10, Said::Done),
    Step::Allowed(3, 14),
    Step::Denied(3, 15, "a", 10),
];

#[test]
fn a_validator_is_asked_for_its_socket_limit_and_bytes(rt: HostRuntime) -> Result<(), Fail> {
    let within = |socket: u32, limit: u64, total: u64| socket == 3 && limit == 10 && total < 15;
    ended(play(rt.alloc(), within, ASKED))
}
