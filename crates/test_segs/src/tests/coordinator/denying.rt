//! Growths that a validator denies, or allows.
ghost use Rattle.std.specs.List.{All};
ghost use Rattle.hp_events.specs.Validators.{validators_in};

use super::PAGE;
use super::acts::segs_of;
use super::calls::{arm, ask_of, step_with};
use hp_base::{Caught, Judge};
use hp_core::{Coordinator, CoreEvent, Out};
use hp_events::Validators;
use hp_segs::{Cause, Outcome, Segs};
use std::alloc::Global;
use std::test::Fail;

// How an ask ends: granted as the record of that number, or denied by the validator of that name and limit for so many bytes.
#[derive(Clone, Copy)]
enum Ended {
    Granted(u64),
    Denied(&'static str, u64, u64),
}

// Participant 0, which is alone, is armed with an ask for a page, and asks.
fn asks<J: Judge>(
    core: &mut Coordinator,
    segs: &mut Segs,
    number: u64,
    judge: &J,
) -> Result<Out, Fail>
    requires { J.may_ask judge.now }
{
    arm(segs, 0, number)?;
    let ask = ask_of(0, number)?;
    step_with(core, segs, CoreEvent::Grow { ask }, judge)
}

// It asks, and has then mapped what it was to map.
fn grows<J: Judge>(
    core: &mut Coordinator,
    segs: &mut Segs,
    number: u64,
    judge: &J,
) -> Result<Out, Fail>
    requires { J.may_ask judge.now }
{
    asks(core, segs, number, judge)?;
    let event = CoreEvent::SelfMapped {
        caught: Caught::Done,
        now: 0,
    };
    step_with(core, segs, event, judge)
}

// Whether an ask ended so.
fn has_ended(outcome: &Outcome, end: Ended) -> bool {
    match end {
        Ended::Granted(at) => is_granted(outcome, at),
        Ended::Denied(by, below, bytes) => is_denied(outcome, by, below, bytes),
    }
}

fn is_granted(outcome: &Outcome, at: u64) -> bool {
    match outcome {
        Outcome::Granted { generation } => *generation == at,
        _ => false,
    }
}

fn is_denied(outcome: &Outcome, by: &str, below: u64, bytes: u64) -> bool {
    match outcome {
        Outcome::Refused { cause } => is_denial(cause, by, below, bytes),
        _ => false,
    }
}

fn is_denial(cause: &Cause, by: &str, below: u64, bytes: u64) -> bool {
    match cause {
        Cause::Denied {
            validator,
            limit,
            total,
        } => validator.as_bytes() == by.as_bytes() && *limit == below && *total == bytes,
        _ => false,
    }
}

// Whether two asks have ended, and the second so.
fn second_has_ended(segs: &Segs, end: Ended) -> bool {
    let asks = segs.asks();
    asks.len() == 2 && has_ended(&asks[1].outcome, end)
}

// Of two asks for a page, where the judge is asked of both, the second ends so.
fn second_of_two<J: Judge>(alloc: Global, judge: &J, end: Ended) -> Result<(), Fail>
    requires { J.may_ask judge.now }
{
    let mut segs = segs_of(alloc, 1, 4)?;
    let mut core = Coordinator::new(200);
    grows(&mut core, &mut segs, 1, judge)?;
    grows(&mut core, &mut segs, 2, judge)?;
    if !second_has_ended(&segs, end) {
        return Err("the end that is expected".into());
    }
    Ok(())
}

// The validator `cap` is registered.
fn register<F: Fn(u32, u64, u64) -> bool + Copy + Drop>(
    validators: &mut Validators<F>,
    socket: u32,
    limit: u64,
    allows: F,
) -> Result<(), Fail>
    requires old { All (λ own. F.IsAlwaysCallable own.allows) (validators_in validators.old) }
    requires new { F.IsAlwaysCallable allows }
    ensures { All (λ own. F.IsAlwaysCallable own.allows) (validators_in validators.new) }
{
    match validators.register("cap".as_bytes(), socket, limit, allows) {
        Ok(()) => Ok(()),
        Err(_) => Err("memory for a validator".into()),
    }
}

// Under one validator, of that socket and limit and with that closure, the second of two asks ends so.
fn second_under<F: Fn(u32, u64, u64) -> bool + Copy + Drop>(
    alloc: Global,
    socket: u32,
    limit: u64,
    allows: F,
    end: Ended,
) -> Result<(), Fail>
    requires { F.IsAlwaysCallable allows }
{
    let mut validators = Validators::new(alloc);
    register(&mut validators, socket, limit, allows)?;
    second_of_two(alloc, &validators, end)
}

// The first page is at the limit, and the second above it: it is denied for the bytes of both.
#[test]
fn denies_what_is_above_a_limit(rt: HostRuntime) -> Result<(), Fail> {
    let denies = |_socket: u32, _limit: u64, _total: u64| false;
    let end = Ended::Denied("cap", PAGE, 2 * PAGE);
    second_under(rt.alloc(), 0, PAGE, denies, end)
}

#[test]
fn grants_what_a_validator_allows(rt: HostRuntime) -> Result<(), Fail> {
    let allows = |_socket: u32, _limit: u64, _total: u64| true;
    second_under(rt.alloc(), 0, PAGE, allows, Ended::Granted(2))
}

#[test]
fn asks_nobody_at_the_limit(rt: HostRuntime) -> Result<(), Fail> {
    let denies = |_socket: u32, _limit: u64, _total: u64| false;
    second_under(rt.alloc(), 0, 2 * PAGE, denies, Ended::Granted(2))
}

#[test]
fn asks_nobody_of_another_socket(rt: HostRuntime) -> Result<(), Fail> {
    let denies = |_socket: u32, _limit: u64, _total: u64| false;
    second_under(rt.alloc(), 1, PAGE, denies, Ended::Granted(2))
}
