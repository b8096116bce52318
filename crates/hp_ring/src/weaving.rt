//! A text that goes through a ring.
ghost use Rattle.std.specs.Prelude.{◌≡◌, ◌≤◌, ◌++◌, [], ◌∷◌, IfOk, OnOk, OnErr, is_err, length, vec_capacity};
ghost use Rattle.hp_base.specs.Streams.{CountsFault, HasRisen};
ghost use Rattle.hp_command.specs.Writing.{Holds, HoldsFront};
ghost use Rattle.hp_ring.specs.Gathering.{HasGathered};
ghost use Rattle.hp_ring.specs.PassViews.{AreSenders, new_senders, new_taker};
ghost use Rattle.hp_ring.specs.Program.{EndsThrough, EndsWeave, IsPutOut, is_read_fault, is_write_fault};
ghost use Rattle.hp_ring.specs.Weave.{even_lines, odd_lines};

use crate::exchange::{Words, exchange};
use crate::gathering::{Gathered, nothing};
use crate::lines::every_other;
use crate::ring::Ring;
use crate::send_pass::SendPass;
use crate::take_pass::TakePass;
use crate::taking::Taken;
use hp_base::{Sink, Source, Status};
use hp_command::{ReadFault, WriteFault, read_whole, write_whole};
use std::alloc::{AllocError, Global};
use std::sync::Wait;
use std::thread::Threads;

/// Sends the lines of a source through a ring: the odd ones by the first sender and the even ones by the second, each line with its
/// newline, a byte in each word, in bulks of at most 32, and then an end without words. A taker takes them until both ends have come, and
/// then all odd lines and all even lines are written, in order. The senders and the taker each work on a thread of their own. Own.
pub fn weave<R: Threads + Wait + Sync, S: Source, K: Sink>(
    rt: &R,
    alloc: Global,
    ring: &Ring,
    senders: Vec<SendPass>,
    taker: TakePass,
    source: &mut S,
    sink: &mut K,
) -> (Status, Vec<SendPass>, TakePass)
    requires two { ring.now.senders ≡ 2 }
    requires senders { senders.items ≡ new_senders ring.now }
    requires taker { taker ≡ new_taker ring.now.id }
    ensures outcome { EndsWeave (S.left source.old) (S.left source.new) (K.held sink.old) (K.held sink.new)
        (HasRisen (S.faults source.old) (S.faults source.new)) (HasRisen (K.faults sink.old) (K.faults sink.new))
        result.0 result.1.items result.2 }
    ensures passes { AreSenders ring.now result.1.items × (result.2.ring ≡ ring.now.id) }
    ensures source_faults { CountsFault (S.faults source.old) (S.faults source.new) (is_read_fault result.0) }
    ensures sink_faults { CountsFault (K.faults sink.old) (K.faults sink.new) (is_write_fault result.0) }
{
    match read_whole(alloc, source) {
        Ok(text) => through(rt, alloc, ring, senders, taker, text.as_slice(), sink),
        Err(ReadFault::Failed) => (Status::ReadFault, senders, taker),
        Err(ReadFault::TooLong) => (Status::TooLong, senders, taker),
        Err(ReadFault::OutOfMemory) => (Status::OutOfMemory, senders, taker),
    }
}

// The memory that sending a text takes: its words, room for the bytes of each sender, and for the two passes.
#[derive(Drop)]
struct Prepared {
    words: Words,
    first: Gathered,
    second: Gathered,
    back: Vec<SendPass>,
}

fn prepare(alloc: Global, text: &[u8]) -> Result<Prepared, AllocError>
    ensures words { IfOk result (λ made. (made.words.odd.items ≡ odd_lines text.now) × (made.words.even.items ≡ even_lines text.now)) }
    ensures gathered { IfOk result (λ made. HasGathered [] made.first × HasGathered [] made.second) }
    ensures back { IfOk result (λ made. (made.back.items ≡ []) × (2 ≤ vec_capacity made.back)) }
{
    let words = Words {
        odd: every_other(alloc, text, true)?,
        even: every_other(alloc, text, false)?,
    };
    Ok(Prepared {
        words,
        first: nothing(alloc, text.len())?,
        second: nothing(alloc, text.len())?,
        back: Vec::with_capacity(alloc, 2)?,
    })
}

// Sends a text through the ring and writes what came out of it.
fn through<R: Threads + Wait + Sync, K: Sink>(
    rt: &R,
    alloc: Global,
    ring: &Ring,
    senders: Vec<SendPass>,
    taker: TakePass,
    text: &[u8],
    sink: &mut K,
) -> (Status, Vec<SendPass>, TakePass)
    requires two { ring.now.senders ≡ 2 }
    requires senders { senders.items ≡ new_senders ring.now }
    requires taker { taker ≡ new_taker ring.now.id }
    ensures outcome { EndsThrough text.now (K.held sink.old) (K.held sink.new) (HasRisen (K.faults sink.old) (K.faults sink.new))
        result.0 result.1.items result.2 }
    ensures passes { AreSenders ring.now result.1.items × (result.2.ring ≡ ring.now.id) }
    ensures faults { CountsFault (K.faults sink.old) (K.faults sink.new) (is_write_fault result.0) }
{
    let Ok(prepared) = prepare(alloc, text) else {
        return (Status::OutOfMemory, senders, taker);
    };
    let Prepared {
        words,
        first,
        second,
        back,
    } = prepared;
    let (one, other) = two(senders);
    let taken = Taken {
        pass: taker,
        first,
        second,
    };
    let (one, other, taken) = exchange(rt, ring, one, other, taken, &words);
    let status = put_out(sink, &taken.first, &taken.second);
    let Taken { pass, .. } = taken;
    (status, both(back, one, other), pass)
}

// The passes of two senders.
fn two(senders: Vec<SendPass>) -> (SendPass, SendPass)
    requires { length senders.items ≡ 2 }
    ensures { senders.items ≡ result.0 ∷ result.1 ∷ [] }
{
    let mut senders = senders;
    let Some(second) = senders.pop() else {
        unreachable!()
    };
    let Some(first) = senders.pop() else {
        unreachable!()
    };
    (first, second)
}

// The two passes in a vector with room for them.
fn both(back: Vec<SendPass>, first: SendPass, second: SendPass) -> Vec<SendPass>
    requires empty { back.items ≡ [] }
    requires room { 2 ≤ vec_capacity back }
    ensures { result.items ≡ first ∷ second ∷ [] }
{
    let mut back = back;
    back.push_reserved(first);
    back.push_reserved(second);
    back
}

// Writes what was gathered, where there was memory for all of it.
fn put_out<K: Sink>(sink: &mut K, first: &Gathered, second: &Gathered) -> Status
    ensures outcome { IsPutOut first.now second.now (K.held sink.old) (K.held sink.new)
        (HasRisen (K.faults sink.old) (K.faults sink.new)) result }
    ensures faults { CountsFault (K.faults sink.old) (K.faults sink.new) (is_write_fault result) }
{
    if !first.whole || !second.whole {
        return Status::OutOfMemory;
    }
    match write_both(sink, first.bytes.as_slice(), second.bytes.as_slice()) {
        Ok(()) => Status::Ok,
        Err(_) => Status::WriteFault,
    }
}

// Writes one text after another, in whole blocks.
fn write_both<K: Sink>(sink: &mut K, first: &[u8], second: &[u8]) -> Result<(), WriteFault>
    ensures ok { OnOk result (Holds (K.held sink.old) (K.held sink.new) (first.now ++ second.now)) }
    ensures err { OnErr result (HoldsFront (K.held sink.old) (K.held sink.new) (first.now ++ second.now)) }
    ensures cause { CountsFault (K.faults sink.old) (K.faults sink.new) (is_err result) }
{
    write_whole(sink, first)?;
    write_whole(sink, second)
}
