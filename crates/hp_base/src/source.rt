ghost use Rattle.std.specs.Prelude.{◌≡◌, ◌<◌, ℕ, List, Option, Some, length};
ghost use Rattle.hp_base.specs.Streams.{Gives, CountsFault, got_failed};

use crate::failing_calls::FailingCalls;
use std::marker::Model;

/// What a read gives. Own.
#[derive(Clone, Copy, PartialEq, Eq)]
pub enum Got {
    /// The next bytes, so many, stand at the front of the buffer.
    Bytes(usize),
    /// Nothing is left.
    End,
    /// Reading failed.
    Failed,
}

/// Where the workload is read from, piece by piece. Own.
pub trait Source {
    /// The bytes that are left, where the source tells them.
    ghost left: { Self → Option (List ℕ) };

    /// How often reading has failed.
    ghost faults: { Self → ℕ };

    /// The next bytes. After `End` and `Failed` nothing is taken.
    fn read(&mut self, buf: &mut [u8]) -> Got
        requires { 0 < length buf.old }
        ensures bytes { Gives (left self.old) (left self.new) (length buf.old) buf.new result }
        ensures cause { CountsFault (faults self.old) (faults self.new) (got_failed result) };
}

/// A source over bytes in memory, which gives pieces of at most `piece` bytes and fails at the calls that it is told.
/// Own.
#[derive(Drop)]
pub struct MemSource {
    bytes: Vec<u8>,
    at: usize,
    piece: usize,
    failing: FailingCalls,
}

impl Model for MemSource {
    ghost use Rattle.std.specs.Prelude.{length};
    ghost use Rattle.hp_base.specs.MemStreams.{SourceState, source_state, IsSource};

    ghost Value = { SourceState };

    ghost view = { λ a. source_state a.bytes.items a.at a.piece a.failing.fails.items a.failing.calls a.failing.faults };

    ghost invariant = { λ a. IsSource (length a.bytes.items) a.at a.piece };
}

impl MemSource {
    ghost use Rattle.hp_base.specs.MemStreams.{SourceState};

    /// A source that gives these bytes. Own.
    pub fn new(bytes: Vec<u8>, piece: usize, fails: Vec<u64>) -> MemSource
        requires { 0 < piece }
        ensures { result ≡ record { left = bytes.items; piece = piece; fails = fails.items; calls = 0; faults = 0 } }
    {
        MemSource {
            bytes,
            at: 0,
            piece,
            failing: FailingCalls {
                fails,
                calls: 0,
                faults: 0,
            },
        }
    }

    /// The bytes that are left. Own.
    pub fn left(&self) -> &[u8]
        ensures { result.now ≡ self.now.left }
    {
        &self.bytes[self.at..]
    }
}

impl Source for MemSource {
    ghost use Rattle.hp_base.specs.MemStreams.{read_of, after_read};

    ghost left = { λ s. Some s.left };

    ghost faults = { λ s. s.faults };

    fn read(&mut self, buf: &mut [u8]) -> Got
        requires { 0 < length buf.old }
        ensures bytes { Gives (Some self.old.left) (Some self.new.left) (length buf.old) buf.new result }
        ensures cause { CountsFault self.old.faults self.new.faults (got_failed result) }

        // Which answer it is, and the source after it.
        ensures answer { result ≡ read_of self.old (length buf.old) }
        ensures after { self.new ≡ after_read self.old result }
    {
        if self.failing.next_fails() {
            return Got::Failed;
        }
        let n = buf.len().min(self.piece).min(self.bytes.len() - self.at);
        if n == 0 {
            return Got::End;
        }
        let next = &self.bytes[self.at..self.at + n];
        let (front, _rest) = buf.split_at_mut(n);
        front.copy_from_slice(next);
        self.at += n;
        Got::Bytes(n)
    }
}
