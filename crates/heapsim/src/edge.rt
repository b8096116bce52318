//! Standard input and output as a source and a sink, and the system clock. They tell no bytes: what the system does is trusted.
ghost use Rattle.std.specs.Prelude.{◌≡◌, ◌<◌, ◌≤◌, ◌^◌, ℕ, List, Option, None, length};
ghost use Rattle.hp_base.specs.Streams.{Gives, Takes, HasCause, got_failed, put_failed};

use crate::time::milliseconds;
use hp_base::{Clock, Got, MAX_READING, Put, Sink, Source};
use std::io::{Read, Write};
use std::rt::{HostRuntime, Stdin, Stdout};

/// Standard input.
#[derive(Drop)]
pub struct StandardInput {
    stdin: Stdin,
    pub faults: u64,
}

impl StandardInput {
    pub fn new(stdin: Stdin) -> StandardInput {
        StandardInput { stdin, faults: 0 }
    }
}

impl Source for StandardInput {
    ghost left = { λ _. None };

    ghost faults = { λ s. s.faults };

    fn read(&mut self, buf: &mut [u8]) -> Got {
        match self.stdin.read(buf) {
            Ok(0) => Got::End,
            Ok(n) => Got::Bytes(n),
            Err(_) => {
                self.faults = self.faults.saturating_add(1);
                Got::Failed
            }
        }
    }
}

/// Standard output.
#[derive(Drop)]
pub struct StandardOutput {
    stdout: Stdout,
    pub faults: u64,
}

impl StandardOutput {
    pub fn new(stdout: Stdout) -> StandardOutput {
        StandardOutput { stdout, faults: 0 }
    }
}

impl Sink for StandardOutput {
    ghost held = { λ _. None };

    ghost faults = { λ s. s.faults };

    fn write(&mut self, bytes: &[u8]) -> Put {
        match self.stdout.write(bytes) {
            Ok(n) if n > 0 => Put::Took(n),
            _ => {
                self.faults = self.faults.saturating_add(1);
                Put::Failed
            }
        }
    }
}

/// The clock of the system that never goes back, in milliseconds. Where the system does not tell the time it reads as it did last.
#[derive(Clone, Copy, Drop)]
pub struct SystemClock {
    rt: HostRuntime,
    last: u64,

    ghost small: { last ≤ 2 ^ 63 },
}

impl SystemClock {
    pub fn new(rt: &HostRuntime) -> SystemClock {
        SystemClock { rt: *rt, last: 0 }
    }
}

impl Clock for SystemClock {
    ghost last = { λ clock. clock.last };

    fn now(&mut self) -> u64 {
        if let Some(reading) = milliseconds(&self.rt) {
            self.last = self.last.max(reading.min(MAX_READING));
        }
        self.last
    }
}
