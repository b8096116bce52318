//! Standard input as a source, and standard output and standard error as sinks. They tell no bytes: what the system does is trusted.
ghost use Rattle.std.specs.Prelude.{◌≡◌, ◌<◌, ℕ, List, Option, None, length};
ghost use Rattle.hp_base.specs.Streams.{Gives, Takes, HasCause, got_failed, put_failed};

use hp_base::{Got, Put, Sink, Source};
use std::io::{Read, Write};
use std::rt::{Stderr, Stdin, Stdout};

/// Standard input.
#[derive(Drop)]
pub struct StandardInput {
    stdin: Stdin,
    pub faults: u64,
}

impl StandardInput {
    pub fn new(stdin: Stdin) -> StandardInput {
        StandardInput { stdin, faults: 0 }
    }
}

impl Source for StandardInput {
    ghost left = { λ _. None };

    ghost faults = { λ s. s.faults };

    fn read(&mut self, buf: &mut [u8]) -> Got {
        match self.stdin.read(buf) {
            Ok(0) => Got::End,
            Ok(n) => Got::Bytes(n),
            Err(_) => {
                self.faults = self.faults.saturating_add(1);
                Got::Failed
            }
        }
    }
}

/// Standard output.
#[derive(Drop)]
pub struct StandardOutput {
    stdout: Stdout,
    pub faults: u64,
}

impl StandardOutput {
    pub fn new(stdout: Stdout) -> StandardOutput {
        StandardOutput { stdout, faults: 0 }
    }
}

impl Sink for StandardOutput {
    ghost held = { λ _. None };

    ghost faults = { λ s. s.faults };

    fn write(&mut self, bytes: &[u8]) -> Put {
        match self.stdout.write(bytes) {
            Ok(n) if n > 0 => Put::Took(n),
            _ => {
                self.faults = self.faults.saturating_add(1);
                Put::Failed
            }
        }
    }
}

/// Standard error.
#[derive(Drop)]
pub struct StandardError {
    stderr: Stderr,
    pub faults: u64,
}

impl StandardError {
    pub fn new(stderr: Stderr) -> StandardError {
        StandardError { stderr, faults: 0 }
    }
}

impl Sink for StandardError {
    ghost held = { λ _. None };

    ghost faults = { λ s. s.faults };

    fn write(&mut self, bytes: &[u8]) -> Put {
        match self.stderr.write(bytes) {
            Ok(n) if n > 0 => Put::Took(n),
            _ => {
                self.faults = self.faults.saturating_add(1);
                Put::Failed
            }
        }
    }
}
