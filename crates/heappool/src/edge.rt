//! Standard output as a sink. It tells no bytes: what the system does is trusted.
ghost use Rattle.std.specs.Prelude.{◌≡◌, ◌<◌, ℕ, List, Option, None, length};
ghost use Rattle.hp_base.specs.Streams.{Takes, HasCause, put_failed};

use hp_base::{Put, Sink};
use std::io::Write;
use std::rt::Stdout;

/// Standard output.
#[derive(Drop)]
pub struct StandardOutput {
    stdout: Stdout,
    pub faults: u64,
}

impl StandardOutput {
    pub fn new(stdout: Stdout) -> StandardOutput {
        StandardOutput { stdout, faults: 0 }
    }
}

impl Sink for StandardOutput {
    ghost held = { λ _. None };

    ghost faults = { λ s. s.faults };

    fn write(&mut self, bytes: &[u8]) -> Put {
        match self.stdout.write(bytes) {
            Ok(n) if n > 0 => Put::Took(n),
            _ => {
                self.faults = self.faults.saturating_add(1);
                Put::Failed
            }
        }
    }
}
