//! `heapring`: the lines of standard input, which two senders put into a ring, the odd ones and the even ones, each on a thread of its own.
#![tactic(auto)]

mod edge;

use edge::{StandardInput, StandardOutput};
use hp_base::Status;
use hp_ring::top;
use std::alloc::AllocError;
use std::env;
use std::io::ErrorKind;
use std::process::ExitCode;

// Over standard input and output.
fn main(rt: HostRuntime) -> ExitCode {
    let status = match words(&rt) {
        Ok(words) => {
            let mut source = StandardInput::new(rt.stdin());
            let mut sink = StandardOutput::new(rt.stdout());
            top(&rt, rt.alloc(), words.as_slice(), &mut source, &mut sink)
        }
        Err(AllocError) => Status::OutOfMemory,
    };
    ExitCode::from(status.code())
}

// The words after the program's name; none of them where one is no text, which is no list that the program takes.
fn words(rt: &HostRuntime) -> Result<Vec<String>, AllocError> {
    match env::args(rt) {
        Ok(mut args) => {
            let _name = args.next();
            args.collect(rt.alloc())
        }
        Err(fault) => match fault.kind() {
            ErrorKind::OutOfMemory => Err(AllocError),
            _ => Ok(Vec::new(rt.alloc())),
        },
    }
}
