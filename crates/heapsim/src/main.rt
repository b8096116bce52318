//! `heapsim`: a workload on standard input, its report on standard output.
#![tactic(auto)]

mod edge;
mod time;

use edge::{StandardInput, StandardOutput, SystemClock};
use hp_base::{OpenGate, Status};
use hp_run::{mem_kits, top};
use std::alloc::AllocError;
use std::env;
use std::io::ErrorKind;
use std::process::ExitCode;

// Over standard input and output, with a mapper and the system clock for each participant, and a gate that holds no line up.
fn main(rt: HostRuntime) -> ExitCode {
    let alloc = rt.alloc();
    let mut source = StandardInput::new(rt.stdin());
    let mut sink = StandardOutput::new(rt.stdout());
    let status = match words(&rt) {
        Ok(words) => match mem_kits(alloc, SystemClock::new(&rt)) {
            Ok(kits) => {
                let words = words.as_slice();
                top(&rt, alloc, words, &mut source, &mut sink, kits, &OpenGate)
            }
            Err(AllocError) => Status::OutOfMemory,
        },
        Err(AllocError) => Status::OutOfMemory,
    };
    ExitCode::from(status.code())
}

// The words after the program's name; none of them where one is no text, which is no list that the program takes.
fn words(rt: &HostRuntime) -> Result<Vec<String>, AllocError> {
    match env::args(rt) {
        Ok(mut args) => {
            let _name = args.next();
            args.collect(rt.alloc())
        }
        Err(fault) => match fault.kind() {
            ErrorKind::OutOfMemory => Err(AllocError),
            _ => Ok(Vec::new(rt.alloc())),
        },
    }
}
