//! `heappool`: workers that get objects of a pool and put them, each on a thread of its own.
#![tactic(auto)]

mod edge;

use edge::StandardOutput;
use hp_base::Status;
use hp_mempool::{OpenGate, top};
use std::alloc::AllocError;
use std::env;
use std::io::ErrorKind;
use std::process::ExitCode;

// Over standard output, with a gate that is always open.
fn main(rt: HostRuntime) -> ExitCode {
    let status = match words(&rt) {
        Ok(words) => {
            let mut sink = StandardOutput::new(rt.stdout());
            top(&rt, rt.alloc(), words.as_slice(), &mut sink, &OpenGate)
        }
        Err(AllocError) => Status::OutOfMemory,
    };
    ExitCode::from(status.code())
}

// The words after the program's name; none of them where one is no text, which is no list that the program takes.
fn words(rt: &HostRuntime) -> Result<Vec<String>, AllocError> {
    match env::args(rt) {
        Ok(mut args) => {
            let _name = args.next();
            args.collect(rt.alloc())
        }
        Err(fault) => match fault.kind() {
            ErrorKind::OutOfMemory => Err(AllocError),
            _ => Ok(Vec::new(rt.alloc())),
        },
    }
}
