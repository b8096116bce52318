//! `heapview`: a report on standard input, its picture on standard output.
#![tactic(auto)]

mod edge;

use edge::{StandardError, StandardInput, StandardOutput};
use hp_base::Status;
use hp_view::top;
use std::alloc::AllocError;
use std::env;
use std::io::ErrorKind;
use std::process::ExitCode;

fn main(rt: HostRuntime) -> ExitCode {
    let status = match run(&rt) {
        Ok(status) => status,
        Err(AllocError) => Status::OutOfMemory,
    };
    ExitCode::from(status.code())
}

// Over standard input, output and error.
fn run(rt: &HostRuntime) -> Result<Status, AllocError> {
    let words = words(rt)?;
    let mut source = StandardInput::new(rt.stdin());
    let mut sink = StandardOutput::new(rt.stdout());
    let mut errors = StandardError::new(rt.stderr());
    Ok(top(
        rt.alloc(),
        words.as_slice(),
        &mut source,
        &mut sink,
        &mut errors,
    ))
}

// The words after the program's name; where one is no text, an empty one, which is none that the program takes.
fn words(rt: &HostRuntime) -> Result<Vec<String>, AllocError> {
    match env::args(rt) {
        Ok(mut args) => {
            let _name = args.next();
            args.collect(rt.alloc())
        }
        Err(fault) => match fault.kind() {
            ErrorKind::OutOfMemory => Err(AllocError),
            _ => one_empty_word(rt),
        },
    }
}

fn one_empty_word(rt: &HostRuntime) -> Result<Vec<String>, AllocError> {
    let mut words = Vec::new(rt.alloc());
    words.push(String::new(rt.alloc()))?;
    Ok(words)
}
