//! Sixteen participants, who allocate and free.

use super::casting::ran;
use super::leaving::holds;
use hp_base::OpenGate;
use hp_report::Ended;
use hp_script::Answer;
use std::alloc::{AllocError, Global};
use std::sync::Wait;
use std::test::Fail;
use std::thread::Threads;

// Each allocates on one of two sockets, and then frees it.
const SIXTEEN: &str = "participants 16\npool 0 2M 64\npool 1 2M 64\n\
0 alloc a 100000 socket=0\n1 alloc b 100000 socket=1\n2 alloc c 100000 socket=0\n3 alloc d 100000 socket=1\n\
4 alloc e 100000 socket=0\n5 alloc f 100000 socket=1\n6 alloc g 100000 socket=0\n7 alloc h 100000 socket=1\n\
8 alloc i 100000 socket=0\n9 alloc j 100000 socket=1\n10 alloc k 100000 socket=0\n11 alloc l 100000 socket=1\n\
12 alloc m 100000 socket=0\n13 alloc n 100000 socket=1\n14 alloc o 100000 socket=0\n15 alloc p 100000 socket=1\n\
0 free a\n1 free b\n2 free c\n3 free d\n4 free e\n5 free f\n6 free g\n7 free h\n8 free i\n9 free j\n10 free k\n\
11 free l\n12 free m\n13 free n\n14 free o\n15 free p\n";

// Whether that is the answer of a line that was granted.
fn is_granted(answer: &Answer) -> bool {
    matches!(answer, Answer::Address { .. } | Answer::Done)
}

// Whether each line was, and no heap has a busy element in the end.
fn is_given_back(ended: &Ended<'_>) -> bool {
    ended.answers.len() == 32
        && ended.answers.iter().all(is_granted)
        && ended.heaps.iter().all(|heap| heap.summary().busy == 0)
}

fn gives_back<R: Threads + Wait + Sync>(rt: &R, alloc: Global) -> Result<bool, AllocError> {
    let ended = ran(rt, alloc, SIXTEEN, &OpenGate)?;
    Ok(is_given_back(&ended))
}

#[test]
fn gives_back_all_that_sixteen_allocate(rt: HostRuntime) -> Result<(), Fail> {
    holds(gives_back(&rt, rt.alloc())?)
}
