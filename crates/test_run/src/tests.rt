//! Whole runs, over sources, sinks and mappers in memory.
use Written::*;
use hp_base::{MemSink, MemSource, OpenGate, Status};
use hp_run::{mem_mappers, solo};
use playing::{Case, SOLO, Written, comes_out, play};
use std::alloc::{AllocError, Global};
use std::test::Fail;

mod external;
mod forms;
mod members;
mod messages;
mod playing;
mod registering;
mod rows;
mod threads;
mod zones;

const EXAMPLE: &str = "pool 0 2M 4\n0 alloc a 1000\n";

// How its report begins. examples/ has whole reports, which examples/check compares with those of the built program.
const EXAMPLE_FRONT: &str =
    "heapsim report 1\nline 2 0 alloc ok 0x1001ffc00\nheap 0 socket_0 0 total 2097152 free 2096000 used 1152";

const USAGE: &str = "usage: heapsim solo|run|check|generate <start> <lines> [summary]\n";

const WHOLE: &[Case<'static>] = &[
    Case {
        input: "",
        written: Report("heapsim report 1\ntable 0 in 0 0\nend\n"),
        ..SOLO
    },
    Case {
        input: EXAMPLE,
        written: Report(EXAMPLE_FRONT),
        ..SOLO
    },
];

#[test]
fn reports_a_run_whole(rt: HostRuntime) -> Result<(), Fail> {
    play(&rt, rt.alloc(), WHOLE)
}

// Words that are none: the input is left.
const UNUSED: Case<'static> = Case {
    input: EXAMPLE,
    status: Status::Usage,
    is_left: true,
    written: Text(USAGE),
    ..SOLO
};

const NO_WORDS: &[Case<'static>] = &[
    Case {
        words: &["run", "now"],
        ..UNUSED
    },
    Case {
        words: &["--help"],
        ..UNUSED
    },
    Case {
        words: &["Solo"],
        ..UNUSED
    },
];

#[test]
fn refuses_words_that_it_does_not_take(rt: HostRuntime) -> Result<(), Fail> {
    play(&rt, rt.alloc(), NO_WORDS)
}

// A workload that is refused.
const REFUSED: Case<'static> = Case {
    status: Status::BadWorkload,
    ..SOLO
};

// Lines that the language refuses, after others that it accepts.
const BAD_LINES: &[Case<'static>] = &[
    Case {
        input: "pool 0 2M 4\n0 alloc a",
        written: Text("refused line 2 Fields\n"),
        ..REFUSED
    },
    Case {
        input: "participants 2\npool 0 2M 4\n0 zone z 64\n1 await 0 2\n",
        written: Text("refused line 4 Ahead\n"),
        ..REFUSED
    },
    Case {
        input: "pool 0 2M 4\n0 zone z 64\n0 zone z 0\n",
        written: Text("refused line 3 Range\n"),
        ..REFUSED
    },
    Case {
        input: "pool 0 2M 4\n0 alloc a 64\n0 free a\n0 alloc b 64\n0 alloc a 64\n",
        written: Text("refused line 5 Duplicate\n"),
        ..REFUSED
    },
    Case {
        input: "participants 2\npool 0 2M 4\n0 alloc a 64 socket=32\n",
        written: Text("refused line 3 Option\n"),
        ..REFUSED
    },
];

#[test]
fn refuses_the_first_bad_line(rt: HostRuntime) -> Result<(), Fail> {
    play(&rt, rt.alloc(), BAD_LINES)
}

// Reading fails.
const UNREAD: Case<'static> = Case {
    input: EXAMPLE,
    status: Status::ReadFault,
    ..SOLO
};

// Writing fails.
const UNWRITTEN: Case<'static> = Case {
    input: EXAMPLE,
    status: Status::WriteFault,
    ..SOLO
};

// One call of the source takes in all of an input, and one of the sink up to 100 bytes.
const FAULTS: &[Case<'static>] = &[
    Case {
        source_fails: &[1],
        is_left: true,
        ..UNREAD
    },
    Case {
        source_fails: &[2],
        ..UNREAD
    },
    Case {
        sink_fails: &[1],
        ..UNWRITTEN
    },
    Case {
        sink_fails: &[2],
        written: Front(100, EXAMPLE_FRONT),
        ..UNWRITTEN
    },
    Case {
        input: "no workload",
        sink_fails: &[1],
        ..UNWRITTEN
    },
    Case {
        words: &["run", "now"],
        input: "no workload",
        sink_fails: &[1],
        is_left: true,
        ..UNWRITTEN
    },
];

#[test]
fn ends_where_reading_or_writing_fails(rt: HostRuntime) -> Result<(), Fail> {
    play(&rt, rt.alloc(), FAULTS)
}

// Whether so many bytes are too many, and so many of them are left.
fn are_too_many(alloc: Global, len: usize, left: usize) -> Result<bool, AllocError> {
    let bytes = vec![in alloc; b'0'; len]?;
    let mut source = MemSource::new(bytes, 70_000, Vec::new(alloc));
    let mut sink = MemSink::new(alloc, 100, Vec::new(alloc));
    let status = solo(alloc, &mut source, &mut sink, mem_mappers(alloc)?);
    Ok(status == Status::TooLong && source.left().len() == left && sink.bytes().is_empty())
}

#[test]
fn leaves_a_source_that_gives_too_much(rt: HostRuntime) -> Result<(), Fail> {
    if are_too_many(rt.alloc(), 1_048_577, 0)? && are_too_many(rt.alloc(), 2_000_000, 951_423)? {
        Ok(())
    } else {
        Err("the source came out otherwise".into())
    }
}

// Twenty thousand lines, over the pools of two sockets in turn.
fn over_two_sockets(alloc: Global) -> Result<String, Fail> {
    let mut input = String::from_str(alloc, "socket 0 1\npool 0 2M 1024\npool 1 2M 1024\n")?;
    for i in 0..20_000u32 {
        let size = 64 + i % 4033;
        let socket = i % 2;
        write!(input, "0 alloc l{i} {size} socket={socket}\n")?;
    }
    Ok(input)
}

#[test]
fn serves_twenty_thousand_lines_over_two_sockets(rt: HostRuntime) -> Result<(), Fail> {
    let input = over_two_sockets(rt.alloc())?;
    let case = Case {
        input: input.as_str(),
        written: Report("heapsim report 1\n"),
        ..SOLO
    };
    if comes_out(&rt, rt.alloc(), &case, &OpenGate)? {
        Ok(())
    } else {
        Err("there is no whole report".into())
    }
}
