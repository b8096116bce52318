//! The forms of the words: what is counted, generated and summed up, and which words are none.
use super::playing::{Case, SOLO, comes_out, play, ran};
use super::{EXAMPLE, USAGE, Written};
use Written::*;
use hp_base::{OpenGate, Status};
use std::alloc::Global;
use std::sync::Wait;
use std::test::Fail;
use std::thread::Threads;

const LONG: &str =
    "participants 3\npool 0 2M 1024\npool 1 2M 1024\n0 zone MP_mbuf_pool 18872064\n0 zone RG_rx 65920\n\
1 await 0 2\n1 lookup MP_mbuf_pool\n2 await 0 2\n2 alloc flow_table 1M align=4K\n";

// One generated line, by hand from the four states that its draws go by.
const FIRST: &str = "participants 4\npool 0 2M 1024\npool 1 2M 1024\n3 alloc l1 15441 socket=0\n";

const FIRST_SUMMARY: &str =
    "lines 1\nallocs 1\nfrees 0\nresized 0\nrecords 1\npool0 1023\npool1 1024\nfree 2081536\n";

// Of a model that is none of this program.
const LONG_SUMMARY: &str =
    "lines 2000\nallocs 1028\nfrees 753\nresized 122\nrecords 12\npool0 1021\npool1 1021\nfree 3656960\n";

// A workload is checked.
const CHECK: Case<'static> = Case {
    words: &["check"],
    ..SOLO
};

// A workload is generated, whatever the input is, which is left.
const GENERATE: Case<'static> = Case {
    input: EXAMPLE,
    is_left: true,
    ..SOLO
};

const SAID: &[Case<'static>] = &[
    Case {
        input: LONG,
        written: Text("ok 6\n"),
        ..CHECK
    },
    Case {
        input: "",
        written: Text("ok 0\n"),
        ..CHECK
    },
    Case {
        input: "# none\n\npool 0 2M 4\n",
        written: Text("ok 0\n"),
        ..CHECK
    },
    Case {
        words: &["check", "--"],
        input: EXAMPLE,
        written: Text("ok 1\n"),
        ..CHECK
    },
    Case {
        words: &["generate", "0", "1"],
        written: Text(FIRST),
        ..GENERATE
    },
    Case {
        words: &["generate", "00", "0001"],
        written: Text(FIRST),
        ..GENERATE
    },
    Case {
        words: &["--", "generate", "0", "1"],
        written: Text(FIRST),
        ..GENERATE
    },
    Case {
        words: &["generate", "--", "0", "1"],
        written: Text(FIRST),
        ..GENERATE
    },
    Case {
        words: &["generate", "0", "1", "summary"],
        written: Text(FIRST_SUMMARY),
        ..GENERATE
    },
    Case {
        words: &["generate", "7", "2000", "summary"],
        written: Text(LONG_SUMMARY),
        ..GENERATE
    },
    // A second run writes the same bytes.
    Case {
        words: &["generate", "7", "2000", "summary"],
        written: Text(LONG_SUMMARY),
        ..GENERATE
    },
    Case {
        words: &["--", "check"],
        input: EXAMPLE,
        written: Text("ok 1\n"),
        ..CHECK
    },
];

#[test]
fn writes_what_the_words_ask_for(rt: HostRuntime) -> Result<(), Fail> {
    play(&rt, rt.alloc(), SAID)
}

// Whether twenty thousand lines are generated from the last start, and are taken as so many.
fn generates_from_the_last<R: Threads + Wait + Sync>(rt: &R, alloc: Global) -> Result<bool, Fail> {
    let words = ["generate", "18446744073709551615", "20000"].as_slice();
    let (status, _source, sink) = ran(rt, alloc, words, "", &[], &[], &OpenGate)?;
    let text = str::from_utf8(sink.bytes())?;
    let case = Case {
        input: text,
        written: Text("ok 20000\n"),
        ..CHECK
    };
    Ok(status == Status::Ok && comes_out(rt, alloc, &case, &OpenGate)?)
}

#[test]
fn generates_from_the_last_start(rt: HostRuntime) -> Result<(), Fail> {
    if generates_from_the_last(&rt, rt.alloc())? {
        Ok(())
    } else {
        Err("it generates something else".into())
    }
}

// Words that are no form: the input is left.
const NO_FORM: Case<'static> = Case {
    input: EXAMPLE,
    status: Status::Usage,
    is_left: true,
    written: Text(USAGE),
    ..SOLO
};

const NO_FORMS: &[Case<'static>] = &[
    Case {
        words: &[],
        ..NO_FORM
    },
    Case {
        words: &[""],
        ..NO_FORM
    },
    Case {
        words: &["--"],
        ..NO_FORM
    },
    Case {
        words: &["-"],
        ..NO_FORM
    },
    Case {
        words: &["check", "check"],
        ..NO_FORM
    },
    Case {
        words: &["generate"],
        ..NO_FORM
    },
    Case {
        words: &["generate", "7"],
        ..NO_FORM
    },
    Case {
        words: &["generate", "7", "0"],
        ..NO_FORM
    },
    Case {
        words: &["generate", "7", "20001"],
        ..NO_FORM
    },
    Case {
        words: &["generate", "18446744073709551616", "20"],
        ..NO_FORM
    },
    Case {
        words: &["generate", "", "20"],
        ..NO_FORM
    },
    Case {
        words: &["generate", "+7", "20"],
        ..NO_FORM
    },
    Case {
        words: &["generate", "-7", "20"],
        ..NO_FORM
    },
    Case {
        words: &["generate", "7", "20", "summer"],
        ..NO_FORM
    },
    Case {
        words: &["--", "--", "generate", "7", "20"],
        ..NO_FORM
    },
    Case {
        words: &["--", "-h"],
        ..NO_FORM
    },
    Case {
        words: &[
            "generate", "7", "20", "summary", "", "", "", "", "", "", "", "", "", "", "", "",
        ],
        ..NO_FORM
    },
];

#[test]
fn refuses_words_that_are_no_form(rt: HostRuntime) -> Result<(), Fail> {
    play(&rt, rt.alloc(), NO_FORMS)
}

// The first call of the sink fails.
const UNWRITTEN: Case<'static> = Case {
    input: EXAMPLE,
    sink_fails: &[1],
    status: Status::WriteFault,
    ..SOLO
};

const FAULTS: &[Case<'static>] = &[
    Case {
        words: &["check"],
        ..UNWRITTEN
    },
    Case {
        words: &["generate", "0", "1"],
        is_left: true,
        ..UNWRITTEN
    },
    Case {
        words: &["generate", "0", "1", "summary"],
        is_left: true,
        ..UNWRITTEN
    },
    // 100 bytes were taken.
    Case {
        words: &["generate", "7", "50"],
        input: "",
        sink_fails: &[2],
        written: Bytes(100),
        ..UNWRITTEN
    },
    Case {
        words: &["check"],
        input: EXAMPLE,
        source_fails: &[1],
        status: Status::ReadFault,
        is_left: true,
        ..SOLO
    },
    Case {
        words: &["check"],
        input: "pool 0 2M 4\n0 alloc a",
        status: Status::BadWorkload,
        written: Text("refused line 2 Fields\n"),
        ..SOLO
    },
];

#[test]
fn ends_where_a_form_fails(rt: HostRuntime) -> Result<(), Fail> {
    play(&rt, rt.alloc(), FAULTS)
}
