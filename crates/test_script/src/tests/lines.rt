use super::ended_at;
use hp_script::{Act, Line, Options, SocketChoice, Token, parse};
use std::alloc::{AllocError, Global};
use std::test::Fail;

// A token's place, and its text.
fn put_token(text: &mut String, token: &Token) -> Result<(), AllocError> {
    let start = token.start();
    let word = token.as_str();
    write!(text, " {start}:{word}")
}

fn put_socket(text: &mut String, socket: SocketChoice) -> Result<(), AllocError> {
    match socket {
        SocketChoice::Any => text.push_str(" any"),
        SocketChoice::Number { socket } => write!(text, " {socket}"),
    }
}

fn put_options(text: &mut String, options: &Options) -> Result<(), AllocError> {
    put_socket(text, options.socket)?;
    match &options.heap {
        None => text.push_str(" none")?,
        Some(heap) => put_token(text, heap)?,
    }
    let Options {
        align,
        bound,
        flags,
        ..
    } = options;
    write!(text, " {align} {bound} {flags}")
}

// A verb, a token and a size.
fn put_sized(text: &mut String, verb: &str, token: &Token, size: u64) -> Result<(), AllocError> {
    text.push_str(verb)?;
    put_token(text, token)?;
    write!(text, " {size}")
}

// A line in short: its verb, and its fields.
fn put_act(text: &mut String, act: &Act) -> Result<(), AllocError> {
    match act {
        Act::Alloc {
            label,
            size,
            options,
        } => {
            put_sized(text, "alloc", label, *size)?;
            put_options(text, options)
        }
        Act::Zone { name, len, options } => {
            put_sized(text, "zone", name, *len)?;
            put_options(text, options)
        }
        Act::Resize { label, size } => put_sized(text, "resize", label, *size),
        Act::Attach => text.push_str("attach"),
        Act::Detach => text.push_str("detach"),
        Act::Await { other, lines } => write!(text, "await {other} {lines}"),
        other => put_limiting(text, other),
    }
}

// A verb, a name and a socket.
fn put_name(text: &mut String, verb: &str, name: &Token, socket: u32) -> Result<(), AllocError> {
    text.push_str(verb)?;
    put_token(text, name)?;
    write!(text, " {socket}")
}

fn put_limiting(text: &mut String, act: &Act) -> Result<(), AllocError> {
    match act {
        Act::Limit {
            name,
            socket,
            bytes,
            allow,
        } => {
            put_name(text, "limit", name, *socket)?;
            write!(text, " {bytes} {allow}")
        }
        Act::Unlimit { name, socket } => put_name(text, "unlimit", name, *socket),
        other => put_named(text, other),
    }
}

fn put_named(text: &mut String, act: &Act) -> Result<(), AllocError> {
    let (verb, name) = match act {
        Act::Free { label } => ("free", label),
        Act::Lookup { name } => ("lookup", name),
        Act::Unzone { name } => ("unzone", name),
        Act::Heap { name } => ("heap", name),
        Act::Unheap { name } => ("unheap", name),
        Act::Watch { name } => ("watch", name),
        Act::Unwatch { name } => ("unwatch", name),
        Act::Dump { heap } => ("dump", heap),
        Act::Stats { heap } => ("stats", heap),
        other => return put_ranged(text, other),
    };
    text.push_str(verb)?;
    put_token(text, name)
}

fn put_ranged(text: &mut String, act: &Act) -> Result<(), AllocError> {
    let (verb, heap, addr, len, page) = match act {
        Act::Add {
            heap,
            addr,
            len,
            page,
        } => ("add", heap, addr, len, *page),
        Act::Remove { heap, addr, len } => ("remove", heap, addr, len, 0),
        Act::Map { heap, addr, len } => ("map", heap, addr, len, 0),
        Act::Unmap { heap, addr, len } => ("unmap", heap, addr, len, 0),
        _ => return text.push_str("?"),
    };
    text.push_str(verb)?;
    put_token(text, heap)?;
    write!(text, " {addr} {len} {page}")
}

const TEXT: &[u8] = b"participants 2
0 alloc a 1K socket=1 align=0x40 bound=4K flags=0xffffffff
1 alloc b 0 heap=ext
0\tzone z 1 socket=any
00 free z \r
1 resize a 2G
1 lookup q
1 unzone q
1 attach
1 detach
0 heap ext
0 unheap ext
0 add ext 0x7000000000 4M 2M
0 remove ext 1 2
0 map ext 3 4
0 unmap ext 5 6
1 watch w
1 unwatch w
0 limit v 31 2M allow
0 limit u 0 18446744073709551615
0 unlimit v 31
1 await 0 11
1 await 1 1
0 dump socket_0
0 stats ext";

const SHOWN: &[&str] = &[
    "alloc 23:a 1024 1 none 64 4096 4294967295",
    "alloc 82:b 0 any 91:ext 0 0 0",
    "zone 102:z 1 any none 0 0 0",
    "free 125:z",
    "resize 138:a 2147483648",
    "lookup 152:q",
    "unzone 163:q",
    "attach",
    "detach",
    "heap 190:ext",
    "unheap 203:ext",
    "add 213:ext 481036337152 4194304 2097152",
    "remove 245:ext 1 2 0",
    "map 259:ext 3 4 0",
    "unmap 275:ext 5 6 0",
    "watch 291:w",
    "unwatch 303:w",
    "limit 313:v 31 2097152 true",
    "limit 335:u 0 18446744073709551615 false",
    "unlimit 370:v 31",
    "await 0 11",
    "await 1 1",
    "dump 407:socket_0",
    "stats 424:ext",
];

// Whether a line has a participant below 2, and is shown so.
fn is_shown(alloc: Global, line: &Line, shown: &str) -> Result<bool, AllocError> {
    let mut text = String::new(alloc);
    put_act(&mut text, &line.act)?;
    Ok(line.participant < 2 && text.as_str() == shown)
}

// The lines are shown so, and are numbered from 2 on.
fn are_shown(alloc: Global, lines: &[Line], shown: &[&str]) -> Result<(), Fail> {
    if lines.len() != shown.len() {
        return Err("a line for each that is shown".into());
    }
    for at in 0..lines.len() {
        if lines[at].line as usize != at.saturating_add(2) {
            return ended_at(at);
        }
        if !is_shown(alloc, &lines[at], shown[at])? {
            return ended_at(at);
        }
    }
    Ok(())
}

#[test]
fn reads_every_participant_line(rt: HostRuntime) -> Result<(), Fail> {
    let read = parse(rt.alloc(), TEXT)?;
    are_shown(rt.alloc(), &read.lines, SHOWN)
}
