//! Worked runs whose lines reserve, find and free memzones, and await one another.
use super::playing::ran;
use super::rows::{Row, report};
use hp_base::{OpenGate, Status};
use std::alloc::{AllocError, Global};
use std::sync::Wait;
use std::test::Fail;
use std::thread::Threads;

// A name of 31 letters is reserved once, and one of 32 is too long. A label's calls refuse the element of a memzone, which frees it with its page
// by its own line; its name may be reserved again.
const RESERVED: [Row; 2] = [
    (
        "pool 0 2M 4\n0 zone zzzzzzzzzzzzzzzzzzzzzzzzzzzzzzz 100\n0 zone zzzzzzzzzzzzzzzzzzzzzzzzzzzzzzz 100\n\
         0 zone zzzzzzzzzzzzzzzzzzzzzzzzzzzzzzzz 100\n0 free zzzzzzzzzzzzzzzzzzzzzzzzzzzzzzz\n",
        &[
            "line 2 0 zone ok 0x1001fff80",
            "line 3 0 zone exists",
            "line 4 0 zone namelong",
            "line 5 0 free iszone",
            "zone zzzzzzzzzzzzzzzzzzzzzzzzzzzzzzz 0x1001fff80 128 0 0",
        ],
    ),
    (
        "participants 2\npool 0 2M 4\n0 zone ring 1000\n1 lookup ring\n1 resize ring 64\n1 unzone ring\n1 unzone ring\n0 lookup ring\n\
         1 zone ring 64\n",
        &[
            "line 3 0 zone ok 0x1001ffc00",
            "line 4 1 lookup ok 0x1001ffc00 1024",
            "line 5 1 resize iszone",
            "line 6 1 unzone ok",
            "line 7 1 unzone notfound",
            "line 8 0 lookup notfound",
            "line 9 1 zone ok 0x1001fffc0",
            "hist 0 5 1 2 free 0x1001ffc00 -> ok\nhist 0 6 1 3 cut 0x1001ffc00 -> 0x100000000 2097152",
            "zone ring 0x1001fffc0 64 0 0",
        ],
    ),
];

// What stands against a reservation is judged in one order; a bound is judged by the rounded length as a whole number.
const REFUSED: [Row; 1] = [(
    "pool 0 2M 4\n0 zone a 64\n0 zone a 64 align=48\n0 zone b 64 align=48 bound=1\n0 zone b 64 bound=32\n\
     0 zone b 18446744073709551615 bound=4K\n0 zone b 18446744073709551615 heap=none\n0 zone b 64 heap=none\n0 zone b 16M\n",
    &[
        "line 3 0 zone exists",
        "line 4 0 zone badalign",
        "line 5 0 zone badbound",
        "line 6 0 zone badbound",
        "line 7 0 zone bad overflow",
        "line 8 0 zone noheap",
        "line 9 0 zone none",
    ],
)];

// A memzone may lie in external memory, which whoever reserves it has attached; that is not cut when it is freed.
const EXTERNAL: [Row; 1] = [(
    "participants 2\npool 0 2M 4\n0 heap ext\n0 add ext 0x7000000000 2M 2M\n1 map ext 0x7000000000 2M\n0 zone z 1000 heap=ext\n\
     1 zone z 1000 heap=ext\n0 lookup z\n0 unzone z\n1 zone y 64 heap=socket_0\n",
    &[
        "line 6 0 zone none",
        "line 7 1 zone ok 0x70001ffc00",
        "line 8 0 lookup ok 0x70001ffc00 1024",
        "line 9 0 unzone ok",
        "line 10 1 zone ok 0x1001fffc0",
        "zone y 0x1001fffc0 64 0 0",
    ],
)];

// A participant that is out awaits others, and does nothing else.
const OUTSIDE: [Row; 1] = [(
    "participants 2\nabsent 1\npool 0 2M 4\n0 zone z 64\n1 await 0 1\n1 lookup z\n1 zone y 64\n1 unzone z\n1 attach\n1 await 1 5\n\
     1 lookup z\n",
    &[
        "line 5 1 await ok",
        "line 6 1 lookup detached",
        "line 7 1 zone detached",
        "line 8 1 unzone detached",
        "line 9 1 attach ok 1",
        "line 10 1 await ok",
        "line 11 1 lookup ok 0x1001fffc0 64",
    ],
)];

// A workload as users have it: a primary reserves the memory of a packet pool and of a ring, and the others wait until it has.
const USERS: [Row; 1] = [(
    "participants 3\npool 0 2M 1024\npool 1 2M 1024\n0 zone MP_mbuf_pool 18872064\n0 zone RG_rx 65920\n1 await 0 2\n\
     1 lookup MP_mbuf_pool\n2 await 0 2\n2 alloc flow_table 1M align=4K\n",
    &[
        "line 4 0 zone ok 0x100000900",
        "line 5 0 zone ok 0x1013efe80",
        "line 6 1 await ok",
        "line 7 1 lookup ok 0x100000900 18872064",
        "line 8 2 await ok",
        "line 9 2 alloc ok 0x1012ef000",
        "heap 0 socket_0 0 total 20971520 free 984576 used 19986944 greatest 978816 busy 3 frees 3",
        "zone MP_mbuf_pool 0x100000900 18872064 0 0\nzone RG_rx 0x1013efe80 65920 0 0",
    ],
)];

#[test]
fn reserves_finds_and_frees_memzones(rt: HostRuntime) -> Result<(), Fail> {
    report(&rt, rt.alloc(), &RESERVED)
}

#[test]
fn refuses_reservations_in_order(rt: HostRuntime) -> Result<(), Fail> {
    report(&rt, rt.alloc(), &REFUSED)
}

#[test]
fn reserves_memzones_in_external_memory(rt: HostRuntime) -> Result<(), Fail> {
    report(&rt, rt.alloc(), &EXTERNAL)
}

#[test]
fn awaits_from_outside(rt: HostRuntime) -> Result<(), Fail> {
    report(&rt, rt.alloc(), &OUTSIDE)
}

#[test]
fn awaits_what_a_primary_reserves(rt: HostRuntime) -> Result<(), Fail> {
    report(&rt, rt.alloc(), &USERS)
}

// Whether a workload has the same report on threads as in one thread.
fn is_alike<R: Threads + Wait + Sync>(
    rt: &R,
    alloc: Global,
    input: &str,
) -> Result<bool, AllocError> {
    let (one, _, alone) = ran(rt, alloc, &["solo"], input, &[], &[], &OpenGate)?;
    let (other, _, beside) = ran(rt, alloc, &["run"], input, &[], &[], &OpenGate)?;
    Ok(one == Status::Ok && other == Status::Ok && alone.bytes() == beside.bytes())
}

// The lines of that workload have one order, since each awaits those that it needs; and no growth is refused while clocks stand still.
#[test]
fn awaits_on_threads_as_in_one(rt: HostRuntime) -> Result<(), Fail> {
    assert!(rt; is_alike(&rt, rt.alloc(), USERS[0].0)?);
    Ok(())
}
