//! Worked runs whose lines make external heaps, bring memory to them and attach it.
use super::rows::{Row, report};
use std::test::Fail;

// Who has attached a chunk allocates from it; who has not gets nothing. With an element in it a chunk is neither left by its owner nor removed,
// and a heap with a chunk is not destroyed.
const SHARED: [Row; 2] = [
    (
        "participants 2\npool 0 2M 4\n0 heap ext\n0 add ext 0x7000000000 4M 2M\n0 map ext 0x7000000000 4M\n0 alloc x 1000 heap=ext\n\
         1 alloc y 1000 heap=ext\n0 remove ext 0x7000000000 4M\n0 unmap ext 0x7000000000 4M\n0 unheap ext\n0 heap ext\n0 unheap socket_0\n",
        &[
            "line 3 0 heap ok 256",
            "line 4 0 add ok",
            "line 5 0 map ok",
            "line 6 0 alloc ok 0x70003ffc00",
            "line 7 1 alloc none",
            "line 8 0 remove busy 0x70003ffc00",
            "line 9 0 unmap inuse 0x70003ffc00",
            "line 10 0 unheap busy 1",
            "line 11 0 heap exists",
            "line 12 0 unheap socketheap",
            "table 0 in 0 2\nmap 0 0x7000000000 2097152 256\nmap 0 0x7000200000 2097152 256\ntable 1 in 0 0\nend",
        ],
    ),
    (
        "pool 0 2M 4\n0 heap ext\n0 add ext 0x7000000000 4M 2M\n0 map ext 0x7000000000 4M\n0 alloc x 1000 heap=ext\n0 free x\n\
         0 unmap ext 0x7000000000 4M\n0 remove ext 0x7000000000 4M\n0 unheap ext\n0 heap ext\n",
        &[
            "line 6 0 free ok",
            "line 7 0 unmap ok",
            "line 8 0 remove ok",
            "line 9 0 unheap ok",
            "line 10 0 heap ok 257",
            "heap 1 ext 257 total 0 free 0 used 0 greatest 0 busy 0 frees 0",
            "table 0 in 0 0\nend",
        ],
    ),
];

// Memory may touch or follow segments and other memory; where it shares a byte with a slot, mapped or not, the lowest one is named.
const ADDED: [Row; 1] = [(
    "pool 0 2M 4\n0 heap ext\n0 add ext 0x7000000000 4M 2M\n0 add ext 0x7000200000 2M 2M\n0 add ext 0x100400000 2M 2M\n\
     0 add ext 0x7000400000 2M 4K\n0 add ext 0x100800000 2M 2M\n0 add ext 0x1 2M 2M\n0 add none 0 2M 2M\n0 add socket_0 0 2M 2M\n\
     0 heap other\n0 add other 0x7000200000 4K 4K\n",
    &[
        "line 3 0 add ok",
        "line 4 0 add overlaps 0x7000200000",
        "line 5 0 add overlaps 0x100400000",
        "line 6 0 add ok",
        "line 7 0 add ok",
        "line 8 0 add badrange",
        "line 9 0 add notfound",
        "line 10 0 add socketheap",
        "line 11 0 heap ok 257",
        "line 12 0 add overlaps 0x7000200000",
    ],
)];

// A participant that detaches leaves every chunk first, by heap and address, and its elements stay; one that attaches again has no chunk. A
// mapping that is refused, or comes to another place, leaves the chunk unattached.
const LEFT: [Row; 2] = [
    (
        "participants 2\npool 0 2M 4\n0 heap ext\n0 add ext 0x7000000000 4M 2M\n0 add ext 0x7000400000 2M 2M\n1 map ext 0x7000400000 2M\n\
         1 map ext 0x7000000000 4M\n1 map ext 0x7000000000 4M\n1 map ext 0x7000400000 4M\n1 map socket_0 0 2M\n1 map none 0 2M\n\
         0 remove ext 0x7000000000 4M\n1 alloc a 1000 heap=ext\n1 detach\n0 remove ext 0x7000400000 2M\n0 remove ext 0x7000000000 4M\n\
         1 attach\n1 alloc b 1000 heap=ext\n1 unmap ext 0x7000400000 2M\n",
        &[
            "line 8 1 map already",
            "line 9 1 map nochunk",
            "line 10 1 map nochunk",
            "line 11 1 map notfound",
            "line 12 0 remove attached 1",
            "line 13 1 alloc ok 0x70005ffc00",
            "line 14 1 detach ok",
            "line 15 0 remove busy 0x70005ffc00",
            "line 16 0 remove ok",
            "line 17 1 attach ok 0",
            "line 18 1 alloc none",
            "line 19 1 unmap notattached",
            "unshare 0x7000000000 4194304 -> ok\nhist 1 8 1 5 unshare 0x7000400000 2097152 -> ok",
            "table 1 in 0 0\nend",
        ],
    ),
    (
        "participants 2\npool 0 2M 4\nrefuse 1 1\nelsewhere 1 3\n0 heap ext\n0 add ext 0x7000000000 4M 2M\n1 map ext 0x7000000000 4M\n\
         1 map ext 0x7000000000 4M\n1 map ext 0x7000000000 4M\n",
        &[
            "line 7 1 map refused 1",
            "line 8 1 map refused 3",
            "line 9 1 map ok",
            "table 1 in 0 2\nmap 1 0x7000000000 2097152 256\nmap 1 0x7000200000 2097152 256\nend",
        ],
    ),
];

// A heap is asked for by its name: one of a socket as if the socket were named, and none that no heap has.
const NAMED: [Row; 1] = [(
    "pool 0 2M 4\n0 alloc a 1000 heap=socket_0\n0 alloc b 1000 heap=ext\n0 heap ext\n0 alloc c 1000 heap=ext\n0 unheap ext\n0 unheap ext\n\
     0 alloc d 1000 heap=ext\n0 heap ext\n0 dump ext\n0 heap abcdefghijabcdefghijabcdefghij12\n",
    &[
        "line 2 0 alloc ok 0x1001ffc00",
        "line 3 0 alloc noheap",
        "line 4 0 heap ok 256",
        "line 5 0 alloc none",
        "line 6 0 unheap ok",
        "line 7 0 unheap notfound",
        "line 8 0 alloc noheap",
        "line 9 0 heap ok 257",
        "line 10 0 dump total 0 free 0 used 0 greatest 0 busy 0 frees 0",
        "line 11 0 heap badname",
    ],
)];

#[test]
fn shares_external_memory(rt: HostRuntime) -> Result<(), Fail> {
    report(&rt, rt.alloc(), &SHARED)
}

#[test]
fn adds_what_overlaps_nothing(rt: HostRuntime) -> Result<(), Fail> {
    report(&rt, rt.alloc(), &ADDED)
}

#[test]
fn leaves_chunks_before_it_detaches(rt: HostRuntime) -> Result<(), Fail> {
    report(&rt, rt.alloc(), &LEFT)
}

#[test]
fn asks_for_heaps_by_name(rt: HostRuntime) -> Result<(), Fail> {
    report(&rt, rt.alloc(), &NAMED)
}
