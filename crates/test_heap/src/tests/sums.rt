//! Statistics beside sums over a walk, while calls are made at random.

use super::heaps::{tag_of, three_pages};
use super::steps::Step::SumUp;
use super::steps::{alloc, free, play};
use hp_base::{Span, SpanState, Stats};
use hp_heap::Heap;
use std::test::Fail;

// The next of the numbers by which calls are chosen.
fn number_after(number: u64) -> u64 {
    number
        .wrapping_mul(6_364_136_223_846_793_005)
        .wrapping_add(1_442_695_040_888_963_407)
}

// Frees the element of a place, or allocates for a place that has none. The address of its data stands there.
fn call(heap: &mut Heap, addresses: &mut [u64], number: u64) -> bool {
    let bits = number >> 33;
    let place = (bits % 64) as usize;
    let Some(addr) = addresses.get(place).copied() else {
        return false;
    };
    if heap.spare() == 0 {
        return false;
    }
    if addr != 0 {
        addresses[place] = 0;
        return free(heap, addr) == Some(Ok(()));
    }
    let size = (bits >> 6) % 200_000 + 1;
    addresses[place] = alloc(heap, size, 0, 0, 0, tag_of(place as u32)).unwrap_or(0);
    true
}

// The statistics with an element more.
fn with_one_more(stats: Stats, span: &Span) -> Stats {
    let total = stats.total.wrapping_add(span.whole);
    match span.state {
        SpanState::Free { .. } => Stats {
            total,
            free: stats.free.wrapping_add(span.whole),
            greatest: stats.greatest.max(span.whole),
            frees: stats.frees.wrapping_add(1),
            ..stats
        },
        SpanState::Busy { .. } => Stats {
            total,
            used: stats.used.wrapping_add(span.whole),
            busy: stats.busy.wrapping_add(1),
            ..stats
        },
    }
}

// The statistics of at most 200 elements, by a walk over them.
fn walked(heap: &Heap) -> Stats {
    let mut stats = Stats {
        total: 0,
        free: 0,
        used: 0,
        greatest: 0,
        busy: 0,
        frees: 0,
    };
    let mut walk = heap.walk();
    for _step in 0..200 {
        let Some(span) = walk.next() else {
            return stats;
        };
        stats = with_one_more(stats, span);
    }
    stats
}

/// Makes so many calls, and says whether the statistics are the sums after each of them.
pub fn sums_up(heap: &mut Heap, calls: usize) -> bool {
    if heap.reserve(calls).is_err() {
        return false;
    }
    let mut addresses = [0; 64];
    let mut number = 1;
    for _call in 0..calls {
        number = number_after(number);
        if !call(heap, addresses.as_mut_slice(), number) || heap.summary() != walked(heap) {
            return false;
        }
    }
    true
}

#[test]
fn sums_up_its_elements_after_each_call(rt: HostRuntime) -> Result<(), Fail> {
    play(three_pages(rt.alloc()), &[SumUp(20_000)])
}
