//! The texts of the generator, reckoned apart from it.

use super::{ended_at, outcome};
use hp_script::generate;
use std::alloc::{AllocError, Global};
use std::test::Fail;

const ONE: &[u8] = b"participants 4
pool 0 2M 1024
pool 1 2M 1024
3 alloc l1 15441 socket=0
";

const TWENTY: &[u8] = b"participants 4
pool 0 2M 1024
pool 1 2M 1024
3 alloc l1 55939 socket=0
0 alloc l2 31903 socket=1
1 alloc l3 41875 socket=0
0 free l2
1 alloc l5 56955 socket=1
0 free l3
3 alloc l7 52189 socket=1
3 alloc l8 24333 socket=0
1 free l8
3 alloc l10 33240 socket=1
3 free l10
3 free l1
2 free l7
1 alloc l14 57637 socket=0
1 alloc l15 10049 socket=1
2 alloc l16 51471 socket=0
0 free l16
2 alloc l18 35381 socket=1
3 alloc l19 18465 socket=1
3 free l14
";

const FIFTY: &[u8] = b"participants 4
pool 0 2M 1024
pool 1 2M 1024
2 alloc l1 44401 socket=1
1 alloc l2 49192 socket=0
3 free l2
3 alloc l4 21680 socket=1
2 free l4
0 resize l1 31713
2 alloc l7 16029 socket=0
0 alloc l8 53765 socket=0
0 free l8
3 free l7
1 alloc l11 63268 socket=0
1 resize l1 30562
0 alloc l13 21152 socket=0
2 alloc l14 53428 socket=0
1 free l13
3 alloc l16 4832 socket=0
3 resize l11 7283
0 alloc l18 24521 socket=0
3 alloc l19 13794 socket=1
2 free l11
0 free l18
1 alloc l22 19958 socket=0
3 alloc l23 38800 socket=1
3 alloc l24 39443 socket=1
3 free l24
1 alloc l26 4504 socket=0
3 free l1
3 alloc l28 62390 socket=1
0 alloc l29 40699 socket=1
0 free l29
1 alloc l31 54132 socket=0
1 free l19
1 free l28
3 free l26
2 alloc l35 44476 socket=0
2 alloc l36 20561 socket=0
1 resize l36 46897
3 alloc l38 30355 socket=1
2 alloc l39 2052 socket=0
3 alloc l40 11197 socket=1
2 alloc l41 64463 socket=1
2 alloc l42 23917 socket=1
1 alloc l43 12780 socket=1
2 resize l16 18608
3 free l35
3 alloc l46 55975 socket=0
3 alloc l47 52138 socket=0
0 free l38
0 alloc l49 19713 socket=0
1 alloc l50 5729 socket=0
";

const LAST: &[u8] = b"participants 4
pool 0 2M 1024
pool 1 2M 1024
0 alloc l1 1941 socket=0
0 alloc l2 14613 socket=1
0 free l2
2 alloc l4 64922 socket=0
0 alloc l5 11844 socket=0
2 alloc l6 10524 socket=1
3 free l4
1 free l5
3 alloc l9 35790 socket=0
3 free l6
2 free l1
3 alloc l12 62611 socket=0
2 free l12
2 alloc l14 441 socket=0
2 free l9
3 alloc l16 51591 socket=0
0 free l16
3 free l14
2 alloc l19 4412 socket=0
3 free l19
";

// A start, how many lines, and the text.
const TEXTS: &[(u64, u32, &[u8])] = &[
    (0, 1, ONE),
    (3, 20, TWENTY),
    (7, 50, FIFTY),
    (u64::MAX, 20, LAST),
];

fn is_text(alloc: Global, start: u64, lines: u32, text: &[u8]) -> Result<bool, AllocError> {
    Ok(generate(alloc, start, lines)?.as_slice() == text)
}

#[test]
fn draws_the_lines_of_a_start(rt: HostRuntime) -> Result<(), Fail> {
    for at in 0..TEXTS.len() {
        let (start, lines, text) = TEXTS[at];
        if !is_text(rt.alloc(), start, lines, text)? {
            return ended_at(at);
        }
    }
    Ok(())
}

#[test]
fn reads_what_is_generated(rt: HostRuntime) -> Result<(), Fail> {
    let text = generate(rt.alloc(), 11, 500)?;
    assert!(rt; outcome(rt.alloc(), &text)? == 500);
    Ok(())
}
