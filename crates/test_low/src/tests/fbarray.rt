//! Worked values of the mask's calls, and a table from a plain search that was written apart.
ghost use Rattle.std.specs.Prelude.{◌≡◌, length};

use super::{ended, holds};
use hp_fbarray::Mask;
use std::alloc::{AllocError, Global};
use std::test::Fail;

// What a mask answers: the first free run, the next used place, the number of used places and the longest free stretch.
type Answers = (Option<usize>, Option<usize>, usize, usize);

// A mask, used where the letter is 'x'; the place and the number of places that are asked for; and what it answers.
type Row = (&'static [u8; 10], usize, usize, Answers);

const ROWS: &[Row] = &[
    (b"..........", 0, 10, (Some(0), None, 0, 10)),
    (b"xxxxxxxxxx", 0, 1, (None, Some(0), 10, 0)),
    (b"xxxxxxxxxx", 3, 0, (Some(3), Some(3), 10, 0)),
    (b"x........x", 0, 8, (Some(1), Some(0), 2, 8)),
    (b"x........x", 0, 9, (None, Some(0), 2, 8)),
    (b".x..x...x.", 0, 3, (Some(5), Some(1), 3, 3)),
    (b".x..x...x.", 2, 2, (Some(2), Some(4), 3, 3)),
    (b".x..x...x.", 7, 2, (None, Some(8), 3, 3)),
    (b"....x.....", 1, 5, (Some(5), Some(4), 1, 5)),
    (b"....x.....", 6, 5, (None, None, 1, 5)),
    (b"..xx..xx..", 9, 1, (Some(9), None, 4, 2)),
    (b"..xx..xx..", 10, 0, (Some(10), None, 4, 2)),
    (b"..xx..xx..", 10, 1, (None, None, 4, 2)),
    (b"..xx..xx..", 11, 0, (None, None, 4, 2)),
    (b"x.x.x.x.x.", 0, 2, (None, Some(0), 5, 1)),
];

// What a mask answers for so many places from a place on.
fn answers(mask: &Mask, from: usize, n: usize) -> Answers {
    (
        mask.find_n_free(from, n),
        mask.find_next_used(from),
        mask.count_used(),
        mask.longest_free(),
    )
}

// The places of these letters are used.
fn use_places(mask: &mut Mask, letters: &[u8; 10])
    requires { length mask.old ≡ 10 }
{
    for i in 0..10 {
        if letters[i] == b'x' {
            mask.set(i);
        }
    }
}

// What the mask of a row answers.
fn answers_of(alloc: Global, row: Row) -> Result<Answers, AllocError> {
    let mut mask = Mask::new(alloc, 10)?;
    use_places(&mut mask, row.0);
    Ok(answers(&mask, row.1, row.2))
}

#[test]
fn answers_as_a_plain_search_does(rt: HostRuntime) -> Result<(), Fail> {
    for at in 0..ROWS.len() {
        if answers_of(rt.alloc(), ROWS[at])? != ROWS[at].3 {
            return ended(Some(at));
        }
    }
    Ok(())
}

// One place is set, and clear again: whether it is set, and the first runs of two and of three places, and then of three.
fn set_and_clear(mask: &mut Mask) -> ([bool; 2], [Option<usize>; 3])
    requires { length mask.old ≡ 4 }
{
    mask.set(1);
    let set = mask.is_set(1);
    let two = mask.find_n_free(0, 2);
    let none = mask.find_n_free(0, 3);
    mask.clear(1);
    let clear = !mask.is_set(1);
    ([set, clear], [two, none, mask.find_n_free(0, 3)])
}

#[test]
fn finds_two_clear_places_behind_a_used_one(rt: HostRuntime) -> Result<(), Fail> {
    let mut mask = Mask::new(rt.alloc(), 4)?;
    holds(set_and_clear(&mut mask) == ([true; 2], [Some(2), None, Some(0)]))
}

// What a mask of no places answers for none and for one.
fn answers_of_nothing(alloc: Global) -> Result<[Answers; 2], AllocError> {
    let mask = Mask::new(alloc, 0)?;
    Ok([answers(&mask, 0, 0), answers(&mask, 0, 1)])
}

#[test]
fn has_no_place_at_all(rt: HostRuntime) -> Result<(), Fail> {
    holds(answers_of_nothing(rt.alloc())? == [(Some(0), None, 0, 0), (None, None, 0, 0)])
}
