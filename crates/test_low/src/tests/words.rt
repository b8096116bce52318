//! Masks of one word and of more, with runs over the end of a word; the answers are those of a plain
//! search by places that was written apart.
ghost use Rattle.std.specs.Prelude.{◌≡◌, ◌≤◌, IfOk, length};

use super::{ended, holds};
use hp_fbarray::{FreeRun, MAX_PLACES, Mask};
use std::alloc::{AllocError, Global};
use std::test::Fail;

// The number of places; the used ones: those below the second number, and those from the third up to the fourth.
type Places = (usize, usize, usize, usize);

// A mask; the number of places that are asked for from 0 on; and the first free run, the number of used places and the longest
// free stretch.
type Row = (Places, usize, (Option<usize>, usize, usize));

const ROWS: &[Row] = &[
    ((0, 0, 0, 0), 1, (None, 0, 0)),
    ((1, 0, 0, 0), 1, (Some(0), 0, 1)),
    ((1, 1, 0, 0), 1, (None, 1, 0)),
    ((63, 62, 0, 0), 1, (Some(62), 62, 1)),
    ((64, 63, 0, 0), 1, (Some(63), 63, 1)),
    ((64, 64, 0, 0), 1, (None, 64, 0)),
    ((65, 64, 0, 0), 1, (Some(64), 64, 1)),
    ((65, 0, 64, 65), 64, (Some(0), 1, 64)),
    ((130, 60, 70, 130), 10, (Some(60), 120, 10)),
    ((130, 1, 129, 130), 129, (None, 2, 128)),
    ((16384, 16384, 0, 0), 1, (None, 16384, 0)),
    ((16384, 8000, 8010, 16384), 10, (Some(8000), 16374, 10)),
];

// The mask of these places.
fn mask_of(
    alloc: Global,
    places: usize,
    front: usize,
    start: usize,
    end: usize,
) -> Result<Mask, AllocError>
    requires { places ≤ MAX_PLACES }
    ensures { IfOk result (λ mask. length mask ≡ places) }
{
    let mut mask = Mask::new(alloc, places)?;
    for i in 0..front.min(places) {
        mask.set(i);
    }
    for k in start..end.min(places) {
        mask.set(k);
    }
    Ok(mask)
}

// What the mask of a row answers.
fn answers_of(alloc: Global, row: Row) -> Result<(Option<usize>, usize, usize), AllocError> {
    let ((places, front, start, end), n, _) = row;
    let mask = mask_of(alloc, places.min(MAX_PLACES), front, start, end)?;
    Ok((
        mask.find_n_free(0, n),
        mask.count_used(),
        mask.longest_free(),
    ))
}

#[test]
fn answers_by_words_as_by_places(rt: HostRuntime) -> Result<(), Fail> {
    for at in 0..ROWS.len() {
        if answers_of(rt.alloc(), ROWS[at])? != ROWS[at].2 {
            return ended(Some(at));
        }
    }
    Ok(())
}

// Of a full mask some places are clear again: the first free place each time, the next used one, and two runs.
fn clear_some(mask: &mut Mask) -> ([Option<usize>; 4], [FreeRun; 2])
    requires { length mask.old ≡ 130 }
{
    let none = mask.find_n_free(0, 1);
    mask.clear(127);
    mask.clear(3);
    let low = mask.find_n_free(0, 1);
    mask.set(3);
    let high = mask.find_n_free(0, 1);
    mask.clear(128);
    let used = mask.find_next_used(127);
    (
        [none, low, high, used],
        [mask.find_run(2), mask.find_run(3)],
    )
}

#[test]
fn finds_a_place_that_is_clear_again(rt: HostRuntime) -> Result<(), Fail> {
    let mut mask = mask_of(rt.alloc(), 130, 130, 0, 0)?;
    let runs = [
        FreeRun::Found { start: 127 },
        FreeRun::TooShort { longest: 2 },
    ];
    holds(clear_some(&mut mask) == ([None, Some(3), Some(127), Some(129)], runs))
}
