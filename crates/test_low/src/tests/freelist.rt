//! Worked values of the free lists' calls.
ghost use Rattle.std.specs.Prelude.{◌≡◌, ◌≤◌, true};
ghost use Rattle.hp_freelist.specs.Lists.{empty_lists, is_listed};

use super::{ended, holds};
use hp_freelist::Lists;
use std::alloc::{AllocError, Global};
use std::test::Fail;

// The keys 0 to 3 come. Whole sizes of 384 bytes have 256 behind the header, which class 0 just holds, and whole sizes of 448 are
// of class 1: the lists are 3, 2, 0 and 1.
fn insert_four(lists: &mut Lists)
    requires room { 4 ≤ lists.old.room }
    requires nothing { lists.old.lists ≡ empty_lists }
    ensures room { lists.new.room ≡ lists.old.room }
    ensures listed { (is_listed 1 lists.new.lists ≡ true) × (is_listed 2 lists.new.lists ≡ true)
        × (is_listed 3 lists.new.lists ≡ true) × (is_listed 0 lists.new.lists ≡ true) }
{
    lists.insert_head(0, 192);
    lists.insert_head(1, 448);
    lists.insert_head(2, 384);
    lists.insert_head(3, 384);
}

// Which keys pass a test.
#[derive(Clone, Copy)]
enum Test {
    All,
    Below(usize),
    Only(usize),
    Not(usize),
}

// What is looked for, with the key that is found.
#[derive(Clone, Copy)]
enum Look {
    // The first key, from the list of a class on, that passes.
    From(u8, Test, Option<usize>),
    // The key of the greatest whole size.
    Greatest(Option<usize>),
}

fn first(lists: &Lists, class: u8, test: Test) -> Option<usize> {
    if class > 12 {
        return None;
    }
    match test {
        Test::All => lists.first_from(class, |_key| true),
        Test::Below(end) => lists.first_from(class, |key| key < end),
        Test::Only(one) => lists.first_from(class, |key| key == one),
        Test::Not(one) => lists.first_from(class, |key| key != one),
    }
}

fn is_so(lists: &Lists, look: Look) -> bool {
    match look {
        Look::From(class, test, key) => first(lists, class, test) == key,
        Look::Greatest(key) => lists.greatest() == key,
    }
}

// The first of these that is found otherwise.
fn otherwise(lists: &Lists, looks: &[Look]) -> Option<usize> {
    for at in 0..looks.len() {
        if !is_so(lists, looks[at]) {
            return Some(at);
        }
    }
    None
}

const FOUR: &[Look] = &[
    Look::From(0, Test::All, Some(3)),
    Look::From(0, Test::Below(3), Some(2)),
    Look::From(0, Test::Only(1), Some(1)),
    Look::From(1, Test::All, Some(1)),
    Look::From(1, Test::Only(3), None),
    Look::From(2, Test::All, None),
    Look::Greatest(Some(1)),
];

const NONE: &[Look] = &[Look::Greatest(None), Look::From(12, Test::All, None)];

// What is found among no keys, and then among four.
fn found(alloc: Global) -> Result<(Option<usize>, Option<usize>), AllocError> {
    let mut lists = Lists::new(alloc);
    lists.reserve(4)?;
    let none = otherwise(&lists, NONE);
    insert_four(&mut lists);
    Ok((none, otherwise(&lists, FOUR)))
}

#[test]
fn finds_the_last_inserted_of_the_least_class(rt: HostRuntime) -> Result<(), Fail> {
    ended(found(rt.alloc())?.1)
}

#[test]
fn gives_the_greatest_and_of_several_the_first(rt: HostRuntime) -> Result<(), Fail> {
    ended(found(rt.alloc())?.0)
}

// What is found once each key goes, and then one comes with another size.
fn remove_each(lists: &mut Lists) -> [Option<usize>; 5]
    requires room { 4 ≤ lists.old.room }
    requires listed { (is_listed 1 lists.old.lists ≡ true) × (is_listed 2 lists.old.lists ≡ true)
        × (is_listed 3 lists.old.lists ≡ true) × (is_listed 0 lists.old.lists ≡ true) }
{
    lists.remove(1);
    let greatest = lists.greatest();
    lists.remove(2);
    let other = first(lists, 0, Test::Not(3));
    lists.remove(3);
    let last = first(lists, 0, Test::All);
    lists.remove(0);
    let none = first(lists, 0, Test::All);
    lists.insert_head(0, 1 << 40);
    [greatest, other, last, none, first(lists, 12, Test::All)]
}

fn removed(alloc: Global) -> Result<[Option<usize>; 5], AllocError> {
    let mut lists = Lists::new(alloc);
    lists.reserve(4)?;
    insert_four(&mut lists);
    Ok(remove_each(&mut lists))
}

#[test]
fn forgets_a_key_that_was_removed(rt: HostRuntime) -> Result<(), Fail> {
    holds(removed(rt.alloc())? == [Some(3), Some(0), Some(0), None, Some(0)])
}
