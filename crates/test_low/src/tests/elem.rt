//! Worked values of the elements' calls.
ghost use Rattle.std.specs.Prelude.{◌≡◌, ◌≤◌, [], true};
ghost use Rattle.hp_chain.specs.Chain.{has_key};
ghost use Rattle.hp_elem.specs.Worked.{free_span, busy_span};

use super::holds;
use Look::*;
use hp_base::{Span, SpanState, Tag};
use hp_elem::Elems;
use std::alloc::{AllocError, Global};
use std::test::Fail;

// A free element of segment list 3, as pages of 2 MiB bring it.
fn free(addr: u64, whole: u64) -> Span
    ensures { result ≡ free_span addr whole }
{
    Span {
        addr,
        whole,
        list: 3,
        page: 2 << 20,
        state: SpanState::Free { stamp: 0 },
    }
}

// An element that is busy with a tag, with no pad.
fn busy(addr: u64, whole: u64, tag: Tag) -> Span
    ensures { result ≡ busy_span addr whole tag }
{
    Span {
        addr,
        whole,
        list: 3,
        page: 2 << 20,
        state: SpanState::Busy {
            pad: 0,
            size: 256,
            tag,
        },
    }
}

const TAG: Tag = Tag {
    who: 1,
    zone: false,
    number: 7,
};

// The tag above, asked for by another participant, which is not compared.
const OTHER: Tag = Tag { who: 2, ..TAG };

const LATER: Tag = Tag {
    number: 1007,
    ..TAG
};

// What is looked for, with the element that is found: that which came in this place, counted from 0, or none.
#[derive(Clone, Copy)]
enum Look {
    // The element of lowest address.
    First(Option<usize>),
    // The element that contains an address.
    At(u64, Option<usize>),
    // The element that begins at an address.
    Starts(u64, Option<usize>),
    // The first element that is busy with a tag.
    Tagged(Tag, Option<usize>),
    // How many there are.
    Count(usize),
    // The least end of keys.
    Keys(usize),
}

// The key of the element that came in that place.
fn key_of(keys: &[usize], which: Option<usize>) -> Option<usize> {
    keys.get(which?).copied()
}

fn is_so(elems: &Elems, keys: &[usize], look: Look) -> bool {
    match look {
        Look::First(which) => elems.first() == key_of(keys, which),
        Look::At(addr, which) => elems.at(addr) == key_of(keys, which),
        Look::Starts(addr, which) => elems.starting_at(addr) == key_of(keys, which),
        Look::Tagged(tag, which) => elems.find_tag(tag) == key_of(keys, which),
        Look::Count(count) => elems.len() == count,
        Look::Keys(least) => elems.key_end() >= least,
    }
}

// Whether each of these is found so, where the elements have those keys in the order in which they came.
fn are_so(elems: &Elems, keys: &[usize], looks: &[Look]) -> bool {
    for at in 0..looks.len() {
        if !is_so(elems, keys, looks[at]) {
            return false;
        }
    }
    true
}

fn has_span(elems: &Elems, key: usize, span: Span) -> bool
    requires { has_key key elems.now.items ≡ true }
{
    elems.get(key).span == span
}

fn has_state(elems: &Elems, key: usize, state: SpanState) -> bool
    requires { has_key key elems.now.items ≡ true }
{
    elems.get(key).span.state == state
}

fn has_next(elems: &Elems, key: usize, next: usize) -> bool
    requires { has_key key elems.now.items ≡ true }
{
    elems.get(key).next == Some(next)
}

const WHEN_CUT: &[Look] = &[At(0x13ff, Some(1))];

const WHEN_JOINED: &[Look] = &[First(Some(0)), At(0x13ff, Some(0)), At(0x1400, None)];

// An element is cut in two, and these are one again.
fn cut(elems: &mut Elems) -> [bool; 6]
    requires room { 2 ≤ elems.old.spare }
    requires nothing { elems.old.items ≡ [] }
{
    let key = elems.add(free(0x1000, 0x400));
    let second = elems.split(key, 0x1100);
    let low = has_span(elems, key, free(0x1000, 0x100));
    let high = has_span(elems, second, free(0x1100, 0x300));
    let linked = has_next(elems, key, second);
    let when_cut = are_so(elems, &[key, second], WHEN_CUT);
    elems.join_next(key);
    let whole = has_span(elems, key, free(0x1000, 0x400));
    let when_joined = are_so(elems, &[key], WHEN_JOINED);
    [low, high, linked, when_cut, whole, when_joined]
}

const THREE: &[Look] = &[First(Some(1)), At(0x2080, Some(2)), At(0x3fff, Some(0))];

const TWO_OF_THREE: &[Look] = &[
    Count(2),
    At(0x2000, None),
    Starts(0x2000, None),
    At(0x2fff, None),
    At(0x3000, Some(0)),
    Starts(0x3000, Some(0)),
    Keys(3),
];

// Three elements, of which the middle one is hidden.
fn hide_one(elems: &mut Elems) -> [bool; 2]
    requires room { 3 ≤ elems.old.spare }
    requires nothing { elems.old.items ≡ [] }
{
    let high = elems.add(free(0x3000, 0x1000));
    let low = elems.add(free(0x1000, 0x1000));
    let middle = elems.add(free(0x2000, 0x1000));
    let three = are_so(elems, &[high, low, middle], THREE);
    elems.hide(middle);
    [three, are_so(elems, &[high, low, middle], TWO_OF_THREE)]
}

const UNTAGGED: &[Look] = &[Tagged(TAG, None)];

const HIGH_TAGGED: &[Look] = &[Tagged(OTHER, Some(1)), At(0x40c0, Some(1))];

const LOW_TAGGED: &[Look] = &[Tagged(TAG, Some(0))];

// Two elements get one tag, the higher one first, and are free again.
fn tag_two(elems: &mut Elems) -> [bool; 6]
    requires room { 2 ≤ elems.old.spare }
    requires nothing { elems.old.items ≡ [] }
    requires no_stamp { elems.old.stamps ≡ 0 }
{
    let low = elems.add(free(0x1000, 0x1000));
    let high = elems.add(free(0x4000, 0x1000));
    let keys = [low, high];
    let untagged = are_so(elems, &keys, UNTAGGED);
    elems.set_busy(high, 64, 0x100, TAG);
    let one = are_so(elems, &keys, HIGH_TAGGED);
    elems.set_busy(low, 0, 0x100, OTHER);
    let both = are_so(elems, &keys, LOW_TAGGED);
    elems.set_free(low);
    let first = has_state(elems, low, SpanState::Free { stamp: 1 });
    elems.set_free(high);
    let second = has_state(elems, high, SpanState::Free { stamp: 2 });
    [
        untagged,
        one,
        both,
        first,
        second,
        are_so(elems, &keys, UNTAGGED),
    ]
}

const LATER_TAGGED: &[Look] = &[Tagged(TAG, Some(1)), Tagged(LATER, Some(0))];

const ONE_TAGGED: &[Look] = &[Tagged(TAG, Some(1))];

// Room is made when one element has a tag. Then one below it gets the tag, and another one.
fn tag_after_reserve(elems: &mut Elems) -> Result<[bool; 5], AllocError>
    requires room { 1 ≤ elems.old.spare }
    requires nothing { elems.old.items ≡ [] }
    requires no_stamp { elems.old.stamps ≡ 0 }
{
    let high = elems.add(free(0x4000, 0x1000));
    elems.set_busy(high, 0, 0x100, TAG);
    elems.reserve(9)?;
    let one = are_so(elems, &[high, high], ONE_TAGGED);
    let low = elems.add(busy(0x1000, 0x1000, TAG));
    let keys = [low, high];
    let both = are_so(elems, &keys, LOW_TAGGED);
    elems.set_free(low);
    let freed = are_so(elems, &keys, ONE_TAGGED);
    elems.set_busy(low, 0, 0x100, TAG);
    let again = are_so(elems, &keys, LOW_TAGGED);
    elems.set_busy(low, 0, 0x100, LATER);
    Ok([one, both, freed, again, are_so(elems, &keys, LATER_TAGGED)])
}

// A busy element is cut, its first part is freed, and the other one is hidden.
fn cut_busy(elems: &mut Elems) -> [bool; 3]
    requires room { 2 ≤ elems.old.spare }
    requires nothing { elems.old.items ≡ [] }
    requires no_stamp { elems.old.stamps ≡ 0 }
{
    let key = elems.add(busy(0x1000, 0x400, TAG));
    let second = elems.split(key, 0x1100);
    let keys = [key, second];
    let first = are_so(elems, &keys, LOW_TAGGED);
    elems.set_free(key);
    let rest = are_so(elems, &keys, ONE_TAGGED);
    elems.hide(second);
    [first, rest, are_so(elems, &keys, UNTAGGED)]
}

// What is done with elements of which there are none yet.
#[derive(Clone, Copy)]
enum Play {
    Cut,
    HideOne,
    TagTwo,
    CutBusy,
}

// Whether all comes out as it has to.
fn do_play(elems: &mut Elems, play: Play) -> bool
    requires room { 3 ≤ elems.old.spare }
    requires nothing { elems.old.items ≡ [] }
    requires no_stamp { elems.old.stamps ≡ 0 }
{
    match play {
        Play::Cut => cut(elems) == [true; 6],
        Play::HideOne => hide_one(elems) == [true; 2],
        Play::TagTwo => tag_two(elems) == [true; 6],
        Play::CutBusy => cut_busy(elems) == [true; 3],
    }
}

// Whether all comes out as it has to, from no elements on, with room for three.
fn plays(alloc: Global, play: Play) -> Result<bool, AllocError> {
    let mut elems = Elems::new(alloc);
    elems.reserve(3)?;
    Ok(do_play(&mut elems, play))
}

#[test]
fn cuts_an_element_and_joins_it_again(rt: HostRuntime) -> Result<(), Fail> {
    holds(plays(rt.alloc(), Play::Cut)?)
}

#[test]
fn keeps_elements_by_address(rt: HostRuntime) -> Result<(), Fail> {
    holds(plays(rt.alloc(), Play::HideOne)?)
}

#[test]
fn finds_the_lowest_with_a_tag(rt: HostRuntime) -> Result<(), Fail> {
    holds(plays(rt.alloc(), Play::TagTwo)?)
}

#[test]
fn finds_each_part_of_a_busy_element(rt: HostRuntime) -> Result<(), Fail> {
    holds(plays(rt.alloc(), Play::CutBusy)?)
}

// Whether all comes out as it has to with room for one, until more is made.
fn plays_after_reserve(alloc: Global) -> Result<bool, AllocError> {
    let mut elems = Elems::new(alloc);
    elems.reserve(1)?;
    Ok(tag_after_reserve(&mut elems)? == [true; 5])
}

#[test]
fn finds_tags_after_a_reserve(rt: HostRuntime) -> Result<(), Fail> {
    holds(plays_after_reserve(rt.alloc())?)
}
