//! The indexes of memzones in their log, in the order of reservation and in that of their names.
ghost use Rattle.std.specs.Prelude.{◌≡◌, ◌+◌, ◌<◌, ◌≤◌, ◌==◌, IfOk, IfErr, vec_len, vec_capacity, position};
ghost use Rattle.std.specs.List.{Contains, insert};
ghost use Rattle.hp_zone.specs.Places.{Files, IsAt, IsByName, IsGap, IsPut, IsUnknown, TakesOut, compare, name_at, zone_at};

use crate::zone::{Zone, ZoneChange};
use std::cmp::Ordering;

// The zone that the change at an index put.
pub(crate) fn zone_at(log: &[ZoneChange], index: usize) -> &Zone
    requires { IsPut log.now index }
    ensures { result.now ≡ zone_at log.now index }
{
    match &log[index] {
        ZoneChange::Put { zone } => zone,
        ZoneChange::Gone { .. } => unreachable!(),
    }
}

// The name of that zone, and no byte where the change put none.
fn name_at(log: &[ZoneChange], index: usize) -> &[u8]
    ensures { result.now ≡ name_at log.now index }
{
    match log.get(index) {
        Some(ZoneChange::Put { zone }) => zone.name.as_bytes(),
        _ => &[],
    }
}

// How that name compares with another one.
fn compare_at(log: &[ZoneChange], index: usize, name: &[u8]) -> Ordering
    ensures { result ≡ compare (name_at log.now index) name.now }
{
    name_at(log, index).cmp(name)
}

// Where the index of the zone of a name stands, or where it would stand.
pub(crate) fn place_of(log: &[ZoneChange], by_name: &[usize], name: &[u8]) -> Result<usize, usize>
    requires { IsByName log.now by_name.now }
    ensures found { IfOk result (IsAt log.now by_name.now name.now) }
    ensures absent { IfErr result (IsGap log.now by_name.now name.now) }
{
    by_name.binary_search_by(|index| compare_at(log, *index, name))
}

// Files the index of a zone of a name that none has yet, for which there is memory.
pub(crate) fn file(log: &[ZoneChange], by_name: &mut Vec<usize>, name: &[u8], index: usize)
    requires sorted { IsByName log.now by_name.old.items }
    requires fresh { IsUnknown log.now by_name.old.items name.now }
    requires room { vec_len by_name.old < vec_capacity by_name.old }
    ensures filed { Files log.now by_name.old.items by_name.new.items name.now index }
    ensures len { vec_len by_name.new ≡ vec_len by_name.old + 1 }
    ensures capacity { vec_capacity by_name.new ≡ vec_capacity by_name.old }
{
    let Err(at) = place_of(log, by_name, name) else {
        unreachable!()
    };
    put_index(by_name, at, index);
}

// One index more, for which there is memory.
fn put_index(by_name: &mut Vec<usize>, at: usize, index: usize)
    requires within { at ≤ vec_len by_name.old }
    requires room { vec_len by_name.old < vec_capacity by_name.old }
    ensures items { by_name.new.items ≡ insert by_name.old.items at index }
    ensures len { vec_len by_name.new ≡ vec_len by_name.old + 1 }
    ensures capacity { vec_capacity by_name.new ≡ vec_capacity by_name.old }
{
    let _put = by_name.insert(at, index);
}

// Takes an index out.
pub(crate) fn take_out(order: &mut Vec<usize>, index: usize)
    requires { Contains order.old.items index }
    ensures taken { TakesOut order.old.items order.new.items index }
    ensures len { vec_len order.new + 1 ≡ vec_len order.old }
    ensures capacity { vec_capacity order.new ≡ vec_capacity order.old }
{
    let Some(at) = place_in(order, index) else {
        unreachable!()
    };
    let _index = order.remove(at);
}

// Where an index stands.
fn place_in(order: &[usize], index: usize) -> Option<usize>
    ensures { result ≡ position (λ other. other == index) order.now }
{
    order.iter().position(|other| *other == index)
}
