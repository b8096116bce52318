ghost use Rattle.std.specs.Prelude.{◌≡◌, ◌+◌, ◌<◌, ◌≤◌, true, false, is_none, if◌then◌else◌, slice_set, vec_len};
ghost use Rattle.hp_freelist.specs.declared.link.TheConstants.{MAX_KEYS};
ghost use Rattle.hp_freelist.specs.Lists.{list_class, is_listed, with_head, without};
ghost use Rattle.hp_freelist.specs.Links.{lists_of, IsLinked, IsLinkOf};

use crate::heads::Heads;
use crate::link::{Link, set_link, set_next, set_prev};
use hp_base::{HEADER, LINE, class_of};

/// Inserts a key at the head of the list of its class.
pub fn insert(links: &mut Vec<Link>, heads: &mut Heads, key: usize, whole: u64)
    requires linked { IsLinked links.old.items heads.old (lists_of links.old.items heads.old) }
    requires room { key < vec_len links.old }
    requires unlisted { is_listed key (lists_of links.old.items heads.old) ≡ false }
    requires least { HEADER + LINE ≤ whole }
    requires few { vec_len links.old ≤ MAX_KEYS }
    ensures linked { IsLinked links.new.items heads.new (with_head key whole (lists_of links.old.items heads.old)) }
    ensures len { vec_len links.new ≡ vec_len links.old }
{
    let class = class_of(whole - HEADER);
    let next = heads.first(class);
    let head = Some(key as u32);
    set_prev(links, next, head);
    let link = Link {
        prev: None,
        next,
        whole,
    };
    set_link(links, key, link);
    heads.set(class, head);
}

/// Takes a key out of its list: the two beside it name each other.
pub fn take_out(links: &mut Vec<Link>, heads: &mut Heads, key: usize)
    requires linked { IsLinked links.old.items heads.old (lists_of links.old.items heads.old) }
    requires listed { is_listed key (lists_of links.old.items heads.old) ≡ true }
    ensures linked { IsLinked links.new.items heads.new (without key (lists_of links.old.items heads.old)) }
    ensures len { vec_len links.new ≡ vec_len links.old }
{
    let link = link_of(links, heads, key);
    set_next(links, link.prev, link.next);
    set_prev(links, link.next, link.prev);
    lead(heads, link);
}

/// What is kept of a key that is in a list.
fn link_of(links: &Vec<Link>, heads: &Heads, key: usize) -> Link
    requires linked { IsLinked links.now.items heads.now (lists_of links.now.items heads.now) }
    requires listed { is_listed key (lists_of links.now.items heads.now) ≡ true }
    ensures { IsLinkOf links.now.items (vec_len links.now) key result }
{
    links[key]
}

/// Where a key that leaves its list is the first of it, the next one becomes the first.
fn lead(heads: &mut Heads, link: Link)
    requires { HEADER + LINE ≤ link.whole }
    ensures { heads.new ≡ (if is_none link.prev then slice_set heads.old (list_class link.whole) link.next else heads.old) }
{
    if link.prev.is_none() {
        heads.set(class_of(link.whole - HEADER), link.next);
    }
}
