ghost use Rattle.std.specs.Prelude.{◌≡◌, ℕ, ◌<◌, ◌≤◌, IfSome, OnOk, OnErr, max, vec_len};
ghost use Rattle.hp_chain.specs.Writes.{with_next, with_prev, with_place};
ghost use Rattle.hp_freelist.specs.declared.link.TheConstants.{MAX_KEYS};
ghost use Rattle.hp_freelist.specs.Links.{place_of, place_at, KeepsPlaces};

use std::alloc::AllocError;

/// How many keys there may be: their links have 32 bits.
pub const MAX_KEYS: usize = 1 << 32;

/// What is kept of a key: the keys beside it in its list, and its whole size. A key in no list has any link.
#[derive(Clone, Copy, Drop)]
pub struct Link {
    pub prev: Option<u32>,
    pub next: Option<u32>,
    pub whole: u64,
}

/// Writes the next key of a key, where there is one.
pub fn set_next(links: &mut Vec<Link>, key: Option<u32>, next: Option<u32>)
    requires { IfSome key (λ k. k < vec_len links.old) }
    ensures places { place_at links.new.items ≡ with_next key next (place_at links.old.items) }
    ensures len { vec_len links.new ≡ vec_len links.old }
{
    if let Some(key) = key {
        links[key as usize].next = next;
    }
}

/// Writes the previous key of a key, where there is one.
pub fn set_prev(links: &mut Vec<Link>, key: Option<u32>, prev: Option<u32>)
    requires { IfSome key (λ k. k < vec_len links.old) }
    ensures places { place_at links.new.items ≡ with_prev key prev (place_at links.old.items) }
    ensures len { vec_len links.new ≡ vec_len links.old }
{
    if let Some(key) = key {
        links[key as usize].prev = prev;
    }
}

/// Writes what is kept of a key.
pub fn set_link(links: &mut Vec<Link>, key: usize, link: Link)
    requires { key < vec_len links.old }
    ensures places { place_at links.new.items ≡ with_place key (Some (place_of link)) (place_at links.old.items) }
    ensures len { vec_len links.new ≡ vec_len links.old }
{
    links[key] = link;
}

/// Makes room for the keys below `n`, which have any link.
pub fn grow(links: &mut Vec<Link>, n: usize) -> Result<(), AllocError>
    ensures kept { KeepsPlaces links.old.items links.new.items }
    ensures room { OnOk result (n ≤ vec_len links.new) }
    ensures len { vec_len links.old ≤ vec_len links.new }
    ensures most { vec_len links.new ≤ max n (vec_len links.old) }
    ensures few { vec_len links.old ≤ MAX_KEYS → vec_len links.new ≤ MAX_KEYS }
    ensures err { OnErr result (vec_len links.new ≡ vec_len links.old) }
{
    if n <= links.len() {
        return Ok(());
    }
    if n > MAX_KEYS {
        return Err(AllocError);
    }
    let unlinked = Link {
        prev: None,
        next: None,
        whole: 0,
    };
    links.resize(n, unlinked)
}
