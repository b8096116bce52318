//! The links of the index by tag, one for each key, and their writes.
ghost use Rattle.std.specs.Prelude.{◌≡◌, ℕ, ◌<◌, IfSome, vec_len};
ghost use Rattle.hp_chain.specs.Writes.{with_next, with_prev, with_place};
ghost use Rattle.hp_elem.specs.Tags.{place_of, place_at};

// How many keys there may be: their links have 32 bits.
pub(crate) const MAX_KEYS: usize = 1 << 32;

// What is kept of a key: the keys beside it in its bucket, and the number that it was filed under. A key with no number is in
// no bucket.
#[derive(Clone, Copy, Drop)]
pub(crate) struct Link {
    pub(crate) prev: Option<u32>,
    pub(crate) next: Option<u32>,
    pub(crate) number: Option<u32>,
}

// The link of a key in no bucket.
pub(crate) const UNLINKED: Link = Link {
    prev: None,
    next: None,
    number: None,
};

// Writes the next key of a key, where there is one.
pub(crate) fn set_next(links: &mut Vec<Link>, key: Option<u32>, next: Option<u32>)
    requires { IfSome key (λ k. k < vec_len links.old) }
    ensures places { place_at links.new.items ≡ with_next key next (place_at links.old.items) }
    ensures len { vec_len links.new ≡ vec_len links.old }
{
    if let Some(key) = key {
        links[key as usize].next = next;
    }
}

// Writes the previous key of a key, where there is one.
pub(crate) fn set_prev(links: &mut Vec<Link>, key: Option<u32>, prev: Option<u32>)
    requires { IfSome key (λ k. k < vec_len links.old) }
    ensures places { place_at links.new.items ≡ with_prev key prev (place_at links.old.items) }
    ensures len { vec_len links.new ≡ vec_len links.old }
{
    if let Some(key) = key {
        links[key as usize].prev = prev;
    }
}

// Writes what is kept of a key.
pub(crate) fn set_link(links: &mut Vec<Link>, key: usize, link: Link)
    requires { key < vec_len links.old }
    ensures places { place_at links.new.items ≡ with_place key (Some (place_of link)) (place_at links.old.items) }
    ensures len { vec_len links.new ≡ vec_len links.old }
{
    links[key] = link;
}
