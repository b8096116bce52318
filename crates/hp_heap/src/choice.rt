ghost use Rattle.std.specs.Prelude.{◌≡◌, true};
ghost use Rattle.hp_base.specs.Flags.{has_bit};
ghost use Rattle.hp_chain.specs.Chain.{has_key, AreApart};
ghost use Rattle.hp_elem.specs.Items.{IsAt};
ghost use Rattle.hp_heap.specs.Headers.{spans_of};
ghost use Rattle.hp_heap.specs.Joins.{HasRoom};
ghost use Rattle.hp_heap.specs.FreeSearch.{HasSpace, has_place, is_usable, is_suitable, FindsFirstSuitable, FindsChoice};

use crate::headers::Headers;
use hp_base::{Chunk, Request, Span, class_of, has_bit, is_fitting_page, is_hint, place};

/// What a free element must have for a request: a place, a page that fits its flags but where any page does, and, in an
/// external heap, a chunk that the participant has attached.
#[derive(Clone, Copy)]
pub struct Need {
    pub request: Request,
    pub any_page: bool,
    pub participant: u8,
    pub any_chunk: bool,
}

/// The free element that a request takes: of those with a page that fits its flags, or else of all where these are a
/// hint, the first in the order of the search.
pub fn choose(headers: &Headers, chunks: &[Chunk], need: Need) -> Option<usize>
    requires apart { AreApart headers.now.items }
    requires room { HasRoom (spans_of headers.now.items) }
    ensures { FindsChoice chunks.now need headers.now.items result }
{
    let found = first_suitable(headers, chunks, &need);
    if found.is_some() || !is_hint(need.request.flags) {
        return found;
    }
    let need = Need {
        any_page: true,
        ..need
    };
    first_suitable(headers, chunks, &need)
}

// The first free element, in the order of the search, that has what a request needs.
fn first_suitable(headers: &Headers, chunks: &[Chunk], need: &Need) -> Option<usize>
    requires apart { AreApart headers.now.items }
    requires room { HasRoom (spans_of headers.now.items) }
    ensures { FindsFirstSuitable chunks.now need.now headers.now.items result }
{
    let suits = |key: usize|
        requires known { has_key key headers.now.items ≡ true }
        requires room { HasRoom (spans_of headers.now.items) }
        ensures { IsAt (λ span. result ≡ is_suitable chunks.entry.now need.entry.now span) key headers.entry.now.items }
    { is_suitable_at(headers, key, chunks, need) };
    // The data of an element are fewer bytes than it has.
    let size = need.request.size;
    headers.first_above(class_of(size), size, suits)
}

fn is_suitable_at(headers: &Headers, key: usize, chunks: &[Chunk], need: &Need) -> bool
    requires known { has_key key headers.now.items ≡ true }
    requires room { HasRoom (spans_of headers.now.items) }
    ensures { IsAt (λ span. result ≡ is_suitable chunks.now need.now span) key headers.now.items }
{
    is_suitable(&headers.get(key).span, chunks, need)
}

fn is_suitable(range: &Span, chunks: &[Chunk], need: &Need) -> bool
    requires space { HasSpace range.now }
    ensures { result ≡ is_suitable chunks.now need.now range.now }
{
    has_place(range, &need.request)
        && (need.any_page || is_fitting_page(need.request.flags, range.page))
        && is_usable(range.list, chunks, need)
}

fn has_place(range: &Span, req: &Request) -> bool
    requires { HasSpace range.now }
    ensures { result ≡ has_place req.now range.now }
{
    // Most elements are too small, which a comparison shows faster.
    if range.whole <= req.size {
        return false;
    }
    place(range.addr, range.addr + range.whole, req).is_some()
}

// Whether elements of a segment list may be used: in an external heap those of a chunk that the participant has attached.
fn is_usable(list: u32, chunks: &[Chunk], need: &Need) -> bool
    ensures { result ≡ is_usable chunks.now need.now list }
{
    if need.any_chunk {
        return true;
    }
    for chunk in chunks {
        if chunk.list == list && has_attached(chunk.attached, need.participant) {
            return true;
        }
    }
    false
}

/// Whether a participant is among those that have attached a chunk.
pub fn has_attached(attached: u16, participant: u8) -> bool
    ensures { result ≡ has_bit attached participant }
{
    participant < 16 && has_bit(u32::from(attached), u32::from(participant))
}
