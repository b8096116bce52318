ghost use Rattle.std.specs.Prelude.{◌≡◌, ◌∷◌, ◌++◌, [], MatchOption, OnOk, OnErr};
ghost use Rattle.hp_chain.specs.Chain.{AreApart};
ghost use Rattle.hp_heap.specs.Headers.{spans_of};

use crate::headers::Headers;
use hp_base::Span;
use std::alloc::AllocError;
use std::marker::Model;

/// The elements of a heap that are left of a walk over them, by address. Contracts see it as their list. Own.
#[derive(Drop)]
pub struct Elements<'a> {
    // None where a heap had no room for elements yet.
    headers: Option<&'a Headers>,
    next: Option<usize>,
}

impl<'a> Model for Elements<'a> {
    ghost use Rattle.std.specs.Prelude.{List};
    ghost use Rattle.hp_base.specs.declared.span.Span.{Span};
    ghost use Rattle.hp_heap.specs.Headers.{spans_of};
    ghost use Rattle.hp_heap.specs.Walk.{IsWalk, items_seen, rest_from};

    ghost Value = { List Span };

    ghost view = { λ walk. spans_of (rest_from walk.next (items_seen walk.headers)) };

    ghost invariant = { λ walk. IsWalk (items_seen walk.headers) walk.next };
}

impl<'a> Elements<'a> {
    /// A walk from the first element on.
    pub(crate) fn new(headers: &'a Headers) -> Elements<'a>
        requires apart { AreApart headers.now.items }
        ensures { result ≡ spans_of headers.entry.now.items }
    {
        Elements {
            headers: Some(headers),
            next: headers.first(),
        }
    }

    /// A walk over no elements.
    pub(crate) fn none() -> Elements<'a>
        ensures { result ≡ [] }
    {
        Elements {
            headers: None,
            next: None,
        }
    }

    /// The next element, where one is left. Own.
    pub fn next(&mut self) -> Option<&'a Span>
        ensures { MatchOption result (self.old ≡ []) (λ span. self.old ≡ span.now ∷ self.new) }
    {
        let key = self.next?;
        let headers = self.headers?;
        let node = headers.get(key);
        self.next = node.next;
        Some(&node.span)
    }
}

/// Appends all elements, by address, or nothing.
pub fn append(headers: &Headers, out: &mut Vec<Span>) -> Result<(), AllocError>
    requires apart { AreApart headers.now.items }
    ensures elements { OnOk result (out.new.items ≡ out.old.items ++ spans_of headers.now.items) }
    ensures err { OnErr result (out.new.items ≡ out.old.items) }
{
    let len = out.len();
    let mut next = headers.first();
    while let Some(key) = next {
        let node = headers.get(key);
        if out.push(node.span).is_err() {
            out.truncate(len);
            return Err(AllocError);
        }
        next = node.next;
    }
    Ok(())
}
