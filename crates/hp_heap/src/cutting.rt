ghost use Rattle.std.specs.Prelude.{◌≡◌, ◌+◌, ◌<◌, ◌≤◌, ◌^◌, ◌++◌, ◌∷◌, true, MatchOption};
ghost use Rattle.hp_base.specs.declared.span.Span.{Span};
ghost use Rattle.hp_chain.specs.Chain.{Keyed, AreApart};
ghost use Rattle.hp_elem.specs.Items.{Items, IsAt};
ghost use Rattle.hp_heap.specs.Cut.{rests_of};
ghost use Rattle.hp_heap.specs.Step.{run_answer};
ghost use Rattle.hp_heap.specs.History.{IsCall};
ghost use Rattle.hp_heap.specs.Laws.{HasNoPagesAt, IsRunCut};
ghost use Rattle.hp_heap.specs.Headers.{spans_of};
ghost use Rattle.hp_heap.specs.Finding.{IsOfHeap};
ghost use Rattle.hp_heap.specs.PageLists.{AreListed};
ghost use Rattle.hp_heap.specs.PageCutting.{CanTakeOut, CutsOut, IsInSlots, bare_cut, insertions_cut, run_on};

use crate::body::{Body, record};
use crate::entry::{HeapAnswer, HeapCall};
use crate::finding::free_at;
use crate::headers::Headers;
use crate::page_list::{PageList, list_of};
use crate::pieces::{cut_before, cut_behind};
use crate::state::NO_TAG;
use crate::stretch::{cut_from, cut_to};
use hp_base::{Caller, Run, Span};

impl Body {
    // Takes whole pages out, as a heap does.
    pub(crate) fn cut_pages(&mut self, caller: Caller, addr: u64) -> Option<Run>
        requires spare { 0 < self.old.spare }

        // It is one step of the heap.
        ensures step { IsCall caller (HeapCall.Cut addr) (run_answer result) self.old self.new }

        // In the subject's words: the pages of the widest stretch that leaves such rests, or no page may go.
        ensures pages { MatchOption result (HasNoPagesAt addr self.old.plain) (IsRunCut addr self.old.plain) }
    {
        let run = cut(
            &mut self.headers,
            &self.page_lists,
            self.serves.is_some(),
            addr,
        );
        self.headers.sound();
        record(
            &mut self.history,
            caller,
            HeapCall::Cut { addr },
            run_answer(run),
        );
        self.spare -= 1;
        run
    }
}

// What the history has of a cut.
fn run_answer(run: Option<Run>) -> HeapAnswer
    ensures { result ≡ run_answer run }
{
    match run {
        Some(run) => HeapAnswer::Pages { run },
        None => HeapAnswer::Nothing,
    }
}

// Takes the whole pages out of the free element that contains an address, in the heap of a socket.
fn cut(headers: &mut Headers, lists: &[PageList], of_socket: bool, addr: u64) -> Option<Run>
    requires of_heap { IsOfHeap headers.old }
    requires listed { of_socket ≡ true → AreListed (spans_of headers.old.items) lists.now }
    requires spare { 2 ≤ headers.old.spare }
    requires stamps { headers.old.insertions + 2 < 2 ^ 64 }
    ensures cut { CutsOut lists.now of_socket addr headers.old headers.new result }
    ensures spare { headers.old.spare ≤ headers.new.spare + 2 }
    ensures more { headers.new.insertions ≤ headers.old.insertions + 2 }
    ensures apart { AreApart headers.new.items }
{
    if !of_socket {
        return None;
    }
    let Some(key) = free_at(headers, addr) else {
        return None;
    };
    let range = headers.get(key).span;
    let from = cut_from(&range);
    let to = cut_to(&range);
    if from >= to {
        return None;
    }
    let list = list_of(lists, range.list);
    take_out(headers, key, from, to);
    Some(run_of(&list, &range, from, to))
}

// Takes a stretch of pages out of a free element. What is left behind it becomes free first, then what is left before it.
fn take_out(headers: &mut Headers, key: usize, from: u64, to: u64)
    requires free { IsAt (CanTakeOut from to) key headers.old.items }
    requires apart { AreApart headers.old.items }
    requires spare { 2 ≤ headers.old.spare }
    requires stamps { headers.old.insertions + 2 < 2 ^ 64 }
    ensures ranges { (front back : Items) (e : Keyed Span) → headers.old.items ≡ front ++ e ∷ back → e.key ≡ key
        → spans_of headers.new.items ≡ spans_of front ++ (rests_of (bare_cut e.value from to) headers.old.insertions ++ spans_of back) }
    ensures insertions { (front back : Items) (e : Keyed Span) → headers.old.items ≡ front ++ e ∷ back → e.key ≡ key
        → headers.new.insertions ≡ insertions_cut e.value from to headers.old.insertions }
    ensures spare { headers.old.spare ≤ headers.new.spare + 2 }
    ensures more { headers.new.insertions ≤ headers.old.insertions + 2 }
    ensures apart { AreApart headers.new.items }
{
    let range = headers.get(key).span;
    headers.take(key, 0, 0, NO_TAG);
    cut_behind(headers, key, to < range.addr + range.whole, to);
    let middle = cut_before(headers, key, range.addr < from, from);
    headers.hide(middle);
}

// A stretch of an element's pages as a run of its list.
fn run_of(list: &PageList, range: &Span, from: u64, to: u64) -> Run
    requires { IsInSlots list.now range.now from to }
    ensures { result ≡ run_on list.now range.now from to }
{
    Run {
        list: range.list,
        first: ((from - list.base) / range.page) as u32,
        count: ((to - from) / range.page) as u32,
        addr: from,
        page: range.page,
        socket: list.socket,
    }
}
