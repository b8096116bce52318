ghost use Rattle.std.specs.Prelude.{◌≡◌, ◌+◌, ◌<◌, ◌≤◌, ◌^◌};
ghost use Rattle.hp_chain.specs.Chain.{AreApart};
ghost use Rattle.hp_elem.specs.Order.{FitsBeside};
ghost use Rattle.hp_heap.specs.PlainHeap.{freed};
ghost use Rattle.hp_heap.specs.Joining.{with_stretch};
ghost use Rattle.hp_heap.specs.Headers.{IsBusy, spans_of};
ghost use Rattle.hp_heap.specs.Joins.{IsJoinable};
ghost use Rattle.hp_heap.specs.Allowed.{IsAllowed};
ghost use Rattle.hp_heap.specs.History.{IsCall};

use crate::body::{Body, record};
use crate::entry::{HeapAnswer, HeapCall};
use crate::headers::Headers;
use crate::joining::insert_joined;
use crate::page_list::note;
use crate::state::NO_TAG;
use hp_base::{Caller, Run, Span, SpanState};

impl Body {
    // Adds the pages of a run, as a heap does.
    pub(crate) fn add_run(&mut self, caller: Caller, run: &Run)
        requires allowed { IsAllowed caller.participant (HeapCall.Grow run.now) self.old.plain }
        requires spare { 0 < self.old.spare }
        ensures { IsCall caller (HeapCall.Grow run.now) HeapAnswer.Done self.old self.new }
    {
        let range = Span {
            addr: run.addr,
            whole: u64::from(run.count) * run.page,
            list: run.list,
            page: run.page,
            state: SpanState::Busy {
                pad: 0,
                size: 0,
                tag: NO_TAG,
            },
        };
        insert_new(&mut self.headers, range);
        self.headers.sound();
        note(&mut self.page_lists, run);
        record(
            &mut self.history,
            caller,
            HeapCall::Grow { run: *run },
            HeapAnswer::Done,
        );
        self.spare -= 1;
    }
}

/// Adds an element, which becomes free as one with the free elements of its list that touch it.
pub fn insert_new(headers: &mut Headers, range: Span)
    requires busy { IsBusy range }
    requires least { 192 ≤ range.whole }
    requires fits { FitsBeside range headers.old.items }
    requires spare { 0 < headers.old.spare }
    requires joinable { IsJoinable (spans_of headers.old.items) }
    requires stamps { headers.old.insertions + 1 < 2 ^ 64 }
    ensures ranges { spans_of headers.new.items ≡ with_stretch (freed (headers.old.insertions + 1) range) (spans_of headers.old.items) }
    ensures insertions { headers.new.insertions ≡ headers.old.insertions + 1 }
    ensures spare { headers.new.spare + 1 ≡ headers.old.spare }
    ensures apart { AreApart headers.new.items }
{
    let key = headers.add(range);
    insert_joined(headers, key);
}
