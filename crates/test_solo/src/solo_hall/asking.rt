//! How the one that does a line asks for a page for heap 0 in any hall, and gives it up again: a call each.
ghost use Rattle.std.specs.Prelude.{◌≡◌, ◌≤◌, IfOk, IfSome};
ghost use Rattle.hp_heap.specs.Growing.{CanGrow, after_grow};
ghost use Rattle.hp_heap.specs.Laws.{IsRunCut};
ghost use Rattle.hp_serve.specs.Asking.{GrowsHeld};
ghost use Rattle.hp_serve.specs.InHall.{CanServe};
ghost use Rattle.hp_solo.specs.SoloAsks.{IsInHand, MayGiveUp};
ghost use Rattle.test_solo.specs.Asking.{MayAsk, MayBegin};

use crate::tests::PAGE;
use hp_base::{Caller, MemMapper, NoLimits, Request, Run};
use hp_hall::{Hall, Slot, Waiting};
use hp_heap::Heap;
use hp_serve::{PagesAsked, Server};
use std::alloc::AllocError;

/// It takes heap 0.
pub fn take_heap<H: Hall>(hall: &mut H, party: &Server<'_, MemMapper>) -> Heap
    requires begins { MayBegin party.now (H.state hall.old) }
    ensures may { MayAsk party.now (H.state hall.new) }
    ensures heap { IsInHand ((H.state hall.new).part party.now.me) result.plain }
{
    let (heap, _pen) = hall.take(party.number(), Slot::Heap(0)).into_heap();
    heap
}

/// It asks for a page, in which that request has a place, for the heap that it holds.
pub fn ask_for_page<H: Waiting>(
    hall: &mut H,
    party: &mut Server<'_, MemMapper>,
    request: Request,
) -> Result<Option<Run>, AllocError>
    requires may { MayAsk party.old (H.state hall.old) }
    ensures can { CanServe party.new.me party.new (H.state hall.new) }
    ensures grows { IfOk result (λ run.
        GrowsHeld 0 run ((H.state hall.old).part party.old.me 0) ((H.state hall.new).part party.old.me 0)) }
    ensures me { party.new.me ≡ party.old.me }
{
    let asked = PagesAsked {
        heap: 0,
        socket: 0,
        page: PAGE,
        request,
    };
    let answered = party.ask(hall, &asked, &NoLimits)?;
    Ok(answered.run)
}

// A run comes to a heap, and what can be is cut from there again.
fn grow_and_cut(heap: &mut Heap, me: u8, run: &Run) -> Option<Run>
    requires may { CanGrow run.now heap.old.plain }
    requires spare { 2 ≤ heap.old.spare }
    ensures { IfSome result (IsRunCut run.now.addr (after_grow run.now heap.old.plain)) }
{
    let grown = Caller {
        participant: me,
        number: 1,
    };
    let cut = Caller {
        participant: me,
        number: 2,
    };
    heap.add_run(grown, run);
    heap.cut_pages(cut, run.addr)
}

/// It asks for a page for the heap in its hand, which has room for two calls: the page comes to the heap, and is cut from there again.
pub fn cut_granted<H: Waiting>(
    hall: &mut H,
    party: &mut Server<'_, MemMapper>,
    heap: &mut Heap,
    request: Request,
) -> Result<Option<Run>, AllocError>
    requires may { MayAsk party.old (H.state hall.old) }
    requires heap { IsInHand ((H.state hall.old).part party.old.me) heap.old.plain }
    requires spare { 2 ≤ heap.old.spare }
    ensures can { CanServe party.new.me party.new (H.state hall.new) }
    ensures cut { IfOk result (λ run. IfSome run (MayGiveUp ((H.state hall.new).part party.new.me))) }
{
    let me = party.number();
    match ask_for_page(hall, party, request)? {
        None => Ok(None),
        Some(run) => Ok(grow_and_cut(heap, me, &run)),
    }
}

/// It gives a run up that was cut.
pub fn retire<H: Hall>(hall: &mut H, party: &Server<'_, MemMapper>, run: &Run)
    requires can { CanServe party.now.me party.now (H.state hall.old) }
    requires cut { MayGiveUp ((H.state hall.old).part party.now.me) run.now }
    ensures can { CanServe party.now.me party.now (H.state hall.new) }
{
    party.retire(hall, 0, run);
}

/// It tells that it gave a run up.
pub fn notify<H: Waiting>(
    hall: &mut H,
    party: &mut Server<'_, MemMapper>,
    run: &Run,
) -> Result<(), AllocError>
    requires can { CanServe party.old.me party.old (H.state hall.old) }
    ensures can { CanServe party.new.me party.new (H.state hall.new) }
{
    party.notify(hall, 0, run, &NoLimits)
}
