//! What the two do in their halls, and in any other: one asks for a page, and one serves until that has come out.
ghost use Rattle.std.specs.Prelude.{◌≡◌, ℕ, None};
ghost use Rattle.hp_serve.specs.InHall.{CanServe};

use super::shown::{Shown, shown_in};
use super::{HEAP, PAGE};
use hp_base::{MemMapper, NoLimits, Request, Run};
use hp_chair::Marks;
use hp_hall::{Hall, Waiting};
use hp_serve::{PagesAsked, Server, put_back, take_segments};
use std::alloc::AllocError;
use std::sync::Wait;
use std::thread;

/// What one of the two tells: the run that it was granted, where it asked; what the segment value shows in the end, where it served; and
/// how many records its table has taken in.
#[derive(Clone, Copy, PartialEq, Eq)]
pub struct Told {
    pub run: Option<Run>,
    pub shown: Option<Shown>,
    pub records: u64,
}

// It takes heap 0, which stays in its hand, and asks for a page in which that request has a place.
fn ask_for_a_page<H: Waiting>(
    hall: &mut H,
    party: &mut Server<'_, MemMapper>,
    request: Request,
) -> Result<Told, AllocError>
    requires can { CanServe party.old.me party.old (H.state hall.old) }
    requires home { (H.state hall.old).may_take 0 }
    requires unarmed { (heap : ℕ) → ((H.state hall.old).part party.old.me heap).armed ≡ None }
{
    let _ = hall.take(party.number(), HEAP);
    let asked = PagesAsked {
        heap: 0,
        socket: 0,
        page: PAGE,
        request,
    };
    let answered = party.ask(hall, &asked, &NoLimits)?;
    Ok(Told {
        run: answered.run,
        shown: None,
        records: party.records(),
    })
}

// It serves once, and may do so again.
fn serve<H: Hall>(hall: &mut H, party: &mut Server<'_, MemMapper>) -> Result<bool, AllocError>
    requires can { CanServe party.old.me party.old (H.state hall.old) }
    ensures can { CanServe party.new.me party.new (H.state hall.new) }
{
    party.serve(hall, &NoLimits)
}

// It serves until another has finished and nothing is left for it.
fn serve_all<H: Hall, R: Wait>(
    rt: &R,
    marks: &Marks,
    hall: &mut H,
    party: &mut Server<'_, MemMapper>,
) -> Result<(), AllocError>
    requires can { CanServe party.old.me party.old (H.state hall.old) }
    ensures can { CanServe party.new.me party.new (H.state hall.new) }
{
    for _ in rt.forever() {
        let finished = marks.finished() > 0;
        let served = serve(hall, party)?;
        if finished && !served {
            return Ok(());
        }
        thread::yield_now();
    }
    unreachable!()
}

// It takes the segment value, looks what that shows, and gives it back.
fn look<H: Hall>(hall: &mut H, party: &Server<'_, MemMapper>) -> Shown
    requires can { CanServe party.now.me party.now (H.state hall.old) }
{
    let me = party.number();
    let segs = take_segments(hall, me);
    let shown = shown_in(&segs);
    put_back(hall, me, segs);
    shown
}

// It serves until another has finished, and then looks at the segment value.
fn serve_and_look<H: Hall, R: Wait>(
    rt: &R,
    marks: &Marks,
    hall: &mut H,
    party: &mut Server<'_, MemMapper>,
) -> Result<Told, AllocError>
    requires can { CanServe party.old.me party.old (H.state hall.old) }
{
    serve_all(rt, marks, hall, party)?;
    Ok(Told {
        run: None,
        shown: Some(look(hall, party)),
        records: party.records(),
    })
}

/// It asks for a page where it has a request, and else it serves until another has finished.
pub fn play<H: Waiting, R: Wait>(
    rt: &R,
    marks: &Marks,
    hall: &mut H,
    party: &mut Server<'_, MemMapper>,
    request: Option<Request>,
) -> Result<Told, AllocError>
    requires can { CanServe party.old.me party.old (H.state hall.old) }
    requires home { (H.state hall.old).may_take 0 }
    requires unarmed { (heap : ℕ) → ((H.state hall.old).part party.old.me heap).armed ≡ None }
{
    match request {
        Some(request) => ask_for_a_page(hall, party, request),
        None => serve_and_look(rt, marks, hall, party),
    }
}
