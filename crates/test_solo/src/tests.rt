//! Two participants in a hall of plain values, by hand: what each serving does, what it leaves in the log, and in which tables.
ghost use Rattle.std.specs.Prelude.{◌≡◌, ◌<◌, ℕ, List, [], ◌∷◌, None, Some, IfOk, slice_get, true};
ghost use Rattle.hp_base.specs.declared.limits.TheConstants.{MAX_PARTICIPANTS};
ghost use Rattle.hp_hall.specs.HallState.{OthersStay, SlotsStayBut};
ghost use Rattle.hp_plain.specs.Opening.{AreInOrder, AreUnused};
ghost use Rattle.hp_heap.specs.History.{HeapView};
ghost use Rattle.hp_heap.specs.PlainHeap.{opening_heap};
ghost use Rattle.hp_log.specs.declared.log_record.LogRecord.{LogRecord};
ghost use Rattle.hp_segs.specs.Opening.{opening};
ghost use Rattle.hp_serve.specs.SegmentSlot.{MarksStay, MayHold};
ghost use Rattle.hp_serve.specs.Tied.{IsTied, no_chunks, nothing_yet};
ghost use Rattle.hp_solo.specs.Solo.{marked_at};
ghost use Rattle.hp_solo.specs.SoloAsks.{IsOpening};
ghost use Rattle.hp_zone.specs.Directory.{opened};
ghost use Rattle.hp_zone.specs.Zones.{no_zones};

mod acts;
mod asks;
mod attaching;
mod ends;
mod frames;
mod growths;
mod playing;
pub(crate) mod shown;
mod stage;

use hp_base::{MAX_HEAPS, MAX_SEGMENTS, MemMapper, MsgKind, Plan, PlanEntry, PoolLine, Request};
use hp_hall::{Hall, Slot};
use hp_heap::Heap;
use hp_maps::{LocalMaps, Planned};
use hp_plain::PlainHall;
use hp_segs::Segs;
use hp_serve::{Decision, Limits, PagesAsked, Server, arm};
use hp_zone::Names;
use std::alloc::{AllocError, Global};
use std::test::Fail;

pub(crate) const PAGE: u64 = 0x20_0000;

// Where the first list begins.
pub(crate) const BASE: u64 = 0x1_0000_0000;

// How long participants wait for others, in milliseconds.
const DEADLINE: u64 = 200;

// A heap without memory: the first one is that of socket 0.
fn empty_heap(alloc: Global, index: u32) -> Heap
    ensures opened { result.plain ≡ opening_heap index (slice_get (0 ∷ []) index) }
    ensures unused { result.history ≡ [] }
{
    if index == 0 {
        Heap::socket(alloc, index, 0)
    } else {
        Heap::vacant(alloc, index)
    }
}

// All heaps, without memory.
fn empty_heaps(alloc: Global) -> Result<Vec<Heap>, AllocError>
    ensures order { IfOk result (λ heaps. AreInOrder heaps.items) }
    ensures unused { IfOk result (λ heaps. AreUnused heaps.items) }
    ensures opened { IfOk result (λ heaps. (number : ℕ) (heap : HeapView) → slice_get heaps.items number ≡ Some heap
        → heap.plain ≡ opening_heap number (slice_get (0 ∷ []) number)) }
{
    let mut heaps = Vec::with_capacity(alloc, MAX_HEAPS)?;
    for index in 0..MAX_HEAPS as u32 {
        heaps.push_reserved(empty_heap(alloc, index));
    }
    Ok(heaps)
}

// What each of the two asks for: a page of 2M for heap 0.
pub(crate) fn first_page() -> Result<PagesAsked, Fail>
    ensures { IfOk result (λ asked. asked.heap ≡ 0) }
{
    let request = Request::new(1000, 0, 0, 0).ok().ok_or("a good request")?;
    Ok(PagesAsked {
        heap: 0,
        socket: 0,
        page: PAGE,
        request,
    })
}

// The names of these heaps.
fn opening_names(alloc: Global) -> Result<Names, AllocError>
    ensures heaps { IfOk result (λ names. names.heaps ≡ opened (0 ∷ [])) }
    ensures zones { IfOk result (λ names. names.zones ≡ no_zones) }
{
    Names::new(alloc, &[0])
}

// A segment value of the pool line `pool 0 2M 4`, of two participants.
fn opening_segs(alloc: Global) -> Result<Segs, AllocError>
    ensures { IfOk result (λ segs. segs ≡ opening (record { socket = 0; page = PAGE; pages = 4; slots = 4 } ∷ []) 2 0) }
{
    let pool = PoolLine {
        socket: 0,
        page: PAGE,
        pages: 4,
        slots: 4,
    };
    Segs::new(alloc, [pool].as_slice(), 2, 0)
}

// One of the two takes heap 0, which stays in its hand from then on, and is armed with its first ask, for pages for that heap. It sends the
// ask by hand.
pub(crate) fn arm_first<H: Hall>(hall: &mut H, me: u8, asked: &PagesAsked) -> Result<(), AllocError>
    requires may { MayHold me (H.state hall.old) }
    requires few { me < MAX_PARTICIPANTS }
    requires home { (H.state hall.old).may_take 0 }
    requires unarmed { (heap : ℕ) → ((H.state hall.old).part me heap).armed ≡ None }
    requires first { asked.now.heap ≡ 0 }
    ensures slots { SlotsStayBut 0 (H.state hall.old) (H.state hall.new) }
    ensures marked { MarksStay me (H.state hall.old) (H.state hall.new) }
    ensures joined { (H.state hall.new).joined me ≡ (H.state hall.old).joined me }
    ensures own { (H.state hall.new).own me ≡ (H.state hall.old).own me }
    ensures others { OthersStay me (H.state hall.old) (H.state hall.new) }
    ensures goes_on { H.goes_on hall.old hall.new }
{
    // Nobody needs the heap here: its slot stays out.
    let _ = hall.take(me, Slot::Heap(0));
    match arm(hall, me, 0, asked) {
        Ok(_) => Ok(()),
        Err(AllocError) => Err(AllocError),
    }
}

// That the first message of a kind that concerns participant 1 is lost.
pub(crate) const fn lost(kind: MsgKind) -> PlanEntry {
    PlanEntry::Message {
        kind,
        party: 1,
        k: 1,
        twice: false,
        line: 5,
    }
}

// A plan of one entry, or of none.
pub(crate) fn plan_of(alloc: Global, planned: Option<PlanEntry>) -> Result<Plan, AllocError> {
    let mut plan = Plan::new(alloc);
    if let Some(entry) = planned {
        plan.add(entry)?;
    }
    Ok(plan)
}

// The plain values of a hall of the two, in which nobody has asked.
pub(crate) fn plain_hall(alloc: Global) -> Result<PlainHall, AllocError>
    ensures opening { IfOk result IsOpening }
    ensures unmarked { IfOk result (λ hall. (who heap : ℕ) → marked_at hall who heap ≡ []) }
{
    let heaps = empty_heaps(alloc)?;
    let segs = opening_segs(alloc)?;
    let names = opening_names(alloc)?;
    let hall = PlainHall::new(alloc, 2, heaps, segs, names)?;
    Ok(hall)
}

// A participant that is attached and has taken in nothing, with a table over memory.
pub(crate) fn member<'p>(
    alloc: Global,
    me: u8,
    plan: &'p Plan,
) -> Result<Server<'p, MemMapper>, AllocError>
    requires declared { me < MAX_PARTICIPANTS }
    ensures number { IfOk result (λ party. party.me ≡ me) }
    ensures joined { IfOk result (λ party. party.joined ≡ true) }
    ensures tied { IfOk result (λ party. (log : List LogRecord) → IsTied log nothing_yet no_chunks party.joined party.maps) }
{
    let rows = MAX_SEGMENTS as usize;
    let mapper = Planned::new(MemMapper::new(alloc, rows)?, plan, me);
    let maps = LocalMaps::new(alloc, mapper, rows)?;
    Ok(Server::new(alloc, me, 0, true, maps, plan, DEADLINE))
}

// No validator; those that would be registered would be decided by what always allows, or always denies.
pub(crate) fn no_limits(alloc: Global) -> Limits<Decision>
    ensures { result ≡ [] }
{
    Limits::new(alloc, Decision { allows: true }, Decision { allows: false })
}
