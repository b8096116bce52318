//! What a participant does that attaches or detaches, in one hold of the segment value.
ghost use Rattle.std.specs.Prelude.{◌≡◌, ◌≢◌, ℕ, ◌+◌, ◌^◌, ◌<◌, ◌≤◌, ◌++◌, [], ◌∷◌, Some, true, false, length, IfOk, OnErr};
ghost use Rattle.hp_base.specs.Mapping.{is_done};
ghost use Rattle.hp_base.specs.declared.limits.TheConstants.{MAX_HEAPS, MAX_PARTICIPANTS};
ghost use Rattle.hp_maps.specs.MapsView.{MapsView, calls_of, chunk_rows};
ghost use Rattle.hp_segs.specs.LaterSteps.{after_join, after_leave};
ghost use Rattle.hp_segs.specs.SegsView.{SegsView};
ghost use Rattle.hp_serve.specs.Attaching.{HasLeftIn, IsAttachedIn, LooksIn, after_attaching, emptied, table_left};
ghost use Rattle.hp_maps.specs.Events.{IsToldByAddress};
ghost use Rattle.hp_serve.specs.Serving.{CatchesUp, acks_after, told_of};
ghost use Rattle.hp_serve.specs.Tied.{IsTied, no_chunks};
ghost use Rattle.hp_hall.specs.HallState.{Did, Stays};
ghost use Rattle.hp_hall.specs.Mail.{HasInHand, Notes};
ghost use Rattle.hp_hall.specs.Telling.{acked_since_take, emptied_since_take};
ghost use Rattle.hp_hall.specs.declared.note.Note.{Note};
ghost use Rattle.hp_serve.specs.SegmentSlot.{GivesBack, HasSegs, MayHold, StaysButOwn, StaysButRoster};

use crate::calls::{give_segments, put_back, take_segments};
use crate::catching::{catch_up, is_done, make_room};
use hp_base::{Caught, Mapper, Silent};
use hp_events::Watchers;
use hp_hall::Hall;
use hp_maps::LocalMaps;
use hp_segs::{Segs, log_law};
use std::alloc::AllocError;

// Unmaps the whole table, and tells nobody: what a catch-up that failed leaves of a table that was empty is empty.
fn empty<M: Mapper>(maps: &mut LocalMaps<M>)
    requires no_chunk { chunk_rows maps.old.rows ≡ [] }
    ensures { maps.new ≡ emptied maps.old }
{
    // As few rows are told of as a slice has.
    let _rows = maps.rows();
    maps.unmap_all(&mut Silent);
}

// Unmaps the whole table, and tells the watchers of what goes.
fn empty_told<M: Mapper>(maps: &mut LocalMaps<M>, watchers: &mut Watchers)
    requires no_chunk { chunk_rows maps.old.rows ≡ [] }
    requires room { length maps.old.rows ≤ watchers.old.spare }
    ensures maps { maps.new ≡ emptied maps.old }
    ensures told { IsToldByAddress maps.old.rows watchers.old.listeners watchers.new.listeners }
{
    maps.unmap_all(watchers);
}

// Tells the hall that its table has no row, once it has none.
fn tell_empty<H: Hall, M: Mapper>(hall: &mut H, me: u8, table: &LocalMaps<M>)
    requires serves { (H.state hall.old).serves me }
    requires unmapped { table.now.rows ≡ [] }
    ensures did { Did me (Notes Note.Emptied ∷ []) (H.state hall.old) (H.state hall.new) }
    ensures stays { Stays me (H.state hall.old) (H.state hall.new) }
    ensures measure { (H.state hall.new).measure ≤ (H.state hall.old).measure }
    ensures goes_on { H.goes_on hall.old hall.new }
{
    hall.emptied(me, table.rows());
}

// Takes the whole log in, tells the watchers and acknowledges it. Where a mapping failed the table is emptied, and what was acknowledged
// stays.
fn take_whole_log<H: Hall, M: Mapper>(
    hall: &mut H,
    me: u8,
    joined: bool,
    maps: &mut LocalMaps<M>,
    watchers: &mut Watchers,
    segs: &Segs,
) -> Caught
    requires serves { (H.state hall.old).serves me }
    requires hand { HasInHand MAX_HEAPS ((H.state hall.old).done me) }
    requires seen { segs.now.log ≡ (H.state hall.old).seen me }
    requires tied { IsTied segs.now.log ((H.state hall.old).own me) no_chunks joined maps.old }
    requires calls { calls_of maps.old ≤ 2 ^ 63 }
    requires room { length segs.now.log ≤ maps.old.number + watchers.old.spare }
    ensures caught { (mid : MapsView) × CatchesUp segs.now.log maps.old mid result × (maps.new ≡ table_left result mid) }
    ensures told { watchers.new.listeners ≡ told_of segs.now.log result maps.old watchers.old.listeners }
    ensures tied { IsTied segs.now.log ((H.state hall.new).own me) no_chunks (is_done result) maps.new }
    ensures whole { is_done result ≡ true → ((H.state hall.new).own me).number ≡ length segs.now.log }
    ensures failed { is_done result ≡ false → (H.state hall.new).own me ≡ (H.state hall.old).own me }
    ensures did { Did me (acks_after result (length segs.now.log)) (H.state hall.old) (H.state hall.new) }
    ensures stays { StaysButOwn me (H.state hall.old) (H.state hall.new) }
    ensures goes_on { H.goes_on hall.old hall.new }
{
    log_law();
    // No two of its rows have one address.
    let _rows = maps.rows();
    let records = segs.records();
    let to = records.len() as u64;
    let caught = catch_up(maps, watchers, records);
    if is_done(&caught) {
        hall.ack(me, to);
        return caught;
    }
    empty(maps);
    caught
}

// Comes into the roster, where it is not in it, and gives the segment value back.
fn give_joined<H: Hall>(hall: &mut H, me: u8, segs: Segs)
    requires has { HasSegs me segs (H.state hall.old) }
    requires few { me < MAX_PARTICIPANTS }
    requires whole { ((H.state hall.old).own me).number ≡ length segs.log }
    requires acked { acked_since_take ((H.state hall.old).done me) ≡ Some (length segs.log) }
    ensures log { (H.state hall.new).seen me ≡ segs.log }
    ensures part { (heap : ℕ) → (H.state hall.new).part me heap ≡ (H.state hall.old).part me heap }
    ensures back { GivesBack me (after_join me segs) (H.state hall.old) (H.state hall.new) }
    ensures goes_on { H.goes_on hall.old hall.new }
{
    if segs.is_member(me) {
        put_back(hall, me, segs);
        return;
    }
    let mut given = segs;
    let records = given.records().len() as u64;
    given.join_roster(me, records);
    give_segments(hall, me, given);
}

// Leaves the roster, where it is in it, and gives the segment value back.
fn give_left<H: Hall>(hall: &mut H, me: u8, segs: Segs)
    requires has { HasSegs me segs (H.state hall.old) }
    requires few { me < MAX_PARTICIPANTS }
    requires secondary { 0 < me }
    requires emptied { emptied_since_take ((H.state hall.old).done me) ≡ true }
    ensures log { (H.state hall.new).seen me ≡ segs.log }
    ensures part { (heap : ℕ) → (H.state hall.new).part me heap ≡ (H.state hall.old).part me heap }
    ensures back { GivesBack me (after_leave me segs) (H.state hall.old) (H.state hall.new) }
    ensures goes_on { H.goes_on hall.old hall.new }
{
    if !segs.is_member(me) {
        put_back(hall, me, segs);
        return;
    }
    let mut given = segs;
    given.leave_roster(me);
    give_segments(hall, me, given);
}

// Gives the segment value back after a catch-up: it comes into the roster, or leaves all as it was.
fn give_attached<H: Hall>(hall: &mut H, me: u8, caught: &Caught, segs: Segs)
    requires has { HasSegs me segs (H.state hall.old) }
    requires few { me < MAX_PARTICIPANTS }
    requires whole { is_done caught.now ≡ true → ((H.state hall.old).own me).number ≡ length segs.log }
    requires acked { is_done caught.now ≡ true → acked_since_take ((H.state hall.old).done me) ≡ Some (length segs.log) }
    ensures log { (H.state hall.new).seen me ≡ segs.log }
    ensures part { (heap : ℕ) → (H.state hall.new).part me heap ≡ (H.state hall.old).part me heap }
    ensures back { GivesBack me (after_attaching me caught.now segs) (H.state hall.old) (H.state hall.new) }
    ensures goes_on { H.goes_on hall.old hall.new }
{
    match caught {
        Caught::Done => give_joined(hall, me, segs),
        Caught::Refused { .. } | Caught::Elsewhere { .. } => put_back(hall, me, segs),
    }
}

/// A participant that is out takes the segment value, catches up with its whole log and tells its watchers, acknowledges that, comes into the
/// roster and gives the value back. Where a mapping failed its table is emptied, and all else is as it was. It is refused, and all is as it
/// was, only where there is no room to tell its watchers. `joined` says whether it had a table before.
pub(crate) fn attach<H: Hall, M: Mapper>(
    hall: &mut H,
    me: u8,
    joined: bool,
    maps: &mut LocalMaps<M>,
    watchers: &mut Watchers,
) -> Result<Caught, AllocError>
    requires may { MayHold me (H.state hall.old) }
    requires few { me < MAX_PARTICIPANTS }
    requires tied { IsTied ((H.state hall.old).seen me) ((H.state hall.old).own me) no_chunks joined maps.old }
    requires calls { calls_of maps.old ≤ 2 ^ 63 }
    ensures ok { IfOk result (λ caught. IsAttachedIn me caught maps.old maps.new watchers.old.listeners watchers.new.listeners
        (H.state hall.old) (H.state hall.new)) }
    ensures err { OnErr result ((maps.new ≡ maps.old) × (watchers.new.listeners ≡ watchers.old.listeners)
        × (watchers.old.listeners ≢ []) × LooksIn me (H.state hall.old) (H.state hall.new)) }
    ensures stays { StaysButRoster me (H.state hall.old) (H.state hall.new) }
    ensures goes_on { H.goes_on hall.old hall.new }
{
    let segs = take_segments(hall, me);
    if !make_room(maps, watchers, &segs) {
        put_back(hall, me, segs);
        return Err(AllocError);
    }
    let caught = take_whole_log(hall, me, joined, maps, watchers, &segs);
    give_attached(hall, me, &caught, segs);
    Ok(caught)
}

/// A secondary that is attached takes the segment value, unmaps its whole table, tells its watchers and the hall so, leaves the roster and
/// gives the value back. How many records it has acknowledged stays. `joined` says whether it had a table before.
pub(crate) fn detach<H: Hall, M: Mapper>(
    hall: &mut H,
    me: u8,
    joined: bool,
    table: &mut LocalMaps<M>,
    watchers: &mut Watchers,
)
    requires may { MayHold me (H.state hall.old) }
    requires few { me < MAX_PARTICIPANTS }
    requires secondary { 0 < me }
    requires tied { IsTied ((H.state hall.old).seen me) ((H.state hall.old).own me) no_chunks joined table.old }
    requires room { length table.old.rows ≤ watchers.old.spare }
    ensures maps { table.new ≡ emptied table.old }
    ensures told { IsToldByAddress table.old.rows watchers.old.listeners watchers.new.listeners }
    ensures left { HasLeftIn me (H.state hall.old) (H.state hall.new) }
    ensures tied { IsTied ((H.state hall.new).seen me) ((H.state hall.new).own me) no_chunks false table.new }
    ensures stays { StaysButRoster me (H.state hall.old) (H.state hall.new) }
    ensures goes_on { H.goes_on hall.old hall.new }
{
    let segs = take_segments(hall, me);
    empty_told(table, watchers);
    tell_empty(hall, me, table);
    give_left(hall, me, segs);
}
