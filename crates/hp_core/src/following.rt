//! What a participant does once it has caught up with the log, or has failed to.
ghost use Rattle.std.specs.Prelude.{◌≡◌, IsTrue, if◌then◌else◌};
ghost use Rattle.hp_segs.specs.LaterSteps.{is_failure};
ghost use Rattle.hp_segs.specs.SegsView.{is_member};
ghost use Rattle.hp_core.specs.Following.{after_catching, failure_of, reply_of};

use hp_base::{Caught, MapAnswer, Row};
use hp_frame::Body;
use hp_segs::Segs;

// A mapping that failed: of which row, by which call of the mapper, and what that answered.
#[derive(Clone, Copy)]
pub(crate) struct Failure {
    pub row: Row,
    pub call: u64,
    pub got: MapAnswer,
}

// Whether the answer is a failure for the row.
fn is_failure(row: &Row, got: MapAnswer) -> bool
    ensures { result ≡ is_failure row.now got }
{
    match got {
        MapAnswer::Refused => true,
        MapAnswer::At { addr, page, socket } => {
            !(addr == row.addr && page == row.page && socket == row.socket)
        }
    }
}

// The failure of a row, where that answer is one.
fn failure_at(row: &Row, call: u64, got: MapAnswer) -> Option<Failure>
    ensures { result ≡ (if is_failure row.now got then Some (record { row = row.now; call = call; got = got }) else None) }
{
    if is_failure(row, got) {
        Some(Failure {
            row: *row,
            call,
            got,
        })
    } else {
        None
    }
}

// The mapping that failed, where one did.
pub(crate) fn failure_of(caught: &Caught) -> Option<Failure>
    ensures { result ≡ failure_of caught.now }
{
    match caught {
        Caught::Done => None,
        Caught::Refused { row, call } => Some(Failure {
            row: *row,
            call: *call,
            got: MapAnswer::Refused,
        }),
        Caught::Elsewhere { row, call, got } => failure_at(row, *call, *got),
    }
}

// Notes the failed mapping of a member, where one failed.
pub(crate) fn note(segs: &mut Segs, participant: u8, caught: &Caught)
    requires member { IsTrue (is_member segs.old.roster participant) }
    ensures step { segs.new ≡ after_catching participant caught.now segs.old }
{
    if let Some(failure) = failure_of(caught) {
        segs.note_failed(participant, failure.call, &failure.row, failure.got);
    }
}

/// A member of the roster has caught up with the log for a SYNC, or failed to: a failed mapping is noted for the open
/// growth, where it is of it, and the answer is the reply to the coordinator. After handle_sync of malloc_mp.c.
pub fn follow(segs: &mut Segs, me: u8, caught: &Caught) -> Body
    requires member { IsTrue (is_member segs.old.roster me) }
    ensures reply { result ≡ reply_of me caught.now segs.old }
    ensures step { segs.new ≡ after_catching me caught.now segs.old }
{
    let code = u8::from(failure_of(caught).is_some());
    let number = segs.records().len() as u64;
    note(segs, me, caught);
    Body::Answer {
        from: me,
        number,
        what: 1,
        code,
    }
}
