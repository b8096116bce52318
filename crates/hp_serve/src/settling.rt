//! An asker looks in the segment value for what came of its ask, claims what was granted, and takes its ask back.
ghost use Rattle.std.specs.Prelude.{◌≡◌, ℕ, ◌<◌, List, [], ◌∷◌, Some, None};
ghost use Rattle.hp_base.specs.declared.limits.TheConstants.{MAX_HEAPS, MAX_PARTICIPANTS};
ghost use Rattle.hp_hall.specs.Mail.{MailStep};
ghost use Rattle.hp_hall.specs.declared.kept.Kept.{Kept};
ghost use Rattle.hp_segs.specs.Standing.{standing_of};
ghost use Rattle.hp_segs.specs.Calls.{IsUnclaimedGrant};
ghost use Rattle.hp_segs.specs.SegsView.{SegsView};
ghost use Rattle.hp_segs.specs.Steps.{after_claim, claimed_run};
ghost use Rattle.hp_serve.specs.Asking.{IsAwaiting, Settles, after_settling};
ghost use Rattle.hp_serve.specs.Looking.{HasFound, IsLookAt};
ghost use Rattle.hp_serve.specs.Serving.{gives_segments, takes_segments};
ghost use Rattle.hp_hall.specs.HallState.{Did, HasMapped};
ghost use Rattle.hp_serve.specs.SegmentSlot.{GivesBack, MayHold, StaysButParts};

use crate::calls::{give_back, put_back, take_segments};
use hp_base::Run;
use hp_hall::Hall;
use hp_segs::{Ask, Closing, Outcome, Segs};

/// What a look for an ask finds. Own.
#[derive(Clone, Copy)]
pub(crate) enum Found {
    /// The ask is settled: a run was granted, which is claimed now, or none.
    Settled { run: Option<Run> },
    /// Neither a grant nor a refusal of the ask stands so far.
    Open,
}

// A participant that has taken the segment value claims the run that was granted for its ask, and gives the value back.
fn claim_taken<H: Hall>(hall: &mut H, ask: &Ask, segs: Segs) -> Run
    requires serves { (H.state hall.old).serves ask.now.from }
    requires taken { (H.state hall.old).taken MAX_HEAPS ≡ Some (Kept.Segments segs) }
    requires granted { IsUnclaimedGrant ask.now.from ask.now.number segs }

    // The grant is for a heap that it holds.
    requires held { (heap : ℕ) → ((H.state hall.old).part ask.now.from heap).holding ≡ None
        → standing_of heap (after_claim ask.now.from ask.now.number segs) ≡ standing_of heap segs }
    ensures run { Some result ≡ claimed_run ask.now.from ask.now.number segs }
    ensures back { GivesBack ask.now.from (after_claim ask.now.from ask.now.number segs) (H.state hall.old) (H.state hall.new) }
    ensures goes_on { H.goes_on hall.old hall.new }
{
    let mut segs = segs;
    let run = segs.claim(ask.from, ask.number);
    give_back(hall, ask.from, segs);
    run
}

/// Looks in the segment value for what came of a participant's ask. A grant that stands there is claimed. Own.
pub(crate) fn look<H: Hall>(hall: &mut H, ask: &Ask) -> Found
    requires may { MayHold ask.now.from (H.state hall.old) }
    requires few { ask.now.from < MAX_PARTICIPANTS }
    requires awaits { IsAwaiting ask.now ((H.state hall.old).part ask.now.from) }
    ensures found { HasFound ((H.state hall.new).seen ask.now.from) ((H.state hall.new).heard ask.now.from) ask.now
        ((H.state hall.old).part ask.now.from) ((H.state hall.new).part ask.now.from) result }
    ensures did { (steps : List MailStep) × Did ask.now.from steps (H.state hall.old) (H.state hall.new) × IsLookAt ask.now steps result }
    ensures mapped { HasMapped ask.now.from (H.state hall.new) }
    ensures stays { StaysButParts ask.now.from (H.state hall.old) (H.state hall.new) }
    ensures goes_on { H.goes_on hall.old hall.new }
{
    let segs = take_segments(hall, ask.from);
    match segs.grant_or_refusal(ask.from, ask.number) {
        Some(Outcome::Granted { .. }) => {
            let run = claim_taken(hall, ask, segs);
            Found::Settled { run: Some(run) }
        }
        Some(Outcome::Refused { .. }) => {
            put_back(hall, ask.from, segs);
            Found::Settled { run: None }
        }
        Some(Outcome::Stale { .. } | Outcome::Freed { .. }) => unreachable!(),
        None => {
            put_back(hall, ask.from, segs);
            Found::Open
        }
    }
}

/// Settles a participant's ask, for which it has waited long enough: a grant that stands in the segment value is claimed; where neither a
/// grant nor a refusal stands there, the ask is taken back, by the readings of the clock when it was sent and now. Own.
pub(crate) fn settle<H: Hall>(hall: &mut H, ask: &Ask, since: u64, now: u64) -> Option<Run>
    requires may { MayHold ask.now.from (H.state hall.old) }
    requires few { ask.now.from < MAX_PARTICIPANTS }
    requires awaits { IsAwaiting ask.now ((H.state hall.old).part ask.now.from) }
    ensures settles { Settles ((H.state hall.new).seen ask.now.from) ((H.state hall.new).heard ask.now.from) ask.now
        ((H.state hall.old).part ask.now.from) ((H.state hall.new).part ask.now.from) result }
    ensures did { (taken : SegsView) × Did ask.now.from (takes_segments taken
        ∷ gives_segments (after_settling ask.now since now taken) ∷ []) (H.state hall.old) (H.state hall.new) }
    ensures mapped { HasMapped ask.now.from (H.state hall.new) }
    ensures stays { StaysButParts ask.now.from (H.state hall.old) (H.state hall.new) }
    ensures goes_on { H.goes_on hall.old hall.new }
{
    let mut segs = take_segments(hall, ask.from);
    match segs.withdraw(ask.from, ask.number, since, now) {
        Closing::Granted => {
            let run = claim_taken(hall, ask, segs);
            Some(run)
        }
        Closing::Refused { .. } => {
            put_back(hall, ask.from, segs);
            None
        }
        Closing::Withdrawn => {
            give_back(hall, ask.from, segs);
            None
        }
    }
}
