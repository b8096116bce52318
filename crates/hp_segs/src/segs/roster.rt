//! Which participants are in the roster.
ghost use Rattle.std.specs.Prelude.{◌≡◌, ◌<◌};
ghost use Rattle.hp_segs.specs.Opening.{is_present, opening_roster};
ghost use Rattle.hp_segs.specs.Calls.{MayJoin, MayLeave};
ghost use Rattle.hp_segs.specs.LaterSteps.{after_join, after_leave};
ghost use Rattle.hp_segs.specs.SegsView.{is_member, roster_bits};
ghost use Rattle.hp_segs.specs.Steps.{is_below, lowest_member_below};

use crate::fault::NotAll;
use crate::segs::{PARTICIPANTS, Segs};

// Whether a participant is declared and not absent.
fn is_present(participant: u8, participants: u8, absent: u16) -> bool
    requires { participant < 16 }
    ensures { result ≡ is_present participants absent participant }
{
    participant < participants && (absent >> participant) % 2 == 0
}

// Whether the member of the roster has not acknowledged a generation.
fn is_below(roster: &[bool; 16], acks: &[u64; 16], generation: u64, participant: u8) -> bool
    requires { participant < 16 }
    ensures { result ≡ is_below roster.now acks.now generation participant }
{
    roster[participant as usize] && acks[participant as usize] < generation
}

// The declared participants without the absent ones.
#[tactic(auto, using(std::proofs::lemmas::List::FromFn::fill_by_all, std::proofs::lemmas::List::Edits::fill_by_more))]
pub(crate) fn opening(participants: u8, absent: u16) -> [bool; 16]
    ensures { result ≡ opening_roster participants absent }
{
    let mut roster = [false; 16];
    for participant in 0..16u8 {
        roster[participant as usize] = is_present(participant, participants, absent);
    }
    roster
}

// The lowest member of the roster that has not acknowledged a generation.
#[tactic(auto, using(crate::proofs::SlotFacts::Ranges::find_range_step, crate::proofs::SlotFacts::Ranges::find_range_here, crate::proofs::SlotFacts::Ranges::find_range_end))]
pub(crate) fn lowest_member_below(
    roster: &[bool; 16],
    acks: &[u64; 16],
    generation: u64,
) -> Option<NotAll>
    ensures { result ≡ lowest_member_below roster.now acks.now generation }
{
    for participant in 0..16u8 {
        if is_below(roster, acks, generation, participant) {
            return Some(NotAll {
                participant,
                acked: acks[participant as usize],
            });
        }
    }
    None
}

impl Segs {
    /// The participants in the roster: bit p stands for participant p. Own.
    pub fn roster(&self) -> u16
        ensures { result ≡ roster_bits self.now.roster }
    {
        let mut bits = 0;
        for place in 0..PARTICIPANTS {
            bits = bits + bits + u16::from(self.parts.roster[PARTICIPANTS - 1 - place]);
        }
        bits
    }

    /// Whether one of the participants 0 to 15 is in the roster. Own.
    pub fn is_member(&self, participant: u8) -> bool
        requires { participant < 16 }
        ensures { result ≡ is_member self.now.roster participant }
    {
        self.parts.roster[participant as usize]
    }

    /// The lowest member of the roster whose number in `acks` is below a generation, and that number: `acks` are the
    /// numbers of the participants 0 to 15. Own.
    pub fn lowest_behind(&self, acks: &[u64; 16], generation: u64) -> Option<NotAll>
        ensures { result ≡ lowest_member_below self.now.roster acks.now generation }
    {
        lowest_member_below(&self.parts.roster, acks, generation)
    }

    /// A participant that has taken in all records comes into the roster: `acked` is its number of records. Own; after
    /// rte_mp_channel_init of a secondary.
    pub fn join_roster(&mut self, participant: u8, acked: u64)
        requires may { MayJoin participant acked self.old }
        ensures step { self.new ≡ after_join participant self.old }
    {
        self.parts.roster[participant as usize] = true;
    }

    /// A secondary leaves the roster. Own; after rte_mp_channel_cleanup.
    pub fn leave_roster(&mut self, participant: u8)
        requires may { MayLeave participant self.old }
        ensures step { self.new ≡ after_leave participant self.old }
    {
        self.parts.roster[participant as usize] = false;
    }
}
