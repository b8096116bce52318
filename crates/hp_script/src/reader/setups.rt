//! What setup lines add.

ghost use Rattle.std.specs.Prelude.{◌≡◌};

use crate::bad_kind::BadKind;
use crate::deadline::Deadline;
use crate::event::{mapping_event, message_event};
use crate::judge::refuse;
use crate::line_fault::LineFault;
use crate::marks::{is_marked, with_mark};
use crate::party_count::PartyCount;
use crate::reader::Reader;
use hp_base::{MAX_LISTS, MAX_SEGMENTS, MsgKind, PlanEntry, PoolLine};

impl<'a> Reader<'a> {
    ghost use Rattle.hp_script.specs.Setups.{set_participants, set_absent, set_socket, set_deadline, add_pool, add_message, add_mapping};
    ghost use Rattle.hp_script.specs.Reading.{Steps};

    #[tactic(auto, unfolding(crate::specs::Setups::set_participants))]
    pub(crate) fn set_participants(&mut self, count: PartyCount) -> Result<(), LineFault>
        ensures { Steps result self.new (set_participants self.old count) }
    {
        refuse(self.participants.is_some(), BadKind::Duplicate)?;
        self.participants = Some(count);
        Ok(())
    }

    #[tactic(auto, unfolding(crate::specs::Setups::set_absent))]
    pub(crate) fn set_absent(&mut self, party: u8) -> Result<(), LineFault>
        ensures { Steps result self.new (set_absent self.old party) }
    {
        let party = u64::from(party);
        refuse(is_marked(self.absent, party), BadKind::Duplicate)?;
        refuse(self.is_strange(party), BadKind::Unknown)?;
        self.absent = with_mark(self.absent, party);
        Ok(())
    }

    #[tactic(auto, unfolding(crate::specs::Setups::set_socket))]
    pub(crate) fn set_socket(&mut self, party: u64, socket: u32) -> Result<(), LineFault>
        ensures { Steps result self.new (set_socket self.old party socket) }
    {
        refuse(is_marked(self.placed, party), BadKind::Duplicate)?;
        refuse(self.is_strange(party), BadKind::Unknown)?;
        self.placed = with_mark(self.placed, party);
        self.sockets[party as usize] = socket;
        Ok(())
    }

    #[tactic(auto, unfolding(crate::specs::Setups::set_deadline))]
    pub(crate) fn set_deadline(&mut self, deadline: Deadline) -> Result<(), LineFault>
        ensures { Steps result self.new (set_deadline self.old deadline) }
    {
        refuse(self.deadline.is_some(), BadKind::Duplicate)?;
        self.deadline = Some(deadline);
        Ok(())
    }

    #[tactic(auto, unfolding(crate::specs::Setups::add_pool))]
    pub(crate) fn add_pool(&mut self, pool: PoolLine) -> Result<(), LineFault>
        ensures { Steps result self.new (add_pool self.old pool) }
    {
        refuse(self.pools.has(pool), BadKind::Duplicate)?;
        refuse(self.pools.len() >= MAX_LISTS, BadKind::Limit)?;
        refuse(
            self.pools.segments() + u64::from(pool.slots) > MAX_SEGMENTS,
            BadKind::Limit,
        )?;
        self.pools.push(pool)?;
        Ok(())
    }

    #[tactic(auto, unfolding(crate::specs::Setups::add_message))]
    pub(crate) fn add_message(
        &mut self,
        number: u32,
        kind: MsgKind,
        party: u64,
        k: u64,
        twice: bool,
    ) -> Result<(), LineFault>
        ensures { Steps result self.new (add_message self.old number kind party k twice) }
    {
        refuse(
            self.plan.is_planned(message_event(kind, party, k)),
            BadKind::Duplicate,
        )?;
        refuse(self.is_strange(party), BadKind::Unknown)?;
        self.plan.push(PlanEntry::Message {
            kind,
            party: party as u8,
            k,
            twice,
            line: number,
        })?;
        Ok(())
    }

    #[tactic(auto, unfolding(crate::specs::Setups::add_mapping))]
    pub(crate) fn add_mapping(
        &mut self,
        number: u32,
        party: u64,
        call: u64,
        elsewhere: bool,
    ) -> Result<(), LineFault>
        ensures { Steps result self.new (add_mapping self.old number party call elsewhere) }
    {
        refuse(
            self.plan.is_planned(mapping_event(party, call)),
            BadKind::Duplicate,
        )?;
        refuse(self.is_strange(party), BadKind::Unknown)?;
        self.plan.push(PlanEntry::Mapping {
            party: party as u8,
            call,
            elsewhere,
            line: number,
        })?;
        Ok(())
    }
}
