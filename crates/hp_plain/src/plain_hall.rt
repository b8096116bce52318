//! A hall of plain values, in one thread.
ghost use Rattle.std.specs.Prelude.{◌≡◌, ◌≤◌, ℕ, [], IfOk, None};
ghost use Rattle.hp_base.specs.declared.limits.TheConstants.{MAX_PARTICIPANTS};
ghost use Rattle.hp_plain.specs.HallView.{IsHall, part_in};
ghost use Rattle.hp_plain.specs.Opening.{AreHome, AreInOrder, AreUnused, HandsOut, MayOpenWith, OpensWith};

mod calls;
mod messages;
mod moving;
mod notes;
mod owns;
mod slots;
mod stats;

use crate::mail_log::MailLog;
use crate::mailbox::Mailbox;
use crate::own_part::OwnPart;
use crate::slot_state::SlotState;
use hp_heap::Heap;
use hp_segs::Segs;
use hp_zone::Names;
use messages::empty_boxes;
use moving::{from_slots, into_slots};
use owns::{first_lines, first_parts};
use stats::first_pens;
use std::alloc::{AllocError, Global};
use std::marker::Model;

/// A hall of plain values: the heaps, the segment value and the names in their slots, a mailbox of 64 frames for each participant, and one
/// clock in milliseconds. Its participants take turns in one thread, so a slot whose value is there can be taken. The newest statistics of
/// each heap stand beside it; the heaps' pens are not used. Contracts see it as a `HallView`. Own.
#[derive(Drop)]
pub struct PlainHall {
    pub(crate) slots: Vec<SlotState>,
    pub(crate) boxes: Vec<Mailbox>,
    pub(crate) owns: Vec<OwnPart>,
    pub(crate) lines: Vec<u32>,
    pub(crate) clock: u64,
    pub(crate) full_mailboxes: u64,
    pub(crate) mail: MailLog,
    // Emptied when the hall opened; `into_parts` fills it again.
    pub(crate) heaps: Vec<Heap>,
}

/// What a hall hands out at its end. Own.
#[derive(Drop)]
pub struct HallParts {
    /// The heaps, by index.
    pub heaps: Vec<Heap>,
    /// The segment value.
    pub segs: Segs,
    /// The names.
    pub names: Names,
}

impl Model for PlainHall {
    ghost use Rattle.hp_plain.specs.HallView.{HallView};

    ghost Value = { HallView };

    ghost use Rattle.hp_plain.specs.HallInside.{hall_view, IsInside};

    ghost view = { hall_view };

    ghost invariant = { IsInside };
}

impl PlainHall {
    /// A hall of these values for so many participants: the heap at each place in the slot of that number, with a pen of its own. Each heap
    /// has what the segment value has for it, and that value's growth and outcomes are of armed asks, which are settled; no record was
    /// granted; and the names agree with the heaps and with the external memory that is claimed. Nothing is out, the mailboxes are empty,
    /// nobody has acknowledged a record or told a line to be done, and the clock stands at 0. Own.
    pub fn new(
        alloc: Global,
        participants: u8,
        heaps: Vec<Heap>,
        segs: Segs,
        names: Names,
    ) -> Result<PlainHall, AllocError>
        requires few { participants ≤ MAX_PARTICIPANTS }
        requires heaps { AreInOrder heaps.items }
        requires opens { MayOpenWith heaps.items segs names }
        ensures hall { IfOk result (OpensWith participants heaps.items segs names) }

        // Over heaps without a call nobody has made an entry, and nobody holds a heap.
        ensures unused { IfOk result (λ hall. AreUnused heaps.items → (who number : ℕ) → (part_in hall who number).entries ≡ []) }
        ensures unheld { IfOk result (λ hall. (who number : ℕ) → (part_in hall who number).holding ≡ None) }
    {
        let _records = segs.records();
        let boxes = empty_boxes(alloc, participants)?;
        let owns = first_parts(alloc, participants)?;
        let lines = first_lines(alloc, participants)?;
        let pens = first_pens(alloc)?;
        let mut heaps = heaps;
        let slots = into_slots(alloc, &mut heaps, pens, segs, names)?;
        Ok(PlainHall {
            slots,
            boxes,
            owns,
            lines,
            clock: 0,
            full_mailboxes: 0,
            mail: MailLog::new(),
            heaps,
        })
    }

    /// Ends the hall, and hands out its values: the heaps in the vector in which they came, so it takes no memory. Own.
    pub fn into_parts(self) -> HallParts
        requires home { AreHome self }
        ensures { HandsOut self.slots result.heaps.items result.segs result.names }
    {
        let PlainHall { slots, heaps, .. } = self;
        let mut heaps = heaps;
        let (segs, names) = from_slots(slots, &mut heaps);
        HallParts { heaps, segs, names }
    }

    /// The reading of its clock, in milliseconds. Own.
    pub fn clock(&self) -> u64
        ensures { result ≡ self.now.clock }
    {
        self.clock
    }

    /// How often a mailbox was full. At its type's end the count stands still. Own.
    pub fn full_mailboxes(&self) -> u64
        ensures { result ≡ self.now.full_mailboxes }
    {
        self.full_mailboxes
    }

    /// What holds of every hall: each value is one of its slot; each participant has a mailbox, its own part and a count of lines; the
    /// segment value is sound with its growth and outcomes of armed asks; each heap at home has what that has for it, and what was published
    /// of it are its pairs; whose ask is not settled has its heap in hand; the members of the roster have taken in what was granted; and the
    /// names, where they are at home, agree with the heaps and with the external memory that is claimed. It does nothing. Own.
    pub fn sound(&self)
        ensures { IsHall self.now }
    {
        let _ = &self.slots;
    }
}
