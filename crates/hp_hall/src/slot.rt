ghost use Rattle.std.specs.Prelude.{◌≡◌};
ghost use Rattle.hp_hall.specs.Slots.{slot_number, IsSlot};

use hp_base::MAX_HEAPS;

/// The number of the names' slot, which stands after that of the segment value. Own.
pub const NAMES_SLOT: usize = MAX_HEAPS + 1;

/// How many slots there are: one for each heap, one for the segment value, and one for the names. Own.
pub const SLOTS: usize = MAX_HEAPS + 2;

/// A slot, which keeps a value that one participant at a time may take. Own; it stands for the lock of malloc_heap in rte_malloc,
/// for the lock of the memory map (rte_mcfg_mem_write_lock), and for that of the memzones (mlock of rte_mem_config).
#[derive(Clone, Copy)]
pub enum Slot {
    /// The heap with this index, which is below 32.
    Heap(u32),
    /// The segment value.
    Segments,
    /// The names: of memzones, and of heaps.
    NamesSlot,
}

impl Slot {
    /// Its number among the slots: the index of its heap, or after all heaps. Own.
    pub fn number(self) -> usize
        requires slot { IsSlot self }
        ensures { result ≡ slot_number self }
    {
        match self {
            Slot::Heap(index) => index as usize,
            Slot::Segments => MAX_HEAPS,
            Slot::NamesSlot => NAMES_SLOT,
        }
    }
}
