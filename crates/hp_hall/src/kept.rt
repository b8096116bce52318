ghost use Rattle.std.specs.Prelude.{◌≡◌};
ghost use Rattle.hp_hall.specs.Values.{IsHeap, IsNames, IsSegments, IsSoundKept};

use hp_heap::Heap;
use hp_segs::Segs;
use hp_stats::StatPen;
use hp_zone::Names;

/// What a slot keeps, and what its holder has in hand while it has taken the slot. Own.
#[derive(Drop)]
pub enum Kept {
    /// The heap of a heap's slot, with the pen by which its statistics are published.
    Heap { heap: Heap, pen: StatPen },
    /// The segment value.
    Segments { segs: Segs },
    /// The names.
    Names { names: Names },
}

impl Kept {
    /// The heap that it is, and its pen. Own.
    pub fn into_heap(self) -> (Heap, StatPen)
        requires heap { IsHeap self }
        ensures { self ≡ Kept.Heap result.0 result.1 }
    {
        match self {
            Kept::Heap { heap, pen } => (heap, pen),
            Kept::Segments { .. } | Kept::Names { .. } => unreachable!(),
        }
    }

    /// The segment value that it is. Own.
    pub fn into_segments(self) -> Segs
        requires segments { IsSegments self }
        ensures { self ≡ Kept.Segments result }
    {
        match self {
            Kept::Segments { segs } => segs,
            Kept::Heap { .. } | Kept::Names { .. } => unreachable!(),
        }
    }

    /// The names that it is. Own.
    pub fn into_names(self) -> Names
        requires names { IsNames self }
        ensures { self ≡ Kept.Names result }
    {
        match self {
            Kept::Names { names } => names,
            Kept::Heap { .. } | Kept::Segments { .. } => unreachable!(),
        }
    }

    /// What holds of every value: a heap is tiled by its elements, its free lists are exact, and it stands for its history; a
    /// segment value is sound; and of names the logs leave zones and directory. It does nothing. Own.
    pub fn sound(&self)
        ensures { IsSoundKept self.now }
    {
        match self {
            Kept::Heap { heap, .. } => heap.sound(),
            Kept::Segments { segs } => {
                let _records = segs.records();
            }
            Kept::Names { names } => {
                let _zones = names.zones.log();
                let _heaps = names.heaps.log();
            }
        }
    }
}
