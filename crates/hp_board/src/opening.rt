ghost use Rattle.std.specs.Prelude.{◌≡◌, All, length, map};
ghost use Rattle.hp_heap.specs.History.{IsSound};
ghost use Rattle.hp_base.specs.declared.limits.TheConstants.{MAX_HEAPS};
ghost use Rattle.hp_board.specs.Served.{serves_of};

use hp_base::MAX_HEAPS;
use hp_heap::Heap;
use hp_segs::Segs;
use hp_stats::StatCells;
use hp_zone::Names;
use std::snapshot::Snapshot;

/// What a board opened with: how many participants it has, and by index the socket whose pages each heap takes, or
/// none where it takes external memory. Own.
#[derive(Drop)]
pub struct Opening {
    pub participants: u8,
    pub serves: [Option<u32>; MAX_HEAPS],
    /// The cells of the heaps' statistics, for contracts alone.
    pub cells: Snapshot<StatCells>,
    /// The segment value, for contracts alone.
    pub segs: Snapshot<Segs>,
    /// The names, for contracts alone.
    pub names: Snapshot<Names>,
}

impl Opening {
    // What a board of these heaps opens with. Each of them is sound.
    pub(crate) fn of(
        heaps: &[Heap],
        cells: &StatCells,
        segs: &Segs,
        names: &Names,
        participants: u8,
    ) -> Opening
        requires { length heaps.now ≡ MAX_HEAPS }
        ensures participants { result.participants ≡ participants }
        ensures serves { result.serves ≡ map serves_of heaps.now }
        ensures sound { All IsSound heaps.now }
        ensures cells { result.cells.value ≡ cells.now }
        ensures segs { result.segs.value ≡ segs.now }
        ensures names { result.names.value ≡ names.now }
    {
        let mut serves = [None; MAX_HEAPS];
        for index in 0..MAX_HEAPS {
            let heap = &heaps[index];
            heap.sound();
            serves[index] = heap.serves();
        }
        Opening {
            participants,
            serves,
            cells: Snapshot::of(cells),
            segs: Snapshot::of(segs),
            names: Snapshot::of(names),
        }
    }
}
