//! How a participant attaches and detaches.
ghost use Rattle.std.specs.Prelude.{◌≡◌, ◌≢◌, ℕ, ◌^◌, ◌<◌, ◌≤◌, [], false, IfOk, OnErr, OnOk};
ghost use Rattle.hp_maps.specs.MapsView.{calls_of};
ghost use Rattle.hp_serve.specs.Attaching.{AttachesIn, DetachesIn, LooksIn};
ghost use Rattle.hp_serve.specs.InHall.{IsTiedIn, marked_in};
ghost use Rattle.hp_serve.specs.SegmentSlot.{MayHold, StaysButRoster};

use super::Server;
use crate::attaching::{attach, detach};
use crate::catching::is_done;
use hp_base::{Caught, Mapper};
use hp_hall::Hall;
use std::alloc::AllocError;

impl<'p, M: Mapper> Server<'p, M> {
    /// A secondary that is out takes the segment value, takes in the whole log and tells its watchers, acknowledges it, comes into the
    /// roster and gives the value back. Where a mapping fails its table is emptied, and the roster is as it was. It is refused, and all is
    /// as it was, only where somebody watches and there is no room to tell. After rte_eal_init of a secondary process.
    pub fn attach<H: Hall>(&mut self, hall: &mut H) -> Result<Caught, AllocError>
        requires secondary { 0 < self.old.me }
        requires out { self.old.joined ≡ false }
        requires may { MayHold self.old.me (H.state hall.old) }
        requires tied { IsTiedIn self.old.me self.old (H.state hall.old) }
        requires calls { calls_of self.old.maps ≤ 2 ^ 63 }
        ensures ok { IfOk result (λ caught. AttachesIn self.old.me self.old self.new caught (H.state hall.old) (H.state hall.new)) }
        ensures err { OnErr result ((self.new ≡ self.old) × (self.old.listeners ≢ []) × LooksIn self.old.me (H.state hall.old) (H.state hall.new)) }
        ensures tied { IsTiedIn self.old.me self.new (H.state hall.new) }
        ensures stays { StaysButRoster self.old.me (H.state hall.old) (H.state hall.new) }
        ensures goes_on { H.goes_on hall.old hall.new }
    {
        let caught = attach(
            hall,
            self.me,
            self.joined,
            &mut self.maps,
            &mut self.watchers,
        )?;
        self.joined = is_done(&caught);
        Ok(caught)
    }

    /// A secondary that has left every chunk takes the segment value, unmaps its whole table, tells its watchers and the hall so, leaves
    /// the roster and gives the value back. It is refused, and all is as it was, only where somebody watches and there is no room to tell.
    /// After rte_eal_cleanup of a secondary process.
    pub fn detach<H: Hall>(&mut self, hall: &mut H) -> Result<(), AllocError>
        requires secondary { 0 < self.old.me }
        requires may { MayHold self.old.me (H.state hall.old) }
        requires tied { IsTiedIn self.old.me self.old (H.state hall.old) }
        requires left { (heap : ℕ) → marked_in self.old.me (H.state hall.old) heap ≡ [] }
        ensures ok { OnOk result (DetachesIn self.old.me self.old self.new (H.state hall.old) (H.state hall.new)) }
        ensures err { OnErr result ((self.new ≡ self.old) × (self.old.listeners ≢ []) × (hall.new ≡ hall.old)) }
        ensures tied { IsTiedIn self.old.me self.new (H.state hall.new) }
        ensures stays { StaysButRoster self.old.me (H.state hall.old) (H.state hall.new) }
        ensures goes_on { H.goes_on hall.old hall.new }
    {
        let rows = self.maps.rows().len();
        self.watchers.reserve(rows)?;
        detach(
            hall,
            self.me,
            self.joined,
            &mut self.maps,
            &mut self.watchers,
        );
        self.joined = false;
        Ok(())
    }
}
