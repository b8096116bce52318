//! Retiring runs that go.
ghost use Rattle.std.specs.Prelude.{◌≡◌, length};
ghost use Rattle.hp_segs.specs.Calls.{MayDrop};
ghost use Rattle.hp_segs.specs.Steps.{after_drop};

use crate::segs::Segs;

impl Segs {
    /// Drops all Retiring runs, one record each, lowest address first, and gives their pages back. The answer is the
    /// generation of the last record. After eal_memalloc_free_seg_bulk; the log is own.
    pub fn drop_retiring(&mut self) -> u64
        requires may { MayDrop self.old }
        ensures generation { result ≡ length self.new.log }
        ensures step { self.new ≡ after_drop self.old }
    {
        let parts = &mut *self.parts;
        parts.table.remove_all(parts.retiring.as_slice());
        parts.spare -= parts.retiring.len();
        parts.retiring.clear();
        parts.table.records().len() as u64
    }
}
