ghost use Rattle.std.specs.Prelude.{◌≡◌, ◌^◌, ◌<◌};
ghost use Rattle.hp_base.specs.Extents.{slot_address};

/// The address of a slot, counted from 0, of pages of `page` bytes that begin at `base`. After rte_fbarray_get over the
/// segments of rte_memseg_list.
pub fn slot_address(base: u64, page: u64, slot: u32) -> u64
    requires { slot_address base page slot < 2 ^ 64 }
    ensures { result ≡ slot_address base page slot }
{
    base + u64::from(slot) * page
}
