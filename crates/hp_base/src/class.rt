ghost use Rattle.std.specs.Prelude.{◌≡◌};
ghost use Rattle.hp_base.specs.Class.{class_number, IsClassOf};

/// The size class of `size` bytes, from 0 to 12: the free list on which an element with that many bytes behind its
/// header stands. After malloc_elem_free_list_index of rte_malloc, and RTE_HEAP_NUM_FREELISTS.
pub fn class_of(size: u64) -> u8
    ensures class { IsClassOf size result }
    ensures number { result ≡ class_number size }
{
    match size {
        0..=0x100 => 0,
        0x101..=0x400 => 1,
        0x401..=0x1000 => 2,
        0x1001..=0x4000 => 3,
        0x4001..=0x1_0000 => 4,
        0x1_0001..=0x4_0000 => 5,
        0x4_0001..=0x10_0000 => 6,
        0x10_0001..=0x40_0000 => 7,
        0x40_0001..=0x100_0000 => 8,
        0x100_0001..=0x400_0000 => 9,
        0x400_0001..=0x1000_0000 => 10,
        0x1000_0001..=0x4000_0000 => 11,
        _ => 12,
    }
}
