ghost use Rattle.std.specs.Prelude.{◌≡◌, ◌<◌};
ghost use Rattle.hp_base.specs.Flags.{has_bit, is_fitting_page, is_hint, names_page, names_pages};

/// Each hugepage size with the bit of a request's flags that names it. After the RTE_MEMZONE_ flags of rte_memzone.
pub const PAGE_FLAGS: [(u64, u32); 8] = [
    (1 << 21, 0),
    (1 << 30, 1),
    (1 << 24, 8),
    (1 << 34, 9),
    (1 << 18, 16),
    (1 << 28, 17),
    (1 << 29, 18),
    (1 << 32, 19),
];

/// The bit of flags by which the page sizes that they name are a hint alone. After RTE_MEMZONE_SIZE_HINT_ONLY.
pub const HINT_BIT: u32 = 2;

/// What that bit adds to flags. After RTE_MEMZONE_SIZE_HINT_ONLY.
pub const HINT: u32 = 1 << HINT_BIT;

/// Whether a bit of a number is set. Own.
pub fn has_bit(bits: u32, bit: u32) -> bool
    requires { bit < 32 }
    ensures { result ≡ has_bit bits bit }
{
    (bits >> bit) % 2 == 1
}

/// Whether flags name a page size. After the RTE_MEMZONE_ flags of rte_memzone.
pub fn names_page(flags: u32, page: u64) -> bool
    ensures { result ≡ names_page flags page }
{
    for (size, bit) in PAGE_FLAGS {
        if size == page && has_bit(flags, bit) {
            return true;
        }
    }
    false
}

/// Whether flags name some page size. After the RTE_MEMZONE_ flags of rte_memzone.
pub fn names_pages(flags: u32) -> bool
    ensures { result ≡ names_pages flags }
{
    for (_, bit) in PAGE_FLAGS {
        if has_bit(flags, bit) {
            return true;
        }
    }
    false
}

/// Whether a page fits flags: they name no page size, or its own. After check_hugepage_sz of malloc_heap.
#[tactic(auto, unfolding(crate::specs::Flags::is_fitting_page))]
pub fn is_fitting_page(flags: u32, page: u64) -> bool
    ensures { result ≡ is_fitting_page flags page }
{
    !names_pages(flags) || names_page(flags, page)
}

/// Whether the page sizes of flags are a hint alone. After RTE_MEMZONE_SIZE_HINT_ONLY.
#[tactic(auto, unfolding(crate::specs::Flags::is_hint))]
pub fn is_hint(flags: u32) -> bool
    ensures { result ≡ is_hint flags }
{
    has_bit(flags, HINT_BIT)
}
