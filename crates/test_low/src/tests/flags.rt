//! What flags say of page sizes, on the numbers of the rule.
use hp_base::{has_bit, is_fitting_page, is_hint, names_page, names_pages};

const MB: u64 = 0x10_0000;

#[test]
fn flags_name_page_sizes(rt: HostRuntime) {
    for (flags, page, named, some, hint) in [
        (0, 2 * MB, false, false, false),
        (0x1, 2 * MB, true, true, false),
        (0x6, 1024 * MB, true, true, true),
        (0x100, 16 * MB, true, true, false),
        (0x200, 16 * MB, false, true, false),
        (0x1_0000, 0x4_0000, true, true, false),
        (0x6_0000, 512 * MB, true, true, false),
        (0x8_0004, 4096 * MB, true, true, true),
        (0xfff0_fcf8, 2 * MB, false, false, false),
    ] {
        assert!(rt; names_page(flags, page) == named, "of {flags}");
        assert!(rt; names_pages(flags) == some, "of {flags}");
        assert!(rt;
            is_fitting_page(flags, page) == (named || !some),
            "of {flags}"
        );
        assert!(rt; is_hint(flags) == hint, "of {flags}");
    }
    assert!(rt; has_bit(0x8000_0000, 31));
    assert!(rt; !has_bit(0x7fff_ffff, 31));
}
