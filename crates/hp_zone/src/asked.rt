//! What is asked of a reservation.
ghost use Rattle.std.specs.Prelude.{◌≡◌, ◌↔◌, IsSome, IfSome};
ghost use Rattle.hp_base.specs.Requests.{is_align, is_bound, rounded_size};
ghost use Rattle.hp_zone.specs.Zones.{IsZoneName};

use crate::limits::MAX_ZONE_NAME;
use hp_base::{Name, round64};

// The name with this text, where it may be that of a memzone.
pub(crate) fn zone_name(text: &[u8]) -> Option<Name>
    ensures accepted { IsSome result ↔ IsZoneName text.now }
    ensures text { IfSome result (λ name. name ≡ text.now) }
{
    if text.len() > MAX_ZONE_NAME {
        return None;
    }
    Name::new(text)
}

// Whether an alignment is 0 or a power of two.
pub(crate) fn is_align(align: u64) -> bool
    ensures { result ≡ is_align align }
{
    align == 0 || align.is_power_of_two()
}

// Whether a bound is 0, or a power of two of at least the rounded length.
pub(crate) fn is_bound(len: u64, bound: u64) -> bool
    ensures { result ≡ is_bound (rounded_size len) bound }
{
    if bound == 0 {
        return true;
    }
    match round64(len) {
        Some(size) => bound.is_power_of_two() && size <= bound,
        None => false,
    }
}
