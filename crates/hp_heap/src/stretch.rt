ghost use Rattle.std.specs.Prelude.{◌≡◌};
ghost use Rattle.hp_heap.specs.Cut.{cut_from, cut_to, is_too_small};
ghost use Rattle.hp_heap.specs.PageCutting.{CanRound};

use crate::pieces::LEAST_WHOLE;
use hp_base::Span;

/// Where the pages begin that may go from an element: at its first whole page, or a page behind where the rest before
/// them would be too small for an element.
pub fn cut_from(range: &Span) -> u64
    requires { CanRound range.now }
    ensures { result ≡ cut_from range.now }
{
    let first = range.addr.div_ceil(range.page) * range.page;
    if is_too_small(first - range.addr) {
        first + range.page
    } else {
        first
    }
}

/// Where they end: behind its last whole page, or a page before where the rest behind them would be too small.
pub fn cut_to(range: &Span) -> u64
    requires { CanRound range.now }
    ensures { result ≡ cut_to range.now }
{
    let end = range.addr + range.whole;
    let last = end / range.page * range.page;
    if is_too_small(end - last) {
        last.saturating_sub(range.page)
    } else {
        last
    }
}

// Whether a rest is too small for an element.
fn is_too_small(rest: u64) -> bool
    ensures { result ≡ is_too_small rest }
{
    0 < rest && rest < LEAST_WHOLE
}
