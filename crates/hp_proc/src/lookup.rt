//! Where the element of a line is looked for, and what is done with it.
ghost use Rattle.std.specs.Prelude.{◌≡◌, ◌==◌, ◌&&◌, not};
ghost use Rattle.hp_proc.specs.Courses.{is_zone_act};
ghost use Rattle.hp_proc.specs.Freeing.{act_for};

use crate::element_act::ElementAct;
use hp_script::{Act, Line};

// Whether a line is a participant's own, and its element lies where the participant noted.
pub(crate) fn is_own(who: u8, maker: &Line<'_>) -> bool
    ensures { result ≡ ((maker.now.participant == who) && not (is_zone_act maker.now.act)) }
{
    maker.participant == who && !is_zone(&maker.act)
}

// Whether an act reserves a memzone.
pub(crate) fn is_zone(act: &Act<'_>) -> bool
    ensures { result ≡ is_zone_act act.now }
{
    matches!(act, Act::Zone { .. })
}

// What is done with an element: it is freed, or gets a size, where one is given.
pub(crate) fn act_for(zone: bool, size: Option<u64>) -> ElementAct
    ensures { result ≡ act_for zone size }
{
    match size {
        None => ElementAct::Free,
        Some(size) => ElementAct::Resize { zone, size },
    }
}
