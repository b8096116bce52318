//! The names go from one hall to the other, which is refused them meanwhile.
ghost use Rattle.test_board.specs.Seating.{MayName};

use hp_base::Name;
use hp_hall::{Hall, Kept, Slot};

/// Whether the names were refused to the second while the first had them, and at which heap each finds a name, with its socket number.
pub type Found = (bool, Option<(u32, u32)>, Option<(u32, u32)>);

/// What both find by that name. The first takes the names first, and gives them back as they were.
pub fn name_found<H: Hall>(first: &mut H, second: &mut H, name: Name) -> Found
    requires first { MayName 0 (H.state first.old) }
    requires second { MayName 1 (H.state second.old) }
{
    let names = first.take(0, Slot::NamesSlot).into_names();
    let Err(_busy) = second.try_take(1, Slot::NamesSlot) else {
        return (false, None, None);
    };
    let found = names.heaps.lookup(name.as_bytes());
    first.give(0, Slot::NamesSlot, Kept::Names { names });
    let names = second.take(1, Slot::NamesSlot).into_names();
    (true, found, names.heaps.lookup(name.as_bytes()))
}
