//! A buffer with room after a place.
ghost use Rattle.std.specs.Prelude.{◌≡◌, ◌+◌, ◌≤◌, OnOk, length, take};

use std::alloc::AllocError;

/// Makes room for so many bytes after a place. What stands in front of the place stays.
#[inline(always)]
pub fn make_room(bytes: &mut Vec<u8>, at: usize, n: usize) -> Result<(), AllocError>
    requires within { at ≤ length bytes.old.items }
    ensures text { take at bytes.new.items ≡ take at bytes.old.items }
    ensures longer { length bytes.old.items ≤ length bytes.new.items }
    ensures room { OnOk result (at + n ≤ length bytes.new.items) }
{
    if n <= bytes.len() - at {
        return Ok(());
    }
    lengthen(bytes, at, n)
}

// Makes the room where it is missing.
#[cold]
#[inline(never)]
fn lengthen(bytes: &mut Vec<u8>, at: usize, n: usize) -> Result<(), AllocError>
    requires missing { (at ≤ length bytes.old.items) × (length bytes.old.items ≤ at + n) }
    ensures text { take at bytes.new.items ≡ take at bytes.old.items }
    ensures longer { length bytes.old.items ≤ length bytes.new.items }
    ensures room { OnOk result (at + n ≤ length bytes.new.items) }
{
    let Some(end) = at.checked_add(n) else {
        return Err(AllocError);
    };
    bytes.resize(end, 0)
}
