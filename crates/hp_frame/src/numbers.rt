//! Numbers as bytes, their lowest byte first: read from a front, written at a place.

ghost use Rattle.std.specs.Prelude.{◌+◌, ◌≤◌, ◌<◌, [], ◌∷◌, length};
ghost use Rattle.std.specs.Int.{w16, w32, w64, to_le_bytes};
ghost use Rattle.hp_frame.specs.Parts.{Takes, Puts};

/// The first byte, and the bytes after it.
pub(crate) fn front_u8(bytes: &[u8]) -> (u8, &[u8])
    requires { 0 < length bytes.now }
    ensures { Takes bytes.now (result.0 ∷ []) result.1.now }
{
    let (front, rest) = bytes.split_at(1);
    (front[0], rest)
}

/// The number of the first four bytes, and the bytes after them.
pub(crate) fn front_u32(bytes: &[u8]) -> (u32, &[u8])
    requires { 4 ≤ length bytes.now }
    ensures { Takes bytes.now (to_le_bytes w32 result.0) result.1.now }
{
    let (front, rest) = bytes.split_at(4);
    let number = u32::from_le_bytes([front[0], front[1], front[2], front[3]]);
    (number, rest)
}

/// The number of the first eight bytes, and the bytes after them.
pub(crate) fn front_u64(bytes: &[u8]) -> (u64, &[u8])
    requires { 8 ≤ length bytes.now }
    ensures { Takes bytes.now (to_le_bytes w64 result.0) result.1.now }
{
    let (front, rest) = bytes.split_at(8);
    let number = u64::from_le_bytes([
        front[0], front[1], front[2], front[3], front[4], front[5], front[6], front[7],
    ]);
    (number, rest)
}

/// Writes the part from place `at` on. The result is the place after it.
pub(crate) fn put(out: &mut [u8], at: usize, part: &[u8]) -> usize
    requires { at + length part.now ≤ length out.old }
    ensures { Puts out.old at part.now out.new result }
{
    let end = at + part.len();
    out[at..end].copy_from_slice(part);
    end
}

pub(crate) fn put_u8(out: &mut [u8], at: usize, number: u8) -> usize
    requires { at + 1 ≤ length out.old }
    ensures { Puts out.old at (number ∷ []) out.new result }
{
    put(out, at, &[number])
}

pub(crate) fn put_u16(out: &mut [u8], at: usize, number: u16) -> usize
    requires { at + 2 ≤ length out.old }
    ensures { Puts out.old at (to_le_bytes w16 number) out.new result }
{
    put(out, at, &number.to_le_bytes())
}

pub(crate) fn put_u32(out: &mut [u8], at: usize, number: u32) -> usize
    requires { at + 4 ≤ length out.old }
    ensures { Puts out.old at (to_le_bytes w32 number) out.new result }
{
    put(out, at, &number.to_le_bytes())
}

pub(crate) fn put_u64(out: &mut [u8], at: usize, number: u64) -> usize
    requires { at + 8 ≤ length out.old }
    ensures { Puts out.old at (to_le_bytes w64 number) out.new result }
{
    put(out, at, &number.to_le_bytes())
}
