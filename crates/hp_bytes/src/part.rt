//! Parts of a buffer of bytes.
ghost use Rattle.std.specs.Prelude.{◌≡◌, ◌+◌, ◌≤◌, ◌&&◌, nat_le, length, take, drop, min, replicate, is_some, IfSome};
ghost use Rattle.std.specs.Borrow.{sem};
ghost use Rattle.hp_bytes.specs.Written.{written_over};
ghost use Rattle.hp_bytes.specs.Cuts.{lends_apart, lends_cut, lends_parts};
ghost use Rattle.hp_bytes.specs.Parts.{AreApart, IsPartFrom};

/// So many bytes of a store, from an index on: the byte at its base has the index 0. Own.
#[derive(Clone, Copy)]
pub struct Part {
    pub from: usize,
    pub len: usize,
}

/// So many bytes from an address on, where a buffer of some length from a base on has all of them. Own.
pub fn part_of(base: u64, room: usize, addr: u64, size: u64) -> Option<Part>
    ensures inside { is_some result ≡ (nat_le base addr && nat_le (addr + size) (base + room)) }
    ensures part { IfSome result (IsPartFrom base room addr size) }
{
    let from = addr.checked_sub(base)? as usize;
    let len = size as usize;
    if from <= room && len <= room - from {
        Some(Part { from, len })
    } else {
        None
    }
}

/// Fills a part of a buffer with a byte.
pub fn fill_part(bytes: &mut [u8], part: Part, byte: u8)
    requires { part.from + part.len ≤ length bytes.old }
    ensures { bytes.new ≡ written_over part.from (replicate part.len byte) bytes.old }
{
    let (_front, rest) = bytes.split_at_mut(part.from);
    let (part, _back) = rest.split_at_mut(part.len);
    part.fill(byte);
}

/// Copies the first bytes of a part to the begin of another that is apart from it, as many as both have.
pub fn copy_part(bytes: &mut [u8], source: Part, target: Part)
    requires apart { AreApart source target }
    requires within { source.from + source.len ≤ length bytes.old }
    requires within_too { target.from + target.len ≤ length bytes.old }
    ensures { bytes.new ≡ written_over target.from (take (min source.len target.len) (drop source.from bytes.old)) bytes.old }
{
    let n = source.len.min(target.len);
    if source.from < target.from {
        let (low, high) = bytes.split_at_mut(target.from);
        let (part, _rest) = high.split_at_mut(n);
        part.copy_from_slice(&low[source.from..source.from + n]);
    } else {
        let (low, high) = bytes.split_at_mut(source.from);
        let (_before, rest) = low.split_at_mut(target.from);
        let (part, _between) = rest.split_at_mut(n);
        part.copy_from_slice(&high[..n]);
    }
}

/// Two parts of a buffer that are apart, in whichever order they stand.
pub fn apart_mut(bytes: &mut [u8], first: Part, second: Part) -> (&mut [u8], &mut [u8])
    requires apart { AreApart first second }
    requires within { first.from + first.len ≤ length bytes.old }
    requires within_too { second.from + second.len ≤ length bytes.old }
    ensures* lends { sem 𝓛 (lends_apart first second bytes.entry result) }
    ensures first { result.0.now ≡ take first.len (drop first.from bytes.old) }
    ensures second { result.1.now ≡ take second.len (drop second.from bytes.old) }
{
    if first.from < second.from {
        two_parts_mut(bytes, first, second)
    } else {
        let (low, high) = two_parts_mut(bytes, second, first);
        (high, low)
    }
}

// Two parts of a buffer, of which the second begins behind the first.
fn two_parts_mut(bytes: &mut [u8], low: Part, high: Part) -> (&mut [u8], &mut [u8])
    requires apart { low.from + low.len ≤ high.from }
    requires within { high.from + high.len ≤ length bytes.old }
    ensures* lends { sem 𝓛 (lends_parts low high bytes.entry result) }
    ensures low { result.0.now ≡ take low.len (drop low.from bytes.old) }
    ensures high { result.1.now ≡ take high.len (drop high.from bytes.old) }
{
    let (front, back) = cut(bytes, high.from);
    let (_before, first) = cut(front, low.from);
    let (first, _between) = cut(first, low.len);
    let (second, _behind) = cut(back, high.len);
    (first, second)
}

// The bytes before an index, and those from it on.
fn cut(bytes: &mut [u8], at: usize) -> (&mut [u8], &mut [u8])
    requires { at ≤ length bytes.old }
    ensures* lends { sem 𝓛 (lends_cut bytes.entry result) }
    ensures first { result.0.now ≡ take at bytes.old }
    ensures second { result.1.now ≡ drop at bytes.old }
{
    bytes.split_at_mut(at)
}
