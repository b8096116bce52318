//! Hexadecimal digits, two at a time, from the last to the first.
ghost use Rattle.std.specs.Prelude.{◌≡◌, ◌+◌, ◌/◌, ◌%◌, ◌<◌, ◌≤◌, ◌∷◌, ◌++◌, false};
ghost use Rattle.std.specs.Prelude.{length, take, drop};
ghost use Rattle.std.specs.Fmt.{digit_glyph, digits};

// The two digits of each byte.
static PAIRS: [u8; 512] =
    *b"000102030405060708090a0b0c0d0e0f101112131415161718191a1b1c1d1e1f202122232425262728292a2b2c2d2e2f303132333435363738393a3b3c3d3e3f\
        404142434445464748494a4b4c4d4e4f505152535455565758595a5b5c5d5e5f606162636465666768696a6b6c6d6e6f707172737475767778797a7b7c7d7e7f\
        808182838485868788898a8b8c8d8e8f909192939495969798999a9b9c9d9e9fa0a1a2a3a4a5a6a7a8a9aaabacadaeafb0b1b2b3b4b5b6b7b8b9babbbcbdbebf\
        c0c1c2c3c4c5c6c7c8c9cacbcccdcecfd0d1d2d3d4d5d6d7d8d9dadbdcdddedfe0e1e2e3e4e5e6e7e8e9eaebecedeeeff0f1f2f3f4f5f6f7f8f9fafbfcfdfeff";

/// How many hexadecimal digits a number has.
pub fn hex_length(n: u64) -> usize
    ensures { result ≡ length (digits 16 false n) }
{
    let mut left = n;
    let mut len = 0;
    while left >= 256 {
        left /= 256;
        len += 2;
    }
    if left < 16 { len + 1 } else { len + 2 }
}

/// Writes the lower-case hexadecimal digits of a number so that they end at `end`, and gives the place of the first.
pub fn write_hex(n: u64, buf: &mut [u8], end: usize) -> usize
    requires { (length (digits 16 false n) ≤ end) × (end ≤ length buf.old) }
    ensures start { result + length (digits 16 false n) ≡ end }
    ensures written { drop result buf.new ≡ digits 16 false n ++ drop end buf.old }
    ensures before { take result buf.new ≡ take result buf.old }
{
    let mut left = n;
    let mut at = end;
    while left >= 256 {
        write_pair(left % 256, buf, at - 2);
        left /= 256;
        at -= 2;
    }
    write_first(left, buf, at)
}

fn write_pair(pair: u64, buf: &mut [u8], at: usize)
    requires { (pair < 256) × (at + 2 ≤ length buf.old) }
    ensures written { drop at buf.new ≡ digit_glyph false (pair / 16) ∷ digit_glyph false (pair % 16) ∷ drop (at + 2) buf.old }
    ensures before { take at buf.new ≡ take at buf.old }
{
    let from = pair as usize * 2;
    let (front, back) = (PAIRS[from], PAIRS[from + 1]);
    buf[at] = front;
    buf[at + 1] = back;
}

// The first digit or two.
fn write_first(n: u64, buf: &mut [u8], end: usize) -> usize
    requires { (n < 256) × (length (digits 16 false n) ≤ end) × (end ≤ length buf.old) }
    ensures start { result + length (digits 16 false n) ≡ end }
    ensures written { drop result buf.new ≡ digits 16 false n ++ drop end buf.old }
    ensures before { take result buf.new ≡ take result buf.old }
{
    if n < 16 {
        buf[end - 1] = PAIRS[n as usize * 2 + 1];
        return end - 1;
    }
    write_pair(n, buf, end - 2);
    end - 2
}
