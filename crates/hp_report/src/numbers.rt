//! Numbers and addresses as text, written in place: their digits are counted first, and then stand from the last to the first.
ghost use Rattle.std.specs.Prelude.{◌≡◌, ◌+◌, ◌≤◌, ◌<◌, length};
ghost use Rattle.std.specs.Fmt.{decimal};
ghost use Rattle.hp_script.specs.Answers.{address_text, number_text};
ghost use Rattle.hp_report.specs.InPlace.{IsPlaced};

use crate::hex::{hex_length, write_hex};
use itoa::write_digits;

/// The most bytes of a blank and of the decimal digits of a number.
pub const NUMBER: usize = 21;

/// The most bytes of a blank, of `0x` and of the hexadecimal digits of a number.
pub const ADDRESS: usize = 19;

/// Writes a blank and a number at a place of a buffer with room for `NUMBER` bytes there, and gives the place after them.
pub fn write_number(n: u64, buf: &mut [u8], at: usize) -> usize
    requires { at + 21 ≤ length buf.old }
    ensures { IsPlaced buf.old buf.new at (number_text n) result }
{
    if n < 10 {
        return write_digit(n, buf, at);
    }
    let end = at + 1 + decimal_length(n);
    buf[at] = b' ';
    let _first = write_digits(n, buf, end);
    end
}

// Writes a blank and a number of one digit, which most numbers of a report have.
fn write_digit(n: u64, buf: &mut [u8], at: usize) -> usize
    requires digit { n < 10 }
    requires room { at + 2 ≤ length buf.old }
    ensures { IsPlaced buf.old buf.new at (number_text n) result }
{
    buf[at] = b' ';
    buf[at + 1] = 48 + n as u8;
    at + 2
}

/// Writes a blank and an address at a place of a buffer with room for `ADDRESS` bytes there, and gives the place after them.
pub fn write_address(addr: u64, buf: &mut [u8], at: usize) -> usize
    requires { at + 19 ≤ length buf.old }
    ensures { IsPlaced buf.old buf.new at (address_text addr) result }
{
    let end = at + 3 + hex_length(addr);
    buf[at] = b' ';
    buf[at + 1] = b'0';
    buf[at + 2] = b'x';
    let _first = write_hex(addr, buf, end);
    end
}

/// Writes words at a place of a buffer with room for them there, and gives the place after them.
#[inline(always)]
pub fn write_words(words: &[u8], buf: &mut [u8], at: usize) -> usize
    requires { at + length words.now ≤ length buf.old }
    ensures { IsPlaced buf.old buf.new at words.now result }
{
    let end = at + words.len();
    buf[at..end].copy_from_slice(words);
    end
}

// How many decimal digits a number has.
fn decimal_length(n: u64) -> usize
    ensures { result ≡ length (decimal n) }
{
    let mut left = n;
    let mut len = 0;
    while left >= 10_000 {
        left /= 10_000;
        len += 4;
    }
    len + short_length(left)
}

fn short_length(n: u64) -> usize
    requires { n < 10000 }
    ensures { result ≡ length (decimal n) }
{
    if n < 10 {
        1
    } else if n < 100 {
        2
    } else if n < 1_000 {
        3
    } else {
        4
    }
}
