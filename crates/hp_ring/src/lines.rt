//! Every other line of a text.
ghost use Rattle.std.specs.Prelude.{◌≡◌, ◌+◌, ◌++◌, ◌<◌, ◌≤◌, IfOk, vec_capacity, vec_len};
ghost use Rattle.hp_ring.specs.Weave.{every_other, kept, lines_of, own_after};

use std::alloc::{AllocError, Global};

const NEWLINE: u8 = b'\n';

// The bytes of every other line, one in each word: from the first line on, or from the second one.
pub(crate) fn every_other(alloc: Global, text: &[u8], own: bool) -> Result<Vec<u64>, AllocError>
    ensures { IfOk result (λ words. words.items ≡ every_other own (lines_of text.now)) }
{
    let mut words = Vec::with_capacity(alloc, text.len())?;
    let mut own = own;
    for byte in text {
        keep(&mut words, own, *byte);
        own = own_after(own, *byte);
    }
    Ok(words)
}

// Whether the next byte is of one's own lines.
fn own_after(own: bool, byte: u8) -> bool
    ensures { result ≡ own_after own byte }
{
    if byte == NEWLINE { !own } else { own }
}

// A byte of one's own lines is a word more.
fn keep(words: &mut Vec<u64>, own: bool, byte: u8)
    requires { vec_len words.old < vec_capacity words.old }
    ensures items { words.new.items ≡ words.old.items ++ kept own byte }
    ensures len { vec_len words.new ≤ vec_len words.old + 1 }
    ensures capacity { vec_capacity words.new ≡ vec_capacity words.old }
{
    if own {
        words.push_reserved(u64::from(byte));
    }
}
