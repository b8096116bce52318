//! A source read to its end.
ghost use Rattle.std.specs.Prelude.{◌≡◌, ◌<◌, IfOk, MatchResult, length, vec_len};
ghost use Rattle.hp_view.specs.Streaming.{GaveAll, GaveUp, read_failed};
ghost use Rattle.hp_base.specs.Streams.{CountsFault};

use hp_base::{Got, Source};
use std::alloc::{AllocError, Global};

/// The greatest length of an input, in bytes.
pub const INPUT_LIMIT: usize = 67_108_864;

/// The greatest piece that is asked of a source at a time, in bytes.
const PIECE: usize = 65_536;

/// Why a source could not be read to its end.
#[derive(Clone, Copy)]
pub enum ReadFault {
    /// Reading failed.
    Failed,
    /// It gave more than the greatest length of an input.
    TooLong,
    /// Memory ran out.
    OutOfMemory,
}

/// The bytes of a source, up to its end. One that gives too much is left once it gave one byte more than the limit.
pub fn read_whole<S: Source>(alloc: Global, source: &mut S) -> Result<Vec<u8>, ReadFault>
    ensures read { MatchResult result
        (λ bytes. GaveAll (S.left source.old) (S.left source.new) bytes.items)
        (GaveUp (S.left source.old) (S.left source.new)) }
    ensures cause { CountsFault (S.faults source.old) (S.faults source.new) (read_failed result) }
{
    match zeros(alloc, PIECE) {
        Ok(mut piece) => read_by(alloc, source, piece.as_mut_slice()),
        Err(_) => Err(ReadFault::OutOfMemory),
    }
}

// Reads in pieces as large as the buffer.
fn read_by<S: Source>(alloc: Global, source: &mut S, piece: &mut [u8]) -> Result<Vec<u8>, ReadFault>
    requires { 0 < length piece.old }
    ensures read { MatchResult result
        (λ bytes. GaveAll (S.left source.old) (S.left source.new) bytes.items)
        (GaveUp (S.left source.old) (S.left source.new)) }
    ensures cause { CountsFault (S.faults source.old) (S.faults source.new) (read_failed result) }
{
    let mut bytes = Vec::new(alloc);
    while bytes.len() <= INPUT_LIMIT {
        let room = piece.len().min(INPUT_LIMIT + 1 - bytes.len());
        let (buf, _spare) = piece.split_at_mut(room);
        match source.read(buf) {
            Got::Bytes(n) => {
                if bytes.extend_from_slice(&buf[..n]).is_err() {
                    return Err(ReadFault::OutOfMemory);
                }
            }
            Got::End => return Ok(bytes),
            Got::Failed => return Err(ReadFault::Failed),
        }
    }
    Err(ReadFault::TooLong)
}

fn zeros(alloc: Global, n: usize) -> Result<Vec<u8>, AllocError>
    ensures { IfOk result (λ bytes. vec_len bytes ≡ n) }
{
    vec![in alloc; 0u8; n]
}
