//! What parameters say, by kind.

ghost use Rattle.std.specs.Prelude.{◌≡◌, length};
ghost use Rattle.hp_frame.specs.Spelling.{kind_of, param_len_of, param_of, FitsWidths};

use crate::kind::Kind;
use crate::message::Body;
use crate::numbers::{front_u8, front_u32, front_u64};

fn alloc_of(param: &[u8]) -> Body
    requires { length param.now ≡ 53 }
    ensures param { param.now ≡ param_of result }
    ensures kind { kind_of result ≡ Kind.Alloc }
    ensures widths { FitsWidths result }
{
    let (from, rest) = front_u8(param);
    let (number, rest) = front_u64(rest);
    let (heap, rest) = front_u32(rest);
    let (socket, rest) = front_u32(rest);
    let (page, rest) = front_u64(rest);
    let (size, rest) = front_u64(rest);
    let (align, rest) = front_u64(rest);
    let (bound, rest) = front_u64(rest);
    let (flags, _) = front_u32(rest);
    Body::Alloc {
        from,
        number,
        heap,
        socket,
        page,
        size,
        align,
        bound,
        flags,
    }
}

fn free_of(param: &[u8]) -> Body
    requires { length param.now ≡ 29 }
    ensures param { param.now ≡ param_of result }
    ensures kind { kind_of result ≡ Kind.Free }
    ensures widths { FitsWidths result }
{
    let (from, rest) = front_u8(param);
    let (number, rest) = front_u64(rest);
    let (heap, rest) = front_u32(rest);
    let (address, rest) = front_u64(rest);
    let (length, _) = front_u64(rest);
    Body::Free {
        from,
        number,
        heap,
        address,
        length,
    }
}

fn sync_of(param: &[u8]) -> Body
    requires { length param.now ≡ 9 }
    ensures param { param.now ≡ param_of result }
    ensures kind { kind_of result ≡ Kind.Sync }
    ensures widths { FitsWidths result }
{
    let (generation, rest) = front_u64(param);
    let (round, _) = front_u8(rest);
    Body::Sync { generation, round }
}

fn answer_of(param: &[u8]) -> Body
    requires { length param.now ≡ 11 }
    ensures param { param.now ≡ param_of result }
    ensures kind { kind_of result ≡ Kind.Answer }
    ensures widths { FitsWidths result }
{
    let (from, rest) = front_u8(param);
    let (number, rest) = front_u64(rest);
    let (what, rest) = front_u8(rest);
    let (code, _) = front_u8(rest);
    Body::Answer {
        from,
        number,
        what,
        code,
    }
}

/// The one body of a kind whose parameter is this.
pub(crate) fn body_of(kind: Kind, param: &[u8]) -> Body
    requires { length param.now ≡ param_len_of kind }
    ensures param { param.now ≡ param_of result }
    ensures kind { kind_of result ≡ kind }
    ensures widths { FitsWidths result }
{
    match kind {
        Kind::Alloc => alloc_of(param),
        Kind::Free => free_of(param),
        Kind::Sync => sync_of(param),
        Kind::Answer => answer_of(param),
    }
}
