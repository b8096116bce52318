ghost use Rattle.std.specs.Prelude.{◌≡◌, ◌+◌, ◌≤◌, length, take, drop};
ghost use Rattle.hp_frame.specs.Parts.{Puts};
ghost use Rattle.hp_frame.specs.Spelling.{kind_of, param_len_of, param_of, spelling, FitsWidths, IsValid, Spells};

use crate::kind::Kind;
use crate::message::{Body, Message};
use crate::numbers::{put, put_u8, put_u16, put_u32, put_u64};

fn put_alloc(out: &mut [u8], at: usize, body: Body) -> usize
    requires kind { kind_of body ≡ Kind.Alloc }
    requires room { at + param_len_of Kind.Alloc ≤ length out.old }
    ensures param { Puts out.old at (param_of body) out.new result }
    ensures widths { FitsWidths body }
{
    let Body::Alloc {
        from,
        number,
        heap,
        socket,
        page,
        size,
        align,
        bound,
        flags,
    } = body
    else {
        unreachable!()
    };
    let at = put_u8(out, at, from);
    let at = put_u64(out, at, number);
    let at = put_u32(out, at, heap);
    let at = put_u32(out, at, socket);
    let at = put_u64(out, at, page);
    let at = put_u64(out, at, size);
    let at = put_u64(out, at, align);
    let at = put_u64(out, at, bound);
    put_u32(out, at, flags)
}

fn put_param(out: &mut [u8], at: usize, body: Body) -> usize
    requires { at + param_len_of (kind_of body) ≤ length out.old }
    ensures param { Puts out.old at (param_of body) out.new result }
    ensures widths { FitsWidths body }
{
    match body {
        Body::Alloc { .. } => put_alloc(out, at, body),
        Body::Free {
            from,
            number,
            heap,
            address,
            length,
        } => {
            let at = put_u8(out, at, from);
            let at = put_u64(out, at, number);
            let at = put_u32(out, at, heap);
            let at = put_u64(out, at, address);
            put_u64(out, at, length)
        }
        Body::Sync { generation, round } => {
            let at = put_u64(out, at, generation);
            put_u8(out, at, round)
        }
        Body::Answer {
            from,
            number,
            what,
            code,
        } => {
            let at = put_u8(out, at, from);
            let at = put_u64(out, at, number);
            let at = put_u8(out, at, what);
            put_u8(out, at, code)
        }
    }
}

/// Writes the message's frame at the front of the buffer, and gives its length in bytes. It allocates
/// nothing. `Message::is_valid` tests the condition. Own.
pub fn write(msg: &Message, out: &mut [u8; 384]) -> usize
    requires valid { IsValid msg.now }
    ensures len { result ≡ length (spelling msg.now) }
    ensures front { Spells (take result out.new) msg.now }
    ensures fits { result ≤ 384 }

    // Behind the frame the buffer is as before.
    ensures behind { drop result out.new ≡ drop result out.old }
{
    let name = msg.name.as_bytes();
    let kind = msg.body.kind();
    let at = put_u8(out, 0, kind.byte());
    let at = put_u8(out, at, name.len() as u8);
    let at = put_u16(out, at, u16::from(kind.param_len()));
    let at = put(out, at, name);
    put_param(out, at, msg.body)
}
