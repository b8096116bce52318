ghost use Rattle.std.specs.Prelude.{◌≡◌, ◌+◌, length};
ghost use Rattle.hp_frame.specs.Spelling.{param_of, HasSpelling, Spells};
ghost use Rattle.hp_frame.specs.Parts.{IsChecked};
ghost use Rattle.hp_frame.specs.View.{bytes_behind};

use crate::kind::Kind;
use crate::layout::HEADER_LEN;
use crate::message::Body;
use crate::param::body_of;
use std::marker::Model;

/// A frame that was read. Its name and its parameter are lent: they are parts of the bytes that were read,
/// and nothing of them is copied. Own.
#[derive(Drop)]
pub struct FrameView<'a> {
    bytes: &'a [u8],
    name_len: usize,
    body: Body,
}

impl<'a> Model for FrameView<'a> {
    ghost use Rattle.hp_frame.specs.View.{Viewed, message_in, IsFrameOf};

    ghost Value = { Viewed };

    ghost view = { λ v. record { address = v.bytes.ref_ptr; message = message_in v.bytes.now v.name_len v.body } };

    ghost invariant = { λ v. IsFrameOf v.bytes.now v.name_len v.body };
}

impl<'a> FrameView<'a> {
    /// The view of a frame of this kind.
    pub(crate) fn over(kind: Kind, bytes: &'a [u8]) -> FrameView<'a>
        requires { IsChecked bytes.now kind }
        ensures spelled { Spells bytes.now result.message }
        ensures lent { result.address ≡ bytes.entry.ref_ptr }
    {
        let name_len = bytes[1] as usize;
        let body = body_of(kind, &bytes[HEADER_LEN + name_len..]);
        FrameView {
            bytes,
            name_len,
            body,
        }
    }

    /// The name, lent from the frame: the bytes after the header. Own.
    pub fn name(&self) -> &'a [u8]
        ensures text { result.now ≡ self.now.message.name }
        ensures lent { result.ref_ptr ≡ bytes_behind self.now.address HEADER_LEN }
    {
        &self.bytes[HEADER_LEN..HEADER_LEN + self.name_len]
    }

    /// The parameter, lent from the frame: the bytes after the name, up to the end. Own.
    pub fn param(&self) -> &'a [u8]
        ensures text { result.now ≡ param_of self.now.message.body }
        ensures lent { result.ref_ptr
            ≡ bytes_behind self.now.address (HEADER_LEN + length self.now.message.name) }
    {
        &self.bytes[HEADER_LEN + self.name_len..]
    }

    /// What the message says. Own.
    pub fn body(&self) -> Body
        ensures body { result ≡ self.now.message.body }
        ensures message { HasSpelling self.now.message }
    {
        self.body
    }
}
