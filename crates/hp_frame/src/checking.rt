//! The first fault of bytes that are no frame.

ghost use Rattle.std.specs.Prelude.{◌≡◌, length, IfOk};
ghost use Rattle.std.specs.Result.{result_err};
ghost use Rattle.hp_frame.specs.Spelling.{param_len_of};
ghost use Rattle.hp_frame.specs.Parts.{IsChecked};
ghost use Rattle.hp_frame.specs.FirstFault.{is_no_name_len, bad_param_byte, bad_name_byte, bad_place, first_fault};

use crate::fault::Fault;
use crate::kind::Kind;
use crate::layout::{HEADER_LEN, NAME_MAX, PARAM_LEN_PLACE, PARAM_MAX};

fn is_no_name_len(len: u8) -> bool
    ensures { result ≡ is_no_name_len len }
{
    len == 0 || len > NAME_MAX
}

fn bad_name_byte(name: &[u8]) -> Option<usize>
    ensures { result ≡ bad_name_byte name.now }
{
    name.iter().position(|byte| !byte.is_ascii_graphic())
}

fn bad_param_byte(kind: Kind, param: &[u8]) -> Option<usize>
    requires { length param.now ≡ param_len_of kind }
    ensures { result ≡ bad_param_byte kind param.now }
{
    match kind {
        Kind::Alloc | Kind::Free => {
            if param[0] > 15 {
                return Some(0);
            }
        }
        Kind::Sync => {
            if param[8] < 1 || param[8] > 2 {
                return Some(8);
            }
        }
        Kind::Answer => {
            if param[0] > 15 {
                return Some(0);
            }
            if param[9] < 1 || param[9] > 3 {
                return Some(9);
            }
            if param[10] > 1 {
                return Some(10);
            }
        }
    }
    None
}

fn bad_place(kind: Kind, name: &[u8], param: &[u8]) -> Option<usize>
    ensures { result ≡ bad_place kind name.now param.now }
{
    if param.len() != kind.param_len() as usize {
        return Some(PARAM_LEN_PLACE);
    }
    if let Some(i) = bad_name_byte(name) {
        return Some(HEADER_LEN + i);
    }
    match bad_param_byte(kind, param) {
        Some(i) => Some(HEADER_LEN + name.len() + i),
        None => None,
    }
}

/// The kind of the frame that the bytes are, or their first fault.
pub(crate) fn check(bytes: &[u8]) -> Result<Kind, Fault>
    ensures fault { result_err result ≡ first_fault bytes.now }
    ensures checked { IfOk result (IsChecked bytes.now) }
{
    let have = bytes.len();
    if have < HEADER_LEN {
        return Err(Fault::Short {
            have,
            need: HEADER_LEN,
        });
    }
    let Some(kind) = Kind::with_byte(bytes[0]) else {
        return Err(Fault::Kind { byte: bytes[0] });
    };
    let name_len = bytes[1];
    if is_no_name_len(name_len) {
        return Err(Fault::NameLong { len: name_len });
    }
    let param_len = u16::from_le_bytes([bytes[2], bytes[3]]);
    if param_len > PARAM_MAX {
        return Err(Fault::ParamLong { len: param_len });
    }
    let name_end = HEADER_LEN + name_len as usize;
    let need = name_end + param_len as usize;
    if have < need {
        return Err(Fault::Short { have, need });
    }
    if have > need {
        return Err(Fault::Extra { rest: have - need });
    }
    match bad_place(kind, &bytes[HEADER_LEN..name_end], &bytes[name_end..need]) {
        Some(place) => Err(Fault::Field { place }),
        None => Ok(kind),
    }
}
