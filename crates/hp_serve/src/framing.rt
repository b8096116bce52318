//! Messages to the handler of growths as frames.
ghost use Rattle.std.specs.Prelude.{◌≡◌, MatchOption, false, true};
ghost use Rattle.hp_frame.specs.Spelling.{HasFieldValues};
ghost use Rattle.hp_serve.specs.Frames.{Says, SaysNothing, handler_name};

use hp_base::Name;
use hp_frame::{Body, Frame, Message, read};

// The handler's name: malloc.
const HANDLER: [u8; 6] = *b"malloc";

// The handler's name as one of a message.
fn handler() -> Name
    ensures { result ≡ handler_name }
{
    Name::new(&HANDLER).unwrap()
}

/// The frame that says so to the handler. Own.
pub fn framed(body: Body) -> Frame
    requires { HasFieldValues body }
    ensures { Says result body }
{
    Frame::new(&Message {
        name: handler(),
        body,
    })
}

// Whether a name is the handler's. It is looked at byte by byte, which is less work than a search for a difference.
fn is_handler(name: &[u8]) -> bool
    ensures same { result ≡ true → name.now ≡ handler_name }
    ensures other { result ≡ false → name.now ≡ handler_name → ⊥ }
{
    match name {
        [first, second, third, fourth, fifth, sixth] => {
            *first == HANDLER[0]
                && *second == HANDLER[1]
                && *third == HANDLER[2]
                && *fourth == HANDLER[3]
                && *fifth == HANDLER[4]
                && *sixth == HANDLER[5]
        }
        _ => false,
    }
}

/// What a frame says to the handler. It is `None` where the frame doesn't read, or has another name.
pub(crate) fn parse_frame(frame: &Frame) -> Option<Body>
    ensures { MatchOption result (SaysNothing frame.now) (λ body. Says frame.now body) }
{
    match read(frame.as_bytes()) {
        Ok(view) => {
            if is_handler(view.name()) {
                Some(view.body())
            } else {
                None
            }
        }
        Err(_) => None,
    }
}
