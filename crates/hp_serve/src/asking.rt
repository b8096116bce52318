//! Which messages are asks of participants to the coordinator.
ghost use Rattle.std.specs.Prelude.{◌≡◌, MatchOption, IfSome};
ghost use Rattle.hp_core.specs.Conditions.{NamesParticipants};
ghost use Rattle.hp_frame.specs.Spelling.{HasFieldValues};
ghost use Rattle.hp_serve.specs.Coordinating.{IsAskIn, IsNoAsk, is_sync_reply};

use hp_base::Request;
use hp_core::CoreEvent;
use hp_frame::Body;
use hp_segs::Ask;

/// The event that a message of one of `count` participants is for the coordinator. It is `None` where the message is no ask, where
/// its participant isn't declared, and where its numbers make no request. After handle_request of malloc_mp.c.
pub(crate) fn ask_in(body: &Body, count: u8) -> Option<CoreEvent>
    requires { HasFieldValues body.now }
    ensures ask { MatchOption result (IsNoAsk count body.now) (λ event. IsAskIn count body.now event) }
    ensures names { IfSome result NamesParticipants }
{
    match *body {
        Body::Alloc {
            from,
            number,
            heap,
            socket,
            page,
            size,
            align,
            bound,
            flags,
        } => {
            if from >= count {
                return None;
            }
            let Ok(request) = Request::new(size, align, bound, flags) else {
                return None;
            };
            let ask = Ask {
                from,
                number,
                heap,
                socket,
                page,
                request,
            };
            Some(CoreEvent::Grow { ask })
        }
        Body::Free { from, number, .. } => {
            if from >= count {
                return None;
            }
            Some(CoreEvent::Shrink { from, number })
        }
        Body::Sync { .. } => None,
        Body::Answer { .. } => None,
    }
}

/// Whether a message is a member's reply to a SYNC.
pub(crate) fn is_sync_reply(body: &Body) -> bool
    ensures { result ≡ is_sync_reply body.now }
{
    match *body {
        Body::Answer { what, .. } => what == 1,
        Body::Alloc { .. } | Body::Free { .. } | Body::Sync { .. } => false,
    }
}
