//! What stands against a ring that is asked for.
ghost use Rattle.std.specs.Prelude.{◌≡◌, ◌≤◌, OnOk, IfErr};
ghost use Rattle.hp_ring.specs.Asked.{IsAcceptable, IsFirstFault, asked_of, bytes_of};
ghost use Rattle.hp_ring.specs.declared.judging.TheConstants.{MAX_SLOTS};

use crate::fault::RingFault;
use hp_base::round64;

/// The most bulks that a ring holds. Own.
pub const MAX_SLOTS: u32 = 4_096;

/// The most senders of a ring. Own.
pub const MAX_SENDERS: u8 = 2;

// The bytes of a ring beside its slots. After struct rte_ring.
const RING_HEADER: u64 = 128;

// The bytes of a slot: a bulk's sender and length, and 32 words.
const SLOT_BYTES: u64 = 264;

// The first fault that stands against a ring in a zone of so many bytes, where there is one.
pub(crate) fn judge(have: u64, slots: u32, senders: u8) -> Result<(), RingFault>
    ensures ok { OnOk result (IsAcceptable (asked_of slots senders have)) }
    ensures err { IfErr result (IsFirstFault (asked_of slots senders have)) }
{
    if slots == 0 || slots > MAX_SLOTS {
        return Err(RingFault::BadSlots { slots });
    }
    if senders == 0 || senders > MAX_SENDERS {
        return Err(RingFault::BadSenders { senders });
    }
    let need = bytes_of(slots);
    if have < need {
        return Err(RingFault::TooSmall { have, need });
    }
    Ok(())
}

// How many bytes a ring takes.
pub(crate) fn bytes_of(slots: u32) -> u64
    requires { slots ≤ MAX_SLOTS }
    ensures { result ≡ bytes_of slots }
{
    let Some(bytes) = round64(RING_HEADER + u64::from(slots) * SLOT_BYTES) else {
        unreachable!()
    };
    bytes
}
