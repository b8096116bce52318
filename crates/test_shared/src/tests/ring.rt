//! Rings in a zone at 0x1001ffd80: what is put and taken, and which rings are refused.
ghost use Rattle.std.specs.Prelude.{◌≡◌};

use hp_base::Name;
use hp_ring::{Bulk, MAX_WORDS, Ring, RingFault, SendPass, TakePass};
use hp_zone::Zone;
use std::alloc::{AllocError, Global};
use std::sync::Wait;
use std::test::Fail;

mod weaves;

fn zone(len: u64) -> Zone {
    let Some(name) = Name::new(b"RG") else {
        unreachable!()
    };
    Zone {
        name,
        addr: 0x1_001f_fd80,
        len,
        socket: 0,
        heap: 0,
    }
}

#[derive(Clone, Copy)]
enum Step {
    // Puts these words, and whether there is room.
    Put(&'static [u64], bool),
    // Takes a bulk of these words, or none.
    Take(Option<&'static [u64]>),
}

// By the only sender and the taker of a ring of one slot.
const STEPS: [Step; 9] = [
    Step::Take(None),
    Step::Put(&[7, 0xffff_ffff_ffff_ffff], true),
    Step::Put(&[8], false),
    Step::Take(Some(&[7, 0xffff_ffff_ffff_ffff])),
    Step::Put(&[], true),
    Step::Put(&[8], false),
    Step::Take(Some(&[])),
    Step::Take(None),
    Step::Put(&[9, 8, 7], true),
];

// Whether it is a bulk of these words.
fn is_bulk(bulk: &Bulk, wanted: Option<&[u64]>) -> bool {
    match wanted {
        Some(words) => bulk.sender() == 0 && bulk.words() == words,
        None => false,
    }
}

// Whether a step does what it is to do.
fn do_step<R: Wait>(
    rt: &R,
    ring: &Ring,
    sender: &mut SendPass,
    taker: &mut TakePass,
    step: Step,
) -> bool
    requires sender { sender.old.ring ≡ ring.now.id }
    requires taker { taker.old.ring ≡ ring.now.id }
    ensures sender { (sender.new.ring ≡ sender.old.ring) × (sender.new.who ≡ sender.old.who) }
    ensures taker { taker.new.ring ≡ taker.old.ring }
{
    match step {
        Step::Put(words, fits) => {
            if words.len() > MAX_WORDS {
                return false;
            }
            match ring.put(rt, sender, words) {
                Ok(()) => fits,
                Err(_) => !fits,
            }
        }
        Step::Take(wanted) => match ring.take(rt, taker) {
            Some(bulk) => is_bulk(&bulk, wanted),
            None => wanted.is_none(),
        },
    }
}

// Whether each step does.
fn do_steps<R: Wait>(
    rt: &R,
    ring: &Ring,
    sender: &mut SendPass,
    taker: &mut TakePass,
    steps: &[Step],
) -> bool
    requires sender { sender.old.ring ≡ ring.now.id }
    requires taker { taker.old.ring ≡ ring.now.id }
    ensures sender { (sender.new.ring ≡ sender.old.ring) × (sender.new.who ≡ sender.old.who) }
    ensures taker { taker.new.ring ≡ taker.old.ring }
{
    for step in steps {
        if !do_step(rt, ring, sender, taker, *step) {
            return false;
        }
    }
    true
}

// Whether the steps do, and the last bulk is left.
fn plays<R: Wait>(rt: &R, alloc: Global) -> Result<bool, AllocError> {
    let Ok((ring, mut senders, mut taker)) = Ring::new(alloc, &zone(448), 1, 1) else {
        return Ok(false);
    };
    let Some(mut sender) = senders.pop() else {
        return Ok(false);
    };
    let does = do_steps(rt, &ring, &mut sender, &mut taker, &STEPS);
    senders.push(sender)?;
    let left = ring.close(rt, senders, taker);
    Ok(does && left.len() == 1 && is_bulk(&left[0], Some(&[9, 8, 7])))
}

#[test]
fn has_room_for_one_bulk_and_gives_what_is_left(rt: HostRuntime) -> Result<(), Fail> {
    assert!(rt; plays(&rt, rt.alloc())?);
    Ok(())
}

// A ring that is asked for, and the fault that refuses it.
struct Asked {
    len: u64,
    slots: u32,
    senders: u8,
    fault: RingFault,
}

const ASKED: [Asked; 8] = [
    Asked {
        len: 384,
        slots: 1,
        senders: 2,
        fault: RingFault::TooSmall {
            have: 384,
            need: 448,
        },
    },
    Asked {
        len: 447,
        slots: 1,
        senders: 1,
        fault: RingFault::TooSmall {
            have: 447,
            need: 448,
        },
    },
    Asked {
        len: 1_081_471,
        slots: 4_096,
        senders: 2,
        fault: RingFault::TooSmall {
            have: 1_081_471,
            need: 1_081_472,
        },
    },
    Asked {
        len: 0,
        slots: 0,
        senders: 0,
        fault: RingFault::BadSlots { slots: 0 },
    },
    Asked {
        len: 0,
        slots: 4_097,
        senders: 3,
        fault: RingFault::BadSlots { slots: 4_097 },
    },
    Asked {
        len: 0,
        slots: 4_096,
        senders: 0,
        fault: RingFault::BadSenders { senders: 0 },
    },
    Asked {
        len: 0,
        slots: 4_096,
        senders: 3,
        fault: RingFault::BadSenders { senders: 3 },
    },
    Asked {
        len: 0,
        slots: 1,
        senders: 2,
        fault: RingFault::TooSmall { have: 0, need: 448 },
    },
];

// Whether the ring is refused so.
fn is_refused(alloc: Global, asked: &Asked) -> bool {
    match Ring::new(alloc, &zone(asked.len), asked.slots, asked.senders) {
        Ok(_) => false,
        Err(fault) => fault == asked.fault,
    }
}

#[test]
fn names_the_first_fault(rt: HostRuntime) -> Result<(), Fail> {
    for asked in &ASKED {
        assert!(rt; is_refused(rt.alloc(), asked));
    }
    Ok(())
}

// Whether a ring goes by the name of its zone.
fn has_its_name(alloc: Global) -> bool {
    match Ring::new(alloc, &zone(448), 1, 2) {
        Ok((ring, _senders, _taker)) => ring.name().as_bytes() == b"RG".as_slice(),
        Err(_) => false,
    }
}

#[test]
fn goes_by_the_name_of_its_zone(rt: HostRuntime) -> Result<(), Fail> {
    assert!(rt; has_its_name(rt.alloc()));
    Ok(())
}
