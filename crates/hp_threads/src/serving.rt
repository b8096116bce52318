//! How a participant serves between its lines.
ghost use Rattle.std.specs.Prelude.{◌≡◌, false, OnOk};
ghost use Rattle.hp_proc.specs.LineInHall.{IsReadyIn};
ghost use Rattle.hp_threads.specs.Working.{GoesOnWorking, IsReadyStill};

use hp_base::{Gate, Mapper};
use hp_chair::Marks;
use hp_hall::Hall;
use hp_proc::Participant;
use hp_serve::Decide;
use std::alloc::AllocError;
use std::sync::Wait;
use std::thread;

// It serves once.
fn serve<H: Hall, M: Mapper, F: Decide + Copy + Drop>(
    hall: &mut H,
    participant: &mut Participant<'_, M, F>,
) -> Result<bool, AllocError>
    requires ready { IsReadyIn participant.old.party.me participant.old (H.state hall.old) }
    ensures still { IsReadyStill participant.old participant.new (H.state hall.old) (H.state hall.new) }
    ensures goes { OnOk result (GoesOnWorking participant.old participant.new (H.state hall.old) (H.state hall.new)) }
    ensures goes_on { H.goes_on hall.old hall.new }
{
    participant.serve(hall)
}

// It serves until nothing is left for it.
fn serve_all<H: Hall, M: Mapper, F: Decide + Copy + Drop, R: Wait>(
    rt: &R,
    hall: &mut H,
    participant: &mut Participant<'_, M, F>,
) -> Result<(), AllocError>
    requires ready { IsReadyIn participant.old.party.me participant.old (H.state hall.old) }
    ensures still { IsReadyStill participant.old participant.new (H.state hall.old) (H.state hall.new) }
    ensures goes { OnOk result (GoesOnWorking participant.old participant.new (H.state hall.old) (H.state hall.new)) }
    ensures goes_on { H.goes_on hall.old hall.new }
{
    for _ in rt.forever() {
        let served = serve(hall, participant)?;
        if !served {
            return Ok(());
        }
    }
    unreachable!()
}

/// It serves until the gate lets it do the line of that number.
pub fn await_gate<H: Hall, M: Mapper, F: Decide + Copy + Drop, G: Gate, R: Wait>(
    rt: &R,
    gate: &G,
    hall: &mut H,
    participant: &mut Participant<'_, M, F>,
    line: u32,
) -> Result<(), AllocError>
    requires ready { IsReadyIn participant.old.party.me participant.old (H.state hall.old) }
    ensures still { IsReadyStill participant.old participant.new (H.state hall.old) (H.state hall.new) }
    ensures goes { OnOk result (GoesOnWorking participant.old participant.new (H.state hall.old) (H.state hall.new)) }
    ensures goes_on { H.goes_on hall.old hall.new }
{
    let who = participant.server().number();
    for _ in rt.forever() {
        serve_all(rt, hall, participant)?;
        if gate.ready(who, line) {
            return Ok(());
        }
        thread::yield_now();
    }
    unreachable!()
}

// It serves once after its lines. It answers whether it did something, and whether it was refused memory, now or before, which it marks.
fn serve_on<H: Hall, M: Mapper, F: Decide + Copy + Drop>(
    marks: &Marks,
    hall: &mut H,
    participant: &mut Participant<'_, M, F>,
    stopped: bool,
) -> (bool, bool)
    requires ready { IsReadyIn participant.old.party.me participant.old (H.state hall.old) }
    ensures still { IsReadyStill participant.old participant.new (H.state hall.old) (H.state hall.new) }
    ensures going { result.1 ≡ false → stopped ≡ false }
    ensures goes { result.1 ≡ false → GoesOnWorking participant.old participant.new (H.state hall.old) (H.state hall.new) }
    ensures goes_on { H.goes_on hall.old hall.new }
{
    match serve(hall, participant) {
        Ok(moved) => (moved, stopped),
        Err(AllocError) => {
            marks.stop();
            (false, true)
        }
    }
}

/// It serves until so many have finished and nothing is left for it, and answers whether it was refused memory. One that was goes on
/// serving.
pub fn serve_rest<H: Hall, M: Mapper, F: Decide + Copy + Drop, R: Wait>(
    rt: &R,
    marks: &Marks,
    count: u64,
    hall: &mut H,
    participant: &mut Participant<'_, M, F>,
) -> bool
    requires ready { IsReadyIn participant.old.party.me participant.old (H.state hall.old) }
    ensures still { IsReadyStill participant.old participant.new (H.state hall.old) (H.state hall.new) }
    ensures goes { result ≡ false → GoesOnWorking participant.old participant.new (H.state hall.old) (H.state hall.new) }
    ensures goes_on { H.goes_on hall.old hall.new }
{
    let mut stopped = false;
    for _ in rt.forever() {
        let over = marks.finished() >= count;
        let served = serve_on(marks, hall, participant, stopped);
        stopped = served.1;
        if over && !served.0 {
            return stopped;
        }
        thread::yield_now();
    }
    unreachable!()
}
