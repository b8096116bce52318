use hp_base::Clock;
use hp_chair::BoardHall;
use hp_hall::Waiting;
use std::sync::Wait;

// A hall in which what comes to the heaps of a participant is what its own steps add, and how many lines it has told to be done what these
// tell; and its deadlines count for nothing, since nobody's clock is another's. It has no calls of its own.
pub trait Adding: Waiting {
    ghost use Rattle.std.specs.Prelude.{◌≡◌};
    ghost use Rattle.hp_threads.specs.Adding.{AddsOnCourse, TellsOnCourse};

    ghost adds: { AddsOnCourse Self.goes_on Self.state };

    ghost tells: { TellsOnCourse Self.goes_on Self.state };

    ghost timeless: { Self.scale ≡ 0 };
}

impl<'a, C: Clock, R: Wait> Adding for BoardHall<'a, C, R> {
    ghost use Rattle.std.specs.Prelude.{refl};
    ghost use Rattle.hp_threads.specs.AddingLaws.{chair_adds, chair_tells};

    ghost adds = { chair_adds };

    ghost tells = { chair_tells };

    ghost timeless = { refl };
}
