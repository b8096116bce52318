//! Laws of the definitions. They are proved of all values, and their functions have no code.
ghost use Rattle.std.specs.Prelude.{Bool, List, Option, ℕ};
ghost use Rattle.hp_hall.specs.Mail.{MailStep};
ghost use Rattle.hp_serve.specs.Coordinating.{IsServed};
ghost use Rattle.hp_serve.specs.Party.{Party};
ghost use Rattle.hp_serve.specs.Servings.{ServesSo};
ghost use Rattle.hp_serve.specs.Waiting.{LeavesAsked};

use hp_base::Judge;

/// Serving leaves a participant its last ask, whatever judge is asked: its number stays, and its answer stays once that has come. Own.
pub fn asking_law<J: Judge>(_judge: &J)
    ensures { (count : ℕ) (old new : Party) (steps : List MailStep) (answer : Option Bool)
        → IsServed (J.denies _judge.now) count old new steps answer → LeavesAsked old new }
{}

/// What one serving comes to. A member that fetches a SYNC follows it, and posts nothing but its reply to one. Participant 0 hands each ask
/// that it fetches to its coordinator, and posts nothing but SYNCs and RESULTs to participants that the hall has. Own.
pub fn served_law<J: Judge>(_judge: &J)
    ensures { (count : ℕ) (old new : Party) (steps : List MailStep) (answer : Option Bool)
        → IsServed (J.denies _judge.now) count old new steps answer → ServesSo (J.denies _judge.now) count old steps answer }
{}
