//! Who watches the memory of a participant.
ghost use Rattle.std.specs.Prelude.{◌≡◌, OnErr, OnOk};
ghost use Rattle.hp_events.specs.Watchers.{AnswersUnwatch, AnswersWatch, unwatch_refusal, watch_refusal};
ghost use Rattle.hp_serve.specs.Watched.{with_watcher, without_watcher};

use super::Server;
use hp_base::Mapper;
use hp_events::{UnwatchFault, WatchFault};
use std::alloc::Global;

impl<'p, M: Mapper> Server<'p, M> {
    /// Registers a watcher that is told from now on of what comes into its table and goes, beside what there is. It is refused for its name,
    /// for one that has the name, for four that there are, in this order, and where memory is wanting. After
    /// rte_mem_event_callback_register.
    pub fn watch(&mut self, alloc: Global, name: &[u8]) -> Result<(), WatchFault>
        ensures judged { AnswersWatch (watch_refusal self.old.listeners name.now) result }
        ensures ok { OnOk result (self.new ≡ with_watcher name.now self.old) }
        ensures err { OnErr result (self.new ≡ self.old) }
    {
        self.watchers.register(alloc, name, self.maps.rows())
    }

    /// The watcher of that name is told of nothing more, and is no longer among them. After rte_mem_event_callback_unregister.
    pub fn unwatch(&mut self, name: &[u8]) -> Result<(), UnwatchFault>
        ensures judged { AnswersUnwatch (unwatch_refusal self.old.listeners name.now) result }
        ensures ok { OnOk result (self.new ≡ without_watcher name.now self.old) }
        ensures err { OnErr result (self.new ≡ self.old) }
    {
        self.watchers.unregister(name)
    }
}
