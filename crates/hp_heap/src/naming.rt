ghost use Rattle.std.specs.Prelude.{◌≡◌, ◌<◌};
ghost use Rattle.hp_heap.specs.History.{IsCall};

use crate::body::{Body, record};
use crate::entry::{HeapAnswer, HeapCall};
use hp_base::{Caller, Name};

impl Body {
    // Gives the heap a name and a socket number.
    pub(crate) fn set_name(&mut self, caller: Caller, name: Name, socket: u32)
        requires { 0 < self.old.spare }
        ensures { IsCall caller (HeapCall.Name name socket) HeapAnswer.Done self.old self.new }
    {
        self.name = Some(name);
        self.socket = socket;
        record(
            &mut self.history,
            caller,
            HeapCall::Name { name, socket },
            HeapAnswer::Done,
        );
        self.spare -= 1;
    }

    // Takes both away.
    pub(crate) fn clear_name(&mut self, caller: Caller)
        requires { 0 < self.old.spare }
        ensures { IsCall caller HeapCall.Unname HeapAnswer.Done self.old self.new }
    {
        self.name = None;
        self.socket = 0;
        record(
            &mut self.history,
            caller,
            HeapCall::Unname,
            HeapAnswer::Done,
        );
        self.spare -= 1;
    }
}
