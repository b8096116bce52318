//! The passes of a participant to mailboxes, by the numbers of these.
ghost use Rattle.std.specs.Prelude.{◌≡◌, ◌<◌, ◌∷◌, ◌++◌, [], OnOk, Some, drop, length, slice_get};

use hp_mail::Pass;
use std::alloc::{AllocError, Global};
use std::marker::Model;

#[derive(Drop)]
pub struct Passes {
    list: Vec<Pass>,
}

impl Model for Passes {
    ghost use Rattle.std.specs.Prelude.{List};
    ghost use Rattle.hp_mail.specs.PassView.{PassView};

    ghost Value = { List PassView };

    ghost view = { λ a. a.list.items };
}

impl Passes {
    pub fn new(alloc: Global) -> Passes
        ensures { result ≡ [] }
    {
        Passes {
            list: Vec::new(alloc),
        }
    }

    pub fn of(list: Vec<Pass>) -> Passes
        ensures { result ≡ list.items }
    {
        Passes { list }
    }

    pub fn push(&mut self, pass: Pass) -> Result<(), AllocError>
        ensures { OnOk result (self.new ≡ self.old ++ pass ∷ []) }
    {
        self.list.push(pass)?;
        Ok(())
    }

    pub fn take_first(&mut self) -> Pass
        requires some { 0 < length self.old }
        ensures first { slice_get self.old 0 ≡ Some result }
        ensures rest { self.new ≡ drop 1 self.old }
    {
        self.list.remove(0)
    }

    pub fn into_list(self) -> Vec<Pass>
        ensures { result.items ≡ self }
    {
        self.list
    }
}
