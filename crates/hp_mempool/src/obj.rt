ghost use Rattle.std.specs.Prelude.{◌≡◌};

use std::marker::Model;

/// An object that was got from a pool, by its number and the address of its data. Own.
#[derive(Drop)]
pub struct Obj {
    pub(crate) number: u32,
    pub(crate) addr: u64,
}

impl Model for Obj {
    ghost use Rattle.hp_mempool.specs.PassView.{ObjView};

    ghost Value = { ObjView };

    ghost view = { λ o. record { number = o.number; addr = o.addr } };
}

impl Obj {
    /// The number of the object in its pool, from 0 up. Own.
    pub fn number(&self) -> u32
        ensures { result ≡ self.now.number }
    {
        self.number
    }

    /// The address of the object's data. After the pointer that rte_mempool_get gives.
    pub fn addr(&self) -> u64
        ensures { result ≡ self.now.addr }
    {
        self.addr
    }
}
