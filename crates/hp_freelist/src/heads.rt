ghost use Rattle.std.specs.Prelude.{◌≡◌, ◌≢◌, ℕ, ◌<◌, ◌≤◌, Bool, IfSome, IfNone, None, replicate, slice_set};
ghost use Rattle.std.specs.Int.{bit_at};
ghost use Rattle.hp_freelist.specs.Heads.{head_at, bit_of, IsNext, NoneFrom, IsLast};

use std::marker::Model;

/// How many classes there are. After RTE_HEAP_NUM_FREELISTS.
pub const CLASSES: usize = 13;

/// The first key of the list of each class, with a bit for each list that has one.
#[derive(Drop)]
pub struct Heads {
    firsts: [Option<u32>; CLASSES],
    filled: u16,
}

impl Model for Heads {
    ghost use Rattle.std.specs.Prelude.{ℕ, List, Option};
    ghost use Rattle.hp_freelist.specs.Heads.{AreBits};

    ghost Value = { List (Option ℕ) };

    ghost view = { λ heads. heads.firsts };

    ghost invariant = { λ heads. AreBits heads.firsts heads.filled };
}

impl Heads {
    /// Heads of empty lists.
    pub fn new() -> Heads
        ensures { result ≡ replicate 13 None }
    {
        Heads {
            firsts: [None; CLASSES],
            filled: 0,
        }
    }

    /// The first key of a class.
    pub fn first(&self, class: u8) -> Option<u32>
        requires { class < 13 }
        ensures { result ≡ head_at self.now class }
    {
        self.firsts[class as usize]
    }

    /// Another first key of a class, or none.
    pub fn set(&mut self, class: u8, first: Option<u32>)
        requires { class < 13 }
        ensures { self.new ≡ slice_set self.old class first }
    {
        self.firsts[class as usize] = first;
        self.filled = with_bit(self.filled, class, first.is_some());
    }

    /// The least class from `class` on whose list has a key.
    pub fn next_from(&self, class: u8) -> Option<u8>
        requires { class ≤ 13 }
        ensures next { IfSome result (IsNext self.now class) }
        ensures none { IfNone result (NoneFrom self.now class) }
    {
        let rest = self.filled & (u16::MAX << class);
        if rest == 0 {
            None
        } else {
            Some(rest.trailing_zeros() as u8)
        }
    }

    /// The greatest class whose list has a key.
    pub fn last(&self) -> Option<u8>
        ensures last { IfSome result (IsLast self.now) }
        ensures none { IfNone result (NoneFrom self.now 0) }
    {
        if self.filled == 0 {
            None
        } else {
            Some(self.filled.ilog2() as u8)
        }
    }
}

/// `filled` with the bit of a class set or cleared.
fn with_bit(filled: u16, class: u8, is_filled: bool) -> u16
    requires { class < 16 }
    ensures same { bit_at result class ≡ bit_of is_filled }
    ensures others { (other : ℕ) → other < 16 → other ≢ class → bit_at result other ≡ bit_at filled other }
{
    if is_filled {
        filled | (1 << class)
    } else {
        filled & !(1 << class)
    }
}
