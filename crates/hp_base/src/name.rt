ghost use Rattle.std.specs.Prelude.{◌≡◌, ◌↔◌, length, nat_eq, IsTrue, IsSome, IfSome};
ghost use Rattle.std.specs.Cmp.{partial_equiv_from_equiv};
ghost use Rattle.std.specs.Cmp.Lexicographic.{nat_list_eq_equiv, pointwise};
ghost use Rattle.hp_base.specs.Names.{IsNameText};

use std::alloc::AllocError;
use std::marker::Model;

/// The name of a heap, a memzone, a watcher or a validator: 1 to 63 bytes. After rte_memzone's and rte_malloc's names.
#[derive(Copy)]
pub struct Name {
    // The text, and zeros after it. The length is one byte, so that a name takes 64 bytes at an alignment of 1.
    bytes: [u8; 63],
    len: u8,
}

impl Model for Name {
    ghost use Rattle.std.specs.Prelude.{ℕ, List, length};
    ghost use Rattle.hp_base.specs.Names.{padded, text_of, IsPadded};

    ghost Value = { List ℕ };

    ghost view = { λ a. text_of a.bytes a.len };

    ghost invariant = { λ a. IsPadded a.bytes a.len };

    ghost inverse = { λ text. record { bytes = padded text; len = length text } };
}

impl Clone for Name {
    ghost use Rattle.std.specs.Prelude.{⊤};

    ghost is_clone = { λ x y. y ≡ x };

    ghost is_infallible = { λ _. ⊤ };

    fn clone(&self) -> Result<Self, AllocError> {
        Ok(*self)
    }
}

impl PartialEq for Name {
    ghost eq = { pointwise nat_eq };

    ghost laws = { partial_equiv_from_equiv nat_list_eq_equiv };

    /// Whether the two have the same text.
    fn eq(&self, other: &Name) -> bool
        ensures test { result ≡ pointwise nat_eq self.now other.now }
        ensures text { IsTrue result ↔ (self.now ≡ other.now) }
    {
        self.as_bytes() == other.as_bytes()
    }
}

impl Eq for Name {
    ghost laws = { nat_list_eq_equiv };
}

impl Name {
    /// The name with this text. It is `None` for an empty text and for one of more than 63 bytes. After
    /// RTE_MEM_EVENT_CALLBACK_NAME_LEN, which counts a zero at the end.
    pub fn new(text: &[u8]) -> Option<Name>
        ensures accepted { IsSome result ↔ IsNameText text.now }
        ensures text { IfSome result (λ name. name ≡ text.now) }
    {
        if text.is_empty() || text.len() > 63 {
            return None;
        }
        let mut bytes = [0u8; 63];
        let (front, _rest) = bytes.split_at_mut(text.len());
        front.copy_from_slice(text);
        Some(Name {
            bytes,
            len: text.len() as u8,
        })
    }

    /// Its text. Own.
    pub fn as_bytes(&self) -> &[u8]
        ensures text { result.now ≡ self.now }
        ensures accepted { IsNameText self.now }
    {
        &self.bytes[..self.len as usize]
    }
}
