ghost use Rattle.std.specs.Prelude.{◌≡◌, ◌≤◌, length};
ghost use Rattle.hp_ring.specs.Bulks.{bulk};
ghost use Rattle.hp_ring.specs.declared.bulk.TheConstants.{MAX_WORDS};

use std::marker::Model;

/// The most words of a bulk. Own.
pub const MAX_WORDS: usize = 32;

/// Words of a sender, which are put and taken whole. After the bulks of rte_ring_enqueue_bulk; that a bulk is one unit of the ring is own.
#[derive(Drop)]
pub struct Bulk {
    sender: u8,
    // The words, and others after them.
    words: [u64; MAX_WORDS],
    len: u8,
}

impl Model for Bulk {
    ghost use Rattle.std.specs.Prelude.{◌≤◌, take};
    ghost use Rattle.hp_ring.specs.Bulks.{BulkView};

    ghost Value = { BulkView };

    ghost view = { λ a. record { sender = a.sender; words = take a.len a.words } };

    ghost invariant = { λ a. a.len ≤ 32 };
}

impl Bulk {
    // A bulk of these words.
    pub(crate) fn new(sender: u8, words: &[u64]) -> Bulk
        requires { length words.now ≤ MAX_WORDS }
        ensures { result ≡ bulk sender words.now }
    {
        let mut kept = [0u64; MAX_WORDS];
        let (front, _rest) = kept.split_at_mut(words.len());
        front.copy_from_slice(words);
        Bulk {
            sender,
            words: kept,
            len: words.len() as u8,
        }
    }

    /// The number of its sender. Own.
    pub fn sender(&self) -> u8
        ensures { result ≡ self.now.sender }
    {
        self.sender
    }

    /// Its words. Own.
    pub fn words(&self) -> &[u64]
        ensures words { result.now ≡ self.now.words }
        ensures few { length result.now ≤ MAX_WORDS }
    {
        &self.words[..self.len as usize]
    }
}
