ghost use Rattle.std.specs.Prelude.{◌≡◌, ℕ, List, Some, None, OnOk, if◌then◌else◌};
ghost use Rattle.std.specs.Str.{bytes_eq};

use crate::word::{Word, WordKey};
use std::alloc::{AllocError, Global};
use std::collections::HashMap;

/// What a live label stands for: the number of the line that made it, and the address of its element's data.
#[derive(Clone, Copy)]
pub struct Place {
    pub number: u32,
    pub addr: u64,
}

/// The live labels of a session, with what each stands for.
#[derive(Drop)]
pub struct Labels<'a> {
    pub places: HashMap<WordKey<'a>, Place>,
}

impl<'a> Labels<'a> {
    ghost use Rattle.hp_bytes.specs.Places.{place_of};

    /// No label is live.
    pub fn new(alloc: Global) -> Labels<'a>
        ensures { (label : List ℕ) → place_of result label ≡ None }
    {
        Labels {
            places: HashMap::new(alloc),
        }
    }

    /// What a label stands for, where it is live.
    pub fn find(&self, label: &Word<'_>) -> Option<Place>
        ensures { result ≡ place_of self.now label.now }
    {
        let key = WordKey {
            text: label.as_bytes(),
        };
        self.places.get(&key).copied()
    }

    /// Makes a label live.
    pub fn add(&mut self, label: &Word<'a>, place: Place) -> Result<(), AllocError>
        ensures { OnOk result ((other : List ℕ) → place_of self.new other
            ≡ (if bytes_eq label.now other then Some place else place_of self.old other)) }
    {
        let key = WordKey {
            text: label.as_bytes(),
        };
        let _before = self.places.insert(key, place)?;
        Ok(())
    }

    /// Makes a label live no longer.
    pub fn remove(&mut self, label: &Word<'a>)
        ensures { (other : List ℕ) → place_of self.new other
            ≡ (if bytes_eq label.now other then None else place_of self.old other) }
    {
        let key = WordKey {
            text: label.as_bytes(),
        };
        let _before = self.places.remove(&key);
    }
}
