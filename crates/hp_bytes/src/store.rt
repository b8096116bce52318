ghost use Rattle.std.specs.Prelude.{◌≡◌, ℕ, ◌↔◌, ◌<◌, ◌≤◌, IfOk, OnOk, OnErr, ◌+◌, length, replicate, take, drop};
ghost use Rattle.std.specs.Result.{result_err};
ghost use Rattle.std.specs.Borrow.{sem};
ghost use Rattle.hp_bytes.specs.Stores.{byte_fault, most_bytes, with_bytes, IsData};
ghost use Rattle.hp_bytes.specs.Parts.{AreApart, IsPartOf, shared_front, two_fault};
ghost use Rattle.hp_bytes.specs.Written.{written_over};
ghost use Rattle.hp_bytes.specs.Lends.{lends_all, lends_part};

use crate::element::data_size;
use crate::fault::{ByteFault, StoreFault};
use crate::part::{Part, copy_part, fill_part, part_of};
use hp_heap::Heap;
use std::alloc::{AllocError, Global};
use std::marker::Model;

/// The greatest number of bytes of a store: 256 MiB. Own.
pub const LIMIT: usize = 268_435_456;

/// The bytes at adjacent addresses. Contracts see the first address and the bytes. Own.
#[derive(Drop)]
pub struct Store {
    pub(crate) base: u64,
    pub(crate) bytes: Vec<u8>,
}

impl Model for Store {
    ghost use Rattle.hp_bytes.specs.StoreView.{StoreView};

    ghost Value = { StoreView };

    ghost view = { λ a. record { base = a.base; bytes = a.bytes.items } };
}

impl Store {
    /// The bytes at `len` addresses from `base` on, all of them 0. Own.
    pub fn new(alloc: Global, base: u64, len: usize) -> Result<Store, StoreFault>
        ensures zeros { IfOk result (λ store. store ≡ record { base = base; bytes = replicate len 0 }) }
        ensures too_large { (limit : ℕ) → (result ≡ Err (StoreFault.TooLarge limit)) ↔ ((most_bytes < len) × (limit ≡ most_bytes)) }
    {
        if len > LIMIT {
            return Err(StoreFault::TooLarge { limit: LIMIT });
        }
        match zeros(alloc, len) {
            Ok(bytes) => Ok(Store { base, bytes }),
            Err(_) => Err(StoreFault::OutOfMemory),
        }
    }

    /// The data of the busy element of a heap with its data at `addr`. Own.
    pub fn bytes<'a>(&'a self, heap: &Heap, addr: u64) -> Result<&'a [u8], ByteFault>
        ensures refused { result_err result ≡ byte_fault addr self.now heap.now.plain }
        ensures part { IfOk result (λ part. IsData addr self.now heap.now.plain part.now) }
    {
        let part = self.part_at(heap, addr)?;
        Ok(&self.bytes[part.from..part.from + part.len])
    }

    /// Copies the first bytes of the data of an element to those of another, as many as both have.
    pub(crate) fn copy(&mut self, heap: &Heap, from: u64, to: u64) -> Result<(), ByteFault>
        ensures refused { result_err result ≡ two_fault from to self.old heap.now.plain }
        ensures copied { OnOk result (self.new ≡ with_bytes to (shared_front from to self.old heap.now.plain) self.old) }
        ensures err { OnErr result (self.new ≡ self.old) }
    {
        let (source, target) = self.two_parts_at(heap, from, to)?;
        copy_part(self.bytes.as_mut_slice(), source, target);
        Ok(())
    }

    /// A part of the buffer, for writing. When the loan ends, every other byte of the store is as before. Own.
    pub fn part_mut(&mut self, part: Part) -> &mut [u8]
        requires { part.from + part.len ≤ length self.old.bytes }
        ensures* lends { sem 𝓛 (lends_part part self.entry result) }
        ensures part { result.now ≡ take part.len (drop part.from self.old.bytes) }
    {
        self.bytes.slice_mut(part.from..part.from + part.len)
    }

    /// Makes a part of the buffer 0.
    pub(crate) fn clear(&mut self, part: Part)
        requires { part.from + part.len ≤ length self.old.bytes }
        ensures { self.new ≡ record {
          base = self.old.base;
          bytes = written_over part.from (replicate part.len 0) self.old.bytes;
        } }
    {
        fill_part(self.bytes.as_mut_slice(), part, 0);
    }

    /// All bytes of it, for writing.
    pub(crate) fn all_mut(&mut self) -> &mut [u8]
        ensures* lends { sem 𝓛 (lends_all self.entry result) }
        ensures all { result.now ≡ self.old.bytes }
    {
        self.bytes.as_mut_slice()
    }

    /// Which bytes the data of two elements are.
    pub(crate) fn two_parts_at(
        &self,
        heap: &Heap,
        a: u64,
        b: u64,
    ) -> Result<(Part, Part), ByteFault>
        ensures refused { result_err result ≡ two_fault a b self.now heap.now.plain }
        ensures first { IfOk result (λ two. IsPartOf a self.now heap.now.plain two.0) }
        ensures second { IfOk result (λ two. IsPartOf b self.now heap.now.plain two.1) }
        ensures apart { IfOk result (λ two. AreApart two.0 two.1) }
    {
        if a == b {
            return Err(ByteFault::Same { addr: a });
        }
        heap.sound();
        match self.part_at(heap, a) {
            Err(fault) => Err(fault),
            Ok(first) => match self.part_at(heap, b) {
                Err(fault) => Err(fault),
                Ok(second) => Ok((first, second)),
            },
        }
    }

    /// Which bytes of the store the data of the busy element with its data at `addr` are. Own.
    pub fn part_at(&self, heap: &Heap, addr: u64) -> Result<Part, ByteFault>
        ensures refused { result_err result ≡ byte_fault addr self.now heap.now.plain }
        ensures part { IfOk result (IsPartOf addr self.now heap.now.plain) }
    {
        let Some(size) = data_size(heap, addr) else {
            return Err(ByteFault::NotAnElement { addr });
        };
        match part_of(self.base, self.bytes.len(), addr, size) {
            Some(part) => Ok(part),
            None => Err(ByteFault::Outside { addr }),
        }
    }
}

fn zeros(alloc: Global, n: usize) -> Result<Vec<u8>, AllocError>
    ensures { IfOk result (λ bytes. bytes.items ≡ replicate n 0) }
{
    vec![in alloc; 0u8; n]
}
