ghost use Rattle.std.specs.Prelude.{◌≡◌, ◌+◌, ◌≤◌, IfOk, length, take, drop};
ghost use Rattle.std.specs.Result.{result_err};
ghost use Rattle.std.specs.Borrow.{sem};
ghost use Rattle.hp_bytes.specs.Stores.{byte_fault, IsData};
ghost use Rattle.hp_bytes.specs.Parts.{AreApart, IsPartOf, two_fault};
ghost use Rattle.hp_bytes.specs.Lends.{lends_data};
ghost use Rattle.hp_bytes.specs.LendsBoth.{lends_both};
ghost use Rattle.hp_bytes.specs.Loans.{lends_bytes, lends_store, lends_stores, lends_whole};

use crate::fault::ByteFault;
use crate::part::{Part, apart_mut};
use crate::store::Store;
use hp_heap::Heap;

/// A store that is lent, and which of its bytes are asked for.
#[derive(Drop)]
pub struct Loan<'a> {
    store: &'a mut Store,
    part: Part,
}

impl<'a> Loan<'a> {
    // These bytes, for writing.
    fn bytes(self) -> &'a mut [u8]
        requires { self.part.from + self.part.len ≤ length self.store.now.bytes }
        ensures* lends { sem 𝓛 (lends_bytes self.entry result) }
        ensures part { result.now ≡ take self.entry.part.len (drop self.entry.part.from self.entry.store.now.bytes) }
    {
        let Loan { store, part } = self;
        store.part_mut(part)
    }
}

/// A store that is lent, and two parts of it that are asked for.
#[derive(Drop)]
pub struct TwoLoans<'a> {
    store: &'a mut Store,
    first: Part,
    second: Part,
}

impl<'a> TwoLoans<'a> {
    // All bytes of the store, for writing.
    fn whole(self) -> &'a mut [u8]
        ensures* lends { sem 𝓛 (lends_whole self.entry result) }
        ensures whole { result.now ≡ self.entry.store.now.bytes }
    {
        let TwoLoans {
            store,
            first: _,
            second: _,
        } = self;
        store.all_mut()
    }
}

impl Store {
    /// The data of the busy element of a heap with its data at `addr`, for writing. When the loan ends, every other byte of the store is
    /// as before. Own.
    pub fn bytes_mut<'a>(&'a mut self, heap: &Heap, addr: u64) -> Result<&'a mut [u8], ByteFault>
        ensures* lends { sem 𝓛 (lends_data addr self.entry result) }
        ensures refused { result_err result ≡ byte_fault addr self.old heap.now.plain }
        ensures part { IfOk result (λ part. IsData addr self.old heap.now.plain part.now) }
    {
        match self.loan_at(heap, addr) {
            Ok(loan) => Ok(loan.bytes()),
            Err(fault) => Err(fault),
        }
    }

    // The store, where it has the data of that element.
    fn loan_at<'a>(&'a mut self, heap: &Heap, addr: u64) -> Result<Loan<'a>, ByteFault>
        ensures* lends { sem 𝓛 (lends_store self.entry result) }
        ensures refused { result_err result ≡ byte_fault addr self.old heap.now.plain }
        ensures store { IfOk result (λ loan. loan.store.now ≡ self.old) }
        ensures part { IfOk result (λ loan. IsPartOf addr self.old heap.now.plain loan.part) }
    {
        let part = self.part_at(heap, addr)?;
        Ok(Loan { store: self, part })
    }

    /// The data of two elements at once, for writing: two parts of the one buffer. When the loans end, every other byte of the store is
    /// as before. Own.
    pub fn two_mut<'a>(
        &'a mut self,
        heap: &Heap,
        a: u64,
        b: u64,
    ) -> Result<(&'a mut [u8], &'a mut [u8]), ByteFault>
        ensures* lends { sem 𝓛 (lends_both a b heap.now.plain self.entry result) }
        ensures refused { result_err result ≡ two_fault a b self.old heap.now.plain }
        ensures first { IfOk result (λ two. IsData a self.old heap.now.plain two.0.now) }
        ensures second { IfOk result (λ two. IsData b self.old heap.now.plain two.1.now) }
    {
        match self.loans_at(heap, a, b) {
            Ok(loans) => {
                let first = loans.first;
                let second = loans.second;
                Ok(apart_mut(loans.whole(), first, second))
            }
            Err(fault) => Err(fault),
        }
    }

    // The store, where it has the data of both elements.
    fn loans_at<'a>(&'a mut self, heap: &Heap, a: u64, b: u64) -> Result<TwoLoans<'a>, ByteFault>
        ensures* lends { sem 𝓛 (lends_stores self.entry result) }
        ensures refused { result_err result ≡ two_fault a b self.old heap.now.plain }
        ensures store { IfOk result (λ loans. loans.store.now ≡ self.old) }
        ensures first { IfOk result (λ loans. IsPartOf a self.old heap.now.plain loans.first) }
        ensures second { IfOk result (λ loans. IsPartOf b self.old heap.now.plain loans.second) }
        ensures apart { IfOk result (λ loans. AreApart loans.first loans.second) }
    {
        let (first, second) = self.two_parts_at(heap, a, b)?;
        Ok(TwoLoans {
            store: self,
            first,
            second,
        })
    }
}
