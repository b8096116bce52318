use crate::numbers::{ADDRESS, NUMBER, write_address, write_number, write_words};
use crate::room::make_room;
use hp_base::{Run, Stats};
use itoa::Buffer;
use std::alloc::{AllocError, Global};
use std::marker::Model;

/// From this length on a page is full, in bytes.
const FULL: usize = 65_536;

/// The room for the last line of a page, in bytes, where its names are not longer than those that a workload has.
const LAST_LINE: usize = 1_024;

/// The text that is made and not yet handed to a sink. Contracts see it as its bytes. Own.
#[derive(Drop)]
pub struct Page {
    // The text, and room after it.
    bytes: Vec<u8>,
    len: usize,
}

impl Model for Page {
    ghost use Rattle.std.specs.Prelude.{ℕ, ◌≤◌, List, length, take};

    ghost Value = { List ℕ };

    ghost view = { λ page. take page.len page.bytes.items };

    ghost invariant = { λ page. page.len ≤ length page.bytes.items };
}

impl Page {
    ghost use Rattle.std.specs.Prelude.{◌≡◌, ◌*◌, ◌++◌, [], IfOk, OnOk};
    ghost use Rattle.hp_script.specs.Answers.{address_text, bytes_text, elements_text, number_text, stats_text};
    ghost use Rattle.hp_report.specs.CallTexts.{range_text, run_text, numbers_text};

    /// A page without text, with room for a full one.
    pub fn new(alloc: Global) -> Result<Page, AllocError>
        ensures { IfOk result (λ page. page ≡ []) }
    {
        let mut bytes = Vec::new(alloc);
        bytes.resize(FULL + LAST_LINE, 0)?;
        Ok(Page { bytes, len: 0 })
    }

    /// Its text.
    pub fn text(&self) -> &[u8]
        ensures { result.now ≡ self.now }
    {
        &self.bytes[..self.len]
    }

    /// Whether it is to be handed on.
    pub fn is_full(&self) -> bool {
        self.len >= FULL
    }

    /// Takes its text away, and keeps its memory.
    pub fn clear(&mut self)
        ensures { self.new ≡ [] }
    {
        self.len = 0;
    }

    /// Adds words.
    #[inline(always)]
    pub fn put(&mut self, words: &[u8]) -> Result<(), AllocError>
        ensures { OnOk result (self.new ≡ self.old ++ words.now) }
    {
        make_room(&mut self.bytes, self.len, words.len())?;
        self.len = write_words(words, self.bytes.as_mut_slice(), self.len);
        Ok(())
    }

    /// Adds a blank and a number.
    pub fn number(&mut self, n: u64) -> Result<(), AllocError>
        ensures { OnOk result (self.new ≡ self.old ++ number_text n) }
    {
        make_room(&mut self.bytes, self.len, NUMBER)?;
        self.len = write_number(n, self.bytes.as_mut_slice(), self.len);
        Ok(())
    }

    /// Adds a blank and an address.
    pub fn address(&mut self, addr: u64) -> Result<(), AllocError>
        ensures { OnOk result (self.new ≡ self.old ++ address_text addr) }
    {
        make_room(&mut self.bytes, self.len, ADDRESS)?;
        self.len = write_address(addr, self.bytes.as_mut_slice(), self.len);
        Ok(())
    }

    /// Adds words and a number.
    pub fn word_number(&mut self, words: &[u8], n: u64) -> Result<(), AllocError>
        ensures { OnOk result (self.new ≡ self.old ++ (words.now ++ number_text n)) }
    {
        self.put(words)?;
        self.number(n)
    }

    /// Adds the address and the length of a range.
    pub fn range(&mut self, addr: u64, len: u64) -> Result<(), AllocError>
        ensures { OnOk result (self.new ≡ self.old ++ range_text addr len) }
    {
        self.address(addr)?;
        self.number(len)
    }

    /// Adds words, and the address and the length of a range.
    pub fn word_range(&mut self, words: &[u8], addr: u64, len: u64) -> Result<(), AllocError>
        ensures { OnOk result (self.new ≡ self.old ++ (words.now ++ range_text addr len)) }
    {
        self.put(words)?;
        self.range(addr, len)
    }

    /// Adds the address and the length of a run of pages.
    pub fn run(&mut self, run: &Run) -> Result<(), AllocError>
        ensures { OnOk result (self.new ≡ self.old ++ run_text run.now) }
    {
        self.address(run.addr)?;
        match u64::from(run.count).checked_mul(run.page) {
            Some(len) => self.number(len),
            None => self.wide_number(u128::from(run.count) * u128::from(run.page)),
        }
    }

    // Adds a blank and a number that may be past 64 bits.
    fn wide_number(&mut self, n: u128) -> Result<(), AllocError>
        ensures { OnOk result (self.new ≡ self.old ++ number_text n) }
    {
        let mut buffer = Buffer::new();
        let text = buffer.format(n);
        self.put(b" ")?;
        self.put(text.as_bytes())
    }

    /// Adds the six numbers of statistics.
    pub fn numbers(&mut self, stats: &Stats) -> Result<(), AllocError>
        ensures { OnOk result (self.new ≡ self.old ++ numbers_text stats.now) }
    {
        self.number(stats.total)?;
        self.number(stats.free)?;
        self.number(stats.used)?;
        self.number(stats.greatest)?;
        self.number(stats.busy)?;
        self.number(stats.frees)
    }

    /// Adds the six numbers of statistics with their words.
    pub fn statistics(&mut self, stats: &Stats) -> Result<(), AllocError>
        ensures { OnOk result (self.new ≡ self.old ++ stats_text stats.now) }
    {
        self.bytes_of(stats)?;
        self.elements_of(stats)
    }

    // The numbers of bytes.
    fn bytes_of(&mut self, stats: &Stats) -> Result<(), AllocError>
        ensures { OnOk result (self.new ≡ self.old ++ bytes_text stats.now) }
    {
        self.word_number(b"total", stats.total)?;
        self.word_number(b" free", stats.free)?;
        self.word_number(b" used", stats.used)?;
        self.word_number(b" greatest", stats.greatest)
    }

    // The numbers of elements.
    fn elements_of(&mut self, stats: &Stats) -> Result<(), AllocError>
        ensures { OnOk result (self.new ≡ self.old ++ elements_text stats.now) }
    {
        self.word_number(b" busy", stats.busy)?;
        self.word_number(b" frees", stats.frees)
    }
}
