//! The filter beside the rows: which pages of which lists may have one.

ghost use Rattle.std.specs.Prelude.{◌≡◌, true, OnErr};
ghost use Rattle.page_list.specs.inside.Filter.{word_in, has_bit, IsMore, AreFiltered};

use crate::row::Row;
use balanced_tree::{BalancedTree, pair_rank};
use std::alloc::Global;
use vm_base::{HostMemory, PageNo};

/// The fewest words of a filter that has any.
const LEAST_WORDS: u64 = 2048;

/// For each list a word of 64 bits, and for each page a bit of its list's word, by the page's number modulo 64. If a
/// page has a row, its bit is set. So a clear bit says that the page has none, and a word of 0 that the list is empty.
/// Lists share words and pages share bits, so a set bit says nothing.
///
/// A bit stays set when its row goes. The filter is made anew if it is too small for the rows, or if more rows went
/// since the last time than there are words and rows.
#[derive(Drop)]
pub(crate) struct Filter {
    /// The words. There are none before room is made for the first time, when there is no row. A missing word counts as
    /// one with all bits set.
    words: Vec<u64>,
    /// The bits of a list's number that say where the list's word stands.
    mask: u64,
    /// The number of rows that went since the filter was made.
    gone: u64,
    /// The number of rows that may come or go before the filter has to be tested again.
    left: u64,
}

impl Filter {
    /// Makes a filter with no words. It takes no memory.
    pub(crate) fn new(alloc: Global) -> Filter {
        Filter {
            words: Vec::new(alloc),
            mask: 0,
            gone: 0,
            left: 0,
        }
    }

    /// Returns the word of a list: 0 only if no page of it has a row.
    #[inline(always)]
    pub(crate) fn word(&self, list: u64) -> u64
        ensures { result ≡ word_in self.now list }
    {
        let at = (list & self.mask) as usize;
        if at < self.words.len() {
            self.words[at]
        } else {
            u64::MAX
        }
    }

    /// Returns whether the bit of a page of a list is set: false only if the page has no row.
    #[inline(always)]
    pub(crate) fn may_have(&self, list: u64, page: PageNo) -> bool
        ensures { result ≡ has_bit self.now list page }
    {
        (self.word(list) >> (page % 64)) & 1 == 1
    }

    /// Sets the bit of a page of a list, and clears none, and notes that a row came.
    pub(crate) fn set(&mut self, list: u64, page: PageNo)
        ensures set { has_bit self.new list page ≡ true }
        ensures more { IsMore self.old self.new }
    {
        self.left = self.left.saturating_sub(1);
        let at = (list & self.mask) as usize;
        if at < self.words.len() {
            self.words[at] |= 1 << (page % 64);
        }
    }

    /// Notes that a row went. Its bit stays, since other pages may have it too.
    pub(crate) fn note_gone(&mut self)
        ensures { IsMore self.old self.new }
    {
        self.gone = self.gone.saturating_add(1);
        self.left = self.left.saturating_sub(1);
    }

    /// Returns whether `more` rows may come before the filter has to be tested again.
    #[inline(always)]
    pub(crate) fn suits(&self, more: u64) -> bool {
        more <= self.left
    }

    /// Makes the filter anew if it is too small for the rows of a tree and `more` of them, or if many rows went.
    /// `HostMemory` if the filter has to grow and the host has too little memory: the filter then stays as it was. A
    /// filter that need not grow takes no memory.
    pub(crate) fn renew(&mut self, tree: &BalancedTree<Row>, more: u64) -> Result<(), HostMemory>
        requires { AreFiltered self.old tree.now }
        ensures { AreFiltered self.new tree.now }
    {
        self.make_fit(tree, more)?;
        self.count_left(tree);
        Ok(())
    }

    /// Does what `renew` does, but not `count_left`.
    fn make_fit(&mut self, tree: &BalancedTree<Row>, more: u64) -> Result<(), HostMemory>
        requires { AreFiltered self.old tree.now }
        ensures { AreFiltered self.new tree.now }
    {
        if let Some(len) = self.wanted(tree.len() as u64, more) {
            self.clear(len)?;
            self.fill(tree);
        }
        Ok(())
    }

    /// Returns how many words the filter is to have, if it is to be made anew. If it has less than two for each row and each
    /// of `more`, it gets at least four for each, so that the rows can double before it grows again. No clause says when it
    /// is made anew, since a filter with more bits set is right too.
    fn wanted(&self, rows: u64, more: u64) -> Option<u64> {
        let len = self.words.len() as u64;
        let least = rows.saturating_add(more).saturating_mul(2);
        if len < least {
            let wide = least.saturating_mul(2).max(LEAST_WORDS);
            Some(wide.checked_next_power_of_two()?)
        } else if rows.saturating_add(len) < self.gone {
            Some(len)
        } else {
            None
        }
    }

    /// Notes how many rows may come or go until the filter may be too small, or until too many have gone.
    fn count_left(&mut self, tree: &BalancedTree<Row>)
        requires { AreFiltered self.old tree.now }
        ensures { AreFiltered self.new tree.now }
    {
        let rows = tree.len() as u64;
        let len = self.words.len() as u64;
        let room = (len / 2).saturating_sub(rows);
        let clean = rows.saturating_add(len).saturating_sub(self.gone) / 2;
        self.left = room.min(clean);
    }

    /// Clears all bits, and gives the filter `len` words. `HostMemory` if the host has too little memory for as many,
    /// and then no bit is cleared.
    fn clear(&mut self, len: u64) -> Result<(), HostMemory>
        ensures { OnErr result (IsMore self.old self.new) }
    {
        let count = len as usize;
        let Ok(()) = self
            .words
            .reserve_exact(count.saturating_sub(self.words.len()))
        else {
            return Err(HostMemory);
        };
        self.words.clear();
        // The room is there.
        let _ = self.words.resize(count, 0);
        self.mask = len.saturating_sub(1);
        self.gone = 0;
        Ok(())
    }

    /// Sets the bit of each row of a tree, whatever bits are set before.
    fn fill(&mut self, tree: &BalancedTree<Row>)
        ensures { AreFiltered self.new tree.now }
    {
        let _rising = tree.len();
        let mut from = 0;
        while let Some(row) = tree.next(from) {
            self.set(row.list.0, row.page);
            let Some(behind) = pair_rank(row.list.0, row.page).checked_add(1) else {
                return;
            };
            from = behind;
        }
    }
}
