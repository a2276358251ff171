//! Maps from pages to numbers of links, by blocks of pages.

ghost use Rattle.std.specs.Prelude.{◌≡◌, ◌↔◌, ℕ, ◌+◌, ◌/◌, ◌%◌, ◌<◌, ◌≤◌, length, None, Some, OnOk, IsSome, IfSome, IsTrue};
ghost use Rattle.std.specs.Option.{option_map};
ghost use Rattle.slab.specs.Slab.{get, slab_len, ContainsKey};
ghost use Rattle.balanced_tree.specs.Pairs.{with_pair, IsNext};
ghost use Rattle.pair_map.specs.Maps.{values_of};
ghost use Rattle.vm_base.specs.Entries.{with_key};
ghost use Rattle.fault.specs.declared.page_map.Block.{Block};
ghost use Rattle.fault.specs.inside.Pages.{ArePages, link_numbers, links_in, room_left, block_entry, with_entry};

use pair_map::PairMap;
use slab::Slab;
use std::alloc::{AllocError, Global};
use std::marker::Model;

/// The numbers of the links of eight pages in a row.
#[derive(Clone, Copy)]
pub(crate) struct Block {
    pub(crate) entries: [Option<usize>; 8],
}

/// Numbers of links, each under a list and a page. The pages of a list stand in blocks of eight, so that pages that lie side
/// by side have one row of the tree. Contracts see the number of each list and page (`link_numbers`), and `room_left`, how many
/// more fit with no memory from the host. No call but `reserve` asks the host for memory.
#[derive(Drop)]
pub(crate) struct PageMap {
    /// The number of each block, by the list and the number of its first page, by eight.
    rows: PairMap<usize>,
    blocks: Slab<Block>,
}

impl Model for PageMap {
    ghost use Rattle.fault.specs.inside.Pages.{Pages, ArePages};

    ghost Value = { Pages };

    ghost view = { λ m. record { rows = m.rows; blocks = m.blocks } };

    ghost invariant = { λ m. ArePages (record { rows = m.rows; blocks = m.blocks }) };
}

impl PageMap {
    /// Makes a map with no number and no room.
    #[tactic(auto, unfolding(crate::specs::inside::Pages::link_numbers))]
    pub(crate) fn new(alloc: Global) -> PageMap
        ensures { link_numbers result ≡ λ a p. None }
    {
        PageMap {
            rows: PairMap::new(alloc),
            blocks: Slab::new(alloc),
        }
    }

    /// Makes room for `n` numbers more. Fails if the host has too little memory.
    #[tactic(auto, unfolding(crate::specs::inside::Pages::link_numbers))]
    pub(crate) fn reserve(&mut self, n: usize) -> Result<(), AllocError>
        ensures room { OnOk result (n ≤ room_left self.new) }
        ensures links { link_numbers self.new ≡ link_numbers self.old }
        ensures kept { room_left self.old ≤ room_left self.new }
    {
        self.rows.reserve(n)?;
        self.blocks.reserve(n)
    }

    /// Returns whether no page has a number.
    #[tactic(auto, unfolding(crate::specs::inside::Pages::link_numbers))]
    pub(crate) fn is_empty(&self) -> bool
        ensures { IsTrue result ↔ ((a p : ℕ) → link_numbers self.now a p ≡ None) }
    {
        self.rows.len() == 0
    }

    /// Returns the number of a page of a list. `None` if it has none.
    #[inline(always)]
    #[tactic(auto, unfolding(crate::specs::inside::Pages::link_numbers))]
    pub(crate) fn find(&self, list: u64, page: u64) -> Option<usize>
        ensures { result ≡ link_numbers self.now list page }
    {
        match self.rows.find(list, block_of(page)) {
            Some(at) => self.blocks[at].entries[place_of(page)],
            None => None,
        }
    }

    /// Returns the least page of a list from `from` on that has a number, and the number. `None` if there is none.
    #[tactic(auto, unfolding(crate::specs::inside::Pages::link_numbers))]
    pub(crate) fn next(&self, list: u64, from: u64) -> Option<(u64, usize)>
        ensures next { IsNext (link_numbers self.now list) from (option_map (λ pair. pair.0) result) }
        ensures value { IfSome result (λ pair. link_numbers self.now list pair.0 ≡ Some pair.1) }
    {
        let first = block_of(from);
        match self.rows.next(list, first) {
            Some((number, at)) => {
                let start = if number == first { place_of(from) } else { 0 };
                match first_entry(&self.blocks[at], start) {
                    Some((place, link)) => Some((number * 8 + place as u64, link)),
                    None => match self.rows.next(list, first + 1) {
                        Some((number, at)) => match first_entry(&self.blocks[at], 0) {
                            Some((place, link)) => Some((number * 8 + place as u64, link)),
                            None => unreachable!(),
                        },
                        None => None,
                    },
                }
            }
            None => None,
        }
    }

    /// Gives a page that has no number one.
    #[tactic(auto, unfolding(crate::specs::inside::Pages::link_numbers))]
    pub(crate) fn insert(&mut self, list: u64, page: u64, link: usize)
        requires absent { link_numbers self.old list page ≡ None }
        requires room { 1 ≤ room_left self.old }
        ensures links { link_numbers self.new ≡ with_pair (link_numbers self.old) list page (Some link) }
        ensures room { room_left self.old ≤ room_left self.new + 1 }
    {
        match self.rows.find(list, block_of(page)) {
            Some(at) => set_entry(&mut self.blocks, at, place_of(page), Some(link)),
            None => {
                let mut block = Block { entries: [None; 8] };
                block.entries[place_of(page)] = Some(link);
                let at = self.blocks.insert_reserved(block);
                self.rows.insert(list, block_of(page), at);
            }
        }
    }

    /// Gives a page that has a number another.
    #[tactic(auto, unfolding(crate::specs::inside::Pages::link_numbers))]
    pub(crate) fn replace(&mut self, list: u64, page: u64, link: usize)
        requires { IsSome (link_numbers self.old list page) }
        ensures links { link_numbers self.new ≡ with_pair (link_numbers self.old) list page (Some link) }
        ensures room { room_left self.new ≡ room_left self.old }
    {
        if let Some(at) = self.rows.find(list, block_of(page)) {
            set_entry(&mut self.blocks, at, place_of(page), Some(link));
        }
    }

    /// Takes the number of a page away, and answers it.
    #[tactic(auto, unfolding(crate::specs::inside::Pages::link_numbers))]
    pub(crate) fn remove(&mut self, list: u64, page: u64) -> usize
        requires { IsSome (link_numbers self.old list page) }
        ensures value { link_numbers self.old list page ≡ Some result }
        ensures links { link_numbers self.new ≡ with_pair (link_numbers self.old) list page None }
        ensures room { room_left self.old ≤ room_left self.new }
    {
        match self.rows.find(list, block_of(page)) {
            Some(at) => take_entry(&mut self.rows, &mut self.blocks, list, page, at),
            None => unreachable!(),
        }
    }
}

// Takes the number of a page away, whose block this is, and the block if it has no other.
fn take_entry(
    rows: &mut PairMap<usize>,
    blocks: &mut Slab<Block>,
    list: u64,
    page: u64,
    at: usize,
) -> usize
    requires pages { ArePages (record { rows = rows.old; blocks = blocks.old }) }
    requires block { values_of rows.old list (page / 8) ≡ Some at }
    requires there { IsSome (links_in (values_of rows.old) (get blocks.old) list page) }
    ensures pages { ArePages (record { rows = rows.new; blocks = blocks.new }) }
    ensures value { links_in (values_of rows.old) (get blocks.old) list page ≡ Some result }
    ensures links { links_in (values_of rows.new) (get blocks.new)
        ≡ with_pair (links_in (values_of rows.old) (get blocks.old)) list page None }
    ensures room { room_left (record { rows = rows.old; blocks = blocks.old }) ≤ room_left (record { rows = rows.new; blocks = blocks.new }) }
{
    match blocks[at].entries[place_of(page)] {
        Some(link) => {
            set_entry(blocks, at, place_of(page), None);
            match first_entry(&blocks[at], 0) {
                Some(_) => link,
                None => {
                    blocks.remove(at);
                    rows.remove(list, block_of(page));
                    link
                }
            }
        }
        None => unreachable!(),
    }
}

// Gives a place of a block a number, or none.
fn set_entry(blocks: &mut Slab<Block>, at: usize, place: usize, link: Option<usize>)
    requires there { ContainsKey blocks.old at }
    requires place { place < 8 }
    ensures blocks { (k : Block) → get blocks.old at ≡ Some k → get blocks.new ≡ with_key (get blocks.old) at (with_entry k place link) }
    ensures len { slab_len blocks.new ≡ slab_len blocks.old }
    ensures capacity { blocks.new.capacity ≡ blocks.old.capacity }
{
    let block = &mut blocks[at];
    block.entries[place] = link;
}

// Returns the first place of a block from `start` on that has a number, and the number.
fn first_entry(block: &Block, start: usize) -> Option<(usize, usize)>
    requires { length block.now.entries ≡ 8 }
    ensures next { IsNext (block_entry block.now) start (option_map (λ pair. pair.0) result) }
    ensures value { IfSome result (λ pair. (block_entry block.now pair.0 ≡ Some pair.1) × (pair.0 < 8)) }
{
    let mut place = start;
    while place < 8 {
        if let Some(link) = block.entries[place] {
            return Some((place, link));
        }
        place += 1;
    }
    None
}

// The number of the block of a page.
fn block_of(page: u64) -> u64
    ensures { result ≡ page / 8 }
{
    page / 8
}

// The place of a page in its block.
fn place_of(page: u64) -> usize
    ensures { result ≡ page % 8 }
{
    (page % 8) as usize
}
