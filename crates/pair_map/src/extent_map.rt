//! The map from lists to extents that stand apart.

ghost use Rattle.std.specs.Prelude.{◌≡◌, ℕ, ◌↔◌, ◌+◌, ◌-◌, ◌≤◌, ◌<◌, ◌^◌, None, Some, OnOk, IsSome, IfSome, IsTrue};
ghost use Rattle.std.specs.Option.{option_map, MatchOption};
ghost use Rattle.balanced_tree.specs.Gaps.{IsFirstGapOrNone};
ghost use Rattle.balanced_tree.specs.Pairs.{with_pair, IsNext};
ghost use Rattle.pair_map.specs.declared.stretch_row.Extent.{Extent};
ghost use Rattle.pair_map.specs.Pairs.{IsLast};
ghost use Rattle.pair_map.specs.Maps.{extents_of, count_of, spare_of};
ghost use Rattle.pair_map.specs.Maps.{Covers, IsOpen, StandApart, IsExtent, IsHead};
ghost use Rattle.pair_map.specs.StretchRows.{extent_of, stretch_in};

use crate::stretch_row::{Extent, StretchRow};
use balanced_tree::{BalancedTree, pair_rank};
use std::alloc::{AllocError, Global};
use std::marker::Model;

/// Extents of several lists, each under its list and its first number. The extents of a list have no number in common.
/// Contracts see the extent of each list and first number (`extents_of`), how many there are, and `spare_of`, how many
/// more fit with no memory from the host. No call but `reserve` asks the host for memory.
#[derive(Drop)]
pub struct ExtentMap<V: Copy> {
    tree: BalancedTree<StretchRow<V>>,
}

impl<V: Copy> Model for ExtentMap<V> {
    ghost use Rattle.balanced_tree.specs.Rows.{Rows};
    ghost use Rattle.pair_map.specs.declared.stretch_row.StretchRow.{StretchRow};
    ghost use Rattle.pair_map.specs.StretchRows.{AreExtents};

    ghost Value = { Rows (StretchRow V) };

    ghost view = { λ m. m.tree };

    ghost invariant = { λ m. AreExtents m.tree.rows };
}

impl<V: Copy> ExtentMap<V> {
    /// Makes a map with no extent and no room.
    pub fn new(alloc: Global) -> ExtentMap<V>
        ensures extents { extents_of result ≡ λ l p. None }
        ensures count { count_of result ≡ 0 }
        ensures spare { spare_of result ≡ 0 }
    {
        ExtentMap {
            tree: BalancedTree::new(alloc),
        }
    }

    /// Makes room for `n` extents more. Fails if the host has too little memory. The extents stay as they are on both
    /// answers, and no room is lost.
    pub fn reserve(&mut self, n: usize) -> Result<(), AllocError>
        ensures room { OnOk result (n ≤ spare_of self.new) }
        ensures extents { extents_of self.new ≡ extents_of self.old }
        ensures count { count_of self.new ≡ count_of self.old }
        ensures spare { spare_of self.old ≤ spare_of self.new }
    {
        self.tree.reserve(n)
    }

    /// Returns the number of extents. A clause says too that they stand apart.
    pub fn len(&self) -> usize
        ensures len { result ≡ count_of self.now }
        ensures apart { StandApart (extents_of self.now) }
    {
        self.tree.len()
    }

    /// Returns the number of further extents that fit with no memory from the host.
    pub fn spare(&self) -> usize
        ensures { result ≡ spare_of self.now }
    {
        self.tree.spare()
    }

    /// Returns the extent of a list that begins at this number. `None` if and only if there is none.
    pub fn find(&self, list: u64, first: u64) -> Option<Extent<V>>
        ensures { result ≡ extents_of self.now list first }
    {
        extent_in(self.tree.find(pair_rank(list, first)))
    }

    /// Returns the extent of a list that has this number, with its first number. `None` if and only if there is none.
    pub fn at(&self, list: u64, number: u64) -> Option<(u64, Extent<V>)>
        ensures { MatchOption result
            ((p : ℕ) (e : Extent V) → Covers (extents_of self.now list) number p e → ⊥)
            (λ pair. Covers (extents_of self.now list) number pair.0 pair.1) }
    {
        let _apart = self.len();
        match self.last(list, number) {
            Some((first, extent)) if number - first < extent.count => Some((first, extent)),
            _ => None,
        }
    }

    /// Returns the extent of a list with the least first number from `from` on, with that number. `None` if and only if
    /// there is none.
    pub fn next(&self, list: u64, from: u64) -> Option<(u64, Extent<V>)>
        ensures next { IsNext (extents_of self.now list) from (option_map (λ pair. pair.0) result) }
        ensures extent { IfSome result (λ pair. extents_of self.now list pair.0 ≡ Some pair.1) }
    {
        let _rising = self.tree.len();
        stretch_in(list, self.tree.next(pair_rank(list, from)))
    }

    /// Returns whether no extent of the list has one of the numbers from `first` to below `first + count`, which may pass
    /// 2^64.
    pub fn is_open(&self, list: u64, first: u64, count: u64) -> bool
        ensures { IsTrue result ↔ IsOpen (extents_of self.now list) first count }
    {
        let _apart = self.len();
        if count == 0 {
            return true;
        }
        match self.last(list, first.saturating_add(count - 1)) {
            Some((start, extent)) => start + extent.count <= first,
            None => true,
        }
    }

    /// Puts an extent of `count` numbers from `first` on into a list. No extent of the list has one of these numbers,
    /// and they end at or below number 2^63.
    pub fn insert(&mut self, list: u64, first: u64, count: u64, value: V)
        requires some { 1 ≤ count }
        requires end { first + count ≤ 2 ^ 63 }
        requires free { IsOpen (extents_of self.old list) first count }
        requires room { 1 ≤ spare_of self.old }
        ensures extents { extents_of self.new ≡ with_pair (extents_of self.old) list first
            (Some (record { count = count; value = value })) }
        ensures count { count_of self.new ≡ count_of self.old + 1 }
        ensures spare { spare_of self.new + 1 ≡ spare_of self.old }
    {
        let _rising = self.tree.len();
        self.tree
            .insert(StretchRow::new(list, first, Extent { count, value }));
    }

    /// Takes the extent of a list that begins at this number out, and answers it.
    pub fn remove(&mut self, list: u64, first: u64) -> Extent<V>
        requires { IsSome (extents_of self.old list first) }
        ensures extent { extents_of self.old list first ≡ Some result }
        ensures extents { extents_of self.new ≡ with_pair (extents_of self.old) list first None }
        ensures count { count_of self.new + 1 ≡ count_of self.old }
        ensures spare { spare_of self.new ≡ spare_of self.old + 1 }
    {
        let _rising = self.tree.len();
        self.tree.remove(pair_rank(list, first)).extent
    }

    /// Leaves the first `count` numbers of the extent of a list that begins at `first`, with another value, and takes out the
    /// rest. The extent has as many numbers or more. It changes one row.
    pub fn shorten(&mut self, list: u64, first: u64, count: u64, value: V)
        requires some { 1 ≤ count }
        requires head { IsHead (extents_of self.old list) first count }
        ensures extents { extents_of self.new ≡ with_pair (extents_of self.old) list first
            (Some (record { count = count; value = value })) }
        ensures count { count_of self.new ≡ count_of self.old }
        ensures spare { spare_of self.new ≡ spare_of self.old }
    {
        let _rising = self.tree.len();
        self.tree
            .replace(StretchRow::new(list, first, Extent { count, value }));
    }

    /// Takes the numbers from `from` to below `to` out of the extent of a list that begins at `first` and ends just before
    /// `end`. The numbers before them and those behind them are then an extent each, with another value. It changes one row,
    /// and adds one.
    pub fn split(&mut self, list: u64, first: u64, end: u64, from: u64, to: u64, value: V)
        requires extent { IsExtent (extents_of self.old list) first end }
        requires order { (first < from) × (from ≤ to) × (to < end) }
        requires room { 1 ≤ spare_of self.old }
        ensures extents { extents_of self.new ≡ with_pair
            (with_pair (extents_of self.old) list first (Some (record { count = from - first; value = value })))
            list to (Some (record { count = end - to; value = value })) }
        ensures count { count_of self.new ≡ count_of self.old + 1 }
        ensures spare { spare_of self.new + 1 ≡ spare_of self.old }
    {
        let _apart = self.len();
        self.shorten(list, first, from - first, value);
        self.insert(list, to, end - to, value);
    }

    /// Takes the numbers before `to` out of the extent of a list that begins at `first` and ends just before `end`. The
    /// numbers from there on are then an extent, with another value. It changes one row.
    pub fn advance(&mut self, list: u64, first: u64, end: u64, to: u64, value: V)
        requires extent { IsExtent (extents_of self.old list) first end }
        requires order { (first ≤ to) × (to < end) }
        ensures extents { extents_of self.new ≡ with_pair (with_pair (extents_of self.old) list first None)
            list to (Some (record { count = end - to; value = value })) }
        ensures count { count_of self.new ≡ count_of self.old }
        ensures spare { spare_of self.new ≡ spare_of self.old }
    {
        let _rising = self.tree.len();
        self.tree.replace_at(
            pair_rank(list, first),
            StretchRow::new(
                list,
                to,
                Extent {
                    count: end - to,
                    value,
                },
            ),
        );
    }

    /// Returns the lowest number from `from` on at which `count` numbers of the list are in no extent and end at the limit
    /// or before. `None` if and only if there is none.
    pub fn first_gap(&self, list: u64, from: u64, count: u64, limit: u64) -> Option<u64>
        requires some { 1 ≤ count }
        requires limit { limit ≤ 2 ^ 63 }
        ensures { IsFirstGapOrNone (λ p. IsOpen (extents_of self.now list) p count) from count limit result }
    {
        let _rising = self.tree.len();
        let gap = self.tree.first_gap(
            pair_rank(list, from),
            u128::from(count),
            pair_rank(list, limit),
        )?;
        Some((gap - pair_rank(list, 0)) as u64)
    }

    /// Returns the extent of a list with the greatest first number up to `to`, with that number.
    fn last(&self, list: u64, to: u64) -> Option<(u64, Extent<V>)>
        ensures { MatchOption result ((p : ℕ) → p ≤ to → extents_of self.now list p ≡ None)
            (IsLast (extents_of self.now list) to) }
    {
        let _rising = self.tree.len();
        stretch_in(list, self.tree.last(pair_rank(list, to)))
    }
}

/// Returns the extent of a row, if there is one.
fn extent_in<V: Copy>(row: Option<StretchRow<V>>) -> Option<Extent<V>>
    ensures { result ≡ option_map extent_of row }
{
    Some(row?.extent)
}

/// Returns the first number and the extent of a row, if it is of this list.
fn stretch_in<V: Copy>(list: u64, row: Option<StretchRow<V>>) -> Option<(u64, Extent<V>)>
    ensures extent { result ≡ stretch_in list row }
    ensures fits { IfSome row (λ row. row.first < 2 ^ 64) }
{
    match row {
        Some(row) if row.list == list => Some((row.first, row.extent)),
        _ => None,
    }
}
