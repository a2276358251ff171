//! The map from pairs to values.

ghost use Rattle.std.specs.Prelude.{◌≡◌, ◌+◌, ◌≤◌, ◌<◌, ◌^◌, None, Some, OnOk, IsSome, IfSome};
ghost use Rattle.std.specs.Option.{option_map};
ghost use Rattle.balanced_tree.specs.Pairs.{with_pair, IsNext};
ghost use Rattle.pair_map.specs.Maps.{values_of, count_of, spare_of};
ghost use Rattle.pair_map.specs.PairRows.{value_of, pair_in};
ghost use Rattle.pair_map.specs.Pairs.{HasNoneBetween};

use crate::pair_row::PairRow;
use balanced_tree::{BalancedTree, pair_rank};
use std::alloc::{AllocError, Global};
use std::marker::Model;

/// Values, each under a pair of numbers. Contracts see the value of each pair (`values_of`), how many there are, and
/// `spare_of`, how many more fit with no memory from the host. No call but `reserve` asks the host for memory.
#[derive(Drop)]
pub struct PairMap<V: Copy> {
    tree: BalancedTree<PairRow<V>>,
}

impl<V: Copy> Model for PairMap<V> {
    ghost use Rattle.balanced_tree.specs.Rows.{Rows};
    ghost use Rattle.pair_map.specs.declared.pair_row.PairRow.{PairRow};

    ghost Value = { Rows (PairRow V) };

    ghost view = { λ m. m.tree };
}

impl<V: Copy> PairMap<V> {
    /// Makes a map with no pair and no room.
    pub fn new(alloc: Global) -> PairMap<V>
        ensures values { values_of result ≡ λ a b. None }
        ensures count { count_of result ≡ 0 }
        ensures spare { spare_of result ≡ 0 }
    {
        PairMap {
            tree: BalancedTree::new(alloc),
        }
    }

    /// Makes room for `n` pairs more. Fails if the host has too little memory. The values stay as they are on both
    /// answers, and no room is lost.
    pub fn reserve(&mut self, n: usize) -> Result<(), AllocError>
        ensures room { OnOk result (n ≤ spare_of self.new) }
        ensures values { values_of self.new ≡ values_of self.old }
        ensures count { count_of self.new ≡ count_of self.old }
        ensures spare { spare_of self.old ≤ spare_of self.new }
    {
        self.tree.reserve(n)
    }

    /// Returns the number of pairs that have a value.
    pub fn len(&self) -> usize
        ensures { result ≡ count_of self.now }
    {
        self.tree.len()
    }

    /// Returns the number of further pairs that fit with no memory from the host.
    pub fn spare(&self) -> usize
        ensures { result ≡ spare_of self.now }
    {
        self.tree.spare()
    }

    /// Returns the value of a pair. `None` if and only if it has none.
    pub fn find(&self, first: u64, second: u64) -> Option<V>
        ensures { result ≡ values_of self.now first second }
    {
        value_in(self.tree.find(pair_rank(first, second)))
    }

    /// Returns the least second number from `from` on that has a value under this first number, and the value. `None` if and
    /// only if there is none.
    pub fn next(&self, first: u64, from: u64) -> Option<(u64, V)>
        ensures next { IsNext (values_of self.now first) from (option_map (λ pair. pair.0) result) }
        ensures value { IfSome result (λ pair. values_of self.now first pair.0 ≡ Some pair.1) }
    {
        let _rising = self.tree.len();
        pair_in(first, self.tree.next(pair_rank(first, from)))
    }

    /// Gives a pair that has no value one.
    pub fn insert(&mut self, first: u64, second: u64, value: V)
        requires absent { values_of self.old first second ≡ None }
        requires room { 1 ≤ spare_of self.old }
        ensures values { values_of self.new ≡ with_pair (values_of self.old) first second (Some value) }
        ensures count { count_of self.new ≡ count_of self.old + 1 }
        ensures spare { spare_of self.new + 1 ≡ spare_of self.old }
    {
        let _rising = self.tree.len();
        self.tree.insert(PairRow::new(first, second, value));
    }

    /// Gives a pair that has a value another.
    pub fn replace(&mut self, first: u64, second: u64, value: V)
        requires { IsSome (values_of self.old first second) }
        ensures values { values_of self.new ≡ with_pair (values_of self.old) first second (Some value) }
        ensures count { count_of self.new ≡ count_of self.old }
        ensures spare { spare_of self.new ≡ spare_of self.old }
    {
        let _rising = self.tree.len();
        self.tree.replace(PairRow::new(first, second, value));
    }

    /// Gives the pair of `first` and `to` a value in place of the pair of `first` and `second`, which has none then. Under
    /// `first` no other number from one of the two to the other has a value. It changes one row.
    pub fn replace_at(&mut self, first: u64, second: u64, to: u64, value: V)
        requires there { IsSome (values_of self.old first second) }
        requires between { HasNoneBetween (values_of self.old first) second to }
        ensures values { values_of self.new ≡
            with_pair (with_pair (values_of self.old) first second None) first to (Some value) }
        ensures count { count_of self.new ≡ count_of self.old }
        ensures spare { spare_of self.new ≡ spare_of self.old }
    {
        let _rising = self.tree.len();
        self.tree
            .replace_at(pair_rank(first, second), PairRow::new(first, to, value));
    }

    /// Takes the value of a pair away, and answers it.
    pub fn remove(&mut self, first: u64, second: u64) -> V
        requires { IsSome (values_of self.old first second) }
        ensures value { values_of self.old first second ≡ Some result }
        ensures values { values_of self.new ≡ with_pair (values_of self.old) first second None }
        ensures count { count_of self.new + 1 ≡ count_of self.old }
        ensures spare { spare_of self.new ≡ spare_of self.old + 1 }
    {
        let _rising = self.tree.len();
        self.tree.remove(pair_rank(first, second)).value
    }
}

/// Returns the value of a row, if there is one.
fn value_in<V: Copy>(row: Option<PairRow<V>>) -> Option<V>
    ensures { result ≡ option_map value_of row }
{
    Some(row?.value)
}

/// Returns the second number and the value of a row, if its first number is this.
fn pair_in<V: Copy>(first: u64, row: Option<PairRow<V>>) -> Option<(u64, V)>
    ensures pair { result ≡ pair_in first row }
    ensures fits { IfSome row (λ row. row.second < 2 ^ 64) }
{
    match row {
        Some(row) if row.first == first => Some((row.second, row.value)),
        _ => None,
    }
}
