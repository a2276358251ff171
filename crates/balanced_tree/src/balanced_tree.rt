//! The balanced tree as its callers see it.

ghost use Rattle.std.specs.Prelude.{◌≡◌, ◌+◌, ◌-◌, ◌^◌, ◌<◌, ◌≤◌, [], length, option_copied, is_some, if◌then◌else◌, IsNone, IsSome, Some, OnOk};
ghost use Rattle.std.specs.Option.{MatchOption, option_map};
ghost use Rattle.balanced_tree.specs.Gaps.{AreApart, IsFree, IsFirstGapOrNone};
ghost use Rattle.balanced_tree.specs.Row.{plain};
ghost use Rattle.balanced_tree.specs.Rows.{row_at, row_from, row_to, with_row, without_rank, AreAllBeside, IsRising};

use crate::changes::root_after;
use crate::descent::{find_below, first_below, row_below};
use crate::extent_row::ExtentRow;
use crate::gaps::gap_below;
use crate::insertion::insert_below;
use crate::moving::move_below;
use crate::removal::remove_below;
use crate::row_slab::RowSlab;
use crate::steps::Steps;
use crate::tree_row::TreeRow;
use std::alloc::{AllocError, Global};
use std::marker::{Brand, Model};
use std::sync::ledger::{Blank, Ledger};

/// Rows in the order of their ranks, as a search tree that is balanced by height. Contracts see the list of the rows,
/// each with no children, and `spare`, how many more fit with no memory from the host. No call but `reserve` asks the
/// host for memory.
///
/// A step of a counted call is one row that is looked at, put, added or taken, and each counted call takes O(log n)
/// steps. The other calls do the same and count nothing.
#[derive(Drop)]
pub struct BalancedTree<R: TreeRow> {
    rows: RowSlab<R>,
    root: Option<usize>,
}

impl<R: TreeRow> Model for BalancedTree<R> {
    ghost use Rattle.balanced_tree.specs.Rows.{Rows, rows_code};

    ghost Value = { Rows R };

    ghost coded = { rows_code R.code };

    ghost use Rattle.balanced_tree.specs.inside.Standing.{rows_in, IsTree};

    ghost view = { λ t. rows_in R.functions t.rows t.root };

    ghost invariant = { λ t. IsTree R.functions t.rows t.root };
}

impl<R: TreeRow> BalancedTree<R> {
    /// Makes a tree with no row and no room.
    pub fn new(alloc: Global) -> BalancedTree<R>
        ensures rows { result.rows ≡ [] }
        ensures spare { result.spare ≡ 0 }
    {
        BalancedTree {
            rows: RowSlab::new(alloc),
            root: None,
        }
    }

    /// Makes room for `n` rows more. Fails if the host has too little memory. The rows stay as they are on both
    /// answers, and no room is lost.
    pub fn reserve(&mut self, n: usize) -> Result<(), AllocError>
        ensures room { OnOk result (n ≤ self.new.spare) }
        ensures rows { self.new.rows ≡ self.old.rows }
        ensures spare { self.old.spare ≤ self.new.spare }
    {
        self.rows.reserve(n)
    }

    /// Returns the number of rows. A clause says too that their ranks rise.
    pub fn len(&self) -> usize
        ensures len { result ≡ length self.now.rows }
        ensures rising { IsRising R.functions self.now.rows }
    {
        self.rows.len()
    }

    /// Returns how many more rows fit with no memory from the host.
    pub fn spare(&self) -> usize
        ensures { result ≡ self.now.spare }
    {
        self.rows.spare()
    }

    /// Returns the row of this rank.
    #[inline(always)]
    pub fn find_counted<L: Ledger>(&self, rank: u128, steps: &mut Steps<L>) -> Option<R>
        ensures row { result ≡ row_at R.functions rank self.now.rows }
        ensures cost { 2 ^ (steps.new - steps.old) ≤ (length self.now.rows + 1) ^ 2 }
    {
        alone(row_below(&self.rows, self.root, rank, steps))
    }

    /// Returns the first row of this rank or a higher one.
    #[inline(always)]
    pub fn next_counted<L: Ledger>(&self, rank: u128, steps: &mut Steps<L>) -> Option<R>
        ensures row { result ≡ row_from R.functions rank self.now.rows }
        ensures cost { 2 ^ (steps.new - steps.old) ≤ (length self.now.rows + 1) ^ 2 }
    {
        alone(first_below(&self.rows, self.root, rank, steps))
    }

    /// Returns the last row of this rank or a lower one.
    pub fn last_counted<L: Ledger>(&self, rank: u128, steps: &mut Steps<L>) -> Option<R>
        ensures row { result ≡ row_to R.functions rank self.now.rows }
        ensures cost { 2 ^ (steps.new - steps.old) ≤ (length self.now.rows + 1) ^ 2 }
    {
        alone(find_below(&self.rows, self.root, rank, true, steps))
    }

    /// Puts a row of a rank that no row has yet.
    pub fn insert_counted<L: Ledger>(&mut self, row: R, steps: &mut Steps<L>)
        requires absent { IsNone (row_at R.functions (R.functions.rank row) self.old.rows) }
        requires room { 1 ≤ self.old.spare }
        ensures rows { self.new.rows ≡ with_row R.functions (plain R.functions row) self.old.rows }
        ensures spare { self.new.spare + 1 ≡ self.old.spare }
        ensures cost { 2 ^ (steps.new - steps.old) ≤ (length self.old.rows + 2) ^ 32 }
    {
        let _rank = row.rank();
        let change = insert_below(&mut self.rows, self.root, &row, steps);
        self.root = root_after(change, self.root);
    }

    /// Puts a row in place of the one of its rank, under the place in the slab where that one stood.
    pub fn replace_counted<L: Ledger>(&mut self, row: R, steps: &mut Steps<L>)
        requires { IsSome (row_at R.functions (R.functions.rank row) self.old.rows) }
        ensures rows { self.new.rows ≡ with_row R.functions (plain R.functions row) self.old.rows }
        ensures spare { self.new.spare ≡ self.old.spare }
        ensures cost { 2 ^ (steps.new - steps.old) ≤ (length self.old.rows + 2) ^ 32 }
    {
        let rank = row.rank();
        self.replace_at_counted(rank, row, steps);
    }

    /// Puts a row in place of the one of this rank. Its own rank may be another one, if no row has it or a rank between the
    /// two: each row keeps its place, under the place in the slab where it stands.
    pub fn replace_at_counted<L: Ledger>(&mut self, rank: u128, row: R, steps: &mut Steps<L>)
        requires there { IsSome (row_at R.functions rank self.old.rows) }
        requires beside { AreAllBeside R.functions rank (R.functions.rank row) self.old.rows }
        ensures rows { self.new.rows ≡
            with_row R.functions (plain R.functions row) (without_rank R.functions rank self.old.rows) }
        ensures spare { self.new.spare ≡ self.old.spare }
        ensures cost { 2 ^ (steps.new - steps.old) ≤ (length self.old.rows + 2) ^ 32 }
    {
        let _rank = row.rank();
        move_below(&mut self.rows, self.root, rank, &row, steps);
    }

    /// Takes the row of this rank out, if there is one, and answers it.
    pub fn take_counted<L: Ledger>(&mut self, rank: u128, steps: &mut Steps<L>) -> Option<R>
        ensures row { result ≡ row_at R.functions rank self.old.rows }
        ensures rows { self.new.rows ≡ without_rank R.functions rank self.old.rows }
        ensures spare { self.new.spare ≡ self.old.spare + (if is_some result then 1 else 0) }
        ensures cost { 2 ^ (steps.new - steps.old) ≤ (length self.old.rows + 2) ^ 32 }
    {
        let mut taken = None;
        let change = remove_below(&mut self.rows, self.root, rank, &mut taken, steps);
        self.root = root_after(change, self.root);
        taken
    }

    /// Takes the row of this rank out, and answers it.
    pub fn remove_counted<L: Ledger>(&mut self, rank: u128, steps: &mut Steps<L>) -> R
        requires { IsSome (row_at R.functions rank self.old.rows) }
        ensures row { row_at R.functions rank self.old.rows ≡ Some result }
        ensures rows { self.new.rows ≡ without_rank R.functions rank self.old.rows }
        ensures spare { self.new.spare ≡ self.old.spare + 1 }
        ensures cost { 2 ^ (steps.new - steps.old) ≤ (length self.old.rows + 2) ^ 32 }
    {
        let Some(row) = self.take_counted(rank, steps) else {
            unreachable!()
        };
        row
    }

    /// Returns the row of this rank.
    #[inline(always)]
    pub fn find(&self, rank: u128) -> Option<R>
        ensures { result ≡ row_at R.functions rank self.now.rows }
    {
        find_with::<R, Brand>(self, rank, Blank::new(1))
    }

    /// Returns the first row of this rank or a higher one.
    #[inline(always)]
    pub fn next(&self, rank: u128) -> Option<R>
        ensures { result ≡ row_from R.functions rank self.now.rows }
    {
        next_with::<R, Brand>(self, rank, Blank::new(1))
    }

    /// Returns the last row of this rank or a lower one.
    pub fn last(&self, rank: u128) -> Option<R>
        ensures { result ≡ row_to R.functions rank self.now.rows }
    {
        last_with::<R, Brand>(self, rank, Blank::new(1))
    }

    /// Puts a row of a rank that no row has yet.
    pub fn insert(&mut self, row: R)
        requires absent { IsNone (row_at R.functions (R.functions.rank row) self.old.rows) }
        requires room { 1 ≤ self.old.spare }
        ensures rows { self.new.rows ≡ with_row R.functions (plain R.functions row) self.old.rows }
        ensures spare { self.new.spare + 1 ≡ self.old.spare }
    {
        insert_with::<R, Brand>(self, row, Blank::new(1));
    }

    /// Puts a row in place of the one of its rank.
    pub fn replace(&mut self, row: R)
        requires { IsSome (row_at R.functions (R.functions.rank row) self.old.rows) }
        ensures rows { self.new.rows ≡ with_row R.functions (plain R.functions row) self.old.rows }
        ensures spare { self.new.spare ≡ self.old.spare }
    {
        replace_with::<R, Brand>(self, row, Blank::new(1));
    }

    /// Puts a row in place of the one of this rank. Its own rank may be another one, if no row has it or a rank between the
    /// two.
    pub fn replace_at(&mut self, rank: u128, row: R)
        requires there { IsSome (row_at R.functions rank self.old.rows) }
        requires beside { AreAllBeside R.functions rank (R.functions.rank row) self.old.rows }
        ensures rows { self.new.rows ≡
            with_row R.functions (plain R.functions row) (without_rank R.functions rank self.old.rows) }
        ensures spare { self.new.spare ≡ self.old.spare }
    {
        replace_at_with::<R, Brand>(self, rank, row, Blank::new(1));
    }

    /// Takes the row of this rank out, if there is one, and answers it.
    pub fn take(&mut self, rank: u128) -> Option<R>
        ensures row { result ≡ row_at R.functions rank self.old.rows }
        ensures rows { self.new.rows ≡ without_rank R.functions rank self.old.rows }
        ensures spare { self.new.spare ≡ self.old.spare + (if is_some result then 1 else 0) }
    {
        take_with::<R, Brand>(self, rank, Blank::new(1))
    }

    /// Takes the row of this rank out, and answers it.
    pub fn remove(&mut self, rank: u128) -> R
        requires { IsSome (row_at R.functions rank self.old.rows) }
        ensures row { row_at R.functions rank self.old.rows ≡ Some result }
        ensures rows { self.new.rows ≡ without_rank R.functions rank self.old.rows }
        ensures spare { self.new.spare ≡ self.old.spare + 1 }
    {
        remove_with::<R, Brand>(self, rank, Blank::new(1))
    }
}

impl<R: ExtentRow> BalancedTree<R> {
    /// Returns the lowest rank from `from` on such that it and the following ranks, `size` in all, lie in no extent and
    /// end at the limit or before. `None` if and only if there is no such rank. A size of 0 has no place inside an
    /// extent either.
    pub fn first_gap_counted<L: Ledger>(
        &self,
        from: u128,
        size: u128,
        limit: u128,
        steps: &mut Steps<L>,
    ) -> Option<u128>
        requires { AreApart R.functions R.extents self.now.rows }
        ensures gap { IsFirstGapOrNone (IsFree R.functions R.extents self.now.rows size) from size limit result }
        ensures cost { 2 ^ (steps.new - steps.old) ≤ (length self.now.rows + 1) ^ 8 }
    {
        gap_below(&self.rows, self.root, from, size, limit, steps)
    }

    /// Returns the lowest rank from `from` on such that it and the following ranks, `size` in all, lie in no extent and
    /// end at the limit or before. `None` if and only if there is no such rank. A size of 0 has no place inside an
    /// extent either.
    pub fn first_gap(&self, from: u128, size: u128, limit: u128) -> Option<u128>
        requires { AreApart R.functions R.extents self.now.rows }
        ensures { IsFirstGapOrNone (IsFree R.functions R.extents self.now.rows size) from size limit result }
    {
        first_gap_with::<R, Brand>(self, from, size, limit, Blank::new(1))
    }
}

/// Returns the row with no children, if there is one.
#[inline(always)]
fn alone<R: TreeRow>(row: Option<&R>) -> Option<R>
    ensures { result ≡ option_map (plain R.functions) (option_copied row.entry) }
{
    Some(row?.linked(None, None))
}

// The counted calls over a ledger that is thrown away.

fn first_gap_with<R: ExtentRow, L: Ledger>(
    tree: &BalancedTree<R>,
    from: u128,
    size: u128,
    limit: u128,
    blank: Blank,
) -> Option<u128>
    requires ledger { (blank.name ≡ L.name) × (blank.parts ≡ L.parts) × (0 < blank.parts) }
    requires apart { AreApart R.functions R.extents tree.now.rows }
    ensures { IsFirstGapOrNone (IsFree R.functions R.extents tree.now.rows size) from size limit result }
{
    let mut steps = Steps::<L>::new(blank);
    tree.first_gap_counted(from, size, limit, &mut steps)
}

#[inline(always)]
fn find_with<R: TreeRow, L: Ledger>(tree: &BalancedTree<R>, rank: u128, blank: Blank) -> Option<R>
    requires ledger { (blank.name ≡ L.name) × (blank.parts ≡ L.parts) × (0 < blank.parts) }
    ensures { result ≡ row_at R.functions rank tree.now.rows }
{
    let mut steps = Steps::<L>::new(blank);
    tree.find_counted(rank, &mut steps)
}

#[inline(always)]
fn next_with<R: TreeRow, L: Ledger>(tree: &BalancedTree<R>, rank: u128, blank: Blank) -> Option<R>
    requires ledger { (blank.name ≡ L.name) × (blank.parts ≡ L.parts) × (0 < blank.parts) }
    ensures { result ≡ row_from R.functions rank tree.now.rows }
{
    let mut steps = Steps::<L>::new(blank);
    tree.next_counted(rank, &mut steps)
}

fn last_with<R: TreeRow, L: Ledger>(tree: &BalancedTree<R>, rank: u128, blank: Blank) -> Option<R>
    requires ledger { (blank.name ≡ L.name) × (blank.parts ≡ L.parts) × (0 < blank.parts) }
    ensures { result ≡ row_to R.functions rank tree.now.rows }
{
    let mut steps = Steps::<L>::new(blank);
    tree.last_counted(rank, &mut steps)
}

fn insert_with<R: TreeRow, L: Ledger>(tree: &mut BalancedTree<R>, row: R, blank: Blank)
    requires ledger { (blank.name ≡ L.name) × (blank.parts ≡ L.parts) × (0 < blank.parts) }
    requires absent { IsNone (row_at R.functions (R.functions.rank row) tree.old.rows) }
    requires room { 1 ≤ tree.old.spare }
    ensures rows { tree.new.rows ≡ with_row R.functions (plain R.functions row) tree.old.rows }
    ensures spare { tree.new.spare + 1 ≡ tree.old.spare }
{
    let mut steps = Steps::<L>::new(blank);
    tree.insert_counted(row, &mut steps);
}

fn replace_with<R: TreeRow, L: Ledger>(tree: &mut BalancedTree<R>, row: R, blank: Blank)
    requires ledger { (blank.name ≡ L.name) × (blank.parts ≡ L.parts) × (0 < blank.parts) }
    requires present { IsSome (row_at R.functions (R.functions.rank row) tree.old.rows) }
    ensures rows { tree.new.rows ≡ with_row R.functions (plain R.functions row) tree.old.rows }
    ensures spare { tree.new.spare ≡ tree.old.spare }
{
    let mut steps = Steps::<L>::new(blank);
    tree.replace_counted(row, &mut steps);
}

fn replace_at_with<R: TreeRow, L: Ledger>(
    tree: &mut BalancedTree<R>,
    rank: u128,
    row: R,
    blank: Blank,
)
    requires ledger { (blank.name ≡ L.name) × (blank.parts ≡ L.parts) × (0 < blank.parts) }
    requires there { IsSome (row_at R.functions rank tree.old.rows) }
    requires beside { AreAllBeside R.functions rank (R.functions.rank row) tree.old.rows }
    ensures rows { tree.new.rows ≡
        with_row R.functions (plain R.functions row) (without_rank R.functions rank tree.old.rows) }
    ensures spare { tree.new.spare ≡ tree.old.spare }
{
    let mut steps = Steps::<L>::new(blank);
    tree.replace_at_counted(rank, row, &mut steps);
}

fn take_with<R: TreeRow, L: Ledger>(
    tree: &mut BalancedTree<R>,
    rank: u128,
    blank: Blank,
) -> Option<R>
    requires ledger { (blank.name ≡ L.name) × (blank.parts ≡ L.parts) × (0 < blank.parts) }
    ensures row { result ≡ row_at R.functions rank tree.old.rows }
    ensures rows { tree.new.rows ≡ without_rank R.functions rank tree.old.rows }
    ensures spare { tree.new.spare ≡ tree.old.spare + (if is_some result then 1 else 0) }
{
    let mut steps = Steps::<L>::new(blank);
    tree.take_counted(rank, &mut steps)
}

fn remove_with<R: TreeRow, L: Ledger>(tree: &mut BalancedTree<R>, rank: u128, blank: Blank) -> R
    requires ledger { (blank.name ≡ L.name) × (blank.parts ≡ L.parts) × (0 < blank.parts) }
    requires present { IsSome (row_at R.functions rank tree.old.rows) }
    ensures row { row_at R.functions rank tree.old.rows ≡ Some result }
    ensures rows { tree.new.rows ≡ without_rank R.functions rank tree.old.rows }
    ensures spare { tree.new.spare ≡ tree.old.spare + 1 }
{
    let mut steps = Steps::<L>::new(blank);
    tree.remove_counted(rank, &mut steps)
}
