//! The way down to a row.

ghost use Rattle.std.specs.Prelude.{◌≡◌, ℕ, ◌+◌, ◌≤◌, false, Some, None, cond, option_copied};
ghost use Rattle.std.specs.Option.{option_map};
ghost use Rattle.balanced_tree.specs.Row.{plain};
ghost use Rattle.balanced_tree.specs.inside.Standing.{IsStanding, Stands};
ghost use Rattle.balanced_tree.specs.inside.Tree.{SearchTree, height, row_in, found};

use crate::row_slab::RowSlab;
use crate::steps::Steps;
use crate::tree_row::TreeRow;
use std::sync::ledger::Ledger;

/// Returns the row of this rank in the tree under a link, where it stands. If there is none, returns the first row of a
/// higher rank, or with `down` the last row of a lower one.
#[inline(always)]
pub fn find_below<'a, R: TreeRow, L: Ledger>(
    rows: &'a RowSlab<R>,
    at: Option<usize>,
    rank: u128,
    down: bool,
    steps: &mut Steps<L>,
) -> Option<&'a R>
    requires { Stands R.functions rows.now at }
    ensures row { (t : SearchTree R) (low high : ℕ) → IsStanding R.functions rows.now at t low high
        → option_map (plain R.functions) (option_copied result) ≡ found R.functions down rank None t }
    ensures steps { (t : SearchTree R) (low high : ℕ) → IsStanding R.functions rows.now at t low high
        → steps.new ≤ steps.old + height t }
{
    let mut at = at;
    let mut best = None;
    while let Some(place) = at {
        let here = rows.look(place, steps);
        let there = here.rank();
        if rank < there {
            best = nearer(best, here, !down);
            at = here.left();
        } else if there < rank {
            best = nearer(best, here, down);
            at = here.right();
        } else {
            best = Some(here);
            at = None;
        }
    }
    best
}

/// Returns the row of this rank in the tree under a link, where it stands. The function is not inlined: a look-up is then
/// a call that answers where the row stands, and the caller reads no more of the row than it wants.
#[inline(never)]
pub fn row_below<'a, R: TreeRow, L: Ledger>(
    rows: &'a RowSlab<R>,
    at: Option<usize>,
    rank: u128,
    steps: &mut Steps<L>,
) -> Option<&'a R>
    requires { Stands R.functions rows.now at }
    ensures row { (t : SearchTree R) (low high : ℕ) → IsStanding R.functions rows.now at t low high
        → option_map (plain R.functions) (option_copied result) ≡ row_in R.functions rank t }
    ensures steps { (t : SearchTree R) (low high : ℕ) → IsStanding R.functions rows.now at t low high
        → steps.new ≤ steps.old + height t }
{
    let mut at = at;
    while let Some(place) = at {
        let here = rows.look(place, steps);
        let there = here.rank();
        if rank < there {
            at = here.left();
        } else if there < rank {
            at = here.right();
        } else {
            return Some(here);
        }
    }
    None
}

/// Returns the row of this rank, or else the first row of a higher rank. The function is not inlined, as `row_below` is not.
#[inline(never)]
pub fn first_below<'a, R: TreeRow, L: Ledger>(
    rows: &'a RowSlab<R>,
    at: Option<usize>,
    rank: u128,
    steps: &mut Steps<L>,
) -> Option<&'a R>
    requires { Stands R.functions rows.now at }
    ensures row { (t : SearchTree R) (low high : ℕ) → IsStanding R.functions rows.now at t low high
        → option_map (plain R.functions) (option_copied result) ≡ found R.functions false rank None t }
    ensures steps { (t : SearchTree R) (low high : ℕ) → IsStanding R.functions rows.now at t low high
        → steps.new ≤ steps.old + height t }
{
    find_below(rows, at, rank, false, steps)
}

/// Returns this row, if it lies on the side that is looked at, and otherwise what was found before.
#[inline(always)]
fn nearer<'a, R: TreeRow>(best: Option<&'a R>, here: &'a R, on_side: bool) -> Option<&'a R>
    ensures { option_copied result ≡ cond on_side (Some here.now) (option_copied best.entry) }
{
    if on_side { Some(here) } else { best }
}
