//! A row that is put into the tree.

ghost use Rattle.std.specs.Prelude.{◌≡◌, ℕ, ◌<◌, ◌≤◌};
ghost use Rattle.balanced_tree.specs.inside.Tree.{SearchTree};
ghost use Rattle.balanced_tree.specs.inside.Standing.{IsStanding, StandsFor, HasInserted};

use crate::changes::{Change, root_after};
use crate::rotation::{rebalance_left, rebalance_right};
use crate::row_slab::RowSlab;
use crate::steps::Steps;
use crate::tree_row::TreeRow;
use std::sync::ledger::Ledger;

/// Puts a row of a rank that no row has yet into the tree under a link, and answers what the row above the tree has to store
/// anew. On the way back up nothing is done above the first row that hides the change.
pub fn insert_below<R: TreeRow, L: Ledger>(
    rows: &mut RowSlab<R>,
    at: Option<usize>,
    row: &R,
    steps: &mut Steps<L>,
) -> Change
    requires { StandsFor R.functions rows.old at (R.functions.rank row.now) }
    ensures inserted { (t : SearchTree R) (low high : ℕ) → IsStanding R.functions rows.old at t low high
        → low ≤ R.functions.rank row.now → R.functions.rank row.now < high
        → HasInserted R.functions rows.old rows.new row.now t low high result steps.old steps.new }
    ensures capacity { rows.new.capacity ≡ rows.old.capacity }
{
    let Some(place) = at else {
        return Change::Root(rows.add(row.linked(None, None), steps));
    };
    let here = rows.look(place, steps);
    let rank = row.rank();
    let there = here.rank();
    if rank < there {
        let below = here.left();
        let change = insert_below(rows, below, row, steps);
        match change {
            Change::Hidden => Change::Hidden,
            _ => {
                let left = root_after(change, below);
                rebalance_left(rows, place, left, steps)
            }
        }
    } else {
        let below = here.right();
        let change = insert_below(rows, below, row, steps);
        match change {
            Change::Hidden => Change::Hidden,
            _ => {
                let right = root_after(change, below);
                rebalance_right(rows, place, right, steps)
            }
        }
    }
}
