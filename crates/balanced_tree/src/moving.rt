//! A row that comes in place of one of another rank.

ghost use Rattle.std.specs.Prelude.{◌≡◌, ℕ, ◌<◌, ◌≤◌};
ghost use Rattle.balanced_tree.specs.inside.Tree.{SearchTree, AreBeside};
ghost use Rattle.balanced_tree.specs.inside.Standing.{IsStanding, StandsBeside, HasMoved};

use crate::changes::Change;
use crate::rotation::{put_again, put_instead};
use crate::row_slab::RowSlab;
use crate::steps::Steps;
use crate::tree_row::TreeRow;
use std::sync::ledger::Ledger;

/// Puts a row in place of the one of this rank in the tree under a link, if there is one. No row of the tree has a rank
/// between the two, so each row keeps its place and its height. Answers what the row above the tree has to store anew.
pub fn move_below<R: TreeRow, L: Ledger>(
    rows: &mut RowSlab<R>,
    at: Option<usize>,
    rank: u128,
    row: &R,
    steps: &mut Steps<L>,
) -> Change
    requires { StandsBeside R.functions rows.old at rank (R.functions.rank row.now) }
    ensures moved { (t : SearchTree R) (low high : ℕ) → IsStanding R.functions rows.old at t low high
        → AreBeside R.functions rank (R.functions.rank row.now) t
        → low ≤ R.functions.rank row.now → R.functions.rank row.now < high
        → HasMoved R.functions rows.old rows.new rank row.now t low high result steps.old steps.new }
    ensures capacity { rows.new.capacity ≡ rows.old.capacity }
{
    let Some(place) = at else {
        return Change::Hidden;
    };
    let here = rows.look(place, steps);
    let there = here.rank();
    if rank < there {
        let below = here.left();
        match move_below(rows, below, rank, row, steps) {
            Change::Hidden => Change::Hidden,
            _ => put_again(rows, place, steps),
        }
    } else if there < rank {
        let below = here.right();
        match move_below(rows, below, rank, row, steps) {
            Change::Hidden => Change::Hidden,
            _ => put_again(rows, place, steps),
        }
    } else {
        put_instead(rows, place, row, steps)
    }
}
