//! A row that is taken out of the tree.

ghost use Rattle.std.specs.Prelude.{◌≡◌, ℕ, Some};
ghost use Rattle.balanced_tree.specs.inside.Tree.{SearchTree};
ghost use Rattle.balanced_tree.specs.inside.Standing.{IsStanding, Stands, HasRemoved, HasTakenLeast, HasTakenRoot};

use crate::changes::{Change, change_to, root_after};
use crate::rotation::{balance, rebalance_left, rebalance_right};
use crate::row_slab::RowSlab;
use crate::steps::Steps;
use crate::tree_row::TreeRow;
use std::sync::ledger::Ledger;

/// A row that was the first of a tree, and what the row above the tree has to store anew.
#[derive(Drop)]
struct Least<R> {
    row: R,
    rest: Change,
}

/// Takes the first row out of the tree at a place.
fn take_least<R: TreeRow, L: Ledger>(
    rows: &mut RowSlab<R>,
    place: usize,
    steps: &mut Steps<L>,
) -> Least<R>
    requires { Stands R.functions rows.old (Some place) }
    ensures taken { (t : SearchTree R) (low high : ℕ) → IsStanding R.functions rows.old (Some place) t low high
        → HasTakenLeast R.functions rows.old rows.new t low high result.row result.rest steps.old steps.new }
    ensures capacity { rows.new.capacity ≡ rows.old.capacity }
{
    let here = rows.look(place, steps);
    let Some(next) = here.left() else {
        let rest = here.right();
        let row = rows.take(place, steps);
        return Least {
            row,
            rest: change_to(rest),
        };
    };
    let least = take_least(rows, next, steps);
    let row = least.row;
    match least.rest {
        Change::Hidden => Least {
            row,
            rest: Change::Hidden,
        },
        _ => {
            let left = root_after(least.rest, Some(next));
            let rest = rebalance_left(rows, place, left, steps);
            Least { row, rest }
        }
    }
}

/// Takes the row at a place out of the tree there, and answers the link to the root of its two children as one tree. If
/// there is a right child, the first row below it goes to this place.
fn take_root<R: TreeRow, L: Ledger>(
    rows: &mut RowSlab<R>,
    place: usize,
    steps: &mut Steps<L>,
) -> Option<usize>
    requires { Stands R.functions rows.old (Some place) }
    ensures taken { (t : SearchTree R) (low high : ℕ) → IsStanding R.functions rows.old (Some place) t low high
        → HasTakenRoot R.functions rows.old rows.new t low high result steps.old steps.new }
    ensures capacity { rows.new.capacity ≡ rows.old.capacity }
{
    let here = rows.look(place, steps);
    let left = here.left();
    let Some(next) = here.right() else {
        rows.take(place, steps);
        return left;
    };
    let least = take_least(rows, next, steps);
    let right = root_after(least.rest, Some(next));
    Some(balance(rows, place, least.row, left, right, steps))
}

/// Takes the row of this rank out of the tree under a link, if there is one, and answers what the row above the tree has
/// to store anew. The row goes to `taken`, with no children.
pub fn remove_below<R: TreeRow, L: Ledger>(
    rows: &mut RowSlab<R>,
    at: Option<usize>,
    rank: u128,
    taken: &mut Option<R>,
    steps: &mut Steps<L>,
) -> Change
    requires { Stands R.functions rows.old at }
    ensures removed { (t : SearchTree R) (low high : ℕ) → IsStanding R.functions rows.old at t low high
        → HasRemoved R.functions rows.old rows.new rank t low high taken.new result steps.old steps.new }
    ensures capacity { rows.new.capacity ≡ rows.old.capacity }
{
    let Some(place) = at else {
        *taken = None;
        return Change::Hidden;
    };
    let here = rows.look(place, steps);
    let there = here.rank();
    if rank < there {
        let below = here.left();
        let change = remove_below(rows, below, rank, taken, steps);
        match change {
            Change::Hidden => Change::Hidden,
            _ => {
                let left = root_after(change, below);
                rebalance_left(rows, place, left, steps)
            }
        }
    } else if there < rank {
        let below = here.right();
        let change = remove_below(rows, below, rank, taken, steps);
        match change {
            Change::Hidden => Change::Hidden,
            _ => {
                let right = root_after(change, below);
                rebalance_right(rows, place, right, steps)
            }
        }
    } else {
        *taken = Some(here.linked(None, None));
        change_to(take_root(rows, place, steps))
    }
}
