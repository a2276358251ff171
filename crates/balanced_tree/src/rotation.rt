//! A row over its two children, with a rotation if their heights differ by two.

ghost use Rattle.std.specs.Prelude.{◌≡◌, ℕ, ◌+◌, ◌^◌, ◌<◌, ◌≤◌, nat_lt, if◌then◌else◌, Option, Some, None};
ghost use Rattle.balanced_tree.specs.declared.changes.Change.TheVariants.{Hidden};
ghost use Rattle.std.specs.Option.{ForSome};
ghost use Rattle.slab.specs.Slab.{get, slab_len, ContainsKey, Updates};
ghost use Rattle.balanced_tree.specs.Row.{height_in, AreAlike};
ghost use Rattle.balanced_tree.specs.inside.Tree.{SearchTree, place_of, leaned_right, leaned_left, balanced};
ghost use Rattle.balanced_tree.specs.inside.Standing.{child_at, height_at, root_after, HasChildren, IsPut, IsSplit, Splits, Becomes, Same, IsRooted};

use crate::changes::Change;
use crate::children::Child;
use crate::row_slab::RowSlab;
use crate::steps::Steps;
use crate::tree_row::TreeRow;
use std::sync::ledger::Ledger;

/// Returns the child under a link, if there is one.
#[inline(always)]
fn child_under<R: TreeRow, L: Ledger>(
    rows: &RowSlab<R>,
    at: Option<usize>,
    steps: &mut Steps<L>,
) -> Option<Child<R>>
    requires { ForSome at (ContainsKey rows.now) }
    ensures child { result ≡ child_at rows.now at }
    ensures steps { steps.new ≤ steps.old + 1 }
{
    let link = at?;
    let row = rows.row(link, steps);
    Some(Child { link, row })
}

/// Returns the left and the right child of a row.
#[inline(always)]
fn children_of<R: TreeRow, L: Ledger>(
    rows: &RowSlab<R>,
    row: R,
    steps: &mut Steps<L>,
) -> (Option<Child<R>>, Option<Child<R>>)
    requires left { ForSome (R.functions.left row) (ContainsKey rows.now) }
    requires right { ForSome (R.functions.right row) (ContainsKey rows.now) }
    ensures left { result.0 ≡ child_at rows.now (R.functions.left row) }
    ensures right { result.1 ≡ child_at rows.now (R.functions.right row) }
    ensures steps { steps.new ≤ steps.old + 2 }
{
    let left = child_under(rows, row.left(), steps);
    let right = child_under(rows, row.right(), steps);
    (left, right)
}

/// Returns the height that is stored under a link, and 0 under no link.
#[inline(always)]
fn height_under<R: TreeRow, L: Ledger>(
    rows: &RowSlab<R>,
    at: Option<usize>,
    steps: &mut Steps<L>,
) -> u64
    requires { ForSome at (ContainsKey rows.now) }
    ensures height { result ≡ height_at R.functions rows.now at }
    ensures fits { result < 2 ^ 32 }
    ensures steps { steps.new ≤ steps.old + 1 }
{
    match at {
        None => 0,
        Some(place) => u64::from(rows.look(place, steps).height()),
    }
}

/// Returns the height of a child, and 0 for no child.
fn height_of<R: TreeRow>(child: Option<Child<R>>) -> u64
    ensures height { result ≡ height_in R.functions.height child }
    ensures fits { result < 2 ^ 32 }
{
    match child {
        None => 0,
        Some(child) => u64::from(child.row.height()),
    }
}

/// Returns the child, if it is higher than the other one.
fn if_higher<R: TreeRow>(child: Option<Child<R>>, other: Option<Child<R>>) -> Option<Child<R>>
    ensures { result ≡
        (if nat_lt (height_in R.functions.height other) (height_in R.functions.height child) then child else None) }
{
    if height_of(other) < height_of(child) {
        return child;
    }
    None
}

/// Puts a row under a place, over these children.
#[inline(always)]
fn place_over<R: TreeRow, L: Ledger>(
    rows: &mut RowSlab<R>,
    place: usize,
    row: R,
    left: Option<Child<R>>,
    right: Option<Child<R>>,
    steps: &mut Steps<L>,
) -> Child<R>
    requires { ContainsKey rows.old place }
    ensures child { result ≡ record { link = place; row = R.functions.linked row left right } }
    ensures updates { Updates rows.old rows.new place (Some (R.functions.linked row left right)) }
    ensures len { slab_len rows.new ≡ slab_len rows.old }
    ensures capacity { rows.new.capacity ≡ rows.old.capacity }
    ensures steps { steps.new ≡ steps.old + 1 }
{
    let row = row.linked(left, right);
    rows.put(place, row, steps);
    Child { link: place, row }
}

/// Puts a row under a place, over the children under these links, and answers the place. The function is not inlined: a
/// change calls it at most once.
#[inline(never)]
fn put_over<R: TreeRow, L: Ledger>(
    rows: &mut RowSlab<R>,
    place: usize,
    row: &R,
    left: Option<usize>,
    right: Option<usize>,
    steps: &mut Steps<L>,
) -> usize
    requires place { ContainsKey rows.old place }
    requires left { ForSome left (ContainsKey rows.old) }
    requires right { ForSome right (ContainsKey rows.old) }
    ensures place { result ≡ place }
    ensures updates { Updates rows.old rows.new place
        (Some (R.functions.linked row.now (child_at rows.old left) (child_at rows.old right))) }
    ensures len { slab_len rows.new ≡ slab_len rows.old }
    ensures capacity { rows.new.capacity ≡ rows.old.capacity }
    ensures steps { steps.new ≤ steps.old + 3 }
{
    let left = child_under(rows, left, steps);
    let right = child_under(rows, right, steps);
    place_over(rows, place, *row, left, right, steps).link
}

/// Returns what the row above a place has to store anew, if a row stands there in place of another one.
#[inline(always)]
fn change_from<R: TreeRow>(place: usize, had: R, row: R) -> Change
    ensures root { root_after result (Some place) ≡ Some place }
    ensures hidden { result ≡ Hidden → AreAlike R.functions had row }
{
    if had.is_alike(row) {
        Change::Hidden
    } else {
        Change::Root(place)
    }
}

/// Puts a row under a place in place of the one that it had, over the children of that one, and answers what the row above
/// the place has to store anew.
#[inline(always)]
fn put_for<R: TreeRow, L: Ledger>(
    rows: &mut RowSlab<R>,
    place: usize,
    had: R,
    row: R,
    steps: &mut Steps<L>,
) -> Change
    requires had { get rows.old place ≡ Some had }
    requires children { HasChildren R.functions rows.old place }
    ensures root { root_after result (Some place) ≡ Some place }
    ensures put { IsPut R.functions rows.old rows.new place had row result }
    ensures len { slab_len rows.new ≡ slab_len rows.old }
    ensures capacity { rows.new.capacity ≡ rows.old.capacity }
    ensures steps { steps.new ≤ steps.old + 3 }
{
    let (left, right) = children_of(rows, had, steps);
    let child = place_over(rows, place, row, left, right, steps);
    change_from(place, had, child.row)
}

/// Puts a row under a place in place of the one there, over the children of that one, and answers what the row above the
/// place has to store anew. The function is not inlined: a change calls it at most once.
#[inline(never)]
pub fn put_instead<R: TreeRow, L: Ledger>(
    rows: &mut RowSlab<R>,
    place: usize,
    row: &R,
    steps: &mut Steps<L>,
) -> Change
    requires { HasChildren R.functions rows.old place }
    ensures root { root_after result (Some place) ≡ Some place }
    ensures put { (had : R) → get rows.old place ≡ Some had → IsPut R.functions rows.old rows.new place had row.now result }
    ensures len { slab_len rows.new ≡ slab_len rows.old }
    ensures capacity { rows.new.capacity ≡ rows.old.capacity }
    ensures steps { steps.new ≤ steps.old + 4 }
{
    let had = rows.row(place, steps);
    put_for(rows, place, had, *row, steps)
}

/// Puts the row of a place there again, over its children, and answers what the row above it has to store anew. The
/// function is not inlined: a call on the way down then keeps no more than the place.
#[inline(never)]
pub fn put_again<R: TreeRow, L: Ledger>(
    rows: &mut RowSlab<R>,
    place: usize,
    steps: &mut Steps<L>,
) -> Change
    requires { HasChildren R.functions rows.old place }
    ensures root { root_after result (Some place) ≡ Some place }
    ensures put { (had : R) → get rows.old place ≡ Some had → IsPut R.functions rows.old rows.new place had had result }
    ensures len { slab_len rows.new ≡ slab_len rows.old }
    ensures capacity { rows.new.capacity ≡ rows.old.capacity }
    ensures steps { steps.new ≤ steps.old + 4 }
{
    let row = rows.row(place, steps);
    put_for(rows, place, row, row, steps)
}

/// Puts the row under its left child: the left child is too high.
#[inline(never)]
fn lean_right<R: TreeRow, L: Ledger>(
    rows: &mut RowSlab<R>,
    place: usize,
    row: R,
    left: Option<usize>,
    right: Option<usize>,
    steps: &mut Steps<L>,
) -> usize
    requires split { Splits R.functions rows.old left place row right }
    requires high { height_at R.functions rows.old right < height_at R.functions rows.old left }
    ensures tree { (l : SearchTree R) (x : R) (r : SearchTree R) (low high : ℕ) → IsSplit R.functions rows.old l place x r low high
        → Same R.functions x row → place_of l ≡ left → place_of r ≡ right
        → Becomes R.functions rows.old rows.new (leaned_right R.functions l place x r) low high
        × (place_of (leaned_right R.functions l place x r) ≡ Some result) }
    ensures len { slab_len rows.new ≡ slab_len rows.old }
    ensures capacity { rows.new.capacity ≡ rows.old.capacity }
    ensures steps { steps.new ≤ steps.old + 9 }
{
    let right = child_under(rows, right, steps);
    let Some(parent) = child_under(rows, left, steps) else {
        unreachable!()
    };
    let (outer, inner) = children_of(rows, parent.row, steps);
    match if_higher(inner, outer) {
        Some(top) => {
            let (low, high) = children_of(rows, top.row, steps);
            let first = place_over(rows, parent.link, parent.row, outer, low, steps);
            let last = place_over(rows, place, row, high, right, steps);
            place_over(rows, top.link, top.row, Some(first), Some(last), steps).link
        }
        None => {
            let last = place_over(rows, place, row, inner, right, steps);
            place_over(rows, parent.link, parent.row, outer, Some(last), steps).link
        }
    }
}

/// Puts the row under its right child: the right child is too high.
#[inline(never)]
fn lean_left<R: TreeRow, L: Ledger>(
    rows: &mut RowSlab<R>,
    place: usize,
    row: R,
    left: Option<usize>,
    right: Option<usize>,
    steps: &mut Steps<L>,
) -> usize
    requires split { Splits R.functions rows.old left place row right }
    requires high { height_at R.functions rows.old left < height_at R.functions rows.old right }
    ensures tree { (l : SearchTree R) (x : R) (r : SearchTree R) (low high : ℕ) → IsSplit R.functions rows.old l place x r low high
        → Same R.functions x row → place_of l ≡ left → place_of r ≡ right
        → Becomes R.functions rows.old rows.new (leaned_left R.functions l place x r) low high
        × (place_of (leaned_left R.functions l place x r) ≡ Some result) }
    ensures len { slab_len rows.new ≡ slab_len rows.old }
    ensures capacity { rows.new.capacity ≡ rows.old.capacity }
    ensures steps { steps.new ≤ steps.old + 9 }
{
    let left = child_under(rows, left, steps);
    let Some(parent) = child_under(rows, right, steps) else {
        unreachable!()
    };
    let (inner, outer) = children_of(rows, parent.row, steps);
    match if_higher(inner, outer) {
        Some(top) => {
            let (low, high) = children_of(rows, top.row, steps);
            let first = place_over(rows, place, row, left, low, steps);
            let last = place_over(rows, parent.link, parent.row, high, outer, steps);
            place_over(rows, top.link, top.row, Some(first), Some(last), steps).link
        }
        None => {
            let first = place_over(rows, place, row, left, inner, steps);
            place_over(rows, parent.link, parent.row, Some(first), outer, steps).link
        }
    }
}

/// Puts the row over two children whose heights may differ by two. If they do, one of the children, or a child of it,
/// becomes the parent. Answers the link to what then stands there. If the heights differ by at most one, the call looks
/// only at the stored heights of the two.
#[inline(always)]
pub fn balance<R: TreeRow, L: Ledger>(
    rows: &mut RowSlab<R>,
    place: usize,
    row: R,
    left: Option<usize>,
    right: Option<usize>,
    steps: &mut Steps<L>,
) -> usize
    requires { Splits R.functions rows.old left place row right }
    ensures tree { (l : SearchTree R) (x : R) (r : SearchTree R) (low high : ℕ) → IsSplit R.functions rows.old l place x r low high
        → Same R.functions x row → place_of l ≡ left → place_of r ≡ right
        → Becomes R.functions rows.old rows.new (balanced R.functions l place x r) low high
        × (place_of (balanced R.functions l place x r) ≡ Some result) }
    ensures len { slab_len rows.new ≡ slab_len rows.old }
    ensures capacity { rows.new.capacity ≡ rows.old.capacity }
    ensures steps { steps.new ≤ steps.old + 11 }
{
    let left_height = height_under(rows, left, steps);
    let right_height = height_under(rows, right, steps);
    if right_height + 1 < left_height {
        return lean_right(rows, place, row, left, right, steps);
    }
    if left_height + 1 < right_height {
        return lean_left(rows, place, row, left, right, steps);
    }
    put_over(rows, place, &row, left, right, steps)
}

/// Balances the row that stands at a place over two children, and returns what the row above it has to store anew. The row
/// is copied only if it moves: otherwise its links and its height change where it stands.
#[inline(always)]
fn rebalance<R: TreeRow, L: Ledger>(
    rows: &mut RowSlab<R>,
    place: usize,
    left: Option<usize>,
    right: Option<usize>,
    steps: &mut Steps<L>,
) -> Change
    requires { (row : R) × (get rows.old place ≡ Some row) × Splits R.functions rows.old left place row right }
    ensures tree { (row : R) → get rows.old place ≡ Some row
        → (l : SearchTree R) (x : R) (r : SearchTree R) (low high : ℕ) → IsSplit R.functions rows.old l place x r low high
        → Same R.functions x row → place_of l ≡ left → place_of r ≡ right
        → Becomes R.functions rows.old rows.new (balanced R.functions l place x r) low high
        × IsRooted R.functions (Some (record { link = place; row = row })) (balanced R.functions l place x r) result }
    ensures len { slab_len rows.new ≡ slab_len rows.old }
    ensures capacity { rows.new.capacity ≡ rows.old.capacity }
    ensures steps { steps.new ≤ steps.old + 12 }
{
    let left_height = height_under(rows, left, steps);
    let right_height = height_under(rows, right, steps);
    if right_height + 1 < left_height {
        let high = rows.row(place, steps);
        return Change::Root(lean_right(rows, place, high, left, right, steps));
    }
    if left_height + 1 < right_height {
        let low = rows.row(place, steps);
        return Change::Root(lean_left(rows, place, low, left, right, steps));
    }
    let left_child = child_under(rows, left, steps);
    let right_child = child_under(rows, right, steps);
    let had = rows.row(place, steps);
    let child = place_over(rows, place, had, left_child, right_child, steps);
    change_from(place, had, child.row)
}

/// Balances the row that stands at a place over this left child and the right one that it has, and returns what the row
/// above it has to store anew. The function is not inlined: a call on the way down then keeps no more than the place.
#[inline(never)]
pub fn rebalance_left<R: TreeRow, L: Ledger>(
    rows: &mut RowSlab<R>,
    place: usize,
    left: Option<usize>,
    steps: &mut Steps<L>,
) -> Change
    requires { (row : R) × (get rows.old place ≡ Some row) × Splits R.functions rows.old left place row (R.functions.right row) }
    ensures tree { (row : R) → get rows.old place ≡ Some row
        → (l : SearchTree R) (x : R) (r : SearchTree R) (low high : ℕ) → IsSplit R.functions rows.old l place x r low high
        → Same R.functions x row → place_of l ≡ left → place_of r ≡ R.functions.right row
        → Becomes R.functions rows.old rows.new (balanced R.functions l place x r) low high
        × IsRooted R.functions (Some (record { link = place; row = row })) (balanced R.functions l place x r) result }
    ensures len { slab_len rows.new ≡ slab_len rows.old }
    ensures capacity { rows.new.capacity ≡ rows.old.capacity }
    ensures steps { steps.new ≤ steps.old + 13 }
{
    let right = rows.look(place, steps).right();
    rebalance(rows, place, left, right, steps)
}

/// Balances the row that stands at a place over this right child and the left one that it has, and returns what the row
/// above it has to store anew. The function is not inlined: a call on the way down then keeps no more than the place.
#[inline(never)]
pub fn rebalance_right<R: TreeRow, L: Ledger>(
    rows: &mut RowSlab<R>,
    place: usize,
    right: Option<usize>,
    steps: &mut Steps<L>,
) -> Change
    requires { (row : R) × (get rows.old place ≡ Some row) × Splits R.functions rows.old (R.functions.left row) place row right }
    ensures tree { (row : R) → get rows.old place ≡ Some row
        → (l : SearchTree R) (x : R) (r : SearchTree R) (low high : ℕ) → IsSplit R.functions rows.old l place x r low high
        → Same R.functions x row → place_of l ≡ R.functions.left row → place_of r ≡ right
        → Becomes R.functions rows.old rows.new (balanced R.functions l place x r) low high
        × IsRooted R.functions (Some (record { link = place; row = row })) (balanced R.functions l place x r) result }
    ensures len { slab_len rows.new ≡ slab_len rows.old }
    ensures capacity { rows.new.capacity ≡ rows.old.capacity }
    ensures steps { steps.new ≤ steps.old + 13 }
{
    let left = rows.look(place, steps).left();
    rebalance(rows, place, left, right, steps)
}
