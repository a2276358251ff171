//! The children of each VMO, as rows of a balanced tree: by parent, and then by child.

ghost use Rattle.std.specs.Prelude.{◌≡◌, ℕ, ◌+◌, ◌^◌, ◌<◌, ◌≤◌, true, false, None, Some, IfSome};
ghost use Rattle.std.specs.Option.{option_map};
ghost use Rattle.vm_base.specs.declared.names.Koid.{Koid};
ghost use Rattle.balanced_tree.specs.Row.{height_in};
ghost use Rattle.balanced_tree.specs.Pairs.{second_in};
ghost use Rattle.vmo_table.specs.inside.ChildRows.{child_row_of, parent_in_row, child_in, is_under, IsChange};
ghost use Rattle.vmo_table.specs.Vmos.{koid_number};

use balanced_tree::{BalancedTree, Child, TreeRow, link_to, pair_rank};
use vm_base::Koid;

/// A row as it stands in the tree: a parent and a child of it, the links, and the height.
#[derive(Clone, Copy, Debug)]
pub(crate) struct ChildRow {
    pub parent: Koid,
    pub child: Koid,
    pub left: Option<usize>,
    pub right: Option<usize>,
    pub height: u32,
}

/// A row for each VMO that has a parent.
pub(crate) type ChildRows = BalancedTree<ChildRow>;

impl ChildRow {
    /// Returns the row of a child, with no links.
    fn new(parent: Koid, child: Koid) -> ChildRow
        ensures { result ≡ child_row_of parent.0 child.0 }
    {
        ChildRow {
            parent,
            child,
            left: None,
            right: None,
            height: 0,
        }
    }
}

fn height_of(child: Option<Child<ChildRow>>) -> u32
    ensures { result ≡ height_in (λ x. x.height) child }
{
    match child {
        None => 0,
        Some(child) => child.row.height,
    }
}

impl TreeRow for ChildRow {
    ghost use Rattle.std.specs.Prelude.{refl};
    ghost use Rattle.balanced_tree.specs.Row.{link_of, height_over};
    ghost use Rattle.vmo_table.specs.inside.ChildRows.{child_row_functions};

    ghost functions = { child_row_functions };

    fn rank(self) -> u128 {
        pair_rank(self.parent.0, self.child.0)
    }

    fn left(self) -> Option<usize> {
        self.left
    }

    fn right(self) -> Option<usize> {
        self.right
    }

    fn height(self) -> u32 {
        self.height
    }

    fn linked(self, left: Option<Child<ChildRow>>, right: Option<Child<ChildRow>>) -> ChildRow
        ensures { result ≡ record self {
          left = link_of left;
          right = link_of right;
          height = height_over (λ y. y.height) left right;
        } }
    {
        let height = height_of(left).max(height_of(right)).saturating_add(1);
        ChildRow {
            left: link_to(left),
            right: link_to(right),
            height,
            ..self
        }
    }

    fn is_alike(self, other: ChildRow) -> bool {
        self.height == other.height
    }

    ghost lawful = { record {
      rank_kept = λ x l r. refl;
      left_set = λ x l r. refl;
      right_set = λ x l r. refl;
      height_set = λ x l r. refl;
      forgets = λ x a b l r. refl;
    } };
}

/// Puts a child under a parent. Without a parent nothing changes.
pub(crate) fn add_child(rows: &mut ChildRows, parent: Option<Koid>, child: Koid)
    requires absent { IfSome parent (λ p. is_under rows.old p.0 child.0 ≡ false) }
    requires room { 1 ≤ rows.old.spare }
    ensures { IsChange rows.old rows.new (option_map koid_number parent) child.0 true }
{
    if let Some(parent) = parent {
        rows.insert(ChildRow::new(parent, child));
    }
}

/// Takes a child out from under its parent. Without a parent nothing changes.
pub(crate) fn remove_child(rows: &mut ChildRows, parent: Option<Koid>, child: Koid)
    requires { IfSome parent (λ p. is_under rows.old p.0 child.0 ≡ true) }
    ensures change { IsChange rows.old rows.new (option_map koid_number parent) child.0 false }
    ensures spare { IfSome parent (λ p. rows.new.spare ≡ rows.old.spare + 1) }
{
    if let Some(parent) = parent {
        rows.remove(pair_rank(parent.0, child.0));
    }
}

/// Returns the child with the lowest koid of a VMO. `None` if and only if the VMO has no child.
pub(crate) fn first_child(rows: &ChildRows, parent: Koid) -> Option<Koid>
    ensures none { result ≡ None → (v : ℕ) → is_under rows.now parent.0 v ≡ false }
    ensures some { (child : Koid) → result ≡ Some child → is_under rows.now parent.0 child.0 ≡ true }
{
    let _rising = rows.len();
    child_under(parent, rows.next(pair_rank(parent.0, 0)))
}

/// Returns the child of the row that follows, if it is under this parent.
fn child_under(parent: Koid, next: Option<ChildRow>) -> Option<Koid>
    ensures child { option_map koid_number result ≡ second_in parent_in_row child_in parent.0 next }
    ensures fits { IfSome next (λ row. row.child.0 < 2 ^ 64) }
{
    match next {
        Some(row) if row.parent == parent => Some(row.child),
        _ => None,
    }
}
