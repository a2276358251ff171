//! A row of the table: a page of a list, and its slot.

ghost use Rattle.std.specs.Prelude.{◌≡◌};
ghost use Rattle.balanced_tree.specs.Row.{height_in};
ghost use Rattle.page_list.specs.Order.{row_of};

use balanced_tree::{Child, TreeRow, link_to, pair_rank};
use vm_base::{PageNo, Tag};

/// The number of a list of pages.
#[derive(Clone, Copy, Debug, PartialEq, Eq, Hash)]
pub struct ListId(pub u64);

/// The state of a page, as its row says it.
#[derive(Clone, Copy, Debug, PartialEq, Eq)]
pub enum Slot {
    /// The page has this frame. In the list of a hidden node, `left` and `right` are the split bits: a set bit says
    /// that no VMO on that side sees the row. In any other list both are false.
    Frame { tag: Tag, left: bool, right: bool },
    /// The page is zero, whatever a list behind this one has for it.
    Zero,
}

/// A row as it stands in the tree: under a list and a page, a slot, the height, and the links to the two children. The
/// height fills the room that the slot leaves, so that a row has 64 bytes.
#[derive(Clone, Copy, Debug)]
pub struct Row {
    pub list: ListId,
    pub page: PageNo,
    pub slot: Slot,
    pub height: u32,
    pub left: Option<usize>,
    pub right: Option<usize>,
}

/// Rows under their places. Each look, change, addition and removal is one step.
pub type RowSlab = balanced_tree::RowSlab<Row>;

impl Row {
    /// Returns the row of a page with no children.
    pub(crate) fn new(list: ListId, page: PageNo, slot: Slot) -> Row
        ensures { result ≡ row_of list.0 page slot }
    {
        Row {
            list,
            page,
            slot,
            left: None,
            right: None,
            height: 0,
        }
    }
}

fn height_of(child: Option<Child<Row>>) -> u32
    ensures { result ≡ height_in (λ x. x.height) child }
{
    match child {
        None => 0,
        Some(child) => child.row.height,
    }
}

impl TreeRow for Row {
    ghost use Rattle.std.specs.Prelude.{refl};
    ghost use Rattle.balanced_tree.specs.Row.{link_of, height_over};
    ghost use Rattle.page_list.specs.Order.{row_functions};

    ghost functions = { row_functions };

    fn rank(self) -> u128 {
        pair_rank(self.list.0, self.page)
    }

    fn left(self) -> Option<usize> {
        self.left
    }

    fn right(self) -> Option<usize> {
        self.right
    }

    fn height(self) -> u32 {
        self.height
    }

    fn linked(self, left: Option<Child<Row>>, right: Option<Child<Row>>) -> Row
        ensures { result ≡ record self {
          left = link_of left;
          right = link_of right;
          height = height_over (λ y. y.height) left right;
        } }
    {
        // A changed copy keeps the list, the page and the slot in one piece. A new row would be put together field by
        // field.
        let mut row = self;
        row.height = height_of(left).max(height_of(right)).saturating_add(1);
        row.left = link_to(left);
        row.right = link_to(right);
        row
    }

    fn is_alike(self, other: Row) -> bool {
        self.height == other.height
    }

    ghost lawful = { record {
      rank_kept = λ x l r. refl;
      left_set = λ x l r. refl;
      right_set = λ x l r. refl;
      height_set = λ x l r. refl;
      forgets = λ x a b l r. refl;
    } };
}
