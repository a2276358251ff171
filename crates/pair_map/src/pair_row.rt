//! A row of a map from pairs.

ghost use Rattle.std.specs.Prelude.{◌≡◌};
ghost use Rattle.balanced_tree.specs.Row.{height_in};
ghost use Rattle.pair_map.specs.PairRows.{pair_of};

use balanced_tree::{Child, TreeRow, link_to, pair_rank};

/// A row as it stands in the tree: under a pair of numbers a value, the links to the two children, and the height.
#[derive(Clone, Copy)]
pub struct PairRow<V> {
    pub first: u64,
    pub second: u64,
    pub value: V,
    pub left: Option<usize>,
    pub right: Option<usize>,
    pub height: u32,
}

impl<V: Copy> PairRow<V> {
    /// Makes the row of a pair with no children.
    pub(crate) fn new(first: u64, second: u64, value: V) -> PairRow<V>
        ensures { result ≡ pair_of first second value }
    {
        PairRow {
            first,
            second,
            value,
            left: None,
            right: None,
            height: 0,
        }
    }
}

fn height_of<V: Copy>(child: Option<Child<PairRow<V>>>) -> u32
    ensures { result ≡ height_in (λ x. x.height) child }
{
    match child {
        None => 0,
        Some(child) => child.row.height,
    }
}

impl<V: Copy> TreeRow for PairRow<V> {
    ghost use Rattle.std.specs.Prelude.{refl};
    ghost use Rattle.balanced_tree.specs.Row.{link_of, height_over};
    ghost use Rattle.pair_map.specs.PairRows.{pair_functions};

    ghost functions = { pair_functions };

    fn rank(self) -> u128 {
        pair_rank(self.first, self.second)
    }

    fn left(self) -> Option<usize> {
        self.left
    }

    fn right(self) -> Option<usize> {
        self.right
    }

    fn height(self) -> u32 {
        self.height
    }

    fn linked(self, left: Option<Child<PairRow<V>>>, right: Option<Child<PairRow<V>>>) -> PairRow<V>
        ensures { result ≡ record self {
          left = link_of left;
          right = link_of right;
          height = height_over (λ y. y.height) left right;
        } }
    {
        let height = height_of(left).max(height_of(right)).saturating_add(1);
        PairRow {
            left: link_to(left),
            right: link_to(right),
            height,
            ..self
        }
    }

    fn is_alike(self, other: PairRow<V>) -> bool {
        self.height == other.height
    }

    ghost lawful = { record {
      rank_kept = λ x l r. refl;
      left_set = λ x l r. refl;
      right_set = λ x l r. refl;
      height_set = λ x l r. refl;
      forgets = λ x a b l r. refl;
    } };
}
