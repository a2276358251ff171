//! A row of a map from lists and the first numbers of extents.

ghost use Rattle.std.specs.Prelude.{true, ◌≡◌};
ghost use Rattle.balanced_tree.specs.Extents.{span_in};
ghost use Rattle.balanced_tree.specs.Row.{height_in};
ghost use Rattle.balanced_tree.specs.Pairs.{pair_rank};
ghost use Rattle.pair_map.specs.StretchRows.{stretch_of, end_rank};

use balanced_tree::{Child, ExtentRow, Span, TreeRow, link_to, pair_rank, span_over};

/// `count` numbers of a list in a row, with a value.
#[derive(Clone, Copy)]
pub struct Extent<V> {
    pub count: u64,
    pub value: V,
}

/// A row as it stands in the tree: the extent from this number of a list on, and what the tree keeps of a row.
#[derive(Clone, Copy)]
pub struct StretchRow<V> {
    pub list: u64,
    pub first: u64,
    pub extent: Extent<V>,
    pub left: Option<usize>,
    pub right: Option<usize>,
    pub height: u32,
    pub span: Span,
}

impl<V: Copy> StretchRow<V> {
    /// Makes the row of an extent with no children.
    pub(crate) fn new(list: u64, first: u64, extent: Extent<V>) -> StretchRow<V>
        ensures { result ≡ stretch_of list first extent }
    {
        StretchRow {
            list,
            first,
            extent,
            left: None,
            right: None,
            height: 0,
            span: Span {
                lowest: 0,
                highest: 0,
                gap: 0,
            },
        }
    }
}

/// Returns the rank just behind an extent that ends below number 2^64 of its list.
fn end_rank(list: u64, first: u64, count: u64) -> u128
    ensures { result ≡ end_rank list first count }
{
    pair_rank(list, first.saturating_add(count))
}

fn height_of<V: Copy>(child: Option<Child<StretchRow<V>>>) -> u32
    ensures { result ≡ height_in (λ x. x.height) child }
{
    match child {
        None => 0,
        Some(child) => child.row.height,
    }
}

fn span_of<V: Copy>(child: Option<Child<StretchRow<V>>>) -> Option<Span>
    ensures { result ≡ span_in (λ x. x.span) child }
{
    Some(child?.row.span)
}

/// Reports whether two spans are the same.
fn is_same_span(span: Span, other: Span) -> bool
    ensures { result ≡ true → span ≡ other }
{
    span.lowest == other.lowest && span.highest == other.highest && span.gap == other.gap
}

impl<V: Copy> TreeRow for StretchRow<V> {
    ghost use Rattle.std.specs.Prelude.{refl};
    ghost use Rattle.balanced_tree.specs.Row.{link_of, height_over};
    ghost use Rattle.balanced_tree.specs.Extents.{span_over, span_in};
    ghost use Rattle.balanced_tree.specs.Pairs.{pair_rank};
    ghost use Rattle.pair_map.specs.StretchRows.{stretch_functions, end_rank};

    ghost functions = { stretch_functions };

    fn rank(self) -> u128 {
        pair_rank(self.list, self.first)
    }

    fn left(self) -> Option<usize> {
        self.left
    }

    fn right(self) -> Option<usize> {
        self.right
    }

    fn height(self) -> u32 {
        self.height
    }

    fn linked(
        self,
        left: Option<Child<StretchRow<V>>>,
        right: Option<Child<StretchRow<V>>>,
    ) -> StretchRow<V>
        ensures { result ≡ record self {
          left = link_of left;
          right = link_of right;
          height = height_over (λ y. y.height) left right;
          span = span_over (pair_rank self.list self.first) (end_rank self.list self.first self.extent.count)
              (span_in (λ y. y.span) left) (span_in (λ y. y.span) right);
        } }
    {
        let rank = pair_rank(self.list, self.first);
        let end = end_rank(self.list, self.first, self.extent.count);
        StretchRow {
            left: link_to(left),
            right: link_to(right),
            height: height_of(left).max(height_of(right)).saturating_add(1),
            span: span_over(rank, end, span_of(left), span_of(right)),
            ..self
        }
    }

    fn is_alike(self, other: StretchRow<V>) -> bool {
        if self.height != other.height {
            return false;
        }
        is_same_span(self.span, other.span)
    }

    ghost lawful = { record {
      rank_kept = λ x l r. refl;
      left_set = λ x l r. refl;
      right_set = λ x l r. refl;
      height_set = λ x l r. refl;
      forgets = λ x a b l r. refl;
    } };
}

impl<V: Copy> ExtentRow for StretchRow<V> {
    ghost use Rattle.std.specs.Prelude.{refl};
    ghost use Rattle.pair_map.specs.StretchRows.{stretch_extents};

    ghost extents = { stretch_extents };

    fn end(self) -> u128 {
        end_rank(self.list, self.first, self.extent.count)
    }

    fn span(self) -> Span {
        self.span
    }

    ghost spanned = { record {
      end_kept = λ x l r. refl;
      span_set = λ x l r. refl;
    } };
}
