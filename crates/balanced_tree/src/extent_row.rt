//! What a row type that stands for extents tells the tree beside the rest.

ghost use Rattle.std.specs.Prelude.{◌≡◌};

use crate::spans::Span;
use crate::tree_row::TreeRow;

/// A row that stands for an extent: the ranks from its own on, up to its end. Beside what every row has, it holds the
/// span of all rows below it and its own, which `linked` computes anew by `span_over`.
///
/// A table with several lists gives each list ranks of its own, as the number of the list times 2^64 and the page in
/// it. Spans and gaps are measured in ranks, so they know nothing of lists.
pub trait ExtentRow: TreeRow {
    ghost use Rattle.balanced_tree.specs.Extents.{Extents, AreSpanned};

    /// The functions that the methods compute.
    ghost extents: { Extents Self };

    /// Returns the rank just behind the extent.
    fn end(self) -> u128
        ensures { result ≡ extents.end self };

    /// Returns the span of the rows below this one, itself included.
    fn span(self) -> Span
        ensures { result ≡ extents.span self };

    ghost spanned: { AreSpanned Self.functions extents };
}
