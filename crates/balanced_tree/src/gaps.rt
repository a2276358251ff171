//! The search for a gap between extents.

ghost use Rattle.std.specs.Prelude.{◌≡◌, ◌⊎◌, ◌↔◌, ℕ, ◌+◌, ◌<◌, ◌≤◌, IsTrue};
ghost use Rattle.std.specs.Prelude.{if◌then◌else◌, nat_le, Some, None};
ghost use Rattle.balanced_tree.specs.Gaps.{ApartWithin};
ghost use Rattle.balanced_tree.specs.inside.GapSearch.{HasSearched};
ghost use Rattle.balanced_tree.specs.inside.Standing.{IsStanding, Stands};
ghost use Rattle.balanced_tree.specs.inside.Tree.{SearchTree, rows_of};

use crate::extent_row::ExtentRow;
use crate::row_slab::RowSlab;
use crate::spans::Span;
use crate::steps::Steps;
use std::sync::ledger::Ledger;

/// Returns whether `size` ranks from `from` on end at the limit or before.
fn fits(from: u128, size: u128, limit: u128) -> bool
    ensures { IsTrue result ↔ (from + size ≤ limit) }
{
    from <= limit && size <= limit - from
}

/// Returns `from`, if `size` ranks from there on end at the limit or before.
fn if_fits(from: u128, size: u128, limit: u128) -> Option<u128>
    ensures { result ≡ (if nat_le (from + size) limit then Some from else None) }
{
    if fits(from, size, limit) {
        Some(from)
    } else {
        None
    }
}

/// Returns whether no gap of this size from `from` on lies before or between extents of this span. That is so if they
/// all end before `from`, or if the first begins too early and the gaps between them are too small.
fn is_passed(span: Span, from: u128, size: u128) -> bool
    ensures { IsTrue result ↔ ((span.highest ≤ from) ⊎ ((span.gap < size) × (span.lowest < from + size))) }
{
    span.highest <= from || span.gap < size && !fits(from, size, span.lowest)
}

/// Returns the first gap of `size` ranks from `from` on and below the limit, between the extents of the tree under a
/// link.
pub fn gap_below<R: ExtentRow, L: Ledger>(
    rows: &RowSlab<R>,
    at: Option<usize>,
    from: u128,
    size: u128,
    limit: u128,
    steps: &mut Steps<L>,
) -> Option<u128>
    requires { Stands R.functions rows.now at }
    ensures { (t : SearchTree R) (low high first last : ℕ) → IsStanding R.functions rows.now at t low high
        → ApartWithin R.functions R.extents first last (rows_of R.functions t)
        → HasSearched R.functions R.extents t first last from size limit result steps.old steps.new }
{
    if !fits(from, size, limit) {
        return None;
    }
    let Some(place) = at else {
        return Some(from);
    };
    let here = rows.row(place, steps);
    let span = here.span();
    if is_passed(span, from, size) {
        return if_fits(from.max(span.highest), size, limit);
    }
    let before = gap_below(rows, here.left(), from, size, limit.min(here.rank()), steps);
    if let Some(gap) = before {
        return Some(gap);
    }
    gap_below(rows, here.right(), from.max(here.end()), size, limit, steps)
}
