//! What is kept of all extents of a subtree.

ghost use Rattle.std.specs.Prelude.{◌≡◌};
ghost use Rattle.balanced_tree.specs.Extents.{span_over};

/// The span of the extents of a subtree, in ranks: the rank of the first, the end of the last, and the greatest gap
/// between neighbours, 0 if there is one extent alone.
#[derive(Clone, Copy)]
pub struct Span {
    pub lowest: u128,
    pub highest: u128,
    pub gap: u128,
}

/// Returns the span of an extent over those of its children, if it has children.
pub fn span_over(rank: u128, end: u128, left: Option<Span>, right: Option<Span>) -> Span
    ensures { result ≡ span_over rank end left right }
{
    let (lowest, before) = match left {
        None => (rank, 0),
        Some(span) => (span.lowest, span.gap.max(rank.saturating_sub(span.highest))),
    };
    let (highest, behind) = match right {
        None => (end, 0),
        Some(span) => (span.highest, span.gap.max(span.lowest.saturating_sub(end))),
    };
    Span {
        lowest,
        highest,
        gap: before.max(behind),
    }
}
