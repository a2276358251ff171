//! Leaving a range of pages of a VMO's node out of sight.

ghost use Rattle.std.specs.Prelude.{◌≡◌, ◌≢◌, ◌+◌, ◌^◌, ◌<◌, ◌≤◌, ℕ, Bool, true, Option, None, Some, IsSome, IfSome, IfNone, IsSomeAnd, option_copied};
ghost use Rattle.page_list.specs.Lists.{has_row, slots_of};
ghost use Rattle.frame_pool.specs.Pool.{taken_frames, is_taken};
ghost use Rattle.vm_base.specs.declared.names.Tag.{Tag};
ghost use Rattle.cow_arena.specs.declared.node.Node.{Node};
ghost use Rattle.cow_arena.specs.declared.node.NodeId.{NodeId};
ghost use Rattle.cow_arena.specs.Nodes.{nodes_of};
ghost use Rattle.cow_arena.specs.Walk.{frame_in};
ghost use Rattle.cow_arena.specs.Ways.{HasRow, Reaches, IsPartOf};
ghost use Rattle.cow_split.specs.Trees.{tree_of};
ghost use Rattle.cow_split.specs.Searching.{ComesTo};
ghost use Rattle.cow_split.specs.Exact.{IsExact, IsOnlyOf, all_in_sight};
ghost use Rattle.cow_split.specs.Cutting.{frame_left};
ghost use Rattle.cow_split.specs.declared.answers.Cut.TheVariants as cut;
ghost use Rattle.vm_base.specs.Search.{IsFirstOrNone};
ghost use Rattle.cow_jump.specs.Jumps.{MayJump};
ghost use Rattle.cow_merge.specs.inside.Lifting.{IsFamilyOf};
ghost use Rattle.cow_merge.specs.Ranges.{IsOutside, no_pages, IsNextOutside, bare_of, is_split, HasGiven, Moves, IsLeftBare, IsPassing, IsOnItsWayUp, IsSparing, IsOnlyWay, HasCutOff, ComesNotTo, IsLeftOut, IsExactFor};

use crate::places::{Arrival, Family, Span};
use crate::witness::{MOST_ASKED, Rest, cut_few, leave_out_beside, skip_beside};
use cow_arena::{CowArena, NodeId, Side};
use cow_jump::JumpTable;
use cow_split::{Cut, RowAbove, cut_row};
use frame_pool::FramePool;
use page_list::{ListId, PageLists, Slot};
use vm_base::PageNo;

/// Pages of a VMO's node, from `from` to below `to`.
#[derive(Clone, Copy)]
pub(crate) struct Pages {
    pub(crate) from: PageNo,
    pub(crate) to: PageNo,
}

/// Leaves the pages of a VMO's node from `first` on out of sight. The node's own rows of these pages go, and each page
/// is cut off from the frame that it sees in a row above the node. Frames that no other VMO shows are given back. The
/// call goes through the rows of the parent that the range reaches. It goes through rows further up only for the pages
/// that have no witness (`leave_out_beside`).
pub(crate) fn leave_out(
    arena: &CowArena,
    lists: &mut PageLists,
    frames: &mut FramePool,
    jumps: Option<&JumpTable>,
    leaf: NodeId,
    first: PageNo,
)
    requires exact { IsExact (tree_of arena.now lists.old) all_in_sight (is_taken frames.old) }
    requires leaf { IsSomeAnd (nodes_of arena.now leaf.0) (λ node. IsSome node.koid) }
    requires jumps { MayJump (tree_of arena.now lists.old) (option_copied jumps) }
    ensures left { (node : Node) → nodes_of arena.now leaf.0 ≡ Some node → IsLeftOut arena.now lists.new frames.new leaf.0 node first }
    ensures lost { Moves arena.now lists.old lists.new frames.old frames.new leaf.0 first IsPartOf }
{
    drop_rows(arena, lists, frames, leaf, first);
    let node = arena.node(leaf);
    let (Some(hidden), Some(sibling)) = (node.parent, arena.sibling(leaf)) else {
        return;
    };
    if node.seen <= first {
        return;
    }
    let above = arena.node(hidden);
    prove!(above.count <= u64::MAX);
    let side = above.side_of(leaf);
    let shift = node.first;
    let to = shift + node.seen;
    let arrival = Arrival {
        leaf,
        at: hidden,
        node: above,
        side,
    };
    let span = Span { first, shift, to };
    let skip = Pages { from: 0, to: 0 };
    cut_rows(arena, lists, frames, arrival, span, skip);
    let family = Family {
        leaf,
        hidden,
        sibling,
    };
    leave_out_further(arena, lists, frames, jumps, family, span);
}

/// Does what `leave_out` does with all pages of a VMO's node, but leaves those alone that the parent holds. The
/// parent's rows stay as they are. Every other page is cut off from the row that it sees above the parent.
pub(crate) fn leave_out_above(
    arena: &CowArena,
    lists: &mut PageLists,
    frames: &mut FramePool,
    jumps: Option<&JumpTable>,
    family: Family,
)
    requires exact { IsExact (tree_of arena.now lists.old) all_in_sight (is_taken frames.old) }
    requires leaf { IsSomeAnd (nodes_of arena.now family.leaf.0) (λ node. IsSome node.koid × (node.parent ≡ Some family.hidden)) }
    requires family { IsFamilyOf arena.now family.leaf.0 family.hidden.0 family.sibling.0 }
    requires jumps { MayJump (tree_of arena.now lists.old) (option_copied jumps) }
    ensures sparing { IsSparing arena.now lists.new frames.new family.leaf.0 0 (Some family.hidden) }
    ensures lost { Moves arena.now lists.old lists.new frames.old frames.new family.leaf.0 0 IsPartOf }
    ensures kept { (above : Node) → nodes_of arena.now family.hidden.0 ≡ Some above → slots_of lists.new above.list.0 ≡ slots_of lists.old above.list.0 }
{
    drop_rows(arena, lists, frames, family.leaf, 0);
    let node = arena.node(family.leaf);
    let above = arena.node(family.hidden);
    prove!(above.count <= u64::MAX);
    let to = node.first + node.seen;
    let span = Span {
        first: 0,
        shift: node.first,
        to,
    };
    leave_out_further(arena, lists, frames, jumps, family, span);
}

/// Leaves pages of a VMO's node out of sight of the rows above its parent. They come to the parent as the span says. If
/// the parent is spared, the pages that it holds are left alone. No other page comes to a row of the parent, so the
/// parent's rows stay as they are.
fn leave_out_further(
    arena: &CowArena,
    lists: &mut PageLists,
    frames: &mut FramePool,
    jumps: Option<&JumpTable>,
    family: Family,
    span: Span,
)
    requires passing { (above : Node) → nodes_of arena.now family.hidden.0 ≡ Some above →
        IsOnItsWayUp arena.now lists.old frames.old family.leaf.0 span.first no_pages above span.shift span.to span.to }
    requires family { IsFamilyOf arena.now family.leaf.0 family.hidden.0 family.sibling.0 }
    requires base { (node : Node) → nodes_of arena.now family.leaf.0 ≡ Some node → span.shift ≡ node.first }
    requires end { (node : Node) → nodes_of arena.now family.leaf.0 ≡ Some node → span.to ≤ span.shift + node.seen }
    requires range { span.first + span.shift < 2 ^ 64 }
    requires jumps { MayJump (tree_of arena.now lists.old) (option_copied jumps) }
    ensures sparing { (spared : Option NodeId) (above : Node) → nodes_of arena.now family.hidden.0 ≡ Some above →
        IsPassing arena.now lists.old frames.old family.leaf.0 span.first no_pages spared above span.shift span.to span.to →
        IsSparing arena.now lists.new frames.new family.leaf.0 span.first spared }
    ensures lost { Moves arena.now lists.old lists.new frames.old frames.new family.leaf.0 span.first IsPartOf }
    ensures kept { (above : Node) → nodes_of arena.now family.hidden.0 ≡ Some above → slots_of lists.new above.list.0 ≡ slots_of lists.old above.list.0 }
{
    let beside = leave_out_beside(arena, lists, frames, jumps, family, span);
    let above = arena.node(family.hidden);
    let arrival = Arrival {
        leaf: family.leaf,
        at: family.hidden,
        node: above,
        side: above.side_of(family.leaf),
    };
    let rest = Rest { span, skip: beside };
    let skip = cut_few(arena, lists, frames, jumps, arrival, rest);
    cut_upwards(arena, lists, frames, arrival, span, skip);
}

/// Cuts pages of a VMO's node off from the frames that they see in rows above a node. They come to this node as the
/// span says. The pages that a spared parent holds are left alone. No other page comes to a row of the node, so its
/// rows stay as they are. The pages `skip` are passed over: they show nothing but what the spared parent holds.
fn cut_upwards(
    arena: &CowArena,
    lists: &mut PageLists,
    frames: &mut FramePool,
    start: Arrival,
    span: Span,
    skip: Pages,
)
    requires passing { IsOnItsWayUp arena.now lists.old frames.old start.leaf.0 span.first skip start.node span.shift span.to span.to }
    requires start { nodes_of arena.now start.at.0 ≡ Some start.node }
    requires way { span.first + span.shift < span.to → ComesTo (bare_of arena.now) start.leaf.0 span.first start.at.0 (span.first + span.shift) }
    requires range { span.first + span.shift < 2 ^ 64 }
    ensures sparing { (spared : Option NodeId) →
        IsPassing arena.now lists.old frames.old start.leaf.0 span.first skip spared start.node span.shift span.to span.to →
        IsSparing arena.now lists.new frames.new start.leaf.0 span.first spared }
    ensures lost { Moves arena.now lists.old lists.new frames.old frames.new start.leaf.0 span.first IsPartOf }
    ensures kept { slots_of lists.new start.node.list.0 ≡ slots_of lists.old start.node.list.0 }
{
    let first = span.first;
    let mut skip = skip;
    let mut left = MOST_ASKED;
    let mut at = start.at;
    let mut node = start.node;
    let mut from = first + span.shift;
    let mut to = span.to;
    let mut shift = span.shift;
    loop {
        let Some(parent) = node.parent else {
            return;
        };
        let end = to.min(node.seen);
        if end <= from {
            return;
        }
        if has_all(skip, first, end - shift) {
            return;
        }
        let above = arena.node(parent);
        prove!(above.count <= u64::MAX);
        let side = above.side_of(at);
        from += node.first;
        shift += node.first;
        to = end + node.first;
        at = parent;
        node = above;
        let arrival = Arrival {
            leaf: start.leaf,
            at,
            node,
            side,
        };
        let here = Span { first, shift, to };
        cut_rows(arena, lists, frames, arrival, here, skip);
        skip = skip_beside(arena, lists, arrival, Rest { span: here, skip }, left);
        left = left.saturating_sub(1);
    }
}

/// Returns `true` only if each page from `from` to below `to` is one of `pages`.
fn has_all(pages: Pages, from: PageNo, to: PageNo) -> bool
    ensures { result ≡ true → (q : ℕ) → from ≤ q → q < to → IsOutside pages q → ⊥ }
{
    pages.from <= from && to <= pages.to
}

/// Removes the own rows of a VMO's node from page `first` on, and gives their frames back.
fn drop_rows(
    arena: &CowArena,
    lists: &mut PageLists,
    frames: &mut FramePool,
    leaf: NodeId,
    first: PageNo,
)
    requires exact { IsExact (tree_of arena.now lists.old) all_in_sight (is_taken frames.old) }
    requires leaf { IsSomeAnd (nodes_of arena.now leaf.0) (λ node. IsSome node.koid) }
    ensures bare { IsLeftBare arena.now lists.new frames.new leaf.0 first }
    ensures lost { Moves arena.now lists.old lists.new frames.old frames.new leaf.0 first IsPartOf }
    ensures others { (node : Node) → nodes_of arena.now leaf.0 ≡ Some node →
        (l : ℕ) → l ≢ node.list.0 → slots_of lists.new l ≡ slots_of lists.old l }
{
    let node = arena.node(leaf);
    let mut from = first;
    while let Some((page, slot)) = lists.take_next(node.list, from) {
        give_back_frame(frames, slot);
        from = page;
    }
}

/// Gives the frame of a row back, if the row has one.
pub(crate) fn give_back_frame(frames: &mut FramePool, slot: Slot)
    requires { (tag : ℕ) → frame_in slot ≡ Some tag → IsSome (taken_frames frames.old tag) }
    ensures { HasGiven frames.old frames.new (frame_in slot) }
{
    if let Slot::Frame { tag, .. } = slot {
        frames.give_back(tag);
    }
}

/// Cuts pages of a VMO's node off from the frames that they see in the rows of a node above it. They come to this node
/// as the span says, from this side. Each comes to no row before, unless a spared parent holds it. The pages `skip` are
/// passed over.
fn cut_rows(
    arena: &CowArena,
    lists: &mut PageLists,
    frames: &mut FramePool,
    arrival: Arrival,
    span: Span,
    skip: Pages,
)
    requires passing { IsOnItsWayUp arena.now lists.old frames.old arrival.leaf.0 span.first skip arrival.node span.shift span.to (span.first + span.shift) }
    requires node { nodes_of arena.now arrival.at.0 ≡ Some arrival.node }
    requires way { Reaches (bare_of arena.now) arrival.leaf.0 span.first arrival.side arrival.at.0 (span.first + span.shift) }
    requires range { span.first + span.shift < span.to }
    ensures passing { (spared : Option NodeId) →
        IsPassing arena.now lists.old frames.old arrival.leaf.0 span.first skip spared arrival.node span.shift span.to (span.first + span.shift) →
        IsPassing arena.now lists.new frames.new arrival.leaf.0 span.first skip spared arrival.node span.shift span.to span.to }
    ensures lost { Moves arena.now lists.old lists.new frames.old frames.new arrival.leaf.0 span.first IsPartOf }
    ensures others { (l : ℕ) → l ≢ arrival.node.list.0 → slots_of lists.new l ≡ slots_of lists.old l }
{
    let list = arrival.node.list;
    let mut from = span.first + span.shift;
    while let Some(row) = next_outside(lists, list, from, span.to, span.shift, skip) {
        let Some(slot) = lists.find(list, row) else {
            unreachable!()
        };
        let above = RowAbove {
            node: arrival.at,
            page: row,
            side: arrival.side,
            slot,
        };
        cut_off(arena, lists, frames, arrival.leaf, row - span.shift, above);
        from = row + 1;
    }
}

/// Returns the least page of a list, from `from` on and below `to`, that has a row and to which no page of `skip`
/// comes. Page `q` comes to page `q + shift`. `None` if and only if there is no such page.
fn next_outside(
    lists: &PageLists,
    list: ListId,
    from: PageNo,
    to: PageNo,
    shift: PageNo,
    skip: Pages,
) -> Option<PageNo>
    requires { shift ≤ from }
    ensures next { IfSome result (λ row. IsNextOutside (slots_of lists.now list.0) from to shift skip row) }
    ensures none { IfNone result ((q : ℕ) → from ≤ q + shift → q + shift < to → IsOutside skip q →
        slots_of lists.now list.0 (q + shift) ≡ None) }
{
    let Some(row) = next_below(lists, list, from, to) else {
        return None;
    };
    if !is_inside(skip, row - shift) {
        return Some(row);
    }
    if to - shift <= skip.to {
        return None;
    }
    next_below(lists, list, skip.to + shift, to)
}

/// Reports whether `page` is one of `pages`.
fn is_inside(pages: Pages, page: PageNo) -> bool
    ensures { result ≡ true → (pages.from ≤ page) × (page < pages.to) }
{
    pages.from <= page && page < pages.to
}

/// Returns the least page of a list, from `from` on and below `to`, that has a row. `None` if and only if there is
/// none.
pub(crate) fn next_below(
    lists: &PageLists,
    list: ListId,
    from: PageNo,
    to: PageNo,
) -> Option<PageNo>
    ensures { IsFirstOrNone (has_row (slots_of lists.now list.0)) from to result }
{
    let page = lists.next(list, from)?;
    if page < to { Some(page) } else { None }
}

/// Cuts page `own` of a VMO's node off from this row of a hidden node, and gives the frame back if no other VMO shows
/// it. The VMO's node has no row of its own at the page. No other page of the node can come to the row, and this one
/// only from this side. If it does not come to the row, nothing changes. The row's bit of the side, if it is set, says
/// at once that no page comes from there.
pub(crate) fn cut_off(
    arena: &CowArena,
    lists: &mut PageLists,
    frames: &mut FramePool,
    leaf: NodeId,
    own: PageNo,
    row: RowAbove,
)
    requires exact { IsExactFor arena.now lists.old frames.old leaf.0 }
    requires bare { (at : Node) → nodes_of arena.now leaf.0 ≡ Some at → slots_of lists.old at.list.0 own ≡ None }
    requires row { HasRow (tree_of arena.now lists.old) row.node.0 row.page row.slot }
    requires hidden { (above : Node) → nodes_of arena.now row.node.0 ≡ Some above → above.koid ≡ None }
    requires only { IsOnlyWay (tree_of arena.now lists.old) leaf.0 own row.side row.node.0 row.page }
    ensures passed { (out : ℕ → ℕ → Bool) → IsExact (tree_of arena.now lists.old) out (is_taken frames.old) → IsOnlyOf out leaf.0 →
        HasCutOff arena.now lists.old lists.new frames.old frames.new leaf.0 own
        (ComesNotTo (tree_of arena.now lists.old) leaf.0 own row.node.0 row.page) out }
    ensures others { (above : Node) → nodes_of arena.now row.node.0 ≡ Some above →
        (l : ℕ) → l ≢ above.list.0 → slots_of lists.new l ≡ slots_of lists.old l }
{
    if is_split(row.side, row.slot) {
        return;
    }
    let answer = cut_row(arena, lists, leaf, own, row);
    give_back_last(frames, answer);
}

/// Reports whether a row has a frame and its bit of this side is set. If so, nobody in sight sees the row from there.
fn is_split(side: Side, slot: Slot) -> bool
    ensures { result ≡ is_split side slot }
{
    match (side, slot) {
        (Side::Left, Slot::Frame { left, .. }) => left,
        (Side::Right, Slot::Frame { right, .. }) => right,
        (_, Slot::Zero) => false,
    }
}

/// Gives back the frame that a cut leaves to its caller, if it leaves one.
fn give_back_last(frames: &mut FramePool, answer: Cut)
    requires { (tag : Tag) → answer ≡ cut.LastViewer tag → IsSome (taken_frames frames.old tag.0) }
    ensures { HasGiven frames.old frames.new (frame_left answer) }
{
    if let Cut::LastViewer(tag) = answer {
        frames.give_back(tag);
    }
}
