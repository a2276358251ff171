//! Cutting a page off from the row above it that it sees.

ghost use Rattle.std.specs.Prelude.{◌≡◌, ◌≢◌, ◌↔◌, ◌≤◌, ℕ, Bool, None, Some, IsSome, IsSomeAnd};
ghost use Rattle.vm_base.specs.declared.names.Tag.{Tag};
ghost use Rattle.page_list.specs.Lists.{slots_of, row_count};
ghost use Rattle.balanced_tree.specs.Pairs.{with_pair};
ghost use Rattle.cow_arena.specs.declared.node.Node.{Node};
ghost use Rattle.cow_arena.specs.Nodes.{nodes_of};
ghost use Rattle.cow_arena.specs.Walk.{walk, frame_shown};
ghost use Rattle.cow_arena.specs.Forest.{IsForest};
ghost use Rattle.cow_arena.specs.Ways.{HasRow, Reaches};
ghost use Rattle.cow_split.specs.Trees.{tree_of, holder_of};
ghost use Rattle.cow_split.specs.Sight.{IsLastViewer};
ghost use Rattle.cow_split.specs.Exact.{IsExact, IsOnlyOf, leaving_out, without_frame};
ghost use Rattle.cow_split.specs.Cutting.{split_on, answer_on, answer_from, HasCut, IsUnseenBy, frame_left, cut_answer, leaves_frame};
ghost use Rattle.cow_split.specs.declared.answers.Cut.TheVariants as cut;

use crate::answers::{Cut, Holder, RowAbove};
use crate::climbing::holder_above;
use crate::others::reached_by_others;
use cow_arena::{CowArena, NodeId, Side};
use page_list::{ListId, PageLists, Slot};
use vm_base::{PageNo, Tag};

/// Cuts a page of a VMO's node off from the row above the node that the page sees. The node has no row of its own at
/// the page. If no other VMO on the node's side sees the row, the row's bit of that side is set. If the other bit is
/// set already, the row goes instead.
///
/// If the tree is exact with only pages of this node left out of sight, it is exact afterwards with this page left out
/// too. The answer is then `LastViewer` if and only if the page saw a frame that no other VMO shows. It is
/// `NothingThere` if and only if the page saw no frame, and otherwise `StillSeen`.
pub fn cut(arena: &CowArena, lists: &mut PageLists, leaf: NodeId, page: PageNo) -> Cut
    requires forest { IsForest (nodes_of arena.now) arena.now.lists }
    requires leaf { IsSomeAnd (nodes_of arena.now leaf.0)
        (λ node. IsSome node.koid × (slots_of lists.old node.list.0 page ≡ None)) }
    ensures cut { HasCut arena.now lists.old lists.new leaf.0 page result }
    ensures exact { (out : ℕ → ℕ → Bool) (in_use : ℕ → Bool) → IsExact (tree_of arena.now lists.old) out in_use →
        IsOnlyOf out leaf.0 → IsExact (tree_of arena.now lists.new) (leaving_out out leaf.0 page)
        (without_frame in_use (frame_left result)) }
    ensures nothing { (result ≡ cut.NothingThere) ↔ (frame_shown (tree_of arena.now lists.old) leaf.0 page ≡ None) }
    ensures last { (out : ℕ → ℕ → Bool) (in_use : ℕ → Bool) → IsExact (tree_of arena.now lists.old) out in_use →
        IsOnlyOf out leaf.0 → (tag : Tag) → (result ≡ cut.LastViewer tag) ↔
        ((frame_shown (tree_of arena.now lists.old) leaf.0 page ≡ Some tag.0)
        × IsLastViewer (tree_of arena.now lists.old) leaf.0 tag.0) }
{
    let found = holder_above(arena, lists, leaf, page);
    cut_holder(arena, lists, leaf, page, found)
}

/// Does what `cut` does. `found` is what `holder` answers for the page.
pub fn cut_holder(
    arena: &CowArena,
    lists: &mut PageLists,
    leaf: NodeId,
    page: PageNo,
    found: Holder,
) -> Cut
    requires forest { IsForest (nodes_of arena.now) arena.now.lists }
    requires found { found ≡ holder_of (walk (tree_of arena.now lists.old) leaf.0 page) }
    ensures cut { HasCut arena.now lists.old lists.new leaf.0 page result }
{
    match found {
        Holder::Above {
            node,
            page: row,
            side,
            slot,
        } => {
            let row = RowAbove {
                node,
                page: row,
                side,
                slot,
            };
            cut_row(arena, lists, leaf, page, row)
        }
        Holder::Own(_) => Cut::NothingThere,
        Holder::Nothing => Cut::NothingThere,
    }
}

/// Does what `cut` does for page `own` of a node, if the page comes to this row. The call looks into no list on the way
/// to the row.
///
/// If no page of the node that is in sight comes to the row, nothing changes in an exact tree: others see the row from
/// that side, or its bit of the side is set. The rows of all other nodes stay as they are in any case.
pub fn cut_row(
    arena: &CowArena,
    lists: &mut PageLists,
    leaf: NodeId,
    own: PageNo,
    row: RowAbove,
) -> Cut
    requires forest { IsForest (nodes_of arena.now) arena.now.lists }
    requires leaf { IsSome (nodes_of arena.now leaf.0) }
    requires row { HasRow (tree_of arena.now lists.old) row.node.0 row.page row.slot }
    ensures seen { Reaches (tree_of arena.now lists.old) leaf.0 own row.side row.node.0 row.page →
        HasCut arena.now lists.old lists.new leaf.0 own result }
    ensures unseen { (out : ℕ → ℕ → Bool) (in_use : ℕ → Bool) → IsExact (tree_of arena.now lists.old) out in_use →
        IsUnseenBy (tree_of arena.now lists.old) out leaf.0 row.side row.node.0 row.page →
        (slots_of lists.new ≡ slots_of lists.old) × (frame_left result ≡ None) }
    ensures others { (above : Node) → nodes_of arena.now row.node.0 ≡ Some above →
        (l : ℕ) → l ≢ above.list.0 → (q : ℕ) → slots_of lists.new l q ≡ slots_of lists.old l q }
    ensures spare { lists.old.spare ≤ lists.new.spare }
    ensures count { row_count lists.new ≤ row_count lists.old }
{
    let Slot::Frame { .. } = row.slot else {
        return Cut::NothingThere;
    };
    if reached_by_others(arena, lists, leaf, own, row) {
        return Cut::StillSeen;
    }
    let list = arena.node(row.node).list;
    split(lists, list, row.page, row.side, row.slot)
}

/// Sets the bit of a side in the row of a frame that no VMO on that side sees any more. If the other bit is set,
/// removes the row instead, and answers `LastViewer`.
fn split(lists: &mut PageLists, list: ListId, page: PageNo, side: Side, slot: Slot) -> Cut
    requires { slots_of lists.old list.0 page ≡ Some slot }
    ensures slots { (tag : Tag) (left right : Bool) → slot ≡ Slot.Frame tag left right →
        slots_of lists.new ≡ with_pair (slots_of lists.old) list.0 page (split_on side tag left right) }
    ensures answer { (tag : Tag) (left right : Bool) → slot ≡ Slot.Frame tag left right → result ≡ answer_on side tag left right }
    ensures spare { lists.old.spare ≤ lists.new.spare }
    ensures count { row_count lists.new ≤ row_count lists.old }
{
    let Slot::Frame { tag, left, right } = slot else {
        return Cut::NothingThere;
    };
    match side {
        Side::Left if !right => {
            lists.replace(
                list,
                page,
                Slot::Frame {
                    tag,
                    left: true,
                    right: false,
                },
            );
            Cut::StillSeen
        }
        Side::Right if !left => {
            lists.replace(
                list,
                page,
                Slot::Frame {
                    tag,
                    left: false,
                    right: true,
                },
            );
            Cut::StillSeen
        }
        _ => {
            lists.remove(list, page);
            Cut::LastViewer(tag)
        }
    }
}

/// Returns whether `cut` would answer `LastViewer`: a page of a VMO's node sees a frame in a row above the node, and no
/// other VMO shows the frame. `found` is what `holder` answers for the page. Nothing is changed.
pub fn is_last(
    arena: &CowArena,
    lists: &PageLists,
    leaf: NodeId,
    page: PageNo,
    found: Holder,
) -> bool
    requires forest { IsForest (nodes_of arena.now) arena.now.lists }
    requires found { found ≡ holder_of (walk (tree_of arena.now lists.now) leaf.0 page) }
    ensures { result ≡ leaves_frame (cut_answer (tree_of arena.now lists.now) leaf.0 page) }
{
    match found {
        Holder::Above {
            node,
            page: row,
            side,
            slot,
        } => {
            let row = RowAbove {
                node,
                page: row,
                side,
                slot,
            };
            is_last_from(arena, lists, leaf, page, row)
        }
        Holder::Own(_) => false,
        Holder::Nothing => false,
    }
}

/// Returns whether the leaf alone sees the frame of this row. Its page `own` comes to the row.
fn is_last_from(
    arena: &CowArena,
    lists: &PageLists,
    leaf: NodeId,
    own: PageNo,
    row: RowAbove,
) -> bool
    requires forest { IsForest (nodes_of arena.now) arena.now.lists }
    requires row { HasRow (tree_of arena.now lists.now) row.node.0 row.page row.slot }
    requires way { Reaches (tree_of arena.now lists.now) leaf.0 own row.side row.node.0 row.page }
    ensures { result ≡ leaves_frame (answer_from (tree_of arena.now lists.now) leaf.0 row.node.0 row.page row.slot (Some row.side)) }
{
    let Slot::Frame { tag, left, right } = row.slot else {
        return false;
    };
    // The row's bits are read first, since the search may go over all nodes on this side.
    if !is_gone(row.side, tag, left, right) {
        return false;
    }
    !reached_by_others(arena, lists, leaf, own, row)
}

/// Returns whether nobody sees a row with these bits, if nobody on this side does.
fn is_gone(side: Side, tag: Tag, left: bool, right: bool) -> bool
    ensures { result ≡ leaves_frame (answer_on side tag left right) }
{
    match side {
        Side::Left => right,
        Side::Right => left,
    }
}
