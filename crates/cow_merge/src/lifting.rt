//! Moving the rows of a hidden node into one of its children, before the two nodes are merged.

ghost use Rattle.std.specs.Prelude.{◌≡◌, ◌≤◌, ◌<◌, ◌^◌, ◌↔◌, ◌==◌, ℕ, if◌then◌else◌, true, None, Some, IsSome, IfSome, IfNone, IsTrue};
ghost use Rattle.balanced_tree.specs.Pairs.{IsNext};
ghost use Rattle.page_list.specs.declared.row.Slot.{Slot};
ghost use Rattle.cow_arena.specs.declared.node.Side.{Side};
ghost use Rattle.page_list.specs.Lists.{slots_of};
ghost use Rattle.cow_arena.specs.declared.node.Node.{Node};
ghost use Rattle.cow_arena.specs.Nodes.{nodes_of};
ghost use Rattle.cow_arena.specs.Forest.{IsForest};
ghost use Rattle.cow_arena.specs.Walk.{frame_in};
ghost use Rattle.cow_split.specs.Search.{reached_from};
ghost use Rattle.cow_split.specs.Trees.{tree_of};
ghost use Rattle.frame_pool.specs.Pool.{taken_frames, links_of};
ghost use Rattle.cow_merge.specs.Ranges.{Moves};
ghost use Rattle.cow_merge.specs.inside.Lifting.{IsLifting, KeepsFamily, IsBefore, TellsSeen, SeesRow, IsMoved, IsReachedBelow, is_row_of_frame};

use crate::places::Family;
use crate::ranges::give_back_frame;
use cow_arena::{CowArena, Node, NodeId, Side};
use cow_split::reached_from;
use frame_pool::{Backlink, FramePool};
use page_list::{ListId, PageLists, Slot};
use vm_base::PageNo;

/// A VMO's node with its parent, which is `above`, and the parent's other child, which is `node`.
#[derive(Clone, Copy)]
struct Branch {
    family: Family,
    above: Node,
    node: Node,
}

/// Empties the list of the hidden node from page `from` on, to below page `to` if there is one. Rows that are seen
/// through the sibling move into the sibling's list, and the frames of the other rows are given back. The VMO's node
/// goes: it has no rows, and its pages show frames of the hidden node alone. The split bits say whether a row with a
/// frame is seen through the sibling, so the pages of the VMO's node need not be cut off before.
pub(crate) fn lift_rows(
    arena: &CowArena,
    lists: &mut PageLists,
    frames: &mut FramePool,
    family: Family,
    from: PageNo,
    to: Option<PageNo>,
)
    requires { IsLifting arena.now lists.old frames.old family.leaf.0 family.hidden.0 family.sibling.0 }
    ensures lifting { IsLifting arena.now lists.new frames.new family.leaf.0 family.hidden.0 family.sibling.0 }
    ensures moves { Moves arena.now lists.old lists.new frames.old frames.new family.leaf.0 0
        (KeepsFamily arena.now family.leaf.0 family.hidden.0 family.sibling.0) }
    ensures empty { (parent : Node) → nodes_of arena.now family.hidden.0 ≡ Some parent →
        (p : ℕ) → from ≤ p → IsBefore to p → slots_of lists.new parent.list.0 p ≡ None }
{
    let above = arena.node(family.hidden);
    let node = arena.node(family.sibling);
    let branch = Branch {
        family,
        above,
        node,
    };
    let mut at = from;
    while let Some(page) = next_before(lists, above.list, at, to) {
        settle(arena, lists, frames, branch, page);
        at = page;
    }
}

/// Returns the least page of a list from `from` on, and to below `to` if there is one, that has a row. `None` if and
/// only if there is none.
fn next_before(lists: &PageLists, list: ListId, from: PageNo, to: Option<PageNo>) -> Option<PageNo>
    ensures next { IfSome result (λ page. IsNext (slots_of lists.now list.0) from (Some page)) }
    ensures fits { IfSome result (λ page. page < 2 ^ 64) }
    ensures end { IfNone result ((p : ℕ) → from ≤ p → IsBefore to p → slots_of lists.now list.0 p ≡ None) }
{
    let page = lists.next(list, from)?;
    if is_past(page, to) { None } else { Some(page) }
}

/// Reports whether `page` is at or past `to`, if there is a `to`.
fn is_past(page: PageNo, to: Option<PageNo>) -> bool
    ensures { result ≡ true → (p : ℕ) → page ≤ p → IsBefore to p → ⊥ }
{
    match to {
        Some(to) => to <= page,
        None => false,
    }
}

/// Takes a row out of the list of the hidden node, and moves it into the list of the sibling, if it is seen through the
/// sibling. Otherwise the frame of the row is given back, if it has one.
fn settle(
    arena: &CowArena,
    lists: &mut PageLists,
    frames: &mut FramePool,
    branch: Branch,
    page: PageNo,
)
    requires lifting { IsLifting arena.now lists.old frames.old branch.family.leaf.0 branch.family.hidden.0 branch.family.sibling.0 }
    requires above { nodes_of arena.now branch.family.hidden.0 ≡ Some branch.above }
    requires node { nodes_of arena.now branch.family.sibling.0 ≡ Some branch.node }
    requires row { IsSome (slots_of lists.old branch.above.list.0 page) }
    ensures lifted { IsLifting arena.now lists.new frames.new branch.family.leaf.0 branch.family.hidden.0 branch.family.sibling.0
        × Moves arena.now lists.old lists.new frames.old frames.new branch.family.leaf.0 0
        (KeepsFamily arena.now branch.family.leaf.0 branch.family.hidden.0 branch.family.sibling.0) }
    ensures gone { (p : ℕ) → slots_of lists.new branch.above.list.0 p ≡
        (if p == page then None else slots_of lists.old branch.above.list.0 p) }
{
    let slot = lists.remove(branch.above.list, page);
    let node = branch.node;
    let child = branch.family.sibling;
    let side = branch.above.side_of(child);
    if !is_seen_through(lists, side, node, page, slot) {
        give_back_frame(frames, slot);
        return;
    }
    let to = page - node.first;
    let moved = slot_in(arena, lists, child, node, to, slot);
    lists.insert(node.list, to, moved);
    note_place(frames, moved, node.list, to);
}

/// Reports whether the row of a page of a hidden node is seen through the child on this side. For a row with a frame
/// the bit of the side says so. A zero row is seen through the child if and only if the child itself sees it.
fn is_seen_through(lists: &PageLists, side: Side, node: Node, page: PageNo, slot: Slot) -> bool
    ensures { TellsSeen (slots_of lists.now) side node page slot result }
{
    match slot {
        Slot::Frame { left, right, .. } => match side {
            Side::Left => !left,
            Side::Right => !right,
        },
        Slot::Zero => sees_row(lists, node, page),
    }
}

/// Reports whether a node sees the row of a page of its parent: the page lies in its window, and it has no row of its
/// own there.
fn sees_row(lists: &PageLists, node: Node, page: PageNo) -> bool
    ensures { IsTrue result ↔ SeesRow (slots_of lists.now) node page }
{
    node.first <= page
        && page - node.first < node.seen
        && lists.find(node.list, page - node.first).is_none()
}

/// Returns the slot with the bits that it has in the list of node `at`, which is `node`, at a page of this node. If the
/// node is visible, both bits are clear. If it is hidden, each bit says whether no VMO on its side sees the row. Some VMO
/// does.
fn slot_in(
    arena: &CowArena,
    lists: &PageLists,
    at: NodeId,
    node: Node,
    page: PageNo,
    slot: Slot,
) -> Slot
    requires forest { IsForest (nodes_of arena.now) arena.now.lists }
    requires node { nodes_of arena.now at.0 ≡ Some node }
    requires seen { (tag : ℕ) → frame_in slot ≡ Some tag → node.koid ≡ None → IsReachedBelow (tree_of arena.now lists.now) at.0 page }
    ensures { IsMoved (tree_of arena.now lists.now) at.0 page node slot result }
{
    let Slot::Frame { tag, .. } = slot else {
        return Slot::Zero;
    };
    if node.koid.is_some() {
        return Slot::Frame {
            tag,
            left: false,
            right: false,
        };
    }
    let (left, right) = sides_reached(arena, lists, at, node, page);
    Slot::Frame {
        tag,
        left: !left,
        right: !right,
    }
}

/// Returns from which sides, left and right, a page of node `at`, which is `node`, is reached. It is reached from one side
/// at least. So if it is not reached from the side that is searched first, there is no search on the other side. A child
/// that is a VMO's node is searched first, since there is nothing below it.
fn sides_reached(
    arena: &CowArena,
    lists: &PageLists,
    at: NodeId,
    node: Node,
    page: PageNo,
) -> (bool, bool)
    requires forest { IsForest (nodes_of arena.now) arena.now.lists }
    requires node { nodes_of arena.now at.0 ≡ Some node }
    requires reached { IsReachedBelow (tree_of arena.now lists.now) at.0 page }
    ensures left { result.0 ≡ reached_from (tree_of arena.now lists.now) None Side.Left at.0 page }
    ensures right { result.1 ≡ reached_from (tree_of arena.now lists.now) None Side.Right at.0 page }
{
    if has_leaf_left(arena, at, node) {
        let left = reached_from(arena, lists, None, Side::Left, at, page);
        let right = !left || reached_from(arena, lists, None, Side::Right, at, page);
        (left, right)
    } else {
        let right = reached_from(arena, lists, None, Side::Right, at, page);
        let left = !right || reached_from(arena, lists, None, Side::Left, at, page);
        (left, right)
    }
}

/// Reports whether the left child of node `at`, which is `node`, is a VMO's node, or there is none.
fn has_leaf_left(arena: &CowArena, at: NodeId, node: Node) -> bool
    requires forest { IsForest (nodes_of arena.now) arena.now.lists }
    requires node { nodes_of arena.now at.0 ≡ Some node }
{
    match node.left {
        Some(child) => arena.node(child).koid.is_some(),
        None => true,
    }
}

/// Sets the backlink of a row's frame, if it has one.
#[tactic(auto, unfolding(vm_base::specs::Entries::passes))]
pub(crate) fn note_place(frames: &mut FramePool, slot: Slot, list: ListId, page: PageNo)
    requires { (tag : ℕ) → frame_in slot ≡ Some tag → IsSome (taken_frames frames.old tag) }
    ensures taken { taken_frames frames.new ≡ taken_frames frames.old }
    ensures frames { frames.new.frames ≡ frames.old.frames }
    ensures links { (t : ℕ) → links_of frames.new t ≡
        (if is_row_of_frame t slot then record { list = list.0; page = page } else links_of frames.old t) }
{
    if let Slot::Frame { tag, .. } = slot {
        frames.set_backlink(tag, Backlink { list: list.0, page });
    }
}
