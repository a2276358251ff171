//! Rows of a hidden node that VMOs on both sides of a hidden child see.

ghost use Rattle.std.specs.Prelude.{◌≡◌, ◌+◌, ◌^◌, ◌<◌, ◌≤◌, ℕ, Some};
ghost use Rattle.page_list.specs.declared.row.Slot.{Slot};
ghost use Rattle.page_list.specs.Lists.{slots_of};
ghost use Rattle.cow_arena.specs.declared.node.Node.{Node};
ghost use Rattle.cow_arena.specs.declared.node.Side.{Side};
ghost use Rattle.cow_arena.specs.Nodes.{nodes_of, side_in};
ghost use Rattle.cow_arena.specs.Forest.{IsChild};
ghost use Rattle.cow_split.specs.Trees.{tree_of};
ghost use Rattle.cow_merge.specs.Ranges.{Moves};
ghost use Rattle.cow_merge.specs.inside.Lifting.{IsLifting, KeepsFamily};
ghost use Rattle.cow_merge.specs.inside.Sharing.{AreReached, AreShared, IsDown};

use crate::lifting::lift_rows;
use crate::places::Family;
use crate::ranges::{Pages, next_below};
use crate::witness::{MOST_NODES, Way, enter, pages_of, wider};
use cow_arena::{CowArena, NodeId};
use frame_pool::FramePool;
use page_list::{ListId, PageLists};
use vm_base::PageNo;

/// Settles rows of the hidden node until the sibling shares all that are left in the answered pages (`lift_rows`). If
/// the sibling is a VMO's node, these are the pages of its window. If it is hidden, they are pages that come to it from
/// a VMO's node on each of its sides. The sibling sees its parent from page 0 on.
pub(crate) fn share_rows(
    arena: &CowArena,
    lists: &mut PageLists,
    frames: &mut FramePool,
    family: Family,
) -> Pages
    requires lifting { IsLifting arena.now lists.old frames.old family.leaf.0 family.hidden.0 family.sibling.0 }
    ensures lifting { IsLifting arena.now lists.new frames.new family.leaf.0 family.hidden.0 family.sibling.0 }
    ensures moves { Moves arena.now lists.old lists.new frames.old frames.new family.leaf.0 0
        (KeepsFamily arena.now family.leaf.0 family.hidden.0 family.sibling.0) }
    ensures shared { (parent node : Node) → nodes_of arena.now family.hidden.0 ≡ Some parent → nodes_of arena.now family.sibling.0 ≡ Some node →
        AreShared (tree_of arena.now lists.new) parent.list.0 family.sibling.0 node result }
{
    let node = arena.node(family.sibling);
    if node.koid.is_some() {
        return Pages {
            from: 0,
            to: node.seen,
        };
    }
    let Some(left) = node.left else {
        unreachable!()
    };
    let Some(right) = node.right else {
        unreachable!()
    };
    let one = share_side(arena, lists, frames, family, left, node.seen);
    let other = share_side(arena, lists, frames, family, right, node.seen);
    Pages {
        from: one.from.max(other.from),
        to: one.to.min(other.to),
    }
}

/// Settles rows of the hidden node until all that are left in the answered pages come to a VMO's node at or below
/// `below`, which is a child of the sibling. The call goes down to this VMO's node, at each node to the child with the
/// widest window. Rows are settled whose pages come under rows of the nodes on the way.
fn share_side(
    arena: &CowArena,
    lists: &mut PageLists,
    frames: &mut FramePool,
    family: Family,
    below: NodeId,
    seen: PageNo,
) -> Pages
    requires lifting { IsLifting arena.now lists.old frames.old family.leaf.0 family.hidden.0 family.sibling.0 }
    requires below { IsChild (nodes_of arena.now) family.sibling.0 below.0 }
    ensures lifting { IsLifting arena.now lists.new frames.new family.leaf.0 family.hidden.0 family.sibling.0 }
    ensures moves { Moves arena.now lists.old lists.new frames.old frames.new family.leaf.0 0
        (KeepsFamily arena.now family.leaf.0 family.hidden.0 family.sibling.0) }
    ensures reached { (parent : Node) (side : Side) → nodes_of arena.now family.hidden.0 ≡ Some parent →
        side_in (nodes_of arena.now) below.0 ≡ Some side →
        AreReached (tree_of arena.now lists.new) parent.list.0 side family.sibling.0 seen result }
{
    let mut way = enter(arena, below, 0, 0, seen);
    let mut left = MOST_NODES;
    while left > 0 && way.from < way.to {
        let node = arena.node(way.at);
        settle_under(arena, lists, frames, family, way, node.list);
        if node.koid.is_some() {
            return pages_of(way, 0);
        }
        let next = wider(arena, lists, way);
        way = enter(arena, next, way.shift, way.from, way.to);
        left -= 1;
    }
    Pages { from: 0, to: 0 }
}

/// Settles the rows of the hidden node to whose pages pages of the way come under rows of this list. It is the list of
/// the way's node.
fn settle_under(
    arena: &CowArena,
    lists: &mut PageLists,
    frames: &mut FramePool,
    family: Family,
    way: Way,
    list: ListId,
)
    requires lifting { IsLifting arena.now lists.old frames.old family.leaf.0 family.hidden.0 family.sibling.0 }
    requires list { (node : Node) → nodes_of arena.now way.at.0 ≡ Some node → list ≡ node.list }
    requires fits { (p : ℕ) → way.from ≤ p → p < way.to → p + way.shift + 1 < 2 ^ 64 }
    ensures lifting { IsLifting arena.now lists.new frames.new family.leaf.0 family.hidden.0 family.sibling.0 }
    ensures moves { Moves arena.now lists.old lists.new frames.old frames.new family.leaf.0 0
        (KeepsFamily arena.now family.leaf.0 family.hidden.0 family.sibling.0) }
    ensures down { (parent : Node) (side : Side) (seen : ℕ) → nodes_of arena.now family.hidden.0 ≡ Some parent →
        IsDown (tree_of arena.now lists.old) parent.list.0 family.sibling.0 seen side way way.from →
        IsDown (tree_of arena.now lists.new) parent.list.0 family.sibling.0 seen side way way.to }
{
    let mut from = way.from;
    while let Some(page) = next_below(lists, list, from, way.to) {
        let at = page + way.shift;
        lift_rows(arena, lists, frames, family, at, Some(at + 1));
        from = page + 1;
    }
}
