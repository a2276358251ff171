//! Handing the list of a hidden node over to one of its children, before the two nodes are merged.

ghost use Rattle.std.specs.Prelude.{◌≡◌, ◌+◌, ◌≤◌, ℕ, true, None, Some, IsSome};
ghost use Rattle.balanced_tree.specs.Pairs.{with_pair};
ghost use Rattle.page_list.specs.Lists.{slots_of, row_count};
ghost use Rattle.cow_arena.specs.declared.node.Node.{Node};
ghost use Rattle.cow_arena.specs.Nodes.{nodes_of};
ghost use Rattle.frame_pool.specs.Pool.{taken_frames};
ghost use Rattle.cow_merge.specs.Ranges.{HasGiven};
ghost use Rattle.cow_merge.specs.inside.Lifting.{IsLifting};
ghost use Rattle.cow_merge.specs.inside.HandingOver.{frame_there, AreSeenFrom, IsHandingOver};

use crate::lifting::{lift_rows, note_place};
use crate::places::Family;
use crate::ranges::give_back_frame;
use crate::sharing::share_rows;
use cow_arena::{CowArena, NodeId};
use frame_pool::FramePool;
use page_list::{ListId, PageLists};
use vm_base::PageNo;

/// Reports whether a hidden node hands its list over to this child: the child sees the hidden node from page 0 on, and
/// it has fewer rows.
pub(crate) fn goes_over(arena: &CowArena, lists: &PageLists, hidden: NodeId, child: NodeId) -> bool
    requires hidden { IsSome (nodes_of arena.now hidden.0) }
    requires child { IsSome (nodes_of arena.now child.0) }
    ensures { (node : Node) → nodes_of arena.now child.0 ≡ Some node → result ≡ true → node.first ≡ 0 }
{
    let node = arena.node(child);
    if node.first != 0 {
        return false;
    }
    node.seen > 0 && has_fewer(lists, node.list, arena.node(hidden).list)
}

/// Reports whether a list has fewer rows than another. The function goes through both side by side.
fn has_fewer(lists: &PageLists, list: ListId, other: ListId) -> bool {
    let mut at = 0;
    let mut beside = 0;
    while let Some(page) = lists.next(other, beside) {
        let Some(own) = lists.next(list, at) else {
            return true;
        };
        let (Some(behind), Some(after)) = (page.checked_add(1), own.checked_add(1)) else {
            return false;
        };
        beside = behind;
        at = after;
    }
    false
}

/// Hands the list of the hidden node over to the sibling. The VMO's node goes: it has no rows, and its pages show
/// frames of the hidden node alone. Rows outside its window and outside the pages that the sibling shares
/// (`share_rows`) are settled one by one, and rows under rows of the sibling go. The other rows stay as they are: no
/// split bit of them is set, since both children see them, and if the sibling is hidden, VMOs on both sides of it do.
pub(crate) fn hand_over(
    arena: &CowArena,
    lists: &mut PageLists,
    frames: &mut FramePool,
    family: Family,
)
    requires lifting { IsLifting arena.now lists.old frames.old family.leaf.0 family.hidden.0 family.sibling.0 }
    requires sees { (node : Node) → nodes_of arena.now family.sibling.0 ≡ Some node → node.first ≡ 0 }
    requires seen { (node parent : Node) → nodes_of arena.now family.leaf.0 ≡ Some node → nodes_of arena.now family.hidden.0 ≡ Some parent →
        AreSeenFrom (slots_of lists.old) parent family.leaf.0 node.first (node.first + node.seen) }
    ensures { IsHandingOver arena.now lists.old lists.new frames.old frames.new family.leaf.0 family.hidden.0 family.sibling.0 None }
{
    let shared = share_rows(arena, lists, frames, family);
    let node = arena.node(family.leaf);
    let from = node.first.max(shared.from);
    let to = node.first.saturating_add(node.seen).min(shared.to);
    lift_rows(arena, lists, frames, family, 0, Some(from));
    lift_rows(arena, lists, frames, family, to, None);
    hand_rows(arena, lists, frames, family);
}

/// Puts each row of the sibling into the list of the hidden node, in place of the row there, and sets the backlink of
/// its frame. The VMO's node goes.
fn hand_rows(arena: &CowArena, lists: &mut PageLists, frames: &mut FramePool, family: Family)
    requires { IsHandingOver arena.now lists.old lists.old frames.old frames.old family.leaf.0 family.hidden.0 family.sibling.0 (Some 0) }
    ensures { IsHandingOver arena.now lists.old lists.new frames.old frames.new family.leaf.0 family.hidden.0 family.sibling.0 None }
{
    let to = arena.node(family.hidden).list;
    let list = arena.node(family.sibling).list;
    let mut from = 0;
    while let Some((page, slot)) = lists.take_next(list, from) {
        clear_page(lists, frames, to, page);
        lists.insert(to, page, slot);
        note_place(frames, slot, to, page);
        from = page;
    }
}

/// Removes the row of a page of a list, if it has one, and gives its frame back.
fn clear_page(lists: &mut PageLists, frames: &mut FramePool, list: ListId, page: PageNo)
    requires { (tag : ℕ) → frame_there (slots_of lists.old list.0 page) ≡ Some tag → IsSome (taken_frames frames.old tag) }
    ensures slots { slots_of lists.new ≡ with_pair (slots_of lists.old) list.0 page None }
    ensures given { HasGiven frames.old frames.new (frame_there (slots_of lists.old list.0 page)) }
    ensures spare { lists.old.spare ≤ lists.new.spare }
    ensures count { row_count lists.new ≤ row_count lists.old }
{
    let Some(slot) = lists.find(list, page) else {
        return;
    };
    lists.remove(list, page);
    give_back_frame(frames, slot);
}
