//! Closing a VMO.

ghost use Rattle.std.specs.Prelude.{◌≡◌, ℕ, ◌+◌, IsSomeAnd, IsSome, option_copied};
ghost use Rattle.cow_arena.specs.Nodes.{nodes_of};
ghost use Rattle.cow_arena.specs.Counts.{visible_count};
ghost use Rattle.cow_split.specs.Trees.{tree_of};
ghost use Rattle.cow_split.specs.Exact.{IsExact, all_in_sight};
ghost use Rattle.frame_pool.specs.Pool.{is_taken};
ghost use Rattle.cow_jump.specs.Jumps.{AreJumps, MayJump};
ghost use Rattle.cow_merge.specs.Merging.{HasGone, KeepsPages};

use crate::handing::{goes_over, hand_over};
use crate::lifting::lift_rows;
use crate::places::Family;
use crate::ranges::{leave_out, leave_out_above};
use crate::uncovering::uncover;
use cow_arena::{CowArena, NodeId};
use cow_jump::JumpTable;
use frame_pool::FramePool;
use page_list::PageLists;

/// Removes a VMO's node. The frames that only it showed are given back. If the node has a parent, the parent goes too:
/// its rows move into the sibling, if they are seen through the sibling, and the sibling takes its place. If the
/// sibling sees the parent from page 0 on and has fewer rows than the parent, the sibling takes over the parent's list
/// instead, and its rows move into this list.
///
/// The call takes no memory. The tree is exact over the frames that are taken, before and after. Every other VMO shows
/// what it showed.
pub fn close(arena: &mut CowArena, lists: &mut PageLists, frames: &mut FramePool, leaf: NodeId)
    requires exact { IsExact (tree_of arena.old lists.old) all_in_sight (is_taken frames.old) }
    requires leaf { IsSomeAnd (nodes_of arena.old leaf.0) (λ node. IsSome node.koid) }
    ensures kept { KeepsPages arena.old arena.new lists.old lists.new frames.old frames.new }
    ensures gone { HasGone (tree_of arena.old lists.old) (tree_of arena.new lists.new) leaf.0 }
    ensures visible { visible_count arena.new + 1 ≡ visible_count arena.old }
{
    close_with(arena, lists, frames, None, leaf);
}

/// Does what `close` does, and goes up to rows by jumps if they serve.
pub fn close_by_jumps(
    arena: &mut CowArena,
    lists: &mut PageLists,
    frames: &mut FramePool,
    jumps: &JumpTable,
    leaf: NodeId,
)
    requires exact { IsExact (tree_of arena.old lists.old) all_in_sight (is_taken frames.old) }
    requires leaf { IsSomeAnd (nodes_of arena.old leaf.0) (λ node. IsSome node.koid) }
    requires jumps { (next : ℕ) × AreJumps (tree_of arena.old lists.old) next jumps.now }
    ensures kept { KeepsPages arena.old arena.new lists.old lists.new frames.old frames.new }
    ensures gone { HasGone (tree_of arena.old lists.old) (tree_of arena.new lists.new) leaf.0 }
    ensures visible { visible_count arena.new + 1 ≡ visible_count arena.old }
{
    close_with(arena, lists, frames, Some(jumps), leaf);
}

/// Does what `close` does, by these jumps, if there are any.
fn close_with(
    arena: &mut CowArena,
    lists: &mut PageLists,
    frames: &mut FramePool,
    jumps: Option<&JumpTable>,
    leaf: NodeId,
)
    requires exact { IsExact (tree_of arena.old lists.old) all_in_sight (is_taken frames.old) }
    requires leaf { IsSomeAnd (nodes_of arena.old leaf.0) (λ node. IsSome node.koid) }
    requires jumps { MayJump (tree_of arena.old lists.old) (option_copied jumps) }
    ensures kept { KeepsPages arena.old arena.new lists.old lists.new frames.old frames.new }
    ensures gone { HasGone (tree_of arena.old lists.old) (tree_of arena.new lists.new) leaf.0 }
    ensures visible { visible_count arena.new + 1 ≡ visible_count arena.old }
{
    let (Some(hidden), Some(sibling)) = (arena.node(leaf).parent, arena.sibling(leaf)) else {
        leave_out(arena, lists, frames, jumps, leaf, 0);
        arena.remove_root(leaf);
        return;
    };
    let family = Family {
        leaf,
        hidden,
        sibling,
    };
    if goes_over(arena, lists, hidden, sibling) {
        uncover(arena, lists, frames, leaf, hidden);
        leave_out_above(arena, lists, frames, jumps, family);
        hand_over(arena, lists, frames, family);
        arena.splice_over(leaf);
    } else {
        leave_out_above(arena, lists, frames, jumps, family);
        lift_rows(arena, lists, frames, family, 0, None);
        arena.splice(leaf);
    }
}
