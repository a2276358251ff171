//! Shrinking a VMO.

ghost use Rattle.std.specs.Prelude.{◌≡◌, ◌≤◌, ℕ, Some, IsSomeAnd, IsSome, option_copied};
ghost use Rattle.vm_base.specs.Entries.{with_key};
ghost use Rattle.page_list.specs.Lists.{slots_of};
ghost use Rattle.cow_arena.specs.declared.node.Node.{Node};
ghost use Rattle.cow_arena.specs.Nodes.{nodes_of};
ghost use Rattle.cow_arena.specs.Forest.{IsForest};
ghost use Rattle.cow_arena.specs.Counts.{hidden_count, visible_count};
ghost use Rattle.cow_arena.specs.Ways.{IsPartOf};
ghost use Rattle.cow_split.specs.Trees.{tree_of};
ghost use Rattle.cow_split.specs.Exact.{IsExact, all_in_sight};
ghost use Rattle.frame_pool.specs.Pool.{is_taken};
ghost use Rattle.cow_jump.specs.Jumps.{AreJumps, MayJump};
ghost use Rattle.cow_merge.specs.Merging.{KeepsPages, narrowed_nodes, with_count};

use crate::ranges::leave_out;
use cow_arena::{CowArena, NodeId, window_first};
use cow_jump::JumpTable;
use frame_pool::FramePool;
use page_list::PageLists;
use vm_base::PageNo;

/// Changes the page count of a VMO's node to `count`, which is not more than it had. The frames that only pages past
/// the new end showed are given back. The call takes no memory.
///
/// The tree is exact over the frames that are taken, before and after. Every page that is left shows what it showed.
pub fn shrink(
    arena: &mut CowArena,
    lists: &mut PageLists,
    frames: &mut FramePool,
    leaf: NodeId,
    count: PageNo,
)
    requires exact { IsExact (tree_of arena.old lists.old) all_in_sight (is_taken frames.old) }
    requires leaf { IsSomeAnd (nodes_of arena.old leaf.0) (λ node. IsSome node.koid × (count ≤ node.count)) }
    ensures kept { KeepsPages arena.old arena.new lists.old lists.new frames.old frames.new }
    ensures part { IsPartOf (slots_of lists.old) (slots_of lists.new) }
    ensures nodes { (node : Node) → nodes_of arena.old leaf.0 ≡ Some node →
        nodes_of arena.new ≡ with_key (nodes_of arena.old) leaf.0 (with_count node count) }
    ensures hidden { hidden_count arena.new ≡ hidden_count arena.old }
    ensures visible { visible_count arena.new ≡ visible_count arena.old }
{
    shrink_with(arena, lists, frames, None, leaf, count);
}

/// Does what `shrink` does, and goes up to rows by jumps if they serve.
pub fn shrink_by_jumps(
    arena: &mut CowArena,
    lists: &mut PageLists,
    frames: &mut FramePool,
    jumps: &JumpTable,
    leaf: NodeId,
    count: PageNo,
)
    requires exact { IsExact (tree_of arena.old lists.old) all_in_sight (is_taken frames.old) }
    requires leaf { IsSomeAnd (nodes_of arena.old leaf.0) (λ node. IsSome node.koid × (count ≤ node.count)) }
    requires jumps { (next : ℕ) × AreJumps (tree_of arena.old lists.old) next jumps.now }
    ensures kept { KeepsPages arena.old arena.new lists.old lists.new frames.old frames.new }
    ensures part { IsPartOf (slots_of lists.old) (slots_of lists.new) }
    ensures nodes { (node : Node) → nodes_of arena.old leaf.0 ≡ Some node →
        nodes_of arena.new ≡ with_key (nodes_of arena.old) leaf.0 (with_count node count) }
    ensures hidden { hidden_count arena.new ≡ hidden_count arena.old }
    ensures visible { visible_count arena.new ≡ visible_count arena.old }
{
    shrink_with(arena, lists, frames, Some(jumps), leaf, count);
}

/// Does what `shrink` does, by these jumps, if there are any.
fn shrink_with(
    arena: &mut CowArena,
    lists: &mut PageLists,
    frames: &mut FramePool,
    jumps: Option<&JumpTable>,
    leaf: NodeId,
    count: PageNo,
)
    requires exact { IsExact (tree_of arena.old lists.old) all_in_sight (is_taken frames.old) }
    requires leaf { IsSomeAnd (nodes_of arena.old leaf.0) (λ node. IsSome node.koid × (count ≤ node.count)) }
    requires jumps { MayJump (tree_of arena.old lists.old) (option_copied jumps) }
    ensures kept { KeepsPages arena.old arena.new lists.old lists.new frames.old frames.new }
    ensures part { IsPartOf (slots_of lists.old) (slots_of lists.new) }
    ensures nodes { (node : Node) → nodes_of arena.old leaf.0 ≡ Some node →
        nodes_of arena.new ≡ with_key (nodes_of arena.old) leaf.0 (with_count node count) }
    ensures hidden { hidden_count arena.new ≡ hidden_count arena.old }
    ensures visible { visible_count arena.new ≡ visible_count arena.old }
{
    leave_out(arena, lists, frames, jumps, leaf, count);
    narrow(arena, leaf, count);
    arena.set_count(leaf, count);
}

/// Shortens the window of a VMO's node to `count` pages, if it is longer.
fn narrow(arena: &mut CowArena, leaf: NodeId, count: PageNo)
    requires forest { IsForest (nodes_of arena.old) arena.old.lists }
    requires leaf { IsSome (nodes_of arena.old leaf.0) }
    ensures nodes { (node : Node) → nodes_of arena.old leaf.0 ≡ Some node →
        nodes_of arena.new ≡ narrowed_nodes (nodes_of arena.old) leaf.0 node count }
    ensures lists { arena.new.lists ≡ arena.old.lists }
    ensures hidden { hidden_count arena.new ≡ hidden_count arena.old }
    ensures visible { visible_count arena.new ≡ visible_count arena.old }
{
    let node = arena.node(leaf);
    if node.parent.is_none() {
        return;
    }
    let seen = node.seen.min(count);
    arena.set_window(leaf, window_first(node.first, seen), seen);
}
