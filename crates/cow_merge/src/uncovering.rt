//! Own rows of a VMO's node that goes, where they stand over rows of the node's parent.

ghost use Rattle.std.specs.Prelude.{◌≡◌, ◌<◌, ◌+◌, Some, IsSome, IsSomeAnd};
ghost use Rattle.page_list.specs.Lists.{slots_of};
ghost use Rattle.cow_arena.specs.declared.node.Node.{Node};
ghost use Rattle.cow_arena.specs.Nodes.{nodes_of};
ghost use Rattle.cow_split.specs.Trees.{tree_of};
ghost use Rattle.cow_split.specs.Exact.{IsExact, all_in_sight};
ghost use Rattle.frame_pool.specs.Pool.{is_taken};
ghost use Rattle.cow_arena.specs.Ways.{IsPartOf};
ghost use Rattle.cow_merge.specs.Ranges.{Moves};
ghost use Rattle.cow_merge.specs.inside.Uncovering.{IsUncovering, without_bits};

use crate::ranges::{give_back_frame, next_below};
use cow_arena::{CowArena, NodeId};
use frame_pool::FramePool;
use page_list::{PageLists, Slot};
use vm_base::PageNo;

/// Removes the own rows of a VMO's node that goes, if its parent has a row of the same page, and gives their frames
/// back. The node sees the rows of the parent then, and their split bits say so.
pub(crate) fn uncover(
    arena: &CowArena,
    lists: &mut PageLists,
    frames: &mut FramePool,
    leaf: NodeId,
    hidden: NodeId,
)
    requires exact { IsExact (tree_of arena.now lists.old) all_in_sight (is_taken frames.old) }
    requires leaf { IsSomeAnd (nodes_of arena.now leaf.0) (λ node. IsSome node.koid × (node.parent ≡ Some hidden)) }
    ensures freed { (node : Node) → nodes_of arena.now leaf.0 ≡ Some node →
        IsUncovering arena.now lists.new frames.new leaf.0 hidden.0 node.seen }
    ensures lost { Moves arena.now lists.old lists.new frames.old frames.new leaf.0 0 IsPartOf }
{
    let node = arena.node(leaf);
    prove!(node.seen <= u64::MAX);
    let mut from = 0;
    while let Some(page) = next_below(lists, node.list, from, node.seen) {
        uncover_row(arena, lists, frames, leaf, hidden, page);
        from = page + 1;
    }
}

/// Removes the own row of page `page` of a VMO's node, if its parent has a row of the same page, and gives its frame
/// back. The parent's row has no split bit set then: it was seen from the other side, and now it is seen from this side
/// too.
fn uncover_row(
    arena: &CowArena,
    lists: &mut PageLists,
    frames: &mut FramePool,
    leaf: NodeId,
    hidden: NodeId,
    page: PageNo,
)
    requires uncovering { IsUncovering arena.now lists.old frames.old leaf.0 hidden.0 page }
    requires inside { (node : Node) → nodes_of arena.now leaf.0 ≡ Some node → page < node.seen }
    requires row { (node : Node) → nodes_of arena.now leaf.0 ≡ Some node → IsSome (slots_of lists.old node.list.0 page) }
    ensures uncovering { IsUncovering arena.now lists.new frames.new leaf.0 hidden.0 (page + 1) }
    ensures lost { Moves arena.now lists.old lists.new frames.old frames.new leaf.0 0 IsPartOf }
{
    let node = arena.node(leaf);
    let above = arena.node(hidden);
    prove!(above.count <= u64::MAX);
    let page_above = node.first + page;
    let Some(slot) = lists.find(above.list, page_above) else {
        return;
    };
    let own = lists.remove(node.list, page);
    give_back_frame(frames, own);
    lists.replace(above.list, page_above, without_bits(slot));
}

/// Returns the slot with no split bit set.
fn without_bits(slot: Slot) -> Slot
    ensures { result ≡ without_bits slot }
{
    match slot {
        Slot::Frame { tag, .. } => Slot::Frame {
            tag,
            left: false,
            right: false,
        },
        Slot::Zero => Slot::Zero,
    }
}
