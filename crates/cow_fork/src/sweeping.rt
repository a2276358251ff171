//! Taking rows out that say zero and hide no frame.

ghost use Rattle.std.specs.Prelude.{◌≡◌, ◌≢◌, ◌<◌, ◌≤◌, ◌^◌, ℕ, true, false, None, Some, IsSome, is_some};
ghost use Rattle.page_list.specs.declared.row.Slot.TheVariants as slot;
ghost use Rattle.page_list.specs.Lists.{slots_of};
ghost use Rattle.cow_arena.specs.declared.node.Node.{Node};
ghost use Rattle.cow_arena.specs.Nodes.{nodes_of};
ghost use Rattle.cow_arena.specs.Walk.{frame_shown};
ghost use Rattle.cow_arena.specs.Forest.{IsForest};
ghost use Rattle.cow_split.specs.Trees.{tree_of, with_row};
ghost use Rattle.cow_jump.specs.Jumps.{AreJumps};
ghost use Rattle.cow_fork.specs.Zeroing.{IsNeeded};
ghost use Rattle.cow_fork.specs.Sweeping.{HasSwept, AreNeededIn, IsSwept};

use crate::zeroing::has_frame;
use cow_arena::{CowArena, NodeId};
use cow_jump::{JumpTable, holder_by_jumps};
use page_list::{PageLists, Slot};
use vm_base::PageNo;

/// Takes out each row that says zero where no row further up shows a frame. Such rows are left behind where a VMO made a page
/// zero that it shared, and the rows above went since. Each page shows what it showed. The call takes no memory. It looks once
/// at each number that a node may have, and at each row.
pub fn sweep(arena: &CowArena, lists: &mut PageLists, jumps: &JumpTable)
    requires forest { IsForest (nodes_of arena.now) arena.now.lists }
    requires jumps { (next : ℕ) × AreJumps (tree_of arena.now lists.old) next jumps.now }
    ensures swept { HasSwept arena.now lists.old lists.new }
    ensures needed { IsSwept arena.now lists.new }
    // so no row of a node without a parent says zero
    ensures roots { (k p : ℕ) (node : Node) → nodes_of arena.now k ≡ Some node → node.parent ≡ None → p < 2 ^ 64 →
        slots_of lists.new node.list.0 p ≢ Some slot.Zero }
{
    let end = arena.capacity();
    let mut at = 0;
    while at < end {
        sweep_node(arena, lists, jumps, NodeId(at));
        at += 1;
    }
}

/// Does what `sweep` does with the rows of the node of this number, if there is one.
fn sweep_node(arena: &CowArena, lists: &mut PageLists, jumps: &JumpTable, at: NodeId)
    requires forest { IsForest (nodes_of arena.now) arena.now.lists }
    requires jumps { (next : ℕ) × AreJumps (tree_of arena.now lists.old) next jumps.now }
    ensures swept { HasSwept arena.now lists.old lists.new }
    ensures needed { AreNeededIn arena.now lists.new at.0 }
{
    if arena.has(at) {
        sweep_rows(arena, lists, jumps, at);
    }
}

/// Does what `sweep` does with the rows of a node.
fn sweep_rows(arena: &CowArena, lists: &mut PageLists, jumps: &JumpTable, at: NodeId)
    requires forest { IsForest (nodes_of arena.now) arena.now.lists }
    requires node { IsSome (nodes_of arena.now at.0) }
    requires jumps { (next : ℕ) × AreJumps (tree_of arena.now lists.old) next jumps.now }
    ensures swept { HasSwept arena.now lists.old lists.new }
    ensures needed { AreNeededIn arena.now lists.new at.0 }
{
    let list = arena.look(at).list;
    let mut from = 0;
    while let Some(page) = lists.next(list, from) {
        sweep_row(arena, lists, jumps, at, page);
        let Some(behind) = page.checked_add(1) else {
            return;
        };
        from = behind;
    }
}

/// Does what `sweep` does with the row of a page of a node, if it has one.
fn sweep_row(arena: &CowArena, lists: &mut PageLists, jumps: &JumpTable, at: NodeId, page: PageNo)
    requires forest { IsForest (nodes_of arena.now) arena.now.lists }
    requires node { IsSome (nodes_of arena.now at.0) }
    requires jumps { (next : ℕ) × AreJumps (tree_of arena.now lists.old) next jumps.now }
    ensures swept { HasSwept arena.now lists.old lists.new }
    ensures needed { IsNeeded arena.now lists.new at.0 page }
{
    if is_idle(arena, lists, jumps, at, page) {
        let _zero = lists.remove(arena.look(at).list, page);
    }
}

/// Returns whether a page of a node has a row that says zero and hides no frame.
fn is_idle(arena: &CowArena, lists: &PageLists, jumps: &JumpTable, at: NodeId, page: PageNo) -> bool
    requires forest { IsForest (nodes_of arena.now) arena.now.lists }
    requires node { IsSome (nodes_of arena.now at.0) }
    requires jumps { (next : ℕ) × AreJumps (tree_of arena.now lists.now) next jumps.now }
    ensures idle { result ≡ true → (node : Node) → nodes_of arena.now at.0 ≡ Some node →
        (slots_of lists.now node.list.0 page ≡ Some slot.Zero)
        × (frame_shown (with_row (tree_of arena.now lists.now) node.list.0 page None) at.0 page ≡ None) }
    ensures needed { result ≡ false → IsNeeded arena.now lists.now at.0 page }
{
    if let Some(Slot::Zero) = lists.find(arena.look(at).list, page) {
        return !hides_frame(arena, lists, jumps, at, page);
    }
    false
}

/// Returns whether a page of a node would show a frame if the node had no row there.
fn hides_frame(
    arena: &CowArena,
    lists: &PageLists,
    jumps: &JumpTable,
    at: NodeId,
    page: PageNo,
) -> bool
    requires forest { IsForest (nodes_of arena.now) arena.now.lists }
    requires node { IsSome (nodes_of arena.now at.0) }
    requires jumps { (next : ℕ) × AreJumps (tree_of arena.now lists.now) next jumps.now }
    ensures { (node : Node) → nodes_of arena.now at.0 ≡ Some node →
        result ≡ is_some (frame_shown (with_row (tree_of arena.now lists.now) node.list.0 page None) at.0 page) }
{
    let node = arena.node(at);
    if node.seen <= page {
        return false;
    }
    let Some(parent) = node.parent else {
        return false;
    };
    let above = arena.node(parent);
    prove!(above.count <= u64::MAX);
    has_frame(holder_by_jumps(arena, lists, jumps, parent, node.first + page))
}
