//! The two tables that lead into the tree: the node of each VMO, and the node that has each list.

ghost use Rattle.std.specs.Prelude.{◌≡◌, ◌≢◌, ◌⊎◌, ◌≤◌, ℕ, None, Some, IsSome, IfSome, IfNone, OnOk};
ghost use Rattle.cow_arena.specs.declared.node.Node.{Node};
ghost use Rattle.cow_arena.specs.Nodes.{nodes_of, link_to, sibling_in};
ghost use Rattle.cow_arena.specs.Forest.{IsForest};
ghost use Rattle.cow_split.specs.Trees.{tree_of};
ghost use Rattle.cow_jump.specs.Jumps.{AreJumps};
ghost use Rattle.cow_forest.specs.Tables.{node_in, IsDisowned, AreMerged, HasOneOf};

use crate::node_table::NodeTable;
use cow_arena::{CowArena, NodeId};
use cow_jump::{JumpTable, renew_jump};
use page_list::{ListId, PageLists};
use vm_base::HostMemory;

/// Makes room for one more koid and for `lists` more lists. `HostMemory` if the host has too little memory. No entry
/// changes.
pub(crate) fn make_room(
    nodes: &mut NodeTable,
    owners: &mut NodeTable,
    lists: usize,
) -> Result<(), HostMemory>
    ensures nodes { node_in nodes.new ≡ node_in nodes.old }
    ensures owners { node_in owners.new ≡ node_in owners.old }
    ensures nodes_room { OnOk result (1 ≤ nodes.new.spare) }
    ensures owners_room { OnOk result (lists ≤ owners.new.spare) }
{
    nodes.reserve(1)?;
    owners.reserve(lists)
}

/// Takes out the list of a VMO's node that leaves. If the node has a parent, the parent leaves too, and the sibling
/// takes its place: from then on the parent's list leads to the sibling. Answers the sibling, and the numbers of the
/// parent's list and of the sibling's, of which the sibling has one when the node has left. The call takes no memory.
pub(crate) fn disown(
    owners: &mut NodeTable,
    arena: &CowArena,
    leaf: NodeId,
) -> Option<(NodeId, ListId, ListId)>
    requires forest { IsForest (nodes_of arena.now) arena.now.lists }
    requires leaf { IsSome (nodes_of arena.now leaf.0) }
    requires owners { (k : ℕ) (node : Node) → nodes_of arena.now k ≡ Some node → node_in owners.old node.list.0 ≡ link_to k }
    ensures disowned { IsDisowned (nodes_of arena.now) (node_in owners.old) (node_in owners.new) leaf.0 }
    ensures family { IfSome result (λ it. AreMerged (nodes_of arena.now) (node_in owners.new) leaf.0 it.0.0 it.1.0 it.2.0) }
    ensures root { IfNone result (sibling_in (nodes_of arena.now) leaf.0 ≡ None) }
{
    let node = arena.node(leaf);
    owners.leave(node.list.0);
    let (Some(parent), Some(sibling)) = (node.parent, arena.sibling(leaf)) else {
        return None;
    };
    let above = arena.node(parent).list;
    owners.redirect(above.0, sibling);
    Some((sibling, above, arena.node(sibling).list))
}

/// Takes out the one of two lists that the node does not have, if there are two.
pub(crate) fn leave_other(
    owners: &mut NodeTable,
    arena: &CowArena,
    merged: Option<(NodeId, ListId, ListId)>,
)
    requires { IfSome merged (λ it. HasOneOf (nodes_of arena.now) it.0.0 it.1.0 it.2.0) }
    ensures { (k : ℕ) (node : Node) → nodes_of arena.now k ≡ Some node →
        node_in owners.new node.list.0 ≡ node_in owners.old node.list.0 }
{
    let Some((node, one, other)) = merged else {
        return;
    };
    owners.leave(other_of(arena.node(node).list.0, one.0, other.0));
}

/// Gives the node that took the place of its parent a jump anew, if there is such a node and its own jump led to a node
/// that went.
pub(crate) fn renew_merged(
    jumps: &mut JumpTable,
    arena: &CowArena,
    lists: &PageLists,
    merged: Option<(NodeId, ListId, ListId)>,
)
    requires forest { IsForest (nodes_of arena.now) arena.now.lists }
    requires merged { IfSome merged (λ it. HasOneOf (nodes_of arena.now) it.0.0 it.1.0 it.2.0) }
    requires jumps { (next : ℕ) × AreJumps (tree_of arena.now lists.now) next jumps.old }
    ensures { (next : ℕ) → AreJumps (tree_of arena.now lists.now) next jumps.old →
        AreJumps (tree_of arena.now lists.now) next jumps.new }
{
    if let Some((node, _, _)) = merged {
        renew_jump(jumps, arena, lists, node);
    }
}

/// Returns the one of two numbers that is not `number`.
fn other_of(number: u64, one: u64, other: u64) -> u64
    ensures { ((number ≡ one) × (result ≡ other)) ⊎ ((number ≢ one) × (result ≡ one)) }
{
    if number == one { other } else { one }
}
