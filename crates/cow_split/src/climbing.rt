//! The walk upwards, to the row that says what a page of a node shows.

ghost use Rattle.std.specs.Prelude.{◌≡◌, None, IsSome, IsSomeAnd};
ghost use Rattle.page_list.specs.Lists.{slots_of};
ghost use Rattle.cow_arena.specs.Nodes.{nodes_of};
ghost use Rattle.cow_arena.specs.Walk.{walk};
ghost use Rattle.cow_arena.specs.Forest.{IsForest};
ghost use Rattle.cow_split.specs.Trees.{tree_of, holder_of};

use crate::answers::Holder;
use cow_arena::{CowArena, NodeId};
use page_list::PageLists;
use vm_base::PageNo;

/// Returns the first row on the walk from a page of a node upwards, within the windows. `Nothing` if and only if there
/// is none. This function is inlined and the walk upwards is not.
#[inline(always)]
pub fn holder(arena: &CowArena, lists: &PageLists, leaf: NodeId, page: PageNo) -> Holder
    requires forest { IsForest (nodes_of arena.now) arena.now.lists }
    requires node { IsSome (nodes_of arena.now leaf.0) }
    ensures { result ≡ holder_of (walk (tree_of arena.now lists.now) leaf.0 page) }
{
    if let Some(slot) = lists.find(arena.look(leaf).list, page) {
        return Holder::Own(slot);
    }
    holder_above(arena, lists, leaf, page)
}

/// Does what `holder` does for a page that has no row of its own. It does not look into the node's own list.
#[inline(never)]
pub fn holder_above(arena: &CowArena, lists: &PageLists, leaf: NodeId, page: PageNo) -> Holder
    requires forest { IsForest (nodes_of arena.now) arena.now.lists }
    requires bare { IsSomeAnd (nodes_of arena.now leaf.0) (λ node. slots_of lists.now node.list.0 page ≡ None) }
    ensures { result ≡ holder_of (walk (tree_of arena.now lists.now) leaf.0 page) }
{
    let mut at = leaf;
    let mut here = page;
    let mut node = arena.node(leaf);
    loop {
        let Some(parent) = node.parent else {
            return Holder::Nothing;
        };
        if node.seen <= here {
            return Holder::Nothing;
        }
        let above = arena.node(parent);
        let side = above.side_of(at);
        here += node.first;
        if let Some(slot) = lists.find(above.list, here) {
            return Holder::Above {
                node: parent,
                page: here,
                side,
                slot,
            };
        }
        at = parent;
        node = above;
    }
}
