//! Whether a row is seen.

ghost use Rattle.std.specs.Prelude.{◌≡◌, ◌↔◌, ℕ, true, Some, IsSome};
ghost use Rattle.cow_arena.specs.Nodes.{nodes_of};
ghost use Rattle.cow_arena.specs.Walk.{Slots, tree_with};
ghost use Rattle.cow_arena.specs.Forest.{IsForest};
ghost use Rattle.cow_split.specs.Trees.{tree_of};
ghost use Rattle.cow_split.specs.Searching.{ComesTo, is_row_of};
ghost use Rattle.cow_split.specs.Sight.{IsSeenBy, IsSeenFrom};
ghost use Rattle.cow_split.specs.Exact.{all_in_sight};

use crate::answers::Holder;
use crate::climbing::holder;
use crate::existing::reached_from;
use cow_arena::{CowArena, NodeId, Side};
use page_list::PageLists;
use vm_base::PageNo;

/// Returns whether some visible node on this side of a hidden node sees the row that the node has at a page. `false` if
/// it has none.
pub fn side_seen(
    arena: &CowArena,
    lists: &PageLists,
    node: NodeId,
    side: Side,
    page: PageNo,
) -> bool
    requires forest { IsForest (nodes_of arena.now) arena.now.lists }
    requires node { IsSome (nodes_of arena.now node.0) }
    ensures { (result ≡ true) ↔ IsSeenFrom (tree_of arena.now lists.now) all_in_sight side node.0 page }
{
    let list = arena.node(node).list;
    if lists.find(list, page).is_none() {
        return false;
    }
    reached_from(arena, lists, None, side, node, page)
}

/// Returns whether `leaf` is visible and sees the row of `node` at `page`, which is counted in `node`: the walk from a
/// page of the leaf below its count ends there. A hidden node sees none.
pub fn sees(arena: &CowArena, lists: &PageLists, leaf: NodeId, node: NodeId, page: PageNo) -> bool
    requires forest { IsForest (nodes_of arena.now) arena.now.lists }
    requires leaf { IsSome (nodes_of arena.now leaf.0) }
    requires node { IsSome (nodes_of arena.now node.0) }
    ensures { (result ≡ true) ↔ IsSeenBy (tree_of arena.now lists.now) leaf.0 node.0 page }
{
    let at = arena.node(leaf);
    if at.koid.is_none() {
        return false;
    }
    let Some(own) = page_seen(arena, leaf, node, page) else {
        return false;
    };
    if at.count <= own {
        return false;
    }
    let found = holder(arena, lists, leaf, own);
    is_row(leaf, own, found, node, page)
}

/// Returns whether `found`, the answer of `holder` for page `own` of `leaf`, is the row of page `page` of `node`.
fn is_row(leaf: NodeId, own: PageNo, found: Holder, node: NodeId, page: PageNo) -> bool
    ensures { result ≡ is_row_of leaf.0 own found node.0 page }
{
    match found {
        Holder::Own(_) => leaf.0 == node.0 && own == page,
        Holder::Above {
            node: above,
            page: there,
            ..
        } => above.0 == node.0 && there == page,
        Holder::Nothing => false,
    }
}

/// Returns the one page of a node from which a walk can come to this page of another node. `None` if no walk can.
fn page_seen(arena: &CowArena, leaf: NodeId, node: NodeId, page: PageNo) -> Option<PageNo>
    requires forest { IsForest (nodes_of arena.now) arena.now.lists }
    requires leaf { IsSome (nodes_of arena.now leaf.0) }
    ensures { (slots : Slots) (p : ℕ) →
        ComesTo (tree_with (nodes_of arena.now) arena.now.lists slots) leaf.0 p node.0 page → result ≡ Some p }
{
    let mut at = leaf;
    let mut own = page;
    while at.0 != node.0 {
        let below = arena.node(at);
        let Some(parent) = below.parent else {
            return None;
        };
        let Some(less) = own.checked_sub(below.first) else {
            return None;
        };
        own = less;
        at = parent;
    }
    Some(own)
}
