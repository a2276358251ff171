//! Whether other VMOs too see a row that a VMO sees.

ghost use Rattle.std.specs.Prelude.{◌≡◌, ℕ, true, Some, IsSome};
ghost use Rattle.cow_arena.specs.Nodes.{nodes_of, link_to};
ghost use Rattle.cow_arena.specs.Forest.{IsForest};
ghost use Rattle.cow_arena.specs.Ways.{Reaches};
ghost use Rattle.cow_split.specs.Trees.{tree_of};
ghost use Rattle.cow_split.specs.Search.{has_some, reached_from};
ghost use Rattle.cow_split.specs.Searching.{viewers_at, IsLeafOn};
ghost use Rattle.cow_split.specs.inside.Existing.{IsReachedByOthers};

use crate::answers::RowAbove;
use crate::existing::{is_viewer, look_below, reached_from};
use crate::viewers::Met;
use cow_arena::{CowArena, NodeId, Side};
use page_list::PageLists;
use vm_base::PageNo;

/// Returns whether a row is reached from its side other than from `leaf`, whose page `own` comes to it from there. If
/// the leaf is itself the child on this side, nobody else is there. Otherwise the leaf's sibling is asked before the
/// search: it comes to the row's node as the leaf does, and a young sibling has no rows of its own yet.
pub(crate) fn reached_by_others(
    arena: &CowArena,
    lists: &PageLists,
    leaf: NodeId,
    own: PageNo,
    row: RowAbove,
) -> bool
    requires forest { IsForest (nodes_of arena.now) arena.now.lists }
    requires leaf { IsSome (nodes_of arena.now leaf.0) }
    requires node { IsSome (nodes_of arena.now row.node.0) }
    ensures { IsReachedByOthers (tree_of arena.now lists.now) leaf.0 own row.side row.node.0 row.page result }
{
    if is_child_on(arena, leaf, row.side, row.node) {
        return false;
    }
    if reached_beside(arena, lists, leaf, own, row.node) {
        return true;
    }
    reached_from(arena, lists, Some(leaf), row.side, row.node, row.page)
}

/// Returns whether the child of a node on this side is `leaf`, and visible.
fn is_child_on(arena: &CowArena, leaf: NodeId, side: Side, node: NodeId) -> bool
    requires forest { IsForest (nodes_of arena.now) arena.now.lists }
    requires node { IsSome (nodes_of arena.now node.0) }
    ensures { result ≡ true → IsLeafOn (nodes_of arena.now) leaf.0 side node.0 }
{
    match arena.node(node).child_on(side) {
        Some(child) => child.0 == leaf.0 && arena.node(child).koid.is_some(),
        None => false,
    }
}

/// Returns whether the leaf's sibling, or a child of the sibling, comes to the page of the parent to which page `own`
/// of the leaf comes. If so, it also comes to each row of `node`, further up, to which the leaf's page comes. `false`
/// if `node` is the parent.
fn reached_beside(
    arena: &CowArena,
    lists: &PageLists,
    leaf: NodeId,
    own: PageNo,
    node: NodeId,
) -> bool
    requires forest { IsForest (nodes_of arena.now) arena.now.lists }
    requires leaf { IsSome (nodes_of arena.now leaf.0) }
    ensures { result ≡ true → (side : Side) (page : ℕ) → Reaches (tree_of arena.now lists.now) leaf.0 own side node.0 page →
        reached_from (tree_of arena.now lists.now) (Some leaf) side node.0 page ≡ true }
{
    let at = arena.node(leaf);
    let (Some(parent), Some(sibling)) = (at.parent, arena.sibling(leaf)) else {
        return false;
    };
    if parent.0 == node.0 {
        return false;
    }
    let Some(page) = at.first.checked_add(own) else {
        return false;
    };
    reached_near(arena, lists, Some(leaf), sibling, page)
}

/// Returns whether a page of a node's parent is reached from the node or from a child of the node, other than from
/// `except`.
fn reached_near(
    arena: &CowArena,
    lists: &PageLists,
    except: Option<NodeId>,
    at: NodeId,
    page: PageNo,
) -> bool
    requires forest { IsForest (nodes_of arena.now) arena.now.lists }
    requires node { IsSome (nodes_of arena.now at.0) }
    ensures { result ≡ true → has_some (viewers_at (tree_of arena.now lists.now) except (link_to at.0) page) ≡ true }
{
    if is_viewer(arena, lists, except, at, page) {
        return true;
    }
    match look_below(arena, lists, except, at, page) {
        Met::Viewer => true,
        Met::Below(_, _) => false,
        Met::Nobody => false,
    }
}
