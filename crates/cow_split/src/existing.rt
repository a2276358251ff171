//! Whether a page of a node is reached from any visible node: a search downwards that ends at the first one that it
//! finds. It asks both children of a hidden node before it goes further down, so it does not pass a viewer that is
//! near.

ghost use Rattle.std.specs.Prelude.{◌≡◌, true, false, [], ◌∷◌, ◌++◌, IsSome};
ghost use Rattle.cow_arena.specs.Nodes.{nodes_of, link_to};
ghost use Rattle.cow_arena.specs.Forest.{IsForest};
ghost use Rattle.cow_split.specs.Trees.{tree_of};
ghost use Rattle.cow_split.specs.Search.{has_some, reached_from};
ghost use Rattle.cow_split.specs.Searching.{viewers_at};
ghost use Rattle.cow_split.specs.inside.Existing.{hidden_at, IsMetBelow};

use crate::viewers::{Cursor, Met, meet, next_after};
use cow_arena::{CowArena, NodeId, Side};
use page_list::PageLists;
use vm_base::PageNo;

/// Returns whether a page of a node is reached from a visible node on this side, other than `except`, through the
/// windows and past no row. The search takes no memory.
pub fn reached_from(
    arena: &CowArena,
    lists: &PageLists,
    except: Option<NodeId>,
    side: Side,
    node: NodeId,
    page: PageNo,
) -> bool
    requires forest { IsForest (nodes_of arena.now) arena.now.lists }
    requires node { IsSome (nodes_of arena.now node.0) }
    ensures { result ≡ reached_from (tree_of arena.now lists.now) except side node.0 page }
{
    let Some(start) = arena.node(node).child_on(side) else {
        return false;
    };
    if is_viewer(arena, lists, except, start, page) {
        return true;
    }
    any_below(arena, lists, except, start, page)
}

/// Returns whether a node is visible and not `except`, and this page of its parent is reached from it.
pub(crate) fn is_viewer(
    arena: &CowArena,
    lists: &PageLists,
    except: Option<NodeId>,
    at: NodeId,
    page: PageNo,
) -> bool
    requires forest { IsForest (nodes_of arena.now) arena.now.lists }
    requires node { IsSome (nodes_of arena.now at.0) }
    ensures found { result ≡ true → viewers_at (tree_of arena.now lists.now) except (link_to at.0) page ≡ at.0 ∷ [] }
    ensures hidden { result ≡ false → viewers_at (tree_of arena.now lists.now) except (link_to at.0) page
        ≡ hidden_at (tree_of arena.now lists.now) except (link_to at.0) page }
{
    if arena.node(at).koid.is_none() {
        return false;
    }
    match meet(arena, lists, except, at, page) {
        Met::Viewer => true,
        Met::Below(_, _) => false,
        Met::Nobody => false,
    }
}

/// Returns whether this page of the parent of a hidden node is reached from a visible node below that node. `false` for
/// a visible node.
fn any_below(
    arena: &CowArena,
    lists: &PageLists,
    except: Option<NodeId>,
    start: NodeId,
    page: PageNo,
) -> bool
    requires forest { IsForest (nodes_of arena.now) arena.now.lists }
    requires node { IsSome (nodes_of arena.now start.0) }
    ensures { result ≡ has_some (hidden_at (tree_of arena.now lists.now) except (link_to start.0) page) }
{
    let mut next = Some(Cursor {
        start,
        at: start,
        page,
    });
    while let Some(here) = next {
        match look_below(arena, lists, except, here.at, here.page) {
            Met::Viewer => return true,
            Met::Below(left, page) => {
                next = Some(Cursor {
                    at: left,
                    page,
                    ..here
                });
            }
            Met::Nobody => next = next_after(arena, here),
        }
    }
    false
}

/// Returns what the search meets at the children of a node that it enters with this page of the node's parent. If the
/// node is visible, the search has asked it before, with its sibling.
pub(crate) fn look_below(
    arena: &CowArena,
    lists: &PageLists,
    except: Option<NodeId>,
    at: NodeId,
    page: PageNo,
) -> Met
    requires forest { IsForest (nodes_of arena.now) arena.now.lists }
    requires node { IsSome (nodes_of arena.now at.0) }
    ensures { IsMetBelow (tree_of arena.now lists.now) except at.0 page result }
{
    let Some(right) = arena.node(at).right else {
        return Met::Nobody;
    };
    match meet(arena, lists, except, at, page) {
        Met::Below(left, here) => {
            if either_views(arena, lists, except, left, right, here) {
                Met::Viewer
            } else {
                Met::Below(left, here)
            }
        }
        Met::Viewer => Met::Viewer,
        Met::Nobody => Met::Nobody,
    }
}

/// Returns whether one of the two children of a node is visible and not `except`, and this page of the node is reached
/// from it.
fn either_views(
    arena: &CowArena,
    lists: &PageLists,
    except: Option<NodeId>,
    left: NodeId,
    right: NodeId,
    page: PageNo,
) -> bool
    requires forest { IsForest (nodes_of arena.now) arena.now.lists }
    requires left { IsSome (nodes_of arena.now left.0) }
    requires right { IsSome (nodes_of arena.now right.0) }
    ensures found { result ≡ true → has_some (viewers_at (tree_of arena.now lists.now) except (link_to left.0) page
        ++ viewers_at (tree_of arena.now lists.now) except (link_to right.0) page) ≡ true }
    ensures hidden { result ≡ false → viewers_at (tree_of arena.now lists.now) except (link_to left.0) page
        ++ viewers_at (tree_of arena.now lists.now) except (link_to right.0) page
        ≡ hidden_at (tree_of arena.now lists.now) except (link_to left.0) page
        ++ hidden_at (tree_of arena.now lists.now) except (link_to right.0) page }
{
    if is_viewer(arena, lists, except, left, page) {
        return true;
    }
    is_viewer(arena, lists, except, right, page)
}
