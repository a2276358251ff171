//! The way over the nodes of a tree: each node before those below it, left ones first. It needs no stack.

ghost use Rattle.std.specs.Prelude.{◌≡◌, ◌∷◌, ◌<◌, length, IsSome, IfSome, None};
ghost use Rattle.cow_arena.specs.Nodes.{nodes_of};
ghost use Rattle.cow_arena.specs.Forest.{IsForest};
ghost use Rattle.tree_text.specs.Order.{place_below_parent, root_from, root_of};
ghost use Rattle.tree_text.specs.inside.Walking.{nodes_after, nodes_ahead, ahead_from};

use cow_arena::{CowArena, NodeId, Side};
use cow_forest::CowForest;
use vm_base::Koid;

/// Returns where a node stands: its parent, and the side on which it is. `None` if it has no parent.
pub(crate) fn place(arena: &CowArena, at: NodeId) -> Option<(NodeId, Side)>
    requires forest { IsForest (nodes_of arena.now) arena.now.lists }
    requires node { IsSome (nodes_of arena.now at.0) }
    ensures place { result ≡ place_below_parent (nodes_of arena.now) at.0 }
    ensures there { IfSome result (λ place. IsSome (nodes_of arena.now place.0.0)) }
{
    let parent = arena.node(at).parent?;
    let side = arena.side(at)?;
    Some((parent, side))
}

/// Returns the root of the tree whose leaf furthest to the left is the node of this VMO. `None` if it is another leaf, or if there
/// is no such VMO.
pub(crate) fn first_root(forest: &CowForest, v: Koid) -> Option<NodeId>
    ensures root { result ≡ root_of forest.now v.0 }
    ensures there { IfSome result (λ root. IsSome (nodes_of forest.now.arena root.0)) }
    ensures top { IfSome result (λ root. place_below_parent (nodes_of forest.now.arena) root.0 ≡ None) }
{
    let leaf = forest.node_of(v)?;
    root_above(forest.arena(), leaf)
}

/// Returns the root of the tree whose leaf furthest to the left is this node. `None` if it is another leaf.
fn root_above(arena: &CowArena, leaf: NodeId) -> Option<NodeId>
    requires forest { IsForest (nodes_of arena.now) arena.now.lists }
    requires node { IsSome (nodes_of arena.now leaf.0) }
    ensures root { result ≡ root_from (nodes_of arena.now) arena.now.lists leaf.0 }
    ensures there { IfSome result (λ root. IsSome (nodes_of arena.now root.0)) }
    ensures top { IfSome result (λ root. place_below_parent (nodes_of arena.now) root.0 ≡ None) }
{
    let mut at = leaf;
    while let Some(up) = place(arena, at) {
        match up.1 {
            Side::Left => at = up.0,
            Side::Right => return None,
        }
    }
    Some(at)
}

/// Returns the node that comes after this one in the walk. `None` if it is the last one.
pub(crate) fn next_node(arena: &CowArena, at: NodeId) -> Option<NodeId>
    requires forest { IsForest (nodes_of arena.now) arena.now.lists }
    requires node { IsSome (nodes_of arena.now at.0) }
    ensures next { nodes_ahead (nodes_of arena.now) arena.now.lists at.0
        ≡ at.0 ∷ ahead_from (nodes_of arena.now) arena.now.lists result }
    ensures there { IfSome result (λ next. IsSome (nodes_of arena.now next.0)) }
{
    match arena.node(at).left {
        Some(left) => Some(left),
        None => next_after(arena, at),
    }
}

/// Returns the node that comes after this one and all below it. `None` if there is none.
fn next_after(arena: &CowArena, passed: NodeId) -> Option<NodeId>
    requires forest { IsForest (nodes_of arena.now) arena.now.lists }
    requires node { IsSome (nodes_of arena.now passed.0) }
    ensures next { nodes_after (nodes_of arena.now) arena.now.lists passed.0
        ≡ ahead_from (nodes_of arena.now) arena.now.lists result }
    ensures there { IfSome result (λ next. IsSome (nodes_of arena.now next.0)) }
{
    let mut at = passed;
    while let Some(up) = place(arena, at) {
        match up.1 {
            Side::Left => return arena.node(up.0).right,
            Side::Right => at = up.0,
        }
    }
    None
}
