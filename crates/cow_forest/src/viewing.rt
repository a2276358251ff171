//! The VMOs that show a frame.

ghost use Rattle.std.specs.Prelude.{◌≡◌, ℕ, Bool, IsSome, IfSome, IsSomeAnd, Some, None};
ghost use Rattle.cow_arena.specs.Nodes.{nodes_of, other_side};
ghost use Rattle.cow_arena.specs.Forest.{IsForest};
ghost use Rattle.cow_arena.specs.Walk.{frame_shown};
ghost use Rattle.cow_split.specs.Trees.{tree_of};
ghost use Rattle.cow_split.specs.Sight.{IsPage};
ghost use Rattle.cow_split.specs.Exact.{IsExact, all_in_sight};
ghost use Rattle.cow_forest.specs.inside.Founders.{IsElderFor};
ghost use Rattle.cow_forest.specs.inside.Viewing.{HasFrameRow, IsViewerCount, IsLeastKoidOf, HasLesserOf};

use crate::founders::FounderTable;
use cow_arena::{CowArena, NodeId, Side};
use cow_split::{Holder, holder, koid_below, least_koid, lesser, viewer_count};
use page_list::PageLists;
use vm_base::{Koid, PageNo};

/// Returns the least koid of the VMOs that see the row of a page of a node. The row has a frame.
pub(crate) fn least_koid_of(arena: &CowArena, lists: &PageLists, node: NodeId, page: PageNo) -> Koid
    requires exact { (in_use : ℕ → Bool) × IsExact (tree_of arena.now lists.now) all_in_sight in_use }
    requires row { (tag : ℕ) × HasFrameRow (tree_of arena.now lists.now) node.0 page tag }
    ensures { (tag : ℕ) → HasFrameRow (tree_of arena.now lists.now) node.0 page tag → IsLeastKoidOf (tree_of arena.now lists.now) tag result }
{
    if let Some(koid) = arena.node(node).koid {
        return koid;
    }
    let left = least_koid(arena, lists, Side::Left, node, page);
    let right = least_koid(arena, lists, Side::Right, node, page);
    let Some(koid) = lesser(left, right) else {
        unreachable!()
    };
    koid
}

/// Returns a koid below `koid` of a VMO that sees the row of a page of a node: the first that the search finds. `None` if
/// and only if there is none. The row has a frame.
///
/// The search begins on the right, if the child there is visible. Otherwise it begins on the left, where the VMO is of
/// which the snapshot on the right was made.
pub(crate) fn lesser_koid_of(
    arena: &CowArena,
    lists: &PageLists,
    node: NodeId,
    page: PageNo,
    koid: Koid,
) -> Option<Koid>
    requires exact { (in_use : ℕ → Bool) × IsExact (tree_of arena.now lists.now) all_in_sight in_use }
    requires row { (tag : ℕ) × HasFrameRow (tree_of arena.now lists.now) node.0 page tag }
    ensures { (tag : ℕ) → HasFrameRow (tree_of arena.now lists.now) node.0 page tag → HasLesserOf (tree_of arena.now lists.now) tag koid result }
{
    if let Some(own) = arena.node(node).koid {
        return if own.0 < koid.0 { Some(own) } else { None };
    }
    let first = first_side(arena, node);
    if let Some(less) = koid_below(arena, lists, first, node, page, koid) {
        return Some(less);
    }
    koid_below(arena, lists, other_side(first), node, page, koid)
}

/// Returns the elder founder of a hidden node, if of all VMOs below the node it alone may have a koid below this one.
pub(crate) fn elder_for(
    arena: &CowArena,
    table: &FounderTable,
    node: NodeId,
    koid: Koid,
) -> Option<Koid>
    requires { IsSome (nodes_of arena.now node.0) }
    ensures { IfSome result (λ elder. IsElderFor (nodes_of arena.now) table.now node.0 koid elder) }
{
    if arena.look(node).koid.is_some() {
        return None;
    }
    let founders = table.get(node)?;
    if koid.0 <= founders.younger.0 {
        Some(founders.elder)
    } else {
        None
    }
}

/// Returns the side on which a search below a node begins.
fn first_side(arena: &CowArena, node: NodeId) -> Side
    requires forest { IsForest (nodes_of arena.now) arena.now.lists }
    requires node { IsSome (nodes_of arena.now node.0) }
{
    match arena.node(node).child_on(Side::Right) {
        Some(child) if arena.look(child).koid.is_some() => Side::Right,
        _ => Side::Left,
    }
}

/// Returns the side that is not this one.
fn other_side(side: Side) -> Side
    ensures { result ≡ other_side side }
{
    match side {
        Side::Left => Side::Right,
        Side::Right => Side::Left,
    }
}

/// Returns how many VMOs show the frame that a page of a VMO's node shows.
pub(crate) fn viewer_count_of(
    arena: &CowArena,
    lists: &PageLists,
    leaf: NodeId,
    page: PageNo,
) -> u64
    requires exact { (in_use : ℕ → Bool) × IsExact (tree_of arena.now lists.now) all_in_sight in_use }
    requires page { IsPage (tree_of arena.now lists.now) leaf.0 page }
    ensures { (tag : ℕ) → frame_shown (tree_of arena.now lists.now) leaf.0 page ≡ Some tag →
        IsViewerCount (tree_of arena.now lists.now) tag result }
{
    match holder(arena, lists, leaf, page) {
        Holder::Above { node, page, .. } => viewers_of(arena, lists, node, page),
        Holder::Own(_) => 1,
        Holder::Nothing => 0,
    }
}

/// Returns how many VMOs see the row of a page of a hidden node.
fn viewers_of(arena: &CowArena, lists: &PageLists, node: NodeId, page: PageNo) -> u64
    requires exact { (in_use : ℕ → Bool) × IsExact (tree_of arena.now lists.now) all_in_sight in_use }
    requires hidden { IsSomeAnd (nodes_of arena.now node.0) (λ at. at.koid ≡ None) }
    ensures { (tag : ℕ) → HasFrameRow (tree_of arena.now lists.now) node.0 page tag → IsViewerCount (tree_of arena.now lists.now) tag result }
{
    // The viewers have different numbers, all below the arena's room.
    let _room = arena.capacity();
    viewer_count(arena, lists, Side::Left, node, page)
        + viewer_count(arena, lists, Side::Right, node, page)
}
