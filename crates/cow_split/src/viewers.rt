//! The search downwards for the visible nodes from which a page of a node is reached. It finds them one after another,
//! from left to right.

ghost use Rattle.std.specs.Prelude.{◌≡◌, ℕ, ◌<◌, ◌≤◌, List, Some, [], length, Option, None, IsSome, IfSome, MatchOption};
ghost use Rattle.cow_arena.specs.Nodes.{nodes_of, leads_to};
ghost use Rattle.cow_arena.specs.declared.node.NodeId.{NodeId};
ghost use Rattle.cow_arena.specs.Walk.{Slots, tree_with};
ghost use Rattle.cow_arena.specs.Forest.{IsForest};
ghost use Rattle.cow_split.specs.Trees.{tree_of};
ghost use Rattle.cow_split.specs.Search.{viewers_from};
ghost use Rattle.cow_split.specs.Searching.{FoundBelow, viewer_met, IsAhead, IsPassed, IsPassedBySome, Finds, FindsFirst, IsSearch, IsMet, weight_ahead, weight_from};
ghost use Rattle.cow_split.specs.Viewers.{HasLesser, IsBelowAll, IsLeastKoid, lesser_of};

use cow_arena::{CowArena, NodeId, Side};
use page_list::PageLists;
use vm_base::{Koid, PageNo};

/// Returns the number of visible nodes on this side of a node from which its page is reached. If the page has a row in
/// the node's list, they are the nodes that see this row.
pub fn viewer_count(
    arena: &CowArena,
    lists: &PageLists,
    side: Side,
    node: NodeId,
    page: PageNo,
) -> u64
    requires forest { IsForest (nodes_of arena.now) arena.now.lists }
    requires node { IsSome (nodes_of arena.now node.0) }
    ensures { result ≡ length (viewers_from (tree_of arena.now lists.now) None side node.0 page) }
{
    let _room = arena.capacity();
    let mut count = 0;
    let mut from = search_below(arena, side, node, page);
    while let Some((_, after)) = next_viewer(arena, lists, from) {
        count += 1;
        from = after;
    }
    count
}

/// Returns the least koid of the nodes that `viewer_count` counts. `None` if and only if there are none.
pub fn least_koid(
    arena: &CowArena,
    lists: &PageLists,
    side: Side,
    node: NodeId,
    page: PageNo,
) -> Option<Koid>
    requires forest { IsForest (nodes_of arena.now) arena.now.lists }
    requires node { IsSome (nodes_of arena.now node.0) }
    ensures { MatchOption result (viewers_from (tree_of arena.now lists.now) None side node.0 page ≡ [])
        (λ koid. IsLeastKoid (nodes_of arena.now) (viewers_from (tree_of arena.now lists.now) None side node.0 page) koid) }
{
    let mut least = None;
    let mut from = search_below(arena, side, node, page);
    while let Some((viewer, after)) = next_viewer(arena, lists, from) {
        least = lesser(least, arena.node(viewer).koid);
        from = after;
    }
    least
}

/// Returns a koid below `koid` of a node that `viewer_count` counts: the first that the search finds. `None` if and only
/// if there is none.
pub fn koid_below(
    arena: &CowArena,
    lists: &PageLists,
    side: Side,
    node: NodeId,
    page: PageNo,
    koid: Koid,
) -> Option<Koid>
    requires forest { IsForest (nodes_of arena.now) arena.now.lists }
    requires node { IsSome (nodes_of arena.now node.0) }
    ensures { MatchOption result (IsBelowAll (nodes_of arena.now) (viewers_from (tree_of arena.now lists.now) None side node.0 page) koid)
        (λ less. HasLesser (nodes_of arena.now) (viewers_from (tree_of arena.now lists.now) None side node.0 page) koid less) }
{
    let mut from = search_below(arena, side, node, page);
    while let Some((viewer, after)) = next_viewer(arena, lists, from) {
        if let Some(less) = if_below(arena.node(viewer).koid, koid) {
            return Some(less);
        }
        from = after;
    }
    None
}

/// Returns this koid, if it is below another.
#[inline(always)]
fn if_below(one: Option<Koid>, other: Koid) -> Option<Koid>
    ensures { MatchOption result ((koid : Koid) → one ≡ Some koid → other.0 ≤ koid.0) (λ less. (one ≡ Some less) × (less.0 < other.0)) }
{
    let koid = one?;
    if koid.0 < other.0 { Some(koid) } else { None }
}

/// Returns the lesser of two koids, or the only one, if one of them is `None`.
#[inline(always)]
pub fn lesser(one: Option<Koid>, other: Option<Koid>) -> Option<Koid>
    ensures { result ≡ lesser_of one other }
{
    let Some(least) = one else {
        return other;
    };
    match other {
        Some(koid) if koid.0 < least.0 => Some(koid),
        _ => Some(least),
    }
}

/// The place where a search goes on: at node `at`, with page `page` of the parent of `at`. The search began at node
/// `start`.
#[derive(Clone, Copy)]
pub(crate) struct Cursor {
    pub(crate) start: NodeId,
    pub(crate) at: NodeId,
    pub(crate) page: PageNo,
}

/// Begins a search for the visible nodes on this side of a node from which its page is reached.
fn search_below(arena: &CowArena, side: Side, node: NodeId, page: PageNo) -> Option<Cursor>
    requires forest { IsForest (nodes_of arena.now) arena.now.lists }
    requires node { IsSome (nodes_of arena.now node.0) }
    ensures { (slots : Slots) (except : Option NodeId) → Finds (tree_with (nodes_of arena.now) arena.now.lists slots) except result
        (viewers_from (tree_with (nodes_of arena.now) arena.now.lists slots) except side node.0 page) }
{
    let Some(start) = arena.node(node).child_on(side) else {
        return None;
    };
    Some(Cursor {
        start,
        at: start,
        page,
    })
}

/// Returns the next visible node that a search finds, and where the search goes on after it. `None` if the search finds
/// no more.
#[inline(always)]
fn next_viewer(
    arena: &CowArena,
    lists: &PageLists,
    from: Option<Cursor>,
) -> Option<(NodeId, Option<Cursor>)>
    requires forest { IsForest (nodes_of arena.now) arena.now.lists }
    requires from { IsSearch (tree_of arena.now lists.now) None from }
    ensures next { (ahead : List ℕ) → Finds (tree_of arena.now lists.now) None from ahead →
        MatchOption result (ahead ≡ []) (λ next. FindsFirst (tree_of arena.now lists.now) None next.0.0 next.1 ahead) }
    ensures less { IfSome result (λ next. weight_from (nodes_of arena.now) arena.now.lists next.1
        < weight_from (nodes_of arena.now) arena.now.lists from) }
{
    let mut next = from;
    while let Some(here) = next {
        match meet(arena, lists, None, here.at, here.page) {
            Met::Viewer => return Some((here.at, next_after(arena, here))),
            Met::Below(left, page) => {
                next = Some(Cursor {
                    at: left,
                    page,
                    ..here
                });
            }
            Met::Nobody => next = next_after(arena, here),
        }
    }
    None
}

/// The result of a search at one node.
#[derive(Clone, Copy)]
pub(crate) enum Met {
    /// The node is visible, and not the excepted one.
    Viewer,
    /// The node is hidden. The search goes on with its left child, at this page of the node.
    Below(NodeId, PageNo),
    /// The page lies outside the node's window, the node has a row there, or the node is the excepted one.
    Nobody,
}

/// Returns what a search meets at a node that it enters with this page of the node's parent.
#[inline(always)]
pub(crate) fn meet(
    arena: &CowArena,
    lists: &PageLists,
    except: Option<NodeId>,
    at: NodeId,
    page: PageNo,
) -> Met
    requires forest { IsForest (nodes_of arena.now) arena.now.lists }
    requires node { IsSome (nodes_of arena.now at.0) }
    ensures { IsMet (tree_of arena.now lists.now) except at.0 page result }
{
    let node = arena.node(at);
    let Some(here) = page.checked_sub(node.first) else {
        return Met::Nobody;
    };
    if node.seen <= here {
        return Met::Nobody;
    }
    if lists.find(node.list, here).is_some() {
        return Met::Nobody;
    }
    let Some(left) = node.left else {
        return viewer(except, at);
    };
    Met::Below(left, here)
}

/// Returns what a search meets at a visible node: nobody, if the node is the excepted one.
#[inline(always)]
#[tactic(auto, unfolding(vm_base::specs::Entries::passes))]
fn viewer(except: Option<NodeId>, at: NodeId) -> Met
    ensures { result ≡ viewer_met (leads_to except at.0) }
{
    match except {
        Some(excepted) if excepted.0 == at.0 => Met::Nobody,
        _ => Met::Viewer,
    }
}

/// Returns where a search goes on once it is done with a node and all below it: at the next node to the right, with the
/// page of the parent of that node. `None` if the search has entered all nodes at and below the one at which it began.
#[inline(always)]
pub(crate) fn next_after(arena: &CowArena, passed: Cursor) -> Option<Cursor>
    requires forest { IsForest (nodes_of arena.now) arena.now.lists }
    requires passed { IsPassedBySome (nodes_of arena.now) arena.now.lists passed.start.0 passed.at.0 passed.page }
    ensures next { (slots : Slots) (below : FoundBelow) (after : List ℕ) →
        IsPassed (tree_with (nodes_of arena.now) arena.now.lists slots) below passed.start.0 passed.at.0 passed.page after →
        IsAhead (tree_with (nodes_of arena.now) arena.now.lists slots) below result after }
    ensures less { weight_from (nodes_of arena.now) arena.now.lists result
        < weight_ahead (nodes_of arena.now) arena.now.lists passed.at.0 }
{
    let mut at = passed.at;
    let mut here = passed.page;
    while at.0 != passed.start.0 {
        let Some(parent) = arena.node(at).parent else {
            unreachable!()
        };
        let above = arena.node(parent);
        if let Side::Left = above.side_of(at) {
            let Some(right) = above.right else {
                unreachable!()
            };
            return Some(Cursor {
                at: right,
                page: here,
                ..passed
            });
        }
        here += above.first;
        at = parent;
    }
    None
}
