//! Looking at pages: what a page is, and which page is the next one that is held.

ghost use Rattle.std.specs.Prelude.{◌≡◌, ◌↔◌, ◌+◌, ◌*◌, ◌^◌, ◌<◌, ◌≤◌, ℕ, Bool, true, None, Some, IsSome, IsSomeAnd, IfSome, IfNone};
ghost use Rattle.vm_base.specs.Search.{HasNone, IsFirstOrNone};
ghost use Rattle.page_list.specs.Lists.{row_count, slots_of, has_row};
ghost use Rattle.cow_arena.specs.Nodes.{nodes_of};
ghost use Rattle.cow_arena.specs.Forest.{IsForest};
ghost use Rattle.cow_arena.specs.Walk.{walk, frame_shown, shows_frame};
ghost use Rattle.cow_split.specs.Trees.{tree_of, holder_of};
ghost use Rattle.cow_split.specs.Cost.{IsMostOfLookUp, depth};
ghost use Rattle.cow_split.specs.Sight.{IsPage};
ghost use Rattle.cow_split.specs.Exact.{IsExact, all_in_sight};
ghost use Rattle.cow_jump.specs.Jumps.{AreJumps};
ghost use Rattle.cow_forest.specs.Store.{frame_from};
ghost use Rattle.cow_forest.specs.inside.Looking.{look_in, IsLook, ShowsFrameOrNone, nearer_page};
ghost use Rattle.cow_forest.specs.Owning.{tag_in};

use cow_arena::{CowArena, NodeId};
use cow_jump::{JumpTable, above_by_jumps, holder_by_jumps, holder_by_jumps_counted};
use cow_split::{Holder, is_last};
use page_list::{ListId, PageLists, Slot, Steps};
use page_store::Look;
use std::sync::ledger::Ledger;
use vm_base::{PageNo, Tag};

/// Returns what a page of a VMO's node is.
#[inline(always)]
pub(crate) fn look_at(
    arena: &CowArena,
    lists: &PageLists,
    jumps: &JumpTable,
    leaf: NodeId,
    page: PageNo,
) -> Look
    requires exact { (in_use : ℕ → Bool) × IsExact (tree_of arena.now lists.now) all_in_sight in_use }
    requires jumps { (next : ℕ) × AreJumps (tree_of arena.now lists.now) next jumps.now }
    requires page { IsPage (tree_of arena.now lists.now) leaf.0 page }
    ensures { IsLook (tree_of arena.now lists.now) leaf.0 page result }
{
    if let Some(slot) = lists.find(arena.look(leaf).list, page) {
        return look_in(slot);
    }
    look_upwards(arena, lists, jumps, leaf, page)
}

/// Returns the frame that a page of a VMO's node shows. No other viewer is searched for.
#[inline(always)]
pub(crate) fn shown_frame(
    arena: &CowArena,
    lists: &PageLists,
    jumps: &JumpTable,
    leaf: NodeId,
    page: PageNo,
) -> Option<Tag>
    requires forest { IsForest (nodes_of arena.now) arena.now.lists }
    requires jumps { (next : ℕ) × AreJumps (tree_of arena.now lists.now) next jumps.now }
    requires node { IsSome (nodes_of arena.now leaf.0) }
    ensures { ShowsFrameOrNone (tree_of arena.now lists.now) leaf.0 page result }
{
    if let Some(slot) = lists.find(arena.look(leaf).list, page) {
        return frame_in(slot);
    }
    frame_upwards(arena, lists, jumps, leaf, page)
}

/// Returns whether a page of a VMO's node, if there is one, shows this frame.
pub(crate) fn shows(
    arena: &CowArena,
    lists: &PageLists,
    jumps: &JumpTable,
    leaf: Option<NodeId>,
    page: PageNo,
    tag: Tag,
) -> bool
    requires forest { IsForest (nodes_of arena.now) arena.now.lists }
    requires jumps { (next : ℕ) × AreJumps (tree_of arena.now lists.now) next jumps.now }
    requires node { IfSome leaf (λ at. IsSome (nodes_of arena.now at.0)) }
    ensures { (result ≡ true) ↔ (frame_from (tree_of arena.now lists.now) leaf page ≡ Some tag.0) }
{
    let Some(at) = leaf else {
        return false;
    };
    match shown_frame(arena, lists, jumps, at, page) {
        Some(shown) => shown.0 == tag.0,
        None => false,
    }
}

/// Returns the frame of a page with this row of its own.
fn frame_in(slot: Slot) -> Option<Tag>
    ensures { result ≡ tag_in slot }
{
    match slot {
        Slot::Frame { tag, .. } => Some(tag),
        Slot::Zero => None,
    }
}

/// Does what `shown_frame` does, by the walk upwards. The page has no row of its own.
#[inline(never)]
fn frame_upwards(
    arena: &CowArena,
    lists: &PageLists,
    jumps: &JumpTable,
    leaf: NodeId,
    page: PageNo,
) -> Option<Tag>
    requires forest { IsForest (nodes_of arena.now) arena.now.lists }
    requires jumps { (next : ℕ) × AreJumps (tree_of arena.now lists.now) next jumps.now }
    requires bare { IsSomeAnd (nodes_of arena.now leaf.0) (λ node. slots_of lists.now node.list.0 page ≡ None) }
    ensures { ShowsFrameOrNone (tree_of arena.now lists.now) leaf.0 page result }
{
    if arena.look(leaf).seen <= page {
        return None;
    }
    above_by_jumps(arena, lists, jumps, leaf, page).frame()
}

/// Returns what a page with this row of its own is.
fn look_in(slot: Slot) -> Look
    ensures { result ≡ look_in slot }
{
    match slot {
        Slot::Frame { tag, .. } => Look::Held { tag, sole: true },
        Slot::Zero => Look::Zero,
    }
}

/// Does what `look_at` does, by the walk upwards. The page has no row of its own.
#[inline(never)]
fn look_upwards(
    arena: &CowArena,
    lists: &PageLists,
    jumps: &JumpTable,
    leaf: NodeId,
    page: PageNo,
) -> Look
    requires exact { (in_use : ℕ → Bool) × IsExact (tree_of arena.now lists.now) all_in_sight in_use }
    requires jumps { (next : ℕ) × AreJumps (tree_of arena.now lists.now) next jumps.now }
    requires page { IsPage (tree_of arena.now lists.now) leaf.0 page }
    requires bare { IsSomeAnd (nodes_of arena.now leaf.0) (λ node. slots_of lists.now node.list.0 page ≡ None) }
    ensures { IsLook (tree_of arena.now lists.now) leaf.0 page result }
{
    if arena.look(leaf).seen <= page {
        return Look::Zero;
    }
    let found = above_by_jumps(arena, lists, jumps, leaf, page);
    look_found(arena, lists, leaf, page, found)
}

/// Does what `look_at` does, and counts the steps of the walk upwards: one look-up for each node to which it comes.
pub(crate) fn look_at_counted<L: Ledger>(
    arena: &CowArena,
    lists: &PageLists,
    jumps: &JumpTable,
    leaf: NodeId,
    page: PageNo,
    steps: &mut Steps<L>,
) -> Look
    requires exact { (in_use : ℕ → Bool) × IsExact (tree_of arena.now lists.now) all_in_sight in_use }
    requires jumps { (next : ℕ) × AreJumps (tree_of arena.now lists.now) next jumps.now }
    requires page { IsPage (tree_of arena.now lists.now) leaf.0 page }
    ensures look { IsLook (tree_of arena.now lists.now) leaf.0 page result }
    ensures cost { (most : ℕ) → IsMostOfLookUp (row_count lists.now) most →
        steps.new ≤ steps.old + depth (nodes_of arena.now) arena.now.lists leaf.0 * most }
{
    let found = holder_by_jumps_counted(arena, lists, jumps, leaf, page, steps);
    look_found(arena, lists, leaf, page, found)
}

/// Returns what a page of a VMO's node is. `found` is what `holder` answers for it.
fn look_found(
    arena: &CowArena,
    lists: &PageLists,
    leaf: NodeId,
    page: PageNo,
    found: Holder,
) -> Look
    requires exact { (in_use : ℕ → Bool) × IsExact (tree_of arena.now lists.now) all_in_sight in_use }
    requires page { IsPage (tree_of arena.now lists.now) leaf.0 page }
    requires found { found ≡ holder_of (walk (tree_of arena.now lists.now) leaf.0 page) }
    ensures { IsLook (tree_of arena.now lists.now) leaf.0 page result }
{
    match found {
        Holder::Own(Slot::Frame { tag, .. }) => Look::Held { tag, sole: true },
        Holder::Above {
            slot: Slot::Frame { tag, .. },
            ..
        } => Look::Held {
            tag,
            sole: is_last(arena, lists, leaf, page, found),
        },
        _ => Look::Zero,
    }
}

/// The most pages of a range that are looked at one by one. A look takes jumps, and a search goes through each node above. So a
/// short range behind a long chain costs looks alone, and a longer one a search for each gap between held pages.
const FEW_PAGES: u64 = 4;

/// Returns the first page from `from` to below `end` of a VMO's node that shows a frame. `None` if and only if none does. A search
/// ends at the first row that comes to a page at or behind `end`.
pub(crate) fn next_shown(
    arena: &CowArena,
    lists: &PageLists,
    jumps: &JumpTable,
    leaf: NodeId,
    from: PageNo,
    end: PageNo,
) -> Option<PageNo>
    requires exact { (in_use : ℕ → Bool) × IsExact (tree_of arena.now lists.now) all_in_sight in_use }
    requires jumps { (next : ℕ) × AreJumps (tree_of arena.now lists.now) next jumps.now }
    requires leaf { IsSomeAnd (nodes_of arena.now leaf.0) (λ node. IsSome node.koid) }
    ensures { IsFirstOrNone (shows_frame (tree_of arena.now lists.now) leaf.0) from end result }
{
    let few = end.min(from.saturating_add(looks_of(arena, leaf, from, end)));
    if let Some(page) = first_shown(arena, lists, jumps, leaf, from, few) {
        return Some(page);
    }
    if few < end {
        next_shown_by_rows(arena, lists, jumps, leaf, few, end)
    } else {
        None
    }
}

/// Returns how many pages of a range are looked at before a search: all of a short range, unless the node is a root, and otherwise
/// the first.
fn looks_of(arena: &CowArena, leaf: NodeId, from: PageNo, end: PageNo) -> u64
    requires { IsSome (nodes_of arena.now leaf.0) }
{
    if end.saturating_sub(from) <= FEW_PAGES && arena.look(leaf).parent.is_some() {
        FEW_PAGES
    } else {
        1
    }
}

/// Does what `next_shown` does, by a look at each page.
fn first_shown(
    arena: &CowArena,
    lists: &PageLists,
    jumps: &JumpTable,
    leaf: NodeId,
    from: PageNo,
    end: PageNo,
) -> Option<PageNo>
    requires exact { (in_use : ℕ → Bool) × IsExact (tree_of arena.now lists.now) all_in_sight in_use }
    requires jumps { (next : ℕ) × AreJumps (tree_of arena.now lists.now) next jumps.now }
    requires leaf { IsSomeAnd (nodes_of arena.now leaf.0) (λ node. IsSome node.koid) }
    ensures { IsFirstOrNone (shows_frame (tree_of arena.now lists.now) leaf.0) from end result }
{
    let mut page = from;
    while page < end {
        if shown_frame(arena, lists, jumps, leaf, page).is_some() {
            return Some(page);
        }
        page += 1;
    }
    None
}

/// Does what `next_shown` does, by the rows of the node and of the nodes above.
fn next_shown_by_rows(
    arena: &CowArena,
    lists: &PageLists,
    jumps: &JumpTable,
    leaf: NodeId,
    from: PageNo,
    end: PageNo,
) -> Option<PageNo>
    requires exact { (in_use : ℕ → Bool) × IsExact (tree_of arena.now lists.now) all_in_sight in_use }
    requires jumps { (next : ℕ) × AreJumps (tree_of arena.now lists.now) next jumps.now }
    requires leaf { IsSomeAnd (nodes_of arena.now leaf.0) (λ node. IsSome node.koid) }
    ensures { IsFirstOrNone (shows_frame (tree_of arena.now lists.now) leaf.0) from end result }
{
    let mut at = from;
    while let Some(page) = next_row(arena, lists, leaf, at) {
        if page >= end {
            return None;
        }
        if holder_by_jumps(arena, lists, jumps, leaf, page)
            .frame()
            .is_some()
        {
            return Some(page);
        }
        at = page + 1;
    }
    None
}

/// Does what `next_shown` does, but returns `end` if there is no such page.
pub(crate) fn next_shown_or_end(
    arena: &CowArena,
    lists: &PageLists,
    jumps: &JumpTable,
    leaf: NodeId,
    from: PageNo,
    end: PageNo,
) -> PageNo
    requires exact { (in_use : ℕ → Bool) × IsExact (tree_of arena.now lists.now) all_in_sight in_use }
    requires jumps { (next : ℕ) × AreJumps (tree_of arena.now lists.now) next jumps.now }
    requires leaf { IsSomeAnd (nodes_of arena.now leaf.0) (λ node. IsSome node.koid) }
    requires order { from ≤ end }
    ensures range { (from ≤ result) × (result ≤ end) }
    ensures none { HasNone (shows_frame (tree_of arena.now lists.now) leaf.0) from result }
{
    match next_shown(arena, lists, jumps, leaf, from, end) {
        Some(page) => page,
        None => end,
    }
}

/// Returns the first page from `from` on of a VMO's node that comes to a row, of the node or of one above it. No page
/// before it shows a frame.
fn next_row(arena: &CowArena, lists: &PageLists, leaf: NodeId, from: PageNo) -> Option<PageNo>
    requires exact { (in_use : ℕ → Bool) × IsExact (tree_of arena.now lists.now) all_in_sight in_use }
    requires leaf { IsSomeAnd (nodes_of arena.now leaf.0) (λ node. IsSome node.koid) }
    ensures some { IfSome result (λ page. (from ≤ page) × IsPage (tree_of arena.now lists.now) leaf.0 page
        × HasNone (shows_frame (tree_of arena.now lists.now) leaf.0) from page) }
    ensures none { IfNone result ((end : ℕ) → HasNone (shows_frame (tree_of arena.now lists.now) leaf.0) from end) }
    ensures fits { IfSome result (λ page. page + 1 < 2 ^ 64) }
{
    let mut at = arena.node(leaf);
    let mut here = from;
    let mut to = at.count;
    let mut best = None;
    loop {
        let row = next_below(lists, at.list, here, to);
        best = nearer(best, row, here - from);
        let end = row.unwrap_or(to).min(at.seen);
        if end <= here {
            return best;
        }
        let Some(parent) = at.parent else {
            return best;
        };
        let above = arena.node(parent);
        prove!(above.count <= u64::MAX);
        here += at.first;
        to = end + at.first;
        at = above;
    }
}

/// Returns the least page of a list from `from` to below `to` that has a row.
fn next_below(lists: &PageLists, list: ListId, from: PageNo, to: PageNo) -> Option<PageNo>
    ensures { IsFirstOrNone (has_row (slots_of lists.now list.0)) from to result }
{
    let row = lists.next(list, from)?;
    if row < to { Some(row) } else { None }
}

/// Returns the page that comes to this row, which is `shift` pages further on. If there is no row, returns the best
/// page so far.
fn nearer(best: Option<PageNo>, row: Option<PageNo>, shift: PageNo) -> Option<PageNo>
    requires { IfSome row (λ page. shift ≤ page) }
    ensures { result ≡ nearer_page best row shift }
{
    match row {
        Some(page) => Some(page - shift),
        None => best,
    }
}
