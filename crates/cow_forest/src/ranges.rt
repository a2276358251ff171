//! Making a range of pages zero, from row to row.

ghost use Rattle.std.specs.Prelude.{◌≡◌, ◌≢◌, ◌+◌, ◌<◌, ◌≤◌, ℕ, Bool, None, IsSome, IsSomeAnd};
ghost use Rattle.vm_base.specs.Search.{HasNone, IsFirstOrNone};
ghost use Rattle.page_list.specs.Lists.{slots_of, has_row};
ghost use Rattle.frame_pool.specs.Pool.{is_taken};
ghost use Rattle.cow_arena.specs.declared.node.Node.{Node};
ghost use Rattle.cow_arena.specs.Nodes.{nodes_of};
ghost use Rattle.cow_arena.specs.Walk.{frame_shown, shows_frame};
ghost use Rattle.cow_split.specs.Trees.{tree_of};
ghost use Rattle.cow_split.specs.Cost.{depth};
ghost use Rattle.cow_split.specs.Sight.{IsPage};
ghost use Rattle.cow_split.specs.Exact.{IsExact, all_in_sight};
ghost use Rattle.cow_jump.specs.Jumps.{AreJumps};
ghost use Rattle.cow_fork.specs.Zeroing.{HasZeroed};
ghost use Rattle.cow_forest.specs.Ranges.{rows_in, rows_reached, IsReadyToZero, HasNoFrame};

use crate::looking::next_shown_or_end;
use cow_arena::{CowArena, NodeId};
use cow_fork::zero_by_jumps;
use cow_jump::{JumpTable, holder_by_jumps};
use frame_pool::FramePool;
use page_list::{ListId, PageLists, Steps};
use std::sync::ledger::Ledger;
use vm_base::PageNo;

/// Makes the pages of a VMO's node from `first` to below `end` zero. It goes by the rows in reach: those of the node itself, and
/// then those of each node above it, on the pages to which the range comes through the windows. It takes one step for each of
/// these rows, and one for each node.
pub(crate) fn zero_pages<L: Ledger>(
    arena: &CowArena,
    lists: &mut PageLists,
    frames: &mut FramePool,
    jumps: &JumpTable,
    leaf: NodeId,
    first: PageNo,
    end: PageNo,
    steps: &mut Steps<L>,
)
    requires ready { IsReadyToZero arena.now lists.old frames.old leaf.0 first end }
    requires jumps { (next : ℕ) × AreJumps (tree_of arena.now lists.old) next jumps.now }
    ensures some { HasZeroed arena.now lists.old lists.new frames.old frames.new leaf.0 first end }
    ensures zero { HasNone (shows_frame (tree_of arena.now lists.new) leaf.0) first end }
    ensures cost { steps.new ≤ steps.old + rows_reached (tree_of arena.now lists.old) leaf.0 first end
        + depth (nodes_of arena.now) arena.now.lists leaf.0 }
{
    let mut at = arena.node(leaf);
    let mut here = first;
    let mut to = end;
    loop {
        zero_rows(
            arena, lists, frames, jumps, leaf, first, end, at.list, here, to, steps,
        );
        let stop = to.min(at.seen);
        if stop <= here {
            return;
        }
        let Some(parent) = at.parent else {
            return;
        };
        let above = arena.node(parent);
        prove!(above.count <= u64::MAX);
        here += at.first;
        to = stop + at.first;
        at = above;
    }
}

/// Pages of a VMO's node that are left, from `from` to below `end`. `in_row` says that held pages stood in a row before them, or
/// that there are none before. What they show does not depend on it.
#[derive(Clone, Copy)]
pub(crate) struct PageRun {
    pub from: PageNo,
    pub end: PageNo,
    pub in_row: bool,
}

/// Makes pages of a VMO's node zero, one after another. Behind a page that was not held the call goes on at the next one that
/// is.
pub(crate) fn zero_in_turn(
    arena: &CowArena,
    lists: &mut PageLists,
    frames: &mut FramePool,
    jumps: &JumpTable,
    leaf: NodeId,
    pages: PageRun,
)
    requires ready { IsReadyToZero arena.now lists.old frames.old leaf.0 pages.from pages.end }
    requires jumps { (next : ℕ) × AreJumps (tree_of arena.now lists.old) next jumps.now }
    ensures some { HasZeroed arena.now lists.old lists.new frames.old frames.new leaf.0 pages.from pages.end }
    ensures zero { HasNone (shows_frame (tree_of arena.now lists.new) leaf.0) pages.from pages.end }
{
    let mut run = first_to_zero(arena, lists, jumps, leaf, pages);
    while run.from < run.end {
        run = zero_next(arena, lists, frames, jumps, leaf, run);
    }
}

/// Returns the pages that are left behind those that are zero already. A root has few rows that say zero, since sweeps take them
/// out, and there no page is looked at.
fn first_to_zero(
    arena: &CowArena,
    lists: &PageLists,
    jumps: &JumpTable,
    leaf: NodeId,
    pages: PageRun,
) -> PageRun
    requires exact { (in_use : ℕ → Bool) × IsExact (tree_of arena.now lists.now) all_in_sight in_use }
    requires jumps { (next : ℕ) × AreJumps (tree_of arena.now lists.now) next jumps.now }
    requires leaf { IsSomeAnd (nodes_of arena.now leaf.0) (λ node. IsSome node.koid) }
    requires order { pages.from ≤ pages.end }
    ensures range { (pages.from ≤ result.from) × (result.from ≤ pages.end) × (result.end ≡ pages.end) }
    ensures none { HasNone (shows_frame (tree_of arena.now lists.now) leaf.0) pages.from result.from }
{
    if arena.look(leaf).parent.is_none() {
        return pages;
    }
    PageRun {
        from: next_shown_or_end(arena, lists, jumps, leaf, pages.from, pages.end),
        end: pages.end,
        in_row: true,
    }
}

/// Makes the first of some pages of a VMO's node zero, and returns those that are left behind it and behind others that are
/// zero. The next page that is held is searched for, unless held pages stand in a row.
fn zero_next(
    arena: &CowArena,
    lists: &mut PageLists,
    frames: &mut FramePool,
    jumps: &JumpTable,
    leaf: NodeId,
    pages: PageRun,
) -> PageRun
    requires exact { IsExact (tree_of arena.now lists.old) all_in_sight (is_taken frames.old) }
    requires page { IsPage (tree_of arena.now lists.old) leaf.0 pages.from }
    requires below { pages.from < pages.end }
    requires room { frame_shown (tree_of arena.now lists.old) leaf.0 pages.from ≢ None → 1 ≤ lists.old.spare }
    requires jumps { (next : ℕ) × AreJumps (tree_of arena.now lists.old) next jumps.now }
    ensures range { (pages.from < result.from) × (result.from ≤ pages.end) × (result.end ≡ pages.end) }
    ensures some { HasZeroed arena.now lists.old lists.new frames.old frames.new leaf.0 pages.from (pages.from + 1) }
    ensures zero { HasNone (shows_frame (tree_of arena.now lists.new) leaf.0) pages.from result.from }
{
    let behind = pages.from + 1;
    let held = zero_by_jumps(arena, lists, frames, jumps, leaf, pages.from);
    if held && pages.in_row {
        return PageRun {
            from: behind,
            end: pages.end,
            in_row: true,
        };
    }
    let next = next_shown_or_end(arena, lists, jumps, leaf, behind, pages.end);
    PageRun {
        from: next,
        end: pages.end,
        in_row: next == behind,
    }
}

/// Makes those pages of a VMO's node zero that come to the rows of a list on its pages from `here` to below `to`: the page that
/// is so far behind `first` as the row's page is behind `here`. It takes a step for each row, and one more.
fn zero_rows<L: Ledger>(
    arena: &CowArena,
    lists: &mut PageLists,
    frames: &mut FramePool,
    jumps: &JumpTable,
    leaf: NodeId,
    first: PageNo,
    end: PageNo,
    list: ListId,
    here: PageNo,
    to: PageNo,
    steps: &mut Steps<L>,
)
    requires ready { IsReadyToZero arena.now lists.old frames.old leaf.0 first end }
    requires jumps { (next : ℕ) × AreJumps (tree_of arena.now lists.old) next jumps.now }
    requires order { first ≤ here }
    requires within { (d : ℕ) → here + d < to → first + d < end }
    requires own { (node : Node) → nodes_of arena.now leaf.0 ≡ Some node → list.0 ≡ node.list.0 → here ≡ first }
    ensures some { HasZeroed arena.now lists.old lists.new frames.old frames.new leaf.0 first end }
    ensures passed { HasNoFrame (tree_of arena.now lists.new) leaf.0 first list.0 here to }
    ensures cost { steps.new ≤ steps.old + rows_in (slots_of lists.old list.0) here to + 1 }
{
    let mut from = here;
    while let Some(row) = next_counted_below(lists, list, from, to, steps) {
        zero_shown(arena, lists, frames, jumps, leaf, row - (here - first));
        from = row + 1;
    }
}

/// Does what `next_below` does, and counts a step for the call.
fn next_counted_below<L: Ledger>(
    lists: &PageLists,
    list: ListId,
    from: PageNo,
    to: PageNo,
    steps: &mut Steps<L>,
) -> Option<PageNo>
    ensures next { IsFirstOrNone (has_row (slots_of lists.now list.0)) from to result }
    ensures cost { steps.new ≡ steps.old + 1 }
{
    let row = lists.next_counted(list, from, steps)?;
    if row < to { Some(row) } else { None }
}

/// Makes a page of a VMO's node zero, if it shows a frame. There is room for a row then.
fn zero_shown(
    arena: &CowArena,
    lists: &mut PageLists,
    frames: &mut FramePool,
    jumps: &JumpTable,
    leaf: NodeId,
    page: PageNo,
)
    requires exact { IsExact (tree_of arena.now lists.old) all_in_sight (is_taken frames.old) }
    requires page { IsPage (tree_of arena.now lists.old) leaf.0 page }
    requires room { frame_shown (tree_of arena.now lists.old) leaf.0 page ≢ None → 1 ≤ lists.old.spare }
    requires jumps { (next : ℕ) × AreJumps (tree_of arena.now lists.old) next jumps.now }
    ensures some { HasZeroed arena.now lists.old lists.new frames.old frames.new leaf.0 page (page + 1) }
    ensures zero { frame_shown (tree_of arena.now lists.new) leaf.0 page ≡ None }
{
    if holder_by_jumps(arena, lists, jumps, leaf, page)
        .frame()
        .is_some()
    {
        zero_by_jumps(arena, lists, frames, jumps, leaf, page);
    }
}
