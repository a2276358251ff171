//! Owning a page before it is written.

ghost use Rattle.std.specs.Prelude.{◌≡◌, ◌≤◌, ◌⊎◌, ℕ, None, IsSomeAnd};
ghost use Rattle.frame_pool.specs.Pool.{is_taken};
ghost use Rattle.page_list.specs.Lists.{slots_of};
ghost use Rattle.cow_arena.specs.Nodes.{nodes_of};
ghost use Rattle.cow_arena.specs.Walk.{walk};
ghost use Rattle.page_list.specs.declared.row.Slot.TheVariants as slot;
ghost use Rattle.cow_split.specs.declared.answers.Holder.TheVariants as holder;
ghost use Rattle.cow_split.specs.Trees.{tree_of, holder_of};
ghost use Rattle.cow_split.specs.Sight.{IsPage};
ghost use Rattle.cow_split.specs.Exact.{IsExact, all_in_sight};
ghost use Rattle.cow_fork.specs.Frames.{HasSole, HasFree};
ghost use Rattle.cow_fork.specs.Forking.{HasOwnRow, HasOwned};
ghost use Rattle.cow_merge.specs.Ranges.{AreLinked};
ghost use Rattle.cow_jump.specs.Jumps.{AreJumps};
ghost use Rattle.cow_forest.specs.Owning.{own_frame};

use cow_arena::{CowArena, NodeId};
use cow_fork::fork_holder;
use cow_jump::{JumpTable, above_by_jumps};
use cow_split::Holder;
use frame_pool::{Backlink, FramePool};
use page_list::{PageLists, Slot};
use vm_base::{PageNo, Tag};

/// Gives a page of a VMO's node a frame that no other VMO shows, and answers this frame. A frame that the VMO shows
/// alone is kept. If there is room for a row, the page has a row of its own afterwards. Otherwise a page that is sole
/// stays where it stands.
#[inline(always)]
pub(crate) fn own_page(
    arena: &CowArena,
    lists: &mut PageLists,
    frames: &mut FramePool,
    jumps: &JumpTable,
    leaf: NodeId,
    page: PageNo,
) -> Tag
    requires exact { IsExact (tree_of arena.now lists.old) all_in_sight (is_taken frames.old) }
    requires jumps { (next : ℕ) × AreJumps (tree_of arena.now lists.old) next jumps.now }
    requires linked { AreLinked lists.old frames.old }
    requires page { IsPage (tree_of arena.now lists.old) leaf.0 page }
    requires room { HasSole (tree_of arena.now lists.old) leaf.0 page ⊎ ((1 ≤ lists.old.spare) × HasFree frames.old) }
    ensures owned { HasOwned arena.now lists.old lists.new frames.old frames.new leaf.0 page result.0 }
    ensures linked { AreLinked lists.new frames.new }
    ensures row { 1 ≤ lists.old.spare → HasOwnRow arena.now lists.new leaf.0 page result.0 }
{
    if let Some(row) = lists.find(arena.look(leaf).list, page) {
        return own_row(arena, lists, frames, leaf, page, row);
    }
    own_above(arena, lists, frames, jumps, leaf, page)
}

/// Does what `own_page` does for a page with this row of its own.
#[inline(always)]
fn own_row(
    arena: &CowArena,
    lists: &mut PageLists,
    frames: &mut FramePool,
    leaf: NodeId,
    page: PageNo,
    row: Slot,
) -> Tag
    requires exact { IsExact (tree_of arena.now lists.old) all_in_sight (is_taken frames.old) }
    requires linked { AreLinked lists.old frames.old }
    requires page { IsPage (tree_of arena.now lists.old) leaf.0 page }
    requires room { HasSole (tree_of arena.now lists.old) leaf.0 page ⊎ ((1 ≤ lists.old.spare) × HasFree frames.old) }
    requires found { holder.Own row ≡ holder_of (walk (tree_of arena.now lists.old) leaf.0 page) }
    ensures owned { HasOwned arena.now lists.old lists.new frames.old frames.new leaf.0 page result.0 }
    ensures linked { AreLinked lists.new frames.new }
    ensures row { 1 ≤ lists.old.spare → HasOwnRow arena.now lists.new leaf.0 page result.0 }
{
    match row {
        Slot::Frame { tag, .. } => tag,
        Slot::Zero => own_zero(arena, lists, frames, leaf, page),
    }
}

/// Does what `own_page` does for a page whose own row says zero. The function is not inlined, so that pages with a frame in
/// their own row pay nothing for it.
#[inline(never)]
fn own_zero(
    arena: &CowArena,
    lists: &mut PageLists,
    frames: &mut FramePool,
    leaf: NodeId,
    page: PageNo,
) -> Tag
    requires exact { IsExact (tree_of arena.now lists.old) all_in_sight (is_taken frames.old) }
    requires linked { AreLinked lists.old frames.old }
    requires page { IsPage (tree_of arena.now lists.old) leaf.0 page }
    requires room { HasSole (tree_of arena.now lists.old) leaf.0 page ⊎ ((1 ≤ lists.old.spare) × HasFree frames.old) }
    requires found { holder.Own slot.Zero ≡ holder_of (walk (tree_of arena.now lists.old) leaf.0 page) }
    ensures owned { HasOwned arena.now lists.old lists.new frames.old frames.new leaf.0 page result.0 }
    ensures linked { AreLinked lists.new frames.new }
    ensures row { 1 ≤ lists.old.spare → HasOwnRow arena.now lists.new leaf.0 page result.0 }
{
    own_found(arena, lists, frames, leaf, page, Holder::Own(Slot::Zero))
}

/// Does what `own_page` does for a page that has no row of its own. It is not inlined either.
#[inline(never)]
fn own_above(
    arena: &CowArena,
    lists: &mut PageLists,
    frames: &mut FramePool,
    jumps: &JumpTable,
    leaf: NodeId,
    page: PageNo,
) -> Tag
    requires exact { IsExact (tree_of arena.now lists.old) all_in_sight (is_taken frames.old) }
    requires jumps { (next : ℕ) × AreJumps (tree_of arena.now lists.old) next jumps.now }
    requires linked { AreLinked lists.old frames.old }
    requires page { IsPage (tree_of arena.now lists.old) leaf.0 page }
    requires room { HasSole (tree_of arena.now lists.old) leaf.0 page ⊎ ((1 ≤ lists.old.spare) × HasFree frames.old) }
    requires bare { IsSomeAnd (nodes_of arena.now leaf.0) (λ node. slots_of lists.old node.list.0 page ≡ None) }
    ensures owned { HasOwned arena.now lists.old lists.new frames.old frames.new leaf.0 page result.0 }
    ensures linked { AreLinked lists.new frames.new }
    ensures row { 1 ≤ lists.old.spare → HasOwnRow arena.now lists.new leaf.0 page result.0 }
{
    let found = above_by_jumps(arena, lists, jumps, leaf, page);
    own_found(arena, lists, frames, leaf, page, found)
}

/// Does what `own_page` does. `found` is what `holder` answers for the page. It is no row of the page's own with a
/// frame.
fn own_found(
    arena: &CowArena,
    lists: &mut PageLists,
    frames: &mut FramePool,
    leaf: NodeId,
    page: PageNo,
    found: Holder,
) -> Tag
    requires exact { IsExact (tree_of arena.now lists.old) all_in_sight (is_taken frames.old) }
    requires linked { AreLinked lists.old frames.old }
    requires page { IsPage (tree_of arena.now lists.old) leaf.0 page }
    requires room { HasSole (tree_of arena.now lists.old) leaf.0 page ⊎ ((1 ≤ lists.old.spare) × HasFree frames.old) }
    requires found { found ≡ holder_of (walk (tree_of arena.now lists.old) leaf.0 page) }
    requires bare { own_frame found ≡ None }
    ensures owned { HasOwned arena.now lists.old lists.new frames.old frames.new leaf.0 page result.0 }
    ensures linked { AreLinked lists.new frames.new }
    ensures row { 1 ≤ lists.old.spare → HasOwnRow arena.now lists.new leaf.0 page result.0 }
{
    if lists.spare() == 0 {
        return found.frame().unwrap();
    }
    let tag = fork_holder(arena, lists, frames, leaf, page, found);
    let list = arena.look(leaf).list.0;
    frames.set_backlink(tag, Backlink { list, page });
    tag
}
