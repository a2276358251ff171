//! Making a page zero.

ghost use Rattle.std.specs.Prelude.{◌≡◌, ◌≢◌, ◌+◌, ◌≤◌, ℕ, true, false, None, Some, is_some, option_copied};
ghost use Rattle.vm_base.specs.declared.names.Tag.{Tag};
ghost use Rattle.vm_base.specs.Entries.{without_key};
ghost use Rattle.balanced_tree.specs.Pairs.{with_pair};
ghost use Rattle.page_list.specs.declared.row.Slot.TheVariants as slot;
ghost use Rattle.page_list.specs.Lists.{slots_of, row_count};
ghost use Rattle.frame_pool.specs.Pool.{taken_frames, is_taken, links_of};
ghost use Rattle.cow_arena.specs.declared.node.Node.{Node};
ghost use Rattle.cow_arena.specs.Nodes.{nodes_of};
ghost use Rattle.cow_arena.specs.Walk.{frame_shown};
ghost use Rattle.cow_arena.specs.Ways.{IsPartOf};
ghost use Rattle.cow_arena.specs.Forest.{IsForest};
ghost use Rattle.cow_split.specs.Trees.{tree_of, frame_held};
ghost use Rattle.cow_split.specs.Sight.{IsPage, ShowsSame, IsNotPage};
ghost use Rattle.cow_split.specs.Exact.{IsExact, all_in_sight, leaving_out};
ghost use Rattle.cow_split.specs.declared.answers.Cut.TheVariants as cut;
ghost use Rattle.cow_jump.specs.Jumps.{AreJumps, MayJump};
ghost use Rattle.cow_fork.specs.Frames.{GivesSole, LeavesFrame};
ghost use Rattle.cow_fork.specs.Zeroing.{HasZeroed, IsNeeded};

use cow_arena::{CowArena, NodeId};
use cow_jump::{JumpTable, above_with};
use cow_split::{Cut, Holder, cut_holder};
use frame_pool::FramePool;
use page_list::{PageLists, Slot};
use vm_base::PageNo;

/// Makes a page of a VMO's node zero. A frame that no other VMO shows is given back. A row that says zero is added only
/// if the page would otherwise show the frame of a row above it. If the page is zero, nothing changes. The call takes
/// no memory, and room for one row at most.
///
/// The tree is exact over the frames that are taken, before and after. Every other page shows what it showed.
pub fn mark_zero(
    arena: &CowArena,
    lists: &mut PageLists,
    frames: &mut FramePool,
    leaf: NodeId,
    page: PageNo,
)
    requires exact { IsExact (tree_of arena.now lists.old) all_in_sight (is_taken frames.old) }
    requires page { IsPage (tree_of arena.now lists.old) leaf.0 page }
    requires room { 1 ≤ lists.old.spare }
    ensures zeroed { HasZeroed arena.now lists.old lists.new frames.old frames.new leaf.0 page (page + 1) }
    ensures zero { frame_shown (tree_of arena.now lists.new) leaf.0 page ≡ None }
    ensures given { GivesSole (tree_of arena.now lists.old) leaf.0 page frames.old frames.new }
    ensures spare { lists.old.spare ≤ lists.new.spare + 1 }
    ensures same { frame_shown (tree_of arena.now lists.old) leaf.0 page ≡ None →
        (slots_of lists.new ≡ slots_of lists.old) × (row_count lists.new ≡ row_count lists.old) × (lists.new.spare ≡ lists.old.spare) }
    ensures needed { frame_shown (tree_of arena.now lists.old) leaf.0 page ≢ None → IsNeeded arena.now lists.new leaf.0 page }
{
    zero_with(arena, lists, frames, None, leaf, page);
}

/// Does what `mark_zero` does, and goes up to rows by jumps where they serve. Room for a row is needed only if the page shows a
/// frame. Returns whether it did.
pub fn zero_by_jumps(
    arena: &CowArena,
    lists: &mut PageLists,
    frames: &mut FramePool,
    jumps: &JumpTable,
    leaf: NodeId,
    page: PageNo,
) -> bool
    requires exact { IsExact (tree_of arena.now lists.old) all_in_sight (is_taken frames.old) }
    requires page { IsPage (tree_of arena.now lists.old) leaf.0 page }
    requires room { frame_shown (tree_of arena.now lists.old) leaf.0 page ≢ None → 1 ≤ lists.old.spare }
    requires jumps { (next : ℕ) × AreJumps (tree_of arena.now lists.old) next jumps.now }
    ensures zeroed { HasZeroed arena.now lists.old lists.new frames.old frames.new leaf.0 page (page + 1) }
    ensures zero { frame_shown (tree_of arena.now lists.new) leaf.0 page ≡ None }
    ensures given { GivesSole (tree_of arena.now lists.old) leaf.0 page frames.old frames.new }
    ensures spare { lists.old.spare ≤ lists.new.spare + 1 }
    ensures same { frame_shown (tree_of arena.now lists.old) leaf.0 page ≡ None →
        (slots_of lists.new ≡ slots_of lists.old) × (row_count lists.new ≡ row_count lists.old) × (lists.new.spare ≡ lists.old.spare) }
    ensures needed { frame_shown (tree_of arena.now lists.old) leaf.0 page ≢ None → IsNeeded arena.now lists.new leaf.0 page }
    ensures held { result ≡ is_some (frame_shown (tree_of arena.now lists.old) leaf.0 page) }
{
    zero_with(arena, lists, frames, Some(jumps), leaf, page)
}

/// Makes a page of a VMO's node zero, by these jumps, if there are any. Returns whether it showed a frame.
fn zero_with(
    arena: &CowArena,
    lists: &mut PageLists,
    frames: &mut FramePool,
    jumps: Option<&JumpTable>,
    leaf: NodeId,
    page: PageNo,
) -> bool
    requires exact { IsExact (tree_of arena.now lists.old) all_in_sight (is_taken frames.old) }
    requires page { IsPage (tree_of arena.now lists.old) leaf.0 page }
    requires room { frame_shown (tree_of arena.now lists.old) leaf.0 page ≢ None → 1 ≤ lists.old.spare }
    requires jumps { MayJump (tree_of arena.now lists.old) (option_copied jumps) }
    ensures zeroed { HasZeroed arena.now lists.old lists.new frames.old frames.new leaf.0 page (page + 1) }
    ensures zero { frame_shown (tree_of arena.now lists.new) leaf.0 page ≡ None }
    ensures given { GivesSole (tree_of arena.now lists.old) leaf.0 page frames.old frames.new }
    ensures spare { lists.old.spare ≤ lists.new.spare + 1 }
    ensures same { frame_shown (tree_of arena.now lists.old) leaf.0 page ≡ None →
        (slots_of lists.new ≡ slots_of lists.old) × (row_count lists.new ≡ row_count lists.old) × (lists.new.spare ≡ lists.old.spare) }
    ensures needed { frame_shown (tree_of arena.now lists.old) leaf.0 page ≢ None → IsNeeded arena.now lists.new leaf.0 page }
    ensures held { result ≡ is_some (frame_shown (tree_of arena.now lists.old) leaf.0 page) }
{
    if !let_go(arena, lists, frames, jumps, leaf, page) {
        return false;
    }
    hide_above(arena, lists, jumps, leaf, page);
    true
}

/// Takes a page of a VMO's node out of sight, if it shows a frame: its own row goes, or it is cut off from the row above.
/// A frame that no other VMO shows is given back. Returns whether the page showed a frame. If it is zero, no row changes.
/// It takes no room.
fn let_go(
    arena: &CowArena,
    lists: &mut PageLists,
    frames: &mut FramePool,
    jumps: Option<&JumpTable>,
    leaf: NodeId,
    page: PageNo,
) -> bool
    requires exact { IsExact (tree_of arena.now lists.old) all_in_sight (is_taken frames.old) }
    requires page { IsPage (tree_of arena.now lists.old) leaf.0 page }
    requires jumps { MayJump (tree_of arena.now lists.old) (option_copied jumps) }
    ensures held { result ≡ is_some (frame_shown (tree_of arena.now lists.old) leaf.0 page) }
    ensures exact { result ≡ true → IsExact (tree_of arena.now lists.new) (leaving_out all_in_sight leaf.0 page) (is_taken frames.new) }
    ensures bare { result ≡ true → (node : Node) → nodes_of arena.now leaf.0 ≡ Some node → slots_of lists.new node.list.0 page ≡ None }
    ensures others { result ≡ true → ShowsSame (tree_of arena.now lists.old) (tree_of arena.now lists.new) (IsNotPage leaf.0 page) }
    ensures part { result ≡ true → IsPartOf (slots_of lists.old) (slots_of lists.new) }
    ensures given { result ≡ true → GivesSole (tree_of arena.now lists.old) leaf.0 page frames.old frames.new }
    ensures spare { result ≡ true → lists.old.spare ≤ lists.new.spare }
    ensures same { result ≡ false →
        (slots_of lists.new ≡ slots_of lists.old) × (row_count lists.new ≡ row_count lists.old) × (lists.new.spare ≡ lists.old.spare) }
    ensures pool { result ≡ false → frames.new ≡ frames.old }
{
    let list = arena.look(leaf).list;
    let Some(row) = lists.take(list, page) else {
        return cut_shown(arena, lists, frames, jumps, leaf, page);
    };
    match row {
        Slot::Frame { tag, .. } => {
            frames.give_back(tag);
            true
        }
        Slot::Zero => {
            lists.insert(list, page, Slot::Zero);
            false
        }
    }
}

/// Does what `let_go` does, with a page that has no row of its own.
fn cut_shown(
    arena: &CowArena,
    lists: &mut PageLists,
    frames: &mut FramePool,
    jumps: Option<&JumpTable>,
    leaf: NodeId,
    page: PageNo,
) -> bool
    requires exact { IsExact (tree_of arena.now lists.old) all_in_sight (is_taken frames.old) }
    requires page { IsPage (tree_of arena.now lists.old) leaf.0 page }
    requires bare { (node : Node) → nodes_of arena.now leaf.0 ≡ Some node → slots_of lists.old node.list.0 page ≡ None }
    requires jumps { MayJump (tree_of arena.now lists.old) (option_copied jumps) }
    ensures held { result ≡ is_some (frame_shown (tree_of arena.now lists.old) leaf.0 page) }
    ensures exact { result ≡ true → IsExact (tree_of arena.now lists.new) (leaving_out all_in_sight leaf.0 page) (is_taken frames.new) }
    ensures bare { result ≡ true → (node : Node) → nodes_of arena.now leaf.0 ≡ Some node → slots_of lists.new node.list.0 page ≡ None }
    ensures others { result ≡ true → ShowsSame (tree_of arena.now lists.old) (tree_of arena.now lists.new) (IsNotPage leaf.0 page) }
    ensures part { result ≡ true → IsPartOf (slots_of lists.old) (slots_of lists.new) }
    ensures given { result ≡ true → GivesSole (tree_of arena.now lists.old) leaf.0 page frames.old frames.new }
    ensures spare { result ≡ true → lists.old.spare ≤ lists.new.spare }
    ensures same { result ≡ false → (lists.new ≡ lists.old) × (frames.new ≡ frames.old) }
{
    let found = above_with(arena, lists, jumps, leaf, page);
    if !has_frame(found) {
        return false;
    }
    let answer = cut_holder(arena, lists, leaf, page, found);
    give_left(frames, answer);
    true
}

/// Returns whether a page shows a frame.
pub(crate) fn has_frame(found: Holder) -> bool
    ensures { result ≡ is_some (frame_held found) }
{
    found.frame().is_some()
}

/// Gives back the frame that an answer leaves to its caller, if it leaves one.
fn give_left(frames: &mut FramePool, answer: Cut)
    requires { (tag : Tag) → answer ≡ cut.LastViewer tag → is_taken frames.old tag.0 ≡ true }
    ensures given { (tag : Tag) → answer ≡ cut.LastViewer tag →
        taken_frames frames.new ≡ without_key (taken_frames frames.old) tag.0 }
    ensures kept { (LeavesFrame answer → ⊥) → frames.new ≡ frames.old }
    ensures links { links_of frames.new ≡ links_of frames.old }
    ensures frames { frames.new.frames ≡ frames.old.frames }
{
    if let Cut::LastViewer(tag) = answer {
        frames.give_back(tag);
    }
}

/// Brings a page that was left out of sight back into sight as a page of zeros. If a row above shows a frame there, the
/// page gets a row that says zero.
fn hide_above(
    arena: &CowArena,
    lists: &mut PageLists,
    jumps: Option<&JumpTable>,
    leaf: NodeId,
    page: PageNo,
)
    requires forest { IsForest (nodes_of arena.now) arena.now.lists }
    requires page { IsPage (tree_of arena.now lists.old) leaf.0 page }
    requires bare { (node : Node) → nodes_of arena.now leaf.0 ≡ Some node → slots_of lists.old node.list.0 page ≡ None }
    requires room { 1 ≤ lists.old.spare }
    requires jumps { MayJump (tree_of arena.now lists.old) (option_copied jumps) }
    ensures same { frame_shown (tree_of arena.now lists.old) leaf.0 page ≡ None → lists.new ≡ lists.old }
    ensures marked { frame_shown (tree_of arena.now lists.old) leaf.0 page ≢ None → (node : Node) → nodes_of arena.now leaf.0 ≡ Some node →
        (slots_of lists.new ≡ with_pair (slots_of lists.old) node.list.0 page (Some slot.Zero)) × (lists.new.spare + 1 ≡ lists.old.spare) }
{
    let above = above_with(arena, lists, jumps, leaf, page);
    if has_frame(above) {
        lists.insert(arena.look(leaf).list, page, Slot::Zero);
    }
}
