//! Giving a page a frame of its own.

ghost use Rattle.std.specs.Prelude.{◌≡◌, ◌≢◌, ◌⊎◌, ◌≤◌, ℕ, true, false, None, Some, IsSome};
ghost use Rattle.page_list.specs.declared.row.Slot.{Slot};
ghost use Rattle.page_list.specs.declared.row.Slot.TheVariants as slot;
ghost use Rattle.page_list.specs.Lists.{slots_of};
ghost use Rattle.frame_pool.specs.Pool.{Takes, frame_bytes, is_taken, links_of};
ghost use Rattle.vm_base.specs.declared.names.Tag.{Tag};
ghost use Rattle.vm_base.specs.Pages.{zeros};
ghost use Rattle.cow_arena.specs.declared.node.Node.{Node};
ghost use Rattle.cow_arena.specs.Nodes.{nodes_of};
ghost use Rattle.cow_arena.specs.Walk.{walk, frame_in};
ghost use Rattle.cow_arena.specs.Ways.{HadRow};
ghost use Rattle.cow_split.specs.Trees.{tree_of, holder_of, frame_held};
ghost use Rattle.cow_split.specs.Sight.{IsPage};
ghost use Rattle.cow_split.specs.Exact.{IsExact, all_in_sight};
ghost use Rattle.cow_split.specs.declared.answers.Cut.TheVariants as cut;
ghost use Rattle.cow_fork.specs.Frames.{bytes_shown, HasSole, HasFree, LeavesFrame};
ghost use Rattle.cow_fork.specs.Forking.{HasOwnRow, HasOwned};

use cow_arena::{CowArena, NodeId};
use cow_split::{Cut, Holder, cut_holder, holder};
use frame_pool::FramePool;
use page_list::{PageLists, Slot};
use vm_base::{PageNo, Tag};

/// Gives a page of a VMO's node a row of its own with a frame, and answers the frame. The page has no row of its own
/// with a frame before. If the VMO was the last one that showed the page's frame, this frame moves. Otherwise a free
/// frame is taken, and has the bytes that the page showed. The call takes no memory, and room for one row at most.
///
/// The tree is exact over the frames that are taken, before and after. Every other page shows what it showed.
pub fn fork(
    arena: &CowArena,
    lists: &mut PageLists,
    frames: &mut FramePool,
    leaf: NodeId,
    page: PageNo,
) -> Tag
    requires exact { IsExact (tree_of arena.now lists.old) all_in_sight (is_taken frames.old) }
    requires page { IsPage (tree_of arena.now lists.old) leaf.0 page }
    requires unowned { (node : Node) (row : Slot) → nodes_of arena.now leaf.0 ≡ Some node →
        slots_of lists.old node.list.0 page ≡ Some row → frame_in row ≡ None }
    requires room { 1 ≤ lists.old.spare }
    requires free { HasFree frames.old ⊎ HasSole (tree_of arena.now lists.old) leaf.0 page }
    ensures owned { HasOwned arena.now lists.old lists.new frames.old frames.new leaf.0 page result.0 }
    ensures row { HasOwnRow arena.now lists.new leaf.0 page result.0 }
    // each row with another frame had this frame there before, and no backlink changes
    ensures stood { (l q : ℕ) (row : Slot) (t : ℕ) → slots_of lists.new l q ≡ Some row → frame_in row ≡ Some t →
        t ≢ result.0 → HadRow (slots_of lists.old) l q row }
    ensures links { links_of frames.new ≡ links_of frames.old }
{
    let found = holder(arena, lists, leaf, page);
    fork_holder(arena, lists, frames, leaf, page, found)
}

/// Does what `fork` does. `found` is what `holder` answers for the page.
pub fn fork_holder(
    arena: &CowArena,
    lists: &mut PageLists,
    frames: &mut FramePool,
    leaf: NodeId,
    page: PageNo,
    found: Holder,
) -> Tag
    requires exact { IsExact (tree_of arena.now lists.old) all_in_sight (is_taken frames.old) }
    requires page { IsPage (tree_of arena.now lists.old) leaf.0 page }
    requires found { found ≡ holder_of (walk (tree_of arena.now lists.old) leaf.0 page) }
    requires unowned { (node : Node) (row : Slot) → nodes_of arena.now leaf.0 ≡ Some node →
        slots_of lists.old node.list.0 page ≡ Some row → frame_in row ≡ None }
    requires room { 1 ≤ lists.old.spare }
    requires free { HasFree frames.old ⊎ HasSole (tree_of arena.now lists.old) leaf.0 page }
    ensures owned { HasOwned arena.now lists.old lists.new frames.old frames.new leaf.0 page result.0 }
    ensures row { HasOwnRow arena.now lists.new leaf.0 page result.0 }
    // each row with another frame had this frame there before, and no backlink changes
    ensures stood { (l q : ℕ) (row : Slot) (t : ℕ) → slots_of lists.new l q ≡ Some row → frame_in row ≡ Some t →
        t ≢ result.0 → HadRow (slots_of lists.old) l q row }
    ensures links { links_of frames.new ≡ links_of frames.old }
{
    let list = arena.look(leaf).list;
    if let Holder::Own(_) = found {
        let tag = take_blank(frames);
        lists.replace(list, page, row_of(tag));
        return tag;
    }
    let answer = cut_holder(arena, lists, leaf, page, found);
    let tag = take_after(frames, found, answer);
    lists.insert(list, page, row_of(tag));
    tag
}

/// Returns the row of a page's own frame. Both bits are clear.
fn row_of(tag: Tag) -> Slot
    ensures { result ≡ slot.Frame tag false false }
{
    Slot::Frame {
        tag,
        left: false,
        right: false,
    }
}

/// Takes a free frame of zeros.
fn take_blank(frames: &mut FramePool) -> Tag
    requires { HasFree frames.old }
    ensures takes { Takes frames.old frames.new result.0 zeros }
    ensures links { links_of frames.new ≡ links_of frames.old }
    ensures frames { frames.new.frames ≡ frames.old.frames }
{
    match frames.take() {
        Some(tag) => tag,
        None => unreachable!(),
    }
}

/// Takes a free frame with the bytes of one that is taken.
fn take_copy(frames: &mut FramePool, from: Tag) -> Tag
    requires free { HasFree frames.old }
    requires taken { is_taken frames.old from.0 ≡ true }
    ensures takes { Takes frames.old frames.new result.0 (frame_bytes frames.old from.0) }
    ensures links { links_of frames.new ≡ links_of frames.old }
    ensures frames { frames.new.frames ≡ frames.old.frames }
{
    match frames.take_copy(from) {
        Some(tag) => tag,
        None => unreachable!(),
    }
}

/// Returns the frame for a page that was cut off from the row `found`. It is the row's frame, if no other VMO shows
/// that. Otherwise it is a free frame with the bytes that the page showed.
fn take_after(frames: &mut FramePool, found: Holder, answer: Cut) -> Tag
    requires free { HasFree frames.old ⊎ LeavesFrame answer }
    requires taken { (t : ℕ) → frame_held found ≡ Some t → is_taken frames.old t ≡ true }
    requires seen { answer ≡ cut.StillSeen → IsSome (frame_held found) }
    requires nothing { answer ≡ cut.NothingThere → frame_held found ≡ None }
    ensures last { (tag : Tag) → answer ≡ cut.LastViewer tag → (result ≡ tag) × (frames.new ≡ frames.old) }
    ensures taken { (LeavesFrame answer → ⊥) →
        Takes frames.old frames.new result.0 (bytes_shown frames.old (frame_held found)) }
    ensures links { links_of frames.new ≡ links_of frames.old }
    ensures frames { frames.new.frames ≡ frames.old.frames }
{
    match answer {
        Cut::LastViewer(tag) => tag,
        Cut::NothingThere => take_blank(frames),
        Cut::StillSeen => match found {
            Holder::Own(Slot::Frame { tag, .. })
            | Holder::Above {
                slot: Slot::Frame { tag, .. },
                ..
            } => take_copy(frames, tag),
            _ => unreachable!(),
        },
    }
}
