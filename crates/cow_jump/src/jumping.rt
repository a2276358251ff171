//! Walks upwards by jumps, and the jumps that a snapshot makes.

ghost use Rattle.std.specs.Prelude.{◌≡◌, ◌+◌, ◌*◌, ◌<◌, ◌≤◌, ◌%◌, ℕ, None, Some, IsSome, IsSomeAnd, IfSome, IfNone, option_copied};
ghost use Rattle.std.specs.Int.{bit_at};
ghost use Rattle.page_list.specs.Lists.{row_count, slots_of};
ghost use Rattle.cow_arena.specs.declared.node.Node.{Node};
ghost use Rattle.cow_arena.specs.Nodes.{nodes_of};
ghost use Rattle.cow_arena.specs.Walk.{walk};
ghost use Rattle.cow_arena.specs.Ways.{Rises};
ghost use Rattle.cow_arena.specs.Forest.{IsForest};
ghost use Rattle.cow_split.specs.Trees.{tree_of, holder_of};
ghost use Rattle.cow_split.specs.Cost.{IsMostOfLookUp, depth};
ghost use Rattle.cow_jump.specs.Jumps.{serial_in, IsJump, AreJumps, MayJump, ArePairRetired};
ghost use Rattle.cow_jump.specs.inside.Table.{IsNewJump};

use crate::jumps::{Jump, JumpTable, Place};
use cow_arena::{CowArena, NodeId};
use cow_split::{Holder, holder_above};
use page_list::{ListId, PageLists, Steps};
use std::marker::Brand;
use std::sync::ledger::{Blank, Ledger};
use vm_base::PageNo;

/// Returns the first row on the walk from a page of a node upwards, within the windows. `Nothing` exactly if there is none.
/// The walk takes jumps if they serve.
#[inline(always)]
pub fn holder_by_jumps(
    arena: &CowArena,
    lists: &PageLists,
    jumps: &JumpTable,
    leaf: NodeId,
    page: PageNo,
) -> Holder
    requires forest { IsForest (nodes_of arena.now) arena.now.lists }
    requires node { IsSome (nodes_of arena.now leaf.0) }
    requires jumps { (next : ℕ) × AreJumps (tree_of arena.now lists.now) next jumps.now }
    ensures { result ≡ holder_of (walk (tree_of arena.now lists.now) leaf.0 page) }
{
    if let Some(slot) = lists.find(arena.look(leaf).list, page) {
        return Holder::Own(slot);
    }
    above_by_jumps(arena, lists, jumps, leaf, page)
}

/// Does what `holder_by_jumps` does for a page that has no row of its own, with no look-up in the node's own list.
#[inline(never)]
pub fn above_by_jumps(
    arena: &CowArena,
    lists: &PageLists,
    jumps: &JumpTable,
    leaf: NodeId,
    page: PageNo,
) -> Holder
    requires forest { IsForest (nodes_of arena.now) arena.now.lists }
    requires bare { IsSomeAnd (nodes_of arena.now leaf.0) (λ node. slots_of lists.now node.list.0 page ≡ None) }
    requires jumps { (next : ℕ) × AreJumps (tree_of arena.now lists.now) next jumps.now }
    ensures { result ≡ holder_of (walk (tree_of arena.now lists.now) leaf.0 page) }
{
    rise_with::<Brand>(arena, lists, jumps, leaf, page, Blank::new(1))
}

/// Does what `above_by_jumps` does. Without jumps the walk goes up step by step.
pub fn above_with(
    arena: &CowArena,
    lists: &PageLists,
    jumps: Option<&JumpTable>,
    leaf: NodeId,
    page: PageNo,
) -> Holder
    requires forest { IsForest (nodes_of arena.now) arena.now.lists }
    requires bare { IsSomeAnd (nodes_of arena.now leaf.0) (λ node. slots_of lists.now node.list.0 page ≡ None) }
    requires jumps { MayJump (tree_of arena.now lists.now) (option_copied jumps) }
    ensures { result ≡ holder_of (walk (tree_of arena.now lists.now) leaf.0 page) }
{
    match jumps {
        Some(jumps) => above_by_jumps(arena, lists, jumps, leaf, page),
        None => holder_above(arena, lists, leaf, page),
    }
}

/// Does what `above_by_jumps` does, over a count that is thrown away.
fn rise_with<L: Ledger>(
    arena: &CowArena,
    lists: &PageLists,
    jumps: &JumpTable,
    leaf: NodeId,
    page: PageNo,
    blank: Blank,
) -> Holder
    requires ledger { (blank.name ≡ L.name) × (blank.parts ≡ L.parts) × (0 < blank.parts) }
    requires forest { IsForest (nodes_of arena.now) arena.now.lists }
    requires bare { IsSomeAnd (nodes_of arena.now leaf.0) (λ node. slots_of lists.now node.list.0 page ≡ None) }
    requires jumps { (next : ℕ) × AreJumps (tree_of arena.now lists.now) next jumps.now }
    ensures { result ≡ holder_of (walk (tree_of arena.now lists.now) leaf.0 page) }
{
    let mut steps = Steps::<L>::new(blank);
    rise(arena, lists, jumps, leaf, page, &mut steps)
}

/// Does what `holder_by_jumps` does, and counts the steps of its look-ups in the lists: one look-up for each node to which it
/// comes, and none for those that it jumps over.
pub fn holder_by_jumps_counted<L: Ledger>(
    arena: &CowArena,
    lists: &PageLists,
    jumps: &JumpTable,
    leaf: NodeId,
    page: PageNo,
    steps: &mut Steps<L>,
) -> Holder
    requires forest { IsForest (nodes_of arena.now) arena.now.lists }
    requires node { IsSome (nodes_of arena.now leaf.0) }
    requires jumps { (next : ℕ) × AreJumps (tree_of arena.now lists.now) next jumps.now }
    ensures holder { result ≡ holder_of (walk (tree_of arena.now lists.now) leaf.0 page) }
    ensures cost { (most : ℕ) → IsMostOfLookUp (row_count lists.now) most →
        steps.new ≤ steps.old + depth (nodes_of arena.now) arena.now.lists leaf.0 * most }
{
    if let Some(slot) = lists.find_counted(arena.look(leaf).list, page, steps) {
        return Holder::Own(slot);
    }
    rise(arena, lists, jumps, leaf, page, steps)
}

/// Goes up from a page that has no row in its node's list, by jumps if they serve, and counts the steps of a look-up for each
/// node to which it comes.
fn rise<L: Ledger>(
    arena: &CowArena,
    lists: &PageLists,
    jumps: &JumpTable,
    leaf: NodeId,
    page: PageNo,
    steps: &mut Steps<L>,
) -> Holder
    requires forest { IsForest (nodes_of arena.now) arena.now.lists }
    requires bare { IsSomeAnd (nodes_of arena.now leaf.0) (λ node. slots_of lists.now node.list.0 page ≡ None) }
    requires jumps { (next : ℕ) × AreJumps (tree_of arena.now lists.now) next jumps.now }
    ensures holder { result ≡ holder_of (walk (tree_of arena.now lists.now) leaf.0 page) }
    ensures cost { (most : ℕ) → IsMostOfLookUp (row_count lists.now) most →
        steps.new + most ≤ steps.old + depth (nodes_of arena.now) arena.now.lists leaf.0 * most }
{
    let mut at = leaf;
    let mut here = page;
    while let Some(place) = next_place(arena, lists, jumps, at, here) {
        let above = arena.look(place.node).list;
        if let Some(slot) = lists.find_counted(above, place.page, steps) {
            return Holder::Above {
                node: place.node,
                page: place.page,
                side: place.side,
                slot,
            };
        }
        at = place.node;
        here = place.page;
    }
    Holder::Nothing
}

/// Returns where a walk that goes on upwards from a page of a node comes to by the node's jump, if it has one that serves the
/// page, or by one step. `None` only if the page is outside the node's window.
#[inline(always)]
fn next_place(
    arena: &CowArena,
    lists: &PageLists,
    jumps: &JumpTable,
    at: NodeId,
    page: PageNo,
) -> Option<Place>
    requires forest { IsForest (nodes_of arena.now) arena.now.lists }
    requires node { IsSome (nodes_of arena.now at.0) }
    requires jumps { (next : ℕ) × AreJumps (tree_of arena.now lists.now) next jumps.now }
    ensures some { IfSome result (λ place. Rises (tree_of arena.now lists.now) at.0 page place.side place.node.0 place.page) }
    ensures none { IfNone result ((node : Node) → nodes_of arena.now at.0 ≡ Some node → node.seen ≤ page) }
{
    let node = arena.look(at);
    if node.seen <= page {
        return None;
    }
    if let Some(place) = jumps.take(at, page) {
        return Some(place);
    }
    let parent = node.parent?;
    let above = arena.look(parent);
    prove!(above.count <= u64::MAX);
    Some(Place {
        node: parent,
        page: page + node.first,
        side: above.side_of(at),
    })
}

/// Gives the two nodes below the hidden node of a snapshot their jumps, which had none.
pub fn note_pair(
    jumps: &mut JumpTable,
    arena: &CowArena,
    lists: &PageLists,
    hidden: NodeId,
    leaf: NodeId,
    child: NodeId,
)
    requires forest { IsForest (nodes_of arena.now) arena.now.lists }
    requires hidden { IsSome (nodes_of arena.now hidden.0) }
    requires leaf { IsSome (nodes_of arena.now leaf.0) }
    requires child { IsSome (nodes_of arena.now child.0) }
    requires jumps { (next : ℕ) × AreJumps (tree_of arena.now lists.now) next jumps.old }
    ensures { (next : ℕ) → AreJumps (tree_of arena.now lists.now) next jumps.old →
        AreJumps (tree_of arena.now lists.now) next jumps.new }
{
    let Some(further) = far_jump(arena, lists, jumps, hidden) else {
        return;
    };
    note_jump(jumps, arena, lists, leaf, hidden, further);
    note_jump(jumps, arena, lists, child, hidden, further);
}

/// Gives a node a jump anew, if it has none that is to be taken, since the node to which its own led is gone. It leads as far as
/// the jump or the step of its parent, and the jump or the step from there.
pub fn renew_jump(jumps: &mut JumpTable, arena: &CowArena, lists: &PageLists, at: NodeId)
    requires forest { IsForest (nodes_of arena.now) arena.now.lists }
    requires node { IsSome (nodes_of arena.now at.0) }
    requires jumps { (next : ℕ) × AreJumps (tree_of arena.now lists.now) next jumps.old }
    ensures { (next : ℕ) → AreJumps (tree_of arena.now lists.now) next jumps.old →
        AreJumps (tree_of arena.now lists.now) next jumps.new }
{
    if jumps.get(at).is_some() {
        return;
    }
    let Some(parent) = arena.look(at).parent else {
        return;
    };
    let Some(further) = way_of(arena, lists, jumps, parent) else {
        return;
    };
    note_jump(jumps, arena, lists, at, parent, further);
}

/// Lets no jump to a node that goes be taken from now on, nor to its parent, which goes with it.
pub fn retire_pair(jumps: &mut JumpTable, arena: &CowArena, leaf: NodeId)
    requires { IsSome (nodes_of arena.now leaf.0) }
    ensures { ArePairRetired (nodes_of arena.now) jumps.old jumps.new leaf.0 }
{
    jumps.retire(leaf);
    if let Some(parent) = arena.look(leaf).parent {
        jumps.retire(parent);
    }
}

/// Gives a child of a hidden node a jump as far as `further` leads from there, if one can be made.
fn note_jump(
    jumps: &mut JumpTable,
    arena: &CowArena,
    lists: &PageLists,
    at: NodeId,
    hidden: NodeId,
    further: Jump,
)
    requires forest { IsForest (nodes_of arena.now) arena.now.lists }
    requires node { IsSome (nodes_of arena.now at.0) }
    requires further { IsNewJump (tree_of arena.now lists.now) jumps.old hidden.0 further }
    requires to { IsSome (nodes_of arena.now further.to.0) }
    ensures jumps { (next : ℕ) → AreJumps (tree_of arena.now lists.now) next jumps.old →
        AreJumps (tree_of arena.now lists.now) next jumps.new }
    ensures serials { (k : ℕ) → serial_in jumps.new k ≡ serial_in jumps.old k }
{
    let Some(step) = step_of(arena, lists, jumps, at) else {
        return;
    };
    if step.to.0 != hidden.0 {
        return;
    }
    let jump = joined(arena, lists, at, step, further);
    jumps.set(at, jump);
}

/// Returns the way from a node as far as its jump or step and the jump or step from there lead, where these two lead over as
/// many nodes. The jump of a child of the node leads as far.
fn far_jump(arena: &CowArena, lists: &PageLists, jumps: &JumpTable, at: NodeId) -> Option<Jump>
    requires forest { IsForest (nodes_of arena.now) arena.now.lists }
    requires node { IsSome (nodes_of arena.now at.0) }
    requires jumps { (next : ℕ) × AreJumps (tree_of arena.now lists.now) next jumps.now }
    ensures { IfSome result (λ jump. IsNewJump (tree_of arena.now lists.now) jumps.now at.0 jump × IsSome (nodes_of arena.now jump.to.0)) }
{
    let near = jump_of(arena, lists, jumps, at)?;
    let far = jump_of(arena, lists, jumps, near.to)?;
    if near.over != far.over {
        return None;
    }
    joined(arena, lists, at, near, far)
}

/// Returns the way from a node as far as its jump or step and the jump or step from there lead. If the two bar every page, it
/// is only the first of them.
fn way_of(arena: &CowArena, lists: &PageLists, jumps: &JumpTable, at: NodeId) -> Option<Jump>
    requires forest { IsForest (nodes_of arena.now) arena.now.lists }
    requires node { IsSome (nodes_of arena.now at.0) }
    requires jumps { (next : ℕ) × AreJumps (tree_of arena.now lists.now) next jumps.now }
    ensures { IfSome result (λ jump. IsNewJump (tree_of arena.now lists.now) jumps.now at.0 jump × IsSome (nodes_of arena.now jump.to.0)) }
{
    let near = jump_of(arena, lists, jumps, at)?;
    match two_jumps(arena, lists, jumps, at, near) {
        Some(both) if both.barred != u64::MAX => Some(both),
        _ => Some(near),
    }
}

/// Returns a jump or a step of a node, and the jump or the step from there, as one.
fn two_jumps(
    arena: &CowArena,
    lists: &PageLists,
    jumps: &JumpTable,
    at: NodeId,
    near: Jump,
) -> Option<Jump>
    requires forest { IsForest (nodes_of arena.now) arena.now.lists }
    requires jumps { (next : ℕ) × AreJumps (tree_of arena.now lists.now) next jumps.now }
    requires near { IsNewJump (tree_of arena.now lists.now) jumps.now at.0 near }
    requires to { IsSome (nodes_of arena.now near.to.0) }
    ensures { IfSome result (λ jump. IsNewJump (tree_of arena.now lists.now) jumps.now at.0 jump × IsSome (nodes_of arena.now jump.to.0)) }
{
    let far = jump_of(arena, lists, jumps, near.to)?;
    joined(arena, lists, at, near, far)
}

/// Returns the jump of a node that sees some page, or else its step.
fn jump_of(arena: &CowArena, lists: &PageLists, jumps: &JumpTable, at: NodeId) -> Option<Jump>
    requires forest { IsForest (nodes_of arena.now) arena.now.lists }
    requires node { IsSome (nodes_of arena.now at.0) }
    requires jumps { (next : ℕ) × AreJumps (tree_of arena.now lists.now) next jumps.now }
    ensures { IfSome result (λ jump. IsNewJump (tree_of arena.now lists.now) jumps.now at.0 jump × IsSome (nodes_of arena.now jump.to.0)) }
{
    if arena.look(at).seen == 0 {
        return None;
    }
    match jumps.get(at) {
        Some(jump) => Some(jump),
        None => step_of(arena, lists, jumps, at),
    }
}

/// Returns the step from a node to its parent, as a jump over one node. `None` if the node has no parent.
fn step_of(arena: &CowArena, lists: &PageLists, jumps: &JumpTable, at: NodeId) -> Option<Jump>
    requires forest { IsForest (nodes_of arena.now) arena.now.lists }
    requires node { IsSome (nodes_of arena.now at.0) }
    ensures { IfSome result (λ jump. IsNewJump (tree_of arena.now lists.now) jumps.now at.0 jump × IsSome (nodes_of arena.now jump.to.0)) }
{
    let node = arena.look(at);
    let parent = node.parent?;
    Some(Jump {
        to: parent,
        side: arena.look(parent).side_of(at),
        shift: node.first,
        end: node.seen,
        barred: 0,
        over: 1,
        serial: jumps.serial(parent),
    })
}

/// Returns a jump of a node, and one on from there, as one. It serves no page that the rows of the node between may hold.
/// `None` if the two serve no page in common.
fn joined(arena: &CowArena, lists: &PageLists, at: NodeId, jump: Jump, next: Jump) -> Option<Jump>
    requires node { IsSome (nodes_of arena.now jump.to.0) }
    requires jump { IsJump (tree_of arena.now lists.now) at.0 jump }
    requires next { IsJump (tree_of arena.now lists.now) jump.to.0 next }
    requires to { IsSome (nodes_of arena.now next.to.0) }
    ensures { IfSome result (λ both. IsJump (tree_of arena.now lists.now) at.0 both × (both.serial ≡ next.serial) × (both.to ≡ next.to)) }
{
    let node = arena.look(jump.to);
    let end = next.end.min(node.seen).checked_sub(jump.shift)?;
    let barred = row_pages(lists, node.list) | next.barred;
    Some(Jump {
        to: next.to,
        side: next.side,
        shift: jump.shift.checked_add(next.shift)?,
        end: end.min(jump.end),
        barred: jump.barred | turned(barred, jump.shift),
        over: jump.over.checked_add(next.over)?,
        serial: next.serial,
    })
}

/// Returns which pages of a list may have a row, by their numbers modulo 64. A list without rows has none, even if it shares
/// its word of the filter with lists that have some.
fn row_pages(lists: &PageLists, list: ListId) -> u64
    ensures { (page : ℕ) → bit_at result (page % 64) ≡ 0 → slots_of lists.now list.0 page ≡ None }
{
    if lists.next(list, 0).is_none() {
        return 0;
    }
    lists.pages(list)
}

/// Returns pages by their numbers modulo 64, as those of a node to which they come this many pages further on.
fn turned(pages: u64, shift: u64) -> u64
    ensures { (p : ℕ) → bit_at result (p % 64) ≡ 0 → bit_at pages ((p + shift) % 64) ≡ 0 }
{
    pages.rotate_right((shift % 64) as u32)
}
