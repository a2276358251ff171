//! The clone tree: the steps of its calls, and its hidden nodes.

ghost use Rattle.std.specs.Prelude.{◌≡◌, ℕ, ◌+◌, ◌-◌, ◌^◌, ◌<◌, ◌≤◌, None, IsSome, IsSomeAnd};
ghost use Rattle.vm_model.specs.Contents.Content.{pages_of, vmos_of};
ghost use Rattle.page_list.specs.Lists.{slots_of, row_count};
ghost use Rattle.cow_arena.specs.Nodes.{nodes_of, link_to};
ghost use Rattle.cow_arena.specs.Forest.{IsChild};
ghost use Rattle.cow_split.specs.Cost.{IsMostOfLookUp, depth};
ghost use Rattle.cow_split.specs.Trees.{tree_of};
ghost use Rattle.cow_split.specs.Exact.{IsExact, all_in_sight};
ghost use Rattle.frame_pool.specs.Pool.{is_taken};
ghost use Rattle.page_store.specs.Held.{held_from};
ghost use Rattle.cow_forest.specs.Tables.{node_in};
ghost use Rattle.cow_forest.specs.Store.{tree, forest_content};
ghost use Rattle.cow_forest.specs.Ranges.{rows_reached};

use cow_arena::{CowArena, NodeId};
use cow_forest::CowForest;
use frame_pool::FramePool;
use page_list::{ListId, PageLists, Slot, Steps};
use page_store::Look;
use std::sync::ledger::Ledger;
use vm_base::Koid;

/// States that a row is put beside two others in at most 64 steps.
pub fn a_third_row_comes_in_few_steps<L: Ledger>(lists: &mut PageLists, steps: &mut Steps<L>)
    requires rows { row_count lists.old ≡ 2 }
    requires absent { slots_of lists.old 1 7 ≡ None }
    requires room { 1 ≤ lists.old.spare }
    ensures { 2 ^ (steps.new - steps.old) ≤ 2 ^ 64 }
{
    lists.insert_counted(ListId(1), 7, Slot::Zero, steps);
}

/// States that one of two rows is taken out in at most 64 steps.
pub fn one_of_two_rows_goes_in_few_steps<L: Ledger>(
    lists: &mut PageLists,
    steps: &mut Steps<L>,
) -> Slot
    requires rows { row_count lists.old ≡ 2 }
    requires row { IsSome (slots_of lists.old 1 7) }
    ensures { 2 ^ (steps.new - steps.old) ≤ 2 ^ 64 }
{
    lists.remove_counted(ListId(1), 7, steps)
}

/// States that a page of a VMO whose node has no parent is found by one look-up.
pub fn a_page_without_a_parent_takes_one_look_up<L: Ledger>(
    forest: &CowForest,
    steps: &mut Steps<L>,
) -> Look
    requires page { 0 < pages_of (forest_content forest.now) 1 }
    requires root { (k : ℕ) → node_in forest.now.nodes 1 ≡ link_to k →
        depth (nodes_of forest.now.arena) forest.now.arena.lists k ≡ 1 }
    ensures { (most k : ℕ) → IsMostOfLookUp (row_count forest.now.rows) most → node_in forest.now.nodes 1 ≡ link_to k →
        steps.new ≤ steps.old + most }
{
    forest.look_counted(Koid(1), 0, steps)
}

/// States that eight pages that reach no row are made zero in one step, if the VMO's node has no parent.
pub fn pages_without_rows_are_made_zero_in_one_step<L: Ledger>(
    forest: &mut CowForest,
    steps: &mut Steps<L>,
)
    requires vmo { IsSome ((forest_content forest.old).count 1) }
    requires range { 8 ≤ pages_of (forest_content forest.old) 1 }
    requires room { held_from (forest_content forest.old) 1 0 8 ≤ forest.old.rows.spare }
    requires root { (k : ℕ) → node_in forest.old.nodes 1 ≡ link_to k →
        depth (nodes_of forest.old.arena) forest.old.arena.lists k ≡ 1 }
    requires bare { (k : ℕ) → rows_reached (tree forest.old) k 0 8 ≡ 0 }
    ensures { (k : ℕ) → node_in forest.old.nodes 1 ≡ link_to k → steps.new ≤ steps.old + 1 }
{
    forest.zero_range(Koid(1), 0, 8, steps);
}

/// States that a VMO that is the only one has no hidden node above it.
pub fn one_vmo_has_no_hidden_node(forest: &CowForest) -> u64
    requires { vmos_of (forest_content forest.now) ≡ 1 }
    ensures { result ≡ 0 }
{
    forest.hidden()
}

/// States that the hidden node above a VMO that is closed goes with it.
pub fn a_close_leaves_no_hidden_node(
    arena: &mut CowArena,
    lists: &mut PageLists,
    frames: &mut FramePool,
    leaf: NodeId,
)
    requires exact { IsExact (tree_of arena.old lists.old) all_in_sight (is_taken frames.old) }
    requires leaf { IsSomeAnd (nodes_of arena.old leaf.0) (λ node. IsSome node.koid) }
    requires hidden { IsChild (nodes_of arena.old) 3 leaf.0 }
    ensures { nodes_of arena.new 3 ≡ None }
{
    cow_merge::close(arena, lists, frames, leaf);
}
