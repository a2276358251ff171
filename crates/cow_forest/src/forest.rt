//! The clone tree as a store of pages.

ghost use Rattle.std.specs.Prelude.{◌≡◌, ℕ, ◌+◌, ◌*◌, ◌<◌, ◌≤◌, ◌⊎◌, true, IsSome, None, IfSome, IfOk, OnOk, OnErr};
ghost use Rattle.vm_base.specs.declared.limits.TheConstants.{VMO_PAGES, KOIDS};
ghost use Rattle.vm_model.specs.Contents.Content.{nothing, used, sole, pages_of, created, vmos_of};
ghost use Rattle.vm_model.specs.Contents.Owning.{Owns};
ghost use Rattle.vm_model.specs.Contents.Sharing.{snapshotted, without};
ghost use Rattle.vm_model.specs.Contents.Zeroing.{zeroed, resized};
ghost use Rattle.page_list.specs.Lists.{row_count};
ghost use Rattle.frame_pool.specs.Pool.{is_taken};
ghost use Rattle.cow_arena.specs.Nodes.{nodes_of, link_to};
ghost use Rattle.cow_arena.specs.Counts.{hidden_count, visible_count};
ghost use Rattle.cow_split.specs.Exact.{IsExact, all_in_sight};
ghost use Rattle.cow_split.specs.Cost.{IsMostOfLookUp, depth};
ghost use Rattle.page_store.specs.Pages.{look_at};
ghost use Rattle.page_store.specs.Held.{held_from};
ghost use Rattle.cow_forest.specs.Tables.{node_in};
ghost use Rattle.cow_forest.specs.Store.{Forest, tree, forest_content, IsStore};
ghost use Rattle.cow_fork.specs.Forking.{HasOwnRow};
ghost use Rattle.cow_forest.specs.Counting.{frame_row_count};
ghost use Rattle.cow_forest.specs.Ranges.{rows_reached};

use crate::founders::{FounderTable, Founders};
use crate::looking::{look_at, look_at_counted, next_shown, shown_frame, shows};
use crate::node_table::NodeTable;
use crate::owning::own_page;
use crate::ranges::{PageRun, zero_in_turn, zero_pages};
use crate::sweeps::{Sweeps, sweep_when_due};
use crate::tables::{disown, leave_other, make_room, renew_merged};
use crate::viewing::{elder_for, least_koid_of, lesser_koid_of, viewer_count_of};
use cow_arena::{CowArena, NodeId};
use cow_fork::{Snapshot, share, zero_by_jumps};
use cow_jump::{JumpTable, note_pair, retire_pair};
use cow_merge::{close_by_jumps, shrink_by_jumps};
use frame_pool::FramePool;
use page_list::{PageLists, Steps};
use page_store::{Look, PageStore};
use std::alloc::Global;
use std::marker::Model;
use std::sync::ledger::Ledger;
use vm_base::{HostMemory, Koid, PageNo, Tag};

/// A page store whose VMOs share their pages through the clone tree. A snapshot adds two nodes and no row, whatever its
/// VMO holds. When a VMO writes a page, the page changes its frame for this VMO alone. `spare` is the room for rows.
pub struct CowForest {
    arena: CowArena,
    lists: PageLists,
    /// The page frames. A frame is taken while some row has it, and its backlink leads to the row.
    frames: FramePool,
    /// The node of each VMO, by its koid.
    nodes: NodeTable,
    /// The node that has each list, by the list's number.
    owners: NodeTable,
    /// The koid of the next VMO. The first has koid 1, and none is given twice.
    next: u64,
    /// The number of VMOs.
    vmos: u64,
    /// Ways upwards over many nodes. Contracts do not see them.
    jumps: JumpTable,
    /// The founders of the hidden nodes. Contracts do not see them.
    founders: FounderTable,
    /// When the rows that say zero and hide no frame are looked for. Contracts do not see it.
    sweeps: Sweeps,
}

impl Model for CowForest {
    ghost use Rattle.cow_forest.specs.Store.{Forest};

    ghost Value = { Forest };

    ghost use Rattle.cow_forest.specs.inside.Fields.{forest_of, AreStore};

    ghost view = { forest_of };

    ghost invariant = { AreStore };
}

impl Drop for CowForest {
    // Written, and so proved here once. A derived drop is proved in each crate that lets a store go, with that of each table.
    fn drop(self) {
        let CowForest {
            arena,
            lists,
            frames,
            nodes,
            owners,
            next: _,
            vmos: _,
            jumps,
            founders,
            sweeps: _,
        } = self;
        drop(arena);
        drop(lists);
        drop(frames);
        drop(nodes);
        drop(owners);
        drop(jumps);
        drop(founders);
    }
}

impl CowForest {
    /// Makes a store with no frames and no VMO.
    pub fn new(alloc: Global) -> CowForest
        ensures content { ⟦<CowForest as PageStore>⟧.content result ≡ nothing }
    {
        CowForest {
            arena: CowArena::new(alloc),
            lists: PageLists::new(alloc),
            frames: FramePool::new(alloc),
            nodes: NodeTable::new(alloc),
            owners: NodeTable::new(alloc),
            next: 1,
            vmos: 0,
            jumps: JumpTable::new(alloc),
            founders: FounderTable::new(alloc),
            sweeps: Sweeps { kept: 0, beyond: 0 },
        }
    }

    /// Returns how many rows have a frame. They are as many as frames are in use, since the tree is exact over the
    /// frames that are taken.
    pub fn frame_rows(&self) -> u64
        ensures used { result ≡ used (forest_content self.now) }
        ensures rows { result ≡ frame_row_count self.now.rows }
        ensures exact { IsExact (tree self.now) all_in_sight (is_taken self.now.pool) }
    {
        // No two rows are of one page.
        let _rising = self.lists.rows();
        (self.frames.frames() - self.frames.free()) as u64
    }

    /// Returns the number of rows, with frames and without. No range of pages reaches more of them.
    pub fn rows(&self) -> u64
        ensures count { result ≡ row_count self.now.rows }
        ensures reached { (k from end : ℕ) → rows_reached (tree self.now) k from end ≤ row_count self.now.rows }
    {
        self.lists.rows()
    }

    /// Returns how many nodes are hidden: fewer than there are VMOs, or none. As many nodes are visible as there are
    /// VMOs. No way up to a root has more nodes than there are VMOs.
    pub fn hidden(&self) -> u64
        ensures count { result ≡ hidden_count self.now.arena }
        ensures visible { visible_count self.now.arena ≡ vmos_of (forest_content self.now) }
        ensures fewer { (result < vmos_of (forest_content self.now)) ⊎ ((result ≡ 0) × (vmos_of (forest_content self.now) ≡ 0)) }
        ensures deep { (v k : ℕ) → node_in self.now.nodes v ≡ link_to k →
            depth (nodes_of self.now.arena) self.now.arena.lists k ≤ vmos_of (forest_content self.now) }
    {
        // The number of each node is below this.
        let _room = self.arena.capacity();
        self.arena.hidden()
    }

    /// Returns the nodes of the clone tree. What always holds of the forest is said here, for whoever goes over them.
    pub fn arena(&self) -> &CowArena
        ensures arena { result.now ≡ self.now.arena }
        ensures store { IsStore self.now }
    {
        &self.arena
    }

    /// Returns the rows of the nodes' lists.
    pub fn lists(&self) -> &PageLists
        ensures { result.now ≡ self.now.rows }
    {
        &self.lists
    }

    /// Returns the node of a VMO. `None` if there is no VMO with this koid.
    pub fn node_of(&self, v: Koid) -> Option<NodeId>
        ensures node { node_in self.now.nodes v.0 ≡ result }
        ensures there { IfSome result (λ at. IsSome (nodes_of self.now.arena at.0)) }
    {
        self.nodes.look(v.0)
    }

    /// Does what `look` does, and counts the steps of its look-ups on the way from the VMO's node upwards. For each
    /// node up to the root, they are at most those of the longest look-up in the table of rows.
    pub fn look_counted<L: Ledger>(&self, v: Koid, page: PageNo, steps: &mut Steps<L>) -> Look
        requires page { page < pages_of (forest_content self.now) v.0 }
        ensures look { result ≡ look_at (forest_content self.now) v.0 ((forest_content self.now).page v.0 page) }
        ensures cost { (most k : ℕ) → IsMostOfLookUp (row_count self.now.rows) most → node_in self.now.nodes v.0 ≡ link_to k →
            steps.new ≤ steps.old + depth (nodes_of self.now.arena) self.now.arena.lists k * most }
    {
        look_at_counted(
            &self.arena,
            &self.lists,
            &self.jumps,
            self.nodes.get(v.0),
            page,
            steps,
        )
    }

    /// Makes `count` pages of a VMO from page `first` on zero, which `zero` does with one (whole pages of `ZX_VMO_OP_ZERO`). The
    /// range ends at or below the VMO's page count, and `spare` is at least the number of its held pages. It takes no memory, and
    /// room for one row at most for each of them.
    ///
    /// It goes from row to row: of the VMO's node, and then of each node up to the root, on the pages that the range reaches
    /// through the windows. A step is one call of `PageLists::next_counted`. There is at most one for each of these rows and one
    /// for each node, however long the range is.
    pub fn zero_range<L: Ledger>(
        &mut self,
        v: Koid,
        first: PageNo,
        count: u64,
        steps: &mut Steps<L>,
    )
        requires vmo { IsSome ((forest_content self.old).count v.0) }
        requires range { first + count ≤ pages_of (forest_content self.old) v.0 }
        requires room { held_from (forest_content self.old) v.0 first count ≤ self.old.rows.spare }
        ensures content { forest_content self.new ≡ zeroed (forest_content self.old) v.0 first (first + count) }
        ensures spare { self.old.rows.spare ≤ self.new.rows.spare + held_from (forest_content self.old) v.0 first count }
        ensures cost { (k : ℕ) → node_in self.old.nodes v.0 ≡ link_to k →
            steps.new ≤ steps.old + rows_reached (tree self.old) k first (first + count) + depth (nodes_of self.old.arena) self.old.arena.lists k }
    {
        let node = self.nodes.get(v.0);
        let end = first + count;
        zero_pages(
            &self.arena,
            &mut self.lists,
            &mut self.frames,
            &self.jumps,
            node,
            first,
            end,
            steps,
        );
    }
}

impl PageStore for CowForest {
    ghost content = { forest_content };

    ghost spare = { λ f. f.rows.spare };

    fn fill(&mut self, frames: u32) -> Result<(), HostMemory> {
        // None of no frames is taken.
        let _none = self.frames.frames();
        self.frames.fill(frames)
    }

    fn create(&mut self, count: PageNo) -> Result<Koid, HostMemory>
        requires count { count ≤ VMO_PAGES }
        requires next { (forest_content self.old).next < KOIDS }
        ensures koid { IfOk result (λ v. v.0 ≡ (forest_content self.old).next) }
        ensures ok { OnOk result (forest_content self.new ≡ created (forest_content self.old) count) }
        ensures err { OnErr result (forest_content self.new ≡ forest_content self.old) }
        ensures kept { OnErr result (self.old.rows.spare ≤ self.new.rows.spare) }
        ensures rows { row_count self.new.rows ≡ row_count self.old.rows }
        ensures hidden { hidden_count self.new.arena ≡ hidden_count self.old.arena }
    {
        make_room(&mut self.nodes, &mut self.owners, 1)?;
        let koid = Koid(self.next);
        let node = self.arena.add_root(koid, count)?;
        self.nodes.enter(koid.0, node);
        self.owners.enter(self.arena.node(node).list.0, node);
        self.next += 1;
        self.vmos += 1;
        Ok(koid)
    }

    fn snapshot(
        &mut self,
        of: Koid,
        first: PageNo,
        seen: PageNo,
        count: PageNo,
    ) -> Result<Koid, HostMemory>
        requires vmo { IsSome ((forest_content self.old).count of.0) }
        requires count { count ≤ VMO_PAGES }
        requires seen { seen ≤ count }
        requires range { first + seen ≤ pages_of (forest_content self.old) of.0 }
        requires next { (forest_content self.old).next < KOIDS }
        ensures koid { IfOk result (λ v. v.0 ≡ (forest_content self.old).next) }
        ensures ok { OnOk result (forest_content self.new ≡ snapshotted (forest_content self.old) of.0 first seen count) }
        ensures err { OnErr result (forest_content self.new ≡ forest_content self.old) }
        ensures kept { self.old.rows.spare ≤ self.new.rows.spare }
        ensures rows { row_count self.new.rows ≡ row_count self.old.rows }
        ensures hidden { OnOk result (hidden_count self.new.arena ≡ hidden_count self.old.arena + 1) }
        ensures err_hidden { OnErr result (hidden_count self.new.arena ≡ hidden_count self.old.arena) }
    {
        make_room(&mut self.nodes, &mut self.owners, 3)?;
        let koid = Koid(self.next);
        let node = self.nodes.get(of.0);
        let snapshot = Snapshot {
            koid,
            first,
            seen,
            count,
        };
        let pair = share(&mut self.arena, &mut self.lists, node, snapshot)?;
        self.jumps.grow(self.arena.capacity());
        self.jumps.move_up(node, pair.hidden, pair.child, koid.0);
        note_pair(
            &mut self.jumps,
            &self.arena,
            &self.lists,
            pair.hidden,
            node,
            pair.child,
        );
        let founders = Founders {
            elder: of,
            younger: koid,
        };
        self.founders
            .note(pair.hidden, founders, self.arena.capacity());
        self.nodes.enter(koid.0, pair.child);
        self.owners
            .enter(self.arena.node(pair.hidden).list.0, pair.hidden);
        self.owners.enter(self.arena.node(node).list.0, node);
        self.owners
            .enter(self.arena.node(pair.child).list.0, pair.child);
        self.next += 1;
        self.vmos += 1;
        Ok(koid)
    }

    #[inline(always)]
    fn reserve(&mut self, n: u64) -> Result<(), HostMemory> {
        sweep_when_due(
            &self.arena,
            &mut self.lists,
            &self.frames,
            &self.jumps,
            &mut self.sweeps,
        );
        self.lists.reserve(n)
    }

    #[inline(always)]
    fn look(&self, v: Koid, page: PageNo) -> Look {
        look_at(
            &self.arena,
            &self.lists,
            &self.jumps,
            self.nodes.get(v.0),
            page,
        )
    }

    #[inline(always)]
    fn frame(&self, v: Koid, page: PageNo) -> Option<Tag> {
        shown_frame(
            &self.arena,
            &self.lists,
            &self.jumps,
            self.nodes.get(v.0),
            page,
        )
    }

    #[inline(always)]
    fn own(&mut self, v: Koid, page: PageNo) -> Tag
        requires page { page < pages_of (forest_content self.old) v.0 }
        requires room { (sole (forest_content self.old) v.0 page ≡ true)
            ⊎ ((1 ≤ self.old.rows.spare) × (used (forest_content self.old) < (forest_content self.old).frames)) }
        ensures owns { Owns (forest_content self.old) (forest_content self.new) v.0 page result.0 }
        ensures spare { self.old.rows.spare ≤ self.new.rows.spare + 1 }
        ensures row { (k : ℕ) → 1 ≤ self.old.rows.spare → node_in self.new.nodes v.0 ≡ link_to k →
            HasOwnRow self.new.arena self.new.rows k page result.0 }
    {
        let node = self.nodes.get(v.0);
        own_page(
            &self.arena,
            &mut self.lists,
            &mut self.frames,
            &self.jumps,
            node,
            page,
        )
    }

    fn zero(&mut self, v: Koid, page: PageNo)
        requires page { page < pages_of (forest_content self.old) v.0 }
        requires room { 1 ≤ self.old.rows.spare }
        ensures zero { forest_content self.new ≡ zeroed (forest_content self.old) v.0 page (page + 1) }
        ensures spare { self.old.rows.spare ≤ self.new.rows.spare + 1 }
        ensures rows { (forest_content self.old).page v.0 page ≡ None → row_count self.new.rows ≡ row_count self.old.rows }
    {
        let node = self.nodes.get(v.0);
        zero_by_jumps(
            &self.arena,
            &mut self.lists,
            &mut self.frames,
            &self.jumps,
            node,
            page,
        );
    }

    fn zero_pages(&mut self, v: Koid, first: PageNo, end: PageNo) {
        let node = self.nodes.get(v.0);
        zero_in_turn(
            &self.arena,
            &mut self.lists,
            &mut self.frames,
            &self.jumps,
            node,
            PageRun {
                from: first,
                end,
                in_row: true,
            },
        );
    }

    fn count(&self, v: Koid) -> PageNo {
        self.arena.look(self.nodes.get(v.0)).count
    }

    fn set_count(&mut self, v: Koid, count: PageNo)
        requires vmo { IsSome ((forest_content self.old).count v.0) }
        requires count { count ≤ VMO_PAGES }
        ensures content { forest_content self.new ≡ resized (forest_content self.old) v.0 count }
        ensures rows { row_count self.new.rows ≤ row_count self.old.rows }
    {
        let node = self.nodes.get(v.0);
        if count < self.arena.node(node).count {
            shrink_by_jumps(
                &mut self.arena,
                &mut self.lists,
                &mut self.frames,
                &self.jumps,
                node,
                count,
            );
        } else {
            self.arena.set_count(node, count);
        }
    }

    fn drop_vmo(&mut self, v: Koid)
        requires { IsSome ((forest_content self.old).count v.0) }
        ensures content { forest_content self.new ≡ without (forest_content self.old) v.0 }
        ensures rows { row_count self.new.rows ≤ row_count self.old.rows }
    {
        let node = self.nodes.get(v.0);
        retire_pair(&mut self.jumps, &self.arena, node);
        let merged = disown(&mut self.owners, &self.arena, node);
        close_by_jumps(
            &mut self.arena,
            &mut self.lists,
            &mut self.frames,
            &self.jumps,
            node,
        );
        leave_other(&mut self.owners, &self.arena, merged);
        renew_merged(&mut self.jumps, &self.arena, &self.lists, merged);
        self.sweeps.lower(&self.lists);
        self.nodes.leave(v.0);
        self.vmos -= 1;
    }

    fn read(&self, tag: Tag, at: u64, out: &mut [u8]) {
        self.frames.read(tag, at, out);
    }

    fn write(&mut self, tag: Tag, at: u64, bytes: &[u8]) {
        self.frames.write(tag, at, bytes);
    }

    fn next_held(&self, v: Koid, from: PageNo) -> Option<PageNo> {
        let leaf = self.nodes.get(v.0);
        let end = self.arena.look(leaf).count;
        next_shown(&self.arena, &self.lists, &self.jumps, leaf, from, end)
    }

    fn next_held_below(&self, v: Koid, from: PageNo, end: PageNo) -> Option<PageNo> {
        let leaf = self.nodes.get(v.0);
        next_shown(&self.arena, &self.lists, &self.jumps, leaf, from, end)
    }

    fn least_viewer(&self, tag: Tag) -> Koid {
        let link = self.frames.backlink(tag);
        let node = self.owners.get(link.list);
        least_koid_of(&self.arena, &self.lists, node, link.page)
    }

    fn lesser_viewer(&self, tag: Tag, v: Koid) -> Option<Koid> {
        let link = self.frames.backlink(tag);
        let node = self.owners.get(link.list);
        let Some(elder) = elder_for(&self.arena, &self.founders, node, v) else {
            return lesser_koid_of(&self.arena, &self.lists, node, link.page, v);
        };
        if v.0 <= elder.0 {
            return None;
        }
        let leaf = self.nodes.look(elder.0);
        if shows(&self.arena, &self.lists, &self.jumps, leaf, link.page, tag) {
            Some(elder)
        } else {
            None
        }
    }

    fn viewers(&self, v: Koid, page: PageNo) -> u64 {
        viewer_count_of(&self.arena, &self.lists, self.nodes.get(v.0), page)
    }

    fn frames(&self) -> u32 {
        self.frames.frames()
    }

    fn free(&self) -> u32 {
        self.frames.free()
    }

    fn vmos(&self) -> u64 {
        self.vmos
    }

    fn next_koid(&self) -> Koid {
        Koid(self.next)
    }
}
