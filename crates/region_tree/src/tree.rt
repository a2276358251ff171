//! The tree of regions.

ghost use Rattle.std.specs.Prelude.{◌≡◌, ℕ, ◌+◌, ◌<◌, ◌≤◌, true, false, None, Some, IfSome, OnOk, OnErr};
ghost use Rattle.std.specs.Option.{MatchOption};
ghost use Rattle.vm_base.specs.declared.limits.TheConstants.{PAGES_END};
ghost use Rattle.vm_base.specs.Entries.{with_key};
ghost use Rattle.vm_model.specs.Space.Regions.{region_of, root_region, region_below, reaches_over, meets_child, cuts_child};
ghost use Rattle.vm_model.specs.Space.Regions.{AreGoodRegions};
ghost use Rattle.vm_model.specs.Space.Places.{is_free, has_place};
ghost use Rattle.mapping_set.specs.Tables.{table_of, places_of};
ghost use Rattle.region_tree.specs.Tree.{regions_of, is_live_region, has_child, with_one_dead, spaces_of};
ghost use Rattle.region_tree.specs.Tree.{IsWithin, HasNoneWithin, IsStart, AreNoted};
ghost use Rattle.region_tree.specs.inside.TreeFields.{HasNoneOver, IsAbove};

use crate::fields::{
    child_in, end_within, gap_in, held, leave_parent, lies_in, reaches_out, reaches_over,
};
use mapping_set::MappingSet;
use pair_map::{ExtentMap, PairMap};
use std::alloc::Global;
use std::marker::Model;
use vm_base::{HostMemory, PAGES_END, PageNo, Perm, ROOT_END, ROOT_FIRST, RegionName};
use vm_model::Region;

/// The kinds of access that mappings and regions in a root region may allow.
const ALL: Perm = Perm(Perm::READ.0 + Perm::WRITE.0 + Perm::EXECUTE.0);

/// A region that was destroyed, and the region at which to look for the next one (`Regions::destroy_next_from`).
#[derive(Clone, Copy, Debug)]
pub struct Destroyed {
    /// The region that was destroyed.
    pub name: RegionName,
    /// The region as it was before.
    pub region: Region,
    /// Its parent, if that is live and lies in the range too, or else the region that the range is asked for by.
    pub next: RegionName,
}

/// The regions of all address spaces, each under its name, dead ones too. Contracts see the region of each name
/// (`regions_of`). A call takes look-ups, and walks over neither the regions nor the children of one. Only `add_root`
/// and `allocate` ask the host for memory.
#[derive(Drop)]
pub struct Regions {
    /// Each region under (0, its name).
    regions: PairMap<Region>,
    /// The live children of each region, under the number of its name: the pages of each child, with its name.
    children: ExtentMap<RegionName>,
}

impl Model for Regions {
    ghost use Rattle.balanced_tree.specs.Rows.{Rows};
    ghost use Rattle.pair_map.specs.declared.pair_row.PairRow.{PairRow};
    ghost use Rattle.vm_model.specs.declared.space.Region.{Region};

    ghost Value = { Rows (PairRow Region) };

    ghost use Rattle.pair_map.specs.Maps.{values_of, extents_of};
    ghost use Rattle.region_tree.specs.inside.TreeFields.{IsTree};

    ghost view = { λ r. r.regions };

    ghost invariant = { λ r. IsTree (values_of r.regions 0) (extents_of r.children) };
}

impl Regions {
    /// Makes a tree in which no name was given.
    pub fn new(alloc: Global) -> Regions
        ensures { regions_of result ≡ λ n. None }
    {
        Regions {
            regions: PairMap::new(alloc),
            children: ExtentMap::new(alloc),
        }
    }

    /// Adds a root region under a name that was never given. `HostMemory` if the host has too little memory.
    pub fn add_root(&mut self, name: RegionName) -> Result<(), HostMemory>
        requires { regions_of self.old name.0 ≡ None }
        ensures ok { OnOk result (regions_of self.new ≡ with_key (regions_of self.old) name.0 (root_region name.0)) }
        ensures err { OnErr result (regions_of self.new ≡ regions_of self.old) }
    {
        // The bound on the number of names rests on the range of their numbers.
        prove!(name.0 <= u32::MAX);
        let Ok(()) = self.regions.reserve(1) else {
            return Err(HostMemory);
        };
        let region = Region {
            root: name,
            parent: None,
            first: ROOT_FIRST,
            count: ROOT_END - ROOT_FIRST,
            caps: ALL,
            live: true,
        };
        self.regions.insert(0, name.0 as u64, region);
        Ok(())
    }

    /// Adds a region of `count` pages from `first` on below a live one (`zx_vmar_allocate`). The pages lie in the live
    /// region, and none of its live children is there. The name was never given. `HostMemory` if the host has too
    /// little memory.
    pub fn allocate(
        &mut self,
        name: RegionName,
        parent: RegionName,
        first: PageNo,
        count: u64,
        caps: Perm,
    ) -> Result<(), HostMemory>
        requires name { regions_of self.old name.0 ≡ None }
        requires live { is_live_region (regions_of self.old) parent.0 ≡ true }
        requires some { 1 ≤ count }
        requires inside { reaches_over first (first + count) (region_of (regions_of self.old) parent.0) ≡ true }
        requires apart { meets_child (regions_of self.old) parent.0 first (first + count) ≡ false }
        ensures ok { OnOk result (regions_of self.new ≡ with_key (regions_of self.old) name.0
            (region_below parent.0 (region_of (regions_of self.old) parent.0) first count caps.0)) }
        ensures err { OnErr result (regions_of self.new ≡ regions_of self.old) }
    {
        let above = self.live(parent);
        self.allocate_below(name, parent, above, first, count, caps)
    }

    /// Does what `allocate` does below a live region, which is `above`.
    pub fn allocate_below(
        &mut self,
        name: RegionName,
        parent: RegionName,
        above: Region,
        first: PageNo,
        count: u64,
        caps: Perm,
    ) -> Result<(), HostMemory>
        requires name { regions_of self.old name.0 ≡ None }
        requires above { regions_of self.old parent.0 ≡ Some above }
        requires live { above.live ≡ true }
        requires some { 1 ≤ count }
        requires inside { reaches_over first (first + count) (region_of (regions_of self.old) parent.0) ≡ true }
        requires apart { meets_child (regions_of self.old) parent.0 first (first + count) ≡ false }
        ensures ok { OnOk result (regions_of self.new ≡ with_key (regions_of self.old) name.0
            (region_below parent.0 (region_of (regions_of self.old) parent.0) first count caps.0)) }
        ensures err { OnErr result (regions_of self.new ≡ regions_of self.old) }
    {
        // How many names there are rests on the range of their numbers.
        prove!(name.0 <= u32::MAX);
        let Ok(()) = self.regions.reserve(1) else {
            return Err(HostMemory);
        };
        let Ok(()) = self.children.reserve(1) else {
            return Err(HostMemory);
        };
        let region = Region {
            root: above.root,
            parent: Some(parent),
            first,
            count,
            caps,
            live: true,
        };
        self.regions.insert(0, name.0 as u64, region);
        self.children.insert(parent.0 as u64, first, count, name);
        Ok(())
    }

    /// Returns the region of a name, dead or live. `None` if and only if the name was never given.
    pub fn get(&self, name: RegionName) -> Option<Region>
        ensures region { result ≡ regions_of self.now name.0 }
        ensures good { AreGoodRegions (regions_of self.now) }
    {
        self.regions.find(0, name.0 as u64)
    }

    /// Returns the first page of the lowest free place of `count` pages in a live region. The place ends at most `limit`
    /// pages behind the region's start. `None` if and only if there is none. The search needs no note of a place.
    /// `find_gap_noted` rests on one.
    pub fn find_gap(
        &self,
        maps: &MappingSet,
        region: RegionName,
        count: u64,
        limit: u64,
    ) -> Option<PageNo>
        requires live { is_live_region (regions_of self.now) region.0 ≡ true }
        requires some { 1 ≤ count }
        ensures place { let spaces = spaces_of (regions_of self.now) (table_of maps.now) in
            MatchOption result (has_place spaces region.0 count limit ≡ false) (λ (first : ℕ).
            (is_free spaces region.0 first (first + count) ≡ true) ×
            (first + count ≤ (region_of (regions_of self.now) region.0).first + limit)) }
        ensures lowest { let spaces = spaces_of (regions_of self.now) (table_of maps.now) in
            IfSome result (λ (first : ℕ). (p : ℕ) → p < first → is_free spaces region.0 p (p + count) ≡ false) }
    {
        let above = held(&self.regions, region);
        let end = end_within(above, limit);
        gap_in(&self.children, maps, region, above, count, end)
    }

    /// Returns what `find_gap` answers for a live region, which is `above`. The set of mappings has noted the live
    /// children of each region. The place is the lowest one.
    pub fn find_gap_noted(
        &self,
        maps: &MappingSet,
        region: RegionName,
        above: Region,
        count: u64,
        limit: u64,
    ) -> Option<PageNo>
        requires noted { AreNoted (regions_of self.now) (places_of maps.now) }
        requires above { regions_of self.now region.0 ≡ Some above }
        requires live { above.live ≡ true }
        requires some { 1 ≤ count }
        ensures place { let spaces = spaces_of (regions_of self.now) (table_of maps.now) in
            MatchOption result (has_place spaces region.0 count limit ≡ false) (λ (first : ℕ).
            (is_free spaces region.0 first (first + count) ≡ true) ×
            (first + count ≤ (region_of (regions_of self.now) region.0).first + limit)) }
        ensures lowest { let spaces = spaces_of (regions_of self.now) (table_of maps.now) in
            IfSome result (λ (first : ℕ). (p : ℕ) → p < first → is_free spaces region.0 p (p + count) ≡ false) }
    {
        let _apart = self.children.len();
        let end = end_within(above, limit);
        maps.first_clear(above.root, region, above.first, count, end)
    }

    /// Reports whether `count` pages from `first` on are a free place in a live region.
    pub fn is_free(&self, maps: &MappingSet, region: RegionName, first: PageNo, count: u64) -> bool
        requires live { is_live_region (regions_of self.now) region.0 ≡ true }
        requires pages { first + count ≤ PAGES_END }
        ensures { result ≡
            is_free (spaces_of (regions_of self.now) (table_of maps.now)) region.0 first (first + count) }
    {
        let above = held(&self.regions, region);
        if !reaches_over(above, first, count) {
            return false;
        }
        if self.meets(region, first, count) {
            return false;
        }
        maps.first_gap(above.root, region, first, count, first + count)
            .is_some()
    }

    /// Returns what `is_free` answers for a live region, which is `above`. The set of mappings has noted the live
    /// children of each region.
    pub fn is_free_noted(
        &self,
        maps: &MappingSet,
        region: RegionName,
        above: Region,
        first: PageNo,
        count: u64,
    ) -> bool
        requires noted { AreNoted (regions_of self.now) (places_of maps.now) }
        requires above { regions_of self.now region.0 ≡ Some above }
        requires live { above.live ≡ true }
        requires pages { first + count ≤ PAGES_END }
        ensures { result ≡
            is_free (spaces_of (regions_of self.now) (table_of maps.now)) region.0 first (first + count) }
    {
        let _apart = self.children.len();
        if !reaches_over(above, first, count) {
            return false;
        }
        maps.is_clear(above.root, region, first, count)
    }

    /// Reports whether a live child of a live region has one of `count` pages from `first` on.
    pub fn meets(&self, region: RegionName, first: PageNo, count: u64) -> bool
        requires live { is_live_region (regions_of self.now) region.0 ≡ true }
        requires pages { first + count ≤ PAGES_END }
        ensures { result ≡ meets_child (regions_of self.now) region.0 first (first + count) }
    {
        !self.children.is_open(region.0 as u64, first, count)
    }

    /// Reports whether a live child of a live region has one of `count` pages from `first` on, and also a page outside
    /// them.
    pub fn cuts(&self, region: RegionName, first: PageNo, count: u64) -> bool
        requires live { is_live_region (regions_of self.now) region.0 ≡ true }
        requires pages { first + count ≤ PAGES_END }
        ensures { result ≡ cuts_child (regions_of self.now) region.0 first (first + count) }
    {
        if count == 0 {
            return false;
        }
        let end = first + count;
        let at_first = reaches_out(&self.children, region, first, first, end);
        let at_last = reaches_out(&self.children, region, end - 1, first, end);
        at_first || at_last
    }

    /// Destroys a live region without a live child below a live region, and answers its name. All of its pages are
    /// among `count` pages from `first` on. `None`, with nothing changed, if and only if no live region below `region`
    /// lies in these pages. The call goes down from `region`. A caller that destroys one region after another goes on
    /// where it was, by `destroy_next_from`.
    pub fn destroy_next(
        &mut self,
        region: RegionName,
        first: PageNo,
        count: u64,
    ) -> Option<RegionName>
        requires { is_live_region (regions_of self.old) region.0 ≡ true }
        ensures within { MatchOption result (HasNoneWithin (regions_of self.old) region.0 first (first + count))
            (λ name. IsWithin (regions_of self.old) region.0 first (first + count) name.0) }
        ensures childless { IfSome result (λ name. has_child (regions_of self.old) name.0 ≡ false) }
        ensures regions { MatchOption result (regions_of self.new ≡ regions_of self.old)
            (λ name. regions_of self.new ≡ with_one_dead (regions_of self.old) name.0) }
    {
        let Some(gone) = self.destroy_next_from(region, region, first, count) else {
            return None;
        };
        Some(gone.name)
    }

    /// Destroys a region as `destroy_next` does, but begins at `start`: at `region` itself, or at a live region below
    /// it that lies in these pages. It then destroys one at or below `start`. Answers the name, and where the next call
    /// begins. If each call begins where the last one said, the way down comes to each region once.
    pub fn destroy_next_from(
        &mut self,
        region: RegionName,
        start: RegionName,
        first: PageNo,
        count: u64,
    ) -> Option<Destroyed>
        requires live { is_live_region (regions_of self.old) region.0 ≡ true }
        requires start { IsStart (regions_of self.old) region.0 first (first + count) start.0 }
        ensures within { MatchOption result (HasNoneWithin (regions_of self.old) region.0 first (first + count))
            (λ gone. IsWithin (regions_of self.old) region.0 first (first + count) gone.name.0) }
        ensures childless { IfSome result (λ gone. has_child (regions_of self.old) gone.name.0 ≡ false) }
        ensures regions { MatchOption result (regions_of self.new ≡ regions_of self.old)
            (λ gone. regions_of self.new ≡ with_one_dead (regions_of self.old) gone.name.0) }
        ensures next { IfSome result
            (λ gone. IsStart (regions_of self.new) region.0 first (first + count) gone.next.0) }
        ensures was { IfSome result (λ gone. regions_of self.old gone.name.0 ≡ Some gone.region) }
        ensures lived { IfSome result (λ gone. gone.region.live ≡ true) }
    {
        let Some(within) = self.within_from(region, start, first, count) else {
            return None;
        };
        let leaf = self.childless(within);
        let dying = self.live(leaf);
        self.destroy_childless(leaf, dying);
        let next = self.start_above(region, dying.parent, first, count);
        Some(Destroyed {
            name: leaf,
            region: dying,
            next,
        })
    }

    /// Destroys a live region that has no live child.
    pub fn destroy_one(&mut self, region: RegionName)
        requires live { is_live_region (regions_of self.old) region.0 ≡ true }
        requires childless { has_child (regions_of self.old) region.0 ≡ false }
        ensures { regions_of self.new ≡ with_one_dead (regions_of self.old) region.0 }
    {
        let dying = self.live(region);
        self.destroy_childless(region, dying);
    }

    /// Does what `destroy_one` does to a live region, which is `dying`.
    pub fn destroy_childless(&mut self, region: RegionName, dying: Region)
        requires dying { regions_of self.old region.0 ≡ Some dying }
        requires live { dying.live ≡ true }
        requires childless { has_child (regions_of self.old) region.0 ≡ false }
        ensures { regions_of self.new ≡ with_one_dead (regions_of self.old) region.0 }
    {
        let dead = Region {
            live: false,
            ..dying
        };
        self.regions.replace(0, region.0 as u64, dead);
        leave_parent(&mut self.children, dying);
    }

    /// Returns the region of a name that was given to one that is live.
    fn live(&self, name: RegionName) -> Region
        requires { is_live_region (regions_of self.now) name.0 ≡ true }
        ensures region { regions_of self.now name.0 ≡ Some result }
        ensures live { result.live ≡ true }
    {
        held(&self.regions, name)
    }

    /// Returns a live region below a live one that has no page but of `count` pages from `first` on: the one to begin
    /// at, if that is one.
    fn within_from(
        &self,
        region: RegionName,
        start: RegionName,
        first: PageNo,
        count: u64,
    ) -> Option<RegionName>
        requires { IsStart (regions_of self.now) region.0 first (first + count) start.0 }
        ensures { MatchOption result (HasNoneWithin (regions_of self.now) region.0 first (first + count))
            (λ name. IsWithin (regions_of self.now) region.0 first (first + count) name.0) }
    {
        if start != region {
            return Some(start);
        }
        self.within(region, first, count)
    }

    /// Returns where to go on above a region below a live one, which has this parent. That is the parent, if it is live
    /// and has no page but of `count` pages from `first` on, or else the live one.
    fn start_above(
        &self,
        region: RegionName,
        parent: Option<RegionName>,
        first: PageNo,
        count: u64,
    ) -> RegionName
        requires { IsAbove (regions_of self.now) region.0 parent }
        ensures { IsStart (regions_of self.now) region.0 first (first + count) result.0 }
    {
        let Some(parent) = parent else {
            return region;
        };
        let Some(above) = self.regions.find(0, parent.0 as u64) else {
            return region;
        };
        if parent == region || !above.live || !lies_in(above, first, count) {
            return region;
        }
        parent
    }

    /// Returns a live region below a live one, with all of its pages among `count` pages from `first` on. If there are
    /// any, one of them is a child of the live region, or of a region that has the first or the last of these pages.
    fn within(&self, region: RegionName, first: PageNo, count: u64) -> Option<RegionName>
        ensures { MatchOption result (HasNoneWithin (regions_of self.now) region.0 first (first + count))
            (λ name. IsWithin (regions_of self.now) region.0 first (first + count) name.0) }
    {
        if let Some(name) = self.within_over(region, first, first, count) {
            return Some(name);
        }
        let last = first.saturating_add(count.saturating_sub(1));
        self.within_over(region, last, first, count)
    }

    /// Returns a live child of a live region, or of a region below it that has this page. All of the child's pages are
    /// among `count` pages from `first` on.
    fn within_over(
        &self,
        region: RegionName,
        page: PageNo,
        first: PageNo,
        count: u64,
    ) -> Option<RegionName>
        ensures within { MatchOption result (HasNoneOver (regions_of self.now) region.0 page first (first + count))
            (λ name. IsWithin (regions_of self.now) region.0 first (first + count) name.0) }
        ensures good { AreGoodRegions (regions_of self.now) }
    {
        let _apart = self.children.len();
        let mut above = region;
        'descent: loop {
            if let Some(name) = child_in(&self.children, above, first, count) {
                return Some(name);
            }
            let Some((_, extent)) = self.children.at(above.0 as u64, page) else {
                return None;
            };
            above = extent.value;
        }
    }

    /// Returns a region that has no live child: this one, or the first child of the first child, and so on.
    fn childless(&self, region: RegionName) -> RegionName
        ensures within { (above first end : ℕ) → IsWithin (regions_of self.now) above first end region.0
            → IsWithin (regions_of self.now) above first end result.0 }
        ensures childless { has_child (regions_of self.now) result.0 ≡ false }
    {
        let mut leaf = region;
        while let Some((_, extent)) = self.children.next(leaf.0 as u64, 0) {
            leaf = extent.value;
        }
        leaf
    }
}
