//! The plain store: a map of the pages that are held, and for each frame the VMOs that show it.

ghost use Rattle.std.specs.Prelude.{◌≡◌, ◌≢◌, ℕ, ◌+◌, ◌-◌, ◌<◌, ◌≤◌, ◌⊎◌, true, false, None, Some, IsSome, IfSome, IfNone, OnOk};
ghost use Rattle.std.specs.Option.{option_map};
ghost use Rattle.vm_base.specs.declared.limits.TheConstants.{KOIDS, VMO_PAGES};
ghost use Rattle.vm_base.specs.Search.{HasNone, IsFirst};
ghost use Rattle.vm_model.specs.Contents.Content.{nothing, pages_of, used, is_held, sole, hold, created, IsGood};
ghost use Rattle.vm_model.specs.Contents.Owning.{Owns};
ghost use Rattle.vm_model.specs.Contents.Sharing.{viewers};
ghost use Rattle.vm_model.specs.Contents.Zeroing.{zeroed};
ghost use Rattle.vm_model.specs.Space.Readiness.{frame_at};
ghost use Rattle.pair_map.specs.Maps.{values_of, count_of};
ghost use Rattle.page_store.specs.Held.{held_from};
ghost use Rattle.page_store.specs.Flat.{flat_content, flat_spare, page_with_tag, IsSeenByThird};

use crate::frames::{give_back_unshown, has_third, is_alone, take_copy, take_zeros};
use crate::page_store::{Look, PageStore};
use frame_pool::FramePool;
use pair_map::PairMap;
use std::alloc::Global;
use std::marker::Model;
use vm_base::{HostMemory, Koid, PageNo, Tag, VMO_PAGES};

/// A page store whose held pages are the entries of one map. VMOs share page frames: a snapshot has entries of its own,
/// with the same frames, for the pages that it sees. Clauses speak of what it contains (`flat_content`), and of how many
/// pages may be owned without asking the host for memory (`flat_spare`).
#[derive(Drop)]
pub struct FlatStore {
    /// The page frames. A frame is taken while some page shows it.
    pool: FramePool,
    /// The koid of the next VMO. The first has koid 1, and none is given twice.
    next: u64,
    /// The page counts of the VMOs, by the pair of 0 and the koid.
    vmos: PairMap<PageNo>,
    /// The frames of the pages that are held, by koid and page number.
    rows: PairMap<Tag>,
    /// The pages that are held, by the tags of their frames and the koids of their VMOs. No VMO shows a frame twice.
    viewers: PairMap<PageNo>,
    /// The number of pages that may be owned with no memory from the host.
    room: u64,
}

impl Model for FlatStore {
    ghost use Rattle.page_store.specs.Flat.{Flat, flat_of, AreFlat};

    ghost Value = { Flat };

    ghost view = { flat_of };

    ghost invariant = { AreFlat };
}

impl FlatStore {
    /// Makes a store with no frames and no VMO.
    pub fn new(alloc: Global) -> FlatStore
        ensures content { flat_content result ≡ nothing }
        ensures spare { flat_spare result ≡ 0 }
    {
        FlatStore {
            pool: FramePool::new(alloc),
            next: 1,
            vmos: PairMap::new(alloc),
            rows: PairMap::new(alloc),
            viewers: PairMap::new(alloc),
            room: 0,
        }
    }

    /// Returns the frame of a page. `None` if and only if the page is zero.
    pub fn frame_at(&self, v: Koid, page: PageNo) -> Option<Tag>
        ensures { option_map (λ tag. tag.0) result ≡ frame_at (flat_content self.now) v.0 page }
    {
        self.rows.find(v.0, page)
    }

    /// Returns whether a page is held, and no other VMO shows its frame.
    pub fn is_sole(&self, v: Koid, page: PageNo) -> bool
        ensures { result ≡ sole (flat_content self.now) v.0 page }
    {
        // The koid of a VMO is below the next.
        let _next = self.next;
        match self.rows.find(v.0, page) {
            Some(tag) => is_alone(&self.viewers, tag, v),
            None => false,
        }
    }

    /// Returns whether a page is held, and a VMO other than its own and another one, `w`, shows its frame.
    pub fn is_seen_by_third(&self, v: Koid, page: PageNo, w: Koid) -> bool
        requires { w.0 < (flat_content self.now).next }
        ensures some { result ≡ true → IsSeenByThird (flat_content self.now) v.0 page w.0 }
        ensures none { result ≡ false → IsSeenByThird (flat_content self.now) v.0 page w.0 → ⊥ }
    {
        // The koid of a VMO is below the next.
        let _next = self.next;
        match self.rows.find(v.0, page) {
            Some(tag) => has_third(&self.viewers, tag, v, w),
            None => false,
        }
    }

    /// Returns a VMO that shows a frame, and its page that has the frame. `None` if and only if no page has it.
    pub fn viewer(&self, tag: Tag) -> Option<(Koid, PageNo)>
        ensures some { IfSome result (λ at. frame_at (flat_content self.now) at.0.0 at.1 ≡ Some tag.0) }
        ensures none { IfNone result ((v p : ℕ) → frame_at (flat_content self.now) v p ≡ Some tag.0 → ⊥) }
    {
        match self.viewers.next(tag.0 as u64, 0) {
            Some((koid, page)) => Some((Koid(koid), page)),
            None => None,
        }
    }

    // ---- steps of the calls

    // Makes room for owning `pages` pages.
    fn reserve_rows(&mut self, pages: u64) -> Result<(), HostMemory>
        ensures room { OnOk result (pages ≤ flat_spare self.new) }
        ensures same { flat_content self.new ≡ flat_content self.old }
        ensures kept { flat_spare self.old ≤ flat_spare self.new }
        ensures vmos { self.new.vmos ≡ self.old.vmos }
    {
        if pages <= self.room {
            return Ok(());
        }
        let Ok(()) = self.rows.reserve(pages as usize) else {
            return Err(HostMemory);
        };
        let Ok(()) = self.viewers.reserve(pages as usize) else {
            return Err(HostMemory);
        };
        self.room = pages;
        Ok(())
    }

    // Makes room for one VMO more.
    fn reserve_vmo(&mut self) -> Result<(), HostMemory>
        ensures room { OnOk result (1 ≤ self.new.vmos.spare) }
        ensures same { flat_content self.new ≡ flat_content self.old }
        ensures spare { flat_spare self.new ≡ flat_spare self.old }
    {
        self.vmos.reserve(1).map_err(|_| HostMemory)
    }

    // Makes a VMO of `count` zero pages under the next koid. There is room for it.
    fn add_vmo(&mut self, count: PageNo) -> Koid
        requires room { 1 ≤ self.old.vmos.spare }
        requires count { count ≤ VMO_PAGES }
        requires next { (flat_content self.old).next < KOIDS }
        ensures koid { result.0 ≡ (flat_content self.old).next }
        ensures content { flat_content self.new ≡ created (flat_content self.old) count }
        ensures spare { flat_spare self.new ≡ flat_spare self.old }
    {
        let koid = self.next;
        self.vmos.insert(0, koid, count);
        self.next = koid + 1;
        Koid(koid)
    }

    // Gives a page that is zero a frame.
    fn own_zero(&mut self, v: Koid, page: PageNo) -> Tag
        requires zero { (flat_content self.old).page v.0 page ≡ None }
        requires page { page < pages_of (flat_content self.old) v.0 }
        requires room { 1 ≤ flat_spare self.old }
        requires frame { used (flat_content self.old) < (flat_content self.old).frames }
        ensures owns { Owns (flat_content self.old) (flat_content self.new) v.0 page result.0 }
        ensures spare { flat_spare self.new + 1 ≡ flat_spare self.old }
    {
        let tag = take_zeros(&mut self.pool);
        self.rows.insert(v.0, page, tag);
        self.viewers.insert(tag.0 as u64, v.0, page);
        self.room -= 1;
        tag
    }

    // Gives a page that is held a frame of its own, if other VMOs show its frame too.
    fn own_held(&mut self, v: Koid, page: PageNo, shown: Tag) -> Tag
        requires held { values_of self.old.rows v.0 page ≡ Some shown }
        requires room { (sole (flat_content self.old) v.0 page ≡ true)
            ⊎ (used (flat_content self.old) < (flat_content self.old).frames) }
        ensures owns { Owns (flat_content self.old) (flat_content self.new) v.0 page result.0 }
        ensures spare { flat_spare self.new ≡ flat_spare self.old }
    {
        // The koid of a VMO is below the next.
        let _next = self.next;
        if is_alone(&self.viewers, shown, v) {
            return shown;
        }
        let tag = take_copy(&mut self.pool, shown);
        self.rows.replace(v.0, page, tag);
        self.viewers.remove(shown.0 as u64, v.0);
        self.viewers.insert(tag.0 as u64, v.0, page);
        tag
    }

    // Lets a page of a VMO that shows no such frame show a frame that another VMO shows.
    fn show_page(&mut self, v: Koid, page: PageNo, tag: Tag)
        requires zero { (flat_content self.old).page v.0 page ≡ None }
        requires shown { (w : ℕ) × (p : ℕ) × (values_of self.old.rows w p ≡ Some tag) }
        requires good { IsGood (hold (flat_content self.old) v.0 page (page_with_tag self.old.pool tag)) }
        requires room { 1 ≤ flat_spare self.old }
        ensures content { flat_content self.new ≡ hold (flat_content self.old) v.0 page (page_with_tag self.old.pool tag) }
        ensures spare { flat_spare self.new + 1 ≡ flat_spare self.old }
    {
        self.rows.insert(v.0, page, tag);
        self.viewers.insert(tag.0 as u64, v.0, page);
        self.room -= 1;
    }

    // Makes a page zero that is held. Its frame is free then, unless another VMO shows it.
    fn release_page(&mut self, v: Koid, page: PageNo)
        requires { IsSome (values_of self.old.rows v.0 page) }
        ensures content { flat_content self.new ≡ zeroed (flat_content self.old) v.0 page (page + 1) }
        ensures fewer { count_of self.new.rows + 1 ≡ count_of self.old.rows }
        ensures spare { flat_spare self.new ≡ flat_spare self.old }
    {
        let tag = self.rows.remove(v.0, page);
        self.viewers.remove(tag.0 as u64, v.0);
        give_back_unshown(&mut self.pool, &self.viewers, tag);
    }

    // Makes the pages of a VMO zero from `first` to below `end`.
    fn release_pages(&mut self, v: Koid, first: PageNo, end: PageNo)
        ensures content { flat_content self.new ≡ zeroed (flat_content self.old) v.0 first end }
        ensures spare { flat_spare self.new ≡ flat_spare self.old }
    {
        while let Some((page, _)) = self.held_below(v, first, end) {
            self.release_page(v, page);
        }
    }

    // The first page of a VMO that is held, from page `from` to below `end`, and its frame.
    fn held_below(&self, v: Koid, from: PageNo, end: PageNo) -> Option<(PageNo, Tag)>
        ensures some { IfSome result (λ row. IsFirst (is_held (flat_content self.now) v.0) from end row.0) }
        ensures tag { IfSome result (λ row. values_of self.now.rows v.0 row.0 ≡ Some row.1) }
        ensures none { IfNone result (HasNone (is_held (flat_content self.now) v.0) from end) }
    {
        match self.rows.next(v.0, from) {
            Some((page, tag)) if page < end => Some((page, tag)),
            _ => None,
        }
    }

    // How many pages of a VMO are held, from page `first` to below `end`.
    fn count_held(&self, v: Koid, first: PageNo, end: PageNo) -> u64
        requires { first ≤ end }
        ensures { result ≡ held_from (flat_content self.now) v.0 first (end - first) }
    {
        let mut held = 0;
        let mut from = first;
        while let Some((page, _)) = self.held_below(v, from, end) {
            held += 1;
            from = page + 1;
        }
        held
    }

    // How many VMOs show a frame.
    fn count_viewers(&self, tag: Tag) -> u64
        ensures { result ≡ viewers (flat_content self.now) tag.0 }
    {
        // The koid of a VMO is below the next.
        let _next = self.next;
        let mut count = 0;
        let mut from = 0;
        while let Some((koid, _)) = self.viewers.next(tag.0 as u64, from) {
            count += 1;
            from = koid + 1;
        }
        count
    }
}

impl PageStore for FlatStore {
    ghost content = { flat_content };

    ghost spare = { flat_spare };

    fn fill(&mut self, frames: u32) -> Result<(), HostMemory> {
        let Ok(()) = self.pool.fill(frames) else {
            return Err(HostMemory);
        };
        Ok(())
    }

    fn create(&mut self, count: PageNo) -> Result<Koid, HostMemory> {
        self.reserve_vmo()?;
        Ok(self.add_vmo(count))
    }

    fn snapshot(
        &mut self,
        of: Koid,
        first: PageNo,
        seen: PageNo,
        count: PageNo,
    ) -> Result<Koid, HostMemory> {
        // All memory is taken before anything is changed. The room that was there stays.
        let room = self.room;
        let end = first + seen;
        let held = self.count_held(of, first, end);
        let Some(rows) = room.checked_add(held) else {
            return Err(HostMemory);
        };
        self.reserve_vmo()?;
        self.reserve_rows(rows)?;
        let koid = self.add_vmo(count);
        let mut from = first;
        while let Some((page, tag)) = self.held_below(of, from, end) {
            self.show_page(koid, page - first, tag);
            from = page + 1;
        }
        Ok(koid)
    }

    fn reserve(&mut self, n: u64) -> Result<(), HostMemory> {
        self.reserve_rows(n)
    }

    fn look(&self, v: Koid, page: PageNo) -> Look {
        match self.frame_at(v, page) {
            Some(tag) => Look::Held {
                tag,
                sole: self.is_sole(v, page),
            },
            None => Look::Zero,
        }
    }

    fn frame(&self, v: Koid, page: PageNo) -> Option<Tag> {
        self.frame_at(v, page)
    }

    fn own(&mut self, v: Koid, page: PageNo) -> Tag {
        match self.rows.find(v.0, page) {
            Some(shown) => self.own_held(v, page, shown),
            None => self.own_zero(v, page),
        }
    }

    fn zero(&mut self, v: Koid, page: PageNo) {
        if self.rows.find(v.0, page).is_some() {
            self.release_page(v, page);
        }
    }

    fn zero_pages(&mut self, v: Koid, first: PageNo, end: PageNo) {
        self.release_pages(v, first, end);
    }

    fn count(&self, v: Koid) -> PageNo {
        self.vmos.find(0, v.0).unwrap_or(0)
    }

    fn set_count(&mut self, v: Koid, count: PageNo) {
        let old = self.vmos.find(0, v.0).unwrap_or(0);
        // If the VMO grows, no page leaves it.
        self.release_pages(v, count, old);
        self.vmos.replace(0, v.0, count);
    }

    fn drop_vmo(&mut self, v: Koid) {
        self.release_pages(v, 0, VMO_PAGES);
        self.vmos.remove(0, v.0);
    }

    fn read(&self, tag: Tag, at: u64, out: &mut [u8]) {
        self.pool.read(tag, at, out);
    }

    fn write(&mut self, tag: Tag, at: u64, bytes: &[u8]) {
        self.pool.write(tag, at, bytes);
    }

    fn next_held(&self, v: Koid, from: PageNo) -> Option<PageNo> {
        match self.rows.next(v.0, from) {
            Some((page, _)) => Some(page),
            None => None,
        }
    }

    fn least_viewer(&self, tag: Tag) -> Koid {
        match self.viewers.next(tag.0 as u64, 0) {
            Some((koid, _)) => Koid(koid),
            None => unreachable!(),
        }
    }

    fn lesser_viewer(&self, tag: Tag, v: Koid) -> Option<Koid> {
        let least = self.least_viewer(tag);
        if least.0 < v.0 { Some(least) } else { None }
    }

    fn viewers(&self, v: Koid, page: PageNo) -> u64 {
        match self.frame_at(v, page) {
            Some(tag) => self.count_viewers(tag),
            None => 0,
        }
    }

    fn frames(&self) -> u32 {
        self.pool.frames()
    }

    fn free(&self) -> u32 {
        self.pool.free()
    }

    fn vmos(&self) -> u64 {
        self.vmos.len() as u64
    }

    fn next_koid(&self) -> Koid {
        Koid(self.next)
    }
}
