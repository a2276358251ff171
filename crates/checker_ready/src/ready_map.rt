//! The map of what is ready.

ghost use Rattle.std.specs.Prelude.{◌≡◌, ℕ, ◌+◌, ◌<◌, ◌≤◌, not, true, None, Some, IsSome, IfSome, IfNone, OnOk, OnErr};
ghost use Rattle.vm_model.specs.Contents.Content.{Content};
ghost use Rattle.vm_model.specs.Naming.Pins.{is_pinned};
ghost use Rattle.vm_model.specs.Space.Readiness.{settled, with_ready};
ghost use Rattle.pair_map.specs.Maps.{values_of, count_of, with_pair};
ghost use Rattle.pin_table.specs.Table.{pins_of};
ghost use Rattle.page_store.specs.Flat.{flat_content};
ghost use Rattle.ready_pages.specs.Changes.{Entries, ChangesRange};
ghost use Rattle.checker_ready.specs.Notes.{rows_of, ready_in, has_frame, changed_rows, row_if_current, row_limited, without_range, FitsRows, NotesAreTrue, AreGoodNotes, HasNoRow, IsReadySomewhere};
ghost use Rattle.checker_ready.specs.inside.Pages.{IsMappedInside};

use crate::stamps::{Kept, Stamp, has_frame, lower, put, ready_page, stamp_for};
use page_store::FlatStore;
use pair_map::PairMap;
use pin_table::PinTable;
use std::alloc::Global;
use std::marker::Model;
use vm_base::{HostMemory, Koid, PageNo, RegionName, Tag};
use vm_model::{Entry, Readiness};

/// The note of a page of an address space that is ready for an access.
#[derive(Clone, Copy, Debug, PartialEq, Eq)]
pub struct ReadyPage {
    /// The VMO that the page shows.
    pub koid: Koid,
    /// The page of the VMO, counted from its first.
    pub page: PageNo,
    /// The frame that this page had. `None` if it was zero.
    pub frame: Option<Tag>,
    /// The accesses that may be made with no page fault.
    pub readiness: Readiness,
}

/// The notes of what the pages of all address spaces are ready for. Contracts see what is noted of each page that is ready
/// (`rows_of`), by its root region and its number, and how many more can be noted with no memory from the host (`room`).
#[derive(Drop)]
pub struct ReadyMap {
    /// The note that was made of each page, by root region and page. It counts only as the stamp says.
    places: PairMap<Kept>,
    /// The stamp of each page of a VMO under which a note counts, by koid and page.
    stamps: PairMap<Stamp>,
    /// The time of the next note. Each note has a later time than those before it.
    time: u64,
    /// The number of further notes that there is room for.
    room: u64,
}

impl Model for ReadyMap {
    ghost use Rattle.checker_ready.specs.Notes.{Notes, notes_of, AreNotes};

    ghost Value = { Notes };

    ghost view = { notes_of };

    ghost invariant = { λ a. AreNotes (notes_of a) };
}

impl ReadyMap {
    /// Makes a map in which nothing is ready.
    pub fn new(alloc: Global) -> ReadyMap
        ensures rows { rows_of result ≡ λ root p. None }
        ensures good { (c : Content) (table : Entries) → AreGoodNotes c table (rows_of result) }
    {
        ReadyMap {
            places: PairMap::new(alloc),
            stamps: PairMap::new(alloc),
            time: 0,
            room: 0,
        }
    }

    /// Makes room for `n` calls of `set`. `HostMemory` if the host has too little memory, or if the times would not fit 64
    /// bits.
    pub(crate) fn reserve(&mut self, n: u64) -> Result<(), HostMemory>
        ensures room { OnOk result (n ≤ self.new.room) }
        ensures wanted { OnErr result (1 ≤ n) }
        ensures same { rows_of self.new ≡ rows_of self.old }
        ensures kept { self.old.room ≤ self.new.room }
    {
        if n <= self.room {
            return Ok(());
        }
        if u64::MAX - self.time < n {
            return Err(HostMemory);
        }
        let Ok(()) = self.places.reserve(n as usize) else {
            return Err(HostMemory);
        };
        let Ok(()) = self.stamps.reserve(n as usize) else {
            return Err(HostMemory);
        };
        self.room = n;
        Ok(())
    }

    /// Returns what is noted of a page of an address space. `None` if it is ready for nothing.
    pub fn at(&self, root: RegionName, page: PageNo) -> Option<ReadyPage>
        ensures { result ≡ rows_of self.now root.0 page }
    {
        match self.places.find(root.0 as u64, page) {
            Some(kept) => ready_page(kept, self.stamps.find(kept.koid.0, kept.page)),
            None => None,
        }
    }

    /// Notes a page of an address space as ready for this, in place of what was noted of it, with the frame that the page of its
    /// entry has now. Other notes of that page of the VMO do not count any more if they have another frame. There is room.
    pub(crate) fn set(
        &mut self,
        pages: &FlatStore,
        root: RegionName,
        page: PageNo,
        entry: Entry,
        readiness: Readiness,
    )
        requires room { 1 ≤ self.old.room }
        ensures rows { (before : Content) (table : Entries) → NotesAreTrue before table (rows_of self.old)
            → IsMappedInside (flat_content pages.now) table root.0 page entry
            → ChangesRange before (flat_content pages.now) entry.koid.0 entry.page (entry.page + 1)
            → FitsRows (flat_content pages.now) table
            (with_ready (settled before (flat_content pages.now) table (ready_in (rows_of self.old))) root.0 page readiness)
            (rows_of self.new) }
        ensures spare { self.new.room + 1 ≡ self.old.room }
    {
        let row = ReadyPage {
            koid: entry.koid,
            page: entry.page,
            frame: pages.frame_at(entry.koid, entry.page),
            readiness,
        };
        self.clear(root, page);
        self.note(root, page, row);
    }

    /// Makes what shows a page of a VMO from `first` to below `end` ready for reading at most, unless a pin covers the page:
    /// a snapshot shares the other pages.
    pub(crate) fn restrict(&mut self, koid: Koid, first: PageNo, end: PageNo, pins: &PinTable)
        ensures rows { rows_of self.new
            ≡ changed_rows (row_limited (is_pinned (pins_of pins.now) koid.0)) koid.0 first end (rows_of self.old) }
        ensures spare { self.new.room ≡ self.old.room }
    {
        let mut from = first;
        while let Some(next) = self.next_before(koid, from, end) {
            self.restrict_page(koid, next.0, next.1, pins.pinned(koid, next.0, 1));
            from = next.0 + 1;
        }
    }

    /// Makes what shows a page of a VMO from `first` to below `end` ready for nothing, if the page does not lie in the VMO or
    /// has another frame now than was noted.
    pub(crate) fn settle(&mut self, pages: &FlatStore, koid: Koid, first: PageNo, end: PageNo)
        requires { IsSome ((flat_content pages.now).count koid.0) }
        ensures rows { rows_of self.new
            ≡ changed_rows (row_if_current (flat_content pages.now)) koid.0 first end (rows_of self.old) }
        ensures spare { self.new.room ≡ self.old.room }
    {
        let mut from = first;
        while let Some(next) = self.next_before(koid, from, end) {
            self.settle_page(pages, koid, next.0, next.1);
            from = next.0 + 1;
        }
    }

    /// Makes pages of an address space from `first` to below `end` ready for nothing.
    pub(crate) fn drop_range(&mut self, root: RegionName, first: PageNo, end: PageNo)
        ensures rows { rows_of self.new ≡ without_range (rows_of self.old) root.0 first end }
        ensures spare { self.new.room ≡ self.old.room }
    {
        while let Some(page) = self.place_before(root, first, end) {
            self.drop_place(root, page);
        }
    }

    /// Returns the number of pages of VMOs that have a stamp. Each of them is shown by a page that is ready for an access.
    pub fn stamps(&self) -> usize
        ensures count { result ≡ count_of self.now.stamps }
        ensures shown { (v p : ℕ) → IsSome (values_of self.now.stamps v p) → IsReadySomewhere (rows_of self.now) v p }
    {
        self.stamps.len()
    }

    // ---- steps of the calls

    // Takes the note of a page of an address space away, if it has one.
    fn clear(&mut self, root: RegionName, page: PageNo)
        ensures rows { rows_of self.new ≡ without_range (rows_of self.old) root.0 page (page + 1) }
        ensures none { values_of self.new.places root.0 page ≡ None }
        ensures spare { self.new.room ≡ self.old.room }
    {
        if self.places.find(root.0 as u64, page).is_some() {
            self.drop_place(root, page);
        }
    }

    // Notes a page of an address space that has no note. There is room.
    fn note(&mut self, root: RegionName, page: PageNo, row: ReadyPage)
        requires none { values_of self.old.places root.0 page ≡ None }
        requires room { 1 ≤ self.old.room }
        ensures rows { (c : Content) → has_frame c row.koid.0 row.page row.frame ≡ true → rows_of self.new
            ≡ with_pair (changed_rows (row_if_current c) row.koid.0 row.page (row.page + 1) (rows_of self.old)) root.0 page (Some row) }
        ensures spare { self.new.room + 1 ≡ self.old.room }
    {
        let stamp = stamp_for(self.stamps.find(row.koid.0, row.page), row.frame, self.time);
        put(&mut self.stamps, row.koid.0, row.page, stamp);
        let kept = Kept {
            koid: row.koid,
            page: row.page,
            readiness: row.readiness,
            made: self.time,
        };
        self.places.insert(root.0 as u64, page, kept);
        self.time += 1;
        self.room -= 1;
    }

    // The first page of a VMO that has a stamp, from page `from` to below `end`, and the stamp.
    fn next_before(&self, koid: Koid, from: PageNo, end: PageNo) -> Option<(PageNo, Stamp)>
        ensures some { IfSome result (λ next. (from ≤ next.0) × (next.0 < end) × HasNoRow (rows_of self.now) koid.0 from next.0) }
        ensures stamp { IfSome result (λ next. values_of self.now.stamps koid.0 next.0 ≡ Some next.1) }
        ensures none { IfNone result (HasNoRow (rows_of self.now) koid.0 from end) }
    {
        match self.stamps.next(koid.0, from) {
            Some(next) if next.0 < end => Some(next),
            _ => None,
        }
    }

    // Makes what shows a page of a VMO ready for nothing, if the page does not lie in the VMO or has another frame now than
    // was noted.
    fn settle_page(&mut self, pages: &FlatStore, koid: Koid, page: PageNo, stamp: Stamp)
        requires vmo { IsSome ((flat_content pages.now).count koid.0) }
        requires stamp { values_of self.old.stamps koid.0 page ≡ Some stamp }
        ensures rows { rows_of self.new
            ≡ changed_rows (row_if_current (flat_content pages.now)) koid.0 page (page + 1) (rows_of self.old) }
        ensures spare { self.new.room ≡ self.old.room }
    {
        if !has_frame(pages, koid, page, stamp.frame) {
            self.stamps.remove(koid.0, page);
        }
    }

    // Makes what shows a page of a VMO ready for reading at most, unless it stays.
    fn restrict_page(&mut self, koid: Koid, page: PageNo, stamp: Stamp, stays: bool)
        requires { values_of self.old.stamps koid.0 page ≡ Some stamp }
        ensures rows { rows_of self.new ≡ changed_rows (row_limited (λ q. stays)) koid.0 page (page + 1) (rows_of self.old) }
        ensures spare { self.new.room ≡ self.old.room }
    {
        if !stays {
            let shared = self.time;
            self.stamps.replace(koid.0, page, Stamp { shared, ..stamp });
        }
    }

    // The first page of an address space that has a note, from page `first` to below `end`.
    fn place_before(&self, root: RegionName, first: PageNo, end: PageNo) -> Option<PageNo>
        ensures some { IfSome result (λ page. (first ≤ page) × (page < end) × IsSome (values_of self.now.places root.0 page)) }
        ensures none { IfNone result ((p : ℕ) → first ≤ p → p < end → values_of self.now.places root.0 p ≡ None) }
    {
        match self.places.next(root.0 as u64, first) {
            Some((page, _)) if page < end => Some(page),
            _ => None,
        }
    }

    // Takes the note of a page of an address space away, and the stamp that no other note has.
    fn drop_place(&mut self, root: RegionName, page: PageNo)
        requires { IsSome (values_of self.old.places root.0 page) }
        ensures rows { rows_of self.new ≡ without_range (rows_of self.old) root.0 page (page + 1) }
        ensures none { values_of self.new.places root.0 page ≡ None }
        ensures fewer { count_of self.new.places + 1 ≡ count_of self.old.places }
        ensures spare { self.new.room ≡ self.old.room }
    {
        let kept = self.places.remove(root.0 as u64, page);
        lower(&mut self.stamps, kept);
    }
}
