//! How translations are forgotten, or left for reading alone.

ghost use Rattle.std.specs.Prelude.{◌≡◌, ◌+◌, ◌≤◌, Some, IsSome};
ghost use Rattle.vm_base.specs.declared.limits.TheConstants.{PAGES_END};
ghost use Rattle.vm_base.specs.Search.{IsFirstOrNone};
ghost use Rattle.vm_model.specs.Contents.Content.{pages_of};
ghost use Rattle.vm_model.specs.Naming.Pins.{is_pinned};
ghost use Rattle.pin_table.specs.Table.{pins_of};
ghost use Rattle.fault.specs.Table.{translations_of, first_links_of, room_of, translations_without, is_translation_of, is_stale, is_outdated, is_at, with_read_only};
ghost use Rattle.vm_model.specs.Space.Readiness.{frame_number};
ghost use Rattle.fault.specs.inside.Walks.{HasFrame, changed_where, change_by, dropped};
ghost use Rattle.fault.specs.inside.Left.{with_read_only_but};

use crate::frames::{frame_of, have_same_frame};
use crate::translation::{Change, FrameList};
use crate::translations::Translations;
use page_store::PageStore;
use pin_table::PinTable;
use vm_base::{Koid, PageNo, RegionName, Tag};

impl Translations {
    /// Forgets those translations of `count` pages of a VMO, from page `first` on, that hold another frame than the
    /// page has now.
    pub fn forget_changed<P: PageStore>(&mut self, store: &P, v: Koid, first: PageNo, count: u64)
        requires vmo { IsSome ((P.content store.now).count v.0) }
        requires range { first + count ≤ pages_of (P.content store.now) v.0 }
        ensures at { translations_of self.new ≡ translations_without (is_stale (P.content store.now) v.0 first (first + count)) (translations_of self.old) }
        ensures room { room_of self.old ≤ room_of self.new }
    {
        // A VMO has no more pages than fit a number.
        let _pages = store.count(v);
        let end = first + count;
        let mut from = first;
        while let Some((page, list)) = self.list_below(v, from, end) {
            self.forget_other(v, page, list, frame_of(store, v, page));
            from = page + 1;
        }
    }

    /// Forgets the translations of a page of a VMO that hold another frame than `frame`. Answers the first link of the
    /// list of those that stay, if there are some.
    pub(crate) fn forget_others(
        &mut self,
        v: Koid,
        page: PageNo,
        frame: Option<Tag>,
    ) -> Option<usize>
        ensures at { translations_of self.new
            ≡ changed_where dropped (is_outdated v.0 page (frame_number frame)) (translations_of self.old) }
        ensures first { first_links_of self.new v.0 page ≡ result }
        ensures frame { HasFrame (translations_of self.new) v.0 page frame }
        ensures room { room_of self.old ≤ room_of self.new }
    {
        match self.list_at(v, page) {
            Some(list) => self.forget_other(v, page, list, frame),
            None => None,
        }
    }

    // Forgets the translations of a page of a VMO, whose list this is, if they hold another frame than `frame`. Otherwise
    // answers the first link of the list, which stays. All of them hold the list's frame, so none of those that stay is
    // looked at.
    #[inline(always)]
    fn forget_other(
        &mut self,
        v: Koid,
        page: PageNo,
        list: FrameList,
        frame: Option<Tag>,
    ) -> Option<usize>
        requires first { first_links_of self.old v.0 page ≡ Some list.first }
        requires frame { HasFrame (translations_of self.old) v.0 page list.frame }
        ensures at { translations_of self.new
            ≡ changed_where dropped (is_outdated v.0 page (frame_number frame)) (translations_of self.old) }
        ensures first { first_links_of self.new v.0 page ≡ result }
        ensures frame { HasFrame (translations_of self.new) v.0 page frame }
        ensures room { room_of self.old ≤ room_of self.new }
    {
        if have_same_frame(list.frame, frame) {
            return Some(list.first);
        }
        self.drop_list(v, page, list.first);
        None
    }

    /// Forgets the translations of `count` pages of a VMO from the page `first` on.
    pub fn forget(&mut self, v: Koid, first: PageNo, count: u64)
        requires range { first + count ≤ PAGES_END }
        ensures at { translations_of self.new ≡ translations_without (is_translation_of v.0 first (first + count)) (translations_of self.old) }
        ensures room { room_of self.old ≤ room_of self.new }
    {
        self.change_pages(v, first, count, Change::Forget);
    }

    /// Forgets the translations of `count` pages of an address space from the page `first` on.
    pub fn forget_at(&mut self, root: RegionName, first: PageNo, count: u64)
        requires range { first + count ≤ PAGES_END }
        ensures at { translations_of self.new ≡ translations_without (is_at root.0 first (first + count)) (translations_of self.old) }
        ensures room { room_of self.old ≤ room_of self.new }
    {
        let end = first + count;
        let mut from = first;
        while let Some(page) = self.place_below(root, from, end) {
            self.drop_place(root, page);
            from = page + 1;
        }
    }

    /// Leaves the translations of `count` pages of a VMO from the page `first` on for reading alone.
    pub fn make_readonly(&mut self, v: Koid, first: PageNo, count: u64)
        requires range { first + count ≤ PAGES_END }
        ensures at { translations_of self.new ≡ with_read_only v.0 first (first + count) (translations_of self.old) }
        ensures room { room_of self.old ≤ room_of self.new }
    {
        self.change_pages(v, first, count, Change::Restrict);
    }

    /// Leaves the translations of pages of a VMO from `first` to below `end` for reading alone, except those of pinned
    /// pages. It goes by one gap between pinned pages after another.
    pub(crate) fn make_readonly_but(&mut self, pins: &PinTable, v: Koid, first: PageNo, end: PageNo)
        requires order { first ≤ end }
        requires range { end ≤ PAGES_END }
        ensures { translations_of self.new ≡ with_read_only_but (is_pinned (pins_of pins.now) v.0) v.0 first end (translations_of self.old) }
    {
        let mut from = first;
        while let Some(pinned) = next_pinned_below(pins, v, from, end) {
            self.make_readonly(v, from, pinned - from);
            from = pinned + 1;
        }
        self.make_readonly(v, from, end - from);
    }

    // Changes the translations of `count` pages of a VMO from the page `first` on.
    fn change_pages(&mut self, v: Koid, first: PageNo, count: u64, change: Change)
        requires range { first + count ≤ PAGES_END }
        ensures at { translations_of self.new
            ≡ changed_where (change_by change) (is_translation_of v.0 first (first + count)) (translations_of self.old) }
        ensures room { room_of self.old ≤ room_of self.new }
    {
        let end = first + count;
        let mut from = first;
        while let Some((page, list)) = self.next_list(v, from, end) {
            self.change_list(v, page, list.first, change);
            from = page + 1;
        }
    }
}

// The first pinned page of a VMO from `from` to below `end`. `None` if and only if none is.
fn next_pinned_below(pins: &PinTable, v: Koid, from: PageNo, end: PageNo) -> Option<PageNo>
    ensures { IsFirstOrNone (is_pinned (pins_of pins.now) v.0) from end result }
{
    let Some(page) = pins.next_pinned(v, from) else {
        return None;
    };
    if page >= end {
        return None;
    }
    Some(page)
}
