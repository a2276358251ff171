//! The translations: what is kept of each page, and what is found there.

ghost use Rattle.std.specs.Prelude.{◌≡◌, ◌↔◌, ℕ, IsTrue, ◌+◌, ◌<◌, ◌≤◌, None, Some, OnOk, IsSome, IfSome, IfNone};
ghost use Rattle.std.specs.Option.{MatchOption};
ghost use Rattle.vm_base.specs.Search.{IsFirstOrNone};
ghost use Rattle.balanced_tree.specs.Pairs.{with_pair};
ghost use Rattle.slab.specs.Slab.{get};
ghost use Rattle.fault.specs.Table.{translations_of, link_of, first_links_of, room_of, translated_frame, with_translation, translations_without, is_translation_of, is_outdated, IsOfEntry};
ghost use Rattle.vm_model.specs.Space.Readiness.{frame_number};
ghost use Rattle.fault.specs.inside.Walks.{changed_where, change_by, dropped, is_place, is_translated};
ghost use Rattle.fault.specs.inside.Walks.{HasNoList, IsNextList, HasFrame, HoldElsewhere, HoldsOther};
ghost use Rattle.fault.specs.inside.Lists.{MayHold, translation_in};

use crate::lists::{drop_list, is_link_of, join, leave, may_hold, restrict_list};
use crate::page_map::PageMap;
use crate::translation::{Change, FrameList, Kept, Link, Place, Translation};
use slab::Slab;
use std::alloc::Global;
use std::marker::Model;
use vm_base::{HostMemory, Koid, PageNo, RegionName, Tag};

/// The translations of all address spaces. Contracts see the translation of each page of each address space, and how
/// many more fit with no memory from the host.
///
/// The translations of a page of a VMO are the links of a list, so they are found with no look at others, and changed one
/// after another with no look-up. All of them hold one frame. So one look at the first tells whether they hold another
/// frame than the page has now.
#[derive(Drop)]
pub struct Translations {
    /// The number of the link of each page that is translated, by the root region and the page.
    places: PageMap,
    /// The number of the first link of each page of a VMO that has a translation, by the koid and the page.
    lists: PageMap,
    /// The translations.
    links: Slab<Link>,
}

impl Model for Translations {
    ghost use Rattle.fault.specs.Table.{Table};

    ghost Value = { Table };

    ghost use Rattle.fault.specs.inside.Fields.{translation_table_of, IsTranslationTable};

    ghost view = { translation_table_of };

    ghost invariant = { IsTranslationTable };
}

impl Translations {
    /// Makes an empty set of translations: no page is translated.
    pub fn new(alloc: Global) -> Translations
        ensures { translations_of result ≡ λ root p. None }
    {
        Translations {
            places: PageMap::new(alloc),
            lists: PageMap::new(alloc),
            links: Slab::new(alloc),
        }
    }

    /// Returns whether no page of any address space is translated.
    pub fn is_empty(&self) -> bool
        ensures { IsTrue result ↔ ((root p : ℕ) → translations_of self.now root p ≡ None) }
    {
        self.places.is_empty()
    }

    /// Returns the translation of a page of an address space, with the number of its link. `None` if it has none.
    #[inline(always)]
    pub(crate) fn find(&self, root: RegionName, page: PageNo) -> Option<Kept>
        ensures { translations_of self.now root.0 page ≡ translation_in result }
    {
        match self.places.find(root.0 as u64, page) {
            Some(link) => Some(Kept {
                translation: self.links[link].translation,
                link,
            }),
            None => None,
        }
    }

    /// Makes room for `n` translations more. `HostMemory` if the host has too little memory.
    pub(crate) fn reserve(&mut self, n: usize) -> Result<(), HostMemory>
        ensures room { OnOk result (n ≤ room_of self.new) }
        ensures same { translations_of self.new ≡ translations_of self.old }
        ensures kept { room_of self.old ≤ room_of self.new }
    {
        let Ok(()) = self.places.reserve(n) else {
            return Err(HostMemory);
        };
        let Ok(()) = self.lists.reserve(n) else {
            return Err(HostMemory);
        };
        let Ok(()) = self.links.reserve(n) else {
            return Err(HostMemory);
        };
        Ok(())
    }

    /// Gives a page this translation. The page may be translated already, for the same entry. Forgets the translations
    /// of the page of the VMO that hold another frame. There is room. `link` is the link of the page, if it has one, or
    /// was. It is compared with the page before it is used.
    pub(crate) fn set(
        &mut self,
        root: RegionName,
        page: PageNo,
        link: usize,
        translation: Translation,
    )
        requires same { IsOfEntry (translations_of self.old) root.0 page translation.entry }
        requires room { 1 ≤ room_of self.old }
        ensures at { translations_of self.new
            ≡ with_translation
            (translations_without (is_outdated translation.entry.koid.0 translation.entry.page (translated_frame translation)) (translations_of self.old))
            root.0 page translation }
        ensures room { room_of self.old ≤ room_of self.new + 1 }
    {
        match self.link_with(root, page, link, translation.frame) {
            Some(link) => self.put(root, page, link, translation),
            None => self.translate(root, page, translation),
        }
    }

    /// Gives a page this translation. The page is not translated with this frame. Forgets the translations of the page
    /// of the VMO that hold another frame. There is room.
    pub(crate) fn translate(&mut self, root: RegionName, page: PageNo, translation: Translation)
        requires same { IsOfEntry (translations_of self.old) root.0 page translation.entry }
        requires other { HoldsOther (translated_frame translation) (translations_of self.old root.0 page) }
        requires room { 1 ≤ room_of self.old }
        ensures at { translations_of self.new
            ≡ with_translation
            (translations_without (is_outdated translation.entry.koid.0 translation.entry.page (translated_frame translation)) (translations_of self.old))
            root.0 page translation }
        ensures room { room_of self.old ≤ room_of self.new + 1 }
    {
        let entry = translation.entry;
        let first = self.forget_others(entry.koid, entry.page, translation.frame);
        self.add(root, page, translation, first);
    }

    // Returns the link of a page, if the page is translated and may hold this frame with no other translation forgotten:
    // it holds the frame already, or no other page shows the page of the VMO. `link` is tried first.
    fn link_with(
        &self,
        root: RegionName,
        page: PageNo,
        link: usize,
        frame: Option<Tag>,
    ) -> Option<usize>
        ensures some { IfSome result (λ at. link_of self.now root.0 page ≡ Some at) }
        ensures may { IfSome result (MayHold (get self.now.links) frame) }
        ensures none { IfNone result (HoldsOther (frame_number frame) (translations_of self.now root.0 page)) }
    {
        match self.link_at(root, page, link) {
            Some(at) => {
                if may_hold(&self.links[at], frame) {
                    Some(at)
                } else {
                    None
                }
            }
            None => None,
        }
    }

    // Returns the link of a page. `None` if it is not translated. `link` is tried first.
    fn link_at(&self, root: RegionName, page: PageNo, link: usize) -> Option<usize>
        ensures { result ≡ link_of self.now root.0 page }
    {
        if is_link_of(&self.links, link, root, page) {
            Some(link)
        } else {
            self.places.find(root.0 as u64, page)
        }
    }

    // Changes the translation of a page, whose link this is, for the same entry. The link may hold the frame with no other
    // translation forgotten: each other one of the page of the VMO holds it. The call makes no look-up.
    fn put(&mut self, root: RegionName, page: PageNo, link: usize, translation: Translation)
        requires link { link_of self.old root.0 page ≡ Some link }
        requires same { IsOfEntry (translations_of self.old) root.0 page translation.entry }
        requires may { MayHold (get self.old.links) translation.frame link }
        ensures at { translations_of self.new ≡ with_pair (translations_of self.old) root.0 page (Some translation) }
        ensures others { HoldElsewhere (translations_of self.old) root.0 page translation }
        ensures room { room_of self.new ≡ room_of self.old }
    {
        self.links[link].translation = translation;
    }

    // Translates a page that is not translated. `first` is the first link of the list of the page of the VMO, if that has
    // one, whose translations hold this frame. There is room.
    fn add(
        &mut self,
        root: RegionName,
        page: PageNo,
        translation: Translation,
        first: Option<usize>,
    )
        requires absent { translations_of self.old root.0 page ≡ None }
        requires first { first_links_of self.old translation.entry.koid.0 translation.entry.page ≡ first }
        requires frame { HasFrame (translations_of self.old) translation.entry.koid.0 translation.entry.page translation.frame }
        requires room { 1 ≤ room_of self.old }
        ensures at { translations_of self.new ≡ with_pair (translations_of self.old) root.0 page (Some translation) }
        ensures room { room_of self.old ≤ room_of self.new + 1 }
    {
        let place = Place { root, page };
        join(
            &mut self.places,
            &mut self.lists,
            &mut self.links,
            first,
            translation,
            place,
        );
    }

    /// Forgets the translation of a page that has one.
    pub(crate) fn drop_place(&mut self, root: RegionName, page: PageNo)
        requires { IsSome (translations_of self.old root.0 page) }
        ensures at { translations_of self.new ≡ changed_where dropped (λ r p x. is_place root.0 page r p) (translations_of self.old) }
        ensures room { room_of self.old ≤ room_of self.new }
    {
        leave(
            &mut self.places,
            &mut self.lists,
            &mut self.links,
            root,
            page,
        );
    }

    /// Changes the translations of a page of a VMO, whose list begins with the link `first`.
    pub(crate) fn change_list(&mut self, v: Koid, page: PageNo, first: usize, change: Change)
        requires first { first_links_of self.old v.0 page ≡ Some first }
        ensures at { translations_of self.new ≡ changed_where (change_by change) (is_translation_of v.0 page (page + 1)) (translations_of self.old) }
        ensures room { room_of self.old ≤ room_of self.new }
    {
        match change {
            Change::Forget => self.drop_list(v, page, first),
            Change::Restrict => restrict_list(&mut self.links, first),
        }
    }

    /// Forgets the translations of a page of a VMO, whose list begins with the link `first`.
    pub(crate) fn drop_list(&mut self, v: Koid, page: PageNo, first: usize)
        requires first { first_links_of self.old v.0 page ≡ Some first }
        ensures at { translations_of self.new ≡ changed_where dropped (is_translation_of v.0 page (page + 1)) (translations_of self.old) }
        ensures list { first_links_of self.new v.0 page ≡ None }
        ensures room { room_of self.old ≤ room_of self.new }
    {
        drop_list(
            &mut self.places,
            &mut self.lists,
            &mut self.links,
            v,
            page,
            first,
        );
    }

    /// Returns the first page of an address space from `from` to below `end` that is translated.
    pub(crate) fn place_below(&self, root: RegionName, from: PageNo, end: PageNo) -> Option<PageNo>
        ensures { IsFirstOrNone (is_translated (translations_of self.now) root.0) from end result }
    {
        match self.places.next(root.0 as u64, from) {
            Some((page, _)) if page < end => Some(page),
            _ => None,
        }
    }

    /// Returns the list of the translations of a page of a VMO. `None` if it has none.
    #[inline(always)]
    pub(crate) fn list_at(&self, v: Koid, page: PageNo) -> Option<FrameList>
        ensures { MatchOption result ((first_links_of self.now v.0 page ≡ None) × HasNoList (translations_of self.now) v.0 page (page + 1))
            (λ list. (first_links_of self.now v.0 page ≡ Some list.first) × HasFrame (translations_of self.now) v.0 page list.frame) }
    {
        match self.lists.find(v.0, page) {
            Some(first) => Some(FrameList {
                first,
                frame: self.links[first].translation.frame,
            }),
            None => None,
        }
    }

    /// Returns the first page of a VMO from `from` to below `end` that has translations, and their list.
    #[inline(always)]
    pub(crate) fn list_below(
        &self,
        v: Koid,
        from: PageNo,
        end: PageNo,
    ) -> Option<(PageNo, FrameList)>
        ensures { MatchOption result (HasNoList (translations_of self.now) v.0 from end)
            (λ found. IsNextList (translations_of self.now) v.0 from end found.0
            × (first_links_of self.now v.0 found.0 ≡ Some found.1.first) × HasFrame (translations_of self.now) v.0 found.0 found.1.frame) }
    {
        if end <= from {
            return None;
        }
        if end - from > 1 {
            return self.next_list(v, from, end);
        }
        match self.list_at(v, from) {
            Some(list) => Some((from, list)),
            None => None,
        }
    }

    /// Does what `list_below` does, by a search for the next list.
    #[inline(always)]
    pub(crate) fn next_list(
        &self,
        v: Koid,
        from: PageNo,
        end: PageNo,
    ) -> Option<(PageNo, FrameList)>
        ensures { MatchOption result (HasNoList (translations_of self.now) v.0 from end)
            (λ found. IsNextList (translations_of self.now) v.0 from end found.0
            × (first_links_of self.now v.0 found.0 ≡ Some found.1.first) × HasFrame (translations_of self.now) v.0 found.0 found.1.frame) }
    {
        match self.lists.next(v.0, from) {
            Some((page, first)) if page < end => {
                let frame = self.links[first].translation.frame;
                Some((page, FrameList { first, frame }))
            }
            _ => None,
        }
    }
}
