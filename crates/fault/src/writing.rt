//! Writing through mappings.

ghost use Rattle.std.specs.Prelude.{◌≡◌, ℕ, ◌+◌, ◌/◌, ◌%◌, ◌<◌, ◌≤◌, length, Option, IfErr, OnOk, MatchResult, is_some, if◌then◌else◌};
ghost use Rattle.vm_base.specs.declared.limits.TheConstants.{PAGE, PAGES_END, DATA_BYTES};
ghost use Rattle.mapping_set.specs.Tables.{table_of};
ghost use Rattle.vm_model.specs.declared.space.Entry.{Entry};
ghost use Rattle.vm_model.specs.Contents.Content.{IsGood};
ghost use Rattle.vm_model.specs.Contents.Owning.{Owns};
ghost use Rattle.mapping_set.specs.Backed.{AreBacked};
ghost use Rattle.fault.specs.Table.{AreTrue, IsOfEntry, translations_of, room_of};
ghost use Rattle.fault.specs.Access.{AnswersWrite, WritesSpace};
ghost use Rattle.fault.specs.inside.Both.{AreFound, FindsWritable, RefusesTwo};
ghost use Rattle.fault.specs.inside.Writable.{IsInStore, IsAbsent, WritesTo, fault_of, faulted};
ghost use Rattle.page_store.specs.Needs.{MayOwn};
ghost use Rattle.fault.specs.inside.Needing.{HasRoomToWrite, LacksRoomToWrite};

use crate::needing::{frames_for_one, frames_needed};
use crate::translation::Translation;
use crate::translations::Translations;
use crate::writable::WritablePage;
use mapping_set::MappingSet;
use page_store::PageStore;
use vm_base::{DATA_BYTES, PAGE, PageNo, Refusal, RegionName, Tag, in_page, page_of};
use vm_model::Readiness;

impl Translations {
    /// Writes bytes, at most `DATA_BYTES`, from an address of the address space of a root region on. Answers how many
    /// page faults that took. Each page that is not translated for writing takes a page fault: the page of the VMO is
    /// owned (copy on write), its other translations are forgotten if its frame changed, and the page is translated for
    /// writing. The first page that is refused decides the refusal: `NotFound` if nothing is mapped there,
    /// `AccessDenied` if the mapping may not be written, `OutOfRange` if the page that it shows lies past the end of
    /// the VMO. Behind these comes `NoMemory` if too few frames are free. `HostMemory` if the host has too little
    /// memory, and only if a page was not translated for writing. A refusal writes nothing.
    pub fn mem_write<P: PageStore>(
        &mut self,
        store: &mut P,
        maps: &MappingSet,
        root: RegionName,
        addr: u64,
        bytes: &[u8],
    ) -> Result<u64, Refusal>
        requires backed { AreBacked (P.content store.old) (table_of maps.now) }
        requires translations { AreTrue (P.content store.old) (table_of maps.now) (translations_of self.old) }
        requires len { length bytes.now ≤ DATA_BYTES }
        ensures outcome { AnswersWrite (P.content store.old) (table_of maps.now) root.0 addr bytes.now (translations_of self.old)
            (P.content store.new) (translations_of self.new) result }
        ensures translations { AreTrue (P.content store.new) (table_of maps.now) (translations_of self.new) }
    {
        if bytes.is_empty() {
            return Ok(0);
        }
        if in_page(addr) + bytes.len() as u64 <= PAGE {
            self.write_in_page(store, maps, root, addr, bytes)
        } else {
            self.write_in_two(store, maps, root, addr, bytes)
        }
    }

    // Writes bytes, at least one, that fall into one page, as `mem_write` does.
    fn write_in_page<P: PageStore>(
        &mut self,
        store: &mut P,
        maps: &MappingSet,
        root: RegionName,
        addr: u64,
        bytes: &[u8],
    ) -> Result<u64, Refusal>
        requires backed { AreBacked (P.content store.old) (table_of maps.now) }
        requires translations { AreTrue (P.content store.old) (table_of maps.now) (translations_of self.old) }
        requires some { 0 < length bytes.now }
        requires one { addr % PAGE + length bytes.now ≤ PAGE }
        ensures outcome { AnswersWrite (P.content store.old) (table_of maps.now) root.0 addr bytes.now (translations_of self.old)
            (P.content store.new) (translations_of self.new) result }
        ensures translations { AreTrue (P.content store.new) (table_of maps.now) (translations_of self.new) }
    {
        let page = page_of(addr);
        let found = match self.check_write(store, maps, root, page) {
            Ok(found) => found,
            Err(refusal) => return Err(refusal),
        };
        let need = frames_for_one(store, &found);
        let faults = found.faults();
        match self.make_ready(store, need, faults) {
            Ok(()) => {}
            Err(refusal) => return Err(refusal),
        }
        self.write_page(store, root, page, found, in_page(addr), bytes);
        Ok(faults)
    }

    // Writes bytes that fall into two pages, as `mem_write` does.
    fn write_in_two<P: PageStore>(
        &mut self,
        store: &mut P,
        maps: &MappingSet,
        root: RegionName,
        addr: u64,
        bytes: &[u8],
    ) -> Result<u64, Refusal>
        requires backed { AreBacked (P.content store.old) (table_of maps.now) }
        requires translations { AreTrue (P.content store.old) (table_of maps.now) (translations_of self.old) }
        requires len { length bytes.now ≤ DATA_BYTES }
        requires two { PAGE < addr % PAGE + length bytes.now }
        ensures outcome { AnswersWrite (P.content store.old) (table_of maps.now) root.0 addr bytes.now (translations_of self.old)
            (P.content store.new) (translations_of self.new) result }
        ensures translations { AreTrue (P.content store.new) (table_of maps.now) (translations_of self.new) }
    {
        let (first, second) = match self.check_two(store, maps, root, page_of(addr)) {
            Ok(found) => found,
            Err(refusal) => return Err(refusal),
        };
        let need = frames_needed(store, &first, &second);
        let faults = first.faults() + second.faults();
        match self.make_ready(store, need, faults) {
            Ok(()) => {}
            Err(refusal) => return Err(refusal),
        }
        self.write_both(store, root, addr, bytes, first, second);
        Ok(faults)
    }

    // What a write finds of a page and of the one behind it, or why the first of the two that refuses it does.
    fn check_two<P: PageStore>(
        &self,
        store: &P,
        maps: &MappingSet,
        root: RegionName,
        page: PageNo,
    ) -> Result<(WritablePage, WritablePage), Refusal>
        requires backed { AreBacked (P.content store.now) (table_of maps.now) }
        requires translations { AreTrue (P.content store.now) (table_of maps.now) (translations_of self.now) }
        requires page { page < PAGES_END }
        ensures { MatchResult result
            (λ found. FindsWritable (P.content store.now) (table_of maps.now) (translations_of self.now) root.0 page found.0
            × FindsWritable (P.content store.now) (table_of maps.now) (translations_of self.now) root.0 (page + 1) found.1)
            (λ refusal. RefusesTwo (P.content store.now) (table_of maps.now) root.0 page refusal) }
    {
        let first = match self.check_write(store, maps, root, page) {
            Ok(first) => first,
            Err(refusal) => return Err(refusal),
        };
        let second = match self.check_write(store, maps, root, page + 1) {
            Ok(second) => second,
            Err(refusal) => return Err(refusal),
        };
        Ok((first, second))
    }

    // Writes bytes that fall into two pages, of which both may be written, where the room for it is there.
    fn write_both<P: PageStore>(
        &mut self,
        store: &mut P,
        root: RegionName,
        addr: u64,
        bytes: &[u8],
        first: WritablePage,
        second: WritablePage,
    )
        requires found { (table : ℕ → ℕ → Option Entry)
            × AreFound (P.content store.old) table (translations_of self.old) root.0 (addr / PAGE) first second }
        requires len { length bytes.now ≤ DATA_BYTES }
        requires two { PAGE < addr % PAGE + length bytes.now }
        requires spare { fault_of first + fault_of second ≤ P.spare store.old }
        requires room { fault_of first + fault_of second ≤ room_of self.old }
        ensures writes { (table : ℕ → ℕ → Option Entry)
            → AreFound (P.content store.old) table (translations_of self.old) root.0 (addr / PAGE) first second
            → WritesSpace (P.content store.old) table root.0 addr bytes.now (translations_of self.old) (fault_of first + fault_of second)
            (P.content store.new) (translations_of self.new)
            × AreTrue (P.content store.new) table (translations_of self.new) }
    {
        let page = page_of(addr);
        let at = in_page(addr);
        let (head, tail) = bytes.split_at((PAGE - at) as usize);
        self.write_page(store, root, page, first, at, head);
        self.write_page(store, root, page + 1, second, 0, tail);
    }

    // Makes room for `faults` page faults of a write. `NoMemory` if fewer frames are free than the write needs, else
    // `HostMemory`.
    fn make_ready<P: PageStore>(
        &mut self,
        store: &mut P,
        need: u64,
        faults: u64,
    ) -> Result<(), Refusal>
        ensures content { P.content store.new ≡ P.content store.old }
        ensures places { translations_of self.new ≡ translations_of self.old }
        ensures ok { OnOk result (HasRoomToWrite (P.content store.old) need faults (P.spare store.new) (room_of self.new)) }
        ensures err { IfErr result (LacksRoomToWrite (P.content store.old) need faults) }
    {
        if need > u64::from(store.free()) {
            return Err(Refusal::NoMemory);
        }
        if faults == 0 {
            return Ok(());
        }
        let Ok(()) = self.reserve(faults as usize) else {
            return Err(Refusal::HostMemory);
        };
        let Ok(()) = store.reserve(faults) else {
            return Err(Refusal::HostMemory);
        };
        Ok(())
    }

    // Writes bytes to one page, from `at` bytes into the page on. There is room for it.
    fn write_page<P: PageStore>(
        &mut self,
        store: &mut P,
        root: RegionName,
        page: PageNo,
        found: WritablePage,
        at: u64,
        bytes: &[u8],
    )
        requires good { IsGood (P.content store.old) }
        requires found { IsInStore (P.content store.old) found }
        requires same { IsOfEntry (translations_of self.old) root.0 page found.entry }
        requires absent { IsAbsent (translations_of self.old) root.0 page found }
        requires within { at + length bytes.now ≤ PAGE }
        requires free { MayOwn (P.content store.old) found.entry.koid.0 found.entry.page }
        requires spare { fault_of found ≤ P.spare store.old }
        requires room { fault_of found ≤ room_of self.old }
        ensures writes { WritesTo root.0 page found at bytes.now (P.content store.old) (translations_of self.old)
            (P.content store.new) (translations_of self.new) }
        ensures spare { P.spare store.old ≤ P.spare store.new + fault_of found }
        ensures room { room_of self.old ≤ room_of self.new + fault_of found }
    {
        let tag = self.own(store, root, page, found);
        store.write(tag, at, bytes);
    }

    // Makes the page of the VMO sole, and answers its frame. If the page is not translated for writing, this takes a
    // page fault.
    #[inline]
    fn own<P: PageStore>(
        &mut self,
        store: &mut P,
        root: RegionName,
        page: PageNo,
        found: WritablePage,
    ) -> Tag
        requires good { IsGood (P.content store.old) }
        requires found { IsInStore (P.content store.old) found }
        requires same { IsOfEntry (translations_of self.old) root.0 page found.entry }
        requires absent { IsAbsent (translations_of self.old) root.0 page found }
        requires free { MayOwn (P.content store.old) found.entry.koid.0 found.entry.page }
        requires spare { fault_of found ≤ P.spare store.old }
        requires room { fault_of found ≤ room_of self.old }
        ensures owns { Owns (P.content store.old) (P.content store.new) found.entry.koid.0 found.entry.page result.0 }
        ensures places { translations_of self.new ≡ (if is_some found.frame then translations_of self.old
            else faulted (translations_of self.old) root.0 page found.entry result) }
        ensures spare { P.spare store.old ≤ P.spare store.new + fault_of found }
        ensures room { room_of self.old ≤ room_of self.new + fault_of found }
    {
        match found.frame {
            Some(tag) => tag,
            None => self.fault(store, root, page, found),
        }
    }

    // Takes a page fault for writing, owns the page of the VMO, and answers its frame.
    #[inline(never)]
    fn fault<P: PageStore>(
        &mut self,
        store: &mut P,
        root: RegionName,
        page: PageNo,
        found: WritablePage,
    ) -> Tag
        requires good { IsGood (P.content store.old) }
        requires found { IsInStore (P.content store.old) found }
        requires same { IsOfEntry (translations_of self.old) root.0 page found.entry }
        requires absent { IsAbsent (translations_of self.old) root.0 page found }
        requires free { MayOwn (P.content store.old) found.entry.koid.0 found.entry.page }
        requires spare { 1 ≤ P.spare store.old }
        requires room { 1 ≤ room_of self.old }
        ensures owns { Owns (P.content store.old) (P.content store.new) found.entry.koid.0 found.entry.page result.0 }
        ensures places { translations_of self.new ≡ faulted (translations_of self.old) root.0 page found.entry result }
        ensures spare { P.spare store.old ≤ P.spare store.new + 1 }
        ensures room { room_of self.old ≤ room_of self.new + 1 }
    {
        let tag = store.own(found.entry.koid, found.entry.page);
        self.translate_to_write(root, page, found, tag);
        tag
    }

    // Translates a page for writing, with the frame of the page of the VMO.
    fn translate_to_write(&mut self, root: RegionName, page: PageNo, found: WritablePage, tag: Tag)
        requires same { IsOfEntry (translations_of self.old) root.0 page found.entry }
        requires absent { IsAbsent (translations_of self.old) root.0 page found }
        requires room { 1 ≤ room_of self.old }
        ensures places { translations_of self.new ≡ faulted (translations_of self.old) root.0 page found.entry tag }
        ensures room { room_of self.old ≤ room_of self.new + 1 }
    {
        let translation = Translation {
            entry: found.entry,
            frame: Some(tag),
            readiness: Readiness::Write,
        };
        if found.translated {
            self.set(root, page, found.link, translation);
        } else {
            self.translate(root, page, translation);
        }
    }
}
