//! Reading through mappings.

ghost use Rattle.std.specs.Prelude.{◌≡◌, ◌+◌, ◌%◌, ◌<◌, ◌≤◌, length, take, drop, MatchResult};
ghost use Rattle.vm_base.specs.declared.limits.TheConstants.{PAGE, DATA_BYTES};
ghost use Rattle.vm_model.specs.declared.space.Readiness.TheVariants as Readiness;
ghost use Rattle.vm_model.specs.Contents.Content.{shown, pages_of};
ghost use Rattle.mapping_set.specs.Tables.{table_of};
ghost use Rattle.mapping_set.specs.Backed.{AreBacked};
ghost use Rattle.fault.specs.Table.{AreTrue, translations_of, room_of};
ghost use Rattle.fault.specs.Access.{ReadsSpace, RefusesRead, AnswersRead};
ghost use Rattle.fault.specs.inside.Touching.{IsFoundPage, IsTranslationOf, ReadsPage, missing_in};

use crate::checking::TouchedPage;
use crate::frames::frame_of;
use crate::translation::Translation;
use crate::translations::Translations;
use mapping_set::MappingSet;
use page_store::PageStore;
use vm_base::{DATA_BYTES, PAGE, PageNo, Perm, Refusal, RegionName, in_page, page_of};
use vm_model::{Bytes4k, Entry, LentBytes, Readiness};

impl Translations {
    /// Reads `len` bytes, at most `DATA_BYTES`, from an address of the address space of a root region on. Answers how
    /// many page faults that took, and the bytes. Each page that is not translated takes a page fault, and is then
    /// translated for reading. The first page that is refused decides the refusal: `NotFound` if nothing is mapped
    /// there, `AccessDenied` if the mapping may not be read, `OutOfRange` if the page that it shows lies past the end
    /// of the VMO. `HostMemory` if the host has too little memory, and only if a page was not translated.
    pub fn mem_read<P: PageStore>(
        &mut self,
        store: &P,
        maps: &MappingSet,
        root: RegionName,
        addr: u64,
        len: u64,
    ) -> Result<(u64, Bytes4k), Refusal>
        requires backed { AreBacked (P.content store.now) (table_of maps.now) }
        requires translations { AreTrue (P.content store.now) (table_of maps.now) (translations_of self.old) }
        requires len { len ≤ DATA_BYTES }
        ensures outcome { MatchResult result
            (λ pair. ReadsSpace (P.content store.now) (table_of maps.now) root.0 addr len (translations_of self.old) pair.0 pair.1 (translations_of self.new))
            (RefusesRead (P.content store.now) (table_of maps.now) root.0 addr len (translations_of self.old) (translations_of self.new)) }
        ensures translations { AreTrue (P.content store.now) (table_of maps.now) (translations_of self.new) }
    {
        let mut room = [0; DATA_BYTES];
        match self.mem_read_into(store, maps, root, addr, len, &mut room) {
            Ok((faults, bytes)) => Ok((faults, bytes.to_bytes())),
            Err(refusal) => Err(refusal),
        }
    }

    /// Reads as `mem_read` does, into `room`, which has at least `DATA_BYTES` bytes, and lends the bytes that were read
    /// from there.
    pub fn mem_read_into<'a, P: PageStore>(
        &mut self,
        store: &P,
        maps: &MappingSet,
        root: RegionName,
        addr: u64,
        len: u64,
        room: &'a mut [u8],
    ) -> Result<(u64, LentBytes<'a>), Refusal>
        requires backed { AreBacked (P.content store.now) (table_of maps.now) }
        requires translations { AreTrue (P.content store.now) (table_of maps.now) (translations_of self.old) }
        requires len { len ≤ DATA_BYTES }
        requires room { DATA_BYTES ≤ length room.old }
        ensures outcome { MatchResult result
            (λ pair. ReadsSpace (P.content store.now) (table_of maps.now) root.0 addr len (translations_of self.old) pair.0 pair.1 (translations_of self.new))
            (RefusesRead (P.content store.now) (table_of maps.now) root.0 addr len (translations_of self.old) (translations_of self.new)) }
        ensures translations { AreTrue (P.content store.now) (table_of maps.now) (translations_of self.new) }
    {
        let out = &mut room[..len as usize];
        match self.read_bytes(store, maps, root, addr, out) {
            Ok(faults) => Ok((faults, LentBytes::new(out))),
            Err(refusal) => Err(refusal),
        }
    }

    // Reads bytes, at most `DATA_BYTES`, from an address on. They lie on no page, one page or two.
    fn read_bytes<P: PageStore>(
        &mut self,
        store: &P,
        maps: &MappingSet,
        root: RegionName,
        addr: u64,
        out: &mut [u8],
    ) -> Result<u64, Refusal>
        requires backed { AreBacked (P.content store.now) (table_of maps.now) }
        requires translations { AreTrue (P.content store.now) (table_of maps.now) (translations_of self.old) }
        requires len { length out.old ≤ DATA_BYTES }
        ensures outcome { AnswersRead (P.content store.now) (table_of maps.now) root.0 addr (length out.old) (translations_of self.old)
            out.new (translations_of self.new) result }
        ensures translations { AreTrue (P.content store.now) (table_of maps.now) (translations_of self.new) }
    {
        if out.is_empty() {
            Ok(0)
        } else if in_page(addr) + out.len() as u64 <= PAGE {
            self.read_in_page(store, maps, root, addr, out)
        } else {
            self.read_in_two(store, maps, root, addr, out)
        }
    }

    // Reads bytes, at least one, of one page.
    fn read_in_page<P: PageStore>(
        &mut self,
        store: &P,
        maps: &MappingSet,
        root: RegionName,
        addr: u64,
        out: &mut [u8],
    ) -> Result<u64, Refusal>
        requires backed { AreBacked (P.content store.now) (table_of maps.now) }
        requires translations { AreTrue (P.content store.now) (table_of maps.now) (translations_of self.old) }
        requires some { 0 < length out.old }
        requires one { addr % PAGE + length out.old ≤ PAGE }
        ensures outcome { AnswersRead (P.content store.now) (table_of maps.now) root.0 addr (length out.old) (translations_of self.old)
            out.new (translations_of self.new) result }
        ensures translations { AreTrue (P.content store.now) (table_of maps.now) (translations_of self.new) }
    {
        let page = page_of(addr);
        let touched = self.check(store, maps, root, page, Perm::READ)?;
        self.reserve_missing(touched.missing())?;
        Ok(self.read_page(store, root, page, touched, in_page(addr), out))
    }

    // Reads bytes of two pages, one behind the other.
    fn read_in_two<P: PageStore>(
        &mut self,
        store: &P,
        maps: &MappingSet,
        root: RegionName,
        addr: u64,
        out: &mut [u8],
    ) -> Result<u64, Refusal>
        requires backed { AreBacked (P.content store.now) (table_of maps.now) }
        requires translations { AreTrue (P.content store.now) (table_of maps.now) (translations_of self.old) }
        requires two { PAGE < addr % PAGE + length out.old }
        requires len { length out.old ≤ DATA_BYTES }
        ensures outcome { AnswersRead (P.content store.now) (table_of maps.now) root.0 addr (length out.old) (translations_of self.old)
            out.new (translations_of self.new) result }
        ensures translations { AreTrue (P.content store.now) (table_of maps.now) (translations_of self.new) }
    {
        let page = page_of(addr);
        let next = page + 1;
        let at = in_page(addr);
        let first = self.check(store, maps, root, page, Perm::READ)?;
        let second = self.check(store, maps, root, next, Perm::READ)?;
        self.reserve_missing(first.missing() + second.missing())?;
        let (here, behind) = out.split_at_mut((PAGE - at) as usize);
        let faults = self.read_page(store, root, page, first, at, here);
        Ok(faults + self.read_page(store, root, next, second, 0, behind))
    }

    // Reads bytes of a page, from `at` bytes into the page on, and answers how many page faults that took. There is
    // room for its translation.
    #[inline(always)]
    fn read_page<P: PageStore>(
        &mut self,
        store: &P,
        root: RegionName,
        page: PageNo,
        touched: TouchedPage,
        at: u64,
        out: &mut [u8],
    ) -> u64
        requires found { IsFoundPage (P.content store.now) (translations_of self.old) root.0 page touched }
        requires room { missing_in touched ≤ room_of self.old }
        requires range { at + length out.old ≤ PAGE }
        ensures faults { result ≡ missing_in touched }
        ensures bytes { out.new ≡ take (length out.old) (drop at (shown (P.content store.now) touched.entry.koid.0 touched.entry.page)) }
        ensures places { ReadsPage (P.content store.now) root.0 page touched (translations_of self.old) (translations_of self.new) }
        ensures room { room_of self.old ≤ room_of self.new + missing_in touched }
    {
        match touched.translation {
            Some(translation) => {
                read_frame(store, translation, at, out);
                0
            }
            None => {
                let translation = to_read(store, touched.entry);
                self.translate(root, page, translation);
                read_frame(store, translation, at, out);
                1
            }
        }
    }
}

// The translation for reading of a page with this entry. The function is not inlined, so that pages that are translated pay
// nothing for it.
#[inline(never)]
fn to_read<P: PageStore>(store: &P, entry: Entry) -> Translation
    requires { entry.page < pages_of (P.content store.now) entry.koid.0 }
    ensures of_entry { IsTranslationOf (P.content store.now) entry result }
    ensures readiness { result.readiness ≡ Readiness.Read }
{
    Translation {
        entry,
        frame: frame_of(store, entry.koid, entry.page),
        readiness: Readiness::Read,
    }
}

// Reads bytes of the frame of a translation, from `at` bytes into the page on. If the translation has no frame, they
// are zeros.
fn read_frame<P: PageStore>(store: &P, translation: Translation, at: u64, out: &mut [u8])
    requires of_entry { IsTranslationOf (P.content store.now) translation.entry translation }
    requires range { at + length out.old ≤ PAGE }
    ensures { out.new ≡ take (length out.old) (drop at (shown (P.content store.now) translation.entry.koid.0 translation.entry.page)) }
{
    match translation.frame {
        Some(tag) => store.read(tag, at, out),
        None => out.fill(0),
    }
}
