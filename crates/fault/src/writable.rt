//! The pages that a write touches, as they are found before anything is written.

ghost use Rattle.std.specs.Prelude.{◌≡◌, ◌<◌, None, Some, MatchResult};
ghost use Rattle.mapping_set.specs.Tables.{table_of};
ghost use Rattle.page_store.specs.Pages.{look_at};
ghost use Rattle.vm_model.specs.Contents.Content.{pages_of};
ghost use Rattle.vm_model.specs.Space.Rights.{writing};
ghost use Rattle.vm_model.specs.Machine.Access.{refusal_at};
ghost use Rattle.mapping_set.specs.Backed.{AreBacked};
ghost use Rattle.fault.specs.Table.{AreTrue, translations_of};
ghost use Rattle.fault.specs.inside.Writable.{IsInStore, IsWritable, fault_of, writing_frame};

use crate::translation::Translation;
use crate::translations::Translations;
use mapping_set::MappingSet;
use page_store::{Look, PageStore};
use vm_base::{PageNo, Perm, Refusal, RegionName, Tag};
use vm_model::{Entry, Readiness};

/// A page that a write may touch.
#[derive(Clone, Copy)]
pub(crate) struct WritablePage {
    /// The entry of the page: what it shows.
    pub(crate) entry: Entry,
    /// True if it is translated.
    pub(crate) translated: bool,
    /// The number of the link that it was found under, or 0 if it is not translated.
    pub(crate) link: usize,
    /// The frame, if the page is translated for writing. No other VMO shows this frame.
    pub(crate) frame: Option<Tag>,
}

impl WritablePage {
    /// Returns the number of page faults that a write to the page takes: one, if it is not translated for writing.
    pub(crate) fn faults(&self) -> u64
        ensures { result ≡ fault_of self.now }
    {
        match self.frame {
            Some(_) => 0,
            None => 1,
        }
    }
}

impl Translations {
    /// Tests whether a write may touch a page, and answers what it finds. It is refused as `check` refuses it.
    #[inline(always)]
    pub(crate) fn check_write<P: PageStore>(
        &self,
        store: &P,
        maps: &MappingSet,
        root: RegionName,
        page: PageNo,
    ) -> Result<WritablePage, Refusal>
        requires backed { AreBacked (P.content store.now) (table_of maps.now) }
        requires translations { AreTrue (P.content store.now) (table_of maps.now) (translations_of self.now) }
        ensures { MatchResult result
            (λ found. IsWritable (P.content store.now) (table_of maps.now) (translations_of self.now) root.0 page found
            × (refusal_at (P.content store.now) writing (table_of maps.now root.0 page) ≡ None))
            (λ refusal. refusal_at (P.content store.now) writing (table_of maps.now root.0 page) ≡ Some refusal) }
    {
        match self.check(store, maps, root, page, Perm::WRITE) {
            Ok(touched) => Ok(WritablePage {
                entry: touched.entry,
                translated: touched.translation.is_some(),
                link: touched.link,
                frame: frame_to_write(touched.translation),
            }),
            Err(refusal) => Err(refusal),
        }
    }
}

/// Returns what the page of the VMO is that a write found. If the page is translated for writing, the store is not asked.
#[inline]
pub(crate) fn look<P: PageStore>(store: &P, page: &WritablePage) -> Look
    requires { IsInStore (P.content store.now) page.now }
    ensures { result ≡ look_at (P.content store.now) page.now.entry.koid.0 ((P.content store.now).page page.now.entry.koid.0 page.now.entry.page) }
{
    match page.frame {
        Some(tag) => Look::Held { tag, sole: true },
        None => look_in_store(store, page.entry),
    }
}

// What the store says of the page of the VMO.
#[inline(never)]
fn look_in_store<P: PageStore>(store: &P, entry: Entry) -> Look
    requires { entry.page < pages_of (P.content store.now) entry.koid.0 }
    ensures { result ≡ look_at (P.content store.now) entry.koid.0 ((P.content store.now).page entry.koid.0 entry.page) }
{
    store.look(entry.koid, entry.page)
}

// The frame of a page that is translated for writing.
fn frame_to_write(translation: Option<Translation>) -> Option<Tag>
    ensures { result ≡ writing_frame translation }
{
    let found = translation?;
    match found.readiness {
        Readiness::Read => None,
        Readiness::Write => found.frame,
    }
}
