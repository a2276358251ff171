//! Whether an access may touch a page, and room for the translations that it makes.

ghost use Rattle.std.specs.Prelude.{◌≡◌, ◌<◌, ◌≤◌, None, Some, MatchResult};
ghost use Rattle.mapping_set.specs.Tables.{table_of};
ghost use Rattle.vm_model.specs.Machine.Access.{refusal_at};
ghost use Rattle.vm_base.specs.declared.refusal.Refusal.TheVariants as Refusal;
ghost use Rattle.mapping_set.specs.Backed.{AreBacked};
ghost use Rattle.fault.specs.Table.{AreTrue, translations_of, room_of};
ghost use Rattle.fault.specs.inside.Touching.{IsTouched, missing_in};

use crate::translation::Translation;
use crate::translations::Translations;
use bitflags::Flags;
use mapping_set::MappingSet;
use page_store::PageStore;
use vm_base::{PageNo, Perm, Refusal, RegionName};
use vm_model::Entry;

/// A page that an access may touch.
#[derive(Clone, Copy)]
pub(crate) struct TouchedPage {
    /// The entry of the page: what it shows.
    pub(crate) entry: Entry,
    /// Its translation. `None` if it is not translated.
    pub(crate) translation: Option<Translation>,
    /// The number of the link of its translation, or 0 if it is not translated.
    pub(crate) link: usize,
}

impl TouchedPage {
    /// Returns the number of translations that are missing before the page can be read.
    pub(crate) fn missing(&self) -> usize
        ensures { result ≡ missing_in self.now }
    {
        usize::from(self.translation.is_none())
    }
}

impl Translations {
    /// Tests whether an access with this right may touch a page, and answers what it finds. Refusals, in their order:
    /// `NotFound` if the page has no entry, `AccessDenied` if the entry lacks the right, `OutOfRange` if the entry
    /// shows a page past the end of the VMO. If the page has a translation, neither the mappings nor the store are
    /// asked.
    #[inline(always)]
    #[tactic(auto, using(vm_model::proofs::ThroughLaws::check_laws), unfolding(vm_model::specs::Machine::Access::refusal_at))]
    pub(crate) fn check<P: PageStore>(
        &self,
        store: &P,
        maps: &MappingSet,
        root: RegionName,
        page: PageNo,
        right: Perm,
    ) -> Result<TouchedPage, Refusal>
        requires backed { AreBacked (P.content store.now) (table_of maps.now) }
        requires translations { AreTrue (P.content store.now) (table_of maps.now) (translations_of self.now) }
        ensures { MatchResult result
            (λ touched. IsTouched (P.content store.now) (table_of maps.now) (translations_of self.now) right.0 root.0 page touched)
            (λ refusal. refusal_at (P.content store.now) right.0 (table_of maps.now root.0 page) ≡ Some refusal) }
    {
        match self.find(root, page) {
            Some(kept) => {
                let entry = kept.translation.entry;
                if !entry.perm.contains(right) {
                    return Err(Refusal::AccessDenied);
                }
                Ok(TouchedPage {
                    entry,
                    translation: Some(kept.translation),
                    link: kept.link,
                })
            }
            None => self.check_entry(store, maps, root, page, right),
        }
    }

    // Does what `check` does for a page that is not translated. The function is not inlined, so that the other pages pay
    // nothing for it.
    #[inline(never)]
    #[tactic(auto, using(vm_model::proofs::ThroughLaws::check_laws), unfolding(vm_model::specs::Machine::Access::refusal_at))]
    fn check_entry<P: PageStore>(
        &self,
        store: &P,
        maps: &MappingSet,
        root: RegionName,
        page: PageNo,
        right: Perm,
    ) -> Result<TouchedPage, Refusal>
        requires backed { AreBacked (P.content store.now) (table_of maps.now) }
        requires absent { translations_of self.now root.0 page ≡ None }
        ensures { MatchResult result
            (λ touched. IsTouched (P.content store.now) (table_of maps.now) (translations_of self.now) right.0 root.0 page touched)
            (λ refusal. refusal_at (P.content store.now) right.0 (table_of maps.now root.0 page) ≡ Some refusal) }
    {
        let Some(entry) = maps.at(root, page) else {
            return Err(Refusal::NotFound);
        };
        if !entry.perm.contains(right) {
            return Err(Refusal::AccessDenied);
        }
        if entry.page >= store.count(entry.koid) {
            return Err(Refusal::OutOfRange);
        }
        Ok(TouchedPage {
            entry,
            translation: None,
            link: 0,
        })
    }

    /// Makes room for `n` translations more. `n` may be 0. `HostMemory` if the host has too little memory.
    pub(crate) fn reserve_missing(&mut self, n: usize) -> Result<(), Refusal>
        ensures room { MatchResult result (λ done. n ≤ room_of self.new) (λ refusal. (refusal ≡ Refusal.HostMemory) × (0 < n)) }
        ensures same { translations_of self.new ≡ translations_of self.old }
    {
        if n == 0 {
            return Ok(());
        }
        let Ok(()) = self.reserve(n) else {
            return Err(Refusal::HostMemory);
        };
        Ok(())
    }
}
