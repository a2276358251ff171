//! Translations are notes of which pages are ready (`ready_pages`).

ghost use Rattle.std.specs.Prelude.{◌≡◌};
ghost use Rattle.pin_table.specs.Table.{pins_of};
ghost use Rattle.ready_pages.specs.Changes.{IsBounded};
ghost use Rattle.fault.specs.Table.{translations_of, ready_of, AreTrue};
ghost use Rattle.fault.specs.inside.Left.{left_by};

use crate::translations::Translations;
use mapping_set::MappingSet;
use page_store::PageStore;
use pin_table::PinTable;
use ready_pages::{Change, ReadyNotes, ReadyPages};
use vm_base::{Refusal, RegionName, VMO_PAGES};
use vm_model::LentBytes;

impl ReadyNotes for Translations {
    ghost ready = { λ x. ready_of (translations_of x) };

    ghost AreTrue = { λ c table x. AreTrue c table (translations_of x) };
}

impl<P: PageStore> ReadyPages<P> for Translations {
    // If no page is translated, this costs one test.
    #[inline(always)]
    fn apply(&mut self, pages: &P, pins: &PinTable, change: Change) {
        if self.is_empty() {
            return;
        }
        self.take_back(pages, pins, change);
    }

    #[inline(always)]
    fn read<'a>(
        &mut self,
        pages: &P,
        maps: &MappingSet,
        root: RegionName,
        addr: u64,
        len: u64,
        room: &'a mut [u8],
    ) -> Result<(u64, LentBytes<'a>), Refusal> {
        self.mem_read_into(pages, maps, root, addr, len, room)
    }

    #[inline(always)]
    fn write(
        &mut self,
        pages: &mut P,
        maps: &MappingSet,
        root: RegionName,
        addr: u64,
        bytes: &[u8],
    ) -> Result<u64, Refusal> {
        self.mem_write(pages, maps, root, addr, bytes)
    }
}

impl Translations {
    // Forgets the translations that a change made untrue, or leaves them for reading alone.
    #[inline(always)]
    fn take_back<P: PageStore>(&mut self, store: &P, pins: &PinTable, change: Change)
        requires { IsBounded (P.content store.now) change }
        ensures { translations_of self.new ≡ left_by change (P.content store.now) (pins_of pins.now) (translations_of self.old) }
    {
        match change {
            Change::None => {}
            Change::Frames { koid, first, end } => {
                self.forget_changed(store, koid, first, end - first);
            }
            Change::Past { koid, first } => self.forget(koid, first, VMO_PAGES - first),
            Change::Shared { koid, first, end } => self.make_readonly_but(pins, koid, first, end),
            Change::Mapped { root, first, end } => self.forget_at(root, first, end - first),
        }
    }
}
