//! The map of what is ready keeps which pages are ready over the plain store.

ghost use Rattle.checker_ready.specs.Notes.{rows_of, ready_in, AreGoodNotes};

use crate::finding::{find_readable, find_writable};
use crate::places::Place;
use crate::reading::read_touched;
use crate::ready_map::ReadyMap;
use crate::touching::touch;
use crate::writing::{make_room, write_touched};
use mapping_set::MappingSet;
use page_store::FlatStore;
use pin_table::PinTable;
use ready_pages::{Change, ReadyNotes, ReadyPages};
use vm_base::{Refusal, RegionName, VMO_PAGES};
use vm_model::{LentBytes, Readiness};

impl ReadyNotes for ReadyMap {
    ghost ready = { λ m. ready_in (rows_of m) };

    ghost AreTrue = { λ c table m. AreGoodNotes c table (rows_of m) };
}

impl ReadyPages<FlatStore> for ReadyMap {
    fn apply(&mut self, pages: &FlatStore, pins: &PinTable, change: Change) {
        match change {
            Change::None => {}
            Change::Frames { koid, first, end } => self.settle(pages, koid, first, end),
            Change::Past { koid, first } => self.settle(pages, koid, first, VMO_PAGES),
            Change::Shared { koid, first, end } => self.restrict(koid, first, end, pins),
            Change::Mapped { root, first, end } => self.drop_range(root, first, end),
        }
    }

    fn read<'a>(
        &mut self,
        pages: &FlatStore,
        maps: &MappingSet,
        root: RegionName,
        addr: u64,
        len: u64,
        room: &'a mut [u8],
    ) -> Result<(u64, LentBytes<'a>), Refusal> {
        let found = match find_readable(pages, maps, root, addr, len) {
            Ok(found) => found,
            Err(refusal) => return Err(refusal),
        };
        let place = Place { root, addr };
        let accessed = touch(self, place, found, Readiness::Read);
        let faults = accessed.faults();
        let Ok(()) = self.reserve(faults) else {
            return Err(Refusal::HostMemory);
        };
        let out = &mut room[..len as usize];
        read_touched(pages, self, place, accessed, out);
        Ok((faults, LentBytes::new(out)))
    }

    fn write(
        &mut self,
        pages: &mut FlatStore,
        maps: &MappingSet,
        root: RegionName,
        addr: u64,
        bytes: &[u8],
    ) -> Result<u64, Refusal> {
        let found = match find_writable(pages, maps, root, addr, bytes.len() as u64) {
            Ok(found) => found,
            Err(refusal) => return Err(refusal),
        };
        let place = Place { root, addr };
        let accessed = touch(self, place, found, Readiness::Write);
        let faults = accessed.faults();
        let Ok(()) = make_room(pages, self, faults) else {
            return Err(Refusal::HostMemory);
        };
        write_touched(pages, self, place, accessed, bytes);
        Ok(faults)
    }
}
