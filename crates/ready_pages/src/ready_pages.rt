//! The traits of what keeps which pages are ready for an access.

ghost use Rattle.std.specs.Prelude.{◌≡◌, ◌≤◌, length, MatchResult};
ghost use Rattle.vm_base.specs.declared.limits.TheConstants.{DATA_BYTES};
ghost use Rattle.vm_model.specs.Contents.Content.{Content};
ghost use Rattle.vm_model.specs.Space.Readiness.{Ready, settled};
ghost use Rattle.mapping_set.specs.Tables.{table_of};
ghost use Rattle.mapping_set.specs.Backed.{AreBacked};
ghost use Rattle.pin_table.specs.Table.{pins_of};
ghost use Rattle.ready_pages.specs.Access.{DeniesRead, DeniesWrite, ReadsReady, WritesReady};
ghost use Rattle.ready_pages.specs.Changes.{Entries, AreReadyAt, Covers, IsBounded, left_ready};

use crate::change::Change;
use mapping_set::MappingSet;
use page_store::PageStore;
use pin_table::PinTable;
use vm_base::{Refusal, RegionName};
use vm_model::LentBytes;

/// Notes of which pages of address spaces are ready for an access.
pub trait ReadyNotes: Drop {
    /// The readiness of each page.
    ghost ready: { Self → Ready };

    /// The notes are true of pages with this content, if each page of an address space shows what its entry says.
    ghost AreTrue: { Content → Entries → Self → Type 0 };
}

/// Notes of which pages are ready for an access to what these pages hold.
pub trait ReadyPages<P: PageStore>: ReadyNotes {
    /// Takes back what a command made untrue, once the command is done (the kernel's `RangeChangeUpdate`).
    fn apply(&mut self, pages: &P, pins: &PinTable, change: Change)
        requires bounded { IsBounded (P.content pages.now) change }
        ensures left { (c : Content) (before after : Entries) → Self.AreTrue c before self.old
            → Covers change c (P.content pages.now) before after
            → Self.ready self.new ≡ left_ready change (pins_of pins.now) before (settled c (P.content pages.now) after (Self.ready self.old)) }
        ensures notes { (c : Content) (before after : Entries) → Self.AreTrue c before self.old
            → Covers change c (P.content pages.now) before after
            → AreReadyAt (P.content pages.now) after (Self.ready self.new)
            → Self.AreTrue (P.content pages.now) after self.new };

    /// Reads `len` bytes, at most `DATA_BYTES`, from an address of the address space of a root region on, into `room`,
    /// which has at least `DATA_BYTES` bytes. Returns how many page faults that took, and the bytes, lent from `room`.
    /// Each page that is not ready takes a page fault, and is then ready for reading. The first page that is refused
    /// decides the refusal: `NotFound` if nothing is mapped there, `AccessDenied` if the mapping may not be read,
    /// `OutOfRange` if the page that it shows lies past the end of the VMO. `HostMemory` if the host has too little
    /// memory, and only if a page was not ready.
    fn read<'a>(
        &mut self,
        pages: &P,
        maps: &MappingSet,
        root: RegionName,
        addr: u64,
        len: u64,
        room: &'a mut [u8],
    ) -> Result<(u64, LentBytes<'a>), Refusal>
        requires backed { AreBacked (P.content pages.now) (table_of maps.now) }
        requires notes { Self.AreTrue (P.content pages.now) (table_of maps.now) self.old }
        requires len { len ≤ DATA_BYTES }
        requires room { DATA_BYTES ≤ length room.old }
        ensures outcome { MatchResult result
            (λ pair. ReadsReady (P.content pages.now) (table_of maps.now) root.0 addr len (Self.ready self.old) pair.0 pair.1 (Self.ready self.new))
            (DeniesRead (P.content pages.now) (table_of maps.now) root.0 addr len (Self.ready self.old) (Self.ready self.new)) }
        ensures notes { Self.AreTrue (P.content pages.now) (table_of maps.now) self.new };

    /// Writes bytes, at most `DATA_BYTES`, from an address of the address space of a root region on. Returns how many page
    /// faults that took. Each page that is not ready for writing takes a page fault, which gives the page of the VMO a
    /// frame of its own if it has none. Then the page is ready for writing. Refusals are as for `read`, with `AccessDenied`
    /// if the mapping may not be written, and `NoMemory` if too few frames are free. `HostMemory` if the host has too
    /// little memory, and only if a page was not ready for writing.
    fn write(
        &mut self,
        pages: &mut P,
        maps: &MappingSet,
        root: RegionName,
        addr: u64,
        bytes: &[u8],
    ) -> Result<u64, Refusal>
        requires backed { AreBacked (P.content pages.old) (table_of maps.now) }
        requires notes { Self.AreTrue (P.content pages.old) (table_of maps.now) self.old }
        requires len { length bytes.now ≤ DATA_BYTES }
        ensures outcome { MatchResult result
            (λ faults. WritesReady (P.content pages.old) (table_of maps.now) root.0 addr bytes.now (Self.ready self.old) faults
            (P.content pages.new) (Self.ready self.new))
            (DeniesWrite (P.content pages.old) (table_of maps.now) root.0 addr (length bytes.now) (Self.ready self.old)
            (P.content pages.new) (Self.ready self.new)) }
        ensures notes { Self.AreTrue (P.content pages.new) (table_of maps.now) self.new };
}
