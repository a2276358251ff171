//! The commands of the machine.

use crate::bytes::Bytes4k;
use vm_base::{MapFlags, Perm, PinName, RegionName, VmoName};

/// The pages of its parent that a child of a VMO shows (`ZX_VMO_CHILD_*`).
#[derive(Clone, Copy, Debug, PartialEq, Eq, Hash)]
pub enum ChildKind {
    /// The parent's pages as they are now, copied on write (`ZX_VMO_CHILD_SNAPSHOT`).
    Snapshot,
    /// A part of the parent's own pages (`ZX_VMO_CHILD_SLICE`).
    Slice,
    /// All of the parent's own pages (`ZX_VMO_CHILD_REFERENCE`).
    Reference,
}

/// A command, one call on the kernel. Offsets, lengths, sizes and addresses are in bytes; an offset is
/// counted from the first byte of its VMO or region. `B` is the bytes that it writes.
#[derive(Drop)]
pub enum Command<B: Drop = Bytes4k> {
    /// Makes a VMO whose pages are all zeros (`zx_vmo_create`). Its size is rounded up to whole pages.
    VmoCreate {
        name: VmoName,
        size: u64,
        resizable: bool,
    },
    /// Makes a child of a VMO (`zx_vmo_create_child`).
    VmoChild {
        name: VmoName,
        parent: VmoName,
        kind: ChildKind,
        offset: u64,
        size: u64,
        resizable: bool,
        no_write: bool,
    },
    /// Closes a name of a VMO (`zx_handle_close`).
    VmoClose {
        name: VmoName,
    },
    /// Asks for the size of a VMO (`zx_vmo_get_size`).
    VmoSize {
        name: VmoName,
    },
    /// Changes the size of a VMO (`zx_vmo_set_size`).
    VmoSetSize {
        name: VmoName,
        size: u64,
    },
    /// Reads bytes of a VMO (`zx_vmo_read`).
    VmoRead {
        name: VmoName,
        offset: u64,
        len: u64,
    },
    /// Writes bytes to a VMO (`zx_vmo_write`).
    VmoWrite {
        name: VmoName,
        offset: u64,
        bytes: B,
    },
    /// Writes one byte to every place of a range.
    VmoFill {
        name: VmoName,
        offset: u64,
        len: u64,
        byte: u8,
    },
    /// Gives the pages of a range frames of their own (`ZX_VMO_OP_COMMIT`).
    VmoCommit {
        name: VmoName,
        offset: u64,
        len: u64,
    },
    /// Gives the frames of the pages of a range back (`ZX_VMO_OP_DECOMMIT`).
    VmoDecommit {
        name: VmoName,
        offset: u64,
        len: u64,
    },
    /// Makes the bytes of a range zeros (`ZX_VMO_OP_ZERO`).
    VmoZero {
        name: VmoName,
        offset: u64,
        len: u64,
    },
    /// Pins the pages of a range (`zx_bti_pin`).
    VmoPin {
        pin: PinName,
        name: VmoName,
        offset: u64,
        len: u64,
    },
    /// Unpins pinned pages (`zx_pmt_unpin`).
    VmoUnpin {
        pin: PinName,
    },
    /// Asks what a VMO holds (`ZX_INFO_VMO`).
    VmoInfo {
        name: VmoName,
    },
    /// Makes an address space with its root region (`zx_process_create`).
    RootCreate {
        region: RegionName,
    },
    /// Makes a region inside another (`zx_vmar_allocate`). The flags are `SPECIFIC` and `UPPER_LIMIT`.
    VmarAllocate {
        region: RegionName,
        parent: RegionName,
        offset: u64,
        len: u64,
        flags: MapFlags,
        caps: Perm,
    },
    /// Maps a part of a VMO into a region (`zx_vmar_map`).
    VmarMap {
        region: RegionName,
        offset: u64,
        name: VmoName,
        vmo_offset: u64,
        len: u64,
        perm: Perm,
        flags: MapFlags,
    },
    /// Takes mappings out of a region (`zx_vmar_unmap`).
    VmarUnmap {
        region: RegionName,
        addr: u64,
        len: u64,
    },
    /// Changes what mappings of a region allow (`zx_vmar_protect`).
    VmarProtect {
        region: RegionName,
        addr: u64,
        len: u64,
        perm: Perm,
    },
    /// Destroys a region and all in it (`zx_vmar_destroy`).
    VmarDestroy {
        region: RegionName,
    },
    /// Asks for the mappings in a region (`ZX_INFO_PROCESS_MAPS`).
    Maps {
        region: RegionName,
    },
    /// Reads bytes through mappings.
    MemRead {
        region: RegionName,
        addr: u64,
        len: u64,
    },
    /// Writes bytes through mappings.
    MemWrite {
        region: RegionName,
        addr: u64,
        bytes: B,
    },
    /// Asks how many frames and VMOs there are (`ZX_INFO_KMEM_STATS`).
    Stat,
}
