//! The commands of page sources.

use vm_base::VmoName;
use vm_model::Bytes4k;

/// A command. Offsets, lengths and sizes are in bytes; an offset is counted from the first byte of its VMO.
/// `B` is the bytes that it writes.
#[derive(Drop)]
pub enum SourceCommand<B: Drop = Bytes4k> {
    /// Makes a VMO whose pages come from a source (`zx_pager_create_vmo`). Its size is rounded up to whole pages.
    Create {
        name: VmoName,
        size: u64,
        kind: u64,
        seed: u64,
    },
    /// Makes a snapshot of a VMO (`zx_vmo_create_child`, `ZX_VMO_CHILD_SNAPSHOT`).
    Child {
        name: VmoName,
        parent: VmoName,
        offset: u64,
        size: u64,
    },
    /// Makes a child that shows the pages of its parent as they are, until it writes them itself (`zx_vmo_create_child`,
    /// `ZX_VMO_CHILD_SNAPSHOT_AT_LEAST_ON_WRITE`).
    Loose {
        name: VmoName,
        parent: VmoName,
        offset: u64,
        size: u64,
    },
    /// Closes a name (`zx_handle_close`).
    Close {
        name: VmoName,
    },
    /// Reads bytes of a VMO (`zx_vmo_read`).
    Read {
        name: VmoName,
        offset: u64,
        len: u64,
    },
    /// Writes bytes to a VMO (`zx_vmo_write`).
    Write {
        name: VmoName,
        offset: u64,
        bytes: B,
    },
    /// Supplies the absent pages of a range (`zx_pager_supply_pages`).
    Supply {
        name: VmoName,
        offset: u64,
        len: u64,
    },
    /// Evicts the clean pages of a range, as the kernel does when memory is short.
    Evict {
        name: VmoName,
        offset: u64,
        len: u64,
    },
    /// Asks for the frames and VMOs of the machine.
    Stat,
}
