//! What a command may change of what pages are ready for.

use vm_base::{Koid, PageNo, RegionName};

/// A change that a command may make to what pages of address spaces are ready for. Pages are counted from the first of their VMO
/// or address space, and `end` is the page behind the last.
#[derive(Clone, Copy, Debug, PartialEq, Eq)]
pub enum Change {
    /// Nothing.
    None,
    /// Pages of a VMO may have other frames.
    Frames {
        koid: Koid,
        first: PageNo,
        end: PageNo,
    },
    /// The pages of a VMO from `first` on are in it no more.
    Past {
        koid: Koid,
        first: PageNo,
    },
    /// Pages of a VMO are shared with a snapshot, except those that are pinned.
    Shared {
        koid: Koid,
        first: PageNo,
        end: PageNo,
    },
    /// Pages of an address space show something else or nothing, or may be accessed otherwise.
    Mapped {
        root: RegionName,
        first: PageNo,
        end: PageNo,
    },
}
