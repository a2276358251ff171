//! What the names of VMOs and the VMOs themselves are to the machine.

use vm_base::{Koid, PageNo};

/// The way in which a name came to stand for its VMO.
#[derive(Clone, Copy, Debug, PartialEq, Eq, Hash)]
pub enum NameKind {
    /// It was given to the VMO when that was made.
    Owner,
    /// It stands for a part of the VMO (`ZX_VMO_CHILD_SLICE`).
    Slice,
    /// It stands for all of the VMO, beside other names (`ZX_VMO_CHILD_REFERENCE`).
    Reference,
}

/// The way in which a VMO came to be.
#[derive(Clone, Copy, Debug, PartialEq, Eq, Hash)]
pub enum Origin {
    /// It was made with zero pages (`zx_vmo_create`).
    Created,
    /// It was made with the pages of another VMO (`ZX_VMO_CHILD_SNAPSHOT`).
    Snapshot,
}

/// The target that an open name stands for: pages of the VMO `koid`, from page `first` on. `limit` is how many pages
/// these are. If it is `None`, the name stands for the whole VMO, whatever its size. `may_write` and `may_resize` say
/// what may be done to the VMO by this name.
#[derive(Clone, Copy, Debug, PartialEq, Eq)]
pub struct Target {
    pub koid: Koid,
    pub first: PageNo,
    pub limit: Option<PageNo>,
    pub kind: NameKind,
    pub may_write: bool,
    pub may_resize: bool,
}
