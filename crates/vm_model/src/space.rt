//! What stands in an address space: regions, what each page shows, and what it is ready for.

use vm_base::{Koid, PageNo, Perm, RegionName};

/// The entry of a page of an address space: the page of a VMO that it shows, and what an access may do to it. A mapping
/// of the kernel is a run of these.
#[derive(Clone, Copy, Debug, PartialEq, Eq)]
pub struct Entry {
    /// The VMO that is shown.
    pub koid: Koid,
    /// The page of the VMO, counted from its first.
    pub page: PageNo,
    /// The permissions of an access.
    pub perm: Perm,
    /// The most that `perm` may be changed to.
    pub cap: Perm,
    /// The region that the mapping was made in.
    pub region: RegionName,
}

/// A region of an address space (VMAR). It keeps its name when it is destroyed, and is not live from then on.
#[derive(Clone, Copy, Debug, PartialEq, Eq)]
pub struct Region {
    /// The root region of its address space. A root region is its own.
    pub root: RegionName,
    /// The region that it was allocated in. A root region has none.
    pub parent: Option<RegionName>,
    /// Its first page, counted from address 0.
    pub first: PageNo,
    /// The number of its pages.
    pub count: u64,
    /// The kinds of access that mappings and regions in it may allow (`ZX_VM_CAN_MAP_READ` and so on).
    pub caps: Perm,
    /// True if it is not destroyed.
    pub live: bool,
}

/// The most that an access to a page of an address space may do there with no page fault. A page that no access has
/// touched, or that has changed since, has none. In the kernel it is what the page tables of the processor allow.
#[derive(Clone, Copy, Debug, PartialEq, Eq)]
pub enum Readiness {
    /// It may read.
    Read,
    /// It may read and write.
    Write,
}
