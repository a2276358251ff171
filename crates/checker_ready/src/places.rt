//! Places in address spaces.

use vm_base::{PageNo, RegionName};

/// An address of the address space of a root region.
#[derive(Clone, Copy)]
pub(crate) struct Place {
    pub root: RegionName,
    pub addr: u64,
}

/// A place in a page of an address space: `at` bytes into the page.
#[derive(Clone, Copy)]
pub(crate) struct PagePlace {
    pub root: RegionName,
    pub page: PageNo,
    pub at: u64,
}
