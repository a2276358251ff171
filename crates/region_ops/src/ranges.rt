//! Ranges of an address space that a call on a region is given.

ghost use Rattle.std.specs.Prelude.{◌≡◌, ◌/◌, ◌+◌, ◌≤◌};
ghost use Rattle.vm_base.specs.Pages.{rounded};
ghost use Rattle.vm_base.specs.declared.limits.TheConstants.{PAGE, ROOT_END};
ghost use Rattle.vm_model.specs.Space.Mappings.{is_outside, lacks_reading};

use bitflags::Flags;
use region_tree::Region;
use vm_base::{PageNo, Perm, RegionName, in_page, page_count, page_of};

/// The pages of a range of an address space: the first one, and how many there are.
#[derive(Clone, Copy, Debug)]
pub struct PageRange {
    pub first: PageNo,
    pub count: u64,
}

/// A range of bytes of a region that a call is given: `len` bytes from an address on.
#[derive(Clone, Copy, Debug)]
pub struct RegionRange {
    pub region: RegionName,
    pub addr: u64,
    pub len: u64,
}

/// Returns the pages of a range, rounded up to whole pages.
pub(crate) fn pages_at(range: RegionRange) -> PageRange
    ensures { result ≡ record { first = range.addr / PAGE; count = rounded range.len / PAGE } }
{
    PageRange {
        first: page_of(range.addr),
        count: page_count(range.len),
    }
}

/// Returns whether the bytes of a range, rounded up to whole pages, are no range of a region. That is so if the address is not
/// at a page, the length is 0, or the bytes pass an end of the region.
pub(crate) fn is_outside(region: Region, range: RegionRange) -> bool
    requires { region.first + region.count ≤ ROOT_END }
    ensures { result ≡ is_outside region range.addr range.len (rounded range.len / PAGE) }
{
    if in_page(range.addr) != 0 || range.len == 0 {
        return true;
    }
    let first = page_of(range.addr);
    first < region.first || first + page_count(range.len) > region.first + region.count
}

/// Returns whether permissions allow writing or executing without reading, which no mapping may.
pub(crate) fn lacks_reading(perm: Perm) -> bool
    ensures { result ≡ lacks_reading perm.0 }
{
    (perm.contains(Perm::WRITE) || perm.contains(Perm::EXECUTE)) && !perm.contains(Perm::READ)
}
