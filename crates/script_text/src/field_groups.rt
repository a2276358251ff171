//! Fields that stand side by side in several commands.

ghost use Rattle.std.specs.Prelude.{◌≡◌};
ghost use Rattle.script_text.specs.inside.Groups.{child, range, range_of_region, range_of_vmo, region_and_number, vmo_and_number};

use crate::fields::{child_kind, number, region, vmo};
use vm_base::{RegionName, VmoName};
use vm_model::ChildKind;

/// Reads a VMO and a number.
#[inline(always)]
pub fn vmo_and_number(name: &[u8], value: &[u8]) -> Option<(VmoName, u64)>
    ensures { result ≡ vmo_and_number name.now value.now }
{
    vmo(name).zip(number(value))
}

/// Reads a VMO and a range of it, the offset and the length.
#[inline(always)]
pub fn range_of_vmo(name: &[u8], offset: &[u8], len: &[u8]) -> Option<(VmoName, u64, u64)>
    ensures { result ≡ range_of_vmo name.now offset.now len.now }
{
    Some((vmo(name)?, number(offset)?, number(len)?))
}

/// Reads a region and a number.
#[inline(always)]
pub fn region_and_number(name: &[u8], value: &[u8]) -> Option<(RegionName, u64)>
    ensures { result ≡ region_and_number name.now value.now }
{
    region(name).zip(number(value))
}

/// Reads a region and a range of it, the address and the length.
#[inline(always)]
pub fn range_of_region(name: &[u8], addr: &[u8], len: &[u8]) -> Option<(RegionName, u64, u64)>
    ensures { result ≡ range_of_region name.now addr.now len.now }
{
    Some((region(name)?, number(addr)?, number(len)?))
}

/// Reads an offset and a size.
pub fn range(offset: &[u8], size: &[u8]) -> Option<(u64, u64)>
    ensures { result ≡ range offset.now size.now }
{
    number(offset).zip(number(size))
}

/// Reads a child, its parent and its kind.
pub fn child(name: &[u8], parent: &[u8], kind: &[u8]) -> Option<(VmoName, VmoName, ChildKind)>
    ensures { result ≡ child name.now parent.now kind.now }
{
    Some((vmo(name)?, vmo(parent)?, child_kind(kind)?))
}
