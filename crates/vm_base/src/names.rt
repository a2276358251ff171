//! Names of the objects of the machine, as newtypes round their numbers.

/// The kernel's number of a VMO (`zx_koid_t`). The first VMO of a machine has koid 1, and a koid is
/// never given twice.
#[derive(Clone, Copy, Debug, PartialEq, Eq, PartialOrd, Ord, Hash)]
pub struct Koid(pub u64);

/// A script's name for a VMO, the `7` of `v7`. It stands for one handle.
#[derive(Clone, Copy, Debug, PartialEq, Eq, PartialOrd, Ord, Hash)]
pub struct VmoName(pub u32);

/// A script's name for an address region (VMAR), the `7` of `r7`.
#[derive(Clone, Copy, Debug, PartialEq, Eq, PartialOrd, Ord, Hash)]
pub struct RegionName(pub u32);

/// A script's name for a pin (a pinned memory token), the `7` of `p7`.
#[derive(Clone, Copy, Debug, PartialEq, Eq, PartialOrd, Ord, Hash)]
pub struct PinName(pub u32);

/// The number of a page frame, counted from 0 and below the number of frames of the machine.
#[derive(Clone, Copy, Debug, PartialEq, Eq, PartialOrd, Ord, Hash)]
pub struct Tag(pub u32);
