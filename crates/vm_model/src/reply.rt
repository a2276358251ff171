//! The replies of the machine.

use crate::bytes::Bytes4k;
use crate::numbers::PinNumbers;
use crate::runs::Runs;
use vm_base::{Koid, Refusal};

/// The counts of what a VMO holds (`ZX_INFO_VMO`). `size` is the size of the name, in bytes. `children` counts the VMOs
/// whose parent this VMO is, and its slices and references. The other numbers count pages of the whole VMO.
#[derive(Clone, Copy, Debug, PartialEq, Eq)]
pub struct Info {
    pub koid: Koid,
    pub size: u64,
    /// Pages that have a frame.
    pub held: u64,
    /// Pages whose frame no other VMO shows.
    pub private_pages: u64,
    /// Pages whose frame another VMO shows too.
    pub shared_pages: u64,
    /// Pages whose frame is charged to this VMO: the one of least koid that shows it.
    pub charged: u64,
    pub children: u64,
}

/// The page frames and VMOs of the machine (`ZX_INFO_KMEM_STATS`). Some VMO shows each of the `used` frames, and none
/// shows the `free` ones.
#[derive(Clone, Copy, Debug, PartialEq, Eq)]
pub struct Stat {
    pub frames: u32,
    pub used: u32,
    pub free: u32,
    pub vmos: u64,
}

/// The reply of the machine to a command. `B` is the bytes that were read, and `N` the numbers of pinned frames.
#[derive(Drop)]
pub enum Reply<B: Drop = Bytes4k, N: Drop = PinNumbers> {
    /// It is done.
    Done,
    /// It is done, with this number.
    Number(u64),
    /// It is done, with these bytes.
    Bytes(B),
    /// It is done, and these are the frames of the pinned pages, in ascending order of the pages.
    Pins(N),
    /// It is done, at this address.
    Address(u64),
    /// It is done, with so many page faults, and these bytes.
    Access { faults: u64, bytes: B },
    /// It is done, with so many page faults.
    Faults(u64),
    /// The counts of what a VMO holds.
    Info(Info),
    /// The mappings in a region.
    Runs(Runs),
    /// The machine's frames and VMOs.
    Stat(Stat),
    /// It is refused, and nothing was changed.
    Refused(Refusal),
}
