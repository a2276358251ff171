//! What the pages of a VMO come from.

use vm_base::PageNo;

/// The first `seen` pages of a VMO come from the source of this kind and seed, from the source's page `base` on.
#[derive(Clone, Copy, Debug)]
pub struct Backing {
    pub kind: u8,
    pub seed: u64,
    pub base: PageNo,
    pub seen: PageNo,
}
