//! Where the pages of a loose child come from.

use vm_base::{Koid, PageNo};

/// The first `seen` pages of a loose child, if it has not written them, are those of its parent, from the parent's page `base` on.
#[derive(Clone, Copy, Debug)]
pub struct Link {
    pub parent: Koid,
    pub base: PageNo,
    pub seen: PageNo,
}
