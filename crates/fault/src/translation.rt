//! What is kept of a page that is ready for an access.

use vm_base::{PageNo, RegionName, Tag};
use vm_model::{Entry, Readiness};

/// The page tables' record of a page of an address space.
#[derive(Clone, Copy, Debug, PartialEq, Eq)]
pub struct Translation {
    /// The entry of the page: what it shows.
    pub entry: Entry,
    /// The frame of the page of the VMO. `None` if that page is zero and has no frame.
    pub frame: Option<Tag>,
    /// The readiness of the page: what an access may do with no page fault.
    pub readiness: Readiness,
}

/// A translation as it is kept. The translations of a page of a VMO are the links of a list.
#[derive(Clone, Copy)]
pub(crate) struct Link {
    pub(crate) translation: Translation,
    /// The page that it is of.
    pub(crate) place: Place,
    /// The number of the link before it in the list. `None` if it is the first.
    pub(crate) previous: Option<usize>,
    /// The number of the link behind it. `None` if it is the last.
    pub(crate) next: Option<usize>,
}

/// A translation as it is found, with the number of its link.
#[derive(Clone, Copy)]
pub(crate) struct Kept {
    pub(crate) translation: Translation,
    pub(crate) link: usize,
}

/// The list of the translations of a page of a VMO.
#[derive(Clone, Copy)]
pub(crate) struct FrameList {
    /// The number of its first link.
    pub(crate) first: usize,
    /// The frame that each of them holds. `None` if they hold none.
    pub(crate) frame: Option<Tag>,
}

/// The page of an address space that a translation is of.
#[derive(Clone, Copy)]
pub(crate) struct Place {
    pub(crate) root: RegionName,
    pub(crate) page: PageNo,
}

/// A change of translations.
#[derive(Clone, Copy)]
pub(crate) enum Change {
    /// They are forgotten.
    Forget,
    /// They are left for reading alone.
    Restrict,
}
