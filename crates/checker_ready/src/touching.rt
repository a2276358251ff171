//! The pages that an access touches, and where it takes page faults. Nothing changes.

ghost use Rattle.std.specs.Prelude.{◌≡◌, ℕ, ◌≤◌};
ghost use Rattle.vm_model.specs.Contents.Content.{Content};
ghost use Rattle.ready_pages.specs.Changes.{Entries};
ghost use Rattle.checker_ready.specs.Notes.{rows_of, ready_in};
ghost use Rattle.checker_ready.specs.inside.Pages.{IsMappedInside, IsTouchedPage, Touches, faults_in, is_unready, list_of};

use crate::places::Place;
use crate::ready_map::ReadyMap;
use vm_base::{PageNo, RegionName, page_of};
use vm_model::{Entry, Readiness};

/// The pages that an access touches, with this of each, in the order of the addresses.
#[derive(Clone, Copy)]
pub(crate) enum Touched<T> {
    No,
    One(T),
    Two(T, T),
}

/// A page that an access touches.
#[derive(Clone, Copy)]
pub(crate) struct TouchedPage {
    pub entry: Entry,
    /// The page is not ready for the access, which takes a page fault there.
    pub unready: bool,
}

impl Touched<TouchedPage> {
    /// Returns how many page faults the access takes.
    pub fn faults(&self) -> u64
        ensures faults { result ≡ faults_in (list_of self.now) }
        ensures few { result ≤ 2 }
    {
        match self {
            Touched::No => 0,
            Touched::One(page) => page.unready as u64,
            Touched::Two(first, second) => first.unready as u64 + second.unready as u64,
        }
    }
}

/// Looks at what the pages whose entries were found are ready for, once for each page. They are those that an access from a
/// place on touches, and it needs this readiness.
pub(crate) fn touch(
    ready: &ReadyMap,
    place: Place,
    found: Touched<Entry>,
    wanted: Readiness,
) -> Touched<TouchedPage>
    ensures { (c : Content) (table : Entries) (len : ℕ)
        → Touches (IsMappedInside c table place.root.0) place.addr len (list_of found)
        → Touches (IsTouchedPage wanted c table (ready_in (rows_of ready.now)) place.root.0) place.addr len (list_of result) }
{
    let root = place.root;
    let page = page_of(place.addr);
    match found {
        Touched::No => Touched::No,
        Touched::One(entry) => Touched::One(TouchedPage {
            entry,
            unready: is_unready(ready, root, page, wanted),
        }),
        Touched::Two(first, second) => Touched::Two(
            TouchedPage {
                entry: first,
                unready: is_unready(ready, root, page, wanted),
            },
            TouchedPage {
                entry: second,
                unready: is_unready(ready, root, page + 1, wanted),
            },
        ),
    }
}

/// Returns whether a page of an address space is not ready for this. An access then takes a page fault there.
pub(crate) fn is_unready(
    ready: &ReadyMap,
    root: RegionName,
    page: PageNo,
    wanted: Readiness,
) -> bool
    ensures { result ≡ is_unready wanted (ready_in (rows_of ready.now) root.0 page) }
{
    match ready.at(root, page) {
        Some(row) => match (wanted, row.readiness) {
            (Readiness::Write, Readiness::Read) => true,
            _ => false,
        },
        None => true,
    }
}
