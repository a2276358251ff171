//! Look-ups of pages: from a loose child upwards to the page whose bytes it shows.

ghost use Rattle.std.specs.Prelude.{◌≡◌, ◌<◌, IfSome, nat_lt, option_map};
ghost use Rattle.vm_base.specs.Entries.{passes};
ghost use Rattle.vm_model.specs.Contents.Content.{Content, pages_of};
ghost use Rattle.source_model.specs.Links.{page_below};
ghost use Rattle.source_model.specs.State.{is_absent};
ghost use Rattle.source_vm.specs.Pages.{IsFound, IsReadable, page_at, lookup_end};
ghost use Rattle.source_vm.specs.Table.{backings_of, loose_links_of};

use crate::table::SourceTable;
use page_store::PageStore;
use vm_base::{Koid, PageNo, Tag};

/// A page of a VMO.
#[derive(Clone, Copy, Debug)]
pub(crate) struct Place {
    pub(crate) koid: Koid,
    pub(crate) page: PageNo,
}

/// Pages of a VMO: from `first` to below `end`.
#[derive(Clone, Copy, Debug)]
pub(crate) struct Stretch {
    pub(crate) koid: Koid,
    pub(crate) first: PageNo,
    pub(crate) end: PageNo,
}

/// A page of a VMO that was looked up, and its frame if it is held.
#[derive(Clone, Copy, Debug)]
pub(crate) struct FoundPage {
    pub(crate) place: Place,
    pub(crate) frame: Option<Tag>,
}

/// Returns the page of the parent that a page shows. `None` if and only if it is held, or its VMO's link does not see it, or
/// its VMO is not loose.
fn below<P: PageStore>(store: &P, table: &SourceTable, at: FoundPage) -> Option<FoundPage>
    requires readable { IsReadable (P.content store.now) (backings_of table.now) (loose_links_of table.now) }
    requires page { at.place.page < pages_of (P.content store.now) at.place.koid.0 }
    requires found { IsFound (P.content store.now) at }
    ensures next { option_map (λ next. page_at next.place) result
        ≡ page_below (P.content store.now) (loose_links_of table.now) at.place.koid.0 at.place.page }
    ensures smaller { IfSome result (λ next. next.place.koid.0 < at.place.koid.0) }
    ensures inside { IfSome result (λ next. next.place.page < pages_of (P.content store.now) next.place.koid.0) }
    ensures found { IfSome result (λ next. IsFound (P.content store.now) next) }
{
    if at.frame.is_some() {
        return None;
    }
    let Some(link) = table.links.find(0, at.place.koid.0) else {
        return None;
    };
    if at.place.page < link.seen {
        let place = Place {
            koid: link.parent,
            page: link.base + at.place.page,
        };
        let frame = store.frame(place.koid, place.page);
        Some(FoundPage { place, frame })
    } else {
        None
    }
}

/// Returns the page at which a look-up from a page ends: from parent to parent, up to one that is held or shows no other. Each
/// page on the way is looked up once.
pub(crate) fn find_end<P: PageStore>(store: &P, table: &SourceTable, start: FoundPage) -> FoundPage
    requires readable { IsReadable (P.content store.now) (backings_of table.now) (loose_links_of table.now) }
    requires page { start.place.page < pages_of (P.content store.now) start.place.koid.0 }
    requires found { IsFound (P.content store.now) start }
    ensures end { page_at result.place
        ≡ lookup_end (loose_links_of table.now) (P.content store.now) start.place.koid.0 start.place.page }
    ensures inside { result.place.page < pages_of (P.content store.now) result.place.koid.0 }
    ensures found { IsFound (P.content store.now) result }
{
    let mut at = start;
    while let Some(next) = below(store, table, at) {
        at = next;
    }
    at
}

/// Returns whether a page that was looked up is absent: it is not held, and comes from a source.
pub(crate) fn is_absent(table: &SourceTable, at: FoundPage) -> bool
    ensures { (c : Content) → IsFound c at
        → result ≡ is_absent c (backings_of table.now at.place.koid.0) at.place.koid.0 at.place.page }
{
    match at.frame {
        Some(_) => false,
        None => is_sourced(table, at.place),
    }
}

/// Returns whether a page comes from a source. It is absent then, unless it is held.
pub(crate) fn is_sourced(table: &SourceTable, at: Place) -> bool
    ensures { result ≡ passes (λ b. nat_lt at.page b.seen) (backings_of table.now at.koid.0) }
{
    match table.backings.find(0, at.koid.0) {
        Some(backing) => at.page < backing.seen,
        None => false,
    }
}
