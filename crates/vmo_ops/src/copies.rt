//! The copies of pinned pages that a snapshot owns at once. So each pinned page keeps its frame for itself. A walk goes
//! from one pinned page to the next.

ghost use Rattle.std.specs.Prelude.{◌≡◌, ℕ, ◌+◌, ◌≤◌, length};
ghost use Rattle.vm_base.specs.declared.limits.TheConstants.{VMO_PAGES};
ghost use Rattle.vm_base.specs.Search.{IsFirstOrNone};
ghost use Rattle.vm_model.specs.Contents.Content.{pages_of, used, IsGood};
ghost use Rattle.vm_model.specs.Contents.Owning.{OwnsAll};
ghost use Rattle.vm_model.specs.Naming.Pins.{is_pinned};
ghost use Rattle.pin_table.specs.Table.{pins_of};
ghost use Rattle.vmo_ops.specs.inside.Copies.{is_copy, copies_of};

use page_store::PageStore;
use pin_table::PinTable;
use vm_base::{Koid, PageNo, VMO_PAGES};

/// Returns the first page from `from` on of a snapshot that is the copy of a pinned page. The snapshot sees `seen` pages
/// of `of` from the page `first` of `of` on. `None` if and only if there is no such page.
pub fn next_copy(
    pins: &PinTable,
    of: Koid,
    first: PageNo,
    seen: PageNo,
    from: PageNo,
) -> Option<PageNo>
    requires order { from ≤ seen }
    requires range { first + seen ≤ VMO_PAGES }
    ensures { IsFirstOrNone (is_copy (is_pinned (pins_of pins.now) of.0) first) from seen result }
{
    let end = first + seen;
    let Some(page) = pins.next_pinned(of, first + from) else {
        return None;
    };
    if page >= end {
        return None;
    }
    Some(page - first)
}

/// Returns the number of pages of a snapshot that are copies of pinned pages. The snapshot sees `seen` pages of `of` from
/// the page `first` of `of` on.
pub fn count_copies(pins: &PinTable, of: Koid, first: PageNo, seen: PageNo) -> u64
    requires { first + seen ≤ VMO_PAGES }
    ensures { result ≡ length (copies_of (is_pinned (pins_of pins.now) of.0) first seen 0) }
{
    let mut copied = 0;
    let mut from = 0;
    while let Some(page) = next_copy(pins, of, first, seen, from) {
        copied += 1;
        from = page + 1;
    }
    copied
}

/// Owns the pages of a snapshot that are copies of pinned pages, in ascending order. There are room and free frames for
/// all of them. The snapshot sees `seen` pages of `of` from the page `first` of `of` on.
pub(crate) fn own_copies<P: PageStore>(
    store: &mut P,
    pins: &PinTable,
    snapshot: Koid,
    of: Koid,
    first: PageNo,
    seen: PageNo,
)
    requires range { first + seen ≤ VMO_PAGES }
    requires good { IsGood (P.content store.old) }
    requires inside { seen ≤ pages_of (P.content store.old) snapshot.0 }
    requires room { length (copies_of (is_pinned (pins_of pins.now) of.0) first seen 0) ≤ P.spare store.old }
    requires free { used (P.content store.old) + length (copies_of (is_pinned (pins_of pins.now) of.0) first seen 0)
        ≤ (P.content store.old).frames }
    ensures { OwnsAll (P.content store.old) snapshot.0 (copies_of (is_pinned (pins_of pins.now) of.0) first seen 0)
        (P.content store.new) }
{
    let mut from = 0;
    while let Some(page) = next_copy(pins, of, first, seen, from) {
        store.own(snapshot, page);
        from = page + 1;
    }
}
