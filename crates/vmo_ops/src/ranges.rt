//! Ranges of a name, in bytes from its first byte, and ranges of a VMO.

ghost use Rattle.std.specs.Prelude.{◌≡◌, ◌+◌, ◌-◌, ◌*◌, ◌/◌, ◌%◌, ◌<◌, ◌≤◌, ◌↔◌, ◌==◌, ◌&&◌, min, IsTrue, IfNone, IfSome};
ghost use Rattle.std.specs.List.{range_with_len};
ghost use Rattle.vm_model.specs.Contents.Content.{IsGood};
ghost use Rattle.vm_model.specs.Contents.Writing.{touched, part_at};
ghost use Rattle.vm_model.specs.Machine.State.{name_pages};
ghost use Rattle.page_store.specs.Names.{IsInside};
ghost use Rattle.vmo_ops.specs.Ranges.{AreTouched};
ghost use Rattle.vmo_ops.specs.Targets.{IsPlaced};

use page_store::{PageStore, size_of_name};
use vm_base::{PAGE, PageNo, VMO_PAGES, in_page, page_of};
use vmo_table::Target;

/// Returns the place of a range of a name in the name's VMO, in bytes. `None` if and only if the range does not lie
/// inside the name.
pub fn place_in_vmo<P: PageStore>(store: &P, t: &Target, offset: u64, len: u64) -> Option<u64>
    requires good { IsGood (P.content store.now) }
    requires inside { IsInside (P.content store.now) t.now }
    ensures some { IfSome result (λ at. IsPlaced (P.content store.now) t.now offset len at) }
    ensures none { IfNone result (name_pages (P.content store.now) t.now * PAGE < offset + len) }
{
    if !is_in_range(store, t, offset, len) {
        return None;
    }
    Some(t.first * PAGE + offset)
}

// Whether the range lies inside the name. A range with `offset + len` past 2^64 does not.
fn is_in_range<P: PageStore>(store: &P, t: &Target, offset: u64, len: u64) -> bool
    requires good { IsGood (P.content store.now) }
    requires inside { IsInside (P.content store.now) t.now }
    ensures { IsTrue result ↔ (offset + len ≤ name_pages (P.content store.now) t.now * PAGE) }
{
    let bytes = size_of_name(store, t);
    len <= bytes && offset <= bytes - len
}

/// Returns whether a range begins and ends at a page.
pub(crate) fn is_whole(offset: u64, len: u64) -> bool
    ensures { result ≡ (offset % PAGE == 0 && len % PAGE == 0) }
{
    in_page(offset) == 0 && in_page(len) == 0
}

/// Returns the first page that holds a byte of the range, and the page behind the last one. If the range has no byte, the
/// two are the same.
#[tactic(auto, using(crate::proofs::NeedLaws::touched_laws))]
pub fn touched_pages(offset: u64, len: u64) -> (PageNo, PageNo)
    requires { offset + len ≤ VMO_PAGES * PAGE }
    ensures first { result.0 ≡ offset / PAGE }
    ensures order { result.0 ≤ result.1 }
    ensures end { result.1 * PAGE < offset + len + PAGE }
    ensures all { len ≤ result.1 * PAGE - offset }
    ensures pages { touched offset len ≡ range_with_len result.0 (result.1 - result.0) }
{
    let first = page_of(offset);
    let end = if len == 0 {
        first
    } else {
        page_of(offset + len + (PAGE - 1))
    };
    (first, end)
}

/// Pages of a VMO in a row: those from `first` to below `end`.
#[derive(Clone, Copy)]
pub struct TouchedPages {
    pub first: PageNo,
    pub end: PageNo,
}

/// Returns the pages that a range touches, as one value that is handed on.
#[inline(always)]
pub fn touched_by(offset: u64, len: u64) -> TouchedPages
    requires { offset + len ≤ VMO_PAGES * PAGE }
    ensures { AreTouched offset len result }
{
    let (first, end) = touched_pages(offset, len);
    TouchedPages { first, end }
}

/// The part of a range of a VMO that falls into one page: `len` bytes, `at` bytes into the page and
/// `from` bytes into the range.
#[derive(Clone, Copy)]
pub struct PagePart {
    pub at: u64,
    pub from: u64,
    pub len: u64,
}

/// Returns the part of a range that falls into a page that it touches.
#[tactic(auto, unfolding(vm_model::specs::Contents::Writing::part_at))]
pub fn part_in_page(offset: u64, len: u64, page: PageNo) -> PagePart
    requires range { offset + len ≤ VMO_PAGES * PAGE }
    requires first { offset / PAGE ≤ page }
    requires last { page * PAGE < offset + len }
    ensures at { result.at ≡ part_at offset page }
    ensures from { result.from ≡ PAGE * page - offset }
    ensures until { result.from + result.len ≡ min (PAGE * (page + 1) - offset) len }
    ensures within { result.at + result.len ≤ PAGE }
{
    let start = page * PAGE;
    let at = offset.saturating_sub(start);
    let from = start.saturating_sub(offset);
    PagePart {
        at,
        from,
        len: (PAGE - at).min(len - from),
    }
}
