//! How many frames a write takes (copy on write).

ghost use Rattle.std.specs.Prelude.{◌≡◌, ◌+◌, ◌≤◌, ◌&&◌, ◌==◌, false, [], ◌∷◌, is_some, map};
ghost use Rattle.vm_model.specs.Contents.Content.{sole, IsGood};
ghost use Rattle.vm_model.specs.Contents.Owning.{need_each};
ghost use Rattle.vm_model.specs.Machine.Access.{page_shown};
ghost use Rattle.vm_model.specs.Space.Readiness.{frame_at, is_same_frame};
ghost use Rattle.page_store.specs.Flat.{flat_content};
ghost use Rattle.checker_ready.specs.inside.Pages.{AreFrom, LiesInVmo, list_of};

use crate::stamps::is_same_frame;
use crate::touching::Touched;
use page_store::FlatStore;
use vm_model::Entry;

/// Returns the number of frames that it takes to own the pages that a write touches, one after another.
pub(crate) fn frames_to_own(pages: &FlatStore, found: Touched<Entry>) -> u64
    requires good { IsGood (flat_content pages.now) }
    requires inside { AreFrom (λ p. LiesInVmo (flat_content pages.now)) 0 (list_of found) }
    ensures { result ≡ need_each (flat_content pages.now) (map page_shown (list_of found)) }
{
    match found {
        Touched::No => 0,
        Touched::One(entry) => frames_for_one(pages, entry),
        Touched::Two(first, second) => frames_for_two(pages, first, second),
    }
}

// How many frames it takes to own a page: one, if the page is not sole.
fn frames_for_one(pages: &FlatStore, entry: Entry) -> u64
    ensures few { result ≤ 1 }
    ensures need { result ≡ need_each (flat_content pages.now) (page_shown entry ∷ []) }
{
    if pages.is_sole(entry.koid, entry.page) {
        0
    } else {
        1
    }
}

// How many frames it takes to own two pages, one after another.
fn frames_for_two(pages: &FlatStore, first: Entry, second: Entry) -> u64
    requires good { IsGood (flat_content pages.now) }
    requires first { LiesInVmo (flat_content pages.now) first }
    requires second { LiesInVmo (flat_content pages.now) second }
    ensures { result ≡ need_each (flat_content pages.now) (page_shown first ∷ page_shown second ∷ []) }
{
    if pages.is_sole(first.koid, first.page) {
        frames_for_one(pages, second)
    } else {
        1 + frames_after(pages, first, second)
    }
}

// How many frames it takes to own a page, once another was owned that is not sole. If both are one page, it takes none. If
// they have one frame, it takes one only if a third VMO shows that frame too.
fn frames_after(pages: &FlatStore, first: Entry, second: Entry) -> u64
    requires good { IsGood (flat_content pages.now) }
    requires first { LiesInVmo (flat_content pages.now) first }
    requires second { LiesInVmo (flat_content pages.now) second }
    requires shared { sole (flat_content pages.now) first.koid.0 first.page ≡ false }
    ensures few { result ≤ 1 }
    ensures need { 1 + result ≡ need_each (flat_content pages.now) (page_shown first ∷ page_shown second ∷ []) }
{
    if show_same_page(first, second) {
        return 0;
    }
    if !have_one_frame(pages, first, second) {
        return frames_for_one(pages, second);
    }
    if pages.is_seen_by_third(first.koid, first.page, second.koid) {
        1
    } else {
        0
    }
}

// Whether both show one page of one VMO.
fn show_same_page(first: Entry, second: Entry) -> bool
    ensures { result ≡ ((first.koid.0 == second.koid.0) && (first.page == second.page)) }
{
    first.koid == second.koid && first.page == second.page
}

// Whether two pages are held, with one frame.
fn have_one_frame(pages: &FlatStore, first: Entry, second: Entry) -> bool
    ensures { result ≡ (is_some (frame_at (flat_content pages.now) first.koid.0 first.page)
        && is_same_frame (frame_at (flat_content pages.now) first.koid.0 first.page)
        (frame_at (flat_content pages.now) second.koid.0 second.page)) }
{
    let frame = pages.frame_at(first.koid, first.page);
    frame.is_some() && is_same_frame(frame, pages.frame_at(second.koid, second.page))
}
