//! How many frames a write takes (copy on write).

ghost use Rattle.std.specs.Prelude.{◌≡◌, ◌&&◌, ◌==◌, [], ◌∷◌};
ghost use Rattle.vm_model.specs.Contents.Content.{IsGood};
ghost use Rattle.vm_model.specs.Contents.Owning.{need_each};
ghost use Rattle.vm_model.specs.Machine.Access.{page_shown};
ghost use Rattle.page_store.specs.Needs.{need_by, have_one_frame};
ghost use Rattle.fault.specs.inside.Needing.{FitsAs};
ghost use Rattle.fault.specs.inside.Writable.{IsInStore};

use crate::writable::{WritablePage, look};
use page_store::{Look, PageStore};
use vm_model::Entry;

/// Returns how many frames have to be free for a write to one page. If a frame is free, it is 1 whatever the page is: one
/// is enough, and the store is not asked. Otherwise it is how many frames it takes to own the page.
pub(crate) fn frames_for_one<P: PageStore>(store: &P, page: &WritablePage) -> u64
    requires { IsInStore (P.content store.now) page.now }
    ensures { FitsAs (P.content store.now) result (need_each (P.content store.now) (page_shown page.now.entry ∷ [])) }
{
    if page.frame.is_none() && store.free() > 0 {
        return 1;
    }
    need_of(look(store, page))
}

/// Returns the number of frames that it takes to own two pages, one after another. If both show one page of one VMO, it
/// is one frame at most. If two pages show one frame, the second needs a frame only if a third shows that frame too.
pub(crate) fn frames_needed<P: PageStore>(
    store: &P,
    first: &WritablePage,
    second: &WritablePage,
) -> u64
    requires good { IsGood (P.content store.now) }
    requires first { IsInStore (P.content store.now) first.now }
    requires second { IsInStore (P.content store.now) second.now }
    ensures { result ≡ need_each (P.content store.now) (page_shown first.now.entry ∷ page_shown second.now.entry ∷ []) }
{
    let first_look = look(store, first);
    let need = need_of(first_look);
    if show_same_page(&first.entry, &second.entry) {
        return need;
    }
    let second_look = look(store, second);
    if !have_same_frame(first_look, second_look) {
        return need + need_of(second_look);
    }
    if store.viewers(second.entry.koid, second.entry.page) > 2 {
        2
    } else {
        1
    }
}

// How many frames it takes to own a page: one, if the page is not sole.
fn need_of(look: Look) -> u64
    ensures { result ≡ need_by look }
{
    match look {
        Look::Held { sole: true, .. } => 0,
        _ => 1,
    }
}

// Whether both are held, with one frame.
fn have_same_frame(first: Look, second: Look) -> bool
    ensures { result ≡ have_one_frame first second }
{
    let Look::Held { tag: first_tag, .. } = first else {
        return false;
    };
    let Look::Held {
        tag: second_tag,
        ..
    } = second
    else {
        return false;
    };
    first_tag == second_tag
}

// Whether both show one page of one VMO.
fn show_same_page(first: &Entry, second: &Entry) -> bool
    ensures { result ≡ ((first.now.koid.0 == second.now.koid.0) && (first.now.page == second.now.page)) }
{
    first.koid == second.koid && first.page == second.page
}
