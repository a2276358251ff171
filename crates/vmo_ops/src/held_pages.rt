//! Walks over the held pages of a range. They go past the zero pages of a long range.

ghost use Rattle.std.specs.Prelude.{◌≡◌, ℕ, ◌<◌, ◌≤◌, None, IsSome, IfSome, IfNone};
ghost use Rattle.vm_base.specs.Search.{HasNone, IsFirst};
ghost use Rattle.vm_model.specs.Contents.Content.{is_held, pages_of, sole, IsGood};

use crate::owning::is_sole;
use page_store::{Look, PageStore};
use vm_base::{Koid, PageNo};

/// A page that is held, and whether no other VMO shows its frame.
#[derive(Clone, Copy)]
pub(crate) struct HeldPage {
    pub page: PageNo,
    pub sole: bool,
}

/// Returns the first page from `from` to below `end` that is held, and whether it is sole, which takes a look at the page.
/// If the held pages before stand in a row (`in_row`), page `from` is looked at before a search. The answer does not depend
/// on `in_row`.
pub(crate) fn next_with_sole<P: PageStore>(
    store: &P,
    v: Koid,
    from: PageNo,
    end: PageNo,
    in_row: bool,
) -> Option<HeldPage>
    requires vmo { IsSome ((P.content store.now).count v.0) }
    requires good { IsGood (P.content store.now) }
    requires pages { end ≤ pages_of (P.content store.now) v.0 }
    ensures some { IfSome result (λ held. IsFirst (is_held (P.content store.now) v.0) from end held.page) }
    ensures sole { IfSome result (λ held. held.sole ≡ sole (P.content store.now) v.0 held.page) }
    ensures none { IfNone result (HasNone (is_held (P.content store.now) v.0) from end) }
{
    if in_row && from < end {
        if let Some(held) = held_at(store, v, from) {
            return Some(held);
        }
    }
    match store.next_held_below(v, from, end) {
        Some(page) => Some(HeldPage {
            page,
            sole: is_sole(store, v, page),
        }),
        None => None,
    }
}

// A page, if it is held.
#[tactic(auto, using(page_store::proofs::LookLaws::look_laws))]
fn held_at<P: PageStore>(store: &P, v: Koid, page: PageNo) -> Option<HeldPage>
    requires { page < pages_of (P.content store.now) v.0 }
    ensures page { IfSome result (λ held. held.page ≡ page) }
    ensures held { IfSome result (λ held. IsSome ((P.content store.now).page v.0 page)) }
    ensures sole { IfSome result (λ held. held.sole ≡ sole (P.content store.now) v.0 page) }
    ensures none { IfNone result ((P.content store.now).page v.0 page ≡ None) }
{
    match store.look(v, page) {
        Look::Zero => None,
        Look::Held { sole, .. } => Some(HeldPage { page, sole }),
    }
}

// Whether a page is held.
#[tactic(auto, using(page_store::proofs::LookLaws::look_laws))]
pub(crate) fn is_held_at<P: PageStore>(store: &P, v: Koid, page: PageNo) -> bool
    requires { page < pages_of (P.content store.now) v.0 }
    ensures { result ≡ is_held (P.content store.now) v.0 page }
{
    store.frame(v, page).is_some()
}
