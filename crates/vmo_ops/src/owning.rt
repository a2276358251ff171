//! What owning pages takes (copy on write).

ghost use Rattle.std.specs.Prelude.{◌≡◌, ◌+◌, ◌-◌, ◌^◌, if◌then◌else◌, ◌<◌, ◌≤◌, ◌⊎◌, IsTrue, IsSome, OnOk, OnErr};
ghost use Rattle.std.specs.List.{range_with_len};
ghost use Rattle.vm_model.specs.Contents.Content.{pages_of, sole, used, IsGood};
ghost use Rattle.vm_model.specs.Contents.Owning.{need};

use crate::held_pages::next_with_sole;
use page_store::{Look, PageStore};
use vm_base::{HostMemory, Koid, PageNo};

/// Returns the number of frames that it takes to own the pages from `first` to below `end`: as many as are not sole.
#[inline(always)]
pub fn need_of<P: PageStore>(store: &P, v: Koid, first: PageNo, end: PageNo) -> u64
    requires good { IsGood (P.content store.now) }
    requires vmo { IsSome ((P.content store.now).count v.0) }
    requires order { first ≤ end }
    requires pages { end ≤ pages_of (P.content store.now) v.0 }
    ensures { result ≡ need (P.content store.now) v.0 (range_with_len first (end - first)) }
{
    if end - first == 1 {
        if is_sole(store, v, first) { 0 } else { 1 }
    } else {
        need_of_pages(store, v, first, end)
    }
}

// Does what `need_of` does, page by page. It looks at the held pages alone.
fn need_of_pages<P: PageStore>(store: &P, v: Koid, first: PageNo, end: PageNo) -> u64
    requires good { IsGood (P.content store.now) }
    requires vmo { IsSome ((P.content store.now).count v.0) }
    requires order { first ≤ end }
    requires pages { end ≤ pages_of (P.content store.now) v.0 }
    ensures { result ≡ need (P.content store.now) v.0 (range_with_len first (end - first)) }
{
    let mut alone = 0;
    let mut from = first;
    let mut in_row = true;
    while let Some(held) = next_with_sole(store, v, from, end, in_row) {
        alone = with_one(alone, held.sole);
        in_row = held.page == from;
        from = held.page + 1;
    }
    end - first - alone
}

/// Returns `n`, or one more if the page passes a test.
pub(crate) fn with_one(n: u64, passes: bool) -> u64
    requires { n + 1 < 2 ^ 64 }
    ensures { result ≡ n + (if passes then 1 else 0) }
{
    if passes { n + 1 } else { n }
}

/// Returns whether a page is held and no other VMO shows its frame.
#[tactic(auto, using(page_store::proofs::LookLaws::look_laws))]
pub(crate) fn is_sole<P: PageStore>(store: &P, v: Koid, page: PageNo) -> bool
    requires { page < pages_of (P.content store.now) v.0 }
    ensures { result ≡ sole (P.content store.now) v.0 page }
{
    match store.look(v, page) {
        Look::Zero => false,
        Look::Held { sole, .. } => sole,
    }
}

/// Makes room for owning `pages` pages, or for zeroing them. `wanting` of them need a row of the store. `HostMemory` if
/// the host has too little memory, but never if no page needs a row.
pub fn reserve_rows<P: PageStore>(store: &mut P, wanting: u64, pages: u64) -> Result<(), HostMemory>
    ensures room { OnOk result ((wanting ≡ 0) ⊎ (pages ≤ P.spare store.new)) }
    ensures same { P.content store.new ≡ P.content store.old }
    ensures err { OnErr result (0 < wanting) }
{
    if wanting == 0 {
        return Ok(());
    }
    store.reserve(pages)
}

/// The most pages for which room is made without a look at them. So no more rows than these stay unused.
pub(crate) const UNSEEN_PAGES: u64 = 64;

/// Returns whether `pages` pages may be owned, whatever they are, without a look at them: they are at most `UNSEEN_PAGES`, and
/// there is a free frame for each. No page takes more than one. A page that is sole takes none, so `false` does not mean a
/// refusal.
pub(crate) fn are_ample<P: PageStore>(store: &P, pages: u64) -> bool
    ensures few { IsTrue result → pages ≤ UNSEEN_PAGES }
    ensures free { IsTrue result → used (P.content store.now) + pages ≤ (P.content store.now).frames }
{
    pages <= UNSEEN_PAGES && pages <= u64::from(store.free())
}
