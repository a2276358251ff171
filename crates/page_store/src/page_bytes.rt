//! Bytes of a page, whether it has a frame or not.

ghost use Rattle.std.specs.Prelude.{◌≡◌, ◌+◌, ◌<◌, ◌≤◌, ◌⊎◌, true, length, take, drop};
ghost use Rattle.vm_base.specs.declared.limits.TheConstants.{PAGE};
ghost use Rattle.vm_model.specs.Contents.Content.{used, sole, pages_of, shown, IsGood};
ghost use Rattle.vm_model.specs.Contents.Writing.{WritesPiece};

use crate::page_store::PageStore;
use vm_base::{Koid, PageNo};

/// Reads what a page below the count shows, from `at` bytes into the page on. A page that is zero shows zeros.
#[inline(always)]
#[tactic(auto, using(crate::proofs::LookLaws::look_laws))]
pub fn read_page<P: PageStore>(store: &P, v: Koid, page: PageNo, at: u64, out: &mut [u8])
    requires page { page < pages_of (P.content store.now) v.0 }
    requires range { at + length out.old ≤ PAGE }
    ensures { out.new ≡ take (length out.old) (drop at (shown (P.content store.now) v.0 page)) }
{
    match store.frame(v, page) {
        Some(tag) => store.read(tag, at, out),
        None => out.fill(0),
    }
}

/// Makes a page below the count sole, as `own` does, and puts bytes into it, from `at` bytes into the page on.
#[inline(always)]
pub fn write_page<P: PageStore>(store: &mut P, v: Koid, page: PageNo, at: u64, bytes: &[u8])
    requires good { IsGood (P.content store.old) }
    requires page { page < pages_of (P.content store.old) v.0 }
    requires within { at + length bytes.now ≤ PAGE }
    requires room { (sole (P.content store.old) v.0 page ≡ true)
        ⊎ ((1 ≤ P.spare store.old) × (used (P.content store.old) < (P.content store.old).frames)) }
    ensures writes { WritesPiece (P.content store.old)
        (record { koid = v.0; page = page; at = at; bytes = bytes.now }) (P.content store.new) }
    ensures spare { P.spare store.old ≤ P.spare store.new + 1 }
{
    let tag = store.own(v, page);
    store.write(tag, at, bytes);
}
