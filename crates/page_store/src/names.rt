//! What names stand for, in a store.

ghost use Rattle.std.specs.Prelude.{◌≡◌, ◌*◌};
ghost use Rattle.vm_model.specs.Contents.Content.{IsGood};
ghost use Rattle.vm_model.specs.Machine.State.{name_pages};
ghost use Rattle.page_store.specs.Names.{IsInside};

use crate::page_store::PageStore;
use vm_base::{PAGE, PageNo};
use vm_model::Target;

/// Returns how many pages a name has: as many as its limit says, or all of its VMO.
pub fn pages_of_name<P: PageStore>(store: &P, t: &Target) -> PageNo
    requires { IsInside (P.content store.now) t.now }
    ensures { result ≡ name_pages (P.content store.now) t.now }
{
    match t.limit {
        Some(pages) => pages,
        None => store.count(t.koid),
    }
}

/// Returns the size in bytes of what a name stands for (`zx_vmo_get_size`): its pages', at most 2^48.
pub fn size_of_name<P: PageStore>(store: &P, t: &Target) -> u64
    requires good { IsGood (P.content store.now) }
    requires inside { IsInside (P.content store.now) t.now }
    ensures { result ≡ name_pages (P.content store.now) t.now * PAGE }
{
    pages_of_name(store, t) * PAGE
}
