//! VMOs that leave a store.

ghost use Rattle.std.specs.Prelude.{◌≡◌, IsSome, IfSome, MatchOption};
ghost use Rattle.vm_model.specs.Contents.Sharing.{without};

use crate::page_store::PageStore;
use vm_base::Koid;

/// Drops a VMO that nothing keeps from the store, if there is one. Its pages go with it.
pub fn drop_gone<P: PageStore>(store: &mut P, gone: Option<Koid>)
    requires { IfSome gone (λ koid. IsSome ((P.content store.old).count koid.0)) }
    ensures { MatchOption gone (P.content store.new ≡ P.content store.old)
        (λ koid. P.content store.new ≡ without (P.content store.old) koid.0) }
{
    if let Some(koid) = gone {
        store.drop_vmo(koid);
    }
}
