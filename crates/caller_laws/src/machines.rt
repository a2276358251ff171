//! New machines over a store.

ghost use Rattle.vm_model.specs.Contents.Content.{HasNoVmo};
ghost use Rattle.vm_core.specs.Vm.{Agrees};

use page_store::PageStore;
use std::alloc::Global;
use vm_core::Vm;

/// States that a new machine agrees with a store of any type that has no VMO, whatever koids it gave before.
pub fn a_new_machine_agrees_with_any_empty_store<P: PageStore>(alloc: Global, store: &P) -> Vm
    requires { HasNoVmo (P.content store.now) }
    ensures { Agrees (P.content store.now) result }
{
    let _koid = store.next_koid();
    Vm::new(alloc)
}
