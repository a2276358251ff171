//! Making a VMO (`zx_vmo_create`).

ghost use Rattle.std.specs.Prelude.{◌≡◌, ◌/◌, ◌<◌, ◌≤◌, Bool, None, Some, IfOk, MatchResult};
ghost use Rattle.vm_base.specs.Pages.{rounded};
ghost use Rattle.vm_base.specs.declared.limits.TheConstants.{KOIDS};
ghost use Rattle.vm_base.specs.declared.names.VmoName.{VmoName};
ghost use Rattle.vm_model.specs.declared.reply.Reply.TheVariants as Reply;
ghost use Rattle.vm_model.specs.declared.command.Command.TheVariants as Command;
ghost use Rattle.vm_model.specs.Machine.State.{State};
ghost use Rattle.vm_model.specs.Machine.Refusals.{refusals, first_of};
ghost use Rattle.vm_model.specs.Machine.Step.{Step, reply_of};
ghost use Rattle.vmo_table.specs.Table.{names_of, keepers_of, with_vmos, AreParts};

use crate::sizes::pages_within;
use page_store::PageStore;
use vm_base::{Koid, PAGE, PageNo, Refusal, VMO_PAGES, VmoName};
use vmo_table::{Origin, VmoTable};

/// Makes a VMO of zero pages, `size` bytes rounded up to whole pages, lets a name that is not open stand
/// for it, and answers its koid. The name may write to it, and may resize it exactly where it is
/// resizable. Refusals: `OutOfRange` where the size is over 2^48 bytes, `HostMemory`.
pub fn create<P: PageStore>(
    store: &mut P,
    vmos: &mut VmoTable,
    name: VmoName,
    size: u64,
    resizable: bool,
) -> Result<Koid, Refusal>
    requires parts { AreParts (P.content store.old) vmos.old }
    requires closed { names_of vmos.old name.0 ≡ None }
    requires next { (P.content store.old).next < KOIDS }
    ensures step { (s : State) → Step (with_vmos s (P.content store.old) vmos.old)
        (Command.VmoCreate name size resizable) (reply_of (λ _. Reply.Done) result)
        (with_vmos s (P.content store.new) vmos.new) }
    ensures keepers { keepers_of vmos.new ≡ keepers_of vmos.old }
    ensures koid { IfOk result (λ koid. koid.0 ≡ (P.content store.old).next) }
{
    let pages = match ask_to_create(size) {
        Ok(pages) => pages,
        Err(refusal) => return Err(refusal),
    };
    // Room for the name comes first, so that nothing is left to undo.
    let Ok(()) = vmos.reserve() else {
        return Err(Refusal::HostMemory);
    };
    let Ok(koid) = store.create(pages) else {
        return Err(Refusal::HostMemory);
    };
    vmos.enter(name, koid, resizable, Origin::Created, None, true);
    Ok(koid)
}

/// Finds the page count of a VMO that is to be made with `size` bytes. `OutOfRange` if the size is over 2^48 bytes. Nothing
/// changes.
pub fn ask_to_create(size: u64) -> Result<PageNo, Refusal>
    ensures { MatchResult result
        (λ pages. (pages ≡ rounded size / PAGE) × (pages ≤ VMO_PAGES) × ((s : State) (name : VmoName) (resizable : Bool) →
        s.names name.0 ≡ None → None ≡ first_of (refusals s (Command.VmoCreate name size resizable))))
        (λ refusal. (s : State) (name : VmoName) (resizable : Bool) →
        s.names name.0 ≡ None → Some refusal ≡ first_of (refusals s (Command.VmoCreate name size resizable))) }
{
    match pages_within(0, size) {
        Some(pages) => Ok(pages),
        None => Err(Refusal::OutOfRange),
    }
}
