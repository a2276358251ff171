//! Closing a name of a VMO (`zx_handle_close`).

ghost use Rattle.std.specs.Prelude.{◌≡◌, IsSome};
ghost use Rattle.vm_model.specs.declared.reply.Reply.TheVariants as Reply;
ghost use Rattle.vm_model.specs.declared.command.Command.TheVariants as Command;
ghost use Rattle.vm_model.specs.Machine.State.{State};
ghost use Rattle.vm_model.specs.Machine.Step.{Step};
ghost use Rattle.vmo_table.specs.Table.{names_of, keepers_of, with_vmos, IsWellCounted};

use page_store::{PageStore, drop_gone};
use vm_base::VmoName;
use vmo_table::VmoTable;

/// Closes a name that is open (`zx_handle_close`). If nothing keeps its VMO any more, the VMO leaves with its pages,
/// and its children get its parent. The call never wants memory.
pub fn close<P: PageStore>(store: &mut P, vmos: &mut VmoTable, name: VmoName)
    requires parts { (s : State) × IsWellCounted vmos.old (with_vmos s (P.content store.old) vmos.old) }
    requires named { IsSome (names_of vmos.old name.0) }
    ensures step { (s : State) → IsWellCounted vmos.old (with_vmos s (P.content store.old) vmos.old) →
        Step (with_vmos s (P.content store.old) vmos.old) (Command.VmoClose name) Reply.Done
        (with_vmos s (P.content store.new) vmos.new) }
    ensures keepers { keepers_of vmos.new ≡ keepers_of vmos.old }
{
    drop_gone(store, vmos.close(name));
}
