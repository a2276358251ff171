//! Names that are closed, and the VMOs that leave with them.

ghost use Rattle.source_model.specs.declared.command.SourceCommand.TheVariants as SourceCommand;
ghost use Rattle.source_model.specs.Commands.{SourceStep};
ghost use Rattle.source_model.specs.Living.{Leaves};
ghost use Rattle.source_vm.specs.Table.{SourcesAgree, IsIndexed, source_state_of};
ghost use Rattle.source_vm.specs.Closing.{IsUnnamed};

use crate::table::{SourceTable, find, is_kept, leave, leave_name};
use page_store::PageStore;
use vm_base::{Koid, Refusal, VmoName};
use vm_model::Answer;

/// Closes a name. Its VMO leaves where no loose child keeps it, and then those above it that nothing keeps any more.
pub(crate) fn close<'a, P: PageStore>(
    store: &mut P,
    table: &mut SourceTable,
    name: VmoName,
) -> Answer<'a>
    requires agrees { SourcesAgree (P.content store.old) table.old }
    ensures step { SourceStep (source_state_of (P.content store.old) table.old) (SourceCommand.Close name)
        result (source_state_of (P.content store.new) table.new) }
    ensures indexed { IsIndexed table.new }
{
    let Some(v) = find(table, name) else {
        return Answer::Refused(Refusal::BadHandle);
    };
    leave_name(table, name, v);
    leave_upwards(store, table, v);
    Answer::Done
}

/// Lets a VMO whose name was closed leave where nothing keeps it, and then its parents, up to one that something keeps.
fn leave_upwards<P: PageStore>(store: &mut P, table: &mut SourceTable, v: Koid)
    requires unnamed { IsUnnamed (source_state_of (P.content store.old) table.old) v.0 }
    requires indexed { IsIndexed table.old }
    ensures leaves { Leaves (source_state_of (P.content store.old) table.old) (source_state_of (P.content store.new) table.new) }
    ensures indexed { IsIndexed table.new }
{
    let mut top = v;
    while !is_kept(table, top) {
        store.drop_vmo(top);
        let Some(parent) = leave(table, top) else {
            return;
        };
        top = parent;
    }
}
