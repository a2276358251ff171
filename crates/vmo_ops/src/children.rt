//! Making a child of a VMO (`zx_vmo_create_child`).

ghost use Rattle.std.specs.Prelude.{◌≡◌, ◌<◌, None, Some, IfOk};
ghost use Rattle.vm_base.specs.declared.names.VmoName.{VmoName};
ghost use Rattle.vm_base.specs.declared.limits.TheConstants.{KOIDS};
ghost use Rattle.vm_model.specs.declared.reply.Reply.TheVariants as Reply;
ghost use Rattle.vm_model.specs.declared.command.Command.TheVariants as Command;
ghost use Rattle.vm_model.specs.Machine.State.{State};
ghost use Rattle.vm_model.specs.Machine.Step.{Step, reply_of};
ghost use Rattle.vmo_table.specs.Table.{names_of, keepers_of, IsNamed};
ghost use Rattle.vmo_ops.specs.Targets.{AreTogether, with_tables, koid_given};

use crate::aliases::{reference, slice};
use crate::requests::ChildShape;
use crate::snapshots::snapshot;
use page_store::PageStore;
use pin_table::PinTable;
use vm_base::{Koid, Refusal, VmoName};
use vm_model::ChildKind;
use vmo_table::{Target, VmoTable};

/// Lets a name that is not open stand for a child of what `t` stands for (`zx_vmo_create_child`). A snapshot is a VMO
/// of its own, and its koid is the answer. A slice and a reference are names of the same VMO, and the answer is `None`.
/// The child is `size` bytes, rounded up to whole pages, from `offset` bytes into the name on. A reference is all of
/// the VMO. Refusals, in their order:
///
/// - `InvalidArgs` if `offset` is not a multiple of the page size, if `resizable` and `no_write` are both given, if a
///   slice leaves the name or is to be resizable, if a reference has an offset or a size, or if it is to be resizable
///   and `t` may not resize;
/// - `NotSupported` for a slice of a VMO that is resizable, and for a reference of a slice;
/// - `OutOfRange` where `offset` and the rounded size of a snapshot are over 2^48 bytes together;
/// - `NoMemory` for a snapshot where the pinned pages that it copies are more than the free frames;
/// - `HostMemory`.
pub fn create_child<P: PageStore>(
    store: &mut P,
    vmos: &mut VmoTable,
    pins: &PinTable,
    name: VmoName,
    t: &Target,
    kind: ChildKind,
    offset: u64,
    size: u64,
    resizable: bool,
    no_write: bool,
) -> Result<Option<Koid>, Refusal>
    requires parts { AreTogether (P.content store.old) vmos.old pins.now }
    requires named { IsNamed (names_of vmos.old) t.now }
    requires closed { names_of vmos.old name.0 ≡ None }
    requires next { (P.content store.old).next < KOIDS }
    ensures step { (s : State) (parent : VmoName) → names_of vmos.old parent.0 ≡ Some t.now →
        Step (with_tables s (P.content store.old) vmos.old pins.now)
        (Command.VmoChild name parent kind offset size resizable no_write)
        (reply_of (λ _. Reply.Done) result) (with_tables s (P.content store.new) vmos.new pins.now) }
    ensures keepers { keepers_of vmos.new ≡ keepers_of vmos.old }
    ensures koid { IfOk result (λ koid. koid ≡ koid_given kind (P.content store.old).next) }
{
    let shape = ChildShape {
        offset,
        size,
        resizable,
        no_write,
    };
    match kind {
        ChildKind::Snapshot => snapshot(store, vmos, pins, name, t, shape),
        ChildKind::Slice => slice(store, vmos, name, t, shape),
        ChildKind::Reference => reference(vmos, name, t, shape),
    }
}
