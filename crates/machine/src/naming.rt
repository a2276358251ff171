//! The commands that give a name or close one: `vmo_create`, `vmo_create_child`, `vmo_close`.

ghost use Rattle.std.specs.Prelude.{◌≡◌, ◌<◌};
ghost use Rattle.vm_base.specs.declared.limits.TheConstants.{KOIDS};
ghost use Rattle.vm_model.specs.declared.command.Command.TheVariants as Command;
ghost use Rattle.vm_model.specs.Contents.Content.{IsGood};
ghost use Rattle.page_store.specs.Names.{IsInside};
ghost use Rattle.machine.specs.inside.Changes.{change_of_child, shared_part};
ghost use Rattle.ready_pages.specs.declared.change.Change.{Change};
ghost use Rattle.machine.specs.inside.Steps.{Handles, IsSoundState};

use crate::requests::ChildRequest;
use crate::tables::Tables;
use page_store::{PageStore, pages_of_name};
use ready_pages::Change;
use vm_base::{Refusal, VmoName, page_count, page_of};
use vm_model::{Answer, ChildKind, Target};

/// Makes a VMO. `NameInUse` if the name is open.
pub(crate) fn vmo_create<P: PageStore>(
    pages: &mut P,
    tables: &mut Tables,
    name: VmoName,
    size: u64,
    resizable: bool,
) -> Answer<'static>
    requires sound { IsSoundState (P.content pages.old) tables.old }
    requires next { (P.content pages.old).next < KOIDS }
    ensures { Handles (P.content pages.old) tables.old (Command.VmoCreate name size resizable) result Change.None
        (P.content pages.new) tables.new }
{
    if tables.vmos.resolve(name).is_some() {
        return Answer::Refused(Refusal::NameInUse);
    }
    match vmo_ops::create(pages, &mut tables.vmos, name, size, resizable) {
        Ok(_) => Answer::Done,
        Err(refusal) => Answer::Refused(refusal),
    }
}

/// Makes a child of what the parent's name stands for. `BadHandle` if that name is not open, `NameInUse` if `name` is open. The
/// pages that a snapshot shares are answered, of which those that are not pinned may be written no more by what showed them.
pub(crate) fn vmo_create_child<P: PageStore>(
    pages: &mut P,
    tables: &mut Tables,
    name: VmoName,
    request: ChildRequest,
) -> (Answer<'static>, Change)
    requires sound { IsSoundState (P.content pages.old) tables.old }
    requires next { (P.content pages.old).next < KOIDS }
    ensures { Handles (P.content pages.old) tables.old
        (Command.VmoChild name request.parent request.kind request.shape.offset request.shape.size request.shape.resizable
        request.shape.no_write) result.0 result.1 (P.content pages.new) tables.new }
{
    let Some(target) = tables.vmos.resolve(request.parent) else {
        return (Answer::Refused(Refusal::BadHandle), Change::None);
    };
    if tables.vmos.resolve(name).is_some() {
        return (Answer::Refused(Refusal::NameInUse), Change::None);
    }
    let change = child_change(pages, &target, request);
    let shape = request.shape;
    match vmo_ops::create_child(
        pages,
        &mut tables.vmos,
        &tables.pins,
        name,
        &target,
        request.kind,
        shape.offset,
        shape.size,
        shape.resizable,
        shape.no_write,
    ) {
        Ok(_) => (Answer::Done, change),
        Err(refusal) => (Answer::Refused(refusal), Change::None),
    }
}

// What a child changes of what is ready: a snapshot shares the pages of the parent that it sees.
fn child_change<P: PageStore>(pages: &P, target: &Target, request: ChildRequest) -> Change
    requires good { IsGood (P.content pages.now) }
    requires inside { IsInside (P.content pages.now) target.now }
    ensures { result ≡ change_of_child request.kind (P.content pages.now) target.now request.shape.offset request.shape.size }
{
    match request.kind {
        ChildKind::Snapshot => seen_part(pages, target, request.shape.offset, request.shape.size),
        ChildKind::Slice | ChildKind::Reference => Change::None,
    }
}

// The pages that a snapshot of a part of a name shares.
#[tactic(auto, using(page_store::proofs::NameLaws::name_few))]
fn seen_part<P: PageStore>(pages: &P, target: &Target, offset: u64, size: u64) -> Change
    requires good { IsGood (P.content pages.now) }
    requires inside { IsInside (P.content pages.now) target.now }
    ensures { result ≡ shared_part (P.content pages.now) target.now offset size }
{
    let start = page_of(offset);
    let behind = pages_of_name(pages, target).saturating_sub(start);
    let seen = page_count(size).min(behind);
    let first = target.first + start;
    Change::Shared {
        koid: target.koid,
        first,
        end: first + seen,
    }
}

/// Closes a name. `BadHandle` if it is not open.
pub(crate) fn vmo_close<P: PageStore>(
    pages: &mut P,
    tables: &mut Tables,
    name: VmoName,
) -> Answer<'static>
    requires { IsSoundState (P.content pages.old) tables.old }
    ensures { Handles (P.content pages.old) tables.old (Command.VmoClose name) result Change.None
        (P.content pages.new) tables.new }
{
    if tables.vmos.resolve(name).is_none() {
        return Answer::Refused(Refusal::BadHandle);
    }
    vmo_ops::close(pages, &mut tables.vmos, name);
    Answer::Done
}
