//! Which handler does a command. One function for each group of commands calls the handler, so that each function is a
//! short `match`. A command that is no access answers what it may have changed of the pages that are ready.

ghost use Rattle.std.specs.Prelude.{◌≡◌, ◌≢◌, ◌<◌, ◌≤◌, length, ⊤, MatchOption};
ghost use Rattle.mapping_set.specs.Tables.{table_of};
ghost use Rattle.vm_base.specs.declared.limits.TheConstants.{DATA_BYTES, KOIDS, PIN_PAGES};
ghost use Rattle.vm_model.specs.Machine.Given.{GivesName};
ghost use Rattle.vm_model.specs.Machine.State.{State};
ghost use Rattle.vm_model.specs.Machine.Step.{Step};
ghost use Rattle.vm_model.specs.Machine.MachineStep.{MachineStep};
ghost use Rattle.mapping_set.specs.Backed.{AreBacked};
ghost use Rattle.ready_pages.specs.declared.change.Change.{Change};
ghost use Rattle.machine.specs.inside.Changes.{change_after};
ghost use Rattle.machine.specs.inside.Fields.{parts_of};
ghost use Rattle.machine.specs.inside.Steps.{Handles, IsSoundState, Misses};
ghost use Rattle.machine.specs.Machine.{machine_of_parts, IsAtPlace};
ghost use Rattle.machine.specs.Groups.{group_of};
ghost use Rattle.machine.specs.declared.groups.Group.{Group};

use crate::accessing::{mem_read, mem_write};
use crate::asking::{vmo_info, vmo_read, vmo_size};
use crate::changing::{vmo_commit, vmo_decommit, vmo_fill, vmo_set_size, vmo_write, vmo_zero};
use crate::groups::{Group, group_of};
use crate::mappings::{list_maps, vmar_map, vmar_protect, vmar_unmap};
use crate::naming::{vmo_close, vmo_create, vmo_create_child};
use crate::pinning::{vmo_pin, vmo_unpin};
use crate::requests::{ChildRequest, PinRequest, RegionCommand, region_command};
use crate::spaces::{root_create, vmar_allocate, vmar_destroy};
use crate::tables::Tables;
use attribution::stat;
use page_store::PageStore;
use ready_pages::{Change, ReadyPages};
use region_ops::RegionRange;
use vm_model::{Answer, Call};
use vmo_ops::{ChildShape, NameRange};

/// Does one command that is no access through mappings and no question about the whole machine. Returns the answer, and what
/// may have changed of the pages that are ready. If an address is told, a place that the command leaves open is there. `None`,
/// with nothing changed, if nothing refuses the command, but it can't be there.
#[inline(always)]
pub(crate) fn on_tables<'a, P: PageStore>(
    pages: &mut P,
    tables: &mut Tables,
    call: &Call<'_>,
    told: Option<u64>,
    bytes: &'a mut [u8],
    numbers: &'a mut [u64],
) -> Option<(Answer<'a>, Change)>
    requires memory { group_of call.now ≢ Group.Memory }
    requires machine { group_of call.now ≢ Group.Machine }
    requires sound { IsSoundState (P.content pages.old) tables.old }
    requires next { (P.content pages.old).next < KOIDS }
    requires bytes { DATA_BYTES ≤ length bytes.old }
    requires numbers { PIN_PAGES ≤ length numbers.old }
    ensures does { MatchOption result
        (Misses (P.content pages.old) tables.old call.now told (P.content pages.new) tables.new)
        (λ done. Handles (P.content pages.old) tables.old call.now done.0 done.1
        (P.content pages.new) tables.new) }
    ensures place { MatchOption result ⊤ (λ done. IsAtPlace call.now told done.0) }
{
    match group_of(call) {
        Group::Vmo => Some(on_vmo(pages, tables, call)),
        Group::Pages => Some(on_pages(pages, tables, call, bytes)),
        Group::Pin => Some(on_pin(pages, tables, call, numbers)),
        Group::Region => on_region(pages, tables, call, told),
        Group::Memory | Group::Machine => unreachable!(),
    }
}

/// Hands a command on a VMO as a whole to its handler.
pub(crate) fn on_vmo<P: PageStore>(
    pages: &mut P,
    tables: &mut Tables,
    call: &Call<'_>,
) -> (Answer<'static>, Change)
    requires group { group_of call.now ≡ Group.Vmo }
    requires sound { IsSoundState (P.content pages.old) tables.old }
    requires next { (P.content pages.old).next < KOIDS }
    ensures { Handles (P.content pages.old) tables.old call.now result.0 result.1
        (P.content pages.new) tables.new }
{
    match call {
        Call::VmoCreate {
            name,
            size,
            resizable,
        } => (
            vmo_create(pages, tables, *name, *size, *resizable),
            Change::None,
        ),
        Call::VmoChild {
            name,
            parent,
            kind,
            offset,
            size,
            resizable,
            no_write,
        } => {
            let shape = ChildShape {
                offset: *offset,
                size: *size,
                resizable: *resizable,
                no_write: *no_write,
            };
            let request = ChildRequest {
                parent: *parent,
                kind: *kind,
                shape,
            };
            vmo_create_child(pages, tables, *name, request)
        }
        Call::VmoClose { name } => (vmo_close(pages, tables, *name), Change::None),
        Call::VmoSize { name } => (vmo_size(pages, tables, *name), Change::None),
        Call::VmoSetSize { name, size } => vmo_set_size(pages, tables, *name, *size),
        Call::VmoInfo { name } => (vmo_info(pages, tables, *name), Change::None),
        _ => unreachable!(),
    }
}

/// Hands a command on pages of a VMO to its handler. A read writes its bytes to `bytes`.
pub(crate) fn on_pages<'a, P: PageStore>(
    pages: &mut P,
    tables: &Tables,
    call: &Call<'_>,
    bytes: &'a mut [u8],
) -> (Answer<'a>, Change)
    requires group { group_of call.now ≡ Group.Pages }
    requires sound { IsSoundState (P.content pages.old) tables.now }
    requires bytes { DATA_BYTES ≤ length bytes.old }
    ensures { Handles (P.content pages.old) tables.now call.now result.0 result.1
        (P.content pages.new) tables.now }
{
    match call {
        Call::VmoRead { name, offset, len } => {
            let range = NameRange::new(*name, *offset, *len);
            (vmo_read(pages, tables, range, bytes), Change::None)
        }
        Call::VmoWrite {
            name,
            offset,
            bytes: written,
        } => vmo_write(pages, tables, *name, *offset, written.as_slice()),
        Call::VmoFill {
            name,
            offset,
            len,
            byte,
        } => vmo_fill(pages, tables, NameRange::new(*name, *offset, *len), *byte),
        Call::VmoCommit { name, offset, len } => vmo_commit(
            pages,
            tables,
            NameRange::new(*name, *offset, *len),
        ),
        Call::VmoZero { name, offset, len } => vmo_zero(
            pages,
            tables,
            NameRange::new(*name, *offset, *len),
        ),
        Call::VmoDecommit { name, offset, len } => vmo_decommit(
            pages,
            tables,
            NameRange::new(*name, *offset, *len),
        ),
        _ => unreachable!(),
    }
}

/// Hands a command on a pin to its handler. `vmo_pin` writes the numbers of the pinned frames to `numbers`.
pub(crate) fn on_pin<'a, P: PageStore>(
    pages: &mut P,
    tables: &mut Tables,
    call: &Call<'_>,
    numbers: &'a mut [u64],
) -> (Answer<'a>, Change)
    requires group { group_of call.now ≡ Group.Pin }
    requires sound { IsSoundState (P.content pages.old) tables.old }
    requires numbers { PIN_PAGES ≤ length numbers.old }
    ensures { Handles (P.content pages.old) tables.old call.now result.0 result.1
        (P.content pages.new) tables.new }
{
    match call {
        Call::VmoPin {
            pin,
            name,
            offset,
            len,
        } => {
            let range = NameRange::new(*name, *offset, *len);
            let request = PinRequest { pin: *pin, range };
            vmo_pin(pages, tables, request, numbers)
        }
        Call::VmoUnpin { pin } => (vmo_unpin(pages, tables, *pin), Change::None),
        _ => unreachable!(),
    }
}

/// Hands a command on a region, or on the mappings in one, to its handler. If an address is told, a place that the
/// command leaves open is there. `None`, with nothing changed, if nothing refuses the command, but it can't be there.
pub(crate) fn on_region<P: PageStore>(
    pages: &mut P,
    tables: &mut Tables,
    call: &Call<'_>,
    told: Option<u64>,
) -> Option<(Answer<'static>, Change)>
    requires group { group_of call.now ≡ Group.Region }
    requires sound { IsSoundState (P.content pages.old) tables.old }
    ensures does { MatchOption result
        (Misses (P.content pages.old) tables.old call.now told (P.content pages.new) tables.new)
        (λ done. Handles (P.content pages.old) tables.old call.now done.0 done.1
        (P.content pages.new) tables.new) }
    ensures place { MatchOption result ⊤ (λ done. IsAtPlace call.now told done.0) }
{
    match region_command(call) {
        RegionCommand::Create(region) => Some((root_create(tables, region), Change::None)),
        RegionCommand::Allocate(region, request) => {
            let answer = vmar_allocate(tables, region, request, told)?;
            Some((answer, Change::None))
        }
        RegionCommand::Map(request) => vmar_map(pages, tables, request, told),
        RegionCommand::Unmap(range) => Some(vmar_unmap(pages, tables, range)),
        RegionCommand::Protect(range, perm) => Some(vmar_protect(tables, range, perm)),
        RegionCommand::Destroy(region) => Some(vmar_destroy(pages, tables, region)),
        RegionCommand::List(region) => Some((list_maps(tables, region), Change::None)),
    }
}

/// Answers a question about the whole machine.
pub(crate) fn on_machine<P: PageStore>(pages: &P, call: &Call<'_>) -> Answer<'static>
    requires { group_of call.now ≡ Group.Machine }
    ensures step { (s : State) → Step (record s { content = P.content pages.now }) call.now result
        (record s { content = P.content pages.now }) }
    ensures change { (s : State) → Change.None ≡ change_after s call.now result }
    ensures name { GivesName call.now }
{
    match call {
        Call::Stat => Answer::Stat(stat(pages)),
        _ => unreachable!(),
    }
}

/// Hands an access through mappings to its handler. A read writes its bytes to `bytes`.
pub(crate) fn on_memory<'a, P: PageStore, R: ReadyPages<P>>(
    pages: &mut P,
    tables: &Tables,
    ready: &mut R,
    call: &Call<'_>,
    bytes: &'a mut [u8],
) -> Answer<'a>
    requires group { group_of call.now ≡ Group.Memory }
    requires backed { AreBacked (P.content pages.old) (table_of tables.now.maps) }
    requires notes { R.AreTrue (P.content pages.old) (table_of tables.now.maps) ready.old }
    requires bytes { DATA_BYTES ≤ length bytes.old }
    ensures step { MachineStep (machine_of_parts R.ready (P.content pages.old) (parts_of tables.now ready.old))
        call.now result (machine_of_parts R.ready (P.content pages.new) (parts_of tables.now ready.new)) }
    ensures name { GivesName call.now }
    ensures notes { R.AreTrue (P.content pages.new) (table_of tables.now.maps) ready.new }
{
    match call {
        Call::MemRead { region, addr, len } => {
            let range = RegionRange {
                region: *region,
                addr: *addr,
                len: *len,
            };
            mem_read(pages, tables, ready, range, bytes)
        }
        Call::MemWrite {
            region,
            addr,
            bytes: written,
        } => mem_write(pages, tables, ready, *region, *addr, written.as_slice()),
        _ => unreachable!(),
    }
}
