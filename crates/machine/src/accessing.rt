//! The accesses through mappings: `mem_read`, `mem_write`. Each is refused by `BadHandle` if the region was never given, by
//! `BadState` if it is destroyed, and by `InvalidArgs` if it is no root region. Otherwise the refusals are those of
//! `ReadyPages`.

ghost use Rattle.std.specs.Prelude.{◌≤◌, length};
ghost use Rattle.vm_base.specs.declared.limits.TheConstants.{DATA_BYTES};
ghost use Rattle.vm_model.specs.declared.command.Command.TheVariants as Command;
ghost use Rattle.mapping_set.specs.Tables.{table_of};
ghost use Rattle.mapping_set.specs.Backed.{AreBacked};
ghost use Rattle.vm_model.specs.Machine.MachineStep.{MachineStep};
ghost use Rattle.machine.specs.Machine.{machine_of_parts};
ghost use Rattle.machine.specs.inside.Fields.{parts_of};

use crate::tables::Tables;
use page_store::PageStore;
use ready_pages::ReadyPages;
use region_ops::RegionRange;
use vm_base::{DATA_BYTES, Refusal, RegionName};
use vm_model::Answer;

/// Reads the bytes of a range through the mappings of an address space, into `room`, which has at least `DATA_BYTES` bytes,
/// and lends them from there. `InvalidArgs` also if the length is over `DATA_BYTES`.
#[tactic(auto, unfolding(vm_model::specs::Space::Regions::region_of))]
pub(crate) fn mem_read<'a, P: PageStore, R: ReadyPages<P>>(
    pages: &P,
    tables: &Tables,
    ready: &mut R,
    range: RegionRange,
    room: &'a mut [u8],
) -> Answer<'a>
    requires backed { AreBacked (P.content pages.now) (table_of tables.now.maps) }
    requires notes { R.AreTrue (P.content pages.now) (table_of tables.now.maps) ready.old }
    requires room { DATA_BYTES ≤ length room.old }
    ensures step { MachineStep (machine_of_parts R.ready (P.content pages.now) (parts_of tables.now ready.old))
        (Command.MemRead range.region range.addr range.len) result
        (machine_of_parts R.ready (P.content pages.now) (parts_of tables.now ready.new)) }
    ensures notes { R.AreTrue (P.content pages.now) (table_of tables.now.maps) ready.new }
{
    let Some(root) = tables.regions.get(range.region) else {
        return Answer::Refused(Refusal::BadHandle);
    };
    if !root.live {
        return Answer::Refused(Refusal::BadState);
    }
    if root.parent.is_some() || range.len > DATA_BYTES as u64 {
        return Answer::Refused(Refusal::InvalidArgs);
    }
    match ready.read(
        pages,
        &tables.maps,
        range.region,
        range.addr,
        range.len,
        room,
    ) {
        Ok((faults, bytes)) => Answer::Access { faults, bytes },
        Err(refusal) => Answer::Refused(refusal),
    }
}

/// Writes bytes, at most `DATA_BYTES`, from an address on through the mappings of an address space.
#[tactic(auto, unfolding(vm_model::specs::Space::Regions::region_of))]
pub(crate) fn mem_write<P: PageStore, R: ReadyPages<P>>(
    pages: &mut P,
    tables: &Tables,
    ready: &mut R,
    region: RegionName,
    addr: u64,
    bytes: &[u8],
) -> Answer<'static>
    requires backed { AreBacked (P.content pages.old) (table_of tables.now.maps) }
    requires notes { R.AreTrue (P.content pages.old) (table_of tables.now.maps) ready.old }
    requires bytes { length bytes.now ≤ DATA_BYTES }
    ensures step { MachineStep (machine_of_parts R.ready (P.content pages.old) (parts_of tables.now ready.old))
        (Command.MemWrite region addr bytes.now) result
        (machine_of_parts R.ready (P.content pages.new) (parts_of tables.now ready.new)) }
    ensures notes { R.AreTrue (P.content pages.new) (table_of tables.now.maps) ready.new }
{
    let Some(root) = tables.regions.get(region) else {
        return Answer::Refused(Refusal::BadHandle);
    };
    if !root.live {
        return Answer::Refused(Refusal::BadState);
    }
    if root.parent.is_some() {
        return Answer::Refused(Refusal::InvalidArgs);
    }
    match ready.write(pages, &tables.maps, region, addr, bytes) {
        Ok(faults) => Answer::Faults(faults),
        Err(refusal) => Answer::Refused(refusal),
    }
}
