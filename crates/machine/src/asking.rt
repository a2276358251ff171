//! The commands on VMOs that change nothing: `vmo_read`, `vmo_size`, `vmo_info`. Each is refused by `BadHandle` if the
//! name is not open. None wants memory.

ghost use Rattle.std.specs.Prelude.{◌≤◌, length};
ghost use Rattle.vm_base.specs.declared.limits.TheConstants.{DATA_BYTES};
ghost use Rattle.vm_model.specs.declared.command.Command.TheVariants as Command;
ghost use Rattle.ready_pages.specs.declared.change.Change.{Change};
ghost use Rattle.machine.specs.inside.Steps.{Handles, IsSoundState};

use crate::tables::Tables;
use attribution::info;
use page_store::{PageStore, size_of_name};
use vm_base::{Refusal, VmoName};
use vm_model::Answer;
use vmo_ops::NameRange;

/// Reads the bytes of a range into `room`, which has at least `DATA_BYTES` bytes.
pub(crate) fn vmo_read<'a, P: PageStore>(
    pages: &P,
    tables: &Tables,
    range: NameRange,
    room: &'a mut [u8],
) -> Answer<'a>
    requires sound { IsSoundState (P.content pages.now) tables.now }
    requires room { DATA_BYTES ≤ length room.old }
    ensures { Handles (P.content pages.now) tables.now (Command.VmoRead range.name range.offset range.len)
        result Change.None (P.content pages.now) tables.now }
{
    let Some(target) = tables.vmos.resolve(range.name) else {
        return Answer::Refused(Refusal::BadHandle);
    };
    match vmo_ops::read_into(pages, &target, range.offset, range.len, room) {
        Ok(bytes) => Answer::Bytes(bytes),
        Err(refusal) => Answer::Refused(refusal),
    }
}

/// Answers the size in bytes of what the name stands for.
pub(crate) fn vmo_size<P: PageStore>(pages: &P, tables: &Tables, name: VmoName) -> Answer<'static>
    requires { IsSoundState (P.content pages.now) tables.now }
    ensures { Handles (P.content pages.now) tables.now (Command.VmoSize name) result Change.None
        (P.content pages.now) tables.now }
{
    match tables.vmos.resolve(name) {
        Some(target) => Answer::Number(size_of_name(pages, &target)),
        None => Answer::Refused(Refusal::BadHandle),
    }
}

/// Tells what the VMO holds for which the name stands.
pub(crate) fn vmo_info<P: PageStore>(pages: &P, tables: &Tables, name: VmoName) -> Answer<'static>
    requires { IsSoundState (P.content pages.now) tables.now }
    ensures { Handles (P.content pages.now) tables.now (Command.VmoInfo name) result Change.None
        (P.content pages.now) tables.now }
{
    match tables.vmos.resolve(name) {
        Some(target) => Answer::Info(info(pages, &tables.vmos, &target)),
        None => Answer::Refused(Refusal::BadHandle),
    }
}
