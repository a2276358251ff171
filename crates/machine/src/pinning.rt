//! The commands that pin and unpin pages: `vmo_pin`, `vmo_unpin`.

ghost use Rattle.std.specs.Prelude.{◌≡◌, ◌+◌, ◌*◌, ◌≤◌, length};
ghost use Rattle.vm_base.specs.declared.limits.TheConstants.{PIN_PAGES, VMO_PAGES};
ghost use Rattle.vm_model.specs.declared.command.Command.TheVariants as Command;
ghost use Rattle.machine.specs.inside.Changes.{range_part};
ghost use Rattle.ready_pages.specs.declared.change.Change.{Change};
ghost use Rattle.machine.specs.inside.Steps.{Handles, IsSoundState};

use crate::changing::frames_changed;
use crate::requests::PinRequest;
use crate::tables::Tables;
use page_store::PageStore;
use ready_pages::Change;
use vm_base::{PAGE, PinName, Refusal};
use vm_model::{Answer, Target};
use vmo_ops::{NameRange, touched_by};

/// Pins the pages of a range. `BadHandle` if the name is not open, `NameInUse` if the pin is there. `room` has at least
/// `PIN_PAGES` places for the numbers of frames.
pub(crate) fn vmo_pin<'a, P: PageStore>(
    pages: &mut P,
    tables: &mut Tables,
    request: PinRequest,
    room: &'a mut [u64],
) -> (Answer<'a>, Change)
    requires sound { IsSoundState (P.content pages.old) tables.old }
    requires room { PIN_PAGES ≤ length room.old }
    ensures { Handles (P.content pages.old) tables.old (Command.VmoPin request.pin request.range.name
        request.range.offset request.range.len) result.0 result.1 (P.content pages.new) tables.new }
{
    let range = request.range;
    let Some(target) = tables.vmos.resolve(range.name) else {
        return (Answer::Refused(Refusal::BadHandle), Change::None);
    };
    if tables.pins.get(request.pin).is_some() {
        return (Answer::Refused(Refusal::NameInUse), Change::None);
    }
    match vmo_ops::pin_into(
        pages,
        &mut tables.vmos,
        &mut tables.pins,
        request.pin,
        &target,
        range.offset,
        range.len,
        room,
    ) {
        Ok(numbers) => (Answer::Pins(numbers), range_changed(&target, range)),
        Err(refusal) => (Answer::Refused(refusal), Change::None),
    }
}

// Returns what a command may have changed that touched a range of a name.
fn range_changed(target: &Target, range: NameRange) -> Change
    requires { target.now.first * PAGE + range.offset + range.len ≤ VMO_PAGES * PAGE }
    ensures { result ≡ range_part target.now range.offset range.len }
{
    let touched = touched_by(target.first * PAGE + range.offset, range.len);
    frames_changed(target.koid, touched)
}

/// Removes a pin. `BadHandle` if it is not there.
pub(crate) fn vmo_unpin<P: PageStore>(
    pages: &mut P,
    tables: &mut Tables,
    pin: PinName,
) -> Answer<'static>
    requires { IsSoundState (P.content pages.old) tables.old }
    ensures { Handles (P.content pages.old) tables.old (Command.VmoUnpin pin) result Change.None
        (P.content pages.new) tables.new }
{
    if tables.pins.get(pin).is_none() {
        return Answer::Refused(Refusal::BadHandle);
    }
    vmo_ops::unpin(pages, &mut tables.vmos, &mut tables.pins, pin);
    Answer::Done
}
