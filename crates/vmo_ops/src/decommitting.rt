//! Giving frames of pages back (`ZX_VMO_OP_DECOMMIT`).

ghost use Rattle.std.specs.Prelude.{◌≡◌, ◌+◌, ◌*◌, ◌/◌, ◌%◌, ◌≤◌, false, None, Some, IsSome, IfOk, MatchResult};
ghost use Rattle.vm_base.specs.declared.names.VmoName.{VmoName};
ghost use Rattle.vm_model.specs.declared.reply.Reply.TheVariants as Reply;
ghost use Rattle.vm_model.specs.declared.command.Command.TheVariants as Command;
ghost use Rattle.vm_model.specs.Contents.Content.{pages_of, IsGood};
ghost use Rattle.vm_model.specs.Contents.Zeroing.{zeroed};
ghost use Rattle.vm_model.specs.Naming.Pins.{any_pinned};
ghost use Rattle.vm_model.specs.Machine.State.{State};
ghost use Rattle.vm_model.specs.Machine.Step.{Step, reply_of};
ghost use Rattle.vmo_table.specs.Table.{names_of, IsNamed};
ghost use Rattle.pin_table.specs.Table.{pins_of};
ghost use Rattle.vmo_ops.specs.Costs.{held_touched};
ghost use Rattle.vmo_ops.specs.Ranges.{AreTouched};
ghost use Rattle.vmo_ops.specs.Targets.{AreTogether, with_tables, IsPlaced, IsRefusalIn};

use crate::ranges::{TouchedPages, is_whole, place_in_vmo, touched_by};
use crate::ready::RangeToChange;
use crate::zeroing::{room_to_zero, rows_to_clear, zero_pages};
use page_store::PageStore;
use pin_table::PinTable;
use vm_base::{Koid, PAGE, Refusal, page_of};
use vmo_table::{Target, VmoTable};

/// Makes the pages of a range zero and gives their frames back (`ZX_VMO_OP_DECOMMIT`). The range is `len` bytes from
/// `offset` bytes into the name on, both whole pages. Refusals, in their order:
///
/// - `AccessDenied` if the name may not write;
/// - `InvalidArgs` if `offset` or `len` is not a multiple of the page size;
/// - `NotSupported` if the VMO is a snapshot, has a VMO as child, or has a reference;
/// - `OutOfRange` if the range passes the name's end;
/// - `BadState` if a page of the range is pinned;
/// - `HostMemory`, only if a page of the range is held.
pub fn decommit<P: PageStore>(
    store: &mut P,
    vmos: &VmoTable,
    pins: &PinTable,
    t: &Target,
    offset: u64,
    len: u64,
) -> Result<(), Refusal>
    requires parts { AreTogether (P.content store.old) vmos.now pins.now }
    requires named { IsNamed (names_of vmos.now) t.now }
    ensures { (s : State) (name : VmoName) → names_of vmos.now name.0 ≡ Some t.now →
        Step (with_tables s (P.content store.old) vmos.now pins.now) (Command.VmoDecommit name offset len)
        (reply_of (λ _. Reply.Done) result) (with_tables s (P.content store.new) vmos.now pins.now) }
{
    match decommit_touching(store, vmos, pins, t, offset, len) {
        Ok(_) => Ok(()),
        Err(refusal) => Err(refusal),
    }
}

/// Does what `decommit` does, and answers the pages of the VMO that the range touches.
#[inline(always)]
pub fn decommit_touching<P: PageStore>(
    store: &mut P,
    vmos: &VmoTable,
    pins: &PinTable,
    t: &Target,
    offset: u64,
    len: u64,
) -> Result<TouchedPages, Refusal>
    requires parts { AreTogether (P.content store.old) vmos.now pins.now }
    requires named { IsNamed (names_of vmos.now) t.now }
    ensures step { (s : State) (name : VmoName) → names_of vmos.now name.0 ≡ Some t.now →
        Step (with_tables s (P.content store.old) vmos.now pins.now) (Command.VmoDecommit name offset len)
        (reply_of (λ _. Reply.Done) result) (with_tables s (P.content store.new) vmos.now pins.now) }
    ensures touched { IfOk result (λ pages. AreTouched (t.now.first * PAGE + offset) len pages) }
{
    let at = match ask_to_decommit(store, vmos, pins, t, offset, len) {
        Ok(at) => at,
        Err(refusal) => return Err(refusal),
    };
    let pages = touched_by(at, len);
    let rows = rows_to_clear(store, pins, t.koid, at, len, pages);
    let Ok(()) = room_to_zero(store, pins, t.koid, RangeToChange { at, pages, rows }, len) else {
        return Err(Refusal::HostMemory);
    };
    clear_pages(store, pins, t.koid, at, len, pages);
    Ok(pages)
}

/// Finds the place in the VMO, in bytes, of a range whose frames are to be given back. Refusals as for `decommit`, without
/// `HostMemory`. Nothing changes.
pub fn ask_to_decommit<P: PageStore>(
    store: &P,
    vmos: &VmoTable,
    pins: &PinTable,
    t: &Target,
    offset: u64,
    len: u64,
) -> Result<u64, Refusal>
    requires parts { AreTogether (P.content store.now) vmos.now pins.now }
    requires named { IsNamed (names_of vmos.now) t.now }
    ensures { let parts = λ (s : State). with_tables s (P.content store.now) vmos.now pins.now in
        let command = λ (name : VmoName). Command.VmoDecommit name offset len in
        MatchResult result (λ at. IsRefusalIn parts t.now command None
        × IsPlaced (P.content store.now) t.now offset len at × (at % PAGE ≡ 0) × (len % PAGE ≡ 0)
        × (any_pinned (pins_of pins.now) t.now.koid.0 (at / PAGE) (at / PAGE + len / PAGE) ≡ false))
        (λ refusal. IsRefusalIn parts t.now command (Some refusal)) }
{
    if !t.may_write {
        return Err(Refusal::AccessDenied);
    }
    if !is_whole(offset, len) {
        return Err(Refusal::InvalidArgs);
    }
    if !vmos.may_decommit(t.koid) {
        return Err(Refusal::NotSupported);
    }
    let Some(at) = place_in_vmo(store, t, offset, len) else {
        return Err(Refusal::OutOfRange);
    };
    if pins.pinned(t.koid, page_of(at), page_of(len)) {
        return Err(Refusal::BadState);
    }
    Ok(at)
}

// Makes the pages of a range of whole pages zero. None of them is pinned, and there is room for it.
#[tactic(auto, using(crate::proofs::DecommitLaws::clear_laws))]
fn clear_pages<P: PageStore>(
    store: &mut P,
    pins: &PinTable,
    v: Koid,
    offset: u64,
    len: u64,
    pages: TouchedPages,
)
    requires touched { AreTouched offset len pages }
    requires good { IsGood (P.content store.old) }
    requires vmo { IsSome ((P.content store.old).count v.0) }
    requires inside { offset + len ≤ pages_of (P.content store.old) v.0 * PAGE }
    requires whole { (offset % PAGE ≡ 0) × (len % PAGE ≡ 0) }
    requires free { any_pinned (pins_of pins.now) v.0 (offset / PAGE) (offset / PAGE + len / PAGE) ≡ false }
    requires room { held_touched (P.content store.old) v.0 offset len ≤ P.spare store.old }
    ensures { P.content store.new ≡ zeroed (P.content store.old) v.0 (offset / PAGE) ((offset + len) / PAGE) }
{
    zero_pages(store, pins, v, offset, len, pages);
}
