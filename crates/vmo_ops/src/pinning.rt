//! Pinning pages, so that they keep their frames (`zx_bti_pin`, `zx_pmt_unpin`).

ghost use Rattle.std.specs.Prelude.{◌≡◌, ℕ, ◌+◌, ◌*◌, ◌/◌, ◌%◌, ◌^◌, ◌<◌, ◌≤◌, ◌==◌, ◌&&◌, ◌||◌, not, nat_lt, if◌then◌else◌, Option, None, Some, IsSome, IfOk, OnOk, MatchResult, length, map};
ghost use Rattle.std.specs.List.{range_with_len};
ghost use Rattle.vm_base.specs.Entries.{with_key};
ghost use Rattle.vm_base.specs.declared.limits.TheConstants.{NAMES};
ghost use Rattle.vm_base.specs.declared.names.PinName.{PinName};
ghost use Rattle.vm_base.specs.declared.names.VmoName.{VmoName};
ghost use Rattle.vm_model.specs.declared.reply.Reply.TheVariants as Reply;
ghost use Rattle.vm_model.specs.declared.command.Command.TheVariants as Command;
ghost use Rattle.vm_model.specs.Contents.Content.{pages_of, used, IsGood};
ghost use Rattle.vm_model.specs.Contents.Owning.{need, OwnsAll};
ghost use Rattle.vm_model.specs.Contents.Writing.{touched};
ghost use Rattle.vm_model.specs.Naming.Pins.{Pin};
ghost use Rattle.vm_model.specs.Machine.State.{State};
ghost use Rattle.vm_model.specs.Machine.Step.{Step, frame_of, frames_of, reply_of};
ghost use Rattle.page_store.specs.Names.{IsInside};
ghost use Rattle.vmo_table.specs.Table.{keepers_of, lineage_in, names_of, CountsKeepers, IsNamed, IsWellCounted};
ghost use Rattle.pin_table.specs.Table.{pins_of, pin_room};
ghost use Rattle.vmo_ops.specs.Costs.{AsksToOwn, HasRows};
ghost use Rattle.vmo_ops.specs.inside.Pinning.{pin_in, IsPinnable, IsPinRange};
ghost use Rattle.vmo_ops.specs.Ranges.{touched_row, AreTouched};
ghost use Rattle.vmo_ops.specs.Targets.{with_pins, with_tables, IsRefusalIn};

use crate::ranges::{is_whole, place_in_vmo, touched_by, touched_pages};
use crate::ready::{RangeToChange, room_to_own, rows_to_own};
use crate::requests::VmoRange;
use page_store::{PageStore, drop_gone};
use pin_table::PinTable;
use vm_base::{HostMemory, Koid, PAGE, PIN_PAGES, PinName, Refusal, page_of};
use vm_model::{LentNumbers, PinNumbers};
use vmo_table::{Target, VmoTable};

/// The bytes of the longest pin.
const PIN_BYTES: u64 = PIN_PAGES as u64 * PAGE;

/// Pins the pages of a range under the name of a pin that is not there (`zx_bti_pin`). The range is `len` bytes from
/// `offset` bytes into the name on, both whole pages, from 1 to `PIN_PAGES` of them. Each page is owned, and keeps its
/// frame as long as the pin is there. Answers the frames in ascending order of the pages. Refusals, in their order:
///
/// - `InvalidArgs` if `offset` or `len` is not a multiple of the page size, or `len` is 0 or more than `PIN_PAGES`
///   pages;
/// - `OutOfRange` if the range passes the name's end;
/// - `NoMemory` if the pages that are not sole are more than the free frames;
/// - `HostMemory`.
pub fn pin<P: PageStore>(
    store: &mut P,
    vmos: &mut VmoTable,
    pins: &mut PinTable,
    pin: PinName,
    t: &Target,
    offset: u64,
    len: u64,
) -> Result<PinNumbers, Refusal>
    requires parts { (s : State) × IsWellCounted vmos.old (with_tables s (P.content store.old) vmos.old pins.old) }
    requires named { IsNamed (names_of vmos.old) t.now }
    requires free { pins_of pins.old pin.0 ≡ None }
    ensures step { (s : State) (name : VmoName) → names_of vmos.old name.0 ≡ Some t.now →
        Step (with_tables s (P.content store.old) vmos.old pins.old) (Command.VmoPin pin name offset len)
        (reply_of (λ numbers. Reply.Pins numbers) result)
        (with_tables s (P.content store.new) vmos.new pins.new) }
    ensures counted { (s : State) → CountsKeepers vmos.old (record s { pins = pins_of pins.old }) →
        CountsKeepers vmos.new (record s { pins = pins_of pins.new }) }
{
    let mut room = [0; PIN_PAGES];
    match pin_into(store, vmos, pins, pin, t, offset, len, &mut room) {
        Ok(numbers) => Ok(numbers.to_numbers()),
        Err(refusal) => Err(refusal),
    }
}

/// Pins as `pin` does, and writes the numbers of the frames to `room`, which has at least `PIN_PAGES` places. The
/// answer borrows them from there.
pub fn pin_into<'a, P: PageStore>(
    store: &mut P,
    vmos: &mut VmoTable,
    pins: &mut PinTable,
    pin: PinName,
    t: &Target,
    offset: u64,
    len: u64,
    room: &'a mut [u64],
) -> Result<LentNumbers<'a>, Refusal>
    requires parts { (s : State) × IsWellCounted vmos.old (with_tables s (P.content store.old) vmos.old pins.old) }
    requires named { IsNamed (names_of vmos.old) t.now }
    requires free { pins_of pins.old pin.0 ≡ None }
    requires room { PIN_PAGES ≤ length room.old }
    ensures step { (s : State) (name : VmoName) → names_of vmos.old name.0 ≡ Some t.now →
        Step (with_tables s (P.content store.old) vmos.old pins.old) (Command.VmoPin pin name offset len)
        (reply_of (λ numbers. Reply.Pins numbers) result)
        (with_tables s (P.content store.new) vmos.new pins.new) }
    ensures counted { (s : State) → CountsKeepers vmos.old (record s { pins = pins_of pins.old }) →
        CountsKeepers vmos.new (record s { pins = pins_of pins.new }) }
{
    let range = match ask_to_pin(store, t, offset, len) {
        Ok(range) => range,
        Err(refusal) => return Err(refusal),
    };
    let Ok(()) = room_to_pin(store, pins, t.koid, range) else {
        return Err(Refusal::HostMemory);
    };
    let pinned = VmoRange {
        koid: t.koid,
        at: range.at,
        len,
    };
    Ok(add_pin(store, vmos, pins, pin, pinned, room))
}

/// Finds a range of a name that is to be pinned. Refusals as for `pin`, without `HostMemory`. Nothing changes.
pub fn ask_to_pin<P: PageStore>(
    store: &P,
    t: &Target,
    offset: u64,
    len: u64,
) -> Result<RangeToChange, Refusal>
    requires good { IsGood (P.content store.now) }
    requires inside { IsInside (P.content store.now) t.now }
    ensures ok { IfOk result (λ range. IsPinnable (P.content store.now) t.now offset len range.at range.rows) }
    ensures touched { IfOk result (λ range. AreTouched range.at len range.pages) }
    ensures refusal { (pin : PinName) (pins : ℕ → Option Pin) → pins pin.0 ≡ None →
        let parts = with_pins (P.content store.now) pins in
        let command = λ (name : VmoName). Command.VmoPin pin name offset len in
        MatchResult result (λ range. IsRefusalIn parts t.now command None)
        (λ refusal. IsRefusalIn parts t.now command (Some refusal)) }
{
    if is_no_pin_range(offset, len) {
        return Err(Refusal::InvalidArgs);
    }
    let Some(at) = place_in_vmo(store, t, offset, len) else {
        return Err(Refusal::OutOfRange);
    };
    let pages = touched_by(at, len);
    match rows_to_own(store, t.koid, pages) {
        Some(rows) => Ok(RangeToChange { at, pages, rows }),
        None => Err(Refusal::NoMemory),
    }
}

// Makes room for pinning a range that was asked for. `HostMemory` if the host has too little memory.
fn room_to_pin<P: PageStore>(
    store: &mut P,
    pins: &mut PinTable,
    v: Koid,
    range: RangeToChange,
) -> Result<(), HostMemory>
    requires good { IsGood (P.content store.old) }
    requires vmo { IsSome ((P.content store.old).count v.0) }
    requires order { range.pages.first ≤ range.pages.end }
    requires inside { range.pages.end ≤ pages_of (P.content store.old) v.0 }
    requires rows { AsksToOwn (P.content store.old) v.0 (touched_row range.pages) range.rows }
    ensures content { P.content store.new ≡ P.content store.old }
    ensures pins { pins_of pins.new ≡ pins_of pins.old }
    ensures rows { OnOk result (HasRows (P.content store.old) v.0 (touched_row range.pages) (P.spare store.new)) }
    ensures room { OnOk result (1 ≤ pin_room pins.new) }
{
    let Ok(()) = room_to_own(store, v, range.pages, range.rows) else {
        return Err(HostMemory);
    };
    pins.reserve()
}

// Pins the pages of a range of a VMO that is ready for it. Writes the numbers of their frames to `room`, and lends them
// from there.
fn add_pin<'a, P: PageStore>(
    store: &mut P,
    vmos: &mut VmoTable,
    pins: &mut PinTable,
    pin: PinName,
    range: VmoRange,
    room: &'a mut [u64],
) -> LentNumbers<'a>
    requires good { IsGood (P.content store.old) }
    requires inside { range.at + range.len ≤ pages_of (P.content store.old) range.koid.0 * PAGE }
    requires whole { IsPinRange range.at range.len }
    requires rows { HasRows (P.content store.old) range.koid.0 (touched range.at range.len) (P.spare store.old) }
    requires frames { used (P.content store.old) + need (P.content store.old) range.koid.0 (touched range.at range.len)
        ≤ (P.content store.old).frames }
    requires free { pins_of pins.old pin.0 ≡ None }
    requires pins { 1 ≤ pin_room pins.old }
    requires numbers { PIN_PAGES ≤ length room.old }
    requires koid { IsSome (lineage_in vmos.old range.koid.0) }
    requires few { keepers_of vmos.old range.koid.0 + 1 < 2 ^ 128 }
    ensures owns { OwnsAll (P.content store.old) range.koid.0 (touched range.at range.len) (P.content store.new) }
    ensures numbers { result ≡ frames_of (P.content store.new) (pin_in range.koid.0 range.at range.len) }
    ensures pins { pins_of pins.new ≡ with_key (pins_of pins.old) pin.0 (pin_in range.koid.0 range.at range.len) }
    ensures pin { pin.0 < NAMES }
    ensures names { names_of vmos.new ≡ names_of vmos.old }
    ensures lineage { lineage_in vmos.new ≡ lineage_in vmos.old }
    ensures keepers { (w : ℕ) → keepers_of vmos.new w ≡ keepers_of vmos.old w + (if w == range.koid.0 then 1 else 0) }
{
    // A VMO has no more pins than there are names: this rests on the range of the names.
    prove!(pin.0 <= u32::MAX);
    let count = page_of(range.len);
    let numbers = &mut room[..count as usize];
    own_frames(store, range.koid, range.at, range.len, numbers);
    pins.add(pin, range.koid, page_of(range.at), count);
    vmos.keep(range.koid, 1);
    LentNumbers::new(numbers)
}

// Whether no pin takes a range: it is not of whole pages, has none, or more than `PIN_PAGES`.
fn is_no_pin_range(offset: u64, len: u64) -> bool
    ensures { result ≡ (not (offset % PAGE == 0 && len % PAGE == 0) || (len == 0 || nat_lt (PIN_PAGES * PAGE) len)) }
{
    !is_whole(offset, len) || len == 0 || len > PIN_BYTES
}

// Owns the pages of a range of whole pages inside a VMO, and writes the number of each page's frame to `numbers`. There
// is room for it.
fn own_frames<P: PageStore>(store: &mut P, v: Koid, offset: u64, len: u64, numbers: &mut [u64])
    requires good { IsGood (P.content store.old) }
    requires inside { offset + len ≤ pages_of (P.content store.old) v.0 * PAGE }
    requires whole { (offset % PAGE ≡ 0) × (len % PAGE ≡ 0) }
    requires count { length numbers.old ≡ len / PAGE }
    requires room { HasRows (P.content store.old) v.0 (touched offset len) (P.spare store.old) }
    requires free { used (P.content store.old) + need (P.content store.old) v.0 (touched offset len)
        ≤ (P.content store.old).frames }
    ensures owns { OwnsAll (P.content store.old) v.0 (touched offset len) (P.content store.new) }
    ensures frames { numbers.new ≡ map (λ p. frame_of ((P.content store.new).page v.0 p))
        (range_with_len (offset / PAGE) (len / PAGE)) }
{
    let (first, end) = touched_pages(offset, len);
    for page in first..end {
        let tag = store.own(v, page);
        numbers[(page - first) as usize] = u64::from(tag.0);
    }
}

/// Removes a pin that is there (`zx_pmt_unpin`). If nothing keeps its VMO any more, the VMO leaves with its pages, and
/// its children get its parent. The call never wants memory.
pub fn unpin<P: PageStore>(store: &mut P, vmos: &mut VmoTable, pins: &mut PinTable, pin: PinName)
    requires parts { (s : State) × IsWellCounted vmos.old (with_tables s (P.content store.old) vmos.old pins.old) }
    requires there { IsSome (pins_of pins.old pin.0) }
    ensures step { (s : State) → IsWellCounted vmos.old (with_tables s (P.content store.old) vmos.old pins.old) →
        Step (with_tables s (P.content store.old) vmos.old pins.old) (Command.VmoUnpin pin) Reply.Done
        (with_tables s (P.content store.new) vmos.new pins.new) }
    ensures counted { (s : State) → CountsKeepers vmos.old (record s { pins = pins_of pins.old }) →
        CountsKeepers vmos.new (record s { pins = pins_of pins.new }) }
{
    let (koid, _, _) = pins.remove(pin);
    drop_gone(store, vmos.release(koid, 1));
}
