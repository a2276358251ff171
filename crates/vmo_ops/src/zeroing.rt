//! Zeroing a range (`ZX_VMO_OP_ZERO`).

ghost use Rattle.std.specs.Prelude.{◌≡◌, ℕ, ◌+◌, ◌-◌, ◌*◌, ◌/◌, ◌<◌, ◌≤◌, Bool, not, ◌&&◌, ◌==◌, true, false, if◌then◌else◌, None, Some, IsSome, ◌⊎◌, IfNone, IfSome, IfOk, OnOk, OnErr, MatchResult};
ghost use Rattle.vm_base.specs.declared.names.VmoName.{VmoName};
ghost use Rattle.vm_model.specs.declared.reply.Reply.TheVariants as Reply;
ghost use Rattle.vm_model.specs.declared.command.Command.TheVariants as Command;
ghost use Rattle.vm_model.specs.Contents.Content.{pages_of, is_held, sole, used, IsGood};
ghost use Rattle.vm_model.specs.Contents.Owning.{need};
ghost use Rattle.vm_model.specs.Contents.Writing.{touched};
ghost use Rattle.vm_model.specs.Naming.Pins.{is_pinned};
ghost use Rattle.vm_model.specs.Contents.Zeroing.{zeroed, is_cleared, owned_by_zero, ZeroesPage, Zeroes};
ghost use Rattle.vm_model.specs.Machine.Step.{reply_of};
ghost use Rattle.page_store.specs.Names.{IsInside};
ghost use Rattle.page_store.specs.Held.{held_from};
ghost use Rattle.pin_table.specs.Table.{pins_of};
ghost use Rattle.vmo_ops.specs.Ranges.{AreTouched};
ghost use Rattle.vmo_ops.specs.Targets.{with_pins, DoesWith, IsPlaced, IsRefusalIn};
ghost use Rattle.vmo_ops.specs.Costs.{held_touched, AsksToZero};

use crate::filling::fill_part;
use crate::held_pages::is_held_at;
use crate::owning::{UNSEEN_PAGES, are_ample, is_sole, with_one};
use crate::ranges::{PagePart, TouchedPages, part_in_page, touched_by, touched_pages};
use crate::ready::{RangeToChange, place_to_change};
use page_store::PageStore;
use pin_table::PinTable;
use vm_base::{HostMemory, Koid, PAGE, PAGE_BYTES, PageNo, Refusal, VMO_PAGES, page_of};
use vmo_table::Target;

/// Makes the bytes of a range zero (`ZX_VMO_OP_ZERO`): `len` bytes from `offset` bytes into the name on. A page that
/// lies wholly in the range and is not pinned becomes zero, and its frame is given back unless another VMO shows it.
/// Any other page that is held is owned and written with zeros, so a pinned page keeps its frame. Refusals, in their
/// order:
///
/// - `AccessDenied` if the name may not write;
/// - `OutOfRange` if the range passes the name's end;
/// - `NoMemory` if owning takes more frames than are free;
/// - `HostMemory`, only if a page that the range touches is held.
pub fn zero<P: PageStore>(
    store: &mut P,
    pins: &PinTable,
    t: &Target,
    offset: u64,
    len: u64,
) -> Result<(), Refusal>
    requires good { IsGood (P.content store.old) }
    requires inside { IsInside (P.content store.old) t.now }
    ensures { DoesWith (pins_of pins.now) (λ name. Command.VmoZero name offset len) t.now (P.content store.old)
        (reply_of (λ _. Reply.Done) result) (P.content store.new) }
{
    match zero_touching(store, pins, t, offset, len) {
        Ok(_) => Ok(()),
        Err(refusal) => Err(refusal),
    }
}

/// Does what `zero` does, and answers the pages of the VMO that the range touches.
#[inline(always)]
pub fn zero_touching<P: PageStore>(
    store: &mut P,
    pins: &PinTable,
    t: &Target,
    offset: u64,
    len: u64,
) -> Result<TouchedPages, Refusal>
    requires good { IsGood (P.content store.old) }
    requires inside { IsInside (P.content store.old) t.now }
    ensures step { DoesWith (pins_of pins.now) (λ name. Command.VmoZero name offset len) t.now (P.content store.old)
        (reply_of (λ _. Reply.Done) result) (P.content store.new) }
    ensures touched { IfOk result (λ pages. AreTouched (t.now.first * PAGE + offset) len pages) }
{
    let range = match ask_to_zero(store, pins, t, offset, len) {
        Ok(range) => range,
        Err(refusal) => return Err(refusal),
    };
    let Ok(()) = room_to_zero(store, pins, t.koid, range, len) else {
        return Err(Refusal::HostMemory);
    };
    zero_pages(store, pins, t.koid, range.at, len, range.pages);
    Ok(range.pages)
}

/// Finds a range of a name that is to be made zero. Refusals as for `zero`, without `HostMemory`. Nothing changes.
pub fn ask_to_zero<P: PageStore>(
    store: &P,
    pins: &PinTable,
    t: &Target,
    offset: u64,
    len: u64,
) -> Result<RangeToChange, Refusal>
    requires good { IsGood (P.content store.now) }
    requires inside { IsInside (P.content store.now) t.now }
    ensures { let parts = with_pins (P.content store.now) (pins_of pins.now) in
        let command = λ (name : VmoName). Command.VmoZero name offset len in
        MatchResult result (λ range. IsRefusalIn parts t.now command None
        × IsPlaced (P.content store.now) t.now offset len range.at
        × AsksToZero (P.content store.now) t.now.koid.0 range.at len range.rows
        × (used (P.content store.now) + need (P.content store.now) t.now.koid.0
        (owned_by_zero (P.content store.now) t.now.koid.0 (is_pinned (pins_of pins.now) t.now.koid.0) range.at len)
        ≤ (P.content store.now).frames) × AreTouched range.at len range.pages)
        (λ refusal. IsRefusalIn parts t.now command (Some refusal)) }
{
    let at = match place_to_change(store, t, offset, len) {
        Ok(at) => at,
        Err(refusal) => return Err(refusal),
    };
    let pages = touched_by(at, len);
    match rows_to_zero(store, pins, t.koid, at, len, pages) {
        Some(rows) => Ok(RangeToChange { at, pages, rows }),
        None => Err(Refusal::NoMemory),
    }
}

// Returns how many rows of the store are enough to zero a range inside a VMO. `None` if and only if owning takes more frames
// than are free. If the range is short and frames are free for all of it, no page is looked at.
fn rows_to_zero<P: PageStore>(
    store: &P,
    pins: &PinTable,
    v: Koid,
    offset: u64,
    len: u64,
    pages: TouchedPages,
) -> Option<u64>
    requires touched { AreTouched offset len pages }
    requires good { IsGood (P.content store.now) }
    requires vmo { IsSome ((P.content store.now).count v.0) }
    requires inside { offset + len ≤ pages_of (P.content store.now) v.0 * PAGE }
    ensures some { IfSome result (λ rows. AsksToZero (P.content store.now) v.0 offset len rows
        × (used (P.content store.now) + need (P.content store.now) v.0
        (owned_by_zero (P.content store.now) v.0 (is_pinned (pins_of pins.now) v.0) offset len)
        ≤ (P.content store.now).frames)) }
    ensures none { IfNone result ((P.content store.now).frames < used (P.content store.now)
        + need (P.content store.now) v.0
        (owned_by_zero (P.content store.now) v.0 (is_pinned (pins_of pins.now) v.0) offset len)) }
{
    let count = pages.end - pages.first;
    if are_ample(store, count) {
        return Some(count);
    }
    let cost = cost_to_zero(store, pins, v, offset, len);
    if cost.owned > u64::from(store.free()) {
        return None;
    }
    Some(cost.held)
}

/// Returns how many rows of the store are enough to zero a range inside a VMO, if it needs no frame. If the range is short, no
/// page is looked at.
pub(crate) fn rows_to_clear<P: PageStore>(
    store: &P,
    pins: &PinTable,
    v: Koid,
    offset: u64,
    len: u64,
    pages: TouchedPages,
) -> u64
    requires touched { AreTouched offset len pages }
    requires good { IsGood (P.content store.now) }
    requires vmo { IsSome ((P.content store.now).count v.0) }
    requires inside { offset + len ≤ pages_of (P.content store.now) v.0 * PAGE }
    ensures { AsksToZero (P.content store.now) v.0 offset len result }
{
    let count = pages.end - pages.first;
    if count <= UNSEEN_PAGES {
        return count;
    }
    cost_to_zero(store, pins, v, offset, len).held
}

/// Makes room for zeroing a range that was asked for. `HostMemory` only if a page that it touches is held.
pub(crate) fn room_to_zero<P: PageStore>(
    store: &mut P,
    pins: &PinTable,
    v: Koid,
    range: RangeToChange,
    len: u64,
) -> Result<(), HostMemory>
    requires good { IsGood (P.content store.old) }
    requires vmo { IsSome ((P.content store.old).count v.0) }
    requires inside { range.at + len ≤ pages_of (P.content store.old) v.0 * PAGE }
    requires rows { AsksToZero (P.content store.old) v.0 range.at len range.rows }
    ensures same { P.content store.new ≡ P.content store.old }
    ensures rows { OnOk result (held_touched (P.content store.old) v.0 range.at len ≤ P.spare store.new) }
    ensures err { OnErr result (0 < held_touched (P.content store.old) v.0 range.at len) }
{
    if range.rows == 0 {
        return Ok(());
    }
    if let Ok(()) = store.reserve(range.rows) {
        return Ok(());
    }
    if cost_to_zero(store, pins, v, range.at, len).held == 0 {
        return Ok(());
    }
    Err(HostMemory)
}

/// The cost of zeroing a range: the number of held pages that it touches, and the number of these that are to be owned
/// and are not sole.
#[derive(Clone, Copy)]
pub struct ZeroCost {
    pub held: u64,
    pub owned: u64,
}

/// Returns the cost of zeroing a range inside the VMO. The call looks at the held pages alone.
pub fn cost_to_zero<P: PageStore>(
    store: &P,
    pins: &PinTable,
    v: Koid,
    offset: u64,
    len: u64,
) -> ZeroCost
    requires good { IsGood (P.content store.now) }
    requires vmo { IsSome ((P.content store.now).count v.0) }
    requires inside { offset + len ≤ pages_of (P.content store.now) v.0 * PAGE }
    ensures held { result.held ≡ held_touched (P.content store.now) v.0 offset len }
    ensures owned { result.owned ≡ need (P.content store.now) v.0
        (owned_by_zero (P.content store.now) v.0 (is_pinned (pins_of pins.now) v.0) offset len) }
{
    let mut cost = ZeroCost { held: 0, owned: 0 };
    let (first, end) = touched_pages(offset, len);
    let mut from = first;
    while let Some(page) = store.next_held_below(v, from, end) {
        cost.held += 1;
        cost.owned = with_one(cost.owned, takes_frame(store, pins, v, offset, len, page));
        from = page + 1;
    }
    cost
}

// Whether zeroing a range takes a frame for a held page that it touches: the page does not become zero as a whole, and
// is not sole.
fn takes_frame<P: PageStore>(
    store: &P,
    pins: &PinTable,
    v: Koid,
    offset: u64,
    len: u64,
    page: PageNo,
) -> bool
    requires good { IsGood (P.content store.now) }
    requires range { offset + len ≤ pages_of (P.content store.now) v.0 * PAGE }
    requires first { offset / PAGE ≤ page }
    requires last { page * PAGE < offset + len }
    ensures { result ≡ (not (is_cleared (is_pinned (pins_of pins.now) v.0) offset len page)
        && not (sole (P.content store.now) v.0 page)) }
{
    let part = part_in_page(offset, len, page);
    !is_cleared_page(pins, v, page, part) && !is_sole(store, v, page)
}

// Whether zeroing clears a page as a whole. `part` is the part of the range that falls into the page. It is all of the
// page, and the page is not pinned.
#[tactic(auto, using(crate::proofs::ZeroLaws::any_pinned_one))]
fn is_cleared_page(pins: &PinTable, v: Koid, page: PageNo, part: PagePart) -> bool
    ensures { result ≡ (part.len == PAGE && not (is_pinned (pins_of pins.now) v.0 page)) }
{
    part.len == PAGE && !pins.pinned(v, page, 1)
}

/// Zeroes a range inside the VMO: whole pages in a row at once, up to the next that is pinned or cut, and that page by
/// itself. There is room for it.
pub(crate) fn zero_pages<P: PageStore>(
    store: &mut P,
    pins: &PinTable,
    v: Koid,
    offset: u64,
    len: u64,
    pages: TouchedPages,
)
    requires touched { AreTouched offset len pages }
    requires good { IsGood (P.content store.old) }
    requires vmo { IsSome ((P.content store.old).count v.0) }
    requires inside { offset + len ≤ pages_of (P.content store.old) v.0 * PAGE }
    requires room { held_touched (P.content store.old) v.0 offset len ≤ P.spare store.old }
    requires free { used (P.content store.old) + need (P.content store.old) v.0
        (owned_by_zero (P.content store.old) v.0 (is_pinned (pins_of pins.now) v.0) offset len)
        ≤ (P.content store.old).frames }
    ensures { Zeroes (P.content store.old) v.0 (is_pinned (pins_of pins.now) v.0) offset len (touched offset len)
        (P.content store.new) }
{
    let TouchedPages { first, end } = pages;
    let mut from = first;
    loop {
        let stop = cleared_until(pins, v, offset, len, from);
        zero_row(store, v, from, stop);
        if stop >= end {
            return;
        }
        zero_part(store, v, offset, len, stop);
        from = stop + 1;
    }
}

// Makes pages in a row zero, if there are any.
fn zero_row<P: PageStore>(store: &mut P, v: Koid, first: PageNo, end: PageNo)
    requires vmo { IsSome ((P.content store.old).count v.0) }
    requires range { (first ≤ end) × (end ≤ pages_of (P.content store.old) v.0) }
    requires room { held_from (P.content store.old) v.0 first (end - first) ≤ P.spare store.old }
    ensures zero { P.content store.new ≡ zeroed (P.content store.old) v.0 first end }
    ensures spare { P.spare store.old ≤ P.spare store.new + held_from (P.content store.old) v.0 first (end - first) }
{
    if first < end {
        store.zero_pages(v, first, end);
    }
}

// Returns the first page from `from` on that does not become zero as a whole: it is pinned, or the range does not hold all
// of it. The call looks for a pin once.
fn cleared_until(pins: &PinTable, v: Koid, offset: u64, len: u64, from: PageNo) -> PageNo
    requires { offset + len ≤ VMO_PAGES * PAGE }
    ensures order { from ≤ result }
    ensures end { (result ≡ from) ⊎ (result * PAGE ≤ offset + len) }
    ensures cleared { (p : ℕ) → from ≤ p → p < result → is_cleared (is_pinned (pins_of pins.now) v.0) offset len p ≡ true }
    ensures stop { is_cleared (is_pinned (pins_of pins.now) v.0) offset len result ≡ false }
{
    let whole = page_of(offset + len);
    if from >= whole || from * PAGE < offset {
        return from;
    }
    match pins.next_pinned(v, from) {
        Some(pinned) => pinned.min(whole),
        None => whole,
    }
}

// The bytes of a page of zeros.
static ZEROS: [u8; PAGE_BYTES] = [0; PAGE_BYTES];

// Zeroes the part of a range that falls into one page, if the page is held. The page does not become zero as a whole: it
// is pinned, or the range does not hold all of it.
fn zero_part<P: PageStore>(store: &mut P, v: Koid, offset: u64, len: u64, page: PageNo)
    requires good { IsGood (P.content store.old) }
    requires range { offset + len ≤ pages_of (P.content store.old) v.0 * PAGE }
    requires first { offset / PAGE ≤ page }
    requires last { page * PAGE < offset + len }
    requires room { is_held (P.content store.old) v.0 page ≡ true → 1 ≤ P.spare store.old }
    requires free { is_held (P.content store.old) v.0 page ≡ true →
        (sole (P.content store.old) v.0 page ≡ true) ⊎ (used (P.content store.old) < (P.content store.old).frames) }
    ensures zeroes { (pinned : ℕ → Bool) → is_cleared pinned offset len page ≡ false →
        ZeroesPage (P.content store.old) v.0 pinned offset len page (P.content store.new) }
    ensures spare { P.spare store.old ≤ P.spare store.new + (if is_held (P.content store.old) v.0 page then 1 else 0) }
{
    if !is_held_at(store, v, page) {
        return;
    }
    fill_part(store, v, page, part_in_page(offset, len, page), &ZEROS);
}
