//! Making a range of a name ready for a change: before any page changes, all refusals are tested and room is made.

ghost use Rattle.std.specs.Prelude.{◌≡◌, ℕ, ◌+◌, ◌-◌, ◌*◌, ◌<◌, ◌≤◌, ◌⊎◌, not, true, None, Some, IsSome, IfNone, IfSome, IfOk, IfErr, OnOk, OnErr, MatchResult};
ghost use Rattle.std.specs.List.{list_any, range_with_len};
ghost use Rattle.vm_base.specs.declared.names.VmoName.{VmoName};
ghost use Rattle.vm_base.specs.declared.refusal.Refusal.TheVariants.{NoMemory};
ghost use Rattle.vm_model.specs.declared.command.Command.TheVariants as Command;
ghost use Rattle.vm_model.specs.Contents.Content.{pages_of, sole, used, IsGood};
ghost use Rattle.vm_model.specs.Contents.Owning.{need};
ghost use Rattle.vm_model.specs.Contents.Writing.{touched};
ghost use Rattle.page_store.specs.Names.{IsInside};
ghost use Rattle.vmo_ops.specs.Costs.{AsksToOwn, HasRows, LacksRoom};
ghost use Rattle.vmo_ops.specs.Ranges.{touched_row, AreTouched};
ghost use Rattle.vmo_ops.specs.Targets.{with_content, IsPlaced, IsBarred, IsRefusalIn};

use crate::owning::{are_ample, need_of};
use crate::ranges::{TouchedPages, place_in_vmo, touched_by};
use page_store::PageStore;
use vm_base::{HostMemory, Koid, PAGE, PageNo, Refusal};
use vmo_table::Target;

/// A range of a name that may be changed: its place in the VMO, in bytes, the pages that it touches there, and a number of
/// rows of the store that is enough for the change.
#[derive(Clone, Copy)]
pub struct RangeToChange {
    pub at: u64,
    pub pages: TouchedPages,
    pub rows: u64,
}

/// Returns the place of a range of a name in the name's VMO, in bytes. `AccessDenied` if the name may not write, else
/// `OutOfRange` if the range passes the name's end.
pub(crate) fn place_to_change<P: PageStore>(
    store: &P,
    t: &Target,
    offset: u64,
    len: u64,
) -> Result<u64, Refusal>
    requires good { IsGood (P.content store.now) }
    requires inside { IsInside (P.content store.now) t.now }
    ensures ok { IfOk result (λ at. (t.now.may_write ≡ true)
        × IsPlaced (P.content store.now) t.now offset len at) }
    ensures err { IfErr result (IsBarred (P.content store.now) t.now offset len) }
{
    if !t.may_write {
        return Err(Refusal::AccessDenied);
    }
    match place_in_vmo(store, t, offset, len) {
        Some(at) => Ok(at),
        None => Err(Refusal::OutOfRange),
    }
}

/// Makes a range of a name ready for owning its pages, and answers where it is in the VMO. It is refused as a change is,
/// also for want of frames or of the host's memory. A refusal changes nothing.
#[inline(always)]
pub(crate) fn ready_to_own<P: PageStore>(
    store: &mut P,
    t: &Target,
    offset: u64,
    len: u64,
) -> Result<RangeToChange, Refusal>
    requires good { IsGood (P.content store.old) }
    requires inside { IsInside (P.content store.old) t.now }
    ensures same { P.content store.new ≡ P.content store.old }
    ensures err { IfErr result (λ refusal. IsBarred (P.content store.old) t.now offset len refusal
        ⊎ ((t.now.may_write ≡ true) × (at : ℕ) × IsPlaced (P.content store.old) t.now offset len at
        × LacksRoom (P.content store.old) t.now.koid.0 (touched at len) refusal)) }
    ensures ok { IfOk result (λ range. (t.now.may_write ≡ true) × IsPlaced (P.content store.old) t.now offset len range.at
        × HasRows (P.content store.old) t.now.koid.0 (touched range.at len) (P.spare store.new)
        × (used (P.content store.old) + need (P.content store.old) t.now.koid.0 (touched range.at len)
        ≤ (P.content store.old).frames)) }
    ensures touched { IfOk result (λ range. AreTouched range.at len range.pages) }
{
    let range = match ask_to_own(store, t, offset, len) {
        Ok(range) => range,
        Err(refusal) => return Err(refusal),
    };
    match room_to_own(store, t.koid, range.pages, range.rows) {
        Ok(()) => Ok(range),
        Err(_) => Err(Refusal::HostMemory),
    }
}

/// Finds a range of a name whose pages are to be owned. `AccessDenied` if the name may not write, else `OutOfRange` if the
/// range passes the name's end, else `NoMemory` if the pages that are not sole are more than the free frames. Nothing
/// changes.
#[inline(always)]
pub fn ask_to_own<P: PageStore>(
    store: &P,
    t: &Target,
    offset: u64,
    len: u64,
) -> Result<RangeToChange, Refusal>
    requires good { IsGood (P.content store.now) }
    requires inside { IsInside (P.content store.now) t.now }
    ensures ok { IfOk result (λ range. (t.now.may_write ≡ true) × IsPlaced (P.content store.now) t.now offset len range.at
        × AsksToOwn (P.content store.now) t.now.koid.0 (touched range.at len) range.rows
        × (used (P.content store.now) + need (P.content store.now) t.now.koid.0 (touched range.at len)
        ≤ (P.content store.now).frames)) }
    ensures err { IfErr result (λ refusal. IsBarred (P.content store.now) t.now offset len refusal
        ⊎ ((t.now.may_write ≡ true) × (at : ℕ) × IsPlaced (P.content store.now) t.now offset len at
        × (refusal ≡ NoMemory) × ((P.content store.now).frames
        < used (P.content store.now) + need (P.content store.now) t.now.koid.0 (touched at len)))) }
    ensures touched { IfOk result (λ range. AreTouched range.at len range.pages) }
    ensures refusal { let parts = with_content (P.content store.now) in
        let command = λ (name : VmoName). Command.VmoCommit name offset len in
        MatchResult result (λ range. IsRefusalIn parts t.now command None)
        (λ refusal. IsRefusalIn parts t.now command (Some refusal)) }
{
    let at = match place_to_change(store, t, offset, len) {
        Ok(at) => at,
        Err(refusal) => return Err(refusal),
    };
    let pages = touched_by(at, len);
    match rows_to_own(store, t.koid, pages) {
        Some(rows) => Ok(RangeToChange { at, pages, rows }),
        None => Err(Refusal::NoMemory),
    }
}

/// Returns how many rows of the store are enough to own pages of a VMO. `None` if and only if there are too few free frames.
/// If the pages are few and frames are free for all of them, no page is looked at.
#[inline(always)]
pub(crate) fn rows_to_own<P: PageStore>(store: &P, v: Koid, pages: TouchedPages) -> Option<u64>
    requires good { IsGood (P.content store.now) }
    requires vmo { IsSome ((P.content store.now).count v.0) }
    requires order { pages.first ≤ pages.end }
    requires inside { pages.end ≤ pages_of (P.content store.now) v.0 }
    ensures some { IfSome result (λ rows. AsksToOwn (P.content store.now) v.0 (touched_row pages) rows
        × (used (P.content store.now) + need (P.content store.now) v.0 (touched_row pages) ≤ (P.content store.now).frames)) }
    ensures none { IfNone result ((P.content store.now).frames
        < used (P.content store.now) + need (P.content store.now) v.0 (touched_row pages)) }
{
    let count = pages.end - pages.first;
    if are_ample(store, count) {
        return Some(count);
    }
    rows_needed(store, v, pages.first, pages.end)
}

// Does what `rows_to_own` does for the pages from `first` to below `end`, by a look at those that are held.
#[inline(never)]
fn rows_needed<P: PageStore>(store: &P, v: Koid, first: PageNo, end: PageNo) -> Option<u64>
    requires good { IsGood (P.content store.now) }
    requires vmo { IsSome ((P.content store.now).count v.0) }
    requires order { first ≤ end }
    requires pages { end ≤ pages_of (P.content store.now) v.0 }
    ensures some { IfSome result (λ rows. AsksToOwn (P.content store.now) v.0 (range_with_len first (end - first)) rows
        × (used (P.content store.now) + need (P.content store.now) v.0 (range_with_len first (end - first))
        ≤ (P.content store.now).frames)) }
    ensures none { IfNone result ((P.content store.now).frames
        < used (P.content store.now) + need (P.content store.now) v.0 (range_with_len first (end - first))) }
{
    let need = need_of(store, v, first, end);
    if need > u64::from(store.free()) {
        return None;
    }
    if need == 0 {
        return Some(0);
    }
    Some(end - first)
}

/// Makes room for owning pages that were asked for, if `rows` rows are enough. `HostMemory` only if one of them is not sole.
#[inline(always)]
pub(crate) fn room_to_own<P: PageStore>(
    store: &mut P,
    v: Koid,
    pages: TouchedPages,
    rows: u64,
) -> Result<(), HostMemory>
    requires good { IsGood (P.content store.old) }
    requires vmo { IsSome ((P.content store.old).count v.0) }
    requires order { pages.first ≤ pages.end }
    requires inside { pages.end ≤ pages_of (P.content store.old) v.0 }
    requires rows { AsksToOwn (P.content store.old) v.0 (touched_row pages) rows }
    ensures same { P.content store.new ≡ P.content store.old }
    ensures rows { OnOk result (HasRows (P.content store.old) v.0 (touched_row pages) (P.spare store.new)) }
    ensures err { OnErr result (list_any (λ p. not (sole (P.content store.old) v.0 p)) (touched_row pages) ≡ true) }
{
    if rows == 0 {
        return Ok(());
    }
    if let Ok(()) = store.reserve(rows) {
        return Ok(());
    }
    are_sole(store, v, pages)
}

// Returns whether each of these pages is sole, after there was no memory for rows. `HostMemory` if one is not.
#[inline(never)]
fn are_sole<P: PageStore>(store: &P, v: Koid, pages: TouchedPages) -> Result<(), HostMemory>
    requires good { IsGood (P.content store.now) }
    requires vmo { IsSome ((P.content store.now).count v.0) }
    requires order { pages.first ≤ pages.end }
    requires inside { pages.end ≤ pages_of (P.content store.now) v.0 }
    ensures ok { OnOk result (need (P.content store.now) v.0 (touched_row pages) ≡ 0) }
    ensures err { OnErr result (list_any (λ p. not (sole (P.content store.now) v.0 p)) (touched_row pages) ≡ true) }
{
    if need_of(store, v, pages.first, pages.end) == 0 {
        return Ok(());
    }
    Err(HostMemory)
}

/// Makes room for owning the pages that a range of a VMO touches. `NoMemory` if there are too few free frames, else
/// `HostMemory` only if one of these pages is not sole. If the range is short and frames are free for all of it, no
/// page is looked at.
#[inline(always)]
pub fn reserve_to_own<P: PageStore>(
    store: &mut P,
    v: Koid,
    offset: u64,
    len: u64,
) -> Result<(), Refusal>
    requires good { IsGood (P.content store.old) }
    requires vmo { IsSome ((P.content store.old).count v.0) }
    requires inside { offset + len ≤ pages_of (P.content store.old) v.0 * PAGE }
    ensures same { P.content store.new ≡ P.content store.old }
    ensures err { IfErr result (LacksRoom (P.content store.old) v.0 (touched offset len)) }
    ensures rows { OnOk result (HasRows (P.content store.old) v.0 (touched offset len) (P.spare store.new)) }
    ensures free { OnOk result (used (P.content store.old) + need (P.content store.old) v.0 (touched offset len)
        ≤ (P.content store.old).frames) }
{
    let pages = touched_by(offset, len);
    let Some(rows) = rows_to_own(store, v, pages) else {
        return Err(Refusal::NoMemory);
    };
    match room_to_own(store, v, pages, rows) {
        Ok(()) => Ok(()),
        Err(_) => Err(Refusal::HostMemory),
    }
}
