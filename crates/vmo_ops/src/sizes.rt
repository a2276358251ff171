//! Changing the size of a VMO (`zx_vmo_set_size`).

ghost use Rattle.std.specs.Prelude.{◌≡◌, ◌+◌, ◌*◌, ◌/◌, ◌<◌, ◌≤◌, None, Some, IsSome, IfNone, IfSome, MatchResult};
ghost use Rattle.vm_base.specs.Pages.{rounded};
ghost use Rattle.vm_base.specs.declared.names.VmoName.{VmoName};
ghost use Rattle.vm_model.specs.declared.reply.Reply.TheVariants as Reply;
ghost use Rattle.vm_model.specs.declared.command.Command.TheVariants as Command;
ghost use Rattle.vm_model.specs.Contents.Content.{pages_of, IsGood};
ghost use Rattle.vm_model.specs.Naming.Pins.{any_pinned};
ghost use Rattle.vm_model.specs.Machine.Step.{reply_of};
ghost use Rattle.page_store.specs.Names.{IsInside};
ghost use Rattle.pin_table.specs.Table.{pins_of};
ghost use Rattle.vmo_ops.specs.Targets.{with_pins, DoesWith, IsRefusalIn};

use page_store::PageStore;
use pin_table::PinTable;
use vm_base::{Koid, PAGE, PageNo, Refusal, VMO_PAGES, page_of, round_up};
use vmo_table::Target;

/// Changes the size of a VMO to `size` bytes, rounded up to whole pages. Pages past the new end leave
/// it, and pages that come in are zero. Refusals, in their order: `AccessDenied` where the name may not
/// write, `Unavailable` where it may not resize, `OutOfRange` where the size is over 2^48 bytes,
/// `BadState` where a page past the new end is pinned. It never wants memory.
pub fn resize<P: PageStore>(
    store: &mut P,
    pins: &PinTable,
    t: &Target,
    size: u64,
) -> Result<(), Refusal>
    requires good { IsGood (P.content store.old) }
    requires inside { IsInside (P.content store.old) t.now }
    ensures { DoesWith (pins_of pins.now) (λ name. Command.VmoSetSize name size) t.now (P.content store.old)
        (reply_of (λ _. Reply.Done) result) (P.content store.new) }
{
    let pages = match ask_to_resize(store, pins, t, size) {
        Ok(pages) => pages,
        Err(refusal) => return Err(refusal),
    };
    store.set_count(t.koid, pages);
    Ok(())
}

/// Finds the page count of a VMO that is to have `size` bytes. Refusals as for `resize`. Nothing changes.
pub fn ask_to_resize<P: PageStore>(
    store: &P,
    pins: &PinTable,
    t: &Target,
    size: u64,
) -> Result<PageNo, Refusal>
    requires good { IsGood (P.content store.now) }
    requires inside { IsInside (P.content store.now) t.now }
    ensures { let parts = with_pins (P.content store.now) (pins_of pins.now) in
        let command = λ (name : VmoName). Command.VmoSetSize name size in
        MatchResult result (λ pages. IsRefusalIn parts t.now command None
        × (pages ≡ rounded size / PAGE) × (pages ≤ VMO_PAGES))
        (λ refusal. IsRefusalIn parts t.now command (Some refusal)) }
{
    if !t.may_write {
        return Err(Refusal::AccessDenied);
    }
    if !t.may_resize {
        return Err(Refusal::Unavailable);
    }
    let Some(pages) = pages_within(0, size) else {
        return Err(Refusal::OutOfRange);
    };
    if is_pinned_past(store, pins, t.koid, pages) {
        return Err(Refusal::BadState);
    }
    Ok(pages)
}

/// Returns the page count of `size` bytes, if they end within the greatest size of a VMO, counted from `offset` on.
pub(crate) fn pages_within(offset: u64, size: u64) -> Option<PageNo>
    ensures some { IfSome result (λ pages. (pages ≡ rounded size / PAGE)
        × (offset + rounded size ≤ VMO_PAGES * PAGE) × (pages ≤ VMO_PAGES)) }
    ensures none { IfNone result (VMO_PAGES * PAGE < offset + rounded size) }
{
    let limit = (VMO_PAGES * PAGE).checked_sub(offset)?;
    let whole = round_up(size, limit)?;
    Some(page_of(whole))
}

/// Reports whether a page of a VMO behind the first `pages` is pinned.
#[tactic(auto, using(crate::proofs::PinnedLaws::pinned_past))]
pub fn is_pinned_past<P: PageStore>(store: &P, pins: &PinTable, v: Koid, pages: PageNo) -> bool
    requires { IsSome ((P.content store.now).count v.0) }
    ensures { result ≡ any_pinned (pins_of pins.now) v.0 pages (pages_of (P.content store.now) v.0) }
{
    pins.pinned(v, pages, store.count(v).saturating_sub(pages))
}
