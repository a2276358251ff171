//! Further names of a VMO (`ZX_VMO_CHILD_SLICE`, `ZX_VMO_CHILD_REFERENCE`).

ghost use Rattle.std.specs.Prelude.{◌≡◌, ◌≢◌, ◌+◌, ◌*◌, ◌/◌, ◌%◌, ◌<◌, ◌≤◌, ◌^◌, ◌⊎◌, ◌==◌, ◌&&◌, ◌||◌, not, Bool, None, Some, IsSome, IfNone, IfSome, IfOk, MatchResult};
ghost use Rattle.vm_base.specs.Pages.{rounded};
ghost use Rattle.vm_base.specs.declared.names.VmoName.{VmoName};
ghost use Rattle.vm_model.specs.declared.reply.Reply.TheVariants as Reply;
ghost use Rattle.vm_model.specs.declared.command.Command.TheVariants as Command;
ghost use Rattle.vm_model.specs.declared.command.ChildKind.TheVariants.{Slice, Reference};
ghost use Rattle.vm_model.specs.Contents.Content.{Content, IsGood};
ghost use Rattle.vm_model.specs.Naming.Names.{is_kind};
ghost use Rattle.vm_model.specs.Machine.State.{State, name_pages};
ghost use Rattle.vm_model.specs.Machine.Step.{Step, slice_of, reference_of, reply_of};
ghost use Rattle.page_store.specs.Names.{IsInside};
ghost use Rattle.vmo_table.specs.Table.{names_of, lineage_in, keepers_of, with_vmos, AreParts, IsNamed};
ghost use Rattle.vmo_ops.specs.Targets.{IsRefusalOfChild};

use crate::requests::ChildShape;
use page_store::{PageStore, size_of_name};
use vm_base::{Koid, PAGE, PageNo, Refusal, VmoName, in_page, page_of, round_up};
use vmo_table::{NameKind, Target, VmoTable};

/// Lets a name stand for a part of what `t` stands for: the bytes that are asked for, rounded up to whole pages. The new
/// name is another name of the same pages, and may not resize the VMO.
pub(crate) fn slice<P: PageStore>(
    store: &P,
    vmos: &mut VmoTable,
    name: VmoName,
    t: &Target,
    shape: ChildShape,
) -> Result<Option<Koid>, Refusal>
    requires parts { AreParts (P.content store.now) vmos.old }
    requires named { IsNamed (names_of vmos.old) t.now }
    requires closed { names_of vmos.old name.0 ≡ None }
    ensures step { (s : State) (parent : VmoName) → names_of vmos.old parent.0 ≡ Some t.now →
        Step (with_vmos s (P.content store.now) vmos.old)
        (Command.VmoChild name parent Slice shape.offset shape.size shape.resizable shape.no_write)
        (reply_of (λ _. Reply.Done) result) (with_vmos s (P.content store.now) vmos.new) }
    ensures keepers { keepers_of vmos.new ≡ keepers_of vmos.old }
    ensures koid { IfOk result (λ koid. koid ≡ None) }
{
    let pages = match ask_to_slice(store, vmos, t, shape.offset, shape.size, shape.resizable) {
        Ok(pages) => pages,
        Err(refusal) => return Err(refusal),
    };
    let Ok(()) = vmos.reserve() else {
        return Err(Refusal::HostMemory);
    };
    vmos.alias(
        name,
        slice_target(t, page_of(shape.offset), pages, shape.no_write),
    );
    Ok(None)
}

/// Finds the page count of a slice that is to be made of what `t` stands for. `InvalidArgs` if it is to be resizable, if
/// `offset` is not a multiple of the page size, or if it passes the name's end, else `NotSupported` if the VMO is resizable.
/// Nothing changes.
pub fn ask_to_slice<P: PageStore>(
    store: &P,
    vmos: &VmoTable,
    t: &Target,
    offset: u64,
    bytes: u64,
    resizable: bool,
) -> Result<PageNo, Refusal>
    requires parts { AreParts (P.content store.now) vmos.now }
    requires named { IsNamed (names_of vmos.now) t.now }
    ensures { (no_write : Bool) → let parts = λ (s : State). with_vmos s (P.content store.now) vmos.now in
        let command = λ (name parent : VmoName). Command.VmoChild name parent Slice offset bytes resizable no_write in
        MatchResult result (λ pages. IsRefusalOfChild parts t.now command None × (pages ≡ rounded bytes / PAGE)
        × (offset % PAGE ≡ 0) × (offset + rounded bytes ≤ name_pages (P.content store.now) t.now * PAGE))
        (λ refusal. IsRefusalOfChild parts t.now command (Some refusal)) }
{
    if resizable {
        return Err(Refusal::InvalidArgs);
    }
    let Some(pages) = pages_inside(store, t, offset, bytes) else {
        return Err(Refusal::InvalidArgs);
    };
    if vmos.resizable(t.koid) {
        return Err(Refusal::NotSupported);
    }
    Ok(pages)
}

// The page count of `bytes` bytes, if `offset` is a whole number of pages and the bytes end inside the name.
fn pages_inside<P: PageStore>(store: &P, t: &Target, offset: u64, bytes: u64) -> Option<PageNo>
    requires good { IsGood (P.content store.now) }
    requires inside { IsInside (P.content store.now) t.now }
    ensures some { IfSome result (λ pages. (offset % PAGE ≡ 0) × (pages ≡ rounded bytes / PAGE)
        × (offset + rounded bytes ≤ name_pages (P.content store.now) t.now * PAGE)) }
    ensures none { IfNone result ((offset % PAGE ≢ 0)
        ⊎ (name_pages (P.content store.now) t.now * PAGE < offset + rounded bytes)) }
{
    if in_page(offset) != 0 {
        return None;
    }
    let limit = size_of_name(store, t).checked_sub(offset)?;
    let whole = round_up(bytes, limit)?;
    Some(page_of(whole))
}

/// Returns what a slice of `pages` pages stands for, from the name's page `start` on.
pub fn slice_target(t: &Target, start: PageNo, pages: PageNo, no_write: bool) -> Target
    requires { t.now.first + start < 2 ^ 64 }
    ensures { result ≡ slice_of t.now start pages no_write }
{
    Target {
        koid: t.koid,
        first: t.first + start,
        limit: Some(pages),
        kind: NameKind::Slice,
        may_write: t.may_write && !no_write,
        may_resize: false,
    }
}

/// Lets a name stand for all of the VMO that `t` stands for. Offset and size are 0. The new name may resize the VMO if
/// `resizable` is given, which `t` must allow.
pub(crate) fn reference(
    vmos: &mut VmoTable,
    name: VmoName,
    t: &Target,
    shape: ChildShape,
) -> Result<Option<Koid>, Refusal>
    requires named { IsNamed (names_of vmos.old) t.now }
    requires vmo { IsSome (lineage_in vmos.old t.now.koid.0) }
    requires closed { names_of vmos.old name.0 ≡ None }
    ensures step { (c : Content) (s : State) (parent : VmoName) → names_of vmos.old parent.0 ≡ Some t.now →
        Step (with_vmos s c vmos.old) (Command.VmoChild name parent Reference shape.offset shape.size shape.resizable shape.no_write)
        (reply_of (λ _. Reply.Done) result) (with_vmos s c vmos.new) }
    ensures keepers { keepers_of vmos.new ≡ keepers_of vmos.old }
    ensures koid { IfOk result (λ koid. koid ≡ None) }
{
    match ask_to_reference(t, shape.offset, shape.size, shape.resizable, shape.no_write) {
        Ok(()) => {}
        Err(refusal) => return Err(refusal),
    }
    let Ok(()) = vmos.reserve() else {
        return Err(Refusal::HostMemory);
    };
    vmos.alias(name, reference_target(t, shape.resizable, shape.no_write));
    Ok(None)
}

/// Returns what refuses to make a reference of what `t` stands for. `InvalidArgs` if an offset or a size is given, or if it is
/// to be resizable and may not write or `t` may not resize, else `NotSupported` if `t` is a slice. Nothing changes.
pub fn ask_to_reference(
    t: &Target,
    offset: u64,
    bytes: u64,
    resizable: bool,
    no_write: bool,
) -> Result<(), Refusal>
    ensures { (parts : State → State) →
        let command = λ (name parent : VmoName). Command.VmoChild name parent Reference offset bytes resizable no_write in
        MatchResult result (λ _. IsRefusalOfChild parts t.now command None)
        (λ refusal. IsRefusalOfChild parts t.now command (Some refusal)) }
{
    if is_contradictory(offset, bytes, resizable, no_write, t.may_resize) {
        return Err(Refusal::InvalidArgs);
    }
    if is_slice(t.kind) {
        return Err(Refusal::NotSupported);
    }
    Ok(())
}

// Returns whether a reference may not have these arguments. The name of which it is made may resize the VMO or not.
fn is_contradictory(
    offset: u64,
    bytes: u64,
    resizable: bool,
    no_write: bool,
    may_resize: bool,
) -> bool
    ensures { result ≡ (not (offset == 0 && bytes == 0) || (resizable && (no_write || not may_resize))) }
{
    offset != 0 || bytes != 0 || (resizable && (no_write || !may_resize))
}

// Returns whether a name of this kind stands for a part of its VMO.
fn is_slice(kind: NameKind) -> bool
    ensures { result ≡ is_kind NameKind.Slice kind }
{
    matches!(kind, NameKind::Slice)
}

/// Returns what a reference stands for: all of the VMO of the name.
pub fn reference_target(t: &Target, resizable: bool, no_write: bool) -> Target
    ensures { result ≡ reference_of t.now resizable no_write }
{
    Target {
        koid: t.koid,
        first: 0,
        limit: None,
        kind: NameKind::Reference,
        may_write: t.may_write && !no_write,
        may_resize: resizable,
    }
}
