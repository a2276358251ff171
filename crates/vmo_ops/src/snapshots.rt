//! Making a snapshot of a VMO (`ZX_VMO_CHILD_SNAPSHOT`).

ghost use Rattle.std.specs.Prelude.{◌≡◌, ◌+◌, ◌%◌, ◌<◌, ◌≤◌, ◌==◌, ◌&&◌, ◌||◌, ◌⊎◌, not, length, None, Some, IsSome, IfOk, OnOk, OnErr, MatchResult};
ghost use Rattle.vm_base.specs.declared.names.VmoName.{VmoName};
ghost use Rattle.vm_base.specs.declared.limits.TheConstants.{KOIDS};
ghost use Rattle.vm_model.specs.declared.reply.Reply.TheVariants as Reply;
ghost use Rattle.vm_model.specs.declared.command.Command.TheVariants as Command;
ghost use Rattle.vm_model.specs.declared.command.ChildKind.TheVariants.{Snapshot};
ghost use Rattle.vm_model.specs.Contents.Content.{pages_of, used, IsGood};
ghost use Rattle.vm_model.specs.Contents.Owning.{OwnsAll};
ghost use Rattle.vm_model.specs.Contents.Sharing.{snapshotted};
ghost use Rattle.vm_model.specs.Naming.Pins.{is_pinned};
ghost use Rattle.vm_model.specs.Machine.State.{State};
ghost use Rattle.vm_model.specs.Machine.Step.{Step, seen_pages, reply_of};
ghost use Rattle.page_store.specs.Names.{IsInside};
ghost use Rattle.vmo_table.specs.Table.{names_of, keepers_of, IsNamed};
ghost use Rattle.pin_table.specs.Table.{pins_of};
ghost use Rattle.vmo_ops.specs.inside.Copies.{copies_of, IsSeenPart};
ghost use Rattle.vmo_ops.specs.Targets.{AreTogether, with_pins, with_tables, koid_given, IsRefusalOfChild};

use crate::copies::{count_copies, own_copies};
use crate::requests::ChildShape;
use crate::sizes::pages_within;
use page_store::{PageStore, pages_of_name};
use pin_table::PinTable;
use vm_base::{HostMemory, Koid, PAGE, PageNo, Refusal, VMO_PAGES, VmoName, in_page, page_of};
use vmo_table::{Origin, Target, VmoTable};

/// Makes a VMO that shows the pages of a part of what `t` stands for as they are now
/// (`ZX_VMO_CHILD_SNAPSHOT`). A page is copied when one of the two VMOs is written to. A pinned page is copied at once,
/// so that it keeps its frame for itself. Pages past the end of the name are zero.
pub(crate) fn snapshot<P: PageStore>(
    store: &mut P,
    vmos: &mut VmoTable,
    pins: &PinTable,
    name: VmoName,
    t: &Target,
    shape: ChildShape,
) -> Result<Option<Koid>, Refusal>
    requires parts { AreTogether (P.content store.old) vmos.old pins.now }
    requires named { IsNamed (names_of vmos.old) t.now }
    requires closed { names_of vmos.old name.0 ≡ None }
    requires next { (P.content store.old).next < KOIDS }
    ensures step { (s : State) (parent : VmoName) → names_of vmos.old parent.0 ≡ Some t.now →
        Step (with_tables s (P.content store.old) vmos.old pins.now)
        (Command.VmoChild name parent Snapshot shape.offset shape.size shape.resizable shape.no_write)
        (reply_of (λ _. Reply.Done) result) (with_tables s (P.content store.new) vmos.new pins.now) }
    ensures keepers { keepers_of vmos.new ≡ keepers_of vmos.old }
    ensures koid { IfOk result (λ koid. koid ≡ koid_given Snapshot (P.content store.old).next) }
{
    let part = match ask_to_snapshot(
        store,
        pins,
        t,
        shape.offset,
        shape.size,
        shape.resizable,
        shape.no_write,
    ) {
        Ok(part) => part,
        Err(refusal) => return Err(refusal),
    };
    // All memory is taken before anything is changed, so that nothing is left to undo.
    let Ok(()) = vmos.reserve() else {
        return Err(Refusal::HostMemory);
    };
    let Ok(koid) = snapshot_owned(store, pins, t.koid, part) else {
        return Err(Refusal::HostMemory);
    };
    vmos.enter(
        name,
        koid,
        shape.resizable,
        Origin::Snapshot,
        Some(t.koid),
        !shape.no_write,
    );
    Ok(Some(koid))
}

/// The part of a VMO that a snapshot sees: `seen` pages from the VMO's page `first` on, of which `copied` are pinned. The
/// snapshot has `pages` pages.
#[derive(Clone, Copy)]
pub struct SeenPart {
    pub first: PageNo,
    pub seen: PageNo,
    pub pages: PageNo,
    pub copied: u64,
}

/// Finds what a snapshot that is to be made of what `t` stands for will see. Refusals, in their order:
///
/// - `InvalidArgs` if `offset` is not a multiple of the page size, or if `resizable` and `no_write` are both given;
/// - `OutOfRange` if `offset` and the rounded size are over 2^48 bytes together;
/// - `NoMemory` if the pinned pages that it copies are more than the free frames.
///
/// Nothing changes.
pub fn ask_to_snapshot<P: PageStore>(
    store: &P,
    pins: &PinTable,
    t: &Target,
    offset: u64,
    size: u64,
    resizable: bool,
    no_write: bool,
) -> Result<SeenPart, Refusal>
    requires good { IsGood (P.content store.now) }
    requires inside { IsInside (P.content store.now) t.now }
    ensures ok { IfOk result (λ part. IsSeenPart (P.content store.now) (is_pinned (pins_of pins.now) t.now.koid.0) t.now
        offset size resizable no_write part) }
    ensures refusal { let parts = with_pins (P.content store.now) (pins_of pins.now) in
        let command = λ (name parent : VmoName). Command.VmoChild name parent Snapshot offset size resizable no_write in
        MatchResult result (λ part. IsRefusalOfChild parts t.now command None)
        (λ refusal. IsRefusalOfChild parts t.now command (Some refusal)) }
{
    if is_misasked(offset, resizable, no_write) {
        return Err(Refusal::InvalidArgs);
    }
    let Some(pages) = pages_within(offset, size) else {
        return Err(Refusal::OutOfRange);
    };
    let (first, seen) = seen_part(store, t, page_of(offset), pages);
    let copied = count_copies(pins, t.koid, first, seen);
    if copied > u64::from(store.free()) {
        return Err(Refusal::NoMemory);
    }
    Ok(SeenPart {
        first,
        seen,
        pages,
        copied,
    })
}

// Whether a snapshot may not have these arguments.
fn is_misasked(offset: u64, resizable: bool, no_write: bool) -> bool
    ensures { result ≡ (not (offset % PAGE == 0) || (resizable && no_write)) }
{
    in_page(offset) != 0 || (resizable && no_write)
}

// Makes a snapshot that owns its copies of pinned pages, and answers its koid. `part` is what it sees of `of`. `HostMemory`,
// with nothing changed, if the host has too little memory.
fn snapshot_owned<P: PageStore>(
    store: &mut P,
    pins: &PinTable,
    of: Koid,
    part: SeenPart,
) -> Result<Koid, HostMemory>
    requires good { IsGood (P.content store.old) }
    requires vmo { IsSome ((P.content store.old).count of.0) }
    requires count { (part.seen ≤ part.pages) × (part.pages ≤ VMO_PAGES) }
    requires range { part.first + part.seen ≤ pages_of (P.content store.old) of.0 }
    requires next { (P.content store.old).next < KOIDS }
    requires copied { part.copied ≡ length (copies_of (is_pinned (pins_of pins.now) of.0) part.first part.seen 0) }
    requires free { used (P.content store.old) + part.copied ≤ (P.content store.old).frames }
    ensures koid { IfOk result (λ koid. koid.0 ≡ (P.content store.old).next) }
    ensures ok { OnOk result (OwnsAll (snapshotted (P.content store.old) of.0 part.first part.seen part.pages)
        (P.content store.old).next (copies_of (is_pinned (pins_of pins.now) of.0) part.first part.seen 0)
        (P.content store.new)) }
    ensures err { OnErr result (P.content store.new ≡ P.content store.old) }
{
    let Ok(()) = store.reserve(part.copied) else {
        return Err(HostMemory);
    };
    let Ok(koid) = store.snapshot(of, part.first, part.seen, part.pages) else {
        return Err(HostMemory);
    };
    own_copies(store, pins, koid, of, part.first, part.seen);
    Ok(koid)
}

// Returns the pages that a snapshot sees of a name: the first one, counted in the VMO, and how many there are. They are
// at most `pages`, from the name's page `start` on. If the snapshot sees none, the first is 0.
fn seen_part<P: PageStore>(store: &P, t: &Target, start: PageNo, pages: PageNo) -> (PageNo, PageNo)
    requires good { IsGood (P.content store.now) }
    requires inside { IsInside (P.content store.now) t.now }
    ensures seen { result.1 ≡ seen_pages (P.content store.now) t.now start pages }
    ensures first { (result.0 ≡ t.now.first + start) ⊎ (result.1 ≡ 0) }
    ensures inside { result.0 + result.1 ≤ pages_of (P.content store.now) t.now.koid.0 }
    ensures few { result.1 ≤ pages }
{
    let have = pages_of_name(store, t);
    if have <= start {
        return (0, 0);
    }
    (t.first + start, pages.min(have - start))
}
