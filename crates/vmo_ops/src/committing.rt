//! Committing pages (`ZX_VMO_OP_COMMIT`).

ghost use Rattle.std.specs.Prelude.{◌+◌, ◌*◌, ◌≤◌, IfOk};
ghost use Rattle.vm_model.specs.declared.reply.Reply.TheVariants as Reply;
ghost use Rattle.vm_model.specs.declared.command.Command.TheVariants as Command;
ghost use Rattle.vm_model.specs.Contents.Content.{pages_of, used, IsGood};
ghost use Rattle.vm_model.specs.Contents.Owning.{need, OwnsAll};
ghost use Rattle.vm_model.specs.Machine.Step.{reply_of};
ghost use Rattle.page_store.specs.Names.{IsInside};
ghost use Rattle.vmo_ops.specs.Costs.{HasRows};
ghost use Rattle.vmo_ops.specs.Ranges.{touched_row, AreTouched};
ghost use Rattle.vmo_ops.specs.Targets.{DoesByName};

use crate::ranges::TouchedPages;
use crate::ready::ready_to_own;
use page_store::PageStore;
use vm_base::{Koid, PAGE, Refusal};
use vmo_table::Target;

/// Gives each page that a range touches a frame of its own, with the bytes that the page shows (`ZX_VMO_OP_COMMIT`).
/// The range is `len` bytes from `offset` bytes into the name on. Refusals, in their order:
///
/// - `AccessDenied` if the name may not write;
/// - `OutOfRange` if the range passes the name's end;
/// - `NoMemory` if the pages that are not sole are more than the free frames;
/// - `HostMemory`, only if some of these pages is not sole.
pub fn commit<P: PageStore>(store: &mut P, t: &Target, offset: u64, len: u64) -> Result<(), Refusal>
    requires good { IsGood (P.content store.old) }
    requires inside { IsInside (P.content store.old) t.now }
    ensures { DoesByName (λ name. Command.VmoCommit name offset len) t.now (P.content store.old)
        (reply_of (λ _. Reply.Done) result) (P.content store.new) }
{
    match commit_touching(store, t, offset, len) {
        Ok(_) => Ok(()),
        Err(refusal) => Err(refusal),
    }
}

/// Does what `commit` does, and answers the pages of the VMO that the range touches.
#[inline(always)]
pub fn commit_touching<P: PageStore>(
    store: &mut P,
    t: &Target,
    offset: u64,
    len: u64,
) -> Result<TouchedPages, Refusal>
    requires good { IsGood (P.content store.old) }
    requires inside { IsInside (P.content store.old) t.now }
    ensures step { DoesByName (λ name. Command.VmoCommit name offset len) t.now (P.content store.old)
        (reply_of (λ _. Reply.Done) result) (P.content store.new) }
    ensures touched { IfOk result (λ pages. AreTouched (t.now.first * PAGE + offset) len pages) }
{
    let range = match ready_to_own(store, t, offset, len) {
        Ok(range) => range,
        Err(refusal) => return Err(refusal),
    };
    own_pages(store, t.koid, range.pages);
    Ok(range.pages)
}

// Owns pages of a VMO. There is room for it.
fn own_pages<P: PageStore>(store: &mut P, v: Koid, pages: TouchedPages)
    requires good { IsGood (P.content store.old) }
    requires order { pages.first ≤ pages.end }
    requires inside { pages.end ≤ pages_of (P.content store.old) v.0 }
    requires room { HasRows (P.content store.old) v.0 (touched_row pages) (P.spare store.old) }
    requires free { used (P.content store.old) + need (P.content store.old) v.0 (touched_row pages)
        ≤ (P.content store.old).frames }
    ensures { OwnsAll (P.content store.old) v.0 (touched_row pages) (P.content store.new) }
{
    let TouchedPages { first, end } = pages;
    for page in first..end {
        store.own(v, page);
    }
}
