//! Writing bytes to a VMO (`zx_vmo_write`).

ghost use Rattle.std.specs.Prelude.{◌≡◌, ◌+◌, ◌*◌, ◌<◌, ◌≤◌, ◌⊎◌, true, length, IfOk};
ghost use Rattle.vm_model.specs.declared.reply.Reply.TheVariants as Reply;
ghost use Rattle.vm_model.specs.declared.command.Command.TheVariants as Command;
ghost use Rattle.vm_model.specs.Contents.Content.{pages_of, sole, used, IsGood};
ghost use Rattle.vm_model.specs.Contents.Owning.{need};
ghost use Rattle.vm_model.specs.Contents.Writing.{touched, pieces, WritesPiece, Writes};
ghost use Rattle.vm_model.specs.Machine.Step.{reply_of};
ghost use Rattle.page_store.specs.Names.{IsInside};
ghost use Rattle.vmo_ops.specs.Costs.{HasRows};
ghost use Rattle.vmo_ops.specs.Ranges.{AreTouched};
ghost use Rattle.vmo_ops.specs.Targets.{DoesByName};

use crate::ranges::{TouchedPages, part_in_page};
use crate::ready::ready_to_own;
use page_store::{PageStore, write_page};
use vm_base::{Koid, PAGE, PageNo, Refusal};
use vmo_table::Target;

/// Writes bytes from `offset` bytes into the name on (`zx_vmo_write`). Each page that the range touches and that is not
/// sole takes a frame. Refusals, in their order:
///
/// - `AccessDenied` if the name may not write;
/// - `OutOfRange` if the range passes the name's end;
/// - `NoMemory` if the pages that are not sole are more than the free frames;
/// - `HostMemory`, only if some of these pages is not sole.
pub fn write<P: PageStore>(
    store: &mut P,
    t: &Target,
    offset: u64,
    bytes: &[u8],
) -> Result<(), Refusal>
    requires good { IsGood (P.content store.old) }
    requires inside { IsInside (P.content store.old) t.now }
    ensures { DoesByName (λ name. Command.VmoWrite name offset bytes.now) t.now (P.content store.old)
        (reply_of (λ _. Reply.Done) result) (P.content store.new) }
{
    match write_touching(store, t, offset, bytes) {
        Ok(_) => Ok(()),
        Err(refusal) => Err(refusal),
    }
}

/// Does what `write` does, and answers the pages of the VMO that the range touches.
#[inline(always)]
pub fn write_touching<P: PageStore>(
    store: &mut P,
    t: &Target,
    offset: u64,
    bytes: &[u8],
) -> Result<TouchedPages, Refusal>
    requires good { IsGood (P.content store.old) }
    requires inside { IsInside (P.content store.old) t.now }
    ensures step { DoesByName (λ name. Command.VmoWrite name offset bytes.now) t.now (P.content store.old)
        (reply_of (λ _. Reply.Done) result) (P.content store.new) }
    ensures touched { IfOk result (λ pages. AreTouched (t.now.first * PAGE + offset) (length bytes.now) pages) }
{
    match ready_to_own(store, t, offset, bytes.len() as u64) {
        Ok(range) => {
            write_range(store, t.koid, range.at, bytes, range.pages);
            Ok(range.pages)
        }
        Err(refusal) => Err(refusal),
    }
}

// Writes bytes inside the VMO, to the pages that they touch. There is room for it. Most ranges lie in one page.
fn write_range<P: PageStore>(store: &mut P, v: Koid, offset: u64, bytes: &[u8], pages: TouchedPages)
    requires touched { AreTouched offset (length bytes.now) pages }
    requires good { IsGood (P.content store.old) }
    requires inside { offset + length bytes.now ≤ pages_of (P.content store.old) v.0 * PAGE }
    requires room { HasRows (P.content store.old) v.0 (touched offset (length bytes.now)) (P.spare store.old) }
    requires free { used (P.content store.old)
        + need (P.content store.old) v.0 (touched offset (length bytes.now))
        ≤ (P.content store.old).frames }
    ensures { Writes (P.content store.old) (pieces v.0 offset bytes.now) (P.content store.new) }
{
    let TouchedPages { first, end } = pages;
    if end - first == 1 {
        write_page(store, v, first, offset % PAGE, bytes);
    } else {
        write_pages(store, v, offset, bytes, pages);
    }
}

// Writes bytes inside the VMO, page by page. There is room for it.
fn write_pages<P: PageStore>(store: &mut P, v: Koid, offset: u64, bytes: &[u8], pages: TouchedPages)
    requires touched { AreTouched offset (length bytes.now) pages }
    requires good { IsGood (P.content store.old) }
    requires inside { offset + length bytes.now ≤ pages_of (P.content store.old) v.0 * PAGE }
    requires room { HasRows (P.content store.old) v.0 (touched offset (length bytes.now)) (P.spare store.old) }
    requires free { used (P.content store.old)
        + need (P.content store.old) v.0 (touched offset (length bytes.now))
        ≤ (P.content store.old).frames }
    ensures { Writes (P.content store.old) (pieces v.0 offset bytes.now) (P.content store.new) }
{
    let len = bytes.len() as u64;
    let TouchedPages { first, end } = pages;
    for page in first..end {
        let part = part_in_page(offset, len, page);
        let until = part.from + part.len;
        write_page(
            store,
            v,
            page,
            part.at,
            &bytes[part.from as usize..until as usize],
        );
    }
}
