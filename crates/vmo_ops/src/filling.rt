//! Filling a range with one byte.

ghost use Rattle.std.specs.Prelude.{◌≡◌, ℕ, ◌+◌, ◌*◌, ◌<◌, ◌≤◌, ◌⊎◌, true, min, length, replicate, IfOk};
ghost use Rattle.vm_model.specs.declared.reply.Reply.TheVariants as Reply;
ghost use Rattle.vm_model.specs.declared.command.Command.TheVariants as Command;
ghost use Rattle.vm_model.specs.Contents.Content.{pages_of, sole, used, IsGood};
ghost use Rattle.vm_model.specs.Contents.Owning.{need};
ghost use Rattle.vm_model.specs.Contents.Writing.{touched, pieces, WritesPiece, Writes};
ghost use Rattle.vm_model.specs.Machine.Step.{reply_of};
ghost use Rattle.page_store.specs.Names.{IsInside};
ghost use Rattle.vmo_ops.specs.Costs.{HasRows};
ghost use Rattle.vmo_ops.specs.Ranges.{AreTouched};
ghost use Rattle.vmo_ops.specs.Targets.{DoesByName};

use crate::ranges::{PagePart, TouchedPages, part_in_page};
use crate::ready::ready_to_own;
use page_store::{PageStore, write_page};
use vm_base::{Koid, PAGE, PAGE_BYTES, PageNo, Refusal};
use vmo_table::Target;

/// The most bytes of a fill that is done from a short buffer.
const SHORT_FILL: usize = 256;

/// Writes one byte at every place of a range: `len` bytes from `offset` bytes into the name on. The
/// refusals are those of a write of these bytes, in the same order.
pub fn fill<P: PageStore>(
    store: &mut P,
    t: &Target,
    offset: u64,
    len: u64,
    byte: u8,
) -> Result<(), Refusal>
    requires good { IsGood (P.content store.old) }
    requires inside { IsInside (P.content store.old) t.now }
    ensures { DoesByName (λ name. Command.VmoFill name offset len byte) t.now (P.content store.old)
        (reply_of (λ _. Reply.Done) result) (P.content store.new) }
{
    match fill_touching(store, t, offset, len, byte) {
        Ok(_) => Ok(()),
        Err(refusal) => Err(refusal),
    }
}

/// Does what `fill` does, and answers the pages of the VMO that the range touches.
#[inline(always)]
pub fn fill_touching<P: PageStore>(
    store: &mut P,
    t: &Target,
    offset: u64,
    len: u64,
    byte: u8,
) -> Result<TouchedPages, Refusal>
    requires good { IsGood (P.content store.old) }
    requires inside { IsInside (P.content store.old) t.now }
    ensures step { DoesByName (λ name. Command.VmoFill name offset len byte) t.now (P.content store.old)
        (reply_of (λ _. Reply.Done) result) (P.content store.new) }
    ensures touched { IfOk result (λ pages. AreTouched (t.now.first * PAGE + offset) len pages) }
{
    let range = match ready_to_own(store, t, offset, len) {
        Ok(range) => range,
        Err(refusal) => return Err(refusal),
    };
    if len <= SHORT_FILL as u64 {
        fill_pages::<P, SHORT_FILL>(store, t.koid, range.at, len, byte, range.pages);
    } else {
        fill_pages::<P, PAGE_BYTES>(store, t.koid, range.at, len, byte, range.pages);
    }
    Ok(range.pages)
}

// Fills a range inside the VMO, page by page, from a buffer of `N` bytes. There is room for it. The function is not
// inlined: a function writes all of its locals, and a short fill should not pay for a page.
#[inline(never)]
fn fill_pages<P: PageStore, const N: usize>(
    store: &mut P,
    v: Koid,
    offset: u64,
    len: u64,
    byte: u8,
    pages: TouchedPages,
)
    requires touched { AreTouched offset len pages }
    requires good { IsGood (P.content store.old) }
    requires inside { offset + len ≤ pages_of (P.content store.old) v.0 * PAGE }
    requires buffer { min len PAGE ≤ N }
    requires at_most_a_page { N ≤ PAGE }
    requires room { HasRows (P.content store.old) v.0 (touched offset len) (P.spare store.old) }
    requires free { used (P.content store.old) + need (P.content store.old) v.0 (touched offset len)
        ≤ (P.content store.old).frames }
    ensures { Writes (P.content store.old) (pieces v.0 offset (replicate len byte)) (P.content store.new) }
{
    let bytes = [byte; N];
    let TouchedPages { first, end } = pages;
    for page in first..end {
        let part = part_in_page(offset, len, page);
        fill_part(store, v, page, part, &bytes);
    }
}

/// Fills a part of a page from `bytes`, which are all the same and at least as many as the part has. The page is owned
/// first.
pub(crate) fn fill_part<P: PageStore>(
    store: &mut P,
    v: Koid,
    page: PageNo,
    part: PagePart,
    bytes: &[u8],
)
    requires good { IsGood (P.content store.old) }
    requires page { page < pages_of (P.content store.old) v.0 }
    requires enough { part.len ≤ length bytes.now }
    requires within { part.at + part.len ≤ PAGE }
    requires room { (sole (P.content store.old) v.0 page ≡ true)
        ⊎ ((1 ≤ P.spare store.old) × (used (P.content store.old) < (P.content store.old).frames)) }
    ensures writes { (n byte : ℕ) → bytes.now ≡ replicate n byte → WritesPiece (P.content store.old)
        (record { koid = v.0; page = page; at = part.at; bytes = replicate part.len byte }) (P.content store.new) }
    ensures spare { P.spare store.old ≤ P.spare store.new + 1 }
{
    write_page(store, v, page, part.at, &bytes[..part.len as usize]);
}
