//! Reading bytes of a VMO (`zx_vmo_read`).

ghost use Rattle.std.specs.Prelude.{◌≡◌, ◌+◌, ◌*◌, ◌<◌, ◌≤◌, None, Some, MatchResult, length};
ghost use Rattle.vm_base.specs.declared.limits.TheConstants.{DATA_BYTES};
ghost use Rattle.vm_base.specs.declared.names.VmoName.{VmoName};
ghost use Rattle.vm_model.specs.declared.reply.Reply.TheVariants as Reply;
ghost use Rattle.vm_model.specs.declared.command.Command.TheVariants as Command;
ghost use Rattle.vm_model.specs.Contents.Content.{pages_of, IsGood};
ghost use Rattle.vm_model.specs.Contents.Writing.{bytes_in};
ghost use Rattle.vm_model.specs.Machine.Step.{reply_of};
ghost use Rattle.page_store.specs.Names.{IsInside};
ghost use Rattle.vmo_ops.specs.Targets.{with_content, DoesByName, IsPlaced, IsRefusalIn};

use crate::ranges::{part_in_page, place_in_vmo, touched_pages};
use page_store::{PageStore, read_page};
use vm_base::{DATA_BYTES, Koid, PAGE, PageNo, Refusal};
use vm_model::{Bytes4k, LentBytes};
use vmo_table::Target;

/// Reads `len` bytes from `offset` bytes into the name on (`zx_vmo_read`). The call never wants memory. Refusals, in
/// their order:
///
/// - `InvalidArgs` if `len` is over `DATA_BYTES`;
/// - `OutOfRange` if the range passes the name's end.
pub fn read<P: PageStore>(store: &P, t: &Target, offset: u64, len: u64) -> Result<Bytes4k, Refusal>
    requires good { IsGood (P.content store.now) }
    requires inside { IsInside (P.content store.now) t.now }
    ensures { DoesByName (λ name. Command.VmoRead name offset len) t.now (P.content store.now)
        (reply_of (λ bytes. Reply.Bytes bytes) result) (P.content store.now) }
{
    let mut room = [0; DATA_BYTES];
    match read_into(store, t, offset, len, &mut room) {
        Ok(bytes) => Ok(bytes.to_bytes()),
        Err(refusal) => Err(refusal),
    }
}

/// Reads as `read` does, into `room`, which has at least `DATA_BYTES` bytes, and lends the bytes that were read from
/// there.
pub fn read_into<'a, P: PageStore>(
    store: &P,
    t: &Target,
    offset: u64,
    len: u64,
    room: &'a mut [u8],
) -> Result<LentBytes<'a>, Refusal>
    requires good { IsGood (P.content store.now) }
    requires inside { IsInside (P.content store.now) t.now }
    requires room { DATA_BYTES ≤ length room.old }
    ensures { DoesByName (λ name. Command.VmoRead name offset len) t.now (P.content store.now)
        (reply_of (λ bytes. Reply.Bytes bytes) result) (P.content store.now) }
{
    let at = match ask_to_read(store, t, offset, len) {
        Ok(at) => at,
        Err(refusal) => return Err(refusal),
    };
    let out = &mut room[..len as usize];
    read_range(store, t.koid, at, out);
    Ok(LentBytes::new(out))
}

/// Finds the place in the VMO, in bytes, of a range that is to be read. Refusals as for `read`. Nothing changes.
pub fn ask_to_read<P: PageStore>(
    store: &P,
    t: &Target,
    offset: u64,
    len: u64,
) -> Result<u64, Refusal>
    requires good { IsGood (P.content store.now) }
    requires inside { IsInside (P.content store.now) t.now }
    ensures { let parts = with_content (P.content store.now) in
        let command = λ (name : VmoName). Command.VmoRead name offset len in
        MatchResult result (λ at. IsRefusalIn parts t.now command None × (len ≤ DATA_BYTES)
        × IsPlaced (P.content store.now) t.now offset len at)
        (λ refusal. IsRefusalIn parts t.now command (Some refusal)) }
{
    if len > DATA_BYTES as u64 {
        return Err(Refusal::InvalidArgs);
    }
    match place_in_vmo(store, t, offset, len) {
        Some(at) => Ok(at),
        None => Err(Refusal::OutOfRange),
    }
}

/// Reads the bytes of a range inside a VMO, `offset` bytes into it. Most ranges lie in one page.
#[tactic(auto, using(vm_model::proofs::ContentLaws::pages_of_le))]
pub fn read_range<P: PageStore>(store: &P, v: Koid, offset: u64, out: &mut [u8])
    requires good { IsGood (P.content store.now) }
    requires inside { offset + length out.old ≤ pages_of (P.content store.now) v.0 * PAGE }
    ensures { out.new ≡ bytes_in (P.content store.now) v.0 offset (length out.old) }
{
    let (first, end) = touched_pages(offset, out.len() as u64);
    if end - first == 1 {
        read_page(store, v, first, offset % PAGE, out);
    } else {
        read_pages(store, v, offset, out);
    }
}

// Reads the bytes of a range inside the VMO, page by page.
#[tactic(auto, using(crate::proofs::ReadLaws::read_laws))]
fn read_pages<P: PageStore>(store: &P, v: Koid, offset: u64, out: &mut [u8])
    requires good { IsGood (P.content store.now) }
    requires inside { offset + length out.old ≤ pages_of (P.content store.now) v.0 * PAGE }
    ensures { out.new ≡ bytes_in (P.content store.now) v.0 offset (length out.old) }
{
    let len = out.len() as u64;
    let (first, end) = touched_pages(offset, len);
    for page in first..end {
        let part = part_in_page(offset, len, page);
        let until = part.from + part.len;
        read_page(
            store,
            v,
            page,
            part.at,
            &mut out[part.from as usize..until as usize],
        );
    }
}
