//! The commands that change the pages of a VMO or its size: `vmo_write`, `vmo_fill`, `vmo_commit`, `vmo_zero`,
//! `vmo_decommit`, `vmo_set_size`. Each is refused by `BadHandle` if the VMO's name is not open, and is otherwise the
//! operation of its name. The pages that it touched are answered as those whose frames may have changed.

ghost use Rattle.std.specs.Prelude.{◌≡◌, MatchResult};
ghost use Rattle.vm_model.specs.declared.reply.Reply.TheVariants as Reply;
ghost use Rattle.vm_model.specs.declared.command.Command.TheVariants as Command;
ghost use Rattle.vm_model.specs.Machine.Step.{reply_of};
ghost use Rattle.machine.specs.inside.Steps.{Handles, IsSoundState};
ghost use Rattle.ready_pages.specs.declared.change.Change.{Change};

use crate::tables::Tables;
use page_store::PageStore;
use ready_pages::Change;
use vm_base::{Koid, Refusal, VmoName, page_count};
use vm_model::Answer;
use vmo_ops::{NameRange, TouchedPages};

/// Writes bytes from `offset` bytes into the name on.
pub(crate) fn vmo_write<P: PageStore>(
    pages: &mut P,
    tables: &Tables,
    name: VmoName,
    offset: u64,
    bytes: &[u8],
) -> (Answer<'static>, Change)
    requires { IsSoundState (P.content pages.old) tables.now }
    ensures { Handles (P.content pages.old) tables.now (Command.VmoWrite name offset bytes.now)
        result.0 result.1 (P.content pages.new) tables.now }
{
    match tables.vmos.resolve(name) {
        Some(target) => {
            let outcome = vmo_ops::write_touching(pages, &target, offset, bytes);
            changed(target.koid, outcome)
        }
        None => (Answer::Refused(Refusal::BadHandle), Change::None),
    }
}

/// Writes one byte at every place of a range.
pub(crate) fn vmo_fill<P: PageStore>(
    pages: &mut P,
    tables: &Tables,
    range: NameRange,
    byte: u8,
) -> (Answer<'static>, Change)
    requires { IsSoundState (P.content pages.old) tables.now }
    ensures { Handles (P.content pages.old) tables.now (Command.VmoFill range.name range.offset range.len byte)
        result.0 result.1 (P.content pages.new) tables.now }
{
    match tables.vmos.resolve(range.name) {
        Some(target) => {
            let outcome = vmo_ops::fill_touching(pages, &target, range.offset, range.len, byte);
            changed(target.koid, outcome)
        }
        None => (Answer::Refused(Refusal::BadHandle), Change::None),
    }
}

/// Gives each page that a range touches a frame of its own.
pub(crate) fn vmo_commit<P: PageStore>(
    pages: &mut P,
    tables: &Tables,
    range: NameRange,
) -> (Answer<'static>, Change)
    requires { IsSoundState (P.content pages.old) tables.now }
    ensures { Handles (P.content pages.old) tables.now (Command.VmoCommit range.name range.offset range.len)
        result.0 result.1 (P.content pages.new) tables.now }
{
    match tables.vmos.resolve(range.name) {
        Some(target) => {
            let outcome = vmo_ops::commit_touching(pages, &target, range.offset, range.len);
            changed(target.koid, outcome)
        }
        None => (Answer::Refused(Refusal::BadHandle), Change::None),
    }
}

/// Makes the bytes of a range zero.
pub(crate) fn vmo_zero<P: PageStore>(
    pages: &mut P,
    tables: &Tables,
    range: NameRange,
) -> (Answer<'static>, Change)
    requires { IsSoundState (P.content pages.old) tables.now }
    ensures { Handles (P.content pages.old) tables.now (Command.VmoZero range.name range.offset range.len)
        result.0 result.1 (P.content pages.new) tables.now }
{
    match tables.vmos.resolve(range.name) {
        Some(target) => {
            let outcome = vmo_ops::zero_touching(
                pages,
                &tables.pins,
                &target,
                range.offset,
                range.len,
            );
            changed(target.koid, outcome)
        }
        None => (Answer::Refused(Refusal::BadHandle), Change::None),
    }
}

/// Makes the pages of a range zero and gives their frames back.
pub(crate) fn vmo_decommit<P: PageStore>(
    pages: &mut P,
    tables: &Tables,
    range: NameRange,
) -> (Answer<'static>, Change)
    requires { IsSoundState (P.content pages.old) tables.now }
    ensures { Handles (P.content pages.old) tables.now (Command.VmoDecommit range.name range.offset range.len)
        result.0 result.1 (P.content pages.new) tables.now }
{
    match tables.vmos.resolve(range.name) {
        Some(target) => {
            let outcome = vmo_ops::decommit_touching(
                pages,
                &tables.vmos,
                &tables.pins,
                &target,
                range.offset,
                range.len,
            );
            changed(target.koid, outcome)
        }
        None => (Answer::Refused(Refusal::BadHandle), Change::None),
    }
}

/// Changes the size of the VMO.
pub(crate) fn vmo_set_size<P: PageStore>(
    pages: &mut P,
    tables: &Tables,
    name: VmoName,
    size: u64,
) -> (Answer<'static>, Change)
    requires { IsSoundState (P.content pages.old) tables.now }
    ensures { Handles (P.content pages.old) tables.now (Command.VmoSetSize name size)
        result.0 result.1 (P.content pages.new) tables.now }
{
    let Some(target) = tables.vmos.resolve(name) else {
        return (Answer::Refused(Refusal::BadHandle), Change::None);
    };
    match vmo_ops::resize(pages, &tables.pins, &target, size) {
        Ok(()) => {
            let change = Change::Past {
                koid: target.koid,
                first: page_count(size),
            };
            (Answer::Done, change)
        }
        Err(refusal) => (Answer::Refused(refusal), Change::None),
    }
}

// The answer to a command that changed pages of a VMO, or the refusal, and what the command may have changed.
fn changed(koid: Koid, outcome: Result<TouchedPages, Refusal>) -> (Answer<'static>, Change)
    ensures reply { result.0 ≡ reply_of (λ _. Reply.Done) outcome }
    ensures change { MatchResult outcome (λ touched. result.1 ≡ Change.Frames koid touched.first touched.end)
        (λ _. result.1 ≡ Change.None) }
{
    match outcome {
        Ok(touched) => (Answer::Done, frames_changed(koid, touched)),
        Err(refusal) => (Answer::Refused(refusal), Change::None),
    }
}

/// Returns what a command may have changed that touched these pages of a VMO: their frames.
pub(crate) fn frames_changed(koid: Koid, touched: TouchedPages) -> Change
    ensures { result ≡ Change.Frames koid touched.first touched.end }
{
    Change::Frames {
        koid,
        first: touched.first,
        end: touched.end,
    }
}
