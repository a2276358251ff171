//! The machine of page sources, and its step.

ghost use Rattle.std.specs.Prelude.{◌≡◌, ◌+◌, ◌<◌, ◌≤◌, ℕ, [], ◌∷◌, map, length, None};
ghost use Rattle.vm_base.specs.declared.limits.TheConstants.{DATA_BYTES, KOIDS};
ghost use Rattle.source_model.specs.Commands.{SourceStep};
ghost use Rattle.source_vm.specs.Table.{SourcesAgree, IsIndexed, source_state_of};

use crate::accesses::{evict, read, supply, write};
use crate::closing::close;
use crate::lifetimes::{child, create, loose};
use crate::source_fn::SourceFn;
use crate::table::{SourceTable, new_table};
use attribution::stat;
use page_store::PageStore;
use source_model::{SourceCall, SourceCommand};
use std::alloc::Global;
use vm_base::DATA_BYTES;
use vm_model::{Answer, Reply};
use vmo_ops::NameRange;

/// The names and VMOs of the machine of page sources, over a store of pages, and the functions that give the bytes of its sources:
/// function i those of kind i. Each `step` is one command.
#[derive(Drop)]
pub struct SourceVm {
    pub(crate) table: SourceTable,
    functions: [SourceFn; 3],
    ghost kinds: { map (λ f. f.kind) functions ≡ 0 ∷ 1 ∷ 2 ∷ [] },
}

impl SourceVm {
    ghost use Rattle.vm_model.specs.Contents.Content.{Content, IsGood};
    ghost use Rattle.source_model.specs.State.{empty_sources};

    /// Makes a machine with no names and no VMOs. It agrees with every good content that has no VMO, whatever its next koid is.
    pub fn new(alloc: Global, functions: [SourceFn; 3]) -> SourceVm
        requires kinds { map (λ f. f.kind) functions ≡ 0 ∷ 1 ∷ 2 ∷ [] }
        ensures empty { (c : Content) → IsGood c → ((v : ℕ) → c.count v ≡ None) →
            source_state_of c result.table ≡ record (empty_sources c.frames) { content = c } }
        ensures agrees { (c : Content) → IsGood c → ((v : ℕ) → c.count v ≡ None) → SourcesAgree c result.table }
    {
        SourceVm {
            table: new_table(alloc),
            functions,
        }
    }

    /// Does one command as a whole. A command that is refused, also because the host has too little memory, changes nothing. The
    /// store is the one that holds the VMOs of the names. At most one koid is given.
    pub fn step<P: PageStore>(&mut self, store: &mut P, command: &SourceCommand) -> Reply
        requires agrees { SourcesAgree (P.content store.old) self.old.table }
        requires next { (P.content store.old).next < KOIDS }
        ensures step { SourceStep (source_state_of (P.content store.old) self.old.table) command.now result
            (source_state_of (P.content store.new) self.new.table) }
        ensures agrees { SourcesAgree (P.content store.new) self.new.table }
        ensures next { (P.content store.new).next ≤ (P.content store.old).next + 1 }
    {
        let mut bytes = [0; DATA_BYTES];
        self.answer(store, &command.lend(), &mut bytes).into_owned()
    }

    /// Does what `step` does, for a command whose bytes are lent. The answer borrows the bytes that were read from `bytes`, which has
    /// at least `DATA_BYTES` bytes.
    pub fn answer<'a, P: PageStore>(
        &mut self,
        store: &mut P,
        call: &SourceCall<'_>,
        bytes: &'a mut [u8],
    ) -> Answer<'a>
        requires agrees { SourcesAgree (P.content store.old) self.old.table }
        requires next { (P.content store.old).next < KOIDS }
        requires bytes { DATA_BYTES ≤ length bytes.old }
        ensures step { SourceStep (source_state_of (P.content store.old) self.old.table) call.now
            result (source_state_of (P.content store.new) self.new.table) }
        ensures agrees { SourcesAgree (P.content store.new) self.new.table }
        ensures next { (P.content store.new).next ≤ (P.content store.old).next + 1 }
    {
        dispatch(store, &mut self.table, &self.functions, call, bytes)
    }
}

/// Does a command, by the function that is for it.
fn dispatch<'a, P: PageStore>(
    store: &mut P,
    table: &mut SourceTable,
    functions: &[SourceFn; 3],
    call: &SourceCall<'_>,
    bytes: &'a mut [u8],
) -> Answer<'a>
    requires kinds { map (λ f. f.kind) functions.now ≡ 0 ∷ 1 ∷ 2 ∷ [] }
    requires agrees { SourcesAgree (P.content store.old) table.old }
    requires next { (P.content store.old).next < KOIDS }
    requires bytes { DATA_BYTES ≤ length bytes.old }
    ensures step { SourceStep (source_state_of (P.content store.old) table.old) call.now
        result (source_state_of (P.content store.new) table.new) }
    ensures indexed { IsIndexed table.new }
{
    match call {
        SourceCall::Create {
            name,
            size,
            kind,
            seed,
        } => create(store, table, *name, *size, *kind, *seed),
        SourceCall::Child {
            name,
            parent,
            offset,
            size,
        } => child(store, table, *name, *parent, *offset, *size),
        SourceCall::Loose {
            name,
            parent,
            offset,
            size,
        } => loose(store, table, *name, *parent, *offset, *size),
        SourceCall::Close { name } => close(store, table, *name),
        SourceCall::Read { name, offset, len } => {
            let range = NameRange::new(*name, *offset, *len);
            read(store, table, functions, range, bytes)
        }
        SourceCall::Write {
            name,
            offset,
            bytes,
        } => write(store, table, functions, *name, *offset, bytes.as_slice()),
        SourceCall::Supply { name, offset, len } => {
            let range = NameRange::new(*name, *offset, *len);
            supply(store, table, functions, range)
        }
        SourceCall::Evict { name, offset, len } => {
            let range = NameRange::new(*name, *offset, *len);
            evict(store, table, functions, range)
        }
        SourceCall::Stat => Answer::Stat(stat(store)),
    }
}
