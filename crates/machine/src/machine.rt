//! The machine, and its answers.

ghost use Rattle.std.specs.Prelude.{◌≡◌, ◌≢◌, ◌+◌, ◌<◌, ◌≤◌, length, ⊤, MatchOption};
ghost use Rattle.vm_base.specs.declared.limits.TheConstants.{DATA_BYTES, KOIDS, PIN_PAGES};
ghost use Rattle.vm_model.specs.Machine.MachineStep.{MachineStep};
ghost use Rattle.mapping_set.specs.Tables.{places_of};
ghost use Rattle.region_tree.specs.Tree.{regions_of, AreNoted};
ghost use Rattle.machine.specs.Machine.{machine_of_parts, IsAtPlace, IsSoundMachine, LacksPlace};
ghost use Rattle.machine.specs.Groups.{group_of};
ghost use Rattle.machine.specs.declared.groups.Group.{Group};

use crate::dispatching::{on_machine, on_memory, on_tables};
use crate::groups::{Group, group_of};
use crate::tables::Tables;
use mapping_set::MappingSet;
use page_store::PageStore;
use pin_table::PinTable;
use ready_pages::{ReadyNotes, ReadyPages};
use region_tree::Regions;
use std::alloc::Global;
use std::marker::Model;
use vm_model::{Answer, Call};
use vmo_table::VmoTable;

/// The names, VMOs, pins, regions and mappings of a machine, and what keeps which pages are ready for an access. The pages
/// themselves are beside it. Each `answer` is one command.
#[derive(Drop)]
pub struct Machine<R: ReadyNotes> {
    tables: Tables,
    /// The notes of which pages are ready for an access.
    ready: R,
}

impl<R: ReadyNotes> Model for Machine<R> {
    ghost use Rattle.machine.specs.Machine.{MachineParts};

    ghost Value = { MachineParts R };

    ghost use Rattle.machine.specs.inside.Fields.{parts_of, IsCounted};

    ghost view = { λ m. parts_of m.tables m.ready };

    ghost invariant = { λ m. IsCounted m.tables };
}

impl<R: ReadyNotes> Machine<R> {
    ghost use Rattle.vm_model.specs.Contents.Content.{Content};
    ghost use Rattle.machine.specs.Machine.{bare_state, state_of};

    /// Makes a machine with no names, pins and regions, in which nothing is ready but what is noted already.
    pub fn new(alloc: Global, ready: R) -> Machine<R>
        ensures bare { (c : Content) → state_of c result ≡ bare_state c }
        ensures ready { result.ready ≡ ready }
    {
        Machine {
            tables: Tables {
                alloc,
                vmos: VmoTable::new(alloc),
                pins: PinTable::new(alloc),
                regions: Regions::new(alloc),
                maps: MappingSet::new(alloc),
            },
            ready,
        }
    }

    /// Returns the names and the VMOs.
    pub fn vmos(&self) -> &VmoTable
        ensures { result.now ≡ self.now.vmos }
    {
        &self.tables.vmos
    }

    /// Returns the pins.
    pub fn pins(&self) -> &PinTable
        ensures { result.now ≡ self.now.pins }
    {
        &self.tables.pins
    }

    /// Returns the regions.
    pub fn regions(&self) -> &Regions
        ensures { result.now ≡ self.now.regions }
    {
        &self.tables.regions
    }

    /// Returns what each page of each address space shows. A clause says too that the live children of each region are noted
    /// there.
    pub fn maps(&self) -> &MappingSet
        ensures maps { result.now ≡ self.now.maps }
        ensures noted { AreNoted (regions_of self.now.regions) (places_of self.now.maps) }
    {
        &self.tables.maps
    }

    /// Returns what keeps which pages are ready for an access.
    pub fn ready(&self) -> &R
        ensures { result.now ≡ self.now.ready }
    {
        &self.ready
    }

    /// Does one command as a whole. A command that is refused, also for want of the host's memory, changes nothing. The pages
    /// are those of the names. The answer borrows the bytes that were read from `bytes`, which has room for `DATA_BYTES`
    /// bytes, and the frames of pinned pages from `numbers`, which has room for `PIN_PAGES` of them.
    #[inline(never)]
    pub fn answer<'a, P: PageStore>(
        &mut self,
        pages: &mut P,
        call: &Call<'_>,
        bytes: &'a mut [u8],
        numbers: &'a mut [u64],
    ) -> Answer<'a>
    where
        R: ReadyPages<P>,
        requires sound { IsSoundMachine R.ready R.AreTrue (P.content pages.old) self.old }
        requires next { (P.content pages.old).next < KOIDS }
        requires bytes { DATA_BYTES ≤ length bytes.old }
        requires numbers { PIN_PAGES ≤ length numbers.old }
        ensures step { MachineStep (machine_of_parts R.ready (P.content pages.old) self.old) call.now result
            (machine_of_parts R.ready (P.content pages.new) self.new) }
        ensures sound { IsSoundMachine R.ready R.AreTrue (P.content pages.new) self.new }
        ensures next { (P.content pages.new).next ≤ (P.content pages.old).next + 1 }
        ensures frames { (P.content pages.new).frames ≡ (P.content pages.old).frames }
    {
        match self.answer_told(pages, call, None, bytes, numbers) {
            Some(answer) => answer,
            None => unreachable!(),
        }
    }

    /// Does one command as `answer` does. If an address is told, a region or a mapping for which the command leaves the place
    /// open is put there. `None`, with nothing changed, if nothing refuses the command, but it can't be there.
    #[inline(always)]
    pub fn answer_told<'a, P: PageStore>(
        &mut self,
        pages: &mut P,
        call: &Call<'_>,
        told: Option<u64>,
        bytes: &'a mut [u8],
        numbers: &'a mut [u64],
    ) -> Option<Answer<'a>>
    where
        R: ReadyPages<P>,
        requires sound { IsSoundMachine R.ready R.AreTrue (P.content pages.old) self.old }
        requires next { (P.content pages.old).next < KOIDS }
        requires bytes { DATA_BYTES ≤ length bytes.old }
        requires numbers { PIN_PAGES ≤ length numbers.old }
        ensures step { MatchOption result
            (LacksPlace (machine_of_parts R.ready (P.content pages.old) self.old) call.now told
            (machine_of_parts R.ready (P.content pages.new) self.new))
            (λ answer. MachineStep (machine_of_parts R.ready (P.content pages.old) self.old) call.now answer
            (machine_of_parts R.ready (P.content pages.new) self.new)) }
        ensures place { MatchOption result ⊤ (λ answer. IsAtPlace call.now told answer) }
        ensures sound { IsSoundMachine R.ready R.AreTrue (P.content pages.new) self.new }
        ensures next { (P.content pages.new).next ≤ (P.content pages.old).next + 1 }
        ensures frames { (P.content pages.new).frames ≡ (P.content pages.old).frames }
    {
        match group_of(call) {
            Group::Memory => Some(on_memory(pages, &self.tables, &mut self.ready, call, bytes)),
            Group::Machine => Some(on_machine(pages, call)),
            _ => self.perform(pages, call, told, bytes, numbers),
        }
    }

    // Does a command that is no access and no question about the whole machine, and takes back what it made untrue of what is
    // ready.
    #[inline(always)]
    fn perform<'a, P: PageStore>(
        &mut self,
        pages: &mut P,
        call: &Call<'_>,
        told: Option<u64>,
        bytes: &'a mut [u8],
        numbers: &'a mut [u64],
    ) -> Option<Answer<'a>>
    where
        R: ReadyPages<P>,
        requires memory { group_of call.now ≢ Group.Memory }
        requires machine { group_of call.now ≢ Group.Machine }
        requires sound { IsSoundMachine R.ready R.AreTrue (P.content pages.old) self.old }
        requires next { (P.content pages.old).next < KOIDS }
        requires bytes { DATA_BYTES ≤ length bytes.old }
        requires numbers { PIN_PAGES ≤ length numbers.old }
        ensures step { MatchOption result
            (LacksPlace (machine_of_parts R.ready (P.content pages.old) self.old) call.now told
            (machine_of_parts R.ready (P.content pages.new) self.new))
            (λ answer. MachineStep (machine_of_parts R.ready (P.content pages.old) self.old) call.now answer
            (machine_of_parts R.ready (P.content pages.new) self.new)) }
        ensures place { MatchOption result ⊤ (λ answer. IsAtPlace call.now told answer) }
        ensures sound { IsSoundMachine R.ready R.AreTrue (P.content pages.new) self.new }
        ensures next { (P.content pages.new).next ≤ (P.content pages.old).next + 1 }
        ensures frames { (P.content pages.new).frames ≡ (P.content pages.old).frames }
    {
        match on_tables(pages, &mut self.tables, call, told, bytes, numbers) {
            Some((answer, change)) => {
                self.ready.apply(pages, &self.tables.pins, change);
                Some(answer)
            }
            None => None,
        }
    }
}
