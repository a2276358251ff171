//! The machine of a checker.

ghost use Rattle.std.specs.Prelude.{◌≡◌, ◌≢◌, ◌+◌, ◌<◌, ◌≤◌, ◌&&◌, ◌↔◌, ℕ, not, true, length, is_some, ⊤, IsTrue, None, Some, OnErr, MatchResult, MatchOption};
ghost use Rattle.std.specs.Option.{option_map};
ghost use Rattle.vm_base.specs.declared.limits.TheConstants.{DATA_BYTES, FRAMES, KOIDS, PIN_PAGES};
ghost use Rattle.vm_base.specs.declared.names.Tag.{Tag};
ghost use Rattle.vm_base.specs.declared.refusal.Refusal.{Refusal};
ghost use Rattle.vm_model.specs.declared.reply.Reply.TheVariants as Reply;
ghost use Rattle.vm_model.specs.Machine.Refusals.{refusals, first_of};
ghost use Rattle.moving_model.specs.Moving.{tells_place};

use crate::wanting::{memory_wants, pages_want, pin_wants, region_wants, vmo_wants};
use checker_ready::ReadyMap;
use machine::{Group, group_of};
use page_store::{FlatStore, PageStore};
use std::alloc::Global;
use std::marker::Model;
use vm_base::{HostMemory, PinName, Refusal, Tag};
use vm_model::{Answer, Call};

/// The names, VMOs, pins, pages, regions and mappings of a machine, and which pages are ready for an access. Each `answer` is
/// one command. Contracts see the machine that it stands for (`checker_machine_of`).
#[derive(Drop)]
pub struct CheckerMachine {
    /// The pages of the VMOs, and the page frames.
    pages: FlatStore,
    machine: machine::Machine<ReadyMap>,
}

impl Model for CheckerMachine {
    ghost use Rattle.checker_machine.specs.Machine.{CheckerParts};

    ghost Value = { CheckerParts };

    ghost use Rattle.checker_machine.specs.inside.Fields.{checker_parts_of, AreSound};

    ghost view = { checker_parts_of };

    ghost invariant = { λ m. AreSound (checker_parts_of m) };
}

impl CheckerMachine {
    ghost use Rattle.vm_model.specs.Machine.Machine.{Machine, IsGoodMachine, empty_machine};
    ghost use Rattle.vm_model.specs.Machine.MachineStep.{MachineStep, may_want_memory};
    ghost use Rattle.checker_machine.specs.Machine.{checker_machine_of, HasPinnedFrame, pinned_frame};

    /// Makes a machine with nothing, and no page frames yet, which `fill` gives.
    pub fn new(alloc: Global) -> CheckerMachine
        ensures empty { checker_machine_of result ≡ empty_machine 0 }
        ensures good { IsGoodMachine (checker_machine_of result) }
    {
        CheckerMachine {
            pages: FlatStore::new(alloc),
            machine: machine::Machine::new(alloc, ReadyMap::new(alloc)),
        }
    }

    /// Gives a machine that has nothing its page frames, from 1 to `FRAMES` of them. `HostMemory` if the host has too little
    /// memory.
    pub fn fill(&mut self, frames: u32) -> Result<(), HostMemory>
        requires empty { checker_machine_of self.old ≡ empty_machine 0 }
        requires some { 1 ≤ frames }
        requires most { frames ≤ FRAMES }
        ensures filled { MatchResult result (λ _. checker_machine_of self.new ≡ empty_machine frames)
            (λ lack. checker_machine_of self.new ≡ checker_machine_of self.old) }
        ensures good { IsGoodMachine (checker_machine_of self.new) }
    {
        self.pages.fill(frames)
    }

    /// Returns whether want of memory may be the reply to a call (`HostMemory`): nothing refuses it, and it may want
    /// memory.
    pub fn may_want_memory(&self, call: &Call<'_>) -> bool
        ensures { result ≡ (not (is_some (first_of (refusals (checker_machine_of self.now).state call.now)))
            && may_want_memory (checker_machine_of self.now) call.now) }
    {
        let (vmos, pins) = (self.machine.vmos(), self.machine.pins());
        let (regions, maps) = (self.machine.regions(), self.machine.maps());
        match group_of(call) {
            Group::Vmo => vmo_wants(&self.pages, vmos, pins, call),
            Group::Pages => pages_want(&self.pages, vmos, pins, call),
            Group::Pin => pin_wants(&self.pages, vmos, pins, call),
            Group::Region => region_wants(&self.pages, vmos, regions, maps, call),
            Group::Memory => memory_wants(&self.pages, regions, maps, self.machine.ready(), call),
            Group::Machine => false,
        }
    }

    /// Does one command as a whole, and answers its reply. A command that is refused changes nothing. A region or a mapping for
    /// which the command leaves the place open is put at the address `told`. The answer is `None`, with nothing changed, if
    /// nothing refuses the command, but it can't be at that address. Of other commands `told` says nothing. Bytes that are read
    /// are written to `bytes`, and the frames of pinned pages to `numbers`, and lent from there. `HostMemory`, with nothing
    /// changed, if the host has too little memory: only if nothing refuses the command, and it may want memory.
    pub fn answer<'a>(
        &mut self,
        call: &Call<'_>,
        told: u64,
        bytes: &'a mut [u8],
        numbers: &'a mut [u64],
    ) -> Result<Option<Answer<'a>>, HostMemory>
        requires next { (checker_machine_of self.old).state.content.next < KOIDS }
        requires bytes { DATA_BYTES ≤ length bytes.old }
        requires numbers { PIN_PAGES ≤ length numbers.old }
        ensures step { MatchResult result (λ given. MatchOption given
            ((checker_machine_of self.new ≡ checker_machine_of self.old) × (tells_place call.now ≡ true)
            × (first_of (refusals (checker_machine_of self.old).state call.now) ≡ None)
            × ((new : Machine) → MachineStep (checker_machine_of self.old) call.now (Reply.Address told) new → ⊥))
            (λ answer. MachineStep (checker_machine_of self.old) call.now answer (checker_machine_of self.new)))
            (λ lack. checker_machine_of self.new ≡ checker_machine_of self.old) }
        ensures lack { OnErr result ((first_of (refusals (checker_machine_of self.old).state call.now) ≡ None)
            × (may_want_memory (checker_machine_of self.old) call.now ≡ true)) }
        ensures own { MatchResult result (λ given. MatchOption given ⊤
            (λ answer. answer ≢ Reply.Refused Refusal.HostMemory)) (λ lack. ⊤) }
        ensures place { MatchResult result (λ given. MatchOption given ⊤ (λ answer. tells_place call.now ≡ true
            → (address : ℕ) → answer ≡ Reply.Address address → address ≡ told)) (λ lack. ⊤) }
        ensures good { IsGoodMachine (checker_machine_of self.new) }
        ensures next { (checker_machine_of self.new).state.content.next ≤ (checker_machine_of self.old).state.content.next + 1 }
        ensures frames { (checker_machine_of self.new).state.content.frames ≡ (checker_machine_of self.old).state.content.frames }
    {
        let given = self
            .machine
            .answer_told(&mut self.pages, call, Some(told), bytes, numbers);
        own(given)
    }

    /// Returns the frame of page `at` of a pin, counted from the pin's first. `None` if there is no such pin, or if it
    /// has no such page.
    pub fn pinned_frame(&self, pin: PinName, at: u64) -> Option<Tag>
        ensures { option_map (λ (tag : Tag). tag.0) result
            ≡ pinned_frame (checker_machine_of self.now).state ((checker_machine_of self.now).state.pins pin.0) at }
    {
        let Some((koid, first, count)) = self.machine.pins().get(pin) else {
            return None;
        };
        if at >= count {
            return None;
        }
        self.pages.frame_at(koid, first + at)
    }

    /// Returns whether a page that is pinned has the frame.
    pub fn is_pinned_frame(&self, tag: Tag) -> bool
        ensures { IsTrue result ↔ HasPinnedFrame (checker_machine_of self.now) tag.0 }
    {
        match self.pages.viewer(tag) {
            Some((koid, page)) => self.machine.pins().pinned(koid, page, 1),
            None => false,
        }
    }
}

/// Returns the answer, if there is one. `HostMemory` if it is that the host has too little memory.
#[inline(always)]
fn own(given: Option<Answer<'_>>) -> Result<Option<Answer<'_>>, HostMemory>
    ensures given { MatchResult result (λ own. own ≡ given.entry) (λ lack. given.entry ≡ Some (Reply.Refused Refusal.HostMemory)) }
    ensures own { MatchResult result (λ own. MatchOption own ⊤ (λ answer. answer ≢ Reply.Refused Refusal.HostMemory)) (λ lack. ⊤) }
{
    match given {
        Some(Answer::Refused(Refusal::HostMemory)) => Err(HostMemory),
        given => Ok(given),
    }
}
