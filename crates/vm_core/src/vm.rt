//! The machine, and its step.

ghost use Rattle.std.specs.Prelude.{◌≡◌, ◌+◌, ◌<◌, ◌≤◌, length};
ghost use Rattle.vm_base.specs.declared.limits.TheConstants.{DATA_BYTES, KOIDS, PIN_PAGES};

use fault::Translations;
use machine::Machine;
use page_store::PageStore;
use std::alloc::Global;
use std::marker::Model;
use vm_base::{DATA_BYTES, PIN_PAGES};
use vm_model::{Answer, Call, Command, Reply};

/// The names, VMOs, pins and regions of the machine, and its translations, over a store of pages. Each `step` is one
/// command.
#[derive(Drop)]
pub struct Vm {
    machine: Machine<Translations>,
}

impl Model for Vm {
    ghost use Rattle.vm_core.specs.Vm.{Parts};

    ghost Value = { Parts };

    ghost view = { λ vm. vm.machine };
}

impl Vm {
    ghost use Rattle.vm_model.specs.Contents.Content.{Content, HasNoVmo};
    ghost use Rattle.vm_model.specs.Machine.Machine.{IsGoodMachine, empty_machine};
    ghost use Rattle.vm_model.specs.Machine.MachineStep.{MachineStep};
    ghost use Rattle.vm_core.specs.Vm.{Agrees, bare_machine, machine_of};

    /// Makes a machine with no names, pins, regions and translations. It agrees with every store that has no VMO,
    /// whatever the store's next koid is, from 1 on, as `PageStore::next_koid` says of any store. If that is 1, the two
    /// are the empty machine.
    pub fn new(alloc: Global) -> Vm
        ensures bare { (c : Content) → machine_of c result ≡ bare_machine c }
        ensures agrees { (c : Content) → HasNoVmo c → 1 ≤ c.next → Agrees c result }
        ensures empty { (c : Content) → HasNoVmo c → c.next ≡ 1 → machine_of c result ≡ empty_machine c.frames }
    {
        Vm {
            machine: Machine::new(alloc, Translations::new(alloc)),
        }
    }

    /// Does one command as a whole. A command that is refused, also for want of the host's memory, changes nothing. The
    /// store is the one that holds the VMOs of the names. Afterwards each translation is true.
    pub fn step<P: PageStore>(&mut self, store: &mut P, command: &Command) -> Reply
        requires agrees { Agrees (P.content store.old) self.old }
        requires next { (P.content store.old).next < KOIDS }
        ensures step { MachineStep (machine_of (P.content store.old) self.old) command.now result
            (machine_of (P.content store.new) self.new) }
        ensures agrees { Agrees (P.content store.new) self.new }
        ensures good { IsGoodMachine (machine_of (P.content store.new) self.new) }
        ensures next { (P.content store.new).next ≤ (P.content store.old).next + 1 }
    {
        let mut bytes = [0; DATA_BYTES];
        let mut numbers = [0; PIN_PAGES];
        self.answer(store, &command.lend(), &mut bytes, &mut numbers)
            .into_owned()
    }

    /// Does what `step` does, for a command whose bytes are lent. The answer borrows the bytes that were read from
    /// `bytes`, which has room for `DATA_BYTES` bytes, and the frames of pinned pages from `numbers`, which has room
    /// for `PIN_PAGES` of them.
    #[inline(always)]
    pub fn answer<'a, P: PageStore>(
        &mut self,
        store: &mut P,
        call: &Call<'_>,
        bytes: &'a mut [u8],
        numbers: &'a mut [u64],
    ) -> Answer<'a>
        requires agrees { Agrees (P.content store.old) self.old }
        requires next { (P.content store.old).next < KOIDS }
        requires bytes { DATA_BYTES ≤ length bytes.old }
        requires numbers { PIN_PAGES ≤ length numbers.old }
        ensures step { MachineStep (machine_of (P.content store.old) self.old) call.now result
            (machine_of (P.content store.new) self.new) }
        ensures agrees { Agrees (P.content store.new) self.new }
        ensures good { IsGoodMachine (machine_of (P.content store.new) self.new) }
        ensures next { (P.content store.new).next ≤ (P.content store.old).next + 1 }
    {
        self.machine.answer(store, call, bytes, numbers)
    }
}
