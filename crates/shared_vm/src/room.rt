//! The machine that the actors share, and what they did on it.

ghost use Rattle.std.specs.Prelude.{◌≡◌, ◌+◌, ◌^◌, ◌<◌, ◌≤◌, [], length, vec_len, vec_capacity, IfOk};
ghost use Rattle.vm_base.specs.declared.limits.TheConstants.{ACTOR_MAX, DATA_BYTES, FRAMES, KOIDS, PIN_PAGES};
ghost use Rattle.vm_model.specs.Contents.Content.{nothing};
ghost use Rattle.vm_core.specs.Vm.{Agrees, machine_of};
ghost use Rattle.shared_vm.specs.Journal.{done_by, DoesTask};
ghost use Rattle.shared_vm.specs.Rooms.{IsLegal, TakesTurn};
ghost use Rattle.shared_vm.specs.Tasks.{task_count, tasks_of};
ghost use Rattle.shared_vm.specs.inside.Asking.{all_asked, bytes_asked, numbers_asked};
ghost use Rattle.shared_vm.specs.inside.TaskPlaces.{task_of_line};

use crate::counts::Counts;
use crate::journal::Journal;
use crate::line_room::LineRoom;
use crate::notes::Notes;
use crate::scripts::Scripts;
use crate::task::Deed;
use page_store::PageStore;
use script_text::read_call;
use std::alloc::Global;
use std::marker::Model;
use vm_base::{DATA_BYTES, HostMemory, Refusal};
use vm_core::Vm;
use vm_model::Answer;

/// A machine and its store, the tasks of the actors, and the journal of what they did. Contracts see these, and the number of
/// page frames that the machine began with. In every room the journal is a run of the machine from nothing but its frames,
/// and the machine and its store stand for the state in which this run ends. Each deed is the next task of its actor.
#[derive(Drop)]
pub struct Room<P: PageStore, J: Journal = Vec<Deed>> {
    frames: u32,
    vm: Vm,
    store: P,
    scripts: Scripts,
    /// The number of tasks that each actor did.
    done: Counts,
    /// It has room for a deed for each task, and for the data of its reply.
    journal: J,
    data: LineRoom,
}

impl<P: PageStore, J: Journal> Model for Room<P, J> {
    ghost use Rattle.shared_vm.specs.Rooms.{Session, IsRoom};

    ghost Value = { Session P };

    ghost view = { λ r. record { frames = r.frames; lists = r.scripts; journal = J.deeds r.journal; vm = r.vm; store = r.store } };

    ghost invariant = { λ r. IsRoom P.content
        (record { frames = r.frames; lists = r.scripts; journal = J.deeds r.journal; vm = r.vm; store = r.store })
        r.done (J.spare r.journal) };
}

impl<P: PageStore> Room<P> {
    /// Makes a room with an empty journal, over a store that has nothing, which gets `frames` page frames, from 1 to `FRAMES`. The
    /// tasks are fewer than 2^32 together. The room for their deeds is taken here. `HostMemory` if the host has too little
    /// memory for it or for the frames, and then the tasks and the store are dropped.
    pub fn new(
        alloc: Global,
        frames: u32,
        scripts: Scripts,
        store: P,
    ) -> Result<Room<P>, HostMemory>
        requires few { task_count scripts < 2 ^ 32 }
        requires frames { 1 ≤ frames × frames ≤ FRAMES }
        requires empty { P.content store ≡ nothing }
        ensures frames { IfOk result (λ r. r.frames ≡ frames) }
        ensures lists { IfOk result (λ r. r.lists ≡ scripts) }
        ensures journal { IfOk result (λ r. r.journal ≡ []) }
        ensures legal { IfOk result (λ r. IsLegal P.content r) }
    {
        let journal = journal_for(alloc, scripts.count())?;
        with_journal(alloc, frames, scripts, store, journal)
    }

    /// Returns what the actors did, the first deed first.
    pub fn journal(&self) -> &[Deed]
        ensures journal { result.now ≡ self.now.journal }
        ensures legal { IsLegal P.content self.now }
    {
        self.journal.as_slice()
    }
}

impl<P: PageStore> Room<P, Notes> {
    /// Does what `new` does, for a room whose journal takes little memory.
    pub(crate) fn with_notes(
        alloc: Global,
        frames: u32,
        scripts: Scripts,
        store: P,
    ) -> Result<Room<P, Notes>, HostMemory>
        requires few { task_count scripts < 2 ^ 32 }
        requires frames { 1 ≤ frames × frames ≤ FRAMES }
        requires empty { P.content store ≡ nothing }
        ensures frames { IfOk result (λ r. r.frames ≡ frames) }
        ensures lists { IfOk result (λ r. r.lists ≡ scripts) }
        ensures journal { IfOk result (λ r. r.journal ≡ []) }
        ensures legal { IfOk result (λ r. IsLegal P.content r) }
    {
        let asked = scripts.asked(&mut [0; DATA_BYTES]);
        let notes = Notes::new(alloc, scripts.count(), asked)?;
        with_journal(alloc, frames, scripts, store, notes)
    }

    /// Returns what the actors did, the first deed first.
    pub(crate) fn notes(&self) -> &Notes
        ensures journal { result.now.deeds ≡ self.now.journal }
        ensures legal { IsLegal P.content self.now }
    {
        &self.journal
    }
}

impl<P: PageStore, J: Journal> Room<P, J> {
    /// Does the next task of an actor, from 0 to 3, and notes it in the journal, which has room for it. `false` if the actor has
    /// no task left, and then nothing changes.
    pub fn turn(&mut self, actor: u32) -> bool
        requires { actor ≤ ACTOR_MAX }
        ensures turns { TakesTurn P.content self.old self.new actor result }
        ensures legal { IsLegal P.content self.new }
    {
        let at = self.done.of(actor) as usize;
        let tasks = self.scripts.tasks(actor);
        if at >= tasks.len() {
            return false;
        }
        let line = tasks.line(at);
        let answer = answer_to(
            &mut self.vm,
            &mut self.store,
            line,
            &mut self.data.written,
            &mut self.data.read,
            &mut self.data.pinned,
        );
        self.journal.note(actor, answer);
        self.done = self.done.raised(actor);
        true
    }

    /// Returns how many tasks an actor, from 0 to 3, has not done.
    pub fn left(&self, actor: u32) -> u64
        requires { actor ≤ ACTOR_MAX }
        ensures left { result + done_by actor self.now.journal ≡ length (tasks_of self.now.lists actor) }
        ensures legal { IsLegal P.content self.now }
    {
        self.scripts.tasks(actor).len() as u64 - self.done.of(actor)
    }

    /// Returns the store, as the last deed left it.
    pub fn into_store(self) -> P
        ensures { result ≡ self.store }
    {
        // By one call each: at the end of the body their tables would be dropped one by one, each with a proof.
        drop(self.vm);
        drop(self.scripts);
        drop(self.journal);
        self.store
    }
}

/// Makes a room with a journal that has no deeds, and room for those of all tasks.
fn with_journal<P: PageStore, J: Journal>(
    alloc: Global,
    frames: u32,
    scripts: Scripts,
    store: P,
    journal: J,
) -> Result<Room<P, J>, HostMemory>
    requires few { task_count scripts < 2 ^ 32 }
    requires frames { 1 ≤ frames × frames ≤ FRAMES }
    requires empty { P.content store ≡ nothing }
    requires bare { J.deeds journal ≡ [] }
    requires room { task_count scripts ≤ (J.spare journal).deeds }
    requires bytes { all_asked bytes_asked scripts ≤ (J.spare journal).bytes }
    requires numbers { all_asked numbers_asked scripts ≤ (J.spare journal).numbers }
    ensures frames { IfOk result (λ r. r.frames ≡ frames) }
    ensures lists { IfOk result (λ r. r.lists ≡ scripts) }
    ensures journal { IfOk result (λ r. r.journal ≡ []) }
    ensures legal { IfOk result (λ r. IsLegal P.content r) }
{
    let mut store = store;
    store.fill(frames)?;
    Ok(Room {
        frames,
        vm: Vm::new(alloc),
        store,
        scripts,
        done: Counts::none(),
        journal,
        data: LineRoom::new(),
    })
}

/// Makes an empty journal with room for so many deeds.
fn journal_for(alloc: Global, count: u64) -> Result<Vec<Deed>, HostMemory>
    ensures items { IfOk result (λ v. v.items ≡ []) }
    ensures len { IfOk result (λ v. vec_len v ≡ 0) }
    ensures room { IfOk result (λ v. vec_capacity v ≡ count) }
{
    Vec::with_capacity(alloc, count as usize).map_err(|_| HostMemory)
}

/// Does the task of a line, and returns the machine's answer. The bytes that the task writes are decoded to `written`. The answer
/// borrows the bytes that it read from `read`, and the frames of pages that it pinned from `pinned`.
fn answer_to<'a, P: PageStore>(
    vm: &mut Vm,
    store: &mut P,
    line: &[u8],
    written: &mut [u8],
    read: &'a mut [u8],
    pinned: &'a mut [u64],
) -> Answer<'a>
    requires written { DATA_BYTES ≤ length written.old }
    requires read { DATA_BYTES ≤ length read.old }
    requires pinned { PIN_PAGES ≤ length pinned.old }
    requires agrees { Agrees (P.content store.old) vm.old }
    requires next { (P.content store.old).next < KOIDS }
    ensures does { DoesTask (task_of_line line.now) result (machine_of (P.content store.old) vm.old)
        (machine_of (P.content store.new) vm.new) }
    ensures agrees { Agrees (P.content store.new) vm.new }
    ensures next { (P.content store.new).next ≤ (P.content store.old).next + 1 }
{
    match read_call(line, written) {
        Ok(Some(call)) => vm.answer(store, &call, read, pinned),
        Ok(None) => Answer::Refused(Refusal::Syntax),
        Err(_) => Answer::Refused(Refusal::Syntax),
    }
}
