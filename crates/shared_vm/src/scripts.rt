//! The tasks of the actors.

ghost use Rattle.std.specs.Prelude.{◌≡◌, ◌+◌, ◌^◌, ◌<◌, ◌≤◌, length, OnOk, OnErr};
ghost use Rattle.vm_base.specs.declared.limits.TheConstants.{DATA_BYTES, LINE_BYTES};
ghost use Rattle.vm_model.specs.Language.Reading.{reading_of_words, words, is_comment};
ghost use Rattle.shared_vm.specs.Tasks.{actor_of, no_tasks, task_count, tasks_of, with_behind, with_line, with_reading, with_task};
ghost use Rattle.shared_vm.specs.inside.Asking.{all_asked, bytes_asked, numbers_asked};
ghost use Rattle.shared_vm.specs.inside.TaskPlaces.{says_nothing, task_of_line};
ghost use Rattle.shared_vm.specs.declared.task.Task.TheVariants.{Outside};

use crate::asking::{Asked, asked_in};
use crate::task_list::TaskList;
use script_text::next_word;
use std::alloc::Global;
use std::marker::Model;
use vm_base::{HostMemory, LINE_BYTES};

/// The tasks of the actors a0 to a3, kept as the bytes of their lines. Contracts see four lists of tasks.
#[derive(Drop)]
pub struct Scripts {
    a0: TaskList,
    a1: TaskList,
    a2: TaskList,
    a3: TaskList,
}

impl Model for Scripts {
    ghost use Rattle.shared_vm.specs.Tasks.{Lists};

    ghost Value = { Lists };

    ghost view = { λ s. record { a0 = s.a0; a1 = s.a1; a2 = s.a2; a3 = s.a3 } };
}

impl Scripts {
    /// Makes four lists without tasks.
    pub fn new(alloc: Global) -> Scripts
        ensures { result ≡ no_tasks }
    {
        Scripts {
            a0: TaskList::new(alloc),
            a1: TaskList::new(alloc),
            a2: TaskList::new(alloc),
            a3: TaskList::new(alloc),
        }
    }

    /// Adds the task of a line of at most `LINE_BYTES` bytes, without its line feed. If the first word is `a0`, `a1`, `a2` or
    /// `a3`, the task is that actor's. What follows the word is read as a line of a script. It is a command, or is outside
    /// the grammar, or says nothing and gives no task. Any other line that is neither blank nor a comment is a task of a0
    /// that is outside the grammar. `HostMemory` if the host has too little memory, and then the lists stay.
    pub fn add(&mut self, line: &[u8]) -> Result<(), HostMemory>
        requires { length line.now ≤ LINE_BYTES }
        ensures ok { OnOk result (self.new ≡ with_line self.old line.now) }
        ensures err { OnErr result (self.new ≡ self.old) }
    {
        match next_word(line) {
            Some((word, behind)) => self.add_words(word, behind),
            None => Ok(()),
        }
    }

    /// Adds a task of a0 that is outside the grammar, as a line of more than `LINE_BYTES` bytes gives it. `HostMemory` if the
    /// host has too little memory, and then the lists stay.
    pub fn add_outside(&mut self) -> Result<(), HostMemory>
        ensures ok { OnOk result (self.new ≡ with_task self.old 0 Outside) }
        ensures err { OnErr result (self.new ≡ self.old) }
    {
        // A line of no bytes is no command.
        self.push(0, &[])
    }

    /// Adds the task of a line with this first word.
    fn add_words(&mut self, word: &[u8], behind: &[u8]) -> Result<(), HostMemory>
        requires { length behind.now ≤ LINE_BYTES }
        ensures ok { OnOk result
            (self.new ≡ with_behind self.old word.now (words behind.now) (actor_of word.now)) }
        ensures err { OnErr result (self.new ≡ self.old) }
    {
        match actor_of(word) {
            Some(actor) => self.add_behind(actor, behind),
            None if is_comment(word) => Ok(()),
            None => self.add_outside(),
        }
    }

    /// Adds what the rest of a line says to an actor.
    fn add_behind(&mut self, actor: u32, behind: &[u8]) -> Result<(), HostMemory>
        requires { length behind.now ≤ LINE_BYTES }
        ensures ok { OnOk result (self.new ≡ with_reading self.old actor (reading_of_words (words behind.now))) }
        ensures err { OnErr result (self.new ≡ self.old) }
    {
        if says_nothing(behind) {
            return Ok(());
        }
        self.push(actor, behind)
    }

    /// Adds the task of a line to an actor.
    fn push(&mut self, actor: u32, line: &[u8]) -> Result<(), HostMemory>
        ensures ok { OnOk result (self.new ≡ with_task self.old actor (task_of_line line.now)) }
        ensures err { OnErr result (self.new ≡ self.old) }
    {
        match actor {
            0 => self.a0.push(line),
            1 => self.a1.push(line),
            2 => self.a2.push(line),
            _ => self.a3.push(line),
        }
    }

    /// Returns the tasks of an actor.
    pub(crate) fn tasks(&self, actor: u32) -> &TaskList
        ensures { result.now ≡ tasks_of self.now actor }
    {
        match actor {
            0 => &self.a0,
            1 => &self.a1,
            2 => &self.a2,
            _ => &self.a3,
        }
    }

    /// Returns how many tasks the actors have together.
    pub(crate) fn count(&self) -> u64
        requires { task_count self.now < 2 ^ 32 }
        ensures { result ≡ task_count self.now }
    {
        (self.a0.len() + self.a1.len() + self.a2.len() + self.a3.len()) as u64
    }

    /// Returns what the tasks of the actors ask for together. Bytes that a task writes are decoded to `written`.
    pub(crate) fn asked(&self, written: &mut [u8]) -> Asked
        requires few { task_count self.now < 2 ^ 32 }
        requires written { DATA_BYTES ≤ length written.old }
        ensures bytes { result.bytes ≡ all_asked bytes_asked self.now }
        ensures numbers { result.numbers ≡ all_asked numbers_asked self.now }
    {
        let a0 = asked_in(&self.a0, written);
        let a1 = asked_in(&self.a1, written);
        let a2 = asked_in(&self.a2, written);
        let a3 = asked_in(&self.a3, written);
        Asked {
            bytes: a0.bytes + a1.bytes + a2.bytes + a3.bytes,
            numbers: a0.numbers + a1.numbers + a2.numbers + a3.numbers,
        }
    }
}

/// Returns the actor that a word names.
fn actor_of(word: &[u8]) -> Option<u32>
    ensures { result ≡ actor_of word.now }
{
    if word == b"a0".as_slice() {
        Some(0)
    } else if word == b"a1".as_slice() {
        Some(1)
    } else if word == b"a2".as_slice() {
        Some(2)
    } else if word == b"a3".as_slice() {
        Some(3)
    } else {
        None
    }
}

/// Reports whether a word begins with `#`.
fn is_comment(word: &[u8]) -> bool
    ensures { result ≡ is_comment word.now }
{
    matches!(word, [b'#', ..])
}

/// Reports whether a line says nothing: it has no word, or it is a comment.
fn says_nothing(line: &[u8]) -> bool
    ensures { result ≡ says_nothing (words line.now) }
{
    match next_word(line) {
        Some((word, _)) => is_comment(word),
        None => true,
    }
}
