//! A journal that takes little memory.

ghost use Rattle.std.specs.Prelude.{◌≡◌, ◌+◌, ◌^◌, ◌<◌, ◌≤◌, [], ◌∷◌, ◌++◌, length, slice_get, vec_len, vec_capacity, Some, IfOk, OnOk, OnErr};
ghost use Rattle.script_io.specs.Faults.{HasCause, IsCutOff};
ghost use Rattle.shared_vm.specs.declared.task.Deed.{Deed};
ghost use Rattle.shared_vm.specs.Journal.{Leaves, Suffices, data_bytes, data_numbers};
ghost use Rattle.shared_vm.specs.Texts.{deed_text};
ghost use Rattle.shared_vm.specs.inside.Noting.{Keeps};
ghost use Rattle.shared_vm.specs.inside.Pending.{PassesOn};

use crate::asking::Asked;
use crate::journal::Journal;
use crate::pending::PendingText;
use crate::place::Place;
use crate::writing::add_deed;
use script_io::Sink;
use std::alloc::Global;
use std::marker::Model;
use vm_base::{Failed, HostMemory, TEXT_ROOM};
use vm_model::{Answer, LentBytes, LentNumbers};

/// An answer as it is kept: the answer, or the place of its data.
#[derive(Drop)]
pub(crate) enum Kept {
    Plain(Answer<'static>),
    Bytes(Place),
    Access { faults: u64, bytes: Place },
    Pins(Place),
}

/// A deed as it is kept.
#[derive(Drop)]
pub(crate) struct Note {
    actor: u32,
    kept: Kept,
}

/// Deeds, with the data of all replies in one place, so that a deed takes no more room than its reply needs. Contracts see the
/// deeds, and for how many more there is room.
#[derive(Drop)]
pub(crate) struct Notes {
    notes: Vec<Note>,
    /// The bytes that were read.
    bytes: Vec<u8>,
    /// The frames of the pages that were pinned.
    numbers: Vec<u64>,
}

impl Model for Notes {
    ghost use Rattle.std.specs.Prelude.{◌-◌, vec_len, vec_capacity};
    ghost use Rattle.shared_vm.specs.inside.Noting.{Noted, IsJournal, deeds_at};

    ghost Value = { Noted };

    ghost view = { λ n. record {
      deeds = deeds_at n.bytes.items n.numbers.items n.notes.items;
      spare = record {
        deeds = vec_capacity n.notes - vec_len n.notes;
        bytes = vec_capacity n.bytes - vec_len n.bytes;
        numbers = vec_capacity n.numbers - vec_len n.numbers;
      };
    } };

    ghost invariant = { λ n. IsJournal n.bytes.items n.numbers.items n.notes.items };
}

impl Notes {
    /// Returns an empty journal with room for so many deeds, and for so much data of their replies. `HostMemory` if the host has
    /// too little memory.
    pub(crate) fn new(alloc: Global, count: u64, asked: Asked) -> Result<Notes, HostMemory>
        ensures deeds { IfOk result (λ n. n.deeds ≡ []) }
        ensures spare { IfOk result (λ n. n.spare ≡ record { deeds = count; bytes = asked.bytes; numbers = asked.numbers }) }
    {
        let Ok(notes) = Vec::with_capacity(alloc, count as usize) else {
            return Err(HostMemory);
        };
        let Ok(bytes) = Vec::with_capacity(alloc, asked.bytes as usize) else {
            return Err(HostMemory);
        };
        let Ok(numbers) = Vec::with_capacity(alloc, asked.numbers as usize) else {
            return Err(HostMemory);
        };
        Ok(Notes {
            notes,
            bytes,
            numbers,
        })
    }

    /// Notes a deed, for which there is room.
    fn add(&mut self, actor: u32, answer: Answer<'_>)
        requires { Suffices self.old.spare answer }
        ensures deeds { self.new.deeds ≡ self.old.deeds ++ record { actor = actor; reply = answer.entry } ∷ [] }
        ensures spare { Leaves self.old.spare answer.entry self.new.spare }
    {
        let kept = keep(answer, &mut self.bytes, &mut self.numbers);
        self.notes.push_reserved(Note { actor, kept });
    }

    /// Returns how many deeds there are.
    pub(crate) fn len(&self) -> usize
        ensures { result ≡ length self.now.deeds }
    {
        self.notes.len()
    }

    /// Adds the text of a deed to the text that waits for a sink. `Failed` if the sink failed.
    pub(crate) fn add_text<K: Sink>(
        &self,
        index: usize,
        sink: &mut K,
        line: &mut [u8],
        pending: &mut PendingText,
    ) -> Result<(), Failed>
        requires index { index < length self.now.deeds }
        requires line { TEXT_ROOM ≤ length line.old }
        ensures ok { (deed : Deed) → slice_get self.now.deeds index ≡ Some deed → OnOk result
            (PassesOn (K.contents sink.old) pending.old (deed_text deed) (K.contents sink.new) pending.new) }
        ensures err { (deed : Deed) → slice_get self.now.deeds index ≡ Some deed → OnErr result
            (IsCutOff (K.contents sink.old) (K.contents sink.new) (pending.old ++ deed_text deed)) }
        ensures cause { HasCause (K.faults sink.old) (K.faults sink.new) result }
    {
        let note = &self.notes[index];
        match &note.kept {
            Kept::Plain(answer) => add_deed(sink, note.actor, answer, line, pending),
            Kept::Bytes(place) => {
                let bytes = LentBytes::new(&self.bytes[place.start..place.end]);
                add_deed(sink, note.actor, &Answer::Bytes(bytes), line, pending)
            }
            Kept::Access { faults, bytes } => {
                let bytes = LentBytes::new(&self.bytes[bytes.start..bytes.end]);
                let answer = Answer::Access {
                    faults: *faults,
                    bytes,
                };
                add_deed(sink, note.actor, &answer, line, pending)
            }
            Kept::Pins(place) => {
                let numbers = LentNumbers::new(&self.numbers[place.start..place.end]);
                add_deed(sink, note.actor, &Answer::Pins(numbers), line, pending)
            }
        }
    }
}

impl Journal for Notes {
    ghost deeds = { λ n. n.deeds };

    ghost spare = { λ n. n.spare };

    fn note(&mut self, actor: u32, answer: Answer<'_>) {
        self.add(actor, answer);
    }
}

/// Returns what is kept of an answer. Its data is copied behind the other data.
fn keep(answer: Answer<'_>, bytes: &mut Vec<u8>, numbers: &mut Vec<u64>) -> Kept
    requires bytes { vec_len bytes.old + data_bytes answer ≤ vec_capacity bytes.old }
    requires numbers { vec_len numbers.old + data_numbers answer ≤ vec_capacity numbers.old }
    ensures keeps { Keeps answer.entry bytes.old.items numbers.old.items result bytes.new.items numbers.new.items }
    ensures bytes { vec_capacity bytes.old ≤ vec_capacity bytes.new }
    ensures numbers { vec_capacity numbers.old ≤ vec_capacity numbers.new }
{
    match answer {
        Answer::Bytes(data) => Kept::Bytes(append(bytes, data.as_slice())),
        Answer::Access {
            faults,
            bytes: data,
        } => Kept::Access {
            faults,
            bytes: append(bytes, data.as_slice()),
        },
        Answer::Pins(data) => Kept::Pins(append(numbers, data.as_slice())),
        Answer::Done => Kept::Plain(Answer::Done),
        Answer::Number(number) => Kept::Plain(Answer::Number(number)),
        Answer::Address(address) => Kept::Plain(Answer::Address(address)),
        Answer::Faults(faults) => Kept::Plain(Answer::Faults(faults)),
        Answer::Info(info) => Kept::Plain(Answer::Info(info)),
        Answer::Runs(runs) => Kept::Plain(Answer::Runs(runs)),
        Answer::Stat(stat) => Kept::Plain(Answer::Stat(stat)),
        Answer::Refused(refusal) => Kept::Plain(Answer::Refused(refusal)),
    }
}

/// Adds items, for which there is room, behind the others, and returns where they stand.
fn append<T: Copy>(items: &mut Vec<T>, more: &[T]) -> Place
    requires { vec_len items.old + length more.now ≤ vec_capacity items.old }
    ensures items { items.new.items ≡ items.old.items ++ more.now }
    ensures start { result.start ≡ length items.old.items }
    ensures end { result.end ≡ length items.new.items }
    ensures capacity { vec_capacity items.old ≤ vec_capacity items.new }
{
    let start = items.len();
    match items.extend_from_slice(more) {
        Ok(()) => Place {
            start,
            end: items.len(),
        },
        Err(_) => unreachable!(),
    }
}
