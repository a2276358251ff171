//! The numbers that were seen of the frames of pinned pages.

ghost use Rattle.std.specs.Prelude.{◌≡◌, ◌<◌, ◌≤◌, ℕ, List, Option, None, [], true, length, replicate, slice_set, IsTrue, IfOk};
ghost use Rattle.std.specs.List.{AllByRecursion};
ghost use Rattle.vm_base.specs.Entries.{with_key, without_key};
ghost use Rattle.moving_model.specs.Standing.{may_have, may_tell, with_seen};
ghost use Rattle.transcript.specs.Seen.{number_seen};

use std::alloc::Global;
use std::marker::Model;
use vm_base::HostMemory;

/// For each frame of the checker's machine the number that was seen of it, if one was. Each number is of one frame at
/// most. Clauses see the list of these, by frame.
#[derive(Drop)]
pub(crate) struct Numbers {
    /// The number of each frame.
    told: Vec<Option<u64>>,
    /// The frame of each number.
    frames: Vec<Option<u64>>,
}

impl Model for Numbers {
    ghost use Rattle.std.specs.Prelude.{ℕ, List, Option};
    ghost use Rattle.transcript.specs.Seen.{AreInverse};

    ghost Value = { List (Option ℕ) };

    ghost view = { λ n. n.told.items };

    ghost invariant = { λ n. AreInverse n.told.items n.frames.items };
}

impl Numbers {
    /// Returns the numbers of a machine with no frames.
    pub(crate) fn none(alloc: Global) -> Numbers
        ensures { result ≡ [] }
    {
        Numbers {
            told: Vec::new(alloc),
            frames: Vec::new(alloc),
        }
    }

    /// Returns the numbers of a machine with so many frames, of which none was seen. `HostMemory` if the host has too little
    /// memory.
    pub(crate) fn new(alloc: Global, frames: u32) -> Result<Numbers, HostMemory>
        ensures { IfOk result (λ numbers. numbers ≡ replicate frames None) }
    {
        Ok(Numbers {
            told: empty(alloc, frames)?,
            frames: empty(alloc, frames)?,
        })
    }

    /// Reports whether a frame may have a number: the one that was seen of it, or else one that no frame has.
    fn may_have(&self, frame: u64, number: u64) -> bool
        ensures { result ≡ may_have (length self.now) (number_seen self.now) (number_seen self.now frame) number }
    {
        match value_at(&self.told, frame) {
            Some(seen) => seen == number,
            None => number < self.told.len() as u64 && value_at(&self.frames, number).is_none(),
        }
    }

    /// Sees a number of a frame that may have it.
    fn see(&mut self, frame: u64, number: u64)
        requires inside { frame < length self.old }
        requires may { may_have (length self.old) (number_seen self.old) (number_seen self.old frame) number ≡ true }
        ensures seen { number_seen self.new ≡ with_key (number_seen self.old) frame number }
        ensures len { length self.new ≡ length self.old }
    {
        put(&mut self.told, frame, Some(number));
        put(&mut self.frames, number, Some(frame));
    }

    /// Forgets the number of a frame.
    pub(crate) fn forget(&mut self, frame: u64)
        ensures gone { number_seen self.new ≡ without_key (number_seen self.old) frame }
        ensures len { length self.new ≡ length self.old }
    {
        let Some(number) = value_at(&self.told, frame) else {
            return;
        };
        put(&mut self.told, frame, None);
        put(&mut self.frames, number, None);
    }

    /// Sees these numbers of these frames, one after another, as long as each frame may have its number. Answers whether all
    /// may. If not, some of them are seen.
    pub(crate) fn see_all(&mut self, frames: &[u64], numbers: &[u64]) -> bool
        requires { AllByRecursion (λ frame. frame < length self.old) frames.now }
        ensures may { result ≡ may_tell (length self.old) (number_seen self.old) frames.now numbers.now }
        ensures seen { IsTrue result → number_seen self.new ≡ with_seen (number_seen self.old) frames.now numbers.now }
        ensures len { length self.new ≡ length self.old }
    {
        let Some((frame, frames)) = frames.split_first() else {
            return numbers.is_empty();
        };
        let Some((number, numbers)) = numbers.split_first() else {
            return false;
        };
        if !self.may_have(*frame, *number) {
            return false;
        }
        self.see(*frame, *number);
        self.see_all(frames, numbers)
    }
}

/// Makes a table with no number of each frame, or no frame of each number.
fn empty(alloc: Global, frames: u32) -> Result<Vec<Option<u64>>, HostMemory>
    ensures { IfOk result (λ v. v.items ≡ replicate frames None) }
{
    vec![in alloc; None; frames as usize].map_err(|_| HostMemory)
}

/// Returns the value at a place, if there is one.
fn value_at(values: &Vec<Option<u64>>, at: u64) -> Option<u64>
    ensures { result ≡ number_seen values.now.items at }
{
    match values.get(at as usize) {
        Some(value) => *value,
        None => None,
    }
}

/// Puts a value into its place.
fn put(values: &mut Vec<Option<u64>>, at: u64, value: Option<u64>)
    requires { at < length values.old.items }
    ensures { values.new.items ≡ slice_set values.old.items at value }
{
    values[at as usize] = value;
}
