//! The tasks of one actor.

ghost use Rattle.std.specs.Prelude.{◌≡◌, ◌<◌, [], ◌∷◌, ◌++◌, length, slice_get, Some, OnOk, OnErr};
ghost use Rattle.shared_vm.specs.inside.TaskPlaces.{task_of_line};

use crate::place::Place;
use std::alloc::Global;
use std::marker::Model;
use vm_base::HostMemory;

/// The tasks of one actor, kept as the bytes of their lines. Contracts see a list of tasks.
#[derive(Drop)]
pub(crate) struct TaskList {
    /// The lines, one behind another.
    bytes: Vec<u8>,
    places: Vec<Place>,
}

impl Model for TaskList {
    ghost use Rattle.std.specs.Prelude.{List};
    ghost use Rattle.shared_vm.specs.declared.task.Task.{Task};

    ghost Value = { List Task };

    ghost use Rattle.shared_vm.specs.inside.TaskPlaces.{tasks_at, AreWithin};

    ghost view = { λ t. tasks_at t.bytes.items t.places.items };

    ghost invariant = { λ t. AreWithin t.bytes.items t.places.items };
}

impl TaskList {
    /// Returns a list of no tasks. It takes no memory.
    pub(crate) fn new(alloc: Global) -> TaskList
        ensures { result ≡ [] }
    {
        TaskList {
            bytes: Vec::new(alloc),
            places: Vec::new(alloc),
        }
    }

    /// Adds the task of a line behind the others. `HostMemory` if the host has too little memory, and then the list stays.
    pub(crate) fn push(&mut self, line: &[u8]) -> Result<(), HostMemory>
        ensures ok { OnOk result (self.new ≡ self.old ++ task_of_line line.now ∷ []) }
        ensures err { OnErr result (self.new ≡ self.old) }
    {
        let start = self.bytes.len();
        let Ok(()) = self.bytes.extend_from_slice(line) else {
            return Err(HostMemory);
        };
        let end = self.bytes.len();
        let Ok(()) = self.places.push(Place { start, end }) else {
            return Err(HostMemory);
        };
        Ok(())
    }

    /// Returns how many tasks there are.
    pub(crate) fn len(&self) -> usize
        ensures { result ≡ length self.now }
    {
        self.places.len()
    }

    /// Returns the line of a task.
    pub(crate) fn line(&self, index: usize) -> &[u8]
        requires { index < length self.now }
        ensures { slice_get self.now index ≡ Some (task_of_line result.now) }
    {
        let place = self.places[index];
        &self.bytes[place.start..place.end]
    }
}
