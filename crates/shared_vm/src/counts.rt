//! How many tasks each actor did.

ghost use Rattle.std.specs.Prelude.{◌≡◌, ◌+◌, ◌^◌, ◌<◌, ◌≤◌};
ghost use Rattle.shared_vm.specs.Rooms.{actor_count, raised};

/// The number of tasks that each actor did.
#[derive(Clone, Copy)]
pub(crate) struct Counts {
    pub(crate) a0: u64,
    pub(crate) a1: u64,
    pub(crate) a2: u64,
    pub(crate) a3: u64,
}

impl Counts {
    /// Makes the counts of no tasks done.
    pub(crate) fn none() -> Counts
        ensures { result ≡ record { a0 = 0; a1 = 0; a2 = 0; a3 = 0 } }
    {
        Counts {
            a0: 0,
            a1: 0,
            a2: 0,
            a3: 0,
        }
    }

    /// Returns how many tasks an actor did.
    pub(crate) fn of(self, actor: u32) -> u64
        ensures { result ≡ actor_count self actor }
    {
        match actor {
            0 => self.a0,
            1 => self.a1,
            2 => self.a2,
            _ => self.a3,
        }
    }

    /// Returns the counts when an actor did one task more.
    pub(crate) fn raised(self, actor: u32) -> Counts
        requires { actor_count self actor + 1 < 2 ^ 64 }
        ensures { result ≡ raised self actor }
    {
        match actor {
            0 => Counts {
                a0: self.a0 + 1,
                ..self
            },
            1 => Counts {
                a1: self.a1 + 1,
                ..self
            },
            2 => Counts {
                a2: self.a2 + 1,
                ..self
            },
            _ => Counts {
                a3: self.a3 + 1,
                ..self
            },
        }
    }
}
