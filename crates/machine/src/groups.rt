//! The groups of commands, by which they are handled.

ghost use Rattle.std.specs.Prelude.{◌≡◌};
ghost use Rattle.machine.specs.Groups.{group_of};

use vm_model::Call;

/// A group of commands: those on one kind of thing. One function of `dispatching.rt` hands them to their handlers.
#[derive(Clone, Copy, Debug)]
pub enum Group {
    /// A VMO as a whole.
    Vmo,
    /// Pages of a VMO.
    Pages,
    /// A pin.
    Pin,
    /// A region, or the mappings in one.
    Region,
    /// Bytes that are read or written through mappings.
    Memory,
    /// The machine.
    Machine,
}

/// Returns the group of a command.
#[inline(always)]
pub fn group_of(call: &Call<'_>) -> Group
    ensures { result ≡ group_of call.now }
{
    match call {
        Call::VmoCreate { .. }
        | Call::VmoChild { .. }
        | Call::VmoClose { .. }
        | Call::VmoSize { .. }
        | Call::VmoSetSize { .. }
        | Call::VmoInfo { .. } => Group::Vmo,
        Call::VmoRead { .. }
        | Call::VmoWrite { .. }
        | Call::VmoFill { .. }
        | Call::VmoCommit { .. }
        | Call::VmoDecommit { .. }
        | Call::VmoZero { .. } => Group::Pages,
        Call::VmoPin { .. } | Call::VmoUnpin { .. } => Group::Pin,
        Call::RootCreate { .. }
        | Call::VmarAllocate { .. }
        | Call::VmarMap { .. }
        | Call::VmarUnmap { .. }
        | Call::VmarProtect { .. }
        | Call::VmarDestroy { .. }
        | Call::Maps { .. } => Group::Region,
        Call::MemRead { .. } | Call::MemWrite { .. } => Group::Memory,
        Call::Stat => Group::Machine,
    }
}
