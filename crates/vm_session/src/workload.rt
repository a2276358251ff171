//! The workload that is generated from a number.

ghost use Rattle.std.specs.Prelude.{◌≡◌};
ghost use Rattle.vm_model.specs.Scripts.Workload.{command_for, number_after};

use vm_base::{PAGE, VmoName};
use vm_model::{Call, ChildKind};

/// The size of each VMO of a workload, in bytes.
const BYTES: u64 = 64 * PAGE;

/// Returns the number that comes after `x`: one step of a linear congruential generator of 64 bits.
#[tactic(auto, unfolding(vm_model::specs::Scripts::Workload::number_after))]
pub(crate) fn number_after(x: u64) -> u64
    ensures { result ≡ number_after x }
{
    x.wrapping_mul(6364136223846793005)
        .wrapping_add(1442695040888963407)
}

/// Returns the command that a number gives.
#[tactic(auto, unfolding(vm_model::specs::Scripts::Workload::command_for))]
pub(crate) fn call_for(x: u64) -> Call<'static>
    ensures { result ≡ command_for x }
{
    let bits = x >> 33;
    let name = VmoName((bits / 8 % 16) as u32);
    let parent = VmoName((bits / 128 % 16) as u32);
    let offset = bits / 2048 % 64 * PAGE;
    let byte = (bits / 131_072 % 256) as u8;
    match bits % 8 {
        0 => Call::VmoCreate {
            name,
            size: BYTES,
            resizable: true,
        },
        1 => Call::VmoChild {
            name,
            parent,
            kind: ChildKind::Snapshot,
            offset: 0,
            size: BYTES,
            resizable: false,
            no_write: false,
        },
        2 => Call::VmoClose { name },
        3 | 4 => Call::VmoFill {
            name,
            offset,
            len: 100,
            byte,
        },
        5 => Call::VmoFill {
            name,
            offset,
            len: 2 * PAGE,
            byte,
        },
        6 => Call::VmoZero {
            name,
            offset,
            len: PAGE,
        },
        _ => Call::VmoRead {
            name,
            offset,
            len: 16,
        },
    }
}
