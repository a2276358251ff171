//! What commands ask for, as values.

ghost use Rattle.std.specs.Prelude.{◌≡◌};
ghost use Rattle.machine.specs.Groups.{group_of};
ghost use Rattle.machine.specs.Requests.{command_by};
ghost use Rattle.machine.specs.declared.groups.Group.{Group};

use region_ops::{AllocateRequest, MapRequest, RegionRange};
use vm_base::{Perm, PinName, RegionName, VmoName};
use vm_model::{Call, ChildKind};
use vmo_ops::{ChildShape, NameRange};

/// The child that `vmo_create_child` is to make, but for its name.
#[derive(Clone, Copy)]
pub struct ChildRequest {
    pub parent: VmoName,
    pub kind: ChildKind,
    pub shape: ChildShape,
}

/// The pin that `vmo_pin` is to make.
#[derive(Clone, Copy)]
pub struct PinRequest {
    pub pin: PinName,
    pub range: NameRange,
}

/// A command on a region, or on the mappings in one, and what it asks for.
#[derive(Clone, Copy)]
pub enum RegionCommand {
    Create(RegionName),
    Allocate(RegionName, AllocateRequest),
    Map(MapRequest<VmoName>),
    Unmap(RegionRange),
    Protect(RegionRange, Perm),
    Destroy(RegionName),
    /// The mappings in the region are listed.
    List(RegionName),
}

/// Returns what a call of the group of regions asks for.
#[inline(always)]
pub fn region_command(call: &Call<'_>) -> RegionCommand
    requires { group_of call.now ≡ Group.Region }
    ensures { command_by result ≡ call.now }
{
    match call {
        Call::RootCreate { region } => RegionCommand::Create(*region),
        Call::VmarAllocate {
            region,
            parent,
            offset,
            len,
            flags,
            caps,
        } => {
            let request = AllocateRequest {
                parent: *parent,
                offset: *offset,
                len: *len,
                flags: *flags,
                caps: *caps,
            };
            RegionCommand::Allocate(*region, request)
        }
        Call::VmarMap {
            region,
            offset,
            name,
            vmo_offset,
            len,
            perm,
            flags,
        } => RegionCommand::Map(MapRequest {
            region: *region,
            offset: *offset,
            mapped: *name,
            vmo_offset: *vmo_offset,
            len: *len,
            perm: *perm,
            flags: *flags,
        }),
        Call::VmarUnmap { region, addr, len } => RegionCommand::Unmap(RegionRange {
            region: *region,
            addr: *addr,
            len: *len,
        }),
        Call::VmarProtect {
            region,
            addr,
            len,
            perm,
        } => {
            let range = RegionRange {
                region: *region,
                addr: *addr,
                len: *len,
            };
            RegionCommand::Protect(range, *perm)
        }
        Call::VmarDestroy { region } => RegionCommand::Destroy(*region),
        Call::Maps { region } => RegionCommand::List(*region),
        _ => unreachable!(),
    }
}
