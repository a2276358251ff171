//! Making a root region, which is a new address space.

ghost use Rattle.std.specs.Prelude.{◌≡◌};
ghost use Rattle.vm_model.specs.declared.reply.Reply.TheVariants as Reply;
ghost use Rattle.vm_model.specs.declared.command.Command.TheVariants as Command;
ghost use Rattle.vm_model.specs.Machine.State.{State};
ghost use Rattle.vm_model.specs.Machine.Step.{Step, reply_of};
ghost use Rattle.mapping_set.specs.Tables.{table_of, places_of};
ghost use Rattle.region_tree.specs.Tree.{regions_of, spaces_of, AreNoted};
ghost use Rattle.region_ops.specs.Spaces.{with_spaces};

use mapping_set::MappingSet;
use region_tree::Regions;
use vm_base::{Refusal, RegionName};

/// Makes an address space with its root region (the kernel makes one with each process). The live children of each
/// region stay noted. Refusals, which change nothing: `NameInUse` if the name was ever given, and then `HostMemory`.
pub fn create_root(
    regions: &mut Regions,
    maps: &MappingSet,
    name: RegionName,
) -> Result<(), Refusal>
    requires { AreNoted (regions_of regions.old) (places_of maps.now) }
    ensures step { (s : State) → Step (with_spaces s (spaces_of (regions_of regions.old) (table_of maps.now)))
        (Command.RootCreate name) (reply_of (λ done. Reply.Done) result)
        (with_spaces s (spaces_of (regions_of regions.new) (table_of maps.now))) }
    ensures noted { AreNoted (regions_of regions.new) (places_of maps.now) }
{
    if regions.get(name).is_some() {
        return Err(Refusal::NameInUse);
    }
    match regions.add_root(name) {
        Ok(()) => Ok(()),
        Err(_) => Err(Refusal::HostMemory),
    }
}
