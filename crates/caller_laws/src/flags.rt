//! Rights and map options.

ghost use Rattle.std.specs.Prelude.{◌≡◌, Some};
ghost use Rattle.std.specs.Option.{option_map};
ghost use Rattle.vm_base.specs.declared.flags.Perm.{Perm};

use bitflags::Flags;
use vm_base::{MapFlags, Perm};

/// States that the bits of reading, writing and executing are 1, 2 and 4.
pub fn rights_have_their_bits() -> (u32, u32, u32)
    ensures { result ≡ (1, 2, 4) }
{
    (Perm::READ.0, Perm::WRITE.0, Perm::EXECUTE.0)
}

/// States that the bits of the four options of `map`, in the order in which they are declared, are 1, 2, 4 and 8.
pub fn map_options_have_their_bits() -> (u32, u32, u32, u32)
    ensures { result ≡ (1, 2, 4, 8) }
{
    (
        MapFlags::SPECIFIC.0,
        MapFlags::OVERWRITE.0,
        MapFlags::UPPER_LIMIT.0,
        MapFlags::ALLOW_FAULTS.0,
    )
}

/// States that a right is found by its name.
#[tactic(auto, unfolding(bitflags::specs::Sets::find_row))]
pub fn a_right_is_found_by_its_name() -> Option<Perm>
    ensures { option_map (λ (perm : Perm). perm.0) result ≡ Some 2 }
{
    Perm::from_name("WRITE")
}
