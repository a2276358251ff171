//! Byte data.

ghost use Rattle.std.specs.Prelude.{◌≡◌, ◌∷◌, []};

use vm_model::Bytes4k;

/// States that a byte is put behind those that are there.
pub fn a_byte_comes_behind_the_others(bytes: &mut Bytes4k) -> bool
    requires { bytes.old ≡ 7 ∷ [] }
    ensures { bytes.new ≡ 7 ∷ 255 ∷ [] }
{
    bytes.push(255)
}
