//! The commands of VMOs, from their arguments. A call that borrows nothing lives as long as its caller wants, so no
//! caller has to shorten its life.

ghost use Rattle.std.specs.Prelude.{◌≡◌, ◌≤◌, length, map};
ghost use Rattle.vm_model.specs.Language.Reading.{named, ranged, pin, vmo, vmo_create, vmo_create_child, vmo_set_size};
ghost use Rattle.vm_model.specs.Language.Reading.{vmo_write, vmo_fill, vmo_pin};
ghost use Rattle.vm_model.specs.declared.command.Command.TheVariants.{VmoClose, VmoSize, VmoRead, VmoCommit};
ghost use Rattle.vm_model.specs.declared.command.Command.TheVariants.{VmoDecommit, VmoZero, VmoUnpin, VmoInfo};
ghost use Rattle.script_text.specs.inside.Shapes.{one_vmo, vmo_range};

use crate::field_groups::{child, range, range_of_vmo, vmo_and_number};
use crate::fields::{byte, byte_data_into, pin, vmo};
use crate::flags::{are_flags, stands};
use vm_base::{DATA_BYTES, VmoName};
use vm_model::Call;

/// Returns the one argument of a command of a VMO.
fn one_vmo(arguments: &[&[u8]]) -> Option<VmoName>
    ensures { result ≡ one_vmo (map (λ a. a.now) arguments.now) }
{
    let [name] = arguments else {
        return None;
    };
    vmo(name)
}

/// Returns the arguments of a command of a range of a VMO: its name, the offset and the length.
#[inline(always)]
fn vmo_range(arguments: &[&[u8]]) -> Option<(VmoName, u64, u64)>
    ensures { result ≡ vmo_range (map (λ a. a.now) arguments.now) }
{
    let [name, offset, len] = arguments else {
        return None;
    };
    range_of_vmo(name, offset, len)
}

/// Reads the arguments of `vmo_create VMO SIZE [resizable]`.
pub fn vmo_create<'a>(arguments: &[&[u8]]) -> Option<Call<'a>>
    ensures { result ≡ vmo_create (map (λ a. a.now) arguments.now) }
{
    let [name, size, flags @ ..] = arguments else {
        return None;
    };
    let (name, size) = vmo_and_number(name, size)?;
    if !are_flags(&[b"resizable".as_slice()], flags) {
        return None;
    }
    Some(Call::VmoCreate {
        name,
        size,
        resizable: stands(b"resizable", flags),
    })
}

/// Reads the arguments of `vmo_create_child VMO PARENT KIND OFFSET SIZE [resizable] [no_write]`.
pub fn vmo_create_child<'a>(arguments: &[&[u8]]) -> Option<Call<'a>>
    ensures { result ≡ vmo_create_child (map (λ a. a.now) arguments.now) }
{
    let [name, parent, kind, offset, size, flags @ ..] = arguments else {
        return None;
    };
    let (name, parent, kind) = child(name, parent, kind)?;
    let (offset, size) = range(offset, size)?;
    if !are_flags(&[b"resizable".as_slice(), b"no_write".as_slice()], flags) {
        return None;
    }
    Some(Call::VmoChild {
        name,
        parent,
        kind,
        offset,
        size,
        resizable: stands(b"resizable", flags),
        no_write: stands(b"no_write", flags),
    })
}

/// Reads the arguments of `vmo_close VMO`.
#[tactic(auto, using(crate::proofs::ShapeLaws::vmo_by_one))]
pub fn vmo_close<'a>(arguments: &[&[u8]]) -> Option<Call<'a>>
    ensures { result ≡ named vmo VmoClose (map (λ a. a.now) arguments.now) }
{
    let name = one_vmo(arguments)?;
    Some(Call::VmoClose { name })
}

/// Reads the arguments of `vmo_size VMO`.
#[tactic(auto, using(crate::proofs::ShapeLaws::vmo_by_one))]
pub fn vmo_size<'a>(arguments: &[&[u8]]) -> Option<Call<'a>>
    ensures { result ≡ named vmo VmoSize (map (λ a. a.now) arguments.now) }
{
    let name = one_vmo(arguments)?;
    Some(Call::VmoSize { name })
}

/// Reads the arguments of `vmo_set_size VMO SIZE`.
pub fn vmo_set_size<'a>(arguments: &[&[u8]]) -> Option<Call<'a>>
    ensures { result ≡ vmo_set_size (map (λ a. a.now) arguments.now) }
{
    let [name, size] = arguments else {
        return None;
    };
    let (name, size) = vmo_and_number(name, size)?;
    Some(Call::VmoSetSize { name, size })
}

/// Reads the arguments of `vmo_read VMO OFFSET LEN`.
#[inline(always)]
#[tactic(auto, using(crate::proofs::ShapeLaws::vmo_range_by_range))]
pub fn vmo_read<'a>(arguments: &[&[u8]]) -> Option<Call<'a>>
    ensures { result ≡ ranged vmo VmoRead (map (λ a. a.now) arguments.now) }
{
    let (name, offset, len) = vmo_range(arguments)?;
    Some(Call::VmoRead { name, offset, len })
}

/// Reads the arguments of `vmo_write VMO OFFSET DATA`.
pub fn vmo_write<'a>(arguments: &[&[u8]], room: &'a mut [u8]) -> Option<Call<'a>>
    requires { DATA_BYTES ≤ length room.old }
    ensures { result ≡ vmo_write (map (λ a. a.now) arguments.now) }
{
    let [name, offset, data] = arguments else {
        return None;
    };
    let (name, offset) = vmo_and_number(name, offset)?;
    let bytes = byte_data_into(data, room)?;
    Some(Call::VmoWrite {
        name,
        offset,
        bytes,
    })
}

/// Reads the arguments of `vmo_fill VMO OFFSET LEN BYTE`.
pub fn vmo_fill<'a>(arguments: &[&[u8]]) -> Option<Call<'a>>
    ensures { result ≡ vmo_fill (map (λ a. a.now) arguments.now) }
{
    let [name, offset, len, value] = arguments else {
        return None;
    };
    let (name, offset, len) = range_of_vmo(name, offset, len)?;
    let byte = byte(value)?;
    Some(Call::VmoFill {
        name,
        offset,
        len,
        byte,
    })
}

/// Reads the arguments of `vmo_commit VMO OFFSET LEN`.
#[tactic(auto, using(crate::proofs::ShapeLaws::vmo_range_by_range))]
pub fn vmo_commit<'a>(arguments: &[&[u8]]) -> Option<Call<'a>>
    ensures { result ≡ ranged vmo VmoCommit (map (λ a. a.now) arguments.now) }
{
    let (name, offset, len) = vmo_range(arguments)?;
    Some(Call::VmoCommit { name, offset, len })
}

/// Reads the arguments of `vmo_decommit VMO OFFSET LEN`.
#[tactic(auto, using(crate::proofs::ShapeLaws::vmo_range_by_range))]
pub fn vmo_decommit<'a>(arguments: &[&[u8]]) -> Option<Call<'a>>
    ensures { result ≡ ranged vmo VmoDecommit (map (λ a. a.now) arguments.now) }
{
    let (name, offset, len) = vmo_range(arguments)?;
    Some(Call::VmoDecommit { name, offset, len })
}

/// Reads the arguments of `vmo_zero VMO OFFSET LEN`.
#[tactic(auto, using(crate::proofs::ShapeLaws::vmo_range_by_range))]
pub fn vmo_zero<'a>(arguments: &[&[u8]]) -> Option<Call<'a>>
    ensures { result ≡ ranged vmo VmoZero (map (λ a. a.now) arguments.now) }
{
    let (name, offset, len) = vmo_range(arguments)?;
    Some(Call::VmoZero { name, offset, len })
}

/// Reads the arguments of `vmo_pin PIN VMO OFFSET LEN`.
pub fn vmo_pin<'a>(arguments: &[&[u8]]) -> Option<Call<'a>>
    ensures { result ≡ vmo_pin (map (λ a. a.now) arguments.now) }
{
    let [token, name, offset, len] = arguments else {
        return None;
    };
    let pin = pin(token)?;
    let (name, offset, len) = range_of_vmo(name, offset, len)?;
    Some(Call::VmoPin {
        pin,
        name,
        offset,
        len,
    })
}

/// Reads the arguments of `vmo_unpin PIN`.
pub fn vmo_unpin<'a>(arguments: &[&[u8]]) -> Option<Call<'a>>
    ensures { result ≡ named pin VmoUnpin (map (λ a. a.now) arguments.now) }
{
    let [token] = arguments else {
        return None;
    };
    Some(Call::VmoUnpin { pin: pin(token)? })
}

/// Reads the arguments of `vmo_info VMO`.
#[tactic(auto, using(crate::proofs::ShapeLaws::vmo_by_one))]
pub fn vmo_info<'a>(arguments: &[&[u8]]) -> Option<Call<'a>>
    ensures { result ≡ named vmo VmoInfo (map (λ a. a.now) arguments.now) }
{
    let name = one_vmo(arguments)?;
    Some(Call::VmoInfo { name })
}
