//! The commands of address regions and of the whole machine, from their arguments. A call that borrows nothing lives as
//! long as its caller wants, so no caller has to shorten its life.

ghost use Rattle.std.specs.Prelude.{◌≡◌, ◌≤◌, length, map};
ghost use Rattle.vm_model.specs.Language.Reading.{are_flags, end, named, ranged, region, vmar_allocate, vmar_map};
ghost use Rattle.vm_model.specs.Language.Reading.{vmar_protect, mem_write};
ghost use Rattle.vm_model.specs.declared.command.Command.TheVariants.{RootCreate, VmarUnmap, VmarDestroy, Maps};
ghost use Rattle.vm_model.specs.declared.command.Command.TheVariants.{MemRead, Stat};
ghost use Rattle.script_text.specs.inside.Shapes.{map_flag_words, map_flags, one_region, region_caps, region_flag_words};
ghost use Rattle.script_text.specs.inside.Shapes.{region_flags, region_range};

use crate::field_groups::{range_of_region, range_of_vmo, region_and_number};
use crate::fields::{byte_data_into, perm, region};
use crate::flags::{are_flags, bit, stands};
use vm_base::{DATA_BYTES, MapFlags, Perm, RegionName};
use vm_model::Call;

/// Returns the one argument of a command of a region.
fn one_region(arguments: &[&[u8]]) -> Option<RegionName>
    ensures { result ≡ one_region (map (λ a. a.now) arguments.now) }
{
    let [name] = arguments else {
        return None;
    };
    region(name)
}

/// Returns the arguments of a command of a range of a region: its name, the address and the length.
fn region_range(arguments: &[&[u8]]) -> Option<(RegionName, u64, u64)>
    ensures { result ≡ region_range (map (λ a. a.now) arguments.now) }
{
    let [name, addr, len] = arguments else {
        return None;
    };
    range_of_region(name, addr, len)
}

/// Reads the arguments of `root_create REGION`.
#[tactic(auto, using(crate::proofs::ShapeLaws::region_by_one))]
pub fn root_create<'a>(arguments: &[&[u8]]) -> Option<Call<'a>>
    ensures { result ≡ named region RootCreate (map (λ a. a.now) arguments.now) }
{
    let region = one_region(arguments)?;
    Some(Call::RootCreate { region })
}

/// Reads the arguments of `vmar_allocate REGION PARENT OFFSET LEN [specific] [upper_limit] [can_read] [can_write]
/// [can_execute]`.
pub fn vmar_allocate<'a>(arguments: &[&[u8]]) -> Option<Call<'a>>
    ensures { result ≡ vmar_allocate (map (λ a. a.now) arguments.now) }
{
    let [name, parent, offset, len, flags @ ..] = arguments else {
        return None;
    };
    let name = region(name)?;
    let (parent, offset, len) = range_of_region(parent, offset, len)?;
    if !are_region_flags(flags) {
        return None;
    }
    Some(Call::VmarAllocate {
        region: name,
        parent,
        offset,
        len,
        flags: region_flags(flags),
        caps: region_caps(flags),
    })
}

/// Reports whether the words are flags of a region, and none of them stands twice.
fn are_region_flags(flags: &[&[u8]]) -> bool
    ensures { result ≡ are_flags region_flag_words (map (λ a. a.now) flags.now) }
{
    let known = [
        b"specific".as_slice(),
        b"upper_limit",
        b"can_read",
        b"can_write",
        b"can_execute",
    ];
    are_flags(&known, flags)
}

/// Returns how a region is placed.
fn region_flags(flags: &[&[u8]]) -> MapFlags
    ensures { result ≡ region_flags (map (λ a. a.now) flags.now) }
{
    MapFlags(
        bit(stands(b"specific", flags), MapFlags::SPECIFIC.0)
            + bit(stands(b"upper_limit", flags), MapFlags::UPPER_LIMIT.0),
    )
}

/// Returns what a region allows.
fn region_caps(flags: &[&[u8]]) -> Perm
    ensures { result ≡ region_caps (map (λ a. a.now) flags.now) }
{
    Perm(
        bit(stands(b"can_read", flags), Perm::READ.0)
            + bit(stands(b"can_write", flags), Perm::WRITE.0)
            + bit(stands(b"can_execute", flags), Perm::EXECUTE.0),
    )
}

/// Reads the arguments of `vmar_map REGION OFFSET VMO VMO_OFFSET LEN PERM [specific] [specific_overwrite] [upper_limit]
/// [allow_faults]`.
pub fn vmar_map<'a>(arguments: &[&[u8]]) -> Option<Call<'a>>
    ensures { result ≡ vmar_map (map (λ a. a.now) arguments.now) }
{
    let [name, offset, source, vmo_offset, len, allowed, flags @ ..] = arguments else {
        return None;
    };
    let (name, offset) = region_and_number(name, offset)?;
    let (source, vmo_offset, len) = range_of_vmo(source, vmo_offset, len)?;
    let allowed = perm(allowed)?;
    if !are_map_flags(flags) {
        return None;
    }
    Some(Call::VmarMap {
        region: name,
        offset,
        name: source,
        vmo_offset,
        len,
        perm: allowed,
        flags: map_flags(flags),
    })
}

/// Reports whether the words are flags of a mapping, and none of them stands twice.
fn are_map_flags(flags: &[&[u8]]) -> bool
    ensures { result ≡ are_flags map_flag_words (map (λ a. a.now) flags.now) }
{
    let known = [
        b"specific".as_slice(),
        b"specific_overwrite",
        b"upper_limit",
        b"allow_faults",
    ];
    are_flags(&known, flags)
}

/// Returns how a mapping is placed.
fn map_flags(flags: &[&[u8]]) -> MapFlags
    ensures { result ≡ map_flags (map (λ a. a.now) flags.now) }
{
    MapFlags(
        bit(stands(b"specific", flags), MapFlags::SPECIFIC.0)
            + bit(stands(b"specific_overwrite", flags), MapFlags::OVERWRITE.0)
            + bit(stands(b"upper_limit", flags), MapFlags::UPPER_LIMIT.0)
            + bit(stands(b"allow_faults", flags), MapFlags::ALLOW_FAULTS.0),
    )
}

/// Reads the arguments of `vmar_unmap REGION ADDR LEN`.
#[tactic(auto, using(crate::proofs::ShapeLaws::region_range_by_range))]
pub fn vmar_unmap<'a>(arguments: &[&[u8]]) -> Option<Call<'a>>
    ensures { result ≡ ranged region VmarUnmap (map (λ a. a.now) arguments.now) }
{
    let (region, addr, len) = region_range(arguments)?;
    Some(Call::VmarUnmap { region, addr, len })
}

/// Reads the arguments of `vmar_protect REGION ADDR LEN PERM`.
pub fn vmar_protect<'a>(arguments: &[&[u8]]) -> Option<Call<'a>>
    ensures { result ≡ vmar_protect (map (λ a. a.now) arguments.now) }
{
    let [name, addr, len, allowed] = arguments else {
        return None;
    };
    let (region, addr, len) = range_of_region(name, addr, len)?;
    let perm = perm(allowed)?;
    Some(Call::VmarProtect {
        region,
        addr,
        len,
        perm,
    })
}

/// Reads the arguments of `vmar_destroy REGION`.
#[tactic(auto, using(crate::proofs::ShapeLaws::region_by_one))]
pub fn vmar_destroy<'a>(arguments: &[&[u8]]) -> Option<Call<'a>>
    ensures { result ≡ named region VmarDestroy (map (λ a. a.now) arguments.now) }
{
    let region = one_region(arguments)?;
    Some(Call::VmarDestroy { region })
}

/// Reads the arguments of `maps REGION`.
#[tactic(auto, using(crate::proofs::ShapeLaws::region_by_one))]
pub fn maps<'a>(arguments: &[&[u8]]) -> Option<Call<'a>>
    ensures { result ≡ named region Maps (map (λ a. a.now) arguments.now) }
{
    let region = one_region(arguments)?;
    Some(Call::Maps { region })
}

/// Reads the arguments of `mem_read REGION ADDR LEN`.
#[tactic(auto, using(crate::proofs::ShapeLaws::region_range_by_range))]
pub fn mem_read<'a>(arguments: &[&[u8]]) -> Option<Call<'a>>
    ensures { result ≡ ranged region MemRead (map (λ a. a.now) arguments.now) }
{
    let (region, addr, len) = region_range(arguments)?;
    Some(Call::MemRead { region, addr, len })
}

/// Reads the arguments of `mem_write REGION ADDR DATA`.
pub fn mem_write<'a>(arguments: &[&[u8]], room: &'a mut [u8]) -> Option<Call<'a>>
    requires { DATA_BYTES ≤ length room.old }
    ensures { result ≡ mem_write (map (λ a. a.now) arguments.now) }
{
    let [name, addr, data] = arguments else {
        return None;
    };
    let (region, addr) = region_and_number(name, addr)?;
    let bytes = byte_data_into(data, room)?;
    Some(Call::MemWrite {
        region,
        addr,
        bytes,
    })
}

/// Reads the arguments of `stat`.
pub fn stat<'a>(arguments: &[&[u8]]) -> Option<Call<'a>>
    ensures { result ≡ end Stat (map (λ a. a.now) arguments.now) }
{
    if !arguments.is_empty() {
        return None;
    }
    Some(Call::Stat)
}
