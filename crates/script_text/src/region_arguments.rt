//! How the arguments of the commands of address regions are written.

ghost use Rattle.std.specs.Prelude.{◌≡◌, ◌+◌, ◌≤◌, [], ◌∷◌, ◌++◌, length, take, drop, codes, decimal};
ghost use Rattle.vm_model.specs.Language.Spelling.{Has32, Has64, HasRanges, command_words, region_word, set_flags};
ghost use Rattle.vm_model.specs.Space.Rights.{has};
ghost use Rattle.script_text.specs.inside.Subjects.{subject_of, OfMappings, OfRegion};
ghost use Rattle.script_text.specs.inside.Spaced.{spaced};

use crate::parts::{ARGUMENT_BYTES, put_flag, put_range, put_region};
use crate::vmo_arguments::put_vmo_range;
use bitflags::Flags;
use vm_base::{MapFlags, Perm, RegionName};
use vm_model::Command;
use word_text::{put_data, put_number, put_perm};

/// Writes the arguments of a command of a region as a whole.
#[tactic(auto, unfolding(vm_model::specs::Language::Spelling::command_words))]
pub fn put_region_arguments(command: &Command, out: &mut [u8], at: usize) -> usize
    requires subject { subject_of command.now ≡ OfRegion }
    requires room { at + ARGUMENT_BYTES ≤ length out.old }
    ensures written { take result out.new ≡ take at out.old ++ spaced (drop 1 (command_words command.now)) }
    ensures end { result ≤ at + ARGUMENT_BYTES }
    ensures ranges { HasRanges command.now }
{
    match command {
        Command::RootCreate { region }
        | Command::VmarDestroy { region }
        | Command::Maps { region } => put_region(*region, out, at),
        Command::VmarAllocate {
            region,
            parent,
            offset,
            len,
            flags,
            caps,
        } => {
            let at = put_region(*region, out, at);
            let at = put_region_range(*parent, *offset, *len, out, at);
            put_region_flags(*flags, *caps, out, at)
        }
        _ => unreachable!(),
    }
}

/// Writes the arguments of a command of the mappings in a region.
#[tactic(auto, unfolding(vm_model::specs::Language::Spelling::command_words))]
pub fn put_mapping_arguments(command: &Command, out: &mut [u8], at: usize) -> usize
    requires subject { subject_of command.now ≡ OfMappings }
    requires room { at + ARGUMENT_BYTES ≤ length out.old }
    ensures written { take result out.new ≡ take at out.old ++ spaced (drop 1 (command_words command.now)) }
    ensures end { result ≤ at + ARGUMENT_BYTES }
    ensures ranges { HasRanges command.now }
{
    match command {
        Command::VmarMap {
            region,
            offset,
            name,
            vmo_offset,
            len,
            perm,
            flags,
        } => {
            let at = put_region_number(*region, *offset, out, at);
            let at = put_vmo_range(*name, *vmo_offset, *len, out, at);
            let at = put_perm(*perm, out, at);
            put_map_flags(*flags, out, at)
        }
        Command::VmarProtect {
            region,
            addr,
            len,
            perm,
        } => {
            let at = put_region_range(*region, *addr, *len, out, at);
            put_perm(*perm, out, at)
        }
        Command::VmarUnmap { region, addr, len } | Command::MemRead { region, addr, len } =>
            put_region_range(*region, *addr, *len, out, at),
        Command::MemWrite {
            region,
            addr,
            bytes,
        } => {
            let at = put_region_number(*region, *addr, out, at);
            put_data(bytes.as_slice(), out, at)
        }
        _ => unreachable!(),
    }
}

/// Writes a region and a number.
fn put_region_number(name: RegionName, number: u64, out: &mut [u8], at: usize) -> usize
    requires { at + 43 ≤ length out.old }
    ensures written { take result out.new ≡ take at out.old ++ spaced (region_word name ∷ decimal number ∷ []) }
    ensures end { result ≤ at + 43 }
    ensures range { Has32 name.0 × Has64 number }
{
    let at = put_region(name, out, at);
    put_number(number, out, at)
}

/// Writes a region and a range of it.
fn put_region_range(name: RegionName, start: u64, len: u64, out: &mut [u8], at: usize) -> usize
    requires { at + 64 ≤ length out.old }
    ensures written { take result out.new
        ≡ take at out.old ++ spaced (region_word name ∷ decimal start ∷ decimal len ∷ []) }
    ensures end { result ≤ at + 64 }
    ensures range { Has32 name.0 × Has64 start × Has64 len }
{
    let at = put_region(name, out, at);
    put_range(start, len, out, at)
}

/// Writes the flags that a region is made with: how it is placed, and what its mappings may allow.
fn put_region_flags(flags: MapFlags, caps: Perm, out: &mut [u8], at: usize) -> usize
    requires { at + 60 ≤ length out.old }
    ensures written { take result out.new ≡ take at out.old
        ++ spaced (set_flags ((codes "specific", has flags.0 1) ∷ (codes "upper_limit", has flags.0 4)
        ∷ (codes "can_read", has caps.0 1) ∷ (codes "can_write", has caps.0 2)
        ∷ (codes "can_execute", has caps.0 4) ∷ [])) }
    ensures end { result ≤ at + 60 }
    ensures range { Has32 flags.0 × Has32 caps.0 }
{
    let at = put_flag(b"specific", flags.contains(MapFlags::SPECIFIC), out, at);
    let at = put_flag(
        b"upper_limit",
        flags.contains(MapFlags::UPPER_LIMIT),
        out,
        at,
    );
    let at = put_flag(b"can_read", caps.contains(Perm::READ), out, at);
    let at = put_flag(b"can_write", caps.contains(Perm::WRITE), out, at);
    put_flag(b"can_execute", caps.contains(Perm::EXECUTE), out, at)
}

/// Writes the flags that a mapping is made with.
fn put_map_flags(flags: MapFlags, out: &mut [u8], at: usize) -> usize
    requires { at + 60 ≤ length out.old }
    ensures written { take result out.new ≡ take at out.old
        ++ spaced (set_flags ((codes "specific", has flags.0 1) ∷ (codes "specific_overwrite", has flags.0 2)
        ∷ (codes "upper_limit", has flags.0 4) ∷ (codes "allow_faults", has flags.0 8) ∷ [])) }
    ensures end { result ≤ at + 60 }
    ensures range { Has32 flags.0 }
{
    let at = put_flag(b"specific", flags.contains(MapFlags::SPECIFIC), out, at);
    let at = put_flag(
        b"specific_overwrite",
        flags.contains(MapFlags::OVERWRITE),
        out,
        at,
    );
    let at = put_flag(
        b"upper_limit",
        flags.contains(MapFlags::UPPER_LIMIT),
        out,
        at,
    );
    put_flag(
        b"allow_faults",
        flags.contains(MapFlags::ALLOW_FAULTS),
        out,
        at,
    )
}
