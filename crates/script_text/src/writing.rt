//! How a command is spelled: its one canonical line.

ghost use Rattle.std.specs.Prelude.{◌≡◌, ◌+◌, ◌<◌, ◌≤◌, true, [], ◌∷◌, ◌++◌, length, take, drop, slice_get};
ghost use Rattle.vm_model.specs.Language.Reading.{reading, Order};
ghost use Rattle.vm_model.specs.Language.Spelling.{HasRanges, command_words, has_spelling, spelling};
ghost use Rattle.script_text.specs.inside.Spaced.{spaced};

use crate::parts::ARGUMENT_BYTES;
use crate::region_arguments::{put_mapping_arguments, put_region_arguments};
use crate::vmo_arguments::{put_page_arguments, put_vmo_arguments};
use vm_base::{TEXT_BYTES, TEXT_ROOM};
use vm_model::Command;
use word_text::put;

/// Writes the canonical spelling of a command, with its line feed, to the front of `out`, and answers its length in
/// bytes. No clause speaks of the rest of `out`. The command is one that some line spells.
pub fn write_command(command: &Command, out: &mut [u8]) -> usize
    requires spelled { has_spelling command.now ≡ true }
    requires room { TEXT_ROOM ≤ length out.old }
    ensures line { take result out.new ≡ spelling command.now ++ 10 ∷ [] }
    ensures short { result < TEXT_BYTES }
    ensures read_back { reading (spelling command.now) ≡ Order command.now }
{
    let at = put(command_word(command), out, 0);
    let end = put_arguments(command, out, at);
    put(b"\n", out, end)
}

/// Returns the word of a command.
#[tactic(auto, unfolding(vm_model::specs::Language::Spelling::command_words))]
fn command_word(command: &Command) -> &'static [u8]
    ensures word { slice_get (command_words command.now) 0 ≡ Some result.now }
    ensures short { length result.now ≤ 20 }
{
    match command {
        Command::VmoCreate { .. } => b"vmo_create",
        Command::VmoChild { .. } => b"vmo_create_child",
        Command::VmoClose { .. } => b"vmo_close",
        Command::VmoSize { .. } => b"vmo_size",
        Command::VmoSetSize { .. } => b"vmo_set_size",
        Command::VmoRead { .. } => b"vmo_read",
        Command::VmoWrite { .. } => b"vmo_write",
        Command::VmoFill { .. } => b"vmo_fill",
        Command::VmoCommit { .. } => b"vmo_commit",
        Command::VmoDecommit { .. } => b"vmo_decommit",
        Command::VmoZero { .. } => b"vmo_zero",
        Command::VmoPin { .. } => b"vmo_pin",
        Command::VmoUnpin { .. } => b"vmo_unpin",
        Command::VmoInfo { .. } => b"vmo_info",
        Command::RootCreate { .. } => b"root_create",
        Command::VmarAllocate { .. } => b"vmar_allocate",
        Command::VmarMap { .. } => b"vmar_map",
        Command::VmarUnmap { .. } => b"vmar_unmap",
        Command::VmarProtect { .. } => b"vmar_protect",
        Command::VmarDestroy { .. } => b"vmar_destroy",
        Command::Maps { .. } => b"maps",
        Command::MemRead { .. } => b"mem_read",
        Command::MemWrite { .. } => b"mem_write",
        Command::Stat => b"stat",
    }
}

/// Writes the arguments of a command.
#[tactic(auto, unfolding(vm_model::specs::Language::Spelling::command_words))]
fn put_arguments(command: &Command, out: &mut [u8], at: usize) -> usize
    requires { at + ARGUMENT_BYTES ≤ length out.old }
    ensures written { take result out.new ≡ take at out.old ++ spaced (drop 1 (command_words command.now)) }
    ensures end { result ≤ at + ARGUMENT_BYTES }
    ensures ranges { HasRanges command.now }
{
    match command {
        Command::VmoCreate { .. }
        | Command::VmoChild { .. }
        | Command::VmoClose { .. }
        | Command::VmoSize { .. }
        | Command::VmoSetSize { .. }
        | Command::VmoInfo { .. } => put_vmo_arguments(command, out, at),
        Command::VmoRead { .. }
        | Command::VmoWrite { .. }
        | Command::VmoFill { .. }
        | Command::VmoCommit { .. }
        | Command::VmoDecommit { .. }
        | Command::VmoZero { .. }
        | Command::VmoPin { .. }
        | Command::VmoUnpin { .. } => put_page_arguments(command, out, at),
        Command::RootCreate { .. }
        | Command::VmarAllocate { .. }
        | Command::VmarDestroy { .. }
        | Command::Maps { .. } => put_region_arguments(command, out, at),
        Command::VmarMap { .. }
        | Command::VmarUnmap { .. }
        | Command::VmarProtect { .. }
        | Command::MemRead { .. }
        | Command::MemWrite { .. } => put_mapping_arguments(command, out, at),
        Command::Stat => at,
    }
}
