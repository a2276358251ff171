//! How the arguments of the commands of VMOs are written.

ghost use Rattle.std.specs.Prelude.{◌≡◌, ◌+◌, ◌≤◌, [], ◌∷◌, ◌++◌, length, take, drop, codes, decimal};
ghost use Rattle.vm_model.specs.Language.Spelling.{Has32, Has64, HasRanges, command_words, kind_word, set_flags};
ghost use Rattle.vm_model.specs.Language.Spelling.{vmo_word};
ghost use Rattle.script_text.specs.inside.Subjects.{subject_of, OfPages, OfVmo};
ghost use Rattle.script_text.specs.inside.Spaced.{spaced};

use crate::parts::{ARGUMENT_BYTES, put_byte, put_flag, put_kind, put_pin, put_range, put_vmo};
use vm_base::VmoName;
use vm_model::{ChildKind, Command};
use word_text::{put_data, put_number};

/// Writes the arguments of a command of a VMO as a whole.
#[tactic(auto, unfolding(vm_model::specs::Language::Spelling::command_words))]
pub fn put_vmo_arguments(command: &Command, out: &mut [u8], at: usize) -> usize
    requires subject { subject_of command.now ≡ OfVmo }
    requires room { at + ARGUMENT_BYTES ≤ length out.old }
    ensures written { take result out.new ≡ take at out.old ++ spaced (drop 1 (command_words command.now)) }
    ensures end { result ≤ at + ARGUMENT_BYTES }
    ensures ranges { HasRanges command.now }
{
    match command {
        Command::VmoCreate {
            name,
            size,
            resizable,
        } => {
            let at = put_vmo_number(*name, *size, out, at);
            put_flag(b"resizable", *resizable, out, at)
        }
        Command::VmoChild {
            name,
            parent,
            kind,
            offset,
            size,
            resizable,
            no_write,
        } => {
            let at = put_child(*name, *parent, *kind, out, at);
            let at = put_range(*offset, *size, out, at);
            put_child_flags(*resizable, *no_write, out, at)
        }
        Command::VmoSetSize { name, size } => put_vmo_number(*name, *size, out, at),
        Command::VmoClose { name } | Command::VmoSize { name } | Command::VmoInfo { name } =>
            put_vmo(*name, out, at),
        _ => unreachable!(),
    }
}

/// Writes the arguments of a command of pages of a VMO.
#[tactic(auto, unfolding(vm_model::specs::Language::Spelling::command_words))]
pub fn put_page_arguments(command: &Command, out: &mut [u8], at: usize) -> usize
    requires subject { subject_of command.now ≡ OfPages }
    requires room { at + ARGUMENT_BYTES ≤ length out.old }
    ensures written { take result out.new ≡ take at out.old ++ spaced (drop 1 (command_words command.now)) }
    ensures end { result ≤ at + ARGUMENT_BYTES }
    ensures ranges { HasRanges command.now }
{
    match command {
        Command::VmoRead { name, offset, len }
        | Command::VmoCommit { name, offset, len }
        | Command::VmoDecommit { name, offset, len }
        | Command::VmoZero { name, offset, len } => put_vmo_range(*name, *offset, *len, out, at),
        Command::VmoWrite {
            name,
            offset,
            bytes,
        } => {
            let at = put_vmo_number(*name, *offset, out, at);
            put_data(bytes.as_slice(), out, at)
        }
        Command::VmoFill {
            name,
            offset,
            len,
            byte,
        } => {
            let at = put_vmo_range(*name, *offset, *len, out, at);
            put_byte(*byte, out, at)
        }
        Command::VmoPin {
            pin,
            name,
            offset,
            len,
        } => {
            let at = put_pin(*pin, out, at);
            put_vmo_range(*name, *offset, *len, out, at)
        }
        Command::VmoUnpin { pin } => put_pin(*pin, out, at),
        _ => unreachable!(),
    }
}

/// Writes a VMO and a number.
fn put_vmo_number(name: VmoName, number: u64, out: &mut [u8], at: usize) -> usize
    requires { at + 43 ≤ length out.old }
    ensures written { take result out.new ≡ take at out.old ++ spaced (vmo_word name ∷ decimal number ∷ []) }
    ensures end { result ≤ at + 43 }
    ensures range { Has32 name.0 × Has64 number }
{
    let at = put_vmo(name, out, at);
    put_number(number, out, at)
}

/// Writes a VMO and a range of it.
pub fn put_vmo_range(name: VmoName, offset: u64, len: u64, out: &mut [u8], at: usize) -> usize
    requires { at + 64 ≤ length out.old }
    ensures written { take result out.new
        ≡ take at out.old ++ spaced (vmo_word name ∷ decimal offset ∷ decimal len ∷ []) }
    ensures end { result ≤ at + 64 }
    ensures range { Has32 name.0 × Has64 offset × Has64 len }
{
    let at = put_vmo(name, out, at);
    put_range(offset, len, out, at)
}

/// Writes a child, its parent and its kind.
fn put_child(name: VmoName, parent: VmoName, kind: ChildKind, out: &mut [u8], at: usize) -> usize
    requires { at + 54 ≤ length out.old }
    ensures written { take result out.new
        ≡ take at out.old ++ spaced (vmo_word name ∷ vmo_word parent ∷ kind_word kind ∷ []) }
    ensures end { result ≤ at + 54 }
    ensures range { Has32 name.0 × Has32 parent.0 }
{
    let at = put_vmo(name, out, at);
    let at = put_vmo(parent, out, at);
    put_kind(kind, out, at)
}

/// Writes the flags that a child is made with.
fn put_child_flags(resizable: bool, no_write: bool, out: &mut [u8], at: usize) -> usize
    requires { at + 19 ≤ length out.old }
    ensures written { take result out.new ≡ take at out.old
        ++ spaced (set_flags ((codes "resizable", resizable) ∷ (codes "no_write", no_write) ∷ [])) }
    ensures end { result ≤ at + 19 }
{
    let at = put_flag(b"resizable", resizable, out, at);
    put_flag(b"no_write", no_write, out, at)
}
