//! From a command word to the reader of its arguments. The word is compared with those of its own length alone.

ghost use Rattle.std.specs.Prelude.{◌≡◌, ◌≤◌, length, map};
ghost use Rattle.vm_model.specs.Language.Reading.{by_word, command};
ghost use Rattle.script_text.specs.inside.Rows.{command_rows_of};

use crate::region_commands::{
    maps, mem_read, mem_write, root_create, stat, vmar_allocate, vmar_destroy, vmar_map,
    vmar_protect, vmar_unmap,
};
use crate::vmo_commands::{
    vmo_close, vmo_commit, vmo_create, vmo_create_child, vmo_decommit, vmo_fill, vmo_info, vmo_pin,
    vmo_read, vmo_set_size, vmo_size, vmo_unpin, vmo_write, vmo_zero,
};
use crate::words::is_word;
use vm_base::DATA_BYTES;
use vm_model::Call;

/// Returns the command of this word and these arguments. `None` if there is none. Byte data is lent from `room`. The
/// function is not inlined: a function writes all of its locals, and a read or a write should not pay for those of all
/// commands.
#[inline(never)]
pub fn call<'a>(word: &[u8], arguments: &[&[u8]], room: &'a mut [u8]) -> Option<Call<'a>>
    requires { DATA_BYTES ≤ length room.old }
    ensures { result ≡ command word.now (map (λ a. a.now) arguments.now) }
{
    match word.len() {
        4 => return call_of_four(word, arguments),
        7 => return call_of_seven(word, arguments),
        8 => return call_of_eight(word, arguments),
        9 => return call_of_nine(word, arguments, room),
        10 => return call_of_ten(word, arguments),
        11 => return call_of_eleven(word, arguments),
        12 => return call_of_twelve(word, arguments),
        13 => return call_of_thirteen(word, arguments),
        16 => return call_of_sixteen(word, arguments),
        _ => {}
    }
    None
}

/// Returns the command of a word of four bytes.
fn call_of_four<'a>(word: &[u8], arguments: &[&[u8]]) -> Option<Call<'a>>
    ensures { result ≡ by_word (command_rows_of 4) word.now (map (λ a. a.now) arguments.now) }
{
    if is_word(word, b"stat") {
        return stat(arguments);
    }
    if is_word(word, b"maps") {
        return maps(arguments);
    }
    None
}

/// Returns the command of a word of seven bytes.
fn call_of_seven<'a>(word: &[u8], arguments: &[&[u8]]) -> Option<Call<'a>>
    ensures { result ≡ by_word (command_rows_of 7) word.now (map (λ a. a.now) arguments.now) }
{
    if is_word(word, b"vmo_pin") {
        return vmo_pin(arguments);
    }
    None
}

/// Returns the command of a word of eight bytes.
fn call_of_eight<'a>(word: &[u8], arguments: &[&[u8]]) -> Option<Call<'a>>
    ensures { result ≡ by_word (command_rows_of 8) word.now (map (λ a. a.now) arguments.now) }
{
    if is_word(word, b"vmo_size") {
        return vmo_size(arguments);
    }
    if is_word(word, b"vmo_read") {
        return vmo_read(arguments);
    }
    if is_word(word, b"vmo_fill") {
        return vmo_fill(arguments);
    }
    if is_word(word, b"vmo_zero") {
        return vmo_zero(arguments);
    }
    if is_word(word, b"vmo_info") {
        return vmo_info(arguments);
    }
    if is_word(word, b"vmar_map") {
        return vmar_map(arguments);
    }
    if is_word(word, b"mem_read") {
        return mem_read(arguments);
    }
    None
}

/// Returns the command of a word of nine bytes.
fn call_of_nine<'a>(word: &[u8], arguments: &[&[u8]], room: &'a mut [u8]) -> Option<Call<'a>>
    requires { DATA_BYTES ≤ length room.old }
    ensures { result ≡ by_word (command_rows_of 9) word.now (map (λ a. a.now) arguments.now) }
{
    if is_word(word, b"vmo_close") {
        return vmo_close(arguments);
    }
    if is_word(word, b"vmo_write") {
        return vmo_write(arguments, room);
    }
    if is_word(word, b"vmo_unpin") {
        return vmo_unpin(arguments);
    }
    if is_word(word, b"mem_write") {
        return mem_write(arguments, room);
    }
    None
}

/// Returns the command of a word of ten bytes.
fn call_of_ten<'a>(word: &[u8], arguments: &[&[u8]]) -> Option<Call<'a>>
    ensures { result ≡ by_word (command_rows_of 10) word.now (map (λ a. a.now) arguments.now) }
{
    if is_word(word, b"vmo_create") {
        return vmo_create(arguments);
    }
    if is_word(word, b"vmo_commit") {
        return vmo_commit(arguments);
    }
    if is_word(word, b"vmar_unmap") {
        return vmar_unmap(arguments);
    }
    None
}

/// Returns the command of a word of eleven bytes.
fn call_of_eleven<'a>(word: &[u8], arguments: &[&[u8]]) -> Option<Call<'a>>
    ensures { result ≡ by_word (command_rows_of 11) word.now (map (λ a. a.now) arguments.now) }
{
    if is_word(word, b"root_create") {
        return root_create(arguments);
    }
    None
}

/// Returns the command of a word of twelve bytes.
fn call_of_twelve<'a>(word: &[u8], arguments: &[&[u8]]) -> Option<Call<'a>>
    ensures { result ≡ by_word (command_rows_of 12) word.now (map (λ a. a.now) arguments.now) }
{
    if is_word(word, b"vmo_set_size") {
        return vmo_set_size(arguments);
    }
    if is_word(word, b"vmo_decommit") {
        return vmo_decommit(arguments);
    }
    if is_word(word, b"vmar_protect") {
        return vmar_protect(arguments);
    }
    if is_word(word, b"vmar_destroy") {
        return vmar_destroy(arguments);
    }
    None
}

/// Returns the command of a word of thirteen bytes.
fn call_of_thirteen<'a>(word: &[u8], arguments: &[&[u8]]) -> Option<Call<'a>>
    ensures { result ≡ by_word (command_rows_of 13) word.now (map (λ a. a.now) arguments.now) }
{
    if is_word(word, b"vmar_allocate") {
        return vmar_allocate(arguments);
    }
    None
}

/// Returns the command of a word of sixteen bytes.
fn call_of_sixteen<'a>(word: &[u8], arguments: &[&[u8]]) -> Option<Call<'a>>
    ensures { result ≡ by_word (command_rows_of 16) word.now (map (λ a. a.now) arguments.now) }
{
    if is_word(word, b"vmo_create_child") {
        return vmo_create_child(arguments);
    }
    None
}
