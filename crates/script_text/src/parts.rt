//! The words that only commands have. Each is written as those of `word_text` are: behind the first `at` bytes of
//! `out`, which stay, and the answer is where it ends. A clause `range` says what the type of a field says of the
//! field.

ghost use Rattle.std.specs.Prelude.{◌≡◌, ◌+◌, ◌<◌, ◌≤◌, [], ◌∷◌, ◌++◌, length, take, codes, decimal};
ghost use Rattle.vm_model.specs.Language.Spelling.{Has32, Has64, kind_word, pin_word, region_word, set_flags, vmo_word};
ghost use Rattle.script_text.specs.inside.Spaced.{spaced};

use vm_base::{DATA_BYTES, PinName, RegionName, VmoName};
use vm_model::ChildKind;
use word_text::{put_decimal, put_number, put_word};

/// The most bytes of a command's arguments, each with the space before it.
pub const ARGUMENT_BYTES: usize = 2 * DATA_BYTES + 48;

/// Writes a byte as a number in decimal digits behind a space.
pub fn put_byte(byte: u8, out: &mut [u8], at: usize) -> usize
    requires { at + 21 ≤ length out.old }
    ensures written { take result out.new ≡ take at out.old ++ codes " " ++ decimal byte }
    ensures end { result ≤ at + 21 }
    ensures range { byte < 256 }
{
    put_number(u64::from(byte), out, at)
}

/// Writes a letter and a number in decimal digits behind a space.
fn put_name(letter: u8, number: u32, out: &mut [u8], at: usize) -> usize
    requires { at + 22 ≤ length out.old }
    ensures written { take result out.new ≡ take at out.old ++ codes " " ++ letter ∷ decimal number }
    ensures end { result ≤ at + 22 }
{
    let at = put_word(&[letter], out, at);
    put_decimal(u64::from(number), out, at)
}

/// Writes the name of a VMO behind a space.
pub fn put_vmo(name: VmoName, out: &mut [u8], at: usize) -> usize
    requires { at + 22 ≤ length out.old }
    ensures written { take result out.new ≡ take at out.old ++ codes " " ++ vmo_word name }
    ensures end { result ≤ at + 22 }
    ensures range { Has32 name.0 }
{
    put_name(b'v', name.0, out, at)
}

/// Writes the name of a region behind a space.
pub fn put_region(name: RegionName, out: &mut [u8], at: usize) -> usize
    requires { at + 22 ≤ length out.old }
    ensures written { take result out.new ≡ take at out.old ++ codes " " ++ region_word name }
    ensures end { result ≤ at + 22 }
    ensures range { Has32 name.0 }
{
    put_name(b'r', name.0, out, at)
}

/// Writes the name of a pin behind a space.
pub fn put_pin(name: PinName, out: &mut [u8], at: usize) -> usize
    requires { at + 22 ≤ length out.old }
    ensures written { take result out.new ≡ take at out.old ++ codes " " ++ pin_word name }
    ensures end { result ≤ at + 22 }
    ensures range { Has32 name.0 }
{
    put_name(b'p', name.0, out, at)
}

/// Writes the kind of a child behind a space.
pub fn put_kind(kind: ChildKind, out: &mut [u8], at: usize) -> usize
    requires { at + 10 ≤ length out.old }
    ensures written { take result out.new ≡ take at out.old ++ codes " " ++ kind_word kind }
    ensures end { result ≤ at + 10 }
{
    match kind {
        ChildKind::Snapshot => put_word(b"snapshot", out, at),
        ChildKind::Slice => put_word(b"slice", out, at),
        ChildKind::Reference => put_word(b"reference", out, at),
    }
}

/// Writes a flag behind a space, if it is set.
pub fn put_flag(word: &[u8], is_set: bool, out: &mut [u8], at: usize) -> usize
    requires { at + 1 + length word.now ≤ length out.old }
    ensures written { take result out.new ≡ take at out.old ++ spaced (set_flags ((word.now, is_set) ∷ [])) }
    ensures end { result ≤ at + 1 + length word.now }
{
    if is_set { put_word(word, out, at) } else { at }
}

/// Writes two numbers, as an offset and a length.
pub fn put_range(start: u64, len: u64, out: &mut [u8], at: usize) -> usize
    requires { at + 42 ≤ length out.old }
    ensures written { take result out.new ≡ take at out.old ++ spaced (decimal start ∷ decimal len ∷ []) }
    ensures end { result ≤ at + 42 }
    ensures range { Has64 start × Has64 len }
{
    let at = put_number(start, out, at);
    put_number(len, out, at)
}
