//! The parts of a line, each written behind what a buffer holds already.

ghost use Rattle.std.specs.Prelude.{◌≡◌, ◌+◌, ◌*◌, ◌<◌, ◌≤◌, All, ◌++◌, length, take, codes, decimal};
ghost use Rattle.vm_model.specs.Language.Spelling.{Has32};
ghost use Rattle.vm_model.specs.Language.Text.{data_text, perm_text};

use bitflags::Flags;
use itoa::write_digits;
use vm_base::Perm;

/// Writes bytes.
pub fn put(bytes: &[u8], out: &mut [u8], at: usize) -> usize
    requires { at + length bytes.now ≤ length out.old }
    ensures written { take result out.new ≡ take at out.old ++ bytes.now }
    ensures end { result ≡ at + length bytes.now }
{
    let end = at + bytes.len();
    out[at..end].copy_from_slice(bytes);
    end
}

/// Writes a word behind a space.
pub fn put_word(word: &[u8], out: &mut [u8], at: usize) -> usize
    requires { at + 1 + length word.now ≤ length out.old }
    ensures written { take result out.new ≡ take at out.old ++ codes " " ++ word.now }
    ensures end { result ≡ at + 1 + length word.now }
{
    let at = put(b" ", out, at);
    put(word, out, at)
}

/// Writes a number in decimal digits, with no space before it.
pub fn put_decimal(number: u64, out: &mut [u8], at: usize) -> usize
    requires { at + 20 ≤ length out.old }
    ensures written { take result out.new ≡ take at out.old ++ decimal number }
    ensures end { result ≤ at + 20 }
{
    let end = at + digit_count(number);
    write_digits(number, out, end);
    end
}

/// Returns how many decimal digits a number has.
fn digit_count(number: u64) -> usize
    ensures count { result ≡ length (decimal number) }
    ensures short { result ≤ 20 }
{
    match number {
        0..=9 => 1,
        10..=99 => 2,
        100..=999 => 3,
        1_000..=9_999 => 4,
        _ => number.ilog10() as usize + 1,
    }
}

/// Writes a number in decimal digits behind a space.
pub fn put_number(number: u64, out: &mut [u8], at: usize) -> usize
    requires { at + 21 ≤ length out.old }
    ensures written { take result out.new ≡ take at out.old ++ codes " " ++ decimal number }
    ensures end { result ≤ at + 21 }
{
    let at = put(b" ", out, at);
    put_decimal(number, out, at)
}

/// Writes a number behind its label, as ` free=7`.
pub fn put_field(label: &[u8], number: u64, out: &mut [u8], at: usize) -> usize
    requires { at + length label.now + 20 ≤ length out.old }
    ensures written { take result out.new ≡ take at out.old ++ (label.now ++ decimal number) }
    ensures end { result ≤ at + length label.now + 20 }
{
    let at = put(label, out, at);
    put_decimal(number, out, at)
}

/// Writes byte data in lower-case hex behind a space, or `-` if there are no bytes.
pub fn put_data(bytes: &[u8], out: &mut [u8], at: usize) -> usize
    requires { at + 2 + 2 * length bytes.now ≤ length out.old }
    ensures written { take result out.new ≡ take at out.old ++ codes " " ++ data_text bytes.now }
    ensures end { result ≤ at + 2 + 2 * length bytes.now }
    ensures range { All (λ b. b < 256) bytes.now }
{
    if bytes.is_empty() {
        return put_word(b"-", out, at);
    }
    let at = put(b" ", out, at);
    let end = at + 2 * bytes.len();
    hex_digits::encode_to_slice(bytes, &mut out[at..end]);
    end
}

/// Writes the letters of a permission's named bits behind a space, or `none` if it has none.
pub fn put_perm(perm: Perm, out: &mut [u8], at: usize) -> usize
    requires { at + 5 ≤ length out.old }
    ensures written { take result out.new ≡ take at out.old ++ codes " " ++ perm_text perm.0 }
    ensures end { result ≤ at + 5 }
    ensures range { Has32 perm.0 }
{
    put_word(letters(perm), out, at)
}

/// Returns the letters of a permission's named bits, or `none` if it has none.
fn letters(perm: Perm) -> &'static [u8]
    ensures letters { result.now ≡ perm_text perm.0 }
    ensures short { length result.now ≤ 4 }
{
    let (read, write, execute) = (
        perm.contains(Perm::READ),
        perm.contains(Perm::WRITE),
        perm.contains(Perm::EXECUTE),
    );
    match (read, write, execute) {
        (false, false, false) => b"none",
        (true, false, false) => b"r",
        (false, true, false) => b"w",
        (true, true, false) => b"rw",
        (false, false, true) => b"x",
        (true, false, true) => b"rx",
        (false, true, true) => b"wx",
        (true, true, true) => b"rwx",
    }
}
