//! The parts of a line that only replies have. Each is written as those of `word_text` are: behind the first `at` bytes
//! of `out`, which stay, and the answer is where it ends.

ghost use Rattle.std.specs.Prelude.{◌≡◌, ◌+◌, ◌*◌, ◌<◌, ◌≤◌, ◌++◌, false, length, take, codes, decimal};
ghost use Rattle.std.specs.Fmt.{digits, digit_glyph};
ghost use Rattle.std.specs.List.{flat_map};
ghost use Rattle.vm_model.specs.Language.Text.{data_text, address_text, field, run_line, info_text, stat_text};

use vm_model::{Info, Run, Stat};
use word_text::{put, put_data, put_field, put_number, put_perm};

/// Writes numbers in decimal, each behind a space.
pub fn put_numbers(numbers: &[u64], out: &mut [u8], at: usize) -> usize
    requires { at + 21 * length numbers.now ≤ length out.old }
    ensures written { take result out.new
        ≡ take at out.old ++ flat_map (λ n. codes " " ++ decimal n) numbers.now }
    ensures end { result ≤ at + 21 * length numbers.now }
{
    let mut end = at;
    for number in numbers {
        end = put_number(*number, out, end);
    }
    end
}

/// Writes a count of page faults and byte data.
pub fn put_access(faults: u64, bytes: &[u8], out: &mut [u8], at: usize) -> usize
    requires { at + 30 + 2 * length bytes.now ≤ length out.old }
    ensures written { take result out.new
        ≡ take at out.old ++ field (codes "faults") faults ++ codes " " ++ data_text bytes.now }
    ensures end { result ≤ at + 30 + 2 * length bytes.now }
{
    let at = put_field(b" faults=", faults, out, at);
    put_data(bytes, out, at)
}

/// Writes an address in bytes behind a space: `0x` and hexadecimal digits.
#[tactic(auto, using(crate::proofs::Hex::hex_short))]
pub fn put_address(address: u64, out: &mut [u8], at: usize) -> usize
    requires { at + 19 ≤ length out.old }
    ensures written { take result out.new ≡ take at out.old ++ codes " " ++ address_text address }
    ensures end { result ≤ at + 19 }
{
    let at = put(b" 0x", out, at);
    put_hex(address, out, at)
}

/// Writes what a VMO holds. The function is not inlined, so that other replies pay nothing for it.
#[inline(never)]
pub fn put_info(info: &Info, out: &mut [u8], at: usize) -> usize
    requires { at + 200 ≤ length out.old }
    ensures written { take result out.new ≡ take at out.old ++ info_text info.now }
    ensures end { result ≤ at + 200 }
{
    let at = put_field(b" koid=", info.koid.0, out, at);
    let at = put_field(b" size=", info.size, out, at);
    let at = put_field(b" held=", info.held, out, at);
    let at = put_field(b" private=", info.private_pages, out, at);
    let at = put_field(b" shared=", info.shared_pages, out, at);
    let at = put_field(b" charged=", info.charged, out, at);
    put_field(b" children=", info.children, out, at)
}

/// Writes the machine's frames and VMOs.
pub fn put_stat(stat: &Stat, out: &mut [u8], at: usize) -> usize
    requires { at + 110 ≤ length out.old }
    ensures written { take result out.new ≡ take at out.old ++ stat_text stat.now }
    ensures end { result ≤ at + 110 }
{
    let at = put_field(b" frames=", stat.frames as u64, out, at);
    let at = put_field(b" used=", stat.used as u64, out, at);
    let at = put_field(b" free=", stat.free as u64, out, at);
    put_field(b" vmos=", stat.vmos, out, at)
}

/// Writes the line of a run, with its line feed. The function is not inlined, so that other replies pay nothing for it.
#[inline(never)]
pub fn put_run(run: &Run, out: &mut [u8], at: usize) -> usize
    requires { at + 200 ≤ length out.old }
    ensures written { take result out.new ≡ take at out.old ++ run_line run.now }
    ensures end { result ≤ at + 200 }
{
    let at = put(b"+", out, at);
    let at = put_address(run.addr, out, at);
    let at = put_number(run.len, out, at);
    let at = put_perm(run.perm, out, at);
    let at = put_field(b" vmo=", run.koid.0, out, at);
    let at = put_field(b" offset=", run.offset, out, at);
    let at = put_field(b" region=r", run.region.0 as u64, out, at);
    put(b"\n", out, at)
}

/// Writes a number in hexadecimal digits, with no zeros before them.
#[tactic(auto, using(std::proofs::lemmas::Fmt::hex_one_digit))]
fn put_hex(number: u64, out: &mut [u8], at: usize) -> usize
    requires { at + length (digits 16 false number) ≤ length out.old }
    ensures written { take result out.new ≡ take at out.old ++ digits 16 false number }
    ensures end { result ≡ at + length (digits 16 false number) }
{
    if number < 16 {
        return put(&[hex_digit(number as u8)], out, at);
    }
    let at = put_hex(number / 16, out, at);
    put(&[hex_digit((number % 16) as u8)], out, at)
}

/// Returns a hexadecimal digit, in lower case.
fn hex_digit(digit: u8) -> u8
    requires { digit < 16 }
    ensures { result ≡ digit_glyph false digit }
{
    if digit < 10 {
        b'0' + digit
    } else {
        b'a' + (digit - 10)
    }
}
