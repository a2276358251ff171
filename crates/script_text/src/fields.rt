//! How the fields of a command are spelled: numbers, names, byte data and permissions.

ghost use Rattle.std.specs.Prelude.{◌≡◌, ◌≤◌, ◌^◌, length};
ghost use Rattle.vm_model.specs.Language.Reading.{below, digits, number, byte, name_behind, vmo, region, pin};
ghost use Rattle.vm_model.specs.Language.Reading.{byte_data, perm, child_kind};
ghost use Rattle.script_text.specs.inside.Radixes.{base_of, value_in};

use crate::words::is_word;
use vm_base::{DATA_BYTES, Perm, PinName, RegionName, VmoName};
use vm_model::{Bytes4k, ChildKind, LentBytes};

/// The most digits of byte data, two for each byte.
const MOST_DIGITS: usize = 2 * DATA_BYTES;

/// The radix of a number's digits.
#[derive(Clone, Copy)]
enum Radix {
    /// Ten digits, `0` to `9`.
    Decimal,
    /// Sixteen digits, with `a` to `f` of either case.
    Hex,
}

impl Radix {
    /// Returns how many digits there are.
    fn base(self) -> u64
        ensures { result ≡ base_of self }
    {
        match self {
            Radix::Decimal => 10,
            Radix::Hex => 16,
        }
    }

    /// Returns what one digit stands for, or `None` if the byte is no digit.
    fn value(self, byte: u8) -> Option<u64>
        ensures { result ≡ value_in self byte }
    {
        match (self, byte) {
            (_, b'0'..=b'9') => Some(u64::from(byte - b'0')),
            (Radix::Hex, b'a'..=b'f') => Some(u64::from(byte - b'a' + 10)),
            (Radix::Hex, b'A'..=b'F') => Some(u64::from(byte - b'A' + 10)),
            _ => None,
        }
    }
}

/// Returns the number that a word of digits spells. `None` if the word is empty, a byte is no digit, or the number does
/// not fit.
#[inline(always)]
#[tactic(auto, unfolding(vm_model::specs::Language::Reading::digits_from))]
fn digits(radix: Radix, word: &[u8]) -> Option<u64>
    ensures { result ≡ below (2 ^ 64) (digits (base_of radix) (value_in radix) word.now) }
{
    if word.is_empty() {
        return None;
    }
    let mut number: u64 = 0;
    for byte in word {
        let digit = radix.value(*byte)?;
        number = number.checked_mul(radix.base())?.checked_add(digit)?;
    }
    Some(number)
}

/// Returns a number: decimal digits, or `0x` and hexadecimal digits of either case. `None` if it is spelled otherwise,
/// or is not below 2^64.
#[inline(always)]
#[tactic(auto, unfolding(vm_model::specs::Language::Reading::number))]
pub fn number(word: &[u8]) -> Option<u64>
    ensures { result ≡ number word.now }
{
    match word {
        [b'0', b'x', behind @ ..] => digits(Radix::Hex, behind),
        _ => digits(Radix::Decimal, word),
    }
}

/// Reads the value of one byte: a number, in either spelling, of at most 255. `None` if it is spelled otherwise.
pub fn byte(word: &[u8]) -> Option<u8>
    ensures { result ≡ byte word.now }
{
    u8::try_from(number(word)?).ok()
}

/// Reads the number of a name: the letter, and a decimal number without leading zeros. `None` if it is spelled
/// otherwise, or the number is not below 2^32.
fn name_behind(letter: u8, word: &[u8]) -> Option<u32>
    ensures { result ≡ name_behind letter word.now }
{
    let (first, behind) = word.split_first()?;
    if *first != letter {
        return None;
    }
    if let [b'0', _, ..] = behind {
        return None;
    }
    u32::try_from(digits(Radix::Decimal, behind)?).ok()
}

/// Returns the name of a VMO: `v` and a decimal number below 2^32 without leading zeros. `None` if it is spelled
/// otherwise.
#[tactic(auto, unfolding(vm_model::specs::Language::Reading::vmo))]
pub fn vmo(word: &[u8]) -> Option<VmoName>
    ensures { result ≡ vmo word.now }
{
    Some(VmoName(name_behind(b'v', word)?))
}

/// Returns the name of a region: `r` and a decimal number below 2^32 without leading zeros. `None` if it is spelled
/// otherwise.
#[tactic(auto, unfolding(vm_model::specs::Language::Reading::region))]
pub fn region(word: &[u8]) -> Option<RegionName>
    ensures { result ≡ region word.now }
{
    Some(RegionName(name_behind(b'r', word)?))
}

/// Returns the name of a pin: `p` and a decimal number below 2^32 without leading zeros. `None` if it is spelled
/// otherwise.
#[tactic(auto, unfolding(vm_model::specs::Language::Reading::pin))]
pub fn pin(word: &[u8]) -> Option<PinName>
    ensures { result ≡ pin word.now }
{
    Some(PinName(name_behind(b'p', word)?))
}

/// Reads byte data: `-` for no bytes, or two hexadecimal digits of either case for each of 1 to `DATA_BYTES` bytes.
/// `None` if it is spelled otherwise.
pub fn byte_data(word: &[u8]) -> Option<Bytes4k>
    ensures { result ≡ byte_data word.now }
{
    let mut room = [0; DATA_BYTES];
    Some(byte_data_into(word, &mut room)?.to_bytes())
}

/// Reads byte data as `byte_data` does, decoded to the front of `room`, which has at least `DATA_BYTES` bytes, and lent
/// from there.
#[tactic(auto, unfolding(vm_model::specs::Language::Reading::byte_data))]
pub fn byte_data_into<'a>(word: &[u8], room: &'a mut [u8]) -> Option<LentBytes<'a>>
    requires { DATA_BYTES ≤ length room.old }
    ensures { result ≡ byte_data word.now }
{
    if word == b"-".as_slice() {
        return Some(LentBytes::new(&[]));
    }
    if word.is_empty() || word.len() > MOST_DIGITS {
        return None;
    }
    if word.len() % 2 != 0 {
        return None;
    }
    let (decoded, _) = room.split_at_mut(word.len() / 2);
    if !hex_digits::decode_to_slice(word, decoded) {
        return None;
    }
    Some(LentBytes::new(decoded))
}

/// Returns what an access may do: the letters of reading, writing and executing that are allowed, in this order, or
/// `none`. `None` if it is spelled otherwise.
#[tactic(auto, unfolding(vm_model::specs::Language::Reading::perm))]
pub fn perm(word: &[u8]) -> Option<Perm>
    ensures { result ≡ perm word.now }
{
    if is_word(word, b"none") {
        Some(Perm(0))
    } else if is_word(word, b"r") {
        Some(Perm::READ)
    } else if is_word(word, b"w") {
        Some(Perm::WRITE)
    } else if is_word(word, b"rw") {
        Some(Perm(Perm::READ.0 + Perm::WRITE.0))
    } else if is_word(word, b"x") {
        Some(Perm::EXECUTE)
    } else if is_word(word, b"rx") {
        Some(Perm(Perm::READ.0 + Perm::EXECUTE.0))
    } else if is_word(word, b"wx") {
        Some(Perm(Perm::WRITE.0 + Perm::EXECUTE.0))
    } else if is_word(word, b"rwx") {
        Some(Perm(Perm::READ.0 + Perm::WRITE.0 + Perm::EXECUTE.0))
    } else {
        None
    }
}

/// Returns what a child shows of its parent: `snapshot`, `slice` or `reference`. `None` if it is spelled otherwise.
#[tactic(auto, unfolding(vm_model::specs::Language::Reading::child_kind))]
pub fn child_kind(word: &[u8]) -> Option<ChildKind>
    ensures { result ≡ child_kind word.now }
{
    if is_word(word, b"snapshot") {
        Some(ChildKind::Snapshot)
    } else if is_word(word, b"slice") {
        Some(ChildKind::Slice)
    } else if is_word(word, b"reference") {
        Some(ChildKind::Reference)
    } else {
        None
    }
}
