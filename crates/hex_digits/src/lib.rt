//! Byte data in hexadecimal digits, encoded and decoded by tables.
//!
//! The crate `hex` of the kit tests the ranges of each digit; here a pair of digits is two look-ups, an addition and one
//! comparison. The meaning of what is written, read or refused is that of the definitions of `hex`. It takes no memory.
#![tactic(auto)]

ghost use Rattle.std.specs.Prelude.{◌≡◌, ◌*◌, ◌/◌, ◌%◌, ◌<◌, ◌≤◌, ℕ, length, slice_index, true, false, Ok, is_ok, unwrap_or};
ghost use Rattle.hex.specs.Hex.{decode_pairs, encode_lower, hex_digit_value, lower_digits, pair_value};

/// The value of each byte as a hexadecimal digit of either case, or 256 if it is none.
const VALUES: [u16; 256] = [
    256, 256, 256, 256, 256, 256, 256, 256, 256, 256, 256, 256, 256, 256, 256, 256, 256, 256, 256,
    256, 256, 256, 256, 256, 256, 256, 256, 256, 256, 256, 256, 256, 256, 256, 256, 256, 256, 256,
    256, 256, 256, 256, 256, 256, 256, 256, 256, 256, 0, 1, 2, 3, 4, 5, 6, 7, 8, 9, 256, 256, 256,
    256, 256, 256, 256, 10, 11, 12, 13, 14, 15, 256, 256, 256, 256, 256, 256, 256, 256, 256, 256,
    256, 256, 256, 256, 256, 256, 256, 256, 256, 256, 256, 256, 256, 256, 256, 256, 10, 11, 12, 13,
    14, 15, 256, 256, 256, 256, 256, 256, 256, 256, 256, 256, 256, 256, 256, 256, 256, 256, 256,
    256, 256, 256, 256, 256, 256, 256, 256, 256, 256, 256, 256, 256, 256, 256, 256, 256, 256, 256,
    256, 256, 256, 256, 256, 256, 256, 256, 256, 256, 256, 256, 256, 256, 256, 256, 256, 256, 256,
    256, 256, 256, 256, 256, 256, 256, 256, 256, 256, 256, 256, 256, 256, 256, 256, 256, 256, 256,
    256, 256, 256, 256, 256, 256, 256, 256, 256, 256, 256, 256, 256, 256, 256, 256, 256, 256, 256,
    256, 256, 256, 256, 256, 256, 256, 256, 256, 256, 256, 256, 256, 256, 256, 256, 256, 256, 256,
    256, 256, 256, 256, 256, 256, 256, 256, 256, 256, 256, 256, 256, 256, 256, 256, 256, 256, 256,
    256, 256, 256, 256, 256, 256, 256, 256, 256, 256, 256, 256, 256, 256, 256, 256, 256, 256, 256,
    256, 256, 256,
];

/// The two digits of each byte, in lower case, byte after byte.
const PAIRS: &[u8; 512] =
    b"000102030405060708090a0b0c0d0e0f101112131415161718191a1b1c1d1e1f202122232425262728292a2b2c2d2e2f303132333435363738393a3b3c3d3e3f404142434445464748494a4b4c4d4e4f505152535455565758595a5b5c5d5e5f606162636465666768696a6b6c6d6e6f707172737475767778797a7b7c7d7e7f808182838485868788898a8b8c8d8e8f909192939495969798999a9b9c9d9e9fa0a1a2a3a4a5a6a7a8a9aaabacadaeafb0b1b2b3b4b5b6b7b8b9babbbcbdbebfc0c1c2c3c4c5c6c7c8c9cacbcccdcecfd0d1d2d3d4d5d6d7d8d9dadbdcdddedfe0e1e2e3e4e5e6e7e8e9eaebecedeeeff0f1f2f3f4f5f6f7f8f9fafbfcfdfeff";

/// Encodes bytes as hexadecimal digits in lower case, two for each byte, the high four bits first.
pub fn encode_to_slice(bytes: &[u8], out: &mut [u8])
    requires { length out.old ≡ 2 * length bytes.now }
    ensures { out.new ≡ encode_lower bytes.now }
{
    'bytes: for i in 0..bytes.len() {
        let (high, low) = digits_of(bytes[i]);
        out[2 * i] = high;
        out[2 * i + 1] = low;
    }
}

/// Returns the two digits of a byte.
#[inline]
fn digits_of(byte: u8) -> (u8, u8)
    ensures high { result.0 ≡ slice_index lower_digits (byte / 16) }
    ensures low { result.1 ≡ slice_index lower_digits (byte % 16) }
{
    let at = 2 * byte as usize;
    (PAIRS[at], PAIRS[at + 1])
}

/// Decodes pairs of hexadecimal digits of either case into `out`, one byte for each pair.
///
/// Returns `false` if a byte of `text` is no hexadecimal digit. What `out` then holds is not specified.
pub fn decode_to_slice(text: &[u8], out: &mut [u8]) -> bool
    requires { length text.now ≡ 2 * length out.old }
    ensures decoded { result ≡ true → decode_pairs 0 text.now ≡ Ok out.new }
    ensures refused { result ≡ false → is_ok (decode_pairs 0 text.now) ≡ false }
{
    'pairs: for i in 0..out.len() {
        let value = pair(text[2 * i], text[2 * i + 1]);
        if value > 255 {
            return false;
        }
        out[i] = value as u8;
    }
    true
}

/// Returns the byte that two digits spell, or a number above 255 if one of them is no digit.
#[inline]
fn pair(high: u8, low: u8) -> u16
    ensures byte { (i : ℕ) → result < 256 → pair_value high low i ≡ Ok result }
    ensures refused { (i : ℕ) → 256 ≤ result → is_ok (pair_value high low i) ≡ false }
{
    16 * value(high) + value(low)
}

/// Returns the value of a hexadecimal digit, or 256 if the byte is none.
#[inline]
fn value(digit: u8) -> u16
    ensures value { result ≡ unwrap_or (hex_digit_value digit) 256 }
    ensures bound { result ≤ 256 }
{
    VALUES[digit as usize]
}
