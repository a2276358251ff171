//! Reply lines that are read back: an address, and the frames of a pin.

ghost use Rattle.std.specs.Prelude.{◌≡◌, ◌≢◌, ◌<◌, ◌≤◌, ◌/◌, ◌%◌, ◌^◌, ◌++◌, ◌⊎◌, ◌∷◌, [], ℕ, List, true, false, codes, length, position, MatchOption, IfSome};
ghost use Rattle.std.specs.List.{AllByRecursion, position_or_len};
ghost use Rattle.std.specs.Fmt.{digits, digit_glyph};
ghost use Rattle.vm_model.specs.Language.Text.{reply_lines};
ghost use Rattle.vm_model.specs.declared.reply.Reply.TheVariants as Reply;
ghost use Rattle.vm_base.specs.declared.limits.TheConstants.{PIN_PAGES};
ghost use Rattle.reply_text.specs.Spaces.{is_space, begins_space, spaced_number, all_spaced};

use vm_model::PinNumbers;

/// The most digits that a number of 64 bits has, in decimal or hexadecimal.
const MOST_DIGITS: usize = 20;

/// Returns the address that a reply line has, without its line feed: `OK` and `0x` with hexadecimal digits, in lower
/// case and without leading zeros. `None` exactly if the line is that of no address.
pub fn read_address(line: &[u8]) -> Option<u64>
    ensures { MatchOption result
        ((address : ℕ) → address < 2 ^ 64 → reply_lines (Reply.Address address) ≢ (line.now ++ codes "\n") ∷ [])
        (λ address. reply_lines (Reply.Address address) ≡ (line.now ++ codes "\n") ∷ []) }
{
    let Some(word) = behind(b"OK 0x", line) else {
        return None;
    };
    spelled(16, word)
}

/// Returns the frames of a pin that a reply line has, without its line feed: `OK`, and each number in decimal behind a
/// space. `None` exactly if no list of at most 256 frames has this line.
pub fn read_pins(line: &[u8]) -> Option<PinNumbers>
    ensures { MatchOption result
        ((numbers : List ℕ) → length numbers ≤ PIN_PAGES → AllByRecursion (λ n. n < 2 ^ 64) numbers →
        reply_lines (Reply.Pins numbers) ≢ (line.now ++ codes "\n") ∷ [])
        (λ numbers. reply_lines (Reply.Pins numbers) ≡ (line.now ++ codes "\n") ∷ []) }
{
    let Some(text) = behind(b"OK", line) else {
        return None;
    };
    numbers_of(text)
}

/// Returns the numbers of a text, each in decimal behind a space.
fn numbers_of(text: &[u8]) -> Option<PinNumbers>
    ensures { MatchOption result
        ((numbers : List ℕ) → length numbers ≤ PIN_PAGES → AllByRecursion (λ n. n < 2 ^ 64) numbers → text.now ≢ all_spaced numbers)
        (λ numbers. text.now ≡ all_spaced numbers) }
{
    let mut numbers = PinNumbers::new();
    let mut rest = text;
    while !rest.is_empty() {
        let Some((number, more)) = next_number(rest) else {
            return None;
        };
        if !numbers.push(number) {
            return None;
        }
        rest = more;
    }
    Some(numbers)
}

/// Returns the number at the front of a text, in decimal behind a space, and what stands behind it: nothing, or a
/// space.
fn next_number(text: &[u8]) -> Option<(u64, &[u8])>
    ensures number { MatchOption result
        ((n : ℕ) (more : List ℕ) → n < 2 ^ 64 → begins_space more ≡ true → text.now ≢ spaced_number n ++ more)
        (λ r. (text.now ≡ spaced_number r.0 ++ r.1.now) × (begins_space r.1.now ≡ true) × (r.0 < 2 ^ 64)) }
    ensures shorter { IfSome result (λ r. length r.1.now < length text.now) }
{
    let Some((first, behind)) = text.split_first() else {
        return None;
    };
    if *first != b' ' {
        return None;
    }
    let (word, more) = behind.split_at(word_len(behind));
    let Some(number) = spelled(10, word) else {
        return None;
    };
    prove!(number <= u64::MAX);
    Some((number, more))
}

/// Returns how many bytes stand before the first space of a text.
fn word_len(text: &[u8]) -> usize
    ensures len { result ≡ position_or_len is_space text.now }
    ensures at_most { result ≤ length text.now }
{
    first_space(text).unwrap_or(text.len())
}

/// Returns where the first space of a text stands.
fn first_space(text: &[u8]) -> Option<usize>
    ensures { result ≡ position is_space text.now }
{
    text.iter().position(|byte| *byte == b' ')
}

/// Returns what stands behind the front of a line, or `None` if the line begins otherwise.
fn behind<'a>(front: &[u8], line: &'a [u8]) -> Option<&'a [u8]>
    ensures { MatchOption result ((rest : List ℕ) → line.now ≢ front.now ++ rest) (λ rest. line.now ≡ front.now ++ rest.now) }
{
    line.strip_prefix(front)
}

/// Returns the number that a word spells in decimal or in hexadecimal, in lower case and without leading zeros. `None`
/// if it spells none of 64 bits.
fn spelled(base: u64, word: &[u8]) -> Option<u64>
    requires base { (base ≡ 10) ⊎ (base ≡ 16) }
    ensures { MatchOption result ((n : ℕ) → n < 2 ^ 64 → word.now ≢ digits base false n) (λ n. word.now ≡ digits base false n) }
{
    if word.len() > MOST_DIGITS {
        return None;
    }
    let Some((last, front)) = word.split_last() else {
        return None;
    };
    let Some(digit) = digit_of(base, *last) else {
        return None;
    };
    if front.is_empty() {
        return Some(digit);
    }
    let Some(high) = spelled(base, front) else {
        return None;
    };
    appended(base, high, digit)
}

/// Returns the number with one more digit behind those of `high`. `None` if `high` would be a leading zero, or the
/// number does not fit.
fn appended(base: u64, high: u64, digit: u64) -> Option<u64>
    requires base { (base ≡ 10) ⊎ (base ≡ 16) }
    requires digit { digit < base }
    ensures { MatchOption result
        ((n : ℕ) → n < 2 ^ 64 → base ≤ n → digits base false (n / base) ≡ digits base false high → n % base ≢ digit)
        (λ n. digits base false n ≡ digits base false high ++ digit_glyph false digit ∷ []) }
{
    if high == 0 || high > (u64::MAX - digit) / base {
        return None;
    }
    Some(high * base + digit)
}

/// Returns the value of a digit, in lower case. `None` if the byte is no digit of the base.
fn digit_of(base: u64, byte: u8) -> Option<u64>
    requires base { (base ≡ 10) ⊎ (base ≡ 16) }
    ensures { MatchOption result ((d : ℕ) → d < base → byte ≢ digit_glyph false d) (λ d. (d < base) × (byte ≡ digit_glyph false d)) }
{
    let digit = match byte {
        b'0'..=b'9' => u64::from(byte - b'0'),
        b'a'..=b'f' => u64::from(byte - b'a' + 10),
        _ => return None,
    };
    if digit < base { Some(digit) } else { None }
}
