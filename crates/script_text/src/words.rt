//! The words of a line: the longest runs of bytes that are not blank.

ghost use Rattle.std.specs.Prelude.{◌≡◌, ◌<◌, ◌≤◌, ◌↔◌, false, [], ◌∷◌, length, take, drop, not, position};
ghost use Rattle.std.specs.Prelude.{nat_eq, slice_get, slice_range, MatchOption, IfSome, IsNone};
ghost use Rattle.std.specs.Cmp.Lexicographic.{pointwise};
ghost use Rattle.std.specs.List.{position_or_len};
ghost use Rattle.vm_model.specs.Language.Reading.{words, is_blank, is_word};
ghost use Rattle.script_text.specs.inside.Places.{IsWordFrom};

use memchr::memchr3;

/// Reports whether a byte is a space, a tab or a carriage return.
#[inline(always)]
pub fn is_blank(byte: u8) -> bool
    ensures { result ≡ is_blank byte }
{
    matches!(byte, b' ' | b'\t' | b'\r')
}

/// Reports whether a line begins with these bytes. They are compared one by one: the compiler unrolls this if it knows
/// them, as it knows the words of commands.
#[inline(always)]
pub fn begins_with(line: &[u8], front: &[u8]) -> bool
    ensures { result ≡ pointwise nat_eq (take (length front.now) line.now) front.now }
{
    if line.len() < front.len() {
        return false;
    }
    for place in 0..front.len() {
        if line[place] != front[place] {
            return false;
        }
    }
    true
}

/// Reports whether two words are the same.
#[inline(always)]
pub fn is_word(word: &[u8], known: &[u8]) -> bool
    ensures { result ≡ is_word word.now known.now }
{
    word.len() == known.len() && begins_with(word, known)
}

/// Returns where the first word of a line begins.
fn word_start(line: &[u8]) -> Option<usize>
    ensures { result ≡ position (λ byte. not (is_blank byte)) line.now }
{
    line.iter().position(|byte| !is_blank(*byte))
}

/// Returns how many bytes stand before the first blank of a line.
#[inline(always)]
#[tactic(auto, using(crate::proofs::Cutting::len_by_search))]
fn word_len(line: &[u8]) -> usize
    ensures len { result ≡ position_or_len is_blank line.now }
    ensures at_most { result ≤ length line.now }
{
    memchr3(b' ', b'\t', b'\r', line).unwrap_or(line.len())
}

/// Does what `word_len` does, for a line that begins with no blank and words that are likely to be short. It looks at
/// their bytes one by one.
#[inline(always)]
fn short_word_len(line: &[u8]) -> usize
    requires some { 0 < length line.now }
    requires begun { IfSome (slice_get line.now 0) (λ byte. is_blank byte ≡ false) }
    ensures len { result ≡ position_or_len is_blank line.now }
    ensures at_most { result ≤ length line.now }
{
    for place in 1..line.len() {
        if is_blank(line[place]) {
            return place;
        }
    }
    line.len()
}

/// Returns a line from its first word on. It has no byte if the line has no word.
#[inline(always)]
pub fn behind_blanks(line: &[u8]) -> &[u8]
    ensures words { words result.now ≡ words line.now }
    ensures begun { IfSome (slice_get result.now 0) (λ byte. is_blank byte ≡ false) }
    ensures at_most { length result.now ≤ length line.now }
{
    let mut rest = line;
    while let [byte, behind @ ..] = rest {
        if !is_blank(*byte) {
            return rest;
        }
        rest = behind;
    }
    rest
}

/// Returns the first word of a line, and what stands behind it. `None` if the line has no word.
#[inline(always)]
pub fn next_word(line: &[u8]) -> Option<(&[u8], &[u8])>
    ensures words { MatchOption result (words line.now ≡ []) (λ r. words line.now ≡ r.0.now ∷ words r.1.now) }
    ensures shorter { IfSome result (λ r. length r.1.now < length line.now) }
{
    let line = behind_blanks(line);
    if line.is_empty() {
        return None;
    }
    Some(line.split_at(word_len(line)))
}

/// Does what `next_word` does, for words that are likely to be short.
#[inline(always)]
pub fn next_short_word(line: &[u8]) -> Option<(&[u8], &[u8])>
    ensures words { MatchOption result (words line.now ≡ []) (λ r. words line.now ≡ r.0.now ∷ words r.1.now) }
    ensures shorter { IfSome result (λ r. length r.1.now < length line.now) }
{
    let line = behind_blanks(line);
    if line.is_empty() {
        return None;
    }
    Some(line.split_at(short_word_len(line)))
}

/// Returns the first word at or behind a place of a line: where it begins, and the place behind its last byte. `None`
/// if only blanks are left.
fn word_from(line: &[u8], place: usize) -> Option<(usize, usize)>
    requires { place ≤ length line.now }
    ensures { MatchOption result (words (drop place line.now) ≡ []) (λ p. IsWordFrom line.now place p.0 p.1) }
{
    let (_, rest) = line.split_at(place);
    let before = word_start(rest)?;
    let (_, rest) = rest.split_at(before);
    let start = place + before;
    Some((start, start + word_len(rest)))
}

/// Returns where a word of a line stands: the place of its first byte and the place behind its last, both counted from
/// the line's first byte. Words are counted from 0. `None` if the line has no such word.
pub fn word_at(line: &[u8], index: u64) -> Option<(usize, usize)>
    ensures none { IsNone result ↔ (length (words line.now) ≤ index) }
    ensures word { IfSome result (λ p. slice_get (words line.now) index ≡ Some (slice_range line.now p.0 p.1)) }
    ensures some { IfSome result (λ p. p.0 < p.1) }
    ensures within { IfSome result (λ p. p.1 ≤ length line.now) }
    ensures front { IfSome result (λ p. words (take p.0 line.now) ≡ take index (words line.now)) }
{
    let mut passed = 0;
    let mut left = index;
    loop {
        let Some((start, end)) = word_from(line, passed) else {
            return None;
        };
        if left == 0 {
            return Some((start, end));
        }
        left -= 1;
        passed = end;
    }
}
