//! The words of the command line that programs of lines share.

ghost use Rattle.std.specs.Prelude.{◌≡◌, ◌≤◌, map, IfSome};
ghost use Rattle.std.specs.String.{string_bytes};
ghost use Rattle.vm_model.specs.Language.Reading.{number};
ghost use Rattle.line_server.specs.Words.{decimal_of_word, frames_asked, frames_in, within};

use script_text::number;
use vm_base::{DEFAULT_FRAMES, FRAMES};

/// Returns how many page frames the words ask for, if they are `verb` and behind it what `frames_in` reads. `None` for any other
/// words.
pub fn frames_asked(verb: &[u8], words: &[String]) -> Option<u32>
    ensures frames { result ≡ frames_asked verb.now words.now }
    ensures range { IfSome result (λ frames. 1 ≤ frames × frames ≤ FRAMES) }
{
    let [first, behind @ ..] = words else {
        return None;
    };
    if first.as_bytes() == verb {
        return frames_in(behind);
    }
    None
}

/// Returns how many page frames the last words ask for: `--frames N` with one to five digits from 1 to `FRAMES`, or no words for
/// `DEFAULT_FRAMES`. `None` for any other words.
pub fn frames_in(words: &[String]) -> Option<u32>
    ensures frames { result ≡ frames_in (map string_bytes words.now) }
    ensures range { IfSome result (λ frames. 1 ≤ frames × frames ≤ FRAMES) }
{
    match words {
        [] => Some(DEFAULT_FRAMES),
        [flag, frames] if flag.as_bytes() == b"--frames".as_slice() => {
            let frames = decimal_of_word(frames.as_bytes(), 5, 1, FRAMES as u64)?;
            Some(frames as u32)
        }
        _ => None,
    }
}

/// Reads a decimal number of at most `len` bytes, from `least` to `most`. `None` for any other word.
#[tactic(auto, unfolding(crate::specs::Words::decimal_of_word))]
pub fn decimal_of_word(word: &[u8], len: usize, least: u64, most: u64) -> Option<u64>
    ensures value { result ≡ decimal_of_word len least most word.now }
    ensures range { IfSome result (λ value. least ≤ value × value ≤ most) }
{
    match word {
        [b'0', b'x', ..] => None,
        _ => within(word, len, least, most),
    }
}

/// Reads a number of at most `len` bytes, from `least` to `most`. `None` for any other word.
fn within(word: &[u8], len: usize, least: u64, most: u64) -> Option<u64>
    ensures value { result ≡ within len least most word.now (number word.now) }
    ensures range { IfSome result (λ value. least ≤ value × value ≤ most) }
{
    let value = number(word)?;
    if word.len() <= len && (least <= value && value <= most) {
        Some(value)
    } else {
        None
    }
}
