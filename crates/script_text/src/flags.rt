//! The flags at the end of a command: words from a list of the command's own, each at most once, in any order.

ghost use Rattle.std.specs.Prelude.{◌≡◌, ◌≤◌, map};
ghost use Rattle.vm_model.specs.Language.Reading.{are_flags, bit, stands};

/// Reports whether a word stands among others.
pub fn stands(word: &[u8], words: &[&[u8]]) -> bool
    ensures { result ≡ stands word.now (map (λ w. w.now) words.now) }
{
    let mut rest = words;
    while let [other, behind @ ..] = rest {
        if word == *other {
            return true;
        }
        rest = behind;
    }
    false
}

/// Reports whether the words are flags that are known, and none of them stands twice.
pub fn are_flags(known: &[&[u8]], words: &[&[u8]]) -> bool
    ensures { result ≡ are_flags (map (λ w. w.now) known.now) (map (λ w. w.now) words.now) }
{
    let mut rest = words;
    while let [word, behind @ ..] = rest {
        if !stands(word, known) || stands(word, behind) {
            return false;
        }
        rest = behind;
    }
    true
}

/// Returns the bit of a flag if the flag stands, else 0.
pub fn bit(set: bool, value: u32) -> u32
    ensures bit { result ≡ bit set value }
    ensures at_most { result ≤ value }
{
    if set { value } else { 0 }
}
