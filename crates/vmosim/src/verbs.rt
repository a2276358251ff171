//! By which word of the command line a program is meant.

ghost use Rattle.std.specs.Prelude.{◌≡◌};
ghost use Rattle.vmosim.specs.Verbs.{has_verb};

/// Reports whether the first word is this one.
pub(crate) fn has_verb(verb: &[u8], words: &[String]) -> bool
    ensures { result ≡ has_verb verb.now words.now }
{
    match words {
        [first, ..] => first.as_bytes() == verb,
        [] => false,
    }
}
