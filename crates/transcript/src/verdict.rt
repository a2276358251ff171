//! What a checker says of a line.

/// The verdict of a checker on a line of a transcript.
#[derive(Clone, Copy, Debug, PartialEq, Eq)]
pub enum Verdict {
    /// A transcript may begin with the lines so far and this one.
    Fine,
    /// No transcript begins so.
    Illegal,
    /// The line begins neither with `> ` nor with `< `.
    Malformed,
}
