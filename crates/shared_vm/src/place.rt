//! Parts of a list that stand one behind another.

/// The place of a part: where it begins, and where the next one may.
#[derive(Clone, Copy)]
pub(crate) struct Place {
    pub(crate) start: usize,
    pub(crate) end: usize,
}
