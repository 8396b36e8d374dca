//! What a PERFORM performs, by numbers.

/// A PERFORM: the paragraph that it stands in, and the paragraphs that it performs, from one to another. Paragraphs are
/// numbered from 0 in the order of the program.
#[derive(Clone, Copy, PartialEq, Eq)]
pub struct PerformedRange {
    /// The paragraph that the PERFORM stands in.
    pub performer: usize,
    /// The first paragraph that is performed.
    pub first: usize,
    /// The last one, the first or one after it.
    pub last: usize,
}
