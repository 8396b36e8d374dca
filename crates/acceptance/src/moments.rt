//! Texts with a line for each moment of a run.

/// How many lines a text has, each ended by a line feed.
pub fn count_lines(text: &[u8]) -> usize {
    text.iter().filter(|byte| **byte == b'\n').count()
}

/// The first lines of a text, as many as these, or all that it has.
pub fn first_lines(text: &[u8], count: usize) -> &[u8] {
    let mut left = count;
    for (index, byte) in text.iter().enumerate() {
        if left == 0 {
            return text.get(..index).unwrap_or(text);
        }
        if *byte == b'\n' {
            left = left.saturating_sub(1);
        }
    }
    text
}

/// The line after so many others, without its line feed, if the text has one.
pub fn line_after(text: &[u8], count: usize) -> Option<&[u8]> {
    text.split(|byte| *byte == b'\n').nth(count)
}
