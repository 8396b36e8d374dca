//! The lines of a text.
ghost use Rattle.std.specs.Prelude.{◌≡◌, ◌<◌, ◌∷◌, ◌==◌, length};
ghost use Rattle.std.specs.List.{position_or_len};
ghost use Rattle.volume_copies.specs.Lines.{line_feed, lines_of};

/// The first line of a text, without its line feed, and the rest after that.
pub(crate) fn split_line(text: &[u8]) -> (&[u8], &[u8])
    requires { 0 < length text.now }
    ensures lines { lines_of text.now ≡ result.0.now ∷ lines_of result.1.now }
    ensures shorter { length result.1.now < length text.now }
{
    let count = line_length(text);
    if count < text.len() {
        return (&text[..count], &text[count + 1..]);
    }
    (text, &text[..0])
}

/// How many bytes are before the first line feed.
fn line_length(text: &[u8]) -> usize
    ensures { result ≡ position_or_len (λ byte. byte == line_feed) text.now }
{
    for place in 0..text.len() {
        if text[place] == b'\n' {
            return place;
        }
    }
    text.len()
}
