//! Where a text stands in another.

ghost use Rattle.std.specs.Prelude.{◌≡◌, ◌≤◌, ◌+◌, length, IfSome, IsTrue};
ghost use Rattle.text_ops.specs.Places as spec;

/// The first place of a text in another, counted from 0.
pub fn first_place(sought: &[u8], text: &[u8]) -> Option<usize>
    ensures value { result ≡ spec.first_place sought.now text.now }
    ensures within { IfSome result (λ at. at + length sought.now ≤ length text.now) }
{
    for at in 0..text.len() {
        if begins_text(sought, &text[at..]) {
            return Some(at);
        }
    }
    None
}

/// The text stands in front of the other. The empty text stands nowhere.
fn begins_text(sought: &[u8], text: &[u8]) -> bool
    ensures value { result ≡ spec.begins_text sought.now text.now }
    ensures within { IsTrue result → length sought.now ≤ length text.now }
{
    !sought.is_empty() && text.starts_with(sought)
}
