//! STRING.

ghost use Rattle.std.specs.Prelude.{◌≡◌, ◌<◌, ◌+◌, ◌^◌, length};
ghost use Rattle.text_ops.specs.Strings as spec;

use crate::place::first_place;

/// A sender's characters up to its delimiter, all of them where it isn't there (COBOL-85, Nucleus, the STRING statement). Under
/// DELIMITED BY SIZE a sender is taken as it is.
#[tactic(auto, unfolding(crate::specs::Strings::delimited_characters))]
pub fn delimited<'a>(delimiter: &[u8], text: &'a [u8]) -> &'a [u8]
    ensures { result.now ≡ spec.delimited_characters delimiter.now text.now }
{
    match first_place(delimiter, text) {
        Some(at) => &text[..at],
        None => text,
    }
}

/// Puts the characters of all senders into the receiver, from the pointer on, which counts from 1 (COBOL-85, Nucleus, the
/// STRING statement). Answers the pointer after them, and whether there was an overflow.
#[tactic(auto, unfolding(crate::specs::Strings::string_of_senders))]
pub fn string_into(text: &[u8], pointer: usize, receiver: &mut [u8]) -> (usize, bool)
    requires { length receiver.old < 2 ^ 63 }
    ensures { spec.string_of_senders pointer text.now receiver.old
        ≡ record { receiver = receiver.new; pointer = result.0; overflow = result.1 } }
{
    if pointer < 1 || pointer > receiver.len() {
        return (pointer, true);
    }
    let (_before, place) = receiver.split_at_mut(pointer - 1);
    let count = text.len().min(place.len());
    let (here, _after) = place.split_at_mut(count);
    here.copy_from_slice(&text[..count]);
    (pointer + count, count < text.len())
}
