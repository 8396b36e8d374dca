//! The cursor over tokens and the parts that every rule of the grammar is built of: words, names, lists. What is
//! read is what the rule spells, and what it spells is read: laws stated once, of whatever rules come.
#![tactic(auto)]

mod cursor;
mod fault;
mod names;
mod optional_words;
mod part;
mod passing;
mod phrase;
mod words;

pub use answers::beside;
pub use cursor::Tokens;
pub use fault::{Halt, ReadFault};
pub use names::{Names, begins_name, name};
pub use optional_words::skip_led;
pub use part::{Part, any, several};
pub use passing::{Passing, past_any, past_several};
pub use phrase::{Phrase, after_denied, after_opened, phrase_at, two_sided};
pub use words::{after_word, is_word, past_word};
