//! The code of references, numbers, senders, texts, expressions and conditions, added to the code that stands before it.
#![tactic(auto)]

mod asked;
mod branches;
mod condition;
mod condition_name;
mod emitter;
mod expression;
mod item_part;
mod number;
mod overlays;
mod references;
mod senders;
mod shown_texts;

pub use branches::{emit_branch, emit_jump, emit_meeting};
pub use condition::{Alone, alone_side, zero_literal};
pub use emitter::{Emitter, entry_number};
pub use expression::operator_code;
pub use overlays::Overlay;
pub use references::{emit_work, emit_works};
pub use shown_texts::{figurative, line_end, literal_text};
