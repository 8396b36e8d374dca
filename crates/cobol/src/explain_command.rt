//! `explain N`.

use crate::command::show_bytes;
use crate::verdict::Verdict;
use explanations::explanation;
use std::alloc::Global;
use std::io::Write;

/// Shows what a number means, and what to do about it.
pub fn explain_number<O: Write, E: Write>(
    alloc: Global,
    number: u64,
    out: &mut O,
    err: &mut E,
) -> Verdict {
    match explanation(alloc, number) {
        Ok(Some(text)) => show_bytes(out, text),
        Ok(None) => {
            let _ = writeln!(
                err,
                "error: no fault, refusal or FILE STATUS has the number {number}"
            );
            Verdict::WrongCommand
        }
        Err(_) => Verdict::memory(),
    }
}
