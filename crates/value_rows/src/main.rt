//! Reads tables of values, computes each row by the crates that it is about, and compares what it gives with what it says.
#![tactic(auto)]

mod answer;
mod decimals;
mod entry;
mod moves;
mod numbers;
mod operands;
mod operations;
mod pictures;
mod table;

use std::process::ExitCode;
use std::{env, fs, io};
use table::{Counts, check_table};

/// The tables are the files that the words of the command name; without any, the one table is standard input.
fn main(rt: HostRuntime) -> io::Result<ExitCode> {
    let mut counts = Counts::default();
    if !check_named(&rt, &mut counts)? {
        let text = io::read_to_string(rt.alloc(), rt.stdin())?;
        check_table(&rt, "stdin", text.as_str(), &mut counts)?;
    }
    println!(rt; "{} passed, {} failed", counts.passed, counts.failed)?;
    Ok(ExitCode::from(u8::from(counts.failed > 0)))
}

/// Checks the tables that the words of the command name. The answer is whether there are any.
fn check_named(rt: &HostRuntime, counts: &mut Counts) -> io::Result<bool> {
    let mut is_named = false;
    for path in env::args(rt)?.skip(1) {
        is_named = true;
        check_file(rt, path.as_str(), counts)?;
    }
    Ok(is_named)
}

fn check_file(rt: &HostRuntime, path: &str, counts: &mut Counts) -> io::Result<()> {
    let text = fs::read_to_string(rt, path)?;
    check_table(rt, path, text.as_str(), counts)
}
