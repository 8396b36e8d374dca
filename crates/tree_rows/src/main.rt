//! Runs scripts of calls on trees of pages, and prints the rows whose answer differs from the script.
#![tactic(auto)]

mod answer;
mod calls;
mod case;
mod chain_calls;
mod drawings;
mod entry_bytes;
mod numbers;
mod operands;
mod tree_run;
mod volume;

use case::OneTree;
use row_scripts::run_scripts;
use std::io;
use std::process::ExitCode;

fn main(rt: HostRuntime) -> io::Result<ExitCode> {
    run_scripts(&rt, &OneTree)
}
