//! Runs scripts of file statements over both stores, and prints the rows that differ from the script.
#![tactic(auto)]

mod answer;
mod calls;
mod case;
mod check;
mod connectors;
mod disturbance;
mod effect;
mod images;
mod listing;
mod record;
mod run;
mod select;
mod statement;
mod volume;

use check::EachVolume;
use row_scripts::run_scripts;
use std::io;
use std::process::ExitCode;

fn main(rt: HostRuntime) -> io::Result<ExitCode> {
    run_scripts(&rt, &EachVolume)
}
