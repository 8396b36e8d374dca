//! Runs each program of `data/ROWS` by run_source, and by compile and run_image, with files over both stores, and compares what it shows and
//! how it ends with what its files say. Runs whose calls a row names are disturbed at each of them.
#![tactic(auto)]

mod calls;
mod disturbance;
mod disturbed_runs;
mod ending;
mod moments;
mod row;
mod rows;
mod run;
mod told;
mod volume;
mod way;

use rows::check_rows;
use std::process::ExitCode;
use std::{fs, io};

fn main(rt: HostRuntime) -> io::Result<ExitCode> {
    let names = fs::read_to_string(&rt, "ROWS")?;
    let counts = check_rows(&rt, names.as_str())?;
    counts.print(&rt)?;
    Ok(ExitCode::from(u8::from(counts.failed > 0)))
}
