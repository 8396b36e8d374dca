//! The program `cobol`: it makes volumes, compiles COBOL sources, runs their images over volumes, and prints what volumes hold.
#![tactic(auto)]

mod check_command;
mod command;
mod compile_command;
mod copy_command;
mod dump_command;
mod explain_command;
mod format_command;
mod layout_command;
mod list_command;
mod load_command;
mod migrate_command;
mod run_command;
mod stat_command;
mod unknown_name;
mod verdict;
mod watched;

use command::{command, explain};
use host::hold_descriptors;
use std::io;
use std::process::ExitCode;
use verdict::Verdict;

/// Arguments that aren't text are no command.
fn words_of(rt: &HostRuntime) -> Result<Vec<String>, Verdict> {
    let Ok(words) = std::env::args(rt) else {
        return Err(Verdict::NotText);
    };
    words.collect(rt.alloc()).map_err(|_| Verdict::memory())
}

fn main(rt: HostRuntime) -> ExitCode {
    let Ok(_held) = hold_descriptors(&rt) else {
        let verdict = Verdict::host_file();
        explain(&mut rt.stderr(), verdict);
        return ExitCode::from(verdict.status());
    };
    match words_of(&rt) {
        Ok(words) => {
            let status = command(
                &rt,
                words.as_slice(),
                rt.reader(),
                io::writer(&rt),
                rt.stderr(),
            );
            ExitCode::from(status)
        }
        Err(verdict) => {
            explain(&mut rt.stderr(), verdict);
            ExitCode::from(verdict.status())
        }
    }
}
