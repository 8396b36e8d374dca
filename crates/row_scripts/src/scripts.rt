//! The scripts of a program.
use crate::cases::{Case, read_cases};
use crate::tally::Tally;
use std::process::ExitCode;
use std::rt::Files;
use std::{fs, io};

/// What a program does with a case.
pub trait CheckCase {
    /// Runs a case of a script, and prints the rows that differ.
    fn check<R: Print + AllocGlobal>(
        &self,
        rt: &R,
        script: &str,
        case: Case,
        tally: &mut Tally,
    ) -> io::Result<()>;
}

/// Runs the scripts that the file `SCRIPTS` names, and prints how many rows passed. The exit status is 1 if a row failed.
pub fn run_scripts<R: Files + Print + AllocGlobal, C: CheckCase>(
    rt: &R,
    program: &C,
) -> io::Result<ExitCode> {
    let mut tally = Tally::default();
    run_each(rt, program, &mut tally)?;
    tally.print(rt)?;
    Ok(ExitCode::from(u8::from(tally.failed > 0)))
}

fn run_each<R: Files + Print + AllocGlobal, C: CheckCase>(
    rt: &R,
    program: &C,
    tally: &mut Tally,
) -> io::Result<()> {
    let names = fs::read_to_string(rt, "SCRIPTS")?;
    run_named(rt, program, names.as_str(), tally)
}

/// Runs the scripts of these names, one a line.
fn run_named<R: Files + Print + AllocGlobal, C: CheckCase>(
    rt: &R,
    program: &C,
    names: &str,
    tally: &mut Tally,
) -> io::Result<()> {
    for name in names.lines() {
        run_script(rt, program, name, tally)?;
    }
    Ok(())
}

fn run_script<R: Files + Print + AllocGlobal, C: CheckCase>(
    rt: &R,
    program: &C,
    name: &str,
    tally: &mut Tally,
) -> io::Result<()> {
    let text = fs::read(rt, name)?;
    let cases = read_cases(rt.alloc(), &text);
    drop(text);
    run_cases(rt, program, name, cases?, tally)
}

fn run_cases<R: Print + AllocGlobal, C: CheckCase>(
    rt: &R,
    program: &C,
    name: &str,
    cases: Vec<Case>,
    tally: &mut Tally,
) -> io::Result<()> {
    for case in cases.into_iter() {
        program.check(rt, name, case, tally)?;
    }
    Ok(())
}
