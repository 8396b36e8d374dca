//! A case over each of its volumes.
use crate::case::Case;
use crate::connectors::Kind;
use crate::disturbance::{Disturbance, Replays, is_disturbed};
use crate::run::Run;
use row_scripts::{CheckCase, Difference, Fault, Row, Tally};
use std::alloc::{AllocError, Global};
use std::io;

/// The volume of a row that belongs to no case.
const ANY: &str = "any volume";

/// Cases that are run over each of their volumes.
pub struct EachVolume;

impl CheckCase for EachVolume {
    fn check<R: Print + AllocGlobal>(
        &self,
        rt: &R,
        script: &str,
        case: row_scripts::Case,
        tally: &mut Tally,
    ) -> io::Result<()> {
        check_case(rt, script, case, tally)
    }
}

/// Runs a case over each of its volumes, and prints the first row that differs over each.
fn check_case<R: Print + AllocGlobal>(
    rt: &R,
    script: &str,
    rows: row_scripts::Case,
    tally: &mut Tally,
) -> io::Result<()> {
    let wrong = rows.wrong;
    let rows = rows.into_rows();
    if let Some(line) = wrong {
        let fault = Fault::Spelling("this is no row");
        tally.fail_at(rt, script, ANY, line, fault)?;
    }
    match Case::of(rt.alloc(), rows) {
        Ok(case) => check_over_each(rt, script, &case, tally),
        Err(fault) => tally.fail_at(rt, script, ANY, 0, fault),
    }
}

fn check_over_each<R: Print + AllocGlobal>(
    rt: &R,
    script: &str,
    case: &Case,
    tally: &mut Tally,
) -> io::Result<()> {
    for kind in case.kinds().iter() {
        check_over(rt, script, case, *kind, tally)?;
    }
    Ok(())
}

fn check_over<R: Print + AllocGlobal>(
    rt: &R,
    script: &str,
    case: &Case,
    kind: Kind,
    tally: &mut Tally,
) -> io::Result<()> {
    let Some(difference) = do_rows(rt.alloc(), case, kind, tally)? else {
        return Ok(());
    };
    let over = name_of(rt.alloc(), kind)?;
    tally.fail(rt, script, over.as_str(), &difference)
}

/// Does the row at a place. A statement or `migrate` after the row `disturbed` is also disturbed at each of its calls.
fn do_row<'a>(
    run: &mut Run<'a>,
    kind: Kind,
    place: usize,
    row: &Row,
    replays: &mut Option<Replays<'a>>,
) -> Result<(), Fault> {
    if row.text.starts_with(b"disturbed") {
        run.row(&row.text)?;
        let begun = Replays::of(run, kind, place.saturating_add(1))?;
        drop(replays.replace(begun));
        return Ok(());
    }
    match replays {
        Some(replays) if is_disturbed(&row.text) => do_disturbed(run, place, row, replays),
        _ => run.row(&row.text),
    }
}

/// Does the row at a place, and then again with a disturbance at each of its calls.
fn do_disturbed(
    run: &mut Run<'_>,
    place: usize,
    row: &Row,
    replays: &mut Replays<'_>,
) -> Result<(), Fault> {
    run.volume.forget_calls();
    let before = run.volume.files()?;
    run.row(&row.text)?;
    run.volume.forget_calls();
    let after = run.volume.files()?;
    let disturbance = Disturbance {
        alloc: run.alloc,
        case: run.case,
        sectors: run.saved_sectors(),
        start: replays.start,
        place,
        row: &row.text,
        before,
        after,
    };
    disturbance.at_each_call(replays)
}

/// Does the rows up to the first that differs.
fn do_rows(
    alloc: Global,
    case: &Case,
    kind: Kind,
    tally: &mut Tally,
) -> Result<Option<Difference>, AllocError> {
    let mut run = match Run::new(alloc, case, kind) {
        Ok(run) => run,
        Err(fault) => return Ok(Some(Difference::at(alloc, 0, fault)?)),
    };
    let mut replays = None;
    let found = first_difference(&mut run, kind, &mut replays, tally);
    drop(replays);
    drop(run);
    found
}

fn first_difference<'a>(
    run: &mut Run<'a>,
    kind: Kind,
    replays: &mut Option<Replays<'a>>,
    tally: &mut Tally,
) -> Result<Option<Difference>, AllocError> {
    let case = run.case;
    for (place, row) in case.rows.iter().enumerate() {
        if let Err(fault) = do_row(run, kind, place, row, replays) {
            return Ok(Some(Difference::at(run.alloc, row.line, fault)?));
        }
        tally.pass();
    }
    Ok(None)
}

fn name_of(alloc: Global, kind: Kind) -> Result<String, AllocError> {
    match kind {
        Kind::Halves => "halves".to_string(alloc),
        Kind::Trees(cached) => format!(in alloc; "trees {cached}"),
        Kind::EarlierTrees(cached) => format!(in alloc; "earlier-trees {cached}"),
    }
}
