//! A case over a tree. Its first row is `tree KEY VALUE CACHED`: the bytes of keys and values, and how many pages are in memory.
use crate::answer::{Answer, in_words};
use crate::operands::Operands;
use crate::tree_run::TreeRun;
use btree_pages::RowLayout;
use row_scripts::{Case, CheckCase, Fault, Row, Tally, Words};
use std::alloc::{AllocError, Global};
use std::io;

/// Each row is over the tree of its case.
const OVER: &str = "its case";

/// Cases that are run over a tree.
pub struct OneTree;

impl CheckCase for OneTree {
    /// Prints the first row that differs.
    fn check<R: Print + AllocGlobal>(
        &self,
        rt: &R,
        script: &str,
        case: Case,
        tally: &mut Tally,
    ) -> io::Result<()> {
        let wrong = case.wrong;
        let done = do_rows(rt.alloc(), &case.rows, tally);
        drop(case);
        if let Some(line) = wrong {
            let fault = Fault::Spelling("this is no row");
            tally.fail_at(rt, script, OVER, line, fault)?;
        }
        match done {
            Ok(()) => Ok(()),
            Err(Failure { line, fault }) => tally.fail_at(rt, script, OVER, line, fault),
        }
    }
}

/// A row that failed: its line, and why.
#[derive(Drop)]
struct Failure {
    line: u32,
    fault: Fault,
}

/// Does the rows of a case up to the first that fails.
fn do_rows(alloc: Global, rows: &[Row], tally: &mut Tally) -> Result<(), Failure> {
    let [first, rows @ ..] = rows else {
        return Ok(());
    };
    match read_tree(alloc, &first.text) {
        Ok(mut run) => {
            let done = do_rows_on(alloc, &mut run, rows, tally);
            drop(run);
            done
        }
        Err(fault) => {
            let line = first.line;
            Err(Failure { line, fault })
        }
    }
}

fn do_rows_on(
    alloc: Global,
    run: &mut TreeRun,
    rows: &[Row],
    tally: &mut Tally,
) -> Result<(), Failure> {
    for row in rows {
        if let Err(fault) = do_row(alloc, run, &row.text) {
            let line = row.line;
            return Err(Failure { line, fault });
        }
        tally.pass();
    }
    Ok(())
}

/// Does a row, and compares what it gives with what it expects.
fn do_row(alloc: Global, run: &mut TreeRun, row: &[u8]) -> Result<(), Fault> {
    let mut operands = Operands::of(row);
    let answer = run.answer(&mut operands);
    match answer {
        Answer::NoRow(why) => Err(Fault::Spelling(why)),
        Answer::NoMemory => Err(Fault::Memory),
        _ => compare(in_words(alloc, answer, run.drawing()), operands.expected()),
    }
}

/// Compares the words of an answer with those expected.
fn compare(given: Result<String, AllocError>, expected: &[u8]) -> Result<(), Fault> {
    match given {
        Ok(words) if words.as_bytes() == expected => Ok(()),
        words => Err(Fault::found(words)),
    }
}

/// The tree of a first row.
fn read_tree(alloc: Global, row: &[u8]) -> Result<TreeRun, Fault> {
    let mut words = Words::of(row);
    let is_tree = words.takes(b"tree");
    match (words.number(), words.number(), words.number()) {
        (Some(key), Some(value), Some(cached)) if is_tree => {
            let layout = RowLayout {
                key_length: key as usize,
                value_length: value as usize,
            };
            TreeRun::new(alloc, layout, cached as usize)
        }
        _ => Err(Fault::Spelling("a case begins with its tree")),
    }
}
