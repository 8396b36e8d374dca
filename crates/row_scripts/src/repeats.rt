//! Rows that are repeated: those between `repeat COUNT NAME=START+STEP%BOUND ..` and `end` come COUNT times, with the value of each
//! counter in place of `{NAME}`, in four digits. A counter begins at START and grows by STEP, below BOUND.
use crate::counters::{Counter, put_replaced, read_counters};
use crate::fault::Fault;
use crate::rows::Row;
use crate::words::Words;
use std::alloc::Global;

/// The most turns of a repetition.
const MOST_TURNS: u64 = 1_000_000;

/// Puts the rows of a repetition after others.
pub fn put_repeated(
    alloc: Global,
    head: &[u8],
    body: &[Row],
    rows: &mut Vec<Row>,
) -> Result<(), Fault> {
    let mut words = Words::of(head);
    words.word();
    let Some(count) = words.number() else {
        return Err(Fault::Spelling("this is no repetition"));
    };
    let counters = read_counters(alloc, words)?;
    put_turns(alloc, count, &counters, body, rows)
}

fn put_turns(
    alloc: Global,
    count: u64,
    counters: &[Counter],
    body: &[Row],
    rows: &mut Vec<Row>,
) -> Result<(), Fault> {
    for turn in 0..count.min(MOST_TURNS) {
        put_turn(alloc, turn, counters, body, rows)?;
    }
    Ok(())
}

/// Puts the rows of a turn after others.
fn put_turn(
    alloc: Global,
    turn: u64,
    counters: &[Counter],
    body: &[Row],
    rows: &mut Vec<Row>,
) -> Result<(), Fault> {
    for row in body.iter() {
        put_row_of_turn(alloc, turn, counters, row, rows)?;
    }
    Ok(())
}

fn put_row_of_turn(
    alloc: Global,
    turn: u64,
    counters: &[Counter],
    row: &Row,
    rows: &mut Vec<Row>,
) -> Result<(), Fault> {
    let line = row.line;
    let mut text = Vec::new(alloc);
    put_replaced(alloc, turn, counters, &row.text, &mut text)?;
    rows.push(Row { line, text })?;
    Ok(())
}
