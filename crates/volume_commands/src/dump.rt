//! What `dump` prints of rows.
ghost use Rattle.std.specs.Prelude.{◌≡◌, IfOk, IfErr, OnOk, OnErr};
ghost use Rattle.std.specs.Io.KnownBytes.{Appends};
ghost use Rattle.volume_commands.specs.Dump as spec;
ghost use Rattle.volume_commands.specs.Faults.{IsWriteCause};
ghost use Rattle.volume_commands.specs.Output.{AppendsBeginning};
ghost use Rattle.file_bytes.specs.Stored.{row_of, rows_of};

use crate::escape::push_text;
use crate::output::{flush, write_text};
use crate::volume_error::VolumeError;
use file_recovery::StoredRow;
use std::alloc::{AllocError, Global};
use std::io::Write;

/// A line for each row: the text of its record.
pub fn dump_text(alloc: Global, rows: &[StoredRow]) -> Result<Vec<u8>, AllocError>
    ensures { IfOk result (λ text. text.items ≡ spec.dump_text (rows_of rows.now)) }
{
    let mut text = Vec::new(alloc);
    match write_rows(alloc, rows, &mut text) {
        Ok(()) => Ok(text),
        Err(_) => Err(AllocError),
    }
}

/// Writes a line for each row, and flushes.
pub(crate) fn write_dump<W: Write>(
    alloc: Global,
    rows: &[StoredRow],
    out: &mut W,
) -> Result<(), VolumeError>
    ensures whole { OnOk result
        (Appends (W.contents out.old) (W.contents out.new) (spec.dump_text (rows_of rows.now))) }
    ensures beginning { OnErr result (AppendsBeginning
        (W.contents out.old) (W.contents out.new) (spec.dump_text (rows_of rows.now))) }
    ensures cause { IfErr result IsWriteCause }
{
    write_rows(alloc, rows, out)?;
    flush(out)
}

/// Writes a line for each row.
fn write_rows<W: Write>(alloc: Global, rows: &[StoredRow], out: &mut W) -> Result<(), VolumeError>
    ensures whole { OnOk result
        (Appends (W.contents out.old) (W.contents out.new) (spec.dump_text (rows_of rows.now))) }
    ensures beginning { OnErr result (AppendsBeginning
        (W.contents out.old) (W.contents out.new) (spec.dump_text (rows_of rows.now))) }
    ensures cause { IfErr result IsWriteCause }
{
    let mut line = Vec::new(alloc);
    for row in rows {
        write_row(row, &mut line, out)?;
    }
    Ok(())
}

/// Writes the line of a row, which is made in `line`.
fn write_row<W: Write>(row: &StoredRow, line: &mut Vec<u8>, out: &mut W) -> Result<(), VolumeError>
    ensures whole { OnOk result
        (Appends (W.contents out.old) (W.contents out.new) (spec.row_line (row_of row.now))) }
    ensures beginning { OnErr result (AppendsBeginning
        (W.contents out.old) (W.contents out.new) (spec.row_line (row_of row.now))) }
    ensures cause { IfErr result IsWriteCause }
{
    make_line(line, row)?;
    write_text(out, line)
}

/// The line of a row, in place of what the vector holds.
fn make_line(line: &mut Vec<u8>, row: &StoredRow) -> Result<(), AllocError>
    ensures { OnOk result (line.new.items ≡ spec.row_line (row_of row.now)) }
{
    line.clear();
    push_text(line, &row.bytes)?;
    Ok(line.push(b'\n')?)
}
