//! What `stat` prints of a volume.
ghost use Rattle.std.specs.Prelude.{◌≡◌, ◌++◌, ◌∷◌, decimal, IfOk, OnOk};
ghost use Rattle.volume_commands.specs.Stat as spec;
ghost use Rattle.file_bytes.specs.Stored.{named_of, files_of};

use crate::escape::push_text;
use crate::file_line::{push_number, push_word};
use crate::volume_state::{Layout, VolumeState};
use file_recovery::StoredFile;
use pages::{HALF_MARKS, PAGE_MARKS};
use std::alloc::{AllocError, Global};

/// A line each: the mark, the generation, the sectors, the free sectors, the number of files, and
/// the rows of each file.
pub fn stat_text(
    alloc: Global,
    state: VolumeState,
    files: &[StoredFile],
) -> Result<Vec<u8>, AllocError>
    ensures { IfOk result (λ text. text.items ≡ spec.stat_text state (files_of files.now)) }
{
    let mut text = Vec::new(alloc);
    push_state(&mut text, state, files.len())?;
    push_rows(&mut text, files)?;
    Ok(text)
}

/// Appends the lines of a volume with so many files.
fn push_state(out: &mut Vec<u8>, state: VolumeState, count: usize) -> Result<(), AllocError>
    ensures { OnOk result (out.new.items ≡ out.old.items ++ spec.state_text state count) }
{
    push_mark_line(out, state.layout, state.version)?;
    push_number_line(out, b"generation", state.generation)?;
    push_number_line(out, b"sectors", state.sectors as u64)?;
    push_number_line(out, b"free", state.free as u64)?;
    push_number_line(out, b"files", count as u64)
}

/// Appends the lines of files.
fn push_rows(out: &mut Vec<u8>, files: &[StoredFile]) -> Result<(), AllocError>
    ensures { OnOk result (out.new.items ≡ out.old.items ++ spec.rows_text (files_of files.now)) }
{
    for file in files {
        push_rows_line(out, file)?;
    }
    Ok(())
}

fn push_mark_line(out: &mut Vec<u8>, layout: Layout, version: usize) -> Result<(), AllocError>
    ensures { OnOk result (out.new.items ≡ out.old.items ++ spec.mark_line layout version) }
{
    out.extend_from_slice(b"mark")?;
    push_word(out, &mark_of(layout, version))?;
    Ok(out.push(b'\n')?)
}

/// Appends a line of a name and a number.
fn push_number_line(out: &mut Vec<u8>, name: &[u8], number: u64) -> Result<(), AllocError>
    ensures { OnOk result (out.new.items ≡ out.old.items ++ spec.number_line name.now number) }
{
    out.extend_from_slice(name)?;
    push_number(out, number)?;
    Ok(out.push(b'\n')?)
}

/// Appends the line of a file's rows.
fn push_rows_line(out: &mut Vec<u8>, file: &StoredFile) -> Result<(), AllocError>
    ensures { OnOk result (out.new.items ≡ out.old.items ++ spec.rows_line (named_of file.now)) }
{
    out.extend_from_slice(b"rows ")?;
    push_text(out, &file.spec.name)?;
    push_number(out, file.rows.len() as u64)?;
    Ok(out.push(b'\n')?)
}

/// The mark of a layout with this index.
fn mark_of(layout: Layout, version: usize) -> [u8; 8]
    ensures { result ≡ spec.mark_of layout version }
{
    match layout {
        Layout::Trees if version == 0 => PAGE_MARKS[0],
        Layout::Trees => PAGE_MARKS[1],
        Layout::Halves => HALF_MARKS[0],
    }
}
