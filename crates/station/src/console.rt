//! Console lines, as a record of calls left them.
ghost use Rattle.std.specs.Prelude.{◌≡◌, ◌≤◌, length, count_by, min};
ghost use Rattle.station.specs.Replay.{is_take};
ghost use Rattle.station.specs.State.{overlaid};

use crate::call::Call;

/// How many lines were taken.
pub fn taken_lines(calls: &[Call]) -> usize
    ensures { result ≡ count_by is_take calls.now }
{
    calls
        .iter()
        .filter(|call| matches!(call, Call::Take))
        .count()
}

/// Puts the front of a line into a buffer, as much as fits.
pub fn overlay(buffer: &mut [u8], line: &[u8]) -> usize
    ensures count { result ≡ min (length line.now) (length buffer.old) }
    ensures bytes { buffer.new ≡ overlaid buffer.old line.now }
{
    let n = line.len().min(buffer.len());
    buffer[..n].copy_from_slice(&line[..n]);
    n
}
