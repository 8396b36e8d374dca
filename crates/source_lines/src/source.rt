//! A whole source text.

ghost use Rattle.std.specs.Prelude.{◌≡◌, ◌<◌, ◌≤◌, [], ◌∷◌, length, IfSome, MatchOption};
ghost use Rattle.std.specs.Str.Lines.{strip_carriage_return};
ghost use Rattle.answers.specs.Answer.{Gives};
ghost use Rattle.source_lines.specs.Cut.{lines};
ghost use Rattle.source_lines.specs.Faults.{fault_of};
ghost use Rattle.source_lines.specs.Reading as spec;

use crate::fault::{FaultKind, SourceError, SourceFault};
use crate::line::Line;
use crate::lines::Lines;
use crate::reader::Reader;
use lexical::Place;
use memchr::memchr;
use std::alloc::Global;

/// How many bytes a source text may have at most. Own choice.
pub const MOST_BYTES: usize = 8_000_000;

const CARRIAGE_RETURN: u8 = b'\r';

const LINE_FEED: u8 = b'\n';

/// The characters of a source text (COBOL-85, Section IV, "Reference format").
///
/// A refusal tells the first fault that a reader meets who goes from line to line and in each line from left to right.
/// A literal that isn't closed is met at the line that doesn't continue it, or at the end of the text.
pub fn logical(alloc: Global, source: &[u8]) -> Result<Lines, SourceError>
    ensures { Gives (λ lines. lines) fault_of result (spec.characters_of source.now) }
{
    if source.len() > MOST_BYTES {
        return Err(too_large());
    }
    let mut reader = Reader::new(alloc);
    read_lines(&mut reader, source)?;
    Ok(Lines::new(reader.finish()?))
}

fn read_lines(reader: &mut Reader, source: &[u8]) -> Result<(), SourceError>
    requires { length source.now ≤ 8000000 }
    ensures { Gives (λ _. reader.new) fault_of result
        (spec.after_lines (spec.lines_of source.now) reader.old) }
{
    let mut number = 1;
    let mut rest = source;
    while let Some((line, more)) = first_line(rest) {
        reader.read(&Line::new(number, line))?;
        rest = more;
        number += 1;
    }
    Ok(())
}

/// The first line and the bytes after it.
fn first_line(rest: &[u8]) -> Option<(&[u8], &[u8])>
    ensures parts { MatchOption result (lines rest.now ≡ [])
        (λ parts. lines rest.now ≡ parts.0.now ∷ lines parts.1.now) }
    ensures shorter { IfSome result (λ parts. length parts.1.now < length rest.now) }
{
    match memchr(LINE_FEED, rest) {
        Some(end) => Some((without_carriage_return(&rest[..end]), &rest[end + 1..])),
        None if rest.is_empty() => None,
        None => Some((rest, &[])),
    }
}

/// The bytes of a line without the one carriage return directly before its line feed.
fn without_carriage_return(line: &[u8]) -> &[u8]
    ensures { result.now ≡ strip_carriage_return line.now }
{
    match line {
        [front @ .., CARRIAGE_RETURN] => front,
        _ => line,
    }
}

fn too_large() -> SourceError
    ensures { result ≡ SourceError.Refused spec.too_large }
{
    SourceError::Refused(SourceFault {
        kind: FaultKind::SourceTooLarge,
        place: Place { line: 1, column: 1 },
    })
}
