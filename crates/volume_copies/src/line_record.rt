//! The record that a line of a text spells.
ghost use Rattle.std.specs.Prelude.{◌≡◌, ◌<◌, ◌+◌, ◌-◌, ◌*◌, ◌^◌, ◌++◌, length, replicate, Option, Some, None, IfOk, OnOk, IfSome};
ghost use Rattle.answers.specs.Answer.{Gives};
ghost use Rattle.volume_copies.specs.Record as spec;
ghost use Rattle.volume_copies.specs.LineErrors.{line_fault};

use crate::load_end::LineFault;
use std::alloc::{AllocError, Global};

/// Why there is no record of a line.
#[derive(Clone, Copy, PartialEq, Eq)]
pub(crate) enum LineError {
    Fault(LineFault),
    Memory,
}

/// Where in an escape a line is.
#[derive(Clone, Copy, PartialEq, Eq)]
pub(crate) enum EscapeState {
    Outside,
    /// After its backslash.
    Backslash,
    /// Before its first digit.
    HighDigit,
    /// Before its second digit, after this one.
    LowDigit(u8),
}

/// What the next byte of a line does.
#[derive(Clone, Copy, PartialEq, Eq)]
pub(crate) enum ByteStep {
    /// It begins an escape, or a part of it.
    Begins(EscapeState),
    /// It completes this byte.
    Spells(u8),
    Breaks(LineFault),
}

/// The record of so many bytes that a line spells: its bytes, and spaces after them.
pub(crate) fn record_of_line(alloc: Global, line: &[u8], long: usize) -> Result<Vec<u8>, LineError>
    ensures { Gives (λ made. made.items) line_fault result (spec.record_of long line.now) }
{
    let mut record = bytes_of_line(alloc, line)?;
    if record.len() > long {
        return Err(LineError::Fault(LineFault::Long));
    }
    let more = long - record.len();
    pad(&mut record, more)?;
    Ok(record)
}

/// The bytes that a line spells.
fn bytes_of_line(alloc: Global, line: &[u8]) -> Result<Vec<u8>, LineError>
    ensures { Gives (λ bytes. bytes.items) line_fault result (spec.line_bytes line.now) }
{
    let mut bytes = Vec::new(alloc);
    let mut state = EscapeState::Outside;
    for byte in line {
        match step(state, *byte) {
            ByteStep::Begins(next) => state = next,
            ByteStep::Spells(byte) => {
                if bytes.push(byte).is_err() {
                    return Err(LineError::Memory);
                }
                state = EscapeState::Outside;
            }
            ByteStep::Breaks(fault) => return Err(LineError::Fault(fault)),
        }
    }
    if state != EscapeState::Outside {
        return Err(LineError::Fault(LineFault::Escape));
    }
    Ok(bytes)
}

/// What a byte does after this state.
fn step(state: EscapeState, byte: u8) -> ByteStep
    ensures { result ≡ spec.byte_step state byte }
{
    match state {
        EscapeState::Outside => outside_step(byte),
        EscapeState::Backslash => backslash_step(byte),
        EscapeState::HighDigit => ByteStep::Begins(EscapeState::LowDigit(byte)),
        EscapeState::LowDigit(high) => low_step(high, byte),
    }
}

fn outside_step(byte: u8) -> ByteStep
    ensures { result ≡ spec.byte_step EscapeState.Outside byte }
{
    if byte == b'\\' {
        return ByteStep::Begins(EscapeState::Backslash);
    }
    if is_control(byte) {
        return ByteStep::Breaks(LineFault::Control);
    }
    ByteStep::Spells(byte)
}

fn backslash_step(byte: u8) -> ByteStep
    ensures { result ≡ spec.byte_step EscapeState.Backslash byte }
{
    if byte == b'\\' {
        return ByteStep::Spells(b'\\');
    }
    if byte == b'x' {
        return ByteStep::Begins(EscapeState::HighDigit);
    }
    ByteStep::Breaks(LineFault::Escape)
}

fn low_step(high: u8, byte: u8) -> ByteStep
    ensures { result ≡ spec.byte_step (EscapeState.LowDigit high) byte }
{
    match (digit_value(high), digit_value(byte)) {
        (Some(high), Some(low)) => ByteStep::Spells(high * 16 + low),
        _ => ByteStep::Breaks(LineFault::Escape),
    }
}

fn is_control(byte: u8) -> bool
    ensures { result ≡ spec.is_control byte }
{
    byte < 0x20 || byte == 0x7f
}

/// The value of a hexadecimal digit.
fn digit_value(byte: u8) -> Option<u8>
    ensures value { result ≡ spec.digit_value byte }
    ensures small { IfSome result (λ value. value < 16) }
{
    if b'0' <= byte && byte <= b'9' {
        return Some(byte - b'0');
    }
    if b'a' <= byte && byte <= b'f' {
        return Some(byte - 87);
    }
    if b'A' <= byte && byte <= b'F' {
        return Some(byte - 55);
    }
    None
}

/// Appends so many spaces.
fn pad(record: &mut Vec<u8>, count: usize) -> Result<(), AllocError>
    ensures { OnOk result (record.new.items ≡ record.old.items ++ replicate count spec.space) }
{
    for done in 0..count {
        let _ = done;
        record.push(b' ')?;
    }
    Ok(())
}

impl From<AllocError> for LineError {
    ghost use Rattle.std.specs.Prelude.{◌≡◌};
    ghost use Rattle.volume_copies.specs.declared.line_record.LineError.TheVariants.{Memory};

    ghost from_gives = { λ _ error. error ≡ Memory };

    fn from(_: AllocError) -> LineError {
        LineError::Memory
    }
}
