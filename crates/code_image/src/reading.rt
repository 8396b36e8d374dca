//! From the bytes of an image to its code.

ghost use Rattle.std.specs.Prelude.{◌≡◌, ◌==◌, Ok, Err, IfOk, length, if◌then◌else◌};
ghost use Rattle.answers.specs.Answer.{Gives};
ghost use Rattle.data_image.specs.Faults.{fault_of};
ghost use Rattle.data_image.specs.declared.fault.ImageFault.TheVariants as faults;
ghost use Rattle.code_image.specs.declared.code.Code.{Code};
ghost use Rattle.code_image.specs.Spelling.{code_bytes, HasSpelling};
ghost use Rattle.code_image.specs.Reading.{mark_at, is_version, with_version, code_at};

use crate::code::Code;
use crate::writing::{MARK, SECOND_MARK};
use answers::beside;
use data_image::{ImageError, ImageFault, read_table, read_tables};
use std::alloc::Global;

/// The code whose spelling the bytes are. The first fault from the left refuses them: 70 where the first eight bytes are no
/// mark, 71 where the bytes end too soon or go on after the code, 72 at a value that isn't possible, and at last where the mark isn't
/// that of the code.
pub fn from_bytes(alloc: Global, bytes: &[u8]) -> Result<Code, ImageError>
    // The bytes are the spelling of what is read.
    ensures found { IfOk result (λ code. bytes.now ≡ code_bytes code) }
    ensures has_spelling { IfOk result HasSpelling }
    // What the bytes spell is read, unless memory runs out.
    ensures only { (code : Code) → HasSpelling code → bytes.now ≡ code_bytes code
        → Gives (λ code. code) fault_of result (Ok code) }
    // Which fault comes first.
    ensures exact { Gives (λ code. code) fault_of result (code_at bytes.now) }
{
    read_code(alloc, bytes)
}

/// Whether the mark is that of the second version, and the bytes after it.
#[tactic(auto, unfolding(crate::specs::Reading::mark_at))]
fn read_mark(bytes: &[u8]) -> Result<(bool, &[u8]), ImageError>
    ensures { Gives (λ x. (x.0, x.1.now)) fault_of result (mark_at bytes.now) }
{
    if bytes.starts_with(&MARK) {
        return Ok((false, &bytes[MARK.len()..]));
    }
    if bytes.starts_with(&SECOND_MARK) {
        return Ok((true, &bytes[SECOND_MARK.len()..]));
    }
    Err(ImageError::Refused(ImageFault::Mark))
}

/// Whether the version is the one that a mark said.
fn is_version(said: bool, second: bool) -> bool
    ensures { result ≡ is_version said second }
{
    if said { second } else { !second }
}

/// The code, if the mark is that of its version.
fn with_version(said: bool, code: Code) -> Result<Code, ImageError>
    ensures { Gives (λ code. code) fault_of result (with_version said code) }
{
    if !is_version(said, code.is_second()) {
        drop(code);
        return Err(ImageError::Refused(ImageFault::Value));
    }
    Ok(code)
}

/// The code, if no byte is left and the mark is that of its version.
fn whole_code(second: bool, code: Code, rest: &[u8]) -> Result<Code, ImageError>
    ensures { Gives (λ code. code) fault_of result (if length rest.now == 0
        then with_version second code else Err faults.Length) }
{
    if !rest.is_empty() {
        drop(code);
        return Err(ImageError::Refused(ImageFault::Length));
    }
    with_version(second, code)
}

#[tactic(auto, unfolding(crate::specs::Reading::code_at))]
fn read_code(alloc: Global, bytes: &[u8]) -> Result<Code, ImageError>
    ensures { Gives (λ code. code) fault_of result (code_at bytes.now) }
{
    let (second, rest) = read_mark(bytes)?;
    let (tables, rest) = read_tables(alloc, rest)?;
    let (tables, (files, rest)) = beside(tables, read_table(alloc, rest))?;
    let (held, (starts, rest)) = beside((tables, files), read_table(alloc, rest))?;
    let (held, (instructions, rest)) = beside((held, starts), read_table(alloc, rest))?;
    let ((tables, files), starts) = held;
    let code = Code {
        tables,
        files,
        starts,
        instructions,
    };
    whole_code(second, code, rest)
}
