//! Single bytes in an image.

ghost use Rattle.std.specs.Prelude.{◌≡◌, ◌++◌, ◌∷◌, [], OnOk};
ghost use Rattle.answers.specs.Answer.{Gives};
ghost use Rattle.data_image.specs.Faults.{fault_of};
ghost use Rattle.data_image.specs.Spelling.{flag_byte};
ghost use Rattle.data_image.specs.Reading.{byte_at, told_at, or_value};
ghost use Rattle.data_image.specs.Reading as spec;

use crate::fault::{ImageError, ImageFault};
use std::alloc::AllocError;

/// Puts a byte.
pub fn put_byte(out: &mut Vec<u8>, byte: u8) -> Result<(), AllocError>
    ensures { OnOk result (out.new.items ≡ out.old.items ++ byte ∷ []) }
{
    out.push(byte)?;
    Ok(())
}

/// The byte in front, and the bytes after it. 71 where there is none.
#[tactic(auto, unfolding(crate::specs::Reading::byte_at))]
pub fn read_byte(bytes: &[u8]) -> Result<(u8, &[u8]), ImageError>
    ensures { Gives (λ x. (x.0, x.1.now)) fault_of result (byte_at bytes.now) }
{
    match bytes {
        [] => Err(ImageError::Refused(ImageFault::Length)),
        [byte, rest @ ..] => Ok((*byte, rest)),
    }
}

/// What there is, or 72.
pub fn found<T: Drop>(told: Option<T>) -> Result<T, ImageError>
    ensures { Gives (λ x. x) fault_of result (or_value told) }
{
    match told {
        Some(value) => Ok(value),
        None => Err(ImageError::Refused(ImageFault::Value)),
    }
}

/// 1 where it is so, else 0.
pub fn flag_byte(flag: bool) -> u8
    ensures { result ≡ flag_byte flag }
{
    if flag { 1 } else { 0 }
}

#[tactic(auto, unfolding(crate::specs::Reading::flag_of))]
fn flag_of(byte: u8) -> Option<bool>
    ensures { result ≡ spec.flag_of byte }
{
    match byte {
        0 => Some(false),
        1 => Some(true),
        _ => None,
    }
}

/// Whether it is so, and the bytes after that.
#[tactic(auto, unfolding(crate::specs::Reading::told_at))]
pub fn read_flag(bytes: &[u8]) -> Result<(bool, &[u8]), ImageError>
    ensures { Gives (λ x. (x.0, x.1.now)) fault_of result (told_at spec.flag_of bytes.now) }
{
    let (byte, rest) = read_byte(bytes)?;
    Ok((found(flag_of(byte))?, rest))
}
