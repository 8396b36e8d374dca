//! Statuses by their first character.

ghost use Rattle.std.specs.Prelude.{◌≡◌, ◌++◌, ◌∷◌, [], OnOk};
ghost use Rattle.answers.specs.Answer.{Gives};
ghost use Rattle.data_image.specs.Faults.{fault_of};
ghost use Rattle.file_image.specs.Classes.{has_class};
ghost use Rattle.file_image.specs.Spelling as spec;
ghost use Rattle.file_image.specs.Spelling.{class_byte, class_at};

use data_image::{ImageError, found, put_byte, read_byte};
use records::Status;
use std::alloc::AllocError;

/// A class of statuses: 0x, 1x or 2x.
#[derive(Clone, Copy)]
pub enum StatusClass {
    Successful,
    AtEnd,
    InvalidKey,
}

/// Whether a status is of a class.
pub fn class_is(class: StatusClass, status: Status) -> bool
    ensures { result ≡ has_class class status }
{
    let [first, _] = status.bytes();
    match class {
        StatusClass::Successful => first == b'0',
        StatusClass::AtEnd => first == b'1',
        StatusClass::InvalidKey => first == b'2',
    }
}

// The byte of each class in an image.
const SUCCESSFUL: u8 = 1;

const AT_END: u8 = 2;

const INVALID_KEY: u8 = 3;

fn class_byte(class: StatusClass) -> u8
    ensures { result ≡ class_byte class }
{
    match class {
        StatusClass::Successful => SUCCESSFUL,
        StatusClass::AtEnd => AT_END,
        StatusClass::InvalidKey => INVALID_KEY,
    }
}

#[tactic(auto, unfolding(crate::specs::Spelling::class_of))]
fn class_of(byte: u8) -> Option<StatusClass>
    ensures { result ≡ spec.class_of byte }
{
    match byte {
        SUCCESSFUL => Some(StatusClass::Successful),
        AT_END => Some(StatusClass::AtEnd),
        INVALID_KEY => Some(StatusClass::InvalidKey),
        _ => None,
    }
}

/// Puts a class: one byte.
pub fn put_class(out: &mut Vec<u8>, class: StatusClass) -> Result<(), AllocError>
    ensures { OnOk result (out.new.items ≡ out.old.items ++ class_byte class ∷ []) }
{
    put_byte(out, class_byte(class))
}

/// The class in front, and the bytes after it. 71 where there are none, 72 where the byte has no meaning.
#[tactic(auto, unfolding(data_image::specs::Reading::told_at))]
pub fn read_class(bytes: &[u8]) -> Result<(StatusClass, &[u8]), ImageError>
    ensures { Gives (λ x. (x.0, x.1.now)) fault_of result (class_at bytes.now) }
{
    let (byte, rest) = read_byte(bytes)?;
    Ok((found(class_of(byte))?, rest))
}
