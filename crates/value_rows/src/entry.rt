//! Entries of items: `X(5)`, and of numbers `S9(3)V99`, `S9(3) LEADING SEPARATE`, `9(4) COMP`, `S9(5) PACKED-DECIMAL`.

ghost use Rattle.std.specs.Prelude.{IfOk, IfSome};
ghost use Rattle.items.specs.Numbers.{IsNumeric};

use crate::operands::Operands;
use items::{Numeric, OperationalSign, Usage};
use picture::{Category, Picture, PictureError, PictureFault};
use row_scripts::look_up;
use std::alloc::{AllocError, Global};

/// The picture, if it is one.
pub fn if_any(answer: Result<Picture, PictureError>) -> Result<Option<Picture>, AllocError> {
    match answer {
        Ok(picture) => Ok(Some(picture)),
        Err(PictureError::Memory) => Err(AllocError),
        Err(PictureError::Refused(PictureFault::NoForm)) => Ok(None),
    }
}

/// The picture of a text, if it has one.
pub fn read_picture(alloc: Global, text: &[u8]) -> Result<Option<Picture>, AllocError> {
    if_any(Picture::read(alloc, text))
}

/// The item of a picture, and of the words of its usage or its sign after it.
pub fn numeric(alloc: Global, operands: &mut Operands<'_>) -> Result<Numeric, AllocError>
    ensures { IfOk result IsNumeric }
{
    let picture = read_picture(alloc, operands.word())?;
    let item = numeric_of(&picture, operands);
    drop(picture);
    if item.is_none() {
        operands.refuse();
    }
    Ok(item.unwrap_or(DIGIT))
}

/// The item of a picture, if it is numeric.
pub fn numeric_of(picture: &Option<Picture>, operands: &mut Operands<'_>) -> Option<Numeric>
    ensures { IfSome result IsNumeric }
{
    match picture {
        Some(picture) if picture.category() == Category::Numeric && picture.digits() >= 1 => {
            Some(Numeric {
                digits: picture.digits(),
                scale: picture.scale(),
                usage: usage(operands, picture.is_signed()),
            })
        }
        _ => None,
    }
}

/// The item of a picture of one digit.
const DIGIT: Numeric = Numeric {
    digits: 1,
    scale: 0,
    usage: Usage::Display(OperationalSign::Unsigned),
};

/// The word after a picture: the usage, or the place of the sign.
#[derive(Clone, Copy)]
enum Form {
    Binary,
    Packed,
    Leading,
    Trailing,
}

const FORMS: [(&[u8], Form); 4] = [
    (b"COMP", Form::Binary),
    (b"PACKED-DECIMAL", Form::Packed),
    (b"LEADING", Form::Leading),
    (b"TRAILING", Form::Trailing),
];

/// The usage, or the place of the sign and whether it is separate.
fn usage(operands: &mut Operands<'_>, signed: bool) -> Usage {
    let form = operands.words.word().and_then(form_of);
    match form {
        Some(Form::Binary) => Usage::Binary { signed },
        Some(Form::Packed) => Usage::Packed { signed },
        _ => Usage::Display(sign(signed, form, !operands.words.is_done())),
    }
}

fn form_of(word: &[u8]) -> Option<Form> {
    look_up(&FORMS, word)
}

fn sign(is_signed: bool, place: Option<Form>, is_separate: bool) -> OperationalSign {
    match (place, is_separate) {
        (Some(Form::Leading), true) => OperationalSign::LeadingSeparate,
        (Some(Form::Trailing), true) => OperationalSign::TrailingSeparate,
        (Some(Form::Leading), false) => OperationalSign::Leading,
        _ if is_signed => OperationalSign::Trailing,
        _ => OperationalSign::Unsigned,
    }
}
