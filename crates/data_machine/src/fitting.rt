//! What receivers keep of numbers (COBOL-85, Nucleus, "The ROUNDED phrase", "The ON SIZE ERROR phrase").

ghost use Rattle.std.specs.Prelude.{◌≡◌, ◌+◌, ◌<◌, ◌≤◌, ◌^◌, length, unsigned_abs, IfSome};
ghost use Rattle.items.specs.Items.{IsItem};
ghost use Rattle.items.specs.Numbers.{IsNumeric, length_of};
ghost use Rattle.items.specs.Values.{bytes_of};
ghost use Rattle.edited_move.specs.Editing.{edited_or_blank};
ghost use Rattle.edited_move.specs.Moves.{IsOfNumber};
ghost use Rattle.source_tree.specs.Arithmetic.{held_by, receiver_of, rounding_of};
ghost use Rattle.data_instructions.specs.Tables.{IsEditing};
ghost use Rattle.data_machine.specs.KeptNumbers.{kept_of, after_kept, StoresIn};
ghost use Rattle.data_machine.specs.Writing.{with_part};

use data_instructions::DataItem;
use decimal18::{Dec, Rounding};
use edited_move::edit_number;
use items::{DataFault, Kind, Numeric, store};
use picture::Picture;

/// Which rounding a receiver has, by its ROUNDED phrase.
pub(crate) fn rounding(rounded: bool) -> Rounding
    ensures { result ≡ rounding_of rounded }
{
    if rounded {
        Rounding::Rounded
    } else {
        Rounding::Truncated
    }
}

/// Writes a number with the item's digits and scale; without S the absolute value.
#[inline(always)]
pub(crate) fn put_number(number: Dec, item: Numeric, bytes: &mut [u8])
    requires item { IsNumeric item }
    requires length { length bytes.old ≡ length_of item }
    requires digits { unsigned_abs number.coefficient < 10 ^ item.digits }
    requires scale { number.scale ≡ item.scale }
    ensures { bytes.new ≡ bytes_of item (held_by item number) }
{
    let held = if item.is_signed() {
        number
    } else {
        number.abs()
    };
    store(item, held, bytes);
}

/// The same in an item at an offset in its area: the other bytes stay.
#[inline]
pub fn store_part(
    one: &DataItem,
    area: &mut [u8],
    offset: usize,
    number: Option<Dec>,
    rounded: bool,
    keep: bool,
) -> Result<bool, DataFault>
    requires form { IsItem one.now.item }
    requires editing { IsEditing one.now.item one.now.editing }
    requires within { offset + one.now.item.length ≤ length area.old }
    ensures { StoresIn keep
        (rounding_of rounded) number (receiver_of one.now.item.kind one.now.editing) (λ to x.
        with_part area.old offset one.now.item.length (to.bytes x)) result area.old area.new }
{
    let end = offset + one.item.length as usize;
    store_item(one, number, rounded, keep, &mut area[offset..end])
}

/// What a receiver keeps of a number.
#[derive(Clone, Copy)]
struct Fitted {
    /// None where the receiver is left alone.
    number: Option<Dec>,
    size_error: bool,
}

/// What a receiver of so many digits, scale of them decimals, keeps of a number. After a size error it is left alone where
/// it is kept or there is no number, and else takes the low digits.
#[inline(always)]
fn fitted_of(number: Option<Dec>, digits: u8, scale: u8, rounded: bool, keep: bool) -> Fitted
    requires digits { digits ≤ 18 }
    requires decimals { scale ≤ digits }
    ensures value { result ≡ kept_of keep (rounding_of rounded) digits scale number }
    ensures bound { IfSome result.number (λ x. unsigned_abs x.coefficient < 10 ^ digits) }
    ensures at { IfSome result.number (λ x. x.scale ≡ scale) }
{
    let Some(number) = number else {
        return Fitted {
            number: None,
            size_error: true,
        };
    };
    let rounding = rounding(rounded);
    match number.fit(digits, scale, rounding) {
        Ok(fits) => Fitted {
            number: Some(fits),
            size_error: false,
        },
        Err(_) if keep => Fitted {
            number: None,
            size_error: true,
        },
        Err(_) => Fitted {
            number: Some(number.cut(digits, scale, rounding)),
            size_error: true,
        },
    }
}

/// Stores a number in a numeric item, and answers whether a size error arose.
#[inline]
fn store_numeric(
    item: Numeric,
    number: Option<Dec>,
    rounded: bool,
    keep: bool,
    bytes: &mut [u8],
) -> bool
    requires item { IsNumeric item }
    requires length { length bytes.old ≡ length_of item }
    ensures bytes { bytes.new ≡ after_kept (kept_of keep (rounding_of rounded) item.digits
        item.scale number).number (λ x. bytes_of item (held_by item x)) bytes.old }
    ensures size { result
        ≡ (kept_of keep (rounding_of rounded) item.digits item.scale number).size_error }
{
    let kept = fitted_of(number, item.digits, item.scale, rounded, keep);
    if let Some(number) = kept.number {
        put_number(number, item, bytes);
    }
    kept.size_error
}

/// A picture of a number has as many places as its size tells.
fn has_places(picture: &Picture)
    requires { IsOfNumber picture.now }
    ensures { picture.now.size ≡ length picture.now.places }
{
    picture.laws();
}

/// The same in an edited item, by its picture.
fn store_edited(
    picture: &Picture,
    blank_when_zero: bool,
    number: Option<Dec>,
    rounded: bool,
    keep: bool,
    bytes: &mut [u8],
) -> bool
    requires category { IsOfNumber picture.now }
    requires length { length bytes.old ≡ picture.now.size }
    ensures bytes { bytes.new ≡ after_kept (kept_of keep (rounding_of rounded) picture.now.digits
        picture.now.scale number).number (edited_or_blank blank_when_zero picture.now) bytes.old }
    ensures size { result ≡ (kept_of keep (rounding_of rounded) picture.now.digits picture.now.scale
        number).size_error }
{
    has_places(picture);
    let kept = fitted_of(number, picture.digits(), picture.scale(), rounded, keep);
    if let Some(number) = kept.number {
        edit_number(picture, blank_when_zero, number, bytes);
    }
    kept.size_error
}

/// The same in an item; a fault where it receives no numbers.
#[inline]
fn store_item(
    one: &DataItem,
    number: Option<Dec>,
    rounded: bool,
    keep: bool,
    bytes: &mut [u8],
) -> Result<bool, DataFault>
    requires form { IsItem one.now.item }
    requires editing { IsEditing one.now.item one.now.editing }
    requires length { length bytes.old ≡ one.now.item.length }
    ensures { StoresIn keep (rounding_of rounded) number (receiver_of one.now.item.kind
        one.now.editing) (λ to x. to.bytes x) result bytes.old bytes.new }
{
    match (one.item.kind, &one.editing) {
        (Kind::Numeric(numeric), _) => Ok(store_numeric(numeric, number, rounded, keep, bytes)),
        (Kind::NumericEdited { blank_when_zero }, Some(picture)) => Ok(store_edited(
            picture,
            blank_when_zero,
            number,
            rounded,
            keep,
            bytes,
        )),
        _ => Err(DataFault),
    }
}
