//! MOVE.

ghost use Rattle.std.specs.Prelude.{◌≡◌, ℕ, ◌<◌, ◌^◌, List, length, true, false, IsTrue, Some, unsigned_abs};
ghost use Rattle.std.specs.Option.{option_map};
ghost use Rattle.items.specs.Numbers.{IsNumeric, length_of};
ghost use Rattle.items.specs.Values.{bytes_of};
ghost use Rattle.items.specs.Texts.{padded_text};
ghost use Rattle.items.specs.Items.{IsItem, IsTaken};
ghost use Rattle.items.specs.Faults.{Writes};
ghost use Rattle.picture.specs.declared.category.Category.TheVariants.{AlphanumericEdited};
ghost use Rattle.picture.specs.Runs.{symbol_count};
ghost use Rattle.edited_move.specs.Editing.{edited_or_blank};
ghost use Rattle.edited_move.specs.EditedCharacters.{edited_characters};
ghost use Rattle.edited_move.specs.Moves as spec;
ghost use Rattle.edited_move.specs.Moves.{IsEditedBy, IsOfNumber, IsPlainKind};

use crate::characters::edit_characters;
use crate::editing::edit_number;
use crate::sender::{has_group, put_characters, put_plain, sender_number};
use decimal18::{Dec, Rounding};
use items::{DataFault, Item, Kind, Numeric, Taken, put_padded, store};
use picture::Picture;

/// Moves a number to a numeric item (COBOL-85, Nucleus, the MOVE statement: the point is aligned, digits are cut at both ends,
/// and an item without S holds the absolute value).
#[inline]
pub fn move_number(x: Dec, item: Numeric, bytes: &mut [u8])
    requires item { IsNumeric item }
    requires length { length bytes.old ≡ length_of item }
    ensures { bytes.new ≡ bytes_of item (spec.received_number item x) }
{
    let kept = received(item, x);
    store(item, kept, bytes);
}

/// Moves to an item that isn't edited (COBOL-85, Nucleus, the MOVE statement). The sender is given as it was taken; the bytes
/// are the receiver's own. Fault 90 where a number is wanted of bytes that hold none: the receiver stays then. Where a number
/// is wanted, characters are at most 18 (`is_short`). What is moved to what is seen where it stands, since copies of it take
/// as long as a move of few characters.
#[inline]
pub fn move_between(
    taken: &Taken,
    from: &[u8],
    receiver: &Item,
    bytes: &mut [u8],
) -> Result<(), DataFault>
    requires taken { IsTaken taken.now from.now }
    requires receiver { IsItem receiver.now }
    requires plain { IsPlainKind receiver.now.kind }
    requires short { spec.is_short receiver.now taken.now ≡ true }
    requires length { length bytes.old ≡ receiver.now.length }
    ensures { Writes result bytes.old bytes.new (spec.moved_bytes receiver.now taken.now from.now) }
{
    if is_copy(taken, receiver) {
        put_padded(from, bytes);
        return Ok(());
    }
    move_any(taken, from, receiver, bytes)
}

/// The same of values.
#[inline]
pub fn move_into(
    taken: Taken,
    from: &[u8],
    receiver: Item,
    bytes: &mut [u8],
) -> Result<(), DataFault>
    requires taken { IsTaken taken from.now }
    requires receiver { IsItem receiver }
    requires plain { IsPlainKind receiver.kind }
    requires short { spec.is_short receiver taken ≡ true }
    requires length { length bytes.old ≡ receiver.length }
    ensures { Writes result bytes.old bytes.new (spec.moved_bytes receiver taken from.now) }
{
    move_between(&taken, from, &receiver, bytes)
}

/// The same to an edited item, which has that picture.
#[tactic(auto, unfolding(crate::specs::Moves::moved_by_picture))]
pub fn edit_into(
    taken: Taken,
    from: &[u8],
    receiver: Item,
    picture: &Picture,
    bytes: &mut [u8],
) -> Result<(), DataFault>
    requires taken { IsTaken taken from.now }
    requires edited { IsEditedBy receiver picture.now }
    requires short { spec.is_short receiver taken ≡ true }
    requires length { length bytes.old ≡ receiver.length }
    ensures { Writes result bytes.old bytes.new
        (spec.moved_by_picture receiver picture.now taken from.now) }
{
    if has_group(receiver, taken) {
        put_plain(taken, from, is_right(receiver.kind), bytes);
        return Ok(());
    }
    move_edited(taken, from, receiver, picture, bytes)
}

/// The number that the item holds of another after a move: the point aligned, both ends cut, without S no sign.
#[inline]
fn received(item: Numeric, x: Dec) -> Dec
    requires { IsNumeric item }
    ensures value { result ≡ spec.received_number item x }
    ensures below { unsigned_abs (spec.cut_number item x).coefficient < 10 ^ item.digits }
{
    let cut = x.cut(item.digits, item.scale, Rounding::Truncated);
    if item.is_signed() { cut } else { cut.abs() }
}

/// Between these two a move copies the sender's bytes from the left.
#[inline(always)]
fn is_copy(taken: &Taken, receiver: &Item) -> bool
    ensures { IsTrue result → (from : List ℕ) → spec.moved_bytes receiver.now taken.now from ≡ Some
        (padded_text receiver.now.length from) }
{
    let Taken::Item(sender) = *taken else {
        return false;
    };
    let is_number = matches!(sender.kind, Kind::Numeric(_));
    match receiver.kind {
        Kind::Group => true,
        Kind::Alphabetic { justified } | Kind::Alphanumeric { justified } => {
            !justified && !is_number
        }
        _ => false,
    }
}

fn is_right(kind: Kind) -> bool
    ensures { result ≡ spec.is_right kind }
{
    match kind {
        Kind::Alphabetic { justified } | Kind::Alphanumeric { justified } => justified,
        _ => false,
    }
}

/// Moves between elementary items, to a receiver that isn't edited.
fn move_plain(taken: Taken, from: &[u8], receiver: Item, bytes: &mut [u8]) -> Result<(), DataFault>
    requires taken { IsTaken taken from.now }
    requires receiver { IsItem receiver }
    requires plain { IsPlainKind receiver.kind }
    requires short { spec.needs_number receiver.kind ≡ true → spec.is_number_sender taken ≡ true }
    requires length { length bytes.old ≡ receiver.length }
    ensures { Writes result bytes.old bytes.new
        (spec.moved_plain receiver.kind receiver.length taken from.now) }
{
    match receiver.kind {
        Kind::Numeric(numeric) => {
            let Some(x) = sender_number(taken, from) else {
                return Err(DataFault);
            };
            move_number(x, numeric, bytes);
            Ok(())
        }
        Kind::Alphabetic { justified } | Kind::Alphanumeric { justified } => {
            put_characters(taken, from, justified, bytes)
        }
        _ => {
            put_plain(taken, from, false, bytes);
            Ok(())
        }
    }
}

/// An alphanumeric edited picture has a place for each symbol.
fn text_places(picture: &Picture)
    requires { picture.now.category ≡ AlphanumericEdited }
    ensures { picture.now.size ≡ symbol_count picture.now.runs }
{
    picture.laws();
}

/// A picture of a number has as many places as its size tells.
fn number_places(picture: &Picture)
    requires { IsOfNumber picture.now }
    ensures { picture.now.size ≡ length picture.now.places }
{
    picture.laws();
}

/// Moves characters to an alphanumeric edited item.
fn edit_text(
    taken: Taken,
    from: &[u8],
    picture: &Picture,
    bytes: &mut [u8],
) -> Result<(), DataFault>
    requires taken { IsTaken taken from.now }
    requires category { picture.now.category ≡ AlphanumericEdited }
    requires length { length bytes.old ≡ picture.now.size }
    ensures { Writes result bytes.old bytes.new (option_map (edited_characters picture.now.runs)
        (spec.sent_characters false (length bytes.old) taken from.now)) }
{
    text_places(picture);
    put_characters(taken, from, false, bytes)?;
    edit_characters(picture.runs(), bytes);
    Ok(())
}

/// Moves a number to a numeric edited item.
fn edit_sent(
    taken: Taken,
    from: &[u8],
    blank_when_zero: bool,
    picture: &Picture,
    bytes: &mut [u8],
) -> Result<(), DataFault>
    requires taken { IsTaken taken from.now }
    requires short { spec.is_number_sender taken ≡ true }
    requires category { IsOfNumber picture.now }
    requires length { length bytes.old ≡ picture.now.size }
    ensures { Writes result bytes.old bytes.new (option_map
        (edited_or_blank blank_when_zero picture.now) (spec.sender_number taken from.now)) }
{
    number_places(picture);
    let Some(x) = sender_number(taken, from) else {
        return Err(DataFault);
    };
    edit_number(picture, blank_when_zero, x, bytes);
    Ok(())
}

/// Moves to an edited receiver, by its picture, from an elementary item.
fn move_edited(
    taken: Taken,
    from: &[u8],
    receiver: Item,
    picture: &Picture,
    bytes: &mut [u8],
) -> Result<(), DataFault>
    requires taken { IsTaken taken from.now }
    requires edited { IsEditedBy receiver picture.now }
    requires short { spec.needs_number receiver.kind ≡ true → spec.is_number_sender taken ≡ true }
    requires length { length bytes.old ≡ receiver.length }
    ensures { Writes result bytes.old bytes.new
        (spec.moved_edited receiver.kind receiver.length picture.now taken from.now) }
{
    match receiver.kind {
        Kind::NumericEdited { blank_when_zero } => {
            edit_sent(taken, from, blank_when_zero, picture, bytes)
        }
        _ => edit_text(taken, from, picture, bytes),
    }
}

/// Moves to an item that isn't edited, whatever is moved.
#[inline(never)]
#[tactic(auto, unfolding(crate::specs::Moves::moved_bytes))]
fn move_any(taken: &Taken, from: &[u8], receiver: &Item, bytes: &mut [u8]) -> Result<(), DataFault>
    requires taken { IsTaken taken.now from.now }
    requires receiver { IsItem receiver.now }
    requires plain { IsPlainKind receiver.now.kind }
    requires short { spec.is_short receiver.now taken.now ≡ true }
    requires length { length bytes.old ≡ receiver.now.length }
    ensures { Writes result bytes.old bytes.new (spec.moved_bytes receiver.now taken.now from.now) }
{
    if has_group(*receiver, *taken) {
        put_plain(*taken, from, is_right(receiver.kind), bytes);
        return Ok(());
    }
    move_plain(*taken, from, *receiver, bytes)
}
