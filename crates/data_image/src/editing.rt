//! The pictures by which items are edited, in an image: by their runs.

ghost use Rattle.std.specs.Prelude.{◌≡◌, ◌++◌, ◌∷◌, OnOk};
ghost use Rattle.answers.specs.Answer.{Gives};
ghost use Rattle.data_image.specs.Faults.{fault_of};
ghost use Rattle.data_image.specs.Pictures as spec;
ghost use Rattle.data_image.specs.Pictures.{picture_bytes, picture_at, run_bytes, run_at, editing_bytes, editing_at, IsRunSpelled, IsPictureSpelled, IsEditingSpelled};

use crate::byte::{found, put_byte, read_byte};
use crate::fault::{ImageError, ImageFault};
use crate::number::{put_wide, read_wide};
use crate::table::{TableEntry, put_table, read_table};
use picture::{Picture, PictureError, Run, Symbol};
use sqlite_items::Items;
use std::alloc::{AllocError, Global};

// The first byte of an editing picture, or of none.
const NO_PICTURE: u8 = 0;

const PICTURE: u8 = 1;

/// Puts the picture by which an item is edited, if it is.
pub fn put_editing(out: &mut Vec<u8>, editing: &Option<Picture>) -> Result<(), AllocError>
    ensures bytes { OnOk result (out.new.items ≡ out.old.items ++ editing_bytes editing.now) }
    ensures fits { OnOk result (IsEditingSpelled editing.now) }
{
    match editing {
        None => put_byte(out, NO_PICTURE),
        Some(picture) => {
            put_byte(out, PICTURE)?;
            put_picture(out, picture)
        }
    }
}

/// That picture, or none, and the bytes after it.
#[tactic(auto, unfolding(crate::specs::Pictures::editing_at))]
pub fn read_editing(alloc: Global, bytes: &[u8]) -> Result<(Option<Picture>, &[u8]), ImageError>
    ensures { Gives (λ x. (x.0, x.1.now)) fault_of result (editing_at bytes.now) }
{
    let (byte, rest) = read_byte(bytes)?;
    match byte {
        NO_PICTURE => Ok((None, rest)),
        PICTURE => {
            let (picture, rest) = read_picture(alloc, rest)?;
            Ok((Some(picture), rest))
        }
        _ => Err(ImageError::Refused(ImageFault::Value)),
    }
}

/// The symbol whose letter this is: of CR and DB the first.
#[tactic(auto, unfolding(crate::specs::Pictures::symbol_of))]
fn symbol_of(character: u8) -> Option<Symbol>
    ensures { result ≡ spec.symbol_of character }
{
    match character {
        b'C' => Some(Symbol::Cr),
        b'D' => Some(Symbol::Db),
        _ => Symbol::from_letter(character),
    }
}

impl TableEntry for Run {
    ghost spelled = { run_bytes };

    ghost read_from = { run_at };

    ghost fits = { IsRunSpelled };

    fn put(&self, out: &mut Vec<u8>) -> Result<(), AllocError> {
        let run = *self;
        put_byte(out, run.symbol.letter())?;
        put_wide(out, run.count)
    }

    #[tactic(auto, unfolding(crate::specs::Pictures::run_at, crate::specs::Reading::told_at))]
    fn read(_alloc: Global, bytes: &[u8]) -> Result<(Run, &[u8]), ImageError> {
        let (character, rest) = read_byte(bytes)?;
        let symbol = found(symbol_of(character))?;
        let (count, rest) = read_wide(rest)?;
        Ok((Run { symbol, count }, rest))
    }
}

fn put_picture(out: &mut Vec<u8>, picture: &Picture) -> Result<(), AllocError>
    ensures bytes { OnOk result (out.new.items ≡ out.old.items ++ picture_bytes picture.now) }
    ensures fits { OnOk result (IsPictureSpelled picture.now) }
{
    picture.laws();
    put_table(out, picture.runs())
}

/// The picture of these runs, or 72.
fn picture_of(alloc: Global, runs: &[Run]) -> Result<Picture, ImageError>
    ensures { Gives (λ picture. picture) fault_of result (spec.picture_of runs.now) }
{
    match Picture::from_runs(alloc, runs) {
        Ok(picture) => Ok(picture),
        Err(PictureError::Memory) => Err(ImageError::Memory),
        Err(PictureError::Refused(_)) => Err(ImageError::Refused(ImageFault::Value)),
    }
}

#[tactic(auto, unfolding(crate::specs::Pictures::picture_at))]
fn read_picture(alloc: Global, bytes: &[u8]) -> Result<(Picture, &[u8]), ImageError>
    ensures { Gives (λ x. (x.0, x.1.now)) fault_of result (picture_at bytes.now) }
{
    let (runs, rest): (Items<Run>, &[u8]) = read_table(alloc, bytes)?;
    let picture = picture_of(alloc, runs.as_slice())?;
    Ok((picture, rest))
}
