//! The item of an entry with a picture.

ghost use Rattle.std.specs.Prelude.{◌≡◌, ◌≤◌, IfOk};
ghost use Rattle.picture.specs.declared.category.Category.TheVariants as category;
ghost use Rattle.source_tree.specs.Clauses as spec;
ghost use Rattle.source_tree.specs.ClauseRules.{most_item_bytes};
ghost use Rattle.data_entries.specs.Forms.{IsKind};

use crate::clauses::kind;
use items::{Item, Kind};
use picture::{Picture, PictureError};
use source_tree::{Around, ItemEntry};
use std::alloc::{AllocError, Global};

/// The picture that the entry's clause spells; none without a clause, or where its characters have no form.
pub fn picture_of(alloc: Global, entry: &ItemEntry) -> Result<Option<Picture>, AllocError>
    ensures { IfOk result (λ picture. picture ≡ spec.picture_in entry.now) }
{
    let Some(text) = &entry.picture else {
        return Ok(None);
    };
    match Picture::read(alloc, text.characters.as_slice()) {
        Ok(picture) => Ok(Some(picture)),
        Err(PictureError::Refused(_)) => Ok(None),
        Err(PictureError::Memory) => Err(AllocError),
    }
}

/// Of a numeric picture the digits are 1 to 18, the decimals among them.
fn digits_are_bounded(picture: &Picture)
    requires { picture.now.category ≡ category.Numeric }
    ensures some { 1 ≤ picture.now.digits }
    ensures most { picture.now.digits ≤ 18 }
    ensures decimals { picture.now.scale ≤ picture.now.digits }
{
    picture.laws();
}

/// The kind of the elementary item with that picture; a numeric one has 1 to 18 digits.
fn formed_kind(around: Around, entry: &ItemEntry, picture: &Picture) -> Kind
    ensures kind { result ≡ spec.kind_of around entry.now picture.now }
    ensures form { IsKind result }
{
    let kind = kind(around, entry, picture);
    if let Kind::Numeric(_) = kind {
        digits_are_bounded(picture);
    }
    kind
}

/// The length of the elementary item with that picture, in bytes.
pub fn elementary_length(around: Around, entry: &ItemEntry, picture: &Picture) -> u128
    ensures { result ≡ (spec.elementary around entry.now picture.now).length }
{
    match kind(around, entry, picture) {
        Kind::Numeric(numeric) => {
            digits_are_bounded(picture);
            numeric.length() as u128
        }
        _ => picture.size(),
    }
}

/// The elementary item with that picture. Its length is one that items may have.
pub fn elementary(around: Around, entry: &ItemEntry, picture: &Picture) -> Item
    requires { (spec.elementary around entry.now picture.now).length ≤ most_item_bytes }
    ensures item { result ≡ spec.elementary around entry.now picture.now }
    ensures form { IsKind result.kind }
{
    Item {
        kind: formed_kind(around, entry, picture),
        length: elementary_length(around, entry, picture) as u32,
    }
}

/// The picture by which an elementary item is edited; none where it isn't edited.
pub fn editing(around: Around, entry: &ItemEntry, picture: Picture) -> Option<Picture>
    ensures { result ≡ spec.editing_by (spec.kind_of around entry.now picture) picture }
{
    match kind(around, entry, &picture) {
        Kind::AlphanumericEdited | Kind::NumericEdited { .. } => Some(picture),
        _ => None,
    }
}
