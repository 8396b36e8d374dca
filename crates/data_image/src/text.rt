//! Texts in an image: a length, and that many bytes.

ghost use Rattle.std.specs.Prelude.{◌≡◌, ◌++◌, OnOk};
ghost use Rattle.data_image.specs.Spelling.{text_bytes, IsText};
ghost use Rattle.data_image.specs.Reading.{text_at};

use crate::fault::{ImageError, ImageFault};
use crate::number::{put_count, read_count};
use crate::table::TableEntry;
use sqlite_items::Items;
use std::alloc::{AllocError, Global};

/// The bytes of a text, or of an area.
impl TableEntry for Items<u8> {
    ghost spelled = { text_bytes };

    ghost read_from = { text_at };

    ghost fits = { IsText };

    fn put(&self, out: &mut Vec<u8>) -> Result<(), AllocError> {
        put_count(out, self.len())?;
        out.extend_from_slice(self.as_slice())
    }

    #[tactic(auto, unfolding(crate::specs::Reading::text_at))]
    fn read(alloc: Global, bytes: &[u8]) -> Result<(Items<u8>, &[u8]), ImageError> {
        let (count, rest) = read_count(bytes)?;
        if rest.len() < count {
            return Err(ImageError::Refused(ImageFault::Length));
        }
        let (text, rest) = rest.split_at(count);
        Ok((Items::from_slice(alloc, text)?, rest))
    }
}
