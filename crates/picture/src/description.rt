//! What a picture says of its item, as data.

ghost use Rattle.std.specs.Prelude.{◌≡◌, ◌≢◌, ℕ, List, ◌*◌, ◌<◌, ◌≤◌, ◌^◌, IfOk};
ghost use Rattle.picture.specs.Forms.{digit_places, most_digits, most_places, suppression_of};
ghost use Rattle.picture.specs.Categories.{HasForm};
ghost use Rattle.picture.specs.Runs as counts;
ghost use Rattle.picture.specs.Runs.{symbol_count};
ghost use Rattle.picture.specs.Pictures as spec;

use crate::category::{Category, stands};
use crate::class::Class;
use crate::edited;
use crate::place::{Place, Region, places_of, region_of};
use crate::run::{Run, from_first, occurrences, size_of};
use crate::symbol::Suppression;
use sqlite_items::Items;
use std::alloc::{AllocError, Global};

/// What the picture of an item says (COBOL-85, Nucleus, the PICTURE clause).
#[derive(Drop)]
pub struct Description {
    pub category: Category,
    /// The symbols in order, as they are written.
    pub runs: Items<Run>,
    /// The size of the item, in characters.
    pub size: u128,
    /// The digit places, 1 to 18 in a numeric or numeric edited picture, else 0.
    pub digits: u8,
    /// How many of the digit places stand after the point.
    pub scale: u8,
    /// A numeric picture has S, or a numeric edited one a sign, CR or DB.
    pub signed: bool,
    /// What each character place shows, in a numeric or numeric edited picture, else none. In a picture of characters
    /// the runs say it: at A, X and 9 a character of the sender, at B, 0 and / that insertion.
    pub places: Items<Place>,
    /// Where leading zeros are suppressed.
    pub region: Option<Region>,
}

/// The digit places after the point.
#[tactic(auto, unfolding(crate::specs::Pictures::scale_of))]
fn scale_of(runs: &[Run], by: Suppression) -> u128
    requires { 2 * symbol_count runs.now < 2 ^ 128 }
    ensures { result ≡ spec.scale_of by runs.now }
{
    occurrences(from_first(runs, Class::Points), Class::Digits(by))
}

/// A picture of digits, with zeros suppressed in that way.
#[tactic(auto, unfolding(crate::specs::Pictures::of_digits))]
fn of_digits(
    alloc: Global,
    category: Category,
    by: Suppression,
    runs: Items<Run>,
) -> Result<Description, AllocError>
    requires bounded { 2 * symbol_count runs < 2 ^ 128 }
    requires digits { digit_places by runs ≤ most_digits }
    requires fits { by ≢ Suppression.Nothing → counts.size_of runs ≤ most_places }
    ensures { IfOk result (λ description. description ≡ spec.of_digits category by runs) }
{
    let size = size_of(runs.as_slice());
    let digits = edited::digit_places(runs.as_slice(), by);
    let scale = scale_of(runs.as_slice(), by);
    let signed = stands(runs.as_slice(), Class::Signs);
    let region = region_of(runs.as_slice(), by);
    let places = places_of(alloc, runs.as_slice(), region, by)?;
    Ok(Description {
        category,
        runs,
        size,
        digits: digits as u8,
        scale: scale as u8,
        signed,
        places,
        region,
    })
}

/// A picture of characters.
#[tactic(auto, unfolding(crate::specs::Pictures::of_characters))]
fn of_characters(alloc: Global, category: Category, runs: Items<Run>) -> Description
    requires { 2 * symbol_count runs < 2 ^ 128 }
    ensures { result ≡ spec.of_characters category runs }
{
    let size = size_of(runs.as_slice());
    Description {
        category,
        runs,
        size,
        digits: 0,
        scale: 0,
        signed: false,
        places: Items::new(alloc),
        region: None,
    }
}

/// What the form of the runs says.
pub fn described(
    alloc: Global,
    category: Category,
    runs: Items<Run>,
) -> Result<Description, AllocError>
    requires bounded { 2 * symbol_count runs < 2 ^ 128 }
    requires form { HasForm category runs }
    ensures { IfOk result (λ description. description ≡ spec.description_of category runs) }
{
    match category {
        Category::Numeric => of_digits(alloc, category, Suppression::Nothing, runs),
        Category::NumericEdited => {
            let by = edited::suppression_of(runs.as_slice());
            of_digits(alloc, category, by, runs)
        }
        _ => Ok(of_characters(alloc, category, runs)),
    }
}

impl Description {
    pub fn copied(&self, alloc: Global) -> Result<Description, AllocError>
        ensures { IfOk result (λ copy. copy ≡ self.now) }
    {
        Ok(Description {
            category: self.category,
            runs: Items::from_slice(alloc, self.runs.as_slice())?,
            size: self.size,
            digits: self.digits,
            scale: self.scale,
            signed: self.signed,
            places: Items::from_slice(alloc, self.places.as_slice())?,
            region: self.region,
        })
    }
}
