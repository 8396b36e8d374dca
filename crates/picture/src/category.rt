//! The category of a picture, by its form.

ghost use Rattle.std.specs.Prelude.{◌≡◌, ◌*◌, ◌<◌, ◌^◌};
ghost use Rattle.picture.specs.Runs.{symbol_count};
ghost use Rattle.picture.specs.Categories as spec;
ghost use Rattle.picture.specs.Deciding as deciding;

use crate::class::Class;
use crate::edited::{has_digits, is_edited, suppression_of};
use crate::run::{Run, occurrences, past, past_one};
use crate::symbol::Suppression;

/// The category of an item (COBOL-85, Nucleus, the PICTURE clause).
#[derive(Clone, Copy, PartialEq, Eq)]
pub enum Category {
    Alphabetic,
    Alphanumeric,
    AlphanumericEdited,
    Numeric,
    NumericEdited,
}

pub fn stands(runs: &[Run], class: Class) -> bool
    requires { 2 * symbol_count runs.now < 2 ^ 128 }
    ensures { result ≡ spec.contains_class class runs.now }
{
    occurrences(runs, class) > 0
}

#[tactic(auto, unfolding(crate::specs::Deciding::is_only))]
fn is_only(runs: &[Run], class: Class) -> bool
    ensures { result ≡ deciding.is_only class runs.now }
{
    past(runs, class).is_empty()
}

/// The category that the symbols of a picture allow.
#[tactic(auto, unfolding(crate::specs::Categories::kind_of, crate::specs::Deciding::is_only))]
fn kind_of(runs: &[Run]) -> Category
    requires { 2 * symbol_count runs.now < 2 ^ 128 }
    ensures { result ≡ spec.kind_of runs.now }
{
    if stands(runs, Class::LettersAndCharacters) {
        if stands(runs, Class::SimpleInsertions) {
            Category::AlphanumericEdited
        } else if stands(runs, Class::CharactersAndNines) {
            Category::Alphanumeric
        } else {
            Category::Alphabetic
        }
    } else if is_only(runs, Class::Numeric) {
        Category::Numeric
    } else {
        Category::NumericEdited
    }
}

#[tactic(auto, unfolding(crate::specs::Deciding::is_numeric_picture))]
fn is_numeric(runs: &[Run]) -> bool
    requires { 2 * symbol_count runs.now < 2 ^ 128 }
    ensures { result ≡ deciding.is_numeric_picture runs.now }
{
    let nines = Class::Digits(Suppression::Nothing);
    let whole = past(past_one(runs, Class::OperationalSign), nines);
    is_only(past_one(whole, Class::AssumedPoint), nines) && has_digits(runs, Suppression::Nothing)
}

#[tactic(auto, unfolding(crate::specs::Deciding::is_of))]
fn is_of(category: Category, runs: &[Run]) -> bool
    requires { 2 * symbol_count runs.now < 2 ^ 128 }
    ensures { result ≡ deciding.is_of category runs.now }
{
    match category {
        Category::Alphabetic => is_only(runs, Class::Letters),
        Category::Alphanumeric => is_only(runs, Class::Alphanumeric),
        Category::AlphanumericEdited => is_only(runs, Class::AlphanumericEdited),
        Category::Numeric => is_numeric(runs),
        Category::NumericEdited => is_edited(runs, suppression_of(runs)),
    }
}

/// The category of the picture, if it has a form.
#[tactic(auto, unfolding(crate::specs::Deciding::category_of))]
pub fn category_of(runs: &[Run]) -> Option<Category>
    requires { 2 * symbol_count runs.now < 2 ^ 128 }
    ensures { result ≡ deciding.category_of runs.now }
{
    let category = kind_of(runs);
    if is_of(category, runs) {
        Some(category)
    } else {
        None
    }
}
