//! The form of numeric edited pictures.

ghost use Rattle.std.specs.Prelude.{◌≡◌, ◌+◌, ◌*◌, ◌<◌, ◌≤◌, ◌^◌};
ghost use Rattle.picture.specs.Runs.{symbol_count};
ghost use Rattle.picture.specs.Forms as spec;
ghost use Rattle.picture.specs.Deciding as deciding;

use crate::class::Class;
use crate::run::{Run, ends_in, from_first, occurrences, past, past_one, size_of};
use crate::symbol::Suppression;

/// The digit places that a picture has at the most.
const MOST_DIGITS: u128 = 18;

/// The character places that an edited picture has at the most.
const MOST_PLACES: u128 = 160;

/// The symbol that suppresses zeros: a floating one stands at least twice.
#[tactic(auto, unfolding(crate::specs::Forms::suppression_of))]
pub fn suppression_of(runs: &[Run]) -> Suppression
    requires { 2 * symbol_count runs.now < 2 ^ 128 }
    ensures { result ≡ spec.suppression_of runs.now }
{
    if occurrences(runs, Class::Suppressed(Suppression::FloatingCurrency)) >= 2 {
        Suppression::FloatingCurrency
    } else if occurrences(runs, Class::Suppressed(Suppression::FloatingPlus)) >= 2 {
        Suppression::FloatingPlus
    } else if occurrences(runs, Class::Suppressed(Suppression::FloatingMinus)) >= 2 {
        Suppression::FloatingMinus
    } else if occurrences(runs, Class::Suppressed(Suppression::Spaces)) >= 1 {
        Suppression::Spaces
    } else if occurrences(runs, Class::Suppressed(Suppression::Asterisks)) >= 1 {
        Suppression::Asterisks
    } else {
        Suppression::Nothing
    }
}

/// The digit places: each 9, and each symbol that suppresses zeros, except for the first of a floating one.
pub fn digit_places(runs: &[Run], by: Suppression) -> u128
    requires { 2 * symbol_count runs.now < 2 ^ 128 }
    ensures { result ≡ spec.digit_places by runs.now }
{
    let digits = occurrences(runs, Class::Digits(by));
    if by.is_floating() {
        digits.saturating_sub(1)
    } else {
        digits
    }
}

#[tactic(auto, unfolding(crate::specs::Deciding::has_digits))]
pub fn has_digits(runs: &[Run], by: Suppression) -> bool
    requires { 2 * symbol_count runs.now < 2 ^ 128 }
    ensures { result ≡ deciding.has_digits by runs.now }
{
    let digits = digit_places(runs, by);
    1 <= digits && digits <= MOST_DIGITS
}

/// The symbols after the point.
fn decimals(runs: &[Run], by: Suppression) -> Class
    requires { 2 * symbol_count runs.now < 2 ^ 128 }
    ensures { result ≡ spec.decimals by runs.now }
{
    if occurrences(runs, Class::Digits(Suppression::Nothing)) > 0 {
        Class::NinesAndInsertions
    } else {
        Class::SuppressedAndInsertions(by)
    }
}

/// What is left after the decimals.
#[tactic(auto, unfolding(crate::specs::Deciding::past_core))]
fn past_core(runs: &[Run], by: Suppression) -> &[Run]
    requires { 2 * symbol_count runs.now < 2 ^ 128 }
    ensures { result.now ≡ deciding.past_core by runs.now }
{
    let currency = past_one(runs, Class::LeadingSign(by));
    let core = past_one(currency, Class::FixedCurrency(by));
    let nines = past(core, Class::SuppressedAndInsertions(by));
    let point = past(nines, Class::NinesAndInsertions);
    past(past_one(point, Class::Points), decimals(runs, by))
}

#[tactic(auto, unfolding(crate::specs::Deciding::is_arranged))]
fn is_arranged(runs: &[Run], by: Suppression) -> bool
    requires { 2 * symbol_count runs.now < 2 ^ 128 }
    ensures { result ≡ deciding.is_arranged by runs.now }
{
    past_one(past_core(runs, by), Class::TrailingSign(by)).is_empty()
}

#[tactic(auto, unfolding(crate::specs::Deciding::has_one_sign))]
fn has_one_sign(runs: &[Run], by: Suppression) -> bool
    requires { 2 * symbol_count runs.now < 2 ^ 128 }
    ensures { result ≡ deciding.has_one_sign by runs.now }
{
    by.is_floating_sign() || occurrences(runs, Class::Signs) <= 1
}

/// Zero suppression begins before the point, and so do two places of a floating symbol.
#[tactic(auto, unfolding(crate::specs::Deciding::begins_before_point))]
fn begins_before_point(runs: &[Run], by: Suppression) -> bool
    requires { 2 * symbol_count runs.now < 2 ^ 128 }
    ensures { result ≡ deciding.begins_before_point by runs.now }
{
    let suppressed = Class::Suppressed(by);
    let after = occurrences(from_first(runs, Class::Points), suppressed);
    let places = occurrences(runs, suppressed);
    after <= places && by.least() <= places - after
}

#[tactic(auto, unfolding(crate::specs::Deciding::is_edited))]
pub fn is_edited(runs: &[Run], by: Suppression) -> bool
    requires { 2 * symbol_count runs.now < 2 ^ 128 }
    ensures { result ≡ deciding.is_edited by runs.now }
{
    is_arranged(runs, by)
        && has_one_sign(runs, by)
        && begins_before_point(runs, by)
        && has_digits(runs, by)
        && size_of(runs) <= MOST_PLACES
        && !ends_in(runs, Class::NeverLast)
}
