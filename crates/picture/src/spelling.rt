//! Which runs a text can spell.

ghost use Rattle.std.specs.Prelude.{◌≡◌, ◌<◌, ◌≤◌, ◌*◌, ◌^◌, length, IsTrue};
ghost use Rattle.picture.specs.Runs.{symbol_count};
ghost use Rattle.picture.specs.Spelling as spec;
ghost use Rattle.picture.specs.Spelling.{count_most, most_count_digits};

use crate::run::Run;
use crate::symbol::Symbol;

/// The characters that a picture has at the most.
const MOST_CHARACTERS: usize = 30;

/// The least count that no text of a picture writes.
const COUNT_MOST: u128 = 1_000_000_000_000_000_000_000_000_000;

/// A text of a picture can spell the runs.
pub fn are_spelled(runs: &[Run]) -> bool
    ensures value { result ≡ spec.are_spelled runs.now }
    ensures bound { IsTrue result → 2 * symbol_count runs.now < 2 ^ 128 }
{
    fit_in(runs, MOST_CHARACTERS)
}

fn is_pair(symbol: Symbol) -> bool
    ensures { result ≡ spec.is_pair symbol }
{
    matches!(symbol, Symbol::Cr | Symbol::Db)
}

/// How many digits write the number.
fn digit_count(number: u128) -> usize
    requires { number < count_most }
    ensures value { result ≡ length (spec.decimal most_count_digits number) }
    ensures few { result ≤ most_count_digits }
{
    let mut digits = 1;
    let mut rest = number;
    while rest >= 10 {
        rest /= 10;
        digits += 1;
    }
    digits
}

fn can_repeat(run: Run) -> bool
    ensures { result ≡ spec.can_repeat run.symbol run.count }
{
    let limit = if is_pair(run.symbol) { 2 } else { COUNT_MOST };
    1 <= run.count && run.count < limit
}

/// The characters that spell the run.
fn length_of(run: Run) -> usize
    requires { run.count < count_most }
    ensures { result ≡ length (spec.run_text run) }
{
    let letters = if is_pair(run.symbol) { 2 } else { 1 };
    if run.count == 1 {
        letters
    } else {
        letters + 2 + digit_count(run.count)
    }
}

#[tactic(auto, unfolding(crate::specs::Spelling::fit_in))]
fn fit_in(runs: &[Run], room: usize) -> bool
    ensures { result ≡ spec.fit_in room runs.now }
{
    match runs {
        [] => true,
        [run, more @ ..] => {
            if !can_repeat(*run) {
                return false;
            }
            let length = length_of(*run);
            length <= room && fit_in(more, room - length)
        }
    }
}
