//! Runs of symbols.

ghost use Rattle.std.specs.Prelude.{◌≡◌, ◌*◌, ◌<◌, ◌≤◌, ◌^◌};
ghost use Rattle.picture.specs.Runs as spec;
ghost use Rattle.picture.specs.Runs.{symbol_count};

use crate::class::Class;
use crate::symbol::Symbol;

/// A symbol and how often it stands there, one after another, at least once.
#[derive(Clone, Copy)]
pub struct Run {
    pub symbol: Symbol,
    pub count: u128,
}

/// The runs after the symbols of the class, as far as these go.
#[tactic(auto, unfolding(crate::specs::Runs::runs_past))]
pub fn past(runs: &[Run], class: Class) -> &[Run]
    ensures { result.now ≡ spec.runs_past class runs.now }
{
    match runs {
        [run, more @ ..] if class.has(run.symbol) => past(more, class),
        _ => runs,
    }
}

/// The runs after one symbol of the class, where one comes next.
#[tactic(auto, unfolding(crate::specs::Runs::past_one))]
pub fn past_one(runs: &[Run], class: Class) -> &[Run]
    ensures { result.now ≡ spec.past_one class runs.now }
{
    match runs {
        [run, more @ ..] if class.has(run.symbol) && run.count == 1 => more,
        _ => runs,
    }
}

/// The runs from the first of the class on.
#[tactic(auto, unfolding(crate::specs::Runs::from_first, crate::specs::Runs::symbol_count))]
pub fn from_first(runs: &[Run], class: Class) -> &[Run]
    ensures value { result.now ≡ spec.from_first class runs.now }
    ensures fewer { symbol_count result.now ≤ symbol_count runs.now }
{
    match runs {
        [run, more @ ..] if !class.has(run.symbol) => from_first(more, class),
        _ => runs,
    }
}

/// How many symbols of the class there are.
#[tactic(auto, unfolding(crate::specs::Runs::occurrences))]
pub fn occurrences(runs: &[Run], class: Class) -> u128
    requires { 2 * symbol_count runs.now < 2 ^ 128 }
    ensures { result ≡ spec.occurrences class runs.now }
{
    let mut found = 0;
    for run in runs {
        if class.has(run.symbol) {
            found += run.count;
        }
    }
    found
}

/// The last symbol is of the class.
#[tactic(auto, unfolding(crate::specs::Runs::ends_in))]
pub fn ends_in(runs: &[Run], class: Class) -> bool
    ensures { result ≡ spec.ends_in class runs.now }
{
    match runs {
        [] => false,
        [last] => class.has(last.symbol),
        [_, more @ ..] => ends_in(more, class),
    }
}

/// The character places.
#[tactic(auto, unfolding(crate::specs::Runs::size_of))]
pub fn size_of(runs: &[Run]) -> u128
    requires { 2 * symbol_count runs.now < 2 ^ 128 }
    ensures { result ≡ spec.size_of runs.now }
{
    let mut places = 0;
    for run in runs {
        places += run.symbol.width() * run.count;
    }
    places
}
