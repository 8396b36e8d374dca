//! The text of a picture.

ghost use Rattle.std.specs.Prelude.{◌≡◌, ◌++◌, IfOk, OnOk};
ghost use Rattle.picture.specs.Spelling as spec;

use crate::run::Run;
use crate::symbol::Symbol;
use sqlite_items::Items;
use std::alloc::{AllocError, Global};

/// The digits of a count at the most.
const MOST_COUNT_DIGITS: usize = 27;

/// The radix of decimal digits.
const RADIX: u128 = 10;

/// The text of the runs.
pub fn written(alloc: Global, runs: &[Run]) -> Result<Items<u8>, AllocError>
    ensures { IfOk result (λ text. text ≡ spec.spelling_of runs.now) }
{
    let mut text = Items::new(alloc);
    for run in runs {
        push_run(*run, &mut text)?;
    }
    Ok(text)
}

/// Writes a symbol.
fn push_letters(symbol: Symbol, text: &mut Items<u8>) -> Result<(), AllocError>
    ensures { OnOk result (text.new ≡ text.old ++ spec.letters symbol) }
{
    text.push(symbol.letter())?;
    match symbol {
        Symbol::Cr => text.push(b'R'),
        Symbol::Db => text.push(b'B'),
        _ => Ok(()),
    }
}

/// Writes a number of at most so many digits.
#[tactic(auto, using(crate::proofs::WrittenTexts::none_written, crate::proofs::WrittenTexts::one_written, crate::proofs::WrittenTexts::more_written))]
fn push_decimal(most: usize, number: u128, text: &mut Items<u8>) -> Result<(), AllocError>
    ensures { OnOk result (text.new ≡ text.old ++ spec.decimal most number) }
{
    if most == 0 {
        return Ok(());
    }
    if number < RADIX {
        return text.push(b'0' + number as u8);
    }
    push_decimal(most - 1, number / RADIX, text)?;
    text.push(b'0' + (number % RADIX) as u8)
}

/// Writes a run.
#[tactic(auto, using(crate::proofs::WrittenTexts::once_written, crate::proofs::WrittenTexts::often_written))]
fn push_run(run: Run, text: &mut Items<u8>) -> Result<(), AllocError>
    ensures { OnOk result (text.new ≡ text.old ++ spec.run_text run) }
{
    push_letters(run.symbol, text)?;
    if run.count == 1 {
        return Ok(());
    }
    text.push(b'(')?;
    push_decimal(MOST_COUNT_DIGITS, run.count, text)?;
    text.push(b')')
}
