//! The text of a picture, read as runs of symbols.

ghost use Rattle.std.specs.Prelude.{◌≡◌, ◌*◌, ◌<◌, ◌≤◌, ◌^◌, length, IfOk, IfSome};
ghost use Rattle.std.specs.Option.{option_map};
ghost use Rattle.answers.specs.Answer.{Gives};
ghost use Rattle.picture.specs.Faults.{fault_of, or_no_form};
ghost use Rattle.picture.specs.Runs.{symbol_count};
ghost use Rattle.picture.specs.Text as spec;

use crate::fault::{PictureError, PictureFault};
use crate::run::Run;
use crate::symbol::Symbol;
use sqlite_items::Items;
use std::alloc::Global;

/// The characters that a picture has at the most.
const MOST_CHARACTERS: usize = 30;

/// The runs that the text writes.
#[tactic(auto, unfolding(crate::specs::Text::runs_of, crate::specs::Text::runs_from))]
pub fn runs_of(alloc: Global, text: &[u8]) -> Result<Items<Run>, PictureError>
    ensures value { Gives (λ runs. runs) fault_of result (or_no_form (spec.runs_of text.now)) }
    ensures bound { IfOk result (λ runs. 2 * symbol_count runs < 2 ^ 128) }
{
    if text.len() > MOST_CHARACTERS {
        return Err(PictureError::Refused(PictureFault::NoForm));
    }
    let mut runs = Items::new(alloc);
    let mut rest = text;
    for _turn in 0..MOST_CHARACTERS {
        if rest.is_empty() {
            return Ok(runs);
        }
        let Some((run, more)) = run_at(rest) else {
            return Err(PictureError::Refused(PictureFault::NoForm));
        };
        runs.push(run)?;
        rest = more;
    }
    if rest.is_empty() {
        Ok(runs)
    } else {
        Err(PictureError::Refused(PictureFault::NoForm))
    }
}

/// The number that the digits in front write, and what comes after them.
#[tactic(auto, unfolding(crate::specs::Text::number_at))]
fn number_at(text: &[u8]) -> (u128, &[u8])
    requires { length text.now ≤ spec.most_characters }
    ensures value { spec.number_at 0 text.now ≡ (result.0, result.1.now) }
    ensures bound { result.0 < spec.count_limit }
    ensures within { length result.1.now ≤ length text.now }
{
    let mut number = 0;
    let mut rest = text;
    while let [digit @ b'0'..=b'9', more @ ..] = rest {
        number = number * 10 + u128::from(*digit - b'0');
        rest = more;
    }
    (number, rest)
}

/// How often the character before stands there, and what comes after that.
#[tactic(auto, unfolding(crate::specs::Text::count_at, crate::specs::Text::count_before_parenthesis))]
fn count_at(text: &[u8]) -> Option<(u128, &[u8])>
    requires { length text.now ≤ spec.most_characters }
    ensures value { option_map (λ x. (x.0, x.1.now)) result ≡ spec.count_at text.now }
    ensures bound { IfSome result (λ x. x.0 < spec.count_limit) }
    ensures within { IfSome result (λ x. length x.1.now ≤ length text.now) }
{
    match text {
        [b'(', counted @ ..] => match number_at(counted) {
            (number, [b')', rest @ ..]) if number >= 1 => Some((number, rest)),
            _ => None,
        },
        _ => Some((1, text)),
    }
}

/// The character in front, in upper case, how often it stands there, and what comes after it.
#[tactic(auto, unfolding(crate::specs::Text::character_at))]
fn character_at(text: &[u8]) -> Option<(u8, u128, &[u8])>
    requires { length text.now ≤ spec.most_characters }
    ensures value { option_map (λ x. (x.0, x.1, x.2.now)) result ≡ spec.character_at text.now }
    ensures bound { IfSome result (λ x. x.1 < spec.count_limit) }
    ensures within { IfSome result (λ x. length x.2.now < length text.now) }
{
    let [byte, more @ ..] = text else {
        return None;
    };
    let (count, rest) = count_at(more)?;
    Some((byte.to_ascii_uppercase(), count, rest))
}

/// The symbol of two characters, each once, of which the first stood before `rest` as often as `count`.
#[tactic(auto, unfolding(crate::specs::Text::pair_at))]
fn pair_at(second: u8, symbol: Symbol, count: u128, rest: &[u8]) -> Option<(Run, &[u8])>
    requires { length rest.now ≤ spec.most_characters }
    ensures value { option_map (λ x. (x.0, x.1.now)) result
        ≡ spec.pair_at second symbol count rest.now }
    ensures bound { IfSome result (λ x. x.0.count < spec.count_limit) }
    ensures within { IfSome result (λ x. length x.1.now ≤ length rest.now) }
{
    if count != 1 {
        return None;
    }
    let (character, times, rest) = character_at(rest)?;
    if character == second && times == 1 {
        Some((Run { symbol, count: 1 }, rest))
    } else {
        None
    }
}

/// The run in front, and what comes after it.
#[tactic(auto, unfolding(crate::specs::Text::run_at, crate::specs::Text::run_from))]
fn run_at(text: &[u8]) -> Option<(Run, &[u8])>
    requires { length text.now ≤ spec.most_characters }
    ensures value { option_map (λ x. (x.0, x.1.now)) result ≡ spec.run_at text.now }
    ensures bound { IfSome result (λ x. x.0.count < spec.count_limit) }
    ensures within { IfSome result (λ x. length x.1.now ≤ length text.now) }
{
    let (character, count, rest) = character_at(text)?;
    match character {
        b'C' => pair_at(b'R', Symbol::Cr, count, rest),
        b'D' => pair_at(b'B', Symbol::Db, count, rest),
        _ => {
            let symbol = Symbol::from_letter(character)?;
            Some((Run { symbol, count }, rest))
        }
    }
}
