//! Alphanumeric editing.

ghost use Rattle.std.specs.Prelude.{◌≡◌, ◌≤◌, ◌-◌, ◌++◌, length, take, replicate};
ghost use Rattle.picture.specs.Runs.{symbol_count};
ghost use Rattle.picture.specs.Symbols as symbols;
ghost use Rattle.edited_move.specs.EditedCharacters as spec;

use picture::{Run, Symbol};

/// Edits characters in place: those of an item, from the left, move apart for insertions, and the last ones go (COBOL-85,
/// Nucleus, the PICTURE clause, simple insertion).
pub fn edit_characters(runs: &[Run], bytes: &mut [u8])
    requires { length bytes.old ≡ symbol_count runs.now }
    ensures { bytes.new ≡ spec.edited_characters runs.now bytes.old }
{
    let size = bytes.len();
    let mut left = size;
    for run in runs {
        let at = size - left;
        let count = put_run(*run, &mut bytes[at..]);
        left -= count;
    }
}

/// A place of the symbol takes a character of the sender.
fn is_alphanumeric(symbol: Symbol) -> bool
    ensures { result ≡ symbols.is_alphanumeric symbol }
{
    matches!(symbol, Symbol::A | Symbol::X | Symbol::Nine)
}

/// The character that B, 0 or / inserts.
fn inserted(symbol: Symbol) -> u8
    ensures { result ≡ spec.inserted_character symbol }
{
    match symbol {
        Symbol::Zero => b'0',
        Symbol::Slash => b'/',
        _ => b' ',
    }
}

/// Moves the characters to the right, and inserts one as often in front. The last ones go.
fn insert_front(character: u8, count: usize, bytes: &mut [u8])
    requires { count ≤ length bytes.old }
    ensures { bytes.new ≡ replicate count character ++ take (length bytes.old - count) bytes.old }
{
    bytes.rotate_right(count);
    let (front, _) = bytes.split_at_mut(count);
    front.fill(character);
}

/// Edits one run in place, and tells how many places it takes.
fn put_run(run: Run, bytes: &mut [u8]) -> usize
    requires { run.count ≤ length bytes.old }
    ensures count { result ≡ run.count }
    ensures bytes { bytes.new ≡ spec.spread_characters run bytes.old }
{
    let count = run.count as usize;
    if !is_alphanumeric(run.symbol) {
        insert_front(inserted(run.symbol), count, bytes);
    }
    count
}
