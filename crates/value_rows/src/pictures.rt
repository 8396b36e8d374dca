//! What pictures say, in words.

use crate::answer::{Answer, NONE};
use crate::entry::{if_any, read_picture};
use crate::operands::Operands;
use picture::{Category, Picture, Place, Run, Suppression, Symbol};
use row_scripts::look_up;
use std::alloc::{AllocError, Global};

/// What is asked of a picture.
#[derive(Clone, Copy)]
pub enum Asked {
    Summary,
    Places,
    Region,
    Spelling,
}

const SYMBOLS: [(&[u8], Symbol); 3] = [
    (b"X", Symbol::X),
    (b"9", Symbol::Nine),
    (b"CR", Symbol::Cr),
];

/// `picture PICTURE`, and `places`, `region`, `spelling`; a picture can stand in quotation marks.
pub fn told_of(
    alloc: Global,
    asked: Asked,
    operands: &mut Operands<'_>,
) -> Result<Answer, AllocError> {
    let picture = read_operand(alloc, operands)?;
    let told = what_is_told(alloc, asked, &picture);
    drop(picture);
    told
}

fn read_operand(alloc: Global, operands: &mut Operands<'_>) -> Result<Option<Picture>, AllocError> {
    let word = operands.word();
    if !word.starts_with(b"\"") {
        return read_picture(alloc, word);
    }
    let text = operands.bytes(alloc, word)?;
    let picture = read_picture(alloc, &text);
    drop(text);
    picture
}

fn what_is_told(
    alloc: Global,
    asked: Asked,
    picture: &Option<Picture>,
) -> Result<Answer, AllocError> {
    let Some(picture) = picture else {
        return Ok(Answer::NoPicture);
    };
    match asked {
        Asked::Summary => described(alloc, picture),
        Asked::Places => places(alloc, picture),
        Asked::Region => region(alloc, picture),
        Asked::Spelling => spelling(alloc, picture),
    }
}

fn spelling(alloc: Global, picture: &Picture) -> Result<Answer, AllocError> {
    let spelling = picture.spelling()?;
    let bytes = Vec::from_slice(alloc, spelling.as_slice());
    drop(spelling);
    Ok(Answer::Bytes(bytes?))
}

/// `runs SYMBOL COUNT SYMBOL COUNT ..`: what the picture of these runs says.
pub fn of_runs(alloc: Global, operands: &mut Operands<'_>) -> Result<Answer, AllocError> {
    let runs = read_runs(alloc, operands)?;
    let picture = if_any(Picture::from_runs(alloc, &runs));
    drop(runs);
    match picture? {
        Some(picture) => summary(alloc, &picture),
        None => Ok(Answer::NoPicture),
    }
}

fn read_runs(alloc: Global, operands: &mut Operands<'_>) -> Result<Vec<Run>, AllocError> {
    let mut runs = Vec::new(alloc);
    for _ in 0..operands.words.rest().len() {
        if !operands.words.is_done() {
            runs.push(run(operands))?;
        }
    }
    Ok(runs)
}

/// The run of a symbol and a count.
fn run(operands: &mut Operands<'_>) -> Run {
    let symbol = look_up(&SYMBOLS, operands.word());
    if symbol.is_none() {
        operands.refuse();
    }
    let symbol = symbol.unwrap_or(Symbol::X);
    let count = operands.number().magnitude;
    Run { symbol, count }
}

/// What a picture says, if the picture of its runs, its clone and the picture of its spelling say the same.
fn described(alloc: Global, picture: &Picture) -> Result<Answer, AllocError> {
    if is_as_copied(picture)? && is_as_run(alloc, picture)? && is_as_spelled(alloc, picture)? {
        summary(alloc, picture)
    } else {
        Ok(Answer::Word("several pictures"))
    }
}

fn is_as_copied(picture: &Picture) -> Result<bool, AllocError> {
    let copy = picture.clone()?;
    Ok(is_same(picture, &copy))
}

fn is_as_run(alloc: Global, picture: &Picture) -> Result<bool, AllocError> {
    let found = if_any(Picture::from_runs(alloc, picture.runs()))?;
    Ok(is_found(picture, &found))
}

fn is_as_spelled(alloc: Global, picture: &Picture) -> Result<bool, AllocError> {
    let spelling = picture.spelling()?;
    let found = read_picture(alloc, spelling.as_slice());
    drop(spelling);
    Ok(is_found(picture, &found?))
}

/// Whether the picture that was found is this one.
fn is_found(picture: &Picture, found: &Option<Picture>) -> bool {
    match found {
        Some(found) => is_same(picture, found),
        None => false,
    }
}

fn is_same(one: &Picture, other: &Picture) -> bool {
    one.category() == other.category()
        && one.size() == other.size()
        && one.digits() == other.digits()
        && one.scale() == other.scale()
        && one.is_signed() == other.is_signed()
        && one.places() == other.places()
        && one.region() == other.region()
        && one.runs().len() == other.runs().len()
}

fn summary(alloc: Global, picture: &Picture) -> Result<Answer, AllocError> {
    let category = category_words(picture.category());
    let (size, digits, scale) = (picture.size(), picture.digits(), picture.scale());
    let sign = sign_words(picture.is_signed());
    let text = format!(in alloc;
        "{category}, size {size}, digits {digits}, decimals {scale}{sign}"
    )?;
    Ok(Answer::Text(text))
}

fn category_words(category: Category) -> &'static str {
    match category {
        Category::Alphabetic => "alphabetic",
        Category::Alphanumeric => "alphanumeric",
        Category::AlphanumericEdited => "alphanumeric edited",
        Category::Numeric => "numeric",
        Category::NumericEdited => "numeric edited",
    }
}

fn sign_words(is_signed: bool) -> &'static str {
    match is_signed {
        true => ", with a sign",
        false => "",
    }
}

/// The places, a character each.
fn places(alloc: Global, picture: &Picture) -> Result<Answer, AllocError> {
    let mut text = String::new(alloc);
    for place in picture.places() {
        text.push(place_character(*place))?;
    }
    Ok(Answer::Text(text))
}

fn place_character(place: Place) -> char {
    match place {
        Place::Digit => '9',
        Place::Suppressed => 'z',
        Place::FirstFloating => 'F',
        Place::Floating => 'f',
        Place::Insertion(character) | Place::Negative(character) => char::from(character),
        Place::Point => '.',
        Place::Plus => '+',
        Place::Minus => '-',
        Place::Currency => '$',
    }
}

/// What suppresses zeros, and the places, counted from 0, from the first to the one after the last.
fn region(alloc: Global, picture: &Picture) -> Result<Answer, AllocError> {
    let Some(region) = picture.region() else {
        return Ok(NONE);
    };
    let by = suppression_words(region.by);
    let (begin, end) = (region.begin, region.end);
    let text = format!(in alloc; "{by} from {begin} to {end}")?;
    Ok(Answer::Text(text))
}

fn suppression_words(by: Suppression) -> &'static str {
    match by {
        Suppression::Nothing => "nothing",
        Suppression::Spaces => "Z",
        Suppression::Asterisks => "*",
        Suppression::FloatingCurrency => "$",
        Suppression::FloatingPlus => "+",
        Suppression::FloatingMinus => "-",
    }
}
