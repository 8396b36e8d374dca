//! Names: reserved words in their place, undeclared names, and names of another kind.

use crate::advice::{Advice, Found};
use crate::cause::Cause;
use crate::spelling::{is_alike, reserved_like};
use crate::view::View;
use std::alloc::{AllocError, Global};

/// Words after which a name follows.
const BEFORE_NAMES: &[u8] =
    b"ACCEPT ADD BY CLOSE COMPUTE DELETE DISPLAY DIVIDE EXTEND FD FROM GIVING I-O IN INITIALIZE INPUT INSPECT INTO
MOVE MULTIPLY OF OUTPUT PERFORM READ REDEFINES REWRITE SELECT SET START SUBTRACT THROUGH THRU TO VARYING WRITE";

/// Words that are no name by mistake, because they go on with a statement.
const CONNECTIVES: &[u8] = b"BY ELSE FROM GIVING INTO IS NOT TO UNTIL WHEN";

/// Words and signs after which a condition begins.
const BEFORE_CONDITIONS: &[u8] = b"( AND IF NOT OR UNTIL WHEN";

/// Words after which a file is named, and a record.
const BEFORE_FILES: &[u8] = b"CLOSE DELETE EXTEND I-O INPUT OUTPUT READ START";

const BEFORE_RECORDS: &[u8] = b"REWRITE WRITE";

const BEFORE_PROCEDURES: &[u8] = b"PERFORM THROUGH THRU";

/// The advice that a reserved word is in the place of a name.
pub fn reserved_cause(alloc: Global, view: View<'_>) -> Found {
    if !is_reserved_as_name(view) {
        return Ok(None);
    }
    let here = view.text(alloc, Some(view.at))?;
    Cause::Reserved.about(alloc, here.as_slice())
}

/// Whether a reserved word that doesn't go on with a statement is in the place of a name.
fn is_reserved_as_name(view: View<'_>) -> bool {
    let here = Some(view.at);
    view.is_reserved(here)
        && is_name_next(view)
        && !view.reads_one_of(here, CONNECTIVES)
        && !view.begins_with_end(here)
}

/// Whether a name follows what is before the place: a word, or the level number of an entry.
fn is_name_next(view: View<'_>) -> bool {
    view.is_numeric(view.before(1)) && view.is_period(view.before(2))
        || view.reads_one_of(view.before(1), BEFORE_NAMES)
}

/// The advice about a name that nothing has: what kind of name is needed here, and a name that is spelled almost alike.
pub fn undeclared_cause(alloc: Global, view: View<'_>, number: u8) -> Found {
    let name = view.text(alloc, Some(view.at))?;
    about_undeclared(alloc, view, number, name.as_slice())
}

/// The advice about this name at the place, which nothing has.
fn about_undeclared(alloc: Global, view: View<'_>, number: u8, name: &[u8]) -> Found {
    let mut advice = kind_advice(alloc, view, number, name)?;
    if let Some(word) = proposal(alloc, view, name)? {
        advice.propose(word.as_slice())?;
    }
    Ok(Some(advice))
}

/// The advice about the kind of name that is needed, or what is said of the number.
fn kind_advice(
    alloc: Global,
    view: View<'_>,
    number: u8,
    name: &[u8],
) -> Result<Advice, AllocError> {
    if let Some(cause) = kind_cause(view, name) {
        if let Some(advice) = cause.about(alloc, name)? {
            return Ok(advice);
        }
    }
    Advice::for_number(alloc, number, name)
}

/// The advice that an item is in the place of a condition, or a condition name in the place of an item that is compared.
pub fn condition_cause(alloc: Global, view: View<'_>) -> Found {
    if !view.reads_one_of(view.before(1), BEFORE_CONDITIONS) {
        return Ok(None);
    }
    let here = view.text(alloc, Some(view.at))?;
    if !is_declared(view, here.as_slice()) {
        return Ok(None);
    }
    item_cause(view, here.as_slice())
        .unwrap_or(Cause::ConditionNeeded)
        .about(alloc, here.as_slice())
}

/// A condition name in the place of an item. One that is followed by its group may have another mistake.
fn item_cause(view: View<'_>, name: &[u8]) -> Option<Cause> {
    if view.reads_one_of(view.after(1), b"IN OF") || !is_condition_name(view, name) {
        return None;
    }
    Some(Cause::ItemNeeded)
}

/// Whether a name is declared at level 88.
fn is_condition_name(view: View<'_>, name: &[u8]) -> bool {
    for number in 0..view.tokens.len() {
        if declared_kind(view, number) == Some(NameKind::Item)
            && view.reads(number.checked_sub(1), b"88")
            && view.reads(Some(number), name)
        {
            return true;
        }
    }
    false
}

/// What a name is declared as.
#[derive(Clone, Copy, PartialEq, Eq)]
enum NameKind {
    Item,
    File,
    /// A paragraph or a section.
    Procedure,
}

/// The kind of name that is needed at the place.
fn needed_kind(view: View<'_>) -> NameKind {
    if view.reads_one_of(view.before(1), BEFORE_FILES) {
        NameKind::File
    } else if view.reads_one_of(view.before(1), BEFORE_PROCEDURES) {
        NameKind::Procedure
    } else {
        NameKind::Item
    }
}

/// The cause that a file, a record, a paragraph or an item is needed here.
fn kind_cause(view: View<'_>, name: &[u8]) -> Option<Cause> {
    match needed_kind(view) {
        NameKind::File => Some(Cause::FileNeeded),
        NameKind::Procedure => Some(Cause::ParagraphNeeded),
        NameKind::Item if view.reads_one_of(view.before(1), BEFORE_RECORDS) => {
            Some(Cause::RecordNeeded)
        }
        NameKind::Item => item_cause(view, name),
    }
}

/// A word that is perhaps meant: a reserved word at the beginning of a line, or a declared name of the kind that is needed.
fn proposal(alloc: Global, view: View<'_>, name: &[u8]) -> Result<Option<Vec<u8>>, AllocError> {
    if view.is_first_of_line(view.at) {
        if let Some(word) = reserved_like(alloc, name)? {
            return Ok(Some(Vec::from_slice(alloc, word)?));
        }
    }
    let kind = needed_kind(view);
    for number in 0..view.tokens.len() {
        if declared_kind(view, number) == Some(kind) && is_name_alike(alloc, view, number, name)? {
            return Ok(Some(view.text(alloc, Some(number))?));
        }
    }
    Ok(None)
}

/// Whether a token is almost this name.
fn is_name_alike(
    alloc: Global,
    view: View<'_>,
    number: usize,
    name: &[u8],
) -> Result<bool, AllocError> {
    let text = view.text(alloc, Some(number))?;
    is_alike(alloc, text.as_slice(), name)
}

/// Whether a name is declared in the text.
pub fn is_declared(view: View<'_>, name: &[u8]) -> bool {
    for number in 0..view.tokens.len() {
        if view.reads(Some(number), name) && declared_kind(view, number).is_some() {
            return true;
        }
    }
    false
}

/// What a word is declared as where it is: after a level number, SELECT or FD, or as the name of a paragraph or a section.
fn declared_kind(view: View<'_>, number: usize) -> Option<NameKind> {
    if !view.is_word(Some(number)) {
        return None;
    }
    let before = number.checked_sub(1);
    let after = number.checked_add(1);
    if view.is_in_procedures(number) {
        let is_name = view.is_period(after) || view.reads(after, b"SECTION");
        return (is_name && view.is_period(before)).then_some(NameKind::Procedure);
    }
    if view.is_numeric(before) && view.is_period(number.checked_sub(2)) {
        return Some(NameKind::Item);
    }
    view.reads_one_of(before, b"FD SELECT OPTIONAL")
        .then_some(NameKind::File)
}
