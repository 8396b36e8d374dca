//! What may be a mistake in a text that is accepted.

ghost use Rattle.std.specs.Prelude.{All, IfOk, IfSome};
ghost use Rattle.source_advice.specs.Advice.{HasLines};

use crate::advice::Advice;
use crate::cause::Cause;
use crate::spelling::reserved_like;
use crate::view::View;
use lexical::Place;
use source_lines::logical;
use std::alloc::{AllocError, Global};
use tokens::scan;

/// A warning and its place.
#[derive(Drop)]
pub struct Warning {
    pub place: Place,
    pub advice: Advice,
}

/// The warnings about a source text: words alone before a period that are paragraphs, and were perhaps meant as statements.
pub fn warnings(alloc: Global, source: &[u8]) -> Result<Vec<Warning>, AllocError>
    ensures { IfOk result (λ found. All (λ one. HasLines one.advice) found.items) }
{
    let mut found = Vec::new(alloc);
    let Ok(lines) = logical(alloc, source) else {
        return Ok(found);
    };
    let Ok(tokens) = scan(alloc, &lines) else {
        return Ok(found);
    };
    let view = View::at_end(tokens.as_slice(), lines.characters());
    for number in 0..tokens.len() {
        if let Some(warning) = paragraph_warning(alloc, view.from_token(number))? {
            found.push(warning)?;
        }
    }
    Ok(found)
}

/// The warning about a paragraph at the place, if its name is in area B or almost that of a verb, and a word follows in area B.
fn paragraph_warning(alloc: Global, view: View<'_>) -> Result<Option<Warning>, AllocError>
    ensures { IfOk result (λ found. IfSome found (λ one. HasLines one.advice)) }
{
    let is_paragraph = view.is_in_procedures(view.at)
        && view.is_word(Some(view.at))
        && view.is_period(view.before(1))
        && view.is_period(view.after(1));
    let Some(token) = view.token(Some(view.at)) else {
        return Ok(None);
    };
    if !is_paragraph || view.is_in_area_a(view.at) {
        return Ok(None);
    }
    let name = view.text(alloc, Some(view.at))?;
    let Some(mut advice) = Cause::ParagraphOfNothing.about(alloc, name.as_slice())? else {
        return Ok(None);
    };
    if let Some(word) = reserved_like(alloc, name.as_slice())? {
        advice.propose(word)?;
    }
    advice.end_line()?;
    Ok(Some(Warning {
        place: token.place,
        advice,
    }))
}
