//! Sections, and the procedure division.

ghost use Rattle.std.specs.Prelude.{◌≡◌, ◌∷◌, List, Ok};
ghost use Rattle.answers.specs.Answer.{Gives};
ghost use Rattle.grammar.specs.Reading.{Reads, halt_of};
ghost use Rattle.source_tree.specs.declared.program.Section.{Section};
ghost use Rattle.statements.specs.Spelling.{max_nesting};
ghost use Rattle.divisions.specs.Reading as spec;
ghost use Rattle.divisions.specs.Spelling as rule;

use crate::body::body;
use crate::listed::listed;
use crate::paragraphs::begins_paragraph;
use grammar::{Part, ReadFault, Tokens, begins_name, is_word, name, several};
use source_tree::{Paragraph, Section};
use sqlite_items::Items;
use statements::begins_statement;
use std::alloc::Global;
use tokens::Reserved;

/// The procedure division.
#[tactic(auto, unfolding(crate::specs::Reading::procedure))]
pub fn procedure(alloc: Global, tokens: &mut Tokens<'_>) -> Result<Items<Section>, ReadFault>
    ensures { Reads (spec.procedure max_nesting tokens.old) result tokens.new }
{
    tokens.heading(&[Reserved::Procedure, Reserved::Division])?;
    all_sections(alloc, tokens)
}

/// The next token is a user-defined word and the one after it SECTION.
fn begins_section(tokens: &Tokens<'_>) -> bool
    ensures { result ≡ rule.begins_section tokens.now }
{
    match tokens.rest() {
        [_, next, ..] => begins_name(tokens) && is_word(next, Reserved::Section),
        _ => false,
    }
}

/// Sentences and paragraphs of a section; it may have none.
#[tactic(auto, unfolding(crate::specs::Reading::section_paragraphs))]
fn section_paragraphs(alloc: Global, tokens: &mut Tokens<'_>) -> Result<Items<Paragraph>, ReadFault>
    ensures { Reads (spec.section_paragraphs max_nesting tokens.old) result tokens.new }
{
    if begins_statement(tokens) || begins_paragraph(tokens) {
        body(alloc, tokens)
    } else {
        Ok(Items::new(alloc))
    }
}

/// A section by its name.
#[tactic(auto, unfolding(crate::specs::Reading::section))]
fn section(alloc: Global, tokens: &mut Tokens<'_>) -> Result<Section, ReadFault>
    ensures { Reads (spec.section max_nesting tokens.old) result tokens.new }
{
    let given = name(alloc, tokens)?;
    tokens.expect(Reserved::Section)?;
    tokens.period()?;
    let paragraphs = section_paragraphs(alloc, tokens)?;
    Ok(Section {
        name: Some(given),
        paragraphs,
    })
}

/// Sections in a list.
struct Sections;

impl Part<Section> for Sections {
    ghost use Rattle.statements.specs.Spelling.{max_nesting};
    ghost use Rattle.divisions.specs.Reading as spec;
    ghost use Rattle.divisions.specs.Spelling.{begins_section};

    ghost ready = { λ _. Unit {0} };

    ghost reading = { λ _. spec.section max_nesting };

    ghost beginning = { λ _. begins_section };

    fn read(&self, alloc: Global, tokens: &mut Tokens<'_>) -> Result<Section, ReadFault> {
        section(alloc, tokens)
    }

    fn begins(&self, tokens: &Tokens<'_>) -> bool {
        begins_section(tokens)
    }
}

#[tactic(auto, unfolding(crate::specs::Reading::sections))]
fn several_sections(alloc: Global, tokens: &mut Tokens<'_>) -> Result<Items<Section>, ReadFault>
    ensures { Reads (spec.sections max_nesting tokens.old) result tokens.new }
{
    several(&Sections, alloc, tokens)
}

/// They are sentences that belong to no paragraph, and nothing else.
fn is_alone(paragraphs: &[Paragraph]) -> bool
    ensures { result ≡ rule.is_alone paragraphs.now }
{
    match paragraphs {
        [one] => one.name.is_none(),
        _ => false,
    }
}

/// What belongs to no section, with these sections after it.
fn outside(
    alloc: Global,
    paragraphs: Items<Paragraph>,
    more: Items<Section>,
) -> Result<Items<Section>, ReadFault>
    ensures { Gives (λ (all : List Section). all) halt_of result
        (Ok (spec.outside paragraphs ∷ more)) }
{
    let first = Section {
        name: None,
        paragraphs,
    };
    listed(alloc, first, more)
}

/// The sections after what belongs to none. They follow sentences alone.
#[tactic(auto, unfolding(crate::specs::Reading::after_body, crate::specs::Reading::sections_after))]
fn after_body(
    found: Items<Paragraph>,
    alloc: Global,
    tokens: &mut Tokens<'_>,
) -> Result<Items<Section>, ReadFault>
    ensures { Reads (spec.after_body max_nesting found tokens.old) result tokens.new }
{
    if !begins_section(tokens) {
        return outside(alloc, found, Items::new(alloc));
    }
    if !is_alone(found.as_slice()) {
        return Err(tokens.refuse());
    }
    let more = several_sections(alloc, tokens)?;
    outside(alloc, found, more)
}

/// The sections of a procedure division.
#[tactic(auto, unfolding(crate::specs::Reading::all_sections, crate::specs::Reading::outer_body))]
fn all_sections(alloc: Global, tokens: &mut Tokens<'_>) -> Result<Items<Section>, ReadFault>
    ensures { Reads (spec.all_sections max_nesting tokens.old) result tokens.new }
{
    if begins_section(tokens) {
        return several_sections(alloc, tokens);
    }
    let found = body(alloc, tokens)?;
    after_body(found, alloc, tokens)
}
