//! Sentences and paragraphs that belong to one section, or to none.

ghost use Rattle.std.specs.Prelude.{◌≡◌};
ghost use Rattle.grammar.specs.Reading.{Reads};
ghost use Rattle.statements.specs.Spelling.{max_nesting};
ghost use Rattle.divisions.specs.Reading as spec;

use crate::listed::listed;
use crate::paragraphs::{Paragraphs, Sentences, begins_paragraph};
use grammar::{ReadFault, Tokens, any, beside, several};
use source_tree::Paragraph;
use sqlite_items::Items;
use statements::begins_statement;
use std::alloc::Global;

/// Sentences and paragraphs, not both left out.
#[tactic(auto, unfolding(crate::specs::Reading::body, crate::specs::Reading::paragraphs))]
pub fn body(alloc: Global, tokens: &mut Tokens<'_>) -> Result<Items<Paragraph>, ReadFault>
    ensures { Reads (spec.body max_nesting tokens.old) result tokens.new }
{
    if begins_statement(tokens) {
        opening(alloc, tokens)
    } else if begins_paragraph(tokens) {
        several(&Paragraphs, alloc, tokens)
    } else {
        Err(tokens.refuse())
    }
}

/// Sentences that belong to no paragraph, and the paragraphs after them.
#[tactic(auto, unfolding(crate::specs::Reading::first_paragraphs_reader, crate::specs::Reading::sentences, crate::specs::Reading::any_paragraphs))]
fn opening(alloc: Global, tokens: &mut Tokens<'_>) -> Result<Items<Paragraph>, ReadFault>
    ensures { Reads (spec.first_paragraphs_reader max_nesting tokens.old) result tokens.new }
{
    let sentences = several(&Sentences, alloc, tokens)?;
    let (sentences, more) = beside(sentences, any(&Paragraphs, alloc, tokens))?;
    let first = Paragraph {
        name: None,
        sentences,
    };
    listed(alloc, first, more)
}
