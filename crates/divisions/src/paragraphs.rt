//! Sentences and paragraphs.

ghost use Rattle.std.specs.Prelude.{◌≡◌};
ghost use Rattle.grammar.specs.Reading.{Reads};
ghost use Rattle.statements.specs.Spelling.{max_nesting};
ghost use Rattle.divisions.specs.Reading as spec;
ghost use Rattle.divisions.specs.Spelling as rule;

use grammar::{Part, ReadFault, Tokens, any, begins_name, name};
use source_tree::{Paragraph, Sentence};
use statements::{begins_statement, sentence};
use std::alloc::Global;
use tokens::Kind;

/// Sentences in a list.
pub struct Sentences;

impl Part<Sentence> for Sentences {
    ghost use Rattle.statements.specs.Spelling.{max_nesting};
    ghost use Rattle.statements.specs.Verbs.{begins_statement};
    ghost use Rattle.statements.specs.Reading as statements;

    ghost ready = { λ _. Unit {0} };

    ghost reading = { λ _. statements.sentence max_nesting };

    ghost beginning = { λ _. begins_statement };

    fn read(&self, alloc: Global, tokens: &mut Tokens<'_>) -> Result<Sentence, ReadFault> {
        sentence(alloc, tokens)
    }

    fn begins(&self, tokens: &Tokens<'_>) -> bool {
        begins_statement(tokens)
    }
}

/// Paragraphs with names, in a list.
pub struct Paragraphs;

impl Part<Paragraph> for Paragraphs {
    ghost use Rattle.statements.specs.Spelling.{max_nesting};
    ghost use Rattle.divisions.specs.Reading as spec;
    ghost use Rattle.divisions.specs.Spelling.{begins_paragraph};

    ghost ready = { λ _. Unit {0} };

    ghost reading = { λ _. spec.paragraph max_nesting };

    ghost beginning = { λ _. begins_paragraph };

    fn read(&self, alloc: Global, tokens: &mut Tokens<'_>) -> Result<Paragraph, ReadFault> {
        paragraph(alloc, tokens)
    }

    fn begins(&self, tokens: &Tokens<'_>) -> bool {
        begins_paragraph(tokens)
    }
}

/// The next token is a user-defined word and the one after it a period: a paragraph's name, since statements begin with
/// verbs, which are reserved.
pub fn begins_paragraph(tokens: &Tokens<'_>) -> bool
    ensures { result ≡ rule.begins_paragraph tokens.now }
{
    match tokens.rest() {
        [_, next, ..] => begins_name(tokens) && matches!(next.kind, Kind::Period),
        _ => false,
    }
}

/// A paragraph by its name.
#[tactic(auto, unfolding(crate::specs::Reading::paragraph, crate::specs::Reading::any_sentences))]
fn paragraph(alloc: Global, tokens: &mut Tokens<'_>) -> Result<Paragraph, ReadFault>
    ensures { Reads (spec.paragraph max_nesting tokens.old) result tokens.new }
{
    let given = name(alloc, tokens)?;
    tokens.period()?;
    let sentences = any(&Sentences, alloc, tokens)?;
    Ok(Paragraph {
        name: Some(given),
        sentences,
    })
}
