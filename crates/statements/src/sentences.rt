//! Sentences.

ghost use Rattle.std.specs.Prelude.{◌≡◌};
ghost use Rattle.grammar.specs.Reading.{Reads};
ghost use Rattle.statements.specs.Reading as spec;
ghost use Rattle.statements.specs.Spelling as grammar;

use crate::nesting::{Nesting, statement};
use grammar::{ReadFault, Tokens};
use source_tree::Sentence;
use std::alloc::Global;

/// How many statements may stand in one another, the outermost among them (own choice).
const MAX_NESTING: usize = 64;

/// A sentence: statements and a period.
#[tactic(auto, unfolding(crate::specs::Reading::sentence))]
pub fn sentence(alloc: Global, tokens: &mut Tokens<'_>) -> Result<Sentence, ReadFault>
    ensures { Reads (spec.sentence grammar.max_nesting tokens.old) result tokens.new }
{
    let nesting = Nesting {
        alloc,
        depth: MAX_NESTING,
        statement,
    };
    let statements = nesting.statements(tokens)?;
    tokens.period()?;
    Ok(Sentence { statements })
}
