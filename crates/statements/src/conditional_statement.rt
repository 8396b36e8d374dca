//! IF.

ghost use Rattle.grammar.specs.Reading as read;
ghost use Rattle.grammar.specs.Reading.{Reads};
ghost use Rattle.statements.specs.Branching as rule;

use conditions::condition;
use grammar::{Part, ReadFault, Tokens, after_word, beside, phrase_at, several};
use source_tree::{ConditionalStatement, Verb};
use sqlite_items::Items;
use std::alloc::Global;
use tokens::Reserved;

/// From the verb on; `depth` is how deep the condition may nest.
#[tactic(auto, unfolding(crate::specs::Branching::conditional_reader))]
pub fn read_if<S: Drop, P: Part<S>>(
    statement: &P,
    alloc: Global,
    depth: usize,
    tokens: &mut Tokens<'_>,
) -> Result<Verb<S>, ReadFault>
    requires { P.ready statement.now }
    ensures { Reads (rule.conditional_reader depth (read.several (P.reading statement.now)
        (P.beginning statement.now)) tokens.old) result tokens.new }
{
    tokens.expect(Reserved::If)?;
    let condition = condition(alloc, tokens, depth)?;
    tokens.skip(Reserved::Then);
    let branch = beside(condition, several(statement, alloc, tokens))?;
    let otherwise = otherwise(statement, alloc, tokens);
    let ((condition, statements), otherwise) = beside(branch, otherwise)?;
    tokens.skip(Reserved::EndIf);
    Ok(Verb::ConditionalStatement(ConditionalStatement::If {
        condition,
        statements,
        otherwise,
    }))
}

/// ELSE and its statements, where it stands.
#[tactic(auto, unfolding(crate::specs::Branching::otherwise_reader, grammar::specs::Phrases::phrase_reader))]
fn otherwise<S: Drop, P: Part<S>>(
    statement: &P,
    alloc: Global,
    tokens: &mut Tokens<'_>,
) -> Result<Option<Items<S>>, ReadFault>
    requires { P.ready statement.now }
    ensures { Reads (rule.otherwise_reader (read.several (P.reading statement.now)
        (P.beginning statement.now)) tokens.old) result tokens.new }
{
    let after = after_word(tokens.rest(), Reserved::Else);
    phrase_at(statement, alloc, tokens, after)
}
