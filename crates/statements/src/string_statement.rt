//! STRING.

ghost use Rattle.std.specs.Prelude.{◌≡◌};
ghost use Rattle.std.specs.Option.{option_copied};
ghost use Rattle.grammar.specs.Reading as read;
ghost use Rattle.grammar.specs.Reading.{Reads};
ghost use Rattle.statements.specs.Stringing as rule;

use crate::followed::followed;
use expressions::{Operands, begins_operand, operand, reference};
use grammar::{Part, Phrase, ReadFault, Tokens, after_word, beside, past_word, several, two_sided};
use source_tree::{Operand, Reference, Sending, StringStatement, Verb};
use sqlite_items::Items;
use std::alloc::Global;
use tokens::{Reserved, Token};

/// From the verb on: what is strung together, the OVERFLOW phrases and END-STRING.
#[tactic(auto, unfolding(crate::specs::Stringing::string_reader))]
pub fn read_string<S: Drop, P: Part<S>>(
    statement: &P,
    alloc: Global,
    tokens: &mut Tokens<'_>,
) -> Result<Verb<S>, ReadFault>
    requires { P.ready statement.now }
    ensures { Reads (rule.string_reader (read.several (P.reading statement.now)
        (P.beginning statement.now)) tokens.old) result tokens.new }
{
    tokens.expect(Reserved::String)?;
    let strung = strung(alloc, tokens)?;
    let head = beside(strung, pointer(alloc, tokens))?;
    let phrases = two_sided(Phrase::Overflow, statement, alloc, tokens);
    let (((sendings, receiver), pointer), phrases) = beside(head, phrases)?;
    tokens.skip(Reserved::EndString);
    Ok(Verb::StringStatement(StringStatement {
        sendings,
        receiver,
        pointer,
        phrases,
    }))
}

/// What the senders are DELIMITED BY; none is SIZE.
#[tactic(auto, unfolding(crate::specs::Stringing::delimiter_reader))]
fn delimiter(alloc: Global, tokens: &mut Tokens<'_>) -> Result<Option<Operand>, ReadFault>
    ensures { Reads (rule.delimiter_reader tokens.old) result tokens.new }
{
    let Some(after) = after_word(tokens.rest(), Reserved::Size) else {
        return Ok(Some(operand(alloc, tokens)?));
    };
    tokens.go_to(after);
    Ok(None)
}

/// Senders, each list with its delimiter.
struct Sendings;

impl Part<Sending> for Sendings {
    ghost use Rattle.expressions.specs.Operands.{begins_operand};
    ghost use Rattle.statements.specs.Stringing as rule;

    ghost ready = { λ _. Unit {0} };

    ghost reading = { λ _. rule.sending_reader };

    ghost beginning = { λ _. begins_operand };

    #[tactic(auto, unfolding(crate::specs::Stringing::sending_reader))]
    fn read(&self, alloc: Global, tokens: &mut Tokens<'_>) -> Result<Sending, ReadFault> {
        let senders = several(&Operands, alloc, tokens);
        let senders = followed(senders, Reserved::Delimited, tokens)?;
        tokens.skip(Reserved::By);
        let delimiter = delimiter(alloc, tokens)?;
        Ok(Sending { senders, delimiter })
    }

    fn begins(&self, tokens: &Tokens<'_>) -> bool {
        begins_operand(tokens)
    }
}

/// What is strung together, and into what.
#[tactic(auto, unfolding(crate::specs::Stringing::strung_reader))]
fn strung(alloc: Global, tokens: &mut Tokens<'_>) -> Result<(Items<Sending>, Reference), ReadFault>
    ensures { Reads (rule.strung_reader tokens.old) result tokens.new }
{
    let sendings = followed(several(&Sendings, alloc, tokens), Reserved::Into, tokens)?;
    beside(sendings, reference(alloc, tokens))
}

/// The tokens after `[WITH] POINTER`, where that comes first.
#[tactic(auto, unfolding(crate::specs::Stringing::after_with_pointer))]
fn after_with_pointer(tokens: &[Token]) -> Option<&[Token]>
    ensures { option_copied result ≡ rule.after_with_pointer tokens.now }
{
    after_word(past_word(tokens, Reserved::With), Reserved::Pointer)
}

/// The item after POINTER, where the phrase stands.
#[tactic(auto, unfolding(crate::specs::Stringing::pointer_reader))]
fn pointer(alloc: Global, tokens: &mut Tokens<'_>) -> Result<Option<Reference>, ReadFault>
    ensures { Reads (rule.pointer_reader tokens.old) result tokens.new }
{
    let Some(after) = after_with_pointer(tokens.rest()) else {
        return Ok(None);
    };
    tokens.go_to(after);
    Ok(Some(reference(alloc, tokens)?))
}
