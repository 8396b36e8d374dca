//! ACCEPT.

ghost use Rattle.std.specs.Prelude.{◌≡◌, Ok};
ghost use Rattle.std.specs.Result.{result_map_both};
ghost use Rattle.std.specs.Option.{option_copied};
ghost use Rattle.grammar.specs.Reading.{Reads, left_out};
ghost use Rattle.statements.specs.Accepting as spec;
ghost use Rattle.source_tree.specs.declared.statement.Verb.TheVariants as verb;

use expressions::reference;
use grammar::{ReadFault, Tokens, after_word};
use source_tree::TextStatement;
use std::alloc::Global;
use tokens::{Reserved, Token};

/// From the verb on.
#[tactic(auto, unfolding(crate::specs::Accepting::accept_reader))]
pub fn read_accept(alloc: Global, tokens: &mut Tokens<'_>) -> Result<TextStatement, ReadFault>
    ensures { Reads (spec.accept_reader tokens.old)
        (result_map_both verb.TextStatement (λ fault. fault) result)
        tokens.new }
{
    tokens.expect(Reserved::Accept)?;
    let receiver = reference(alloc, tokens)?;
    let console = is_from_console(tokens);
    Ok(if console {
        TextStatement::Accept { receiver }
    } else {
        TextStatement::AcceptDate { receiver }
    })
}

/// Whether FROM DATE is left out. Where it comes next it is passed.
#[tactic(auto, unfolding(grammar::specs::Reading::left_out))]
fn is_from_console(tokens: &mut Tokens<'_>) -> bool
    ensures { left_out spec.after_from_date tokens.old ≡ Ok (result, tokens.new) }
{
    tokens.is_left_out(after_from_date(tokens.rest()))
}

/// The tokens after FROM DATE, where that comes first.
#[tactic(auto, unfolding(crate::specs::Accepting::after_from_date))]
fn after_from_date(tokens: &[Token]) -> Option<&[Token]>
    ensures { option_copied result ≡ spec.after_from_date tokens.now }
{
    let from = after_word(tokens, Reserved::From)?;
    after_word(from, Reserved::Date)
}
