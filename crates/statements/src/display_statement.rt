//! DISPLAY.

ghost use Rattle.std.specs.Prelude.{◌≡◌, Ok};
ghost use Rattle.std.specs.Result.{result_map_both};
ghost use Rattle.std.specs.Option.{option_copied};
ghost use Rattle.grammar.specs.Reading.{Reads, left_out};
ghost use Rattle.statements.specs.Display as spec;
ghost use Rattle.source_tree.specs.declared.statement.Verb.TheVariants as verb;

use expressions::Operands;
use grammar::{ReadFault, Tokens, after_word, past_word, several};
use source_tree::TextStatement;
use std::alloc::Global;
use tokens::{Reserved, Token};

/// From the verb on.
#[tactic(auto, unfolding(crate::specs::Display::display_reader))]
pub fn display(alloc: Global, tokens: &mut Tokens<'_>) -> Result<TextStatement, ReadFault>
    ensures { Reads (spec.display_reader tokens.old)
        (result_map_both verb.TextStatement (λ fault. fault) result)
        tokens.new }
{
    tokens.expect(Reserved::Display)?;
    let operands = several(&Operands, alloc, tokens)?;
    let advancing = is_advancing(tokens);
    Ok(TextStatement::Display {
        operands,
        advancing,
    })
}

/// Whether `[WITH] NO ADVANCING` is left out. Where it comes next it is passed.
#[tactic(auto, unfolding(grammar::specs::Reading::left_out))]
fn is_advancing(tokens: &mut Tokens<'_>) -> bool
    ensures { left_out spec.after_no_advancing tokens.old ≡ Ok (result, tokens.new) }
{
    tokens.is_left_out(after_no_advancing(tokens.rest()))
}

/// The tokens after `[WITH] NO ADVANCING`, where that comes first.
#[tactic(auto, unfolding(crate::specs::Display::after_no_advancing))]
fn after_no_advancing(tokens: &[Token]) -> Option<&[Token]>
    ensures { option_copied result ≡ spec.after_no_advancing tokens.now }
{
    let no = after_word(past_word(tokens, Reserved::With), Reserved::No)?;
    after_word(no, Reserved::Advancing)
}
