//! The environment division. Its configuration section has no effect: it is looked past, and takes no memory.

ghost use Rattle.std.specs.Prelude.{◌≡◌};
ghost use Rattle.grammar.specs.Reading.{Reads};
ghost use Rattle.divisions.specs.Environment as spec;

use file_control::input_output;
use grammar::{ReadFault, Tokens};
use source_tree::Select;
use sqlite_items::Items;
use std::alloc::Global;
use tokens::{Kind, Reserved, Token};

/// The SELECTs of the environment division (COBOL-85, Nucleus, "Environment division"); none where ENVIRONMENT doesn't come next.
#[tactic(auto, unfolding(crate::specs::Environment::environment_reader))]
pub fn environment(alloc: Global, tokens: &mut Tokens<'_>) -> Result<Items<Select>, ReadFault>
    ensures { Reads (spec.environment_reader tokens.old) result tokens.new }
{
    if tokens.at_word(Reserved::Environment) {
        sections(alloc, tokens)
    } else {
        Ok(Items::new(alloc))
    }
}

/// The token is a period, or a word of what may come after a description.
fn ends_description(token: &Token) -> bool
    ensures { result ≡ spec.ends_description token.now.kind }
{
    match token.kind {
        Kind::Period => true,
        Kind::Reserved(word) => matches!(
            word,
            Reserved::ObjectComputer | Reserved::InputOutput | Reserved::Data | Reserved::Procedure
        ),
        _ => false,
    }
}

fn begins_description(tokens: &Tokens<'_>) -> bool
    ensures { result ≡ spec.begins_description tokens.now }
{
    match tokens.rest() {
        [next, ..] => !ends_description(next),
        [] => false,
    }
}

/// The tokens after a description.
#[tactic(auto, unfolding(crate::specs::Environment::past_description))]
fn past_description(tokens: &[Token]) -> &[Token]
    ensures { result.now ≡ spec.past_description tokens.now }
{
    let mut rest = tokens;
    while let [next, more @ ..] = rest {
        if ends_description(next) {
            return rest;
        }
        rest = more;
    }
    rest
}

/// Any tokens up to a period, and the period; or nothing.
#[tactic(auto, unfolding(crate::specs::Environment::description_reader, crate::specs::Environment::some_description))]
fn description(tokens: &mut Tokens<'_>) -> Result<(), ReadFault>
    ensures { Reads (spec.description_reader tokens.old) result tokens.new }
{
    if !begins_description(tokens) {
        return Ok(());
    }
    tokens.go_to(past_description(tokens.rest()));
    tokens.period()
}

/// SOURCE-COMPUTER or OBJECT-COMPUTER with its description, if it comes next.
#[tactic(auto, unfolding(crate::specs::Environment::computer_reader))]
fn computer(tokens: &mut Tokens<'_>, one: Reserved) -> Result<(), ReadFault>
    ensures { Reads (spec.computer_reader one tokens.old) result tokens.new }
{
    if !tokens.at_word(one) {
        return Ok(());
    }
    tokens.heading(&[one])?;
    description(tokens)
}

/// The configuration section, if it comes next.
#[tactic(auto, unfolding(crate::specs::Environment::configuration_reader))]
fn configuration(tokens: &mut Tokens<'_>) -> Result<(), ReadFault>
    ensures { Reads (spec.configuration_reader tokens.old) result tokens.new }
{
    if !tokens.at_word(Reserved::Configuration) {
        return Ok(());
    }
    tokens.heading(&[Reserved::Configuration, Reserved::Section])?;
    computer(tokens, Reserved::SourceComputer)?;
    computer(tokens, Reserved::ObjectComputer)
}

/// What the environment division has, from its heading on.
#[tactic(auto, unfolding(crate::specs::Environment::environment_sections_reader))]
fn sections(alloc: Global, tokens: &mut Tokens<'_>) -> Result<Items<Select>, ReadFault>
    ensures { Reads (spec.environment_sections_reader tokens.old) result tokens.new }
{
    tokens.heading(&[Reserved::Environment, Reserved::Division])?;
    configuration(tokens)?;
    input_output(alloc, tokens)
}
