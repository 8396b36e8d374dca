//! A reader for each clause.

ghost use Rattle.std.specs.Prelude.{◌≡◌};
ghost use Rattle.grammar.specs.Reading as read;
ghost use Rattle.grammar.specs.Reading.{Reads};
ghost use Rattle.data_division.specs.Words as words;
ghost use Rattle.data_division.specs.Clauses as rule;
ghost use Rattle.data_division.specs.ClauseReading as spec;

use crate::clause::{Clause, ClauseKind};
use crate::optional::{either, skip_either, take_separate};
use crate::words::{position_of, usage_of};
use expressions::{integer, literal};
use grammar::{ReadFault, Tokens, name, skip_led};
use source_tree::{PictureText, SignClause, SignPosition, UsageClause};
use sqlite_items::Items;
use std::alloc::Global;
use tokens::{Kind, Reserved};

/// A clause of this kind.
#[tactic(auto, unfolding(crate::specs::ClauseReading::clause_reader))]
pub fn clause_of_kind(
    kind: ClauseKind,
    alloc: Global,
    tokens: &mut Tokens<'_>,
) -> Result<Clause, ReadFault>
    ensures { Reads (spec.clause_reader kind tokens.old) result tokens.new }
{
    match kind {
        ClauseKind::Redefines => redefines(alloc, tokens),
        ClauseKind::Picture => picture(alloc, tokens),
        ClauseKind::Usage => usage(tokens),
        ClauseKind::Sign => sign(tokens),
        ClauseKind::Occurs => occurs(alloc, tokens),
        ClauseKind::Synchronized => synchronized(tokens),
        ClauseKind::Justified => justified(tokens),
        ClauseKind::BlankWhenZero => blank_when_zero(tokens),
        ClauseKind::Value => value(alloc, tokens),
    }
}

#[tactic(auto, unfolding(crate::specs::ClauseReading::redefines_reader))]
fn redefines(alloc: Global, tokens: &mut Tokens<'_>) -> Result<Clause, ReadFault>
    ensures { Reads (spec.redefines_reader tokens.old) result tokens.new }
{
    tokens.expect(Reserved::Redefines)?;
    Ok(Clause::Redefines(name(alloc, tokens)?))
}

/// The characters of a picture.
#[tactic(auto, unfolding(grammar::specs::Reading::one_token))]
fn picture_text(alloc: Global, tokens: &mut Tokens<'_>) -> Result<PictureText, ReadFault>
    ensures { Reads (read.one_token rule.picture_in tokens.old) result tokens.new }
{
    let [next, rest @ ..] = tokens.rest() else {
        return Err(tokens.refuse());
    };
    let Kind::Picture(text) = &next.kind else {
        return Err(tokens.refuse());
    };
    let characters = Items::from_slice(alloc, text.as_slice())?;
    tokens.go_to(rest);
    Ok(PictureText {
        characters,
        place: next.place,
    })
}

#[tactic(auto, unfolding(crate::specs::ClauseReading::picture_reader))]
fn picture(alloc: Global, tokens: &mut Tokens<'_>) -> Result<Clause, ReadFault>
    ensures { Reads (spec.picture_reader tokens.old) result tokens.new }
{
    either(tokens, Reserved::Pic, Reserved::Picture)?;
    tokens.skip(Reserved::Is);
    Ok(Clause::Picture(picture_text(alloc, tokens)?))
}

/// A word that stands for a usage.
#[tactic(auto, unfolding(grammar::specs::Reading::one_token))]
fn usage_word(tokens: &mut Tokens<'_>) -> Result<UsageClause, ReadFault>
    ensures { Reads (read.one_token words.usage_in tokens.old) result tokens.new }
{
    match tokens.rest() {
        [next, rest @ ..] => match next.kind {
            Kind::Reserved(word) => match usage_of(word) {
                Some(usage) => {
                    tokens.go_to(rest);
                    Ok(usage)
                }
                None => Err(tokens.refuse()),
            },
            _ => Err(tokens.refuse()),
        },
        [] => Err(tokens.refuse()),
    }
}

#[tactic(auto, unfolding(crate::specs::ClauseReading::usage_reader))]
fn usage(tokens: &mut Tokens<'_>) -> Result<Clause, ReadFault>
    ensures { Reads (spec.usage_reader tokens.old) result tokens.new }
{
    skip_led(tokens, Reserved::Usage)?;
    Ok(Clause::Usage(usage_word(tokens)?))
}

/// LEADING or TRAILING.
#[tactic(auto, unfolding(grammar::specs::Reading::one_token))]
fn position_word(tokens: &mut Tokens<'_>) -> Result<SignPosition, ReadFault>
    ensures { Reads (read.one_token words.position_in tokens.old) result tokens.new }
{
    match tokens.rest() {
        [next, rest @ ..] => match next.kind {
            Kind::Reserved(word) => match position_of(word) {
                Some(position) => {
                    tokens.go_to(rest);
                    Ok(position)
                }
                None => Err(tokens.refuse()),
            },
            _ => Err(tokens.refuse()),
        },
        [] => Err(tokens.refuse()),
    }
}

#[tactic(auto, unfolding(crate::specs::ClauseReading::sign_reader))]
fn sign(tokens: &mut Tokens<'_>) -> Result<Clause, ReadFault>
    ensures { Reads (spec.sign_reader tokens.old) result tokens.new }
{
    skip_led(tokens, Reserved::Sign)?;
    let position = position_word(tokens)?;
    let separate = take_separate(tokens);
    Ok(Clause::Sign(SignClause { position, separate }))
}

#[tactic(auto, unfolding(crate::specs::ClauseReading::occurs_reader))]
fn occurs(alloc: Global, tokens: &mut Tokens<'_>) -> Result<Clause, ReadFault>
    ensures { Reads (spec.occurs_reader tokens.old) result tokens.new }
{
    tokens.expect(Reserved::Occurs)?;
    let count = integer(alloc, tokens)?;
    tokens.skip(Reserved::Times);
    Ok(Clause::Occurs(count))
}

#[tactic(auto, unfolding(crate::specs::ClauseReading::synchronized_reader))]
fn synchronized(tokens: &mut Tokens<'_>) -> Result<Clause, ReadFault>
    ensures { Reads (spec.synchronized_reader tokens.old) result tokens.new }
{
    either(tokens, Reserved::Sync, Reserved::Synchronized)?;
    skip_either(tokens, Reserved::Left, Reserved::Right)?;
    Ok(Clause::Synchronized)
}

#[tactic(auto, unfolding(crate::specs::ClauseReading::justified_reader))]
fn justified(tokens: &mut Tokens<'_>) -> Result<Clause, ReadFault>
    ensures { Reads (spec.justified_reader tokens.old) result tokens.new }
{
    either(tokens, Reserved::Just, Reserved::Justified)?;
    tokens.skip(Reserved::Right);
    Ok(Clause::Justified)
}

#[tactic(auto, unfolding(crate::specs::ClauseReading::blank_when_zero_reader))]
fn blank_when_zero(tokens: &mut Tokens<'_>) -> Result<Clause, ReadFault>
    ensures { Reads (spec.blank_when_zero_reader tokens.old) result tokens.new }
{
    tokens.expect(Reserved::Blank)?;
    tokens.skip(Reserved::When);
    tokens.expect(Reserved::Zero)?;
    Ok(Clause::BlankWhenZero)
}

#[tactic(auto, unfolding(crate::specs::ClauseReading::value_reader))]
fn value(alloc: Global, tokens: &mut Tokens<'_>) -> Result<Clause, ReadFault>
    ensures { Reads (spec.value_reader tokens.old) result tokens.new }
{
    tokens.expect(Reserved::Value)?;
    tokens.skip(Reserved::Is);
    Ok(Clause::Value(literal(alloc, tokens)?))
}
