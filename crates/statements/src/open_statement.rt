//! OPEN and CLOSE.

ghost use Rattle.std.specs.Prelude.{◌≡◌};
ghost use Rattle.grammar.specs.Parts as grammar;
ghost use Rattle.grammar.specs.Reading as read;
ghost use Rattle.grammar.specs.Reading.{Reads};
ghost use Rattle.statements.specs.Opening as rule;

use grammar::{Names, Part, ReadFault, Tokens, begins_name, name, several};
use source_tree::{FileStatement, OpenMode, Opening};
use sqlite_items::Items;
use std::alloc::Global;
use tokens::{Kind, Reserved, Token};

/// From the verb on.
#[tactic(auto, unfolding(crate::specs::Opening::openings_reader))]
pub fn read_open<S: Drop>(
    alloc: Global,
    tokens: &mut Tokens<'_>,
) -> Result<FileStatement<S>, ReadFault>
    ensures { Reads (rule.openings_reader tokens.old) result tokens.new }
{
    tokens.expect(Reserved::Open)?;
    let files = all_opened(alloc, tokens)?;
    Ok(FileStatement::Open { files })
}

/// From the verb on.
#[tactic(auto, unfolding(crate::specs::Opening::close_reader))]
pub fn read_close<S: Drop>(
    alloc: Global,
    tokens: &mut Tokens<'_>,
) -> Result<FileStatement<S>, ReadFault>
    ensures { Reads (rule.close_reader tokens.old) result tokens.new }
{
    tokens.expect(Reserved::Close)?;
    let files = several(&Names, alloc, tokens)?;
    Ok(FileStatement::Close { files })
}

/// How files are opened, where the token says it.
fn mode_of(token: &Token) -> Option<OpenMode>
    ensures { result ≡ rule.mode_in token.now }
{
    match token.kind {
        Kind::Reserved(Reserved::Input) => Some(OpenMode::Input),
        Kind::Reserved(Reserved::Output) => Some(OpenMode::Output),
        Kind::Reserved(Reserved::InputOutputMode) => Some(OpenMode::InputOutput),
        Kind::Reserved(Reserved::Extend) => Some(OpenMode::Extend),
        _ => None,
    }
}

/// INPUT, OUTPUT, I-O or EXTEND comes next.
fn begins_mode(tokens: &Tokens<'_>) -> bool
    ensures { result ≡ rule.begins_mode tokens.now }
{
    match tokens.rest() {
        [next, ..] => mode_of(next).is_some(),
        [] => false,
    }
}

/// Passes INPUT, OUTPUT, I-O or EXTEND, one of which has to come next.
#[tactic(auto, unfolding(grammar::specs::Reading::one_token))]
fn mode(tokens: &mut Tokens<'_>) -> Result<OpenMode, ReadFault>
    ensures { Reads (read.one_token rule.mode_in tokens.old) result tokens.new }
{
    let [next, rest @ ..] = tokens.rest() else {
        return Err(tokens.refuse());
    };
    let Some(mode) = mode_of(next) else {
        return Err(tokens.refuse());
    };
    tokens.go_to(rest);
    Ok(mode)
}

/// Files that are opened so.
#[derive(Drop)]
struct Openings {
    mode: OpenMode,
}

impl Part<Opening> for Openings {
    ghost use Rattle.grammar.specs.Parts as grammar;
    ghost use Rattle.statements.specs.Opening as rule;

    ghost ready = { λ _. Unit {0} };

    ghost reading = { λ o. rule.opening_reader o.mode };

    ghost beginning = { λ _. grammar.begins_name };

    #[tactic(auto, unfolding(crate::specs::Opening::opening_reader))]
    fn read(&self, alloc: Global, tokens: &mut Tokens<'_>) -> Result<Opening, ReadFault> {
        let file = name(alloc, tokens)?;
        Ok(Opening {
            mode: self.mode,
            file,
        })
    }

    fn begins(&self, tokens: &Tokens<'_>) -> bool {
        begins_name(tokens)
    }
}

/// INPUT, OUTPUT, I-O or EXTEND, and the files that are opened so.
#[tactic(auto, unfolding(crate::specs::Opening::opened_reader))]
fn opened(alloc: Global, tokens: &mut Tokens<'_>) -> Result<Items<Opening>, ReadFault>
    ensures { Reads (rule.opened_reader tokens.old) result tokens.new }
{
    let mode = mode(tokens)?;
    several(&Openings { mode }, alloc, tokens)
}

/// All files of an OPEN.
#[tactic(auto, unfolding(crate::specs::Opening::all_opened_reader, crate::specs::Opening::opened_turns))]
fn all_opened(alloc: Global, tokens: &mut Tokens<'_>) -> Result<Items<Opening>, ReadFault>
    ensures { Reads (rule.all_opened_reader tokens.old) result tokens.new }
{
    let mut found = Items::new(alloc);
    for _turn in 0..tokens.len() {
        found.append(opened(alloc, tokens)?)?;
        if !begins_mode(tokens) {
            return Ok(found);
        }
    }
    Err(tokens.refuse())
}
