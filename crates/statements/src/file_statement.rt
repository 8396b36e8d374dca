//! File statements with phrases, and all of them by their verbs.

ghost use Rattle.std.specs.Prelude.{◌≡◌};
ghost use Rattle.std.specs.Option.{option_copied};
ghost use Rattle.grammar.specs.Reading as read;
ghost use Rattle.grammar.specs.Reading.{Reads};
ghost use Rattle.statements.specs.Filing as rule;

use crate::file_phrases::{key_phrases, read_phrases};
use crate::open_statement::{read_close, read_open};
use crate::verb::FileVerb;
use conditions::relation;
use expressions::reference;
use grammar::{Part, ReadFault, Tokens, after_word, beside, name, past_word};
use source_tree::{FilePhrases, FileStatement, Reference, StartKey, Verb};
use std::alloc::Global;
use tokens::{Reserved, Token};

/// A file statement, from the verb on.
#[tactic(auto, unfolding(crate::specs::Filing::file_reader))]
pub fn read_file_statement<S: Drop, P: Part<S>>(
    statement: &P,
    alloc: Global,
    verb: FileVerb,
    tokens: &mut Tokens<'_>,
) -> Result<Verb<S>, ReadFault>
    requires { P.ready statement.now }
    ensures { Reads (rule.file_reader (read.several (P.reading statement.now)
        (P.beginning statement.now)) verb tokens.old) result tokens.new }
{
    let found = by_file_verb(statement, alloc, verb, tokens)?;
    Ok(Verb::FileStatement(found))
}

/// A file statement by its verb, from the verb on.
fn by_file_verb<S: Drop, P: Part<S>>(
    statement: &P,
    alloc: Global,
    verb: FileVerb,
    tokens: &mut Tokens<'_>,
) -> Result<FileStatement<S>, ReadFault>
    requires { P.ready statement.now }
    ensures { Reads (rule.by_file_verb (read.several (P.reading statement.now)
        (P.beginning statement.now)) verb tokens.old) result tokens.new }
{
    match verb {
        FileVerb::Open => read_open(alloc, tokens),
        FileVerb::Close => read_close(alloc, tokens),
        FileVerb::Read => reading(statement, alloc, tokens),
        FileVerb::Write => writing(statement, alloc, tokens),
        FileVerb::Rewrite => rewriting(statement, alloc, tokens),
        FileVerb::Delete => deleting(statement, alloc, tokens),
        FileVerb::Start => starting(statement, alloc, tokens),
    }
}

/// READ, from the verb on.
#[tactic(auto, unfolding(crate::specs::Filing::read_reader))]
fn reading<S: Drop, P: Part<S>>(
    statement: &P,
    alloc: Global,
    tokens: &mut Tokens<'_>,
) -> Result<FileStatement<S>, ReadFault>
    requires { P.ready statement.now }
    ensures { Reads (rule.read_reader (read.several (P.reading statement.now)
        (P.beginning statement.now)) tokens.old) result tokens.new }
{
    tokens.expect(Reserved::Read)?;
    let file = name(alloc, tokens)?;
    let next = tokens.take(Reserved::Next);
    tokens.skip(Reserved::Record);
    let into = item_after(alloc, Reserved::Into, tokens);
    let head = beside(file, into)?;
    let head = beside(head, read_key(alloc, tokens))?;
    let (((file, into), key), phrases) = beside(head, read_phrases(statement, alloc, tokens))?;
    tokens.skip(Reserved::EndRead);
    Ok(FileStatement::Read {
        file,
        next,
        into,
        key,
        phrases,
    })
}

/// A record, what it is stored from, and the phrases.
#[tactic(auto, unfolding(crate::specs::Filing::stored_reader))]
fn stored<S: Drop, P: Part<S>>(
    statement: &P,
    alloc: Global,
    tokens: &mut Tokens<'_>,
) -> Result<(Reference, (Option<Reference>, FilePhrases<S>)), ReadFault>
    requires { P.ready statement.now }
    ensures { Reads (rule.stored_reader (read.several (P.reading statement.now)
        (P.beginning statement.now)) tokens.old) result tokens.new }
{
    let record = reference(alloc, tokens)?;
    let from = item_after(alloc, Reserved::From, tokens);
    let head = beside(record, from)?;
    let ((record, from), phrases) = beside(head, key_phrases(statement, alloc, tokens))?;
    Ok((record, (from, phrases)))
}

/// WRITE, from the verb on.
#[tactic(auto, unfolding(crate::specs::Filing::write_reader))]
fn writing<S: Drop, P: Part<S>>(
    statement: &P,
    alloc: Global,
    tokens: &mut Tokens<'_>,
) -> Result<FileStatement<S>, ReadFault>
    requires { P.ready statement.now }
    ensures { Reads (rule.write_reader (read.several (P.reading statement.now)
        (P.beginning statement.now)) tokens.old) result tokens.new }
{
    tokens.expect(Reserved::Write)?;
    let (record, (from, phrases)) = stored(statement, alloc, tokens)?;
    tokens.skip(Reserved::EndWrite);
    Ok(FileStatement::Write {
        record,
        from,
        phrases,
    })
}

/// REWRITE, from the verb on.
#[tactic(auto, unfolding(crate::specs::Filing::rewrite_reader))]
fn rewriting<S: Drop, P: Part<S>>(
    statement: &P,
    alloc: Global,
    tokens: &mut Tokens<'_>,
) -> Result<FileStatement<S>, ReadFault>
    requires { P.ready statement.now }
    ensures { Reads (rule.rewrite_reader (read.several (P.reading statement.now)
        (P.beginning statement.now)) tokens.old) result tokens.new }
{
    tokens.expect(Reserved::Rewrite)?;
    let (record, (from, phrases)) = stored(statement, alloc, tokens)?;
    tokens.skip(Reserved::EndRewrite);
    Ok(FileStatement::Rewrite {
        record,
        from,
        phrases,
    })
}

/// DELETE, from the verb on.
#[tactic(auto, unfolding(crate::specs::Filing::delete_reader))]
fn deleting<S: Drop, P: Part<S>>(
    statement: &P,
    alloc: Global,
    tokens: &mut Tokens<'_>,
) -> Result<FileStatement<S>, ReadFault>
    requires { P.ready statement.now }
    ensures { Reads (rule.delete_reader (read.several (P.reading statement.now)
        (P.beginning statement.now)) tokens.old) result tokens.new }
{
    tokens.expect(Reserved::Delete)?;
    let file = name(alloc, tokens)?;
    tokens.skip(Reserved::Record);
    let (file, phrases) = beside(file, key_phrases(statement, alloc, tokens))?;
    tokens.skip(Reserved::EndDelete);
    Ok(FileStatement::Delete { file, phrases })
}

/// START, from the verb on.
#[tactic(auto, unfolding(crate::specs::Filing::start_reader))]
fn starting<S: Drop, P: Part<S>>(
    statement: &P,
    alloc: Global,
    tokens: &mut Tokens<'_>,
) -> Result<FileStatement<S>, ReadFault>
    requires { P.ready statement.now }
    ensures { Reads (rule.start_reader (read.several (P.reading statement.now)
        (P.beginning statement.now)) tokens.old) result tokens.new }
{
    tokens.expect(Reserved::Start)?;
    let file = name(alloc, tokens)?;
    let head = beside(file, start_key(alloc, tokens))?;
    let ((file, key), phrases) = beside(head, key_phrases(statement, alloc, tokens))?;
    tokens.skip(Reserved::EndStart);
    Ok(FileStatement::Start { file, key, phrases })
}

/// The item after words that `after` follows; none where the words aren't there.
fn item_at<'a>(
    alloc: Global,
    tokens: &mut Tokens<'a>,
    after: Option<&'a [Token]>,
) -> Result<Option<Reference>, ReadFault>
    ensures { Reads (rule.item_at (option_copied after.entry) tokens.old) result tokens.new }
{
    let Some(after) = after else {
        return Ok(None);
    };
    tokens.go_to(after);
    Ok(Some(reference(alloc, tokens)?))
}

/// The item after this word, where it stands.
#[tactic(auto, unfolding(crate::specs::Filing::item_after_reader))]
fn item_after(
    alloc: Global,
    word: Reserved,
    tokens: &mut Tokens<'_>,
) -> Result<Option<Reference>, ReadFault>
    ensures { Reads (rule.item_after_reader (read.after_word word) tokens.old) result tokens.new }
{
    let after = after_word(tokens.rest(), word);
    item_at(alloc, tokens, after)
}

/// The tokens after `KEY [IS]`, where that comes first.
#[tactic(auto, unfolding(crate::specs::Filing::after_key_is))]
fn after_key_is(tokens: &[Token]) -> Option<&[Token]>
    ensures { option_copied result ≡ rule.after_key_is tokens.now }
{
    let rest = after_word(tokens, Reserved::Key)?;
    Some(past_word(rest, Reserved::Is))
}

/// The key of a READ, where the phrase stands.
#[tactic(auto, unfolding(crate::specs::Filing::item_after_reader))]
fn read_key(alloc: Global, tokens: &mut Tokens<'_>) -> Result<Option<Reference>, ReadFault>
    ensures { Reads (rule.item_after_reader rule.after_key_is tokens.old) result tokens.new }
{
    let after = after_key_is(tokens.rest());
    item_at(alloc, tokens, after)
}

/// The KEY phrase of a START, where it stands: a relation and the key.
#[tactic(auto, unfolding(crate::specs::Filing::start_key_reader, crate::specs::Filing::some_key_reader))]
fn start_key(alloc: Global, tokens: &mut Tokens<'_>) -> Result<Option<StartKey>, ReadFault>
    ensures { Reads (rule.start_key_reader tokens.old) result tokens.new }
{
    let Some(after) = after_word(tokens.rest(), Reserved::Key) else {
        return Ok(None);
    };
    tokens.go_to(after);
    let operator = relation(tokens)?;
    let key = reference(alloc, tokens)?;
    Ok(Some(StartKey { operator, key }))
}
