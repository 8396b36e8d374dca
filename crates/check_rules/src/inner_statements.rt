//! The statements in a statement, as they are checked, counted and searched for PERFORMs.

ghost use Rattle.std.specs.Prelude.{◌≡◌};
ghost use Rattle.source_tree.specs.Filing.{phrases_of};
ghost use Rattle.source_tree.specs.StatementCount as counted;
ghost use Rattle.check_rules.specs.InnerStatements as spec;

use source_tree::{
    ConditionalStatement, FilePhrases, FileStatement, Performed, Phrases, Selected, Subject, Verb,
};
use sqlite_items::Items;

/// The statements in a statement, in the order of the text: those after the WHENs of an EVALUATE, with its subjects, and then two lists.
/// A list that the statement does not have is empty.
pub(crate) struct InnerStatements<'a, S> {
    pub(crate) subjects: &'a [Subject],
    pub(crate) selected: &'a [Selected<S>],
    pub(crate) first: &'a [S],
    pub(crate) second: &'a [S],
}

/// The statements in the statement that has this verb.
pub(crate) fn inner_statements<S>(verb: &Verb<S>) -> InnerStatements<'_, S>
    ensures { spec.lists_in result ≡ spec.inner_lists verb.now }
{
    match verb {
        Verb::Arithmetic(one) => in_phrases(&one.phrases),
        Verb::ConditionalStatement(one) => in_branching(one),
        Verb::PerformStatement(one) => in_performed(&one.performed),
        Verb::StringStatement(one) => in_phrases(&one.phrases),
        Verb::FileStatement(one) => in_filing(one),
        Verb::DataStatement(_) | Verb::TextStatement(_) | Verb::ControlStatement(_) => {
            two_lists(&[], &[])
        }
    }
}

/// Two lists alone.
fn two_lists<'a, S>(first: &'a [S], second: &'a [S]) -> InnerStatements<'a, S>
    ensures { spec.lists_in result ≡ spec.two_lists first.now second.now }
{
    InnerStatements {
        subjects: &[],
        selected: &[],
        first,
        second,
    }
}

/// Those of a phrase; none if it is absent.
fn in_phrase<S>(phrase: &Option<Items<S>>) -> &[S]
    ensures { result.now ≡ counted.in_phrase phrase.now }
{
    match phrase {
        None => &[],
        Some(inside) => inside.as_slice(),
    }
}

/// Those of a phrase and its opposite.
fn in_phrases<S>(pair: &Phrases<S>) -> InnerStatements<'_, S>
    ensures { spec.lists_in result ≡ spec.phrases_lists pair.now }
{
    two_lists(in_phrase(&pair.arose), in_phrase(&pair.did_not))
}

/// Those of the phrases of a file statement.
fn in_file_phrases<S>(phrases: &FilePhrases<S>) -> InnerStatements<'_, S>
    ensures { spec.lists_in result ≡ spec.file_phrases_lists phrases.now }
{
    match phrases {
        FilePhrases::Absent => two_lists(&[], &[]),
        FilePhrases::AtEnd(pair) => in_phrases(pair),
        FilePhrases::InvalidKey(pair) => in_phrases(pair),
    }
}

/// Those of a file statement.
fn in_filing<S>(one: &FileStatement<S>) -> InnerStatements<'_, S>
    ensures { spec.lists_in result ≡ spec.file_phrases_lists (phrases_of one.now) }
{
    match one {
        FileStatement::Open { .. } => two_lists(&[], &[]),
        FileStatement::Close { .. } => two_lists(&[], &[]),
        FileStatement::Read { phrases, .. } => in_file_phrases(phrases),
        FileStatement::Write { phrases, .. } => in_file_phrases(phrases),
        FileStatement::Rewrite { phrases, .. } => in_file_phrases(phrases),
        FileStatement::Delete { phrases, .. } => in_file_phrases(phrases),
        FileStatement::Start { phrases, .. } => in_file_phrases(phrases),
    }
}

/// Those that a PERFORM has in it.
fn in_performed<S>(performed: &Performed<S>) -> InnerStatements<'_, S>
    ensures { spec.lists_in result ≡ spec.performed_lists performed.now }
{
    match performed {
        Performed::Procedures { .. } => two_lists(&[], &[]),
        Performed::Statements(inside) => two_lists(inside.as_slice(), &[]),
    }
}

/// Those of an IF or an EVALUATE.
fn in_branching<S>(one: &ConditionalStatement<S>) -> InnerStatements<'_, S>
    ensures { spec.lists_in result ≡ spec.branching_lists one.now }
{
    match one {
        ConditionalStatement::If {
            statements,
            otherwise,
            ..
        } => two_lists(statements.as_slice(), in_phrase(otherwise)),
        ConditionalStatement::Evaluate(one) => InnerStatements {
            subjects: one.subjects.as_slice(),
            selected: one.selected.as_slice(),
            first: &[],
            second: in_phrase(&one.other),
        },
    }
}
