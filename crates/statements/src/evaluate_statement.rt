//! EVALUATE.

ghost use Rattle.std.specs.Prelude.{◌≡◌, ◌∷◌, IfErr, IfOk};
ghost use Rattle.std.specs.Option.{option_copied};
ghost use Rattle.grammar.specs.Reading as read;
ghost use Rattle.grammar.specs.Reading.{Reads};
ghost use Rattle.conditions.specs.Evaluate as asked;
ghost use Rattle.statements.specs.Evaluate as rule;

use conditions::{object, subject};
use grammar::{Part, ReadFault, Tokens, after_word, any, beside, phrase_at, several};
use source_tree::{ConditionalStatement, Evaluate, Object, Selected, Subject, Verb, When};
use sqlite_items::Items;
use std::alloc::Global;
use tokens::{Reserved, Token};

/// From the verb on; `depth` is how deep what the subjects and objects hold may nest.
#[tactic(auto, unfolding(crate::specs::Evaluate::evaluate_reader))]
pub fn read_evaluate<S: Drop, P: Part<S>>(
    statement: &P,
    alloc: Global,
    depth: usize,
    tokens: &mut Tokens<'_>,
) -> Result<Verb<S>, ReadFault>
    requires { P.ready statement.now }
    ensures { Reads (rule.evaluate_reader depth (read.several (P.reading statement.now)
        (P.beginning statement.now)) tokens.old) result tokens.new }
{
    tokens.expect(Reserved::Evaluate)?;
    let subjects = subjects(alloc, depth, tokens)?;
    let selected = several(&Selections { statement, depth }, alloc, tokens);
    let head = beside(subjects, selected)?;
    let ((subjects, selected), other) = beside(head, other(statement, alloc, tokens))?;
    tokens.skip(Reserved::EndEvaluate);
    Ok(Verb::ConditionalStatement(ConditionalStatement::Evaluate(Evaluate {
        subjects,
        selected,
        other,
    })))
}

/// WHEN OTHER and its statements, where it stands.
#[tactic(auto, unfolding(crate::specs::Evaluate::other_reader, grammar::specs::Phrases::phrase_reader))]
fn other<S: Drop, P: Part<S>>(
    statement: &P,
    alloc: Global,
    tokens: &mut Tokens<'_>,
) -> Result<Option<Items<S>>, ReadFault>
    requires { P.ready statement.now }
    ensures { Reads (rule.other_reader (read.several (P.reading statement.now)
        (P.beginning statement.now)) tokens.old) result tokens.new }
{
    let after = after_when_other(tokens.rest());
    phrase_at(statement, alloc, tokens, after)
}

/// ALSO and the subject after it.
#[derive(Clone, Copy)]
struct FurtherSubjects {
    /// How deep what the subject holds may nest.
    depth: usize,
}

/// ALSO and the object after it.
#[derive(Clone, Copy)]
struct FurtherObjects {
    /// How deep what the object holds may nest.
    depth: usize,
}

/// WHEN with its objects.
#[derive(Clone, Copy)]
struct Whens {
    /// How deep what the objects hold may nest.
    depth: usize,
}

/// WHENs and the statements after them.
#[derive(Drop)]
struct Selections<'a, P> {
    /// Reads a statement.
    statement: &'a P,
    /// How deep what the objects hold may nest.
    depth: usize,
}

impl Part<Subject> for FurtherSubjects {
    ghost use Rattle.tokens.specs.declared.reserved.Reserved.TheVariants as w;
    ghost use Rattle.grammar.specs.Reading.{begins_word};
    ghost use Rattle.conditions.specs.Evaluate as asked;
    ghost use Rattle.statements.specs.Evaluate as rule;

    ghost ready = { λ _. Unit {0} };

    ghost reading = { λ n. rule.also_item_reader (asked.subject_reader n.depth) };

    ghost beginning = { λ _. begins_word w.Also };

    #[tactic(auto, unfolding(crate::specs::Evaluate::also_item_reader))]
    fn read(&self, alloc: Global, tokens: &mut Tokens<'_>) -> Result<Subject, ReadFault> {
        tokens.expect(Reserved::Also)?;
        subject(alloc, tokens, self.depth)
    }

    fn begins(&self, tokens: &Tokens<'_>) -> bool {
        tokens.at_word(Reserved::Also)
    }
}

impl Part<Object> for FurtherObjects {
    ghost use Rattle.tokens.specs.declared.reserved.Reserved.TheVariants as w;
    ghost use Rattle.grammar.specs.Reading.{begins_word};
    ghost use Rattle.conditions.specs.Evaluate as asked;
    ghost use Rattle.statements.specs.Evaluate as rule;

    ghost ready = { λ _. Unit {0} };

    ghost reading = { λ n. rule.also_item_reader (asked.object_reader n.depth) };

    ghost beginning = { λ _. begins_word w.Also };

    #[tactic(auto, unfolding(crate::specs::Evaluate::also_item_reader))]
    fn read(&self, alloc: Global, tokens: &mut Tokens<'_>) -> Result<Object, ReadFault> {
        tokens.expect(Reserved::Also)?;
        object(alloc, tokens, self.depth)
    }

    fn begins(&self, tokens: &Tokens<'_>) -> bool {
        tokens.at_word(Reserved::Also)
    }
}

/// The first and those after it.
fn listed<T: Drop>(alloc: Global, first: T, more: Items<T>) -> Result<Items<T>, ReadFault>
    ensures made { IfOk result (λ all. all ≡ first ∷ more) }
    ensures memory { IfErr result (λ fault. fault ≡ ReadFault.Memory) }
{
    let mut all = Items::new(alloc);
    all.push(first)?;
    all.append(more)?;
    Ok(all)
}

/// Subjects with ALSO between; `depth` is how deep what they hold may nest.
#[tactic(auto, unfolding(crate::specs::Evaluate::listed_reader))]
fn subjects(
    alloc: Global,
    depth: usize,
    tokens: &mut Tokens<'_>,
) -> Result<Items<Subject>, ReadFault>
    ensures { Reads (rule.listed_reader (asked.subject_reader depth) tokens.old) result tokens.new }
{
    let first = subject(alloc, tokens, depth)?;
    let more = any(&FurtherSubjects { depth }, alloc, tokens);
    let (first, more) = beside(first, more)?;
    listed(alloc, first, more)
}

/// Objects with ALSO between; `depth` is how deep what they hold may nest.
#[tactic(auto, unfolding(crate::specs::Evaluate::listed_reader))]
fn objects(alloc: Global, depth: usize, tokens: &mut Tokens<'_>) -> Result<Items<Object>, ReadFault>
    ensures { Reads (rule.listed_reader (asked.object_reader depth) tokens.old) result tokens.new }
{
    let first = object(alloc, tokens, depth)?;
    let more = any(&FurtherObjects { depth }, alloc, tokens);
    let (first, more) = beside(first, more)?;
    listed(alloc, first, more)
}

/// The tokens after WHEN OTHER, where it comes first.
#[tactic(auto, unfolding(crate::specs::Evaluate::after_when_other))]
fn after_when_other(tokens: &[Token]) -> Option<&[Token]>
    ensures { option_copied result ≡ rule.after_when_other tokens.now }
{
    let rest = after_word(tokens, Reserved::When)?;
    after_word(rest, Reserved::Other)
}

/// WHEN comes next, and not WHEN OTHER.
fn begins_when(tokens: &Tokens<'_>) -> bool
    ensures { result ≡ rule.begins_when tokens.now }
{
    tokens.at_word(Reserved::When) && after_when_other(tokens.rest()).is_none()
}

impl Part<When> for Whens {
    ghost use Rattle.statements.specs.Evaluate as rule;

    ghost ready = { λ _. Unit {0} };

    ghost reading = { λ n. rule.when_reader n.depth };

    ghost beginning = { λ _. rule.begins_when };

    #[tactic(auto, unfolding(crate::specs::Evaluate::when_reader))]
    fn read(&self, alloc: Global, tokens: &mut Tokens<'_>) -> Result<When, ReadFault> {
        let place = tokens.verb(Reserved::When)?;
        let objects = objects(alloc, self.depth, tokens)?;
        Ok(When { place, objects })
    }

    fn begins(&self, tokens: &Tokens<'_>) -> bool {
        begins_when(tokens)
    }
}

impl<S: Drop, P: Part<S>> Part<Selected<S>> for Selections<'_, P> {
    ghost use Rattle.grammar.specs.Reading as read;
    ghost use Rattle.statements.specs.Evaluate as rule;

    ghost ready = { λ n. P.ready n.statement.now };

    ghost reading = { λ n. rule.selected_reader n.depth (read.several
        (P.reading n.statement.now) (P.beginning n.statement.now)) };

    ghost beginning = { λ _. rule.begins_when };

    #[tactic(auto, unfolding(crate::specs::Evaluate::selected_reader))]
    fn read(&self, alloc: Global, tokens: &mut Tokens<'_>) -> Result<Selected<S>, ReadFault> {
        let depth = self.depth;
        let whens = several(&Whens { depth }, alloc, tokens)?;
        let (whens, statements) = beside(whens, several(self.statement, alloc, tokens))?;
        Ok(Selected { whens, statements })
    }

    fn begins(&self, tokens: &Tokens<'_>) -> bool {
        begins_when(tokens)
    }
}
