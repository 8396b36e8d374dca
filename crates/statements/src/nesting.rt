//! Statements in one another. The rules that hold statements take the reader of those as a parameter, and the type too, so
//! that each is proved by itself.

ghost use Rattle.std.specs.Prelude.{◌≡◌};
ghost use Rattle.std.specs.Result.{result_map_both};
ghost use Rattle.source_tree.specs.declared.statement.Verb.TheVariants as verb;
ghost use Rattle.grammar.specs.Reading.{Reads};
ghost use Rattle.statements.specs.Reading as spec;
ghost use Rattle.statements.specs.Nests.{Nests};

use crate::accept_statement::read_accept;
use crate::arithmetic::arithmetic;
use crate::conditional_statement::read_if;
use crate::continue_statement::read_continue;
use crate::display_statement::display;
use crate::evaluate_statement::read_evaluate;
use crate::exit_statement::read_exit;
use crate::file_statement::read_file_statement;
use crate::initialize_statement::read_initialize;
use crate::inspect_statement::read_inspect;
use crate::move_statement::read_move;
use crate::perform_statement::read_perform;
use crate::set_statement::read_set;
use crate::stop_statement::stop_run;
use crate::string_statement::read_string;
use crate::verb::{VerbWord, begins_statement, verb_at};
use grammar::{Halt, Part, ReadFault, Tokens, several};
use source_tree::{ControlStatement, DataStatement, Statement, TextStatement, Verb};
use sqlite_items::Items;
use std::alloc::Global;

#[derive(Clone, Copy)]
pub struct Nesting<F> {
    pub alloc: Global,
    /// How deep statements may still nest.
    pub depth: usize,
    /// Reads a statement of at most that depth.
    pub statement: F,
}

impl<F: Fn(Global, &mut Tokens<'_>, usize) -> Result<Statement, ReadFault>> Part<Statement>
    for Nesting<F> {
    ghost use Rattle.statements.specs.Reading as spec;
    ghost use Rattle.statements.specs.Verbs.{begins_statement};
    ghost use Rattle.statements.specs.Nests.{Nests};

    ghost ready = { λ n. Nests n.depth (F.pre n.statement) (F.post n.statement) };

    ghost reading = { λ n. spec.statement n.depth };

    ghost beginning = { λ _. begins_statement };

    fn read(&self, alloc: Global, tokens: &mut Tokens<'_>) -> Result<Statement, ReadFault> {
        (self.statement)(alloc, tokens, self.depth)
    }

    fn begins(&self, tokens: &Tokens<'_>) -> bool {
        begins_statement(tokens)
    }
}

impl<F: Fn(Global, &mut Tokens<'_>, usize) -> Result<Statement, ReadFault>> Nesting<F> {
    /// One or more statements, up to where no more can begin.
    #[tactic(auto, unfolding(crate::specs::Reading::statements))]
    pub fn statements(&self, tokens: &mut Tokens<'_>) -> Result<Items<Statement>, ReadFault>
        requires { Nests self.now.depth (F.pre self.now.statement) (F.post self.now.statement) }
        ensures { Reads (spec.statements (spec.statement self.now.depth) tokens.old) result
            tokens.new }
    {
        several(self, self.alloc, tokens)
    }

    /// What a statement does, by its verb.
    #[tactic(auto, unfolding(crate::specs::Reading::verb, crate::specs::Reading::statements))]
    fn verb(&self, tokens: &mut Tokens<'_>) -> Result<Verb<Statement>, ReadFault>
        requires { Nests self.now.depth (F.pre self.now.statement) (F.post self.now.statement) }
        ensures { Reads (spec.verb self.now.depth (spec.statement self.now.depth) tokens.old) result
            tokens.new }
    {
        let alloc = self.alloc;
        let depth = self.depth;
        match verb_at(tokens) {
            Some(VerbWord::Accept) => as_text(read_accept(alloc, tokens)),
            Some(VerbWord::Arithmetic(verb)) => arithmetic(self, alloc, depth, verb, tokens),
            Some(VerbWord::Continue) => as_control(read_continue(tokens)),
            Some(VerbWord::Display) => as_text(display(alloc, tokens)),
            Some(VerbWord::Evaluate) => read_evaluate(self, alloc, depth, tokens),
            Some(VerbWord::Exit) => as_control(read_exit(tokens)),
            Some(VerbWord::Filing(verb)) => read_file_statement(self, alloc, verb, tokens),
            Some(VerbWord::If) => read_if(self, alloc, depth, tokens),
            Some(VerbWord::Initialize) => as_data(read_initialize(alloc, tokens)),
            Some(VerbWord::Inspect) => read_inspect(alloc, tokens),
            Some(VerbWord::Move) => as_data(read_move(alloc, tokens)),
            Some(VerbWord::Perform) => read_perform(self, alloc, depth, tokens),
            Some(VerbWord::Set) => as_data(read_set(alloc, tokens)),
            Some(VerbWord::Stop) => as_control(stop_run(tokens)),
            Some(VerbWord::String) => read_string(self, alloc, tokens),
            None => Err(tokens.refuse()),
        }
    }

    /// A statement with its place.
    #[tactic(auto, unfolding(crate::specs::Reading::line))]
    fn line(&self, tokens: &mut Tokens<'_>) -> Result<Statement, ReadFault>
        requires { Nests self.now.depth (F.pre self.now.statement) (F.post self.now.statement) }
        ensures { Reads (spec.line self.now.depth (spec.statement self.now.depth) tokens.old) result
            tokens.new }
    {
        let place = tokens.here()?;
        let verb = self.verb(tokens)?;
        Ok(Statement { place, verb })
    }
}

/// What a statement on data does, as a verb.
fn as_data(found: Result<DataStatement, ReadFault>) -> Result<Verb<Statement>, ReadFault>
    ensures { result ≡ result_map_both verb.DataStatement (λ fault. fault) found }
{
    Ok(Verb::DataStatement(found?))
}

/// What a statement on text does, as a verb.
fn as_text(found: Result<TextStatement, ReadFault>) -> Result<Verb<Statement>, ReadFault>
    ensures { result ≡ result_map_both verb.TextStatement (λ fault. fault) found }
{
    Ok(Verb::TextStatement(found?))
}

/// What a statement on the flow of control does, as a verb.
fn as_control(found: Result<ControlStatement, ReadFault>) -> Result<Verb<Statement>, ReadFault>
    ensures { result ≡ result_map_both verb.ControlStatement (λ fault. fault) found }
{
    Ok(Verb::ControlStatement(found?))
}

/// A statement with at most this many statements in one another, itself among them.
#[tactic(auto, unfolding(crate::specs::Reading::statement))]
pub fn statement(
    alloc: Global,
    tokens: &mut Tokens<'_>,
    depth: usize,
) -> Result<Statement, ReadFault>
    ensures { Reads (spec.statement depth tokens.old) result tokens.new }
{
    if depth == 0 {
        return Err(ReadFault::Halted(Halt::TooDeep(tokens.len())));
    }
    Nesting {
        alloc,
        depth: depth - 1,
        statement,
    }
    .line(tokens)
}
