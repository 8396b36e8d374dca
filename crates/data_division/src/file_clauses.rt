//! The clauses of an FD, which have no effect (COBOL-85, Sequential I-O, "File description entry").

ghost use Rattle.std.specs.Prelude.{◌≡◌};
ghost use Rattle.grammar.specs.Reading.{Reads};
ghost use Rattle.data_division.specs.FileClauses as spec;
ghost use Rattle.grammar.specs.Gathering.{gathering_reader};

use crate::optional::{either, skip_either};
use expressions::integer;
use grammar::{Names, ReadFault, Tokens, several};
use std::alloc::Global;
use tokens::{Kind, Reserved};

/// A clause of an FD.
#[derive(Clone, Copy)]
pub enum FileClause {
    LabelRecords,
    BlockContains,
    RecordContains,
    DataRecords,
}

/// Which clauses stand in an FD.
#[derive(Clone, Copy)]
pub struct FileClauses {
    pub label_records: bool,
    pub block_contains: bool,
    pub record_contains: bool,
    pub data_records: bool,
}

impl FileClauses {
    /// No clause.
    fn none() -> FileClauses
        ensures { result ≡ spec.no_file_clauses }
    {
        FileClauses {
            label_records: false,
            block_contains: false,
            record_contains: false,
            data_records: false,
        }
    }

    /// The clause is among them.
    fn has(&self, clause: FileClause) -> bool
        ensures { result ≡ spec.has_file_clause self.now clause }
    {
        match clause {
            FileClause::LabelRecords => self.label_records,
            FileClause::BlockContains => self.block_contains,
            FileClause::RecordContains => self.record_contains,
            FileClause::DataRecords => self.data_records,
        }
    }

    /// Takes a clause in.
    fn put(&mut self, clause: FileClause)
        ensures { self.new ≡ spec.with_clause self.old clause }
    {
        match clause {
            FileClause::LabelRecords => self.label_records = true,
            FileClause::BlockContains => self.block_contains = true,
            FileClause::RecordContains => self.record_contains = true,
            FileClause::DataRecords => self.data_records = true,
        }
    }
}

/// The clause that begins with the next token.
fn file_clause_at(tokens: &Tokens<'_>) -> Option<FileClause>
    ensures { result ≡ spec.file_clause_at tokens.now }
{
    match tokens.rest() {
        [next, ..] => match next.kind {
            Kind::Reserved(Reserved::Label) => Some(FileClause::LabelRecords),
            Kind::Reserved(Reserved::Block) => Some(FileClause::BlockContains),
            Kind::Reserved(Reserved::Record) => Some(FileClause::RecordContains),
            Kind::Reserved(Reserved::Data) => Some(FileClause::DataRecords),
            _ => None,
        },
        [] => None,
    }
}

#[tactic(auto, unfolding(crate::specs::FileClauses::label_records_reader))]
fn label_records(tokens: &mut Tokens<'_>) -> Result<FileClause, ReadFault>
    ensures { Reads (spec.label_records_reader tokens.old) result tokens.new }
{
    tokens.expect(Reserved::Label)?;
    either(tokens, Reserved::Record, Reserved::Records)?;
    skip_either(tokens, Reserved::Is, Reserved::Are)?;
    either(tokens, Reserved::Standard, Reserved::Omitted)?;
    Ok(FileClause::LabelRecords)
}

/// The greatest size of a block, where TO comes next.
#[tactic(auto, unfolding(crate::specs::FileClauses::to_size_reader))]
fn to_size(alloc: Global, tokens: &mut Tokens<'_>) -> Result<(), ReadFault>
    ensures { Reads (spec.unless_to_size tokens.old) result tokens.new }
{
    if !tokens.at_word(Reserved::To) {
        return Ok(());
    }
    tokens.expect(Reserved::To)?;
    let _size = integer(alloc, tokens)?;
    Ok(())
}

#[tactic(auto, unfolding(crate::specs::FileClauses::block_contains_reader))]
fn block_contains(alloc: Global, tokens: &mut Tokens<'_>) -> Result<FileClause, ReadFault>
    ensures { Reads (spec.block_contains_reader tokens.old) result tokens.new }
{
    tokens.expect(Reserved::Block)?;
    tokens.skip(Reserved::Contains);
    drop(integer(alloc, tokens)?);
    to_size(alloc, tokens)?;
    skip_either(tokens, Reserved::Records, Reserved::Characters)?;
    Ok(FileClause::BlockContains)
}

#[tactic(auto, unfolding(crate::specs::FileClauses::record_contains_reader))]
fn record_contains(alloc: Global, tokens: &mut Tokens<'_>) -> Result<FileClause, ReadFault>
    ensures { Reads (spec.record_contains_reader tokens.old) result tokens.new }
{
    tokens.expect(Reserved::Record)?;
    tokens.skip(Reserved::Contains);
    drop(integer(alloc, tokens)?);
    tokens.skip(Reserved::Characters);
    Ok(FileClause::RecordContains)
}

#[tactic(auto, unfolding(crate::specs::FileClauses::data_records_reader))]
fn data_records(alloc: Global, tokens: &mut Tokens<'_>) -> Result<FileClause, ReadFault>
    ensures { Reads (spec.data_records_reader tokens.old) result tokens.new }
{
    tokens.expect(Reserved::Data)?;
    either(tokens, Reserved::Record, Reserved::Records)?;
    skip_either(tokens, Reserved::Is, Reserved::Are)?;
    let _names = several(&Names, alloc, tokens)?;
    Ok(FileClause::DataRecords)
}

/// Passes this clause.
#[tactic(auto, unfolding(crate::specs::FileClauses::file_clause_reader))]
fn file_clause(
    clause: FileClause,
    alloc: Global,
    tokens: &mut Tokens<'_>,
) -> Result<FileClause, ReadFault>
    ensures { Reads (spec.file_clause_reader clause tokens.old) result tokens.new }
{
    match clause {
        FileClause::LabelRecords => label_records(tokens),
        FileClause::BlockContains => block_contains(alloc, tokens),
        FileClause::RecordContains => record_contains(alloc, tokens),
        FileClause::DataRecords => data_records(alloc, tokens),
    }
}

/// Passes clauses up to where no more can begin. One that comes a second time is refused where it stands.
#[tactic(auto, unfolding(grammar::specs::Gathering::gathering_reader, grammar::specs::Gathering::gathering_turns))]
pub fn file_clauses(alloc: Global, tokens: &mut Tokens<'_>) -> Result<FileClauses, ReadFault>
    ensures { Reads (gathering_reader spec.file_clauses spec.file_clause_reader spec.no_file_clauses
        tokens.old) result tokens.new }
{
    let mut stated = FileClauses::none();
    for _turn in 0..tokens.len() {
        let Some(clause) = file_clause_at(tokens) else {
            return Ok(stated);
        };
        if stated.has(clause) {
            return Err(tokens.refuse());
        }
        stated.put(file_clause(clause, alloc, tokens)?);
    }
    if file_clause_at(tokens).is_some() {
        return Err(tokens.refuse());
    }
    Ok(stated)
}
