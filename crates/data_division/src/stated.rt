//! The clauses of an entry, in any order and each at most once.

ghost use Rattle.std.specs.Prelude.{◌≡◌};
ghost use Rattle.std.specs.Result.{result_map_both};
ghost use Rattle.grammar.specs.Reading.{Reads};
ghost use Rattle.data_division.specs.ClauseReading.{clause_reader};
ghost use Rattle.grammar.specs.Gathering.{gathering_reader};
ghost use Rattle.data_division.specs.Stated as spec;

use crate::clause::{Clause, ClauseKind};
use crate::clause_readers::clause_of_kind;
use crate::words::clause_at;
use grammar::{ReadFault, Tokens};
use source_tree::{Integer, Literal, Name, PictureText, SignClause, UsageClause};
use std::alloc::Global;

/// Which clauses stand in an entry.
#[derive(Drop)]
pub struct Stated {
    pub redefines: Option<Name>,
    pub picture: Option<PictureText>,
    pub usage: Option<UsageClause>,
    pub sign: Option<SignClause>,
    pub occurs: Option<Integer>,
    pub synchronized: bool,
    pub justified: bool,
    pub blank_when_zero: bool,
    pub value: Option<Literal>,
}

impl Stated {
    /// No clause.
    pub fn none() -> Stated
        ensures { result ≡ spec.no_clauses }
    {
        Stated {
            redefines: None,
            picture: None,
            usage: None,
            sign: None,
            occurs: None,
            synchronized: false,
            justified: false,
            blank_when_zero: false,
            value: None,
        }
    }

    /// A clause of that kind is among them.
    pub fn has(&self, kind: ClauseKind) -> bool
        ensures { result ≡ spec.has_clause self.now kind }
    {
        match kind {
            ClauseKind::Redefines => self.redefines.is_some(),
            ClauseKind::Picture => self.picture.is_some(),
            ClauseKind::Usage => self.usage.is_some(),
            ClauseKind::Sign => self.sign.is_some(),
            ClauseKind::Occurs => self.occurs.is_some(),
            ClauseKind::Synchronized => self.synchronized,
            ClauseKind::Justified => self.justified,
            ClauseKind::BlankWhenZero => self.blank_when_zero,
            ClauseKind::Value => self.value.is_some(),
        }
    }

    /// Takes a clause in, in the place of one of its kind.
    pub fn put(&mut self, clause: Clause)
        ensures { self.new ≡ spec.with_clause self.old clause }
    {
        match clause {
            Clause::Redefines(name) => self.redefines = Some(name),
            Clause::Picture(text) => self.picture = Some(text),
            Clause::Usage(usage) => self.usage = Some(usage),
            Clause::Sign(sign) => self.sign = Some(sign),
            Clause::Occurs(count) => self.occurs = Some(count),
            Clause::Synchronized => self.synchronized = true,
            Clause::Justified => self.justified = true,
            Clause::BlankWhenZero => self.blank_when_zero = true,
            Clause::Value(value) => self.value = Some(value),
        }
    }
}

/// Clauses up to where no more can begin. One that comes a second time is refused where it stands.
#[tactic(auto, unfolding(crate::specs::Stated::stated_reader))]
pub fn stated_clauses(alloc: Global, tokens: &mut Tokens<'_>) -> Result<Stated, ReadFault>
    ensures { Reads (spec.stated_reader tokens.old) result tokens.new }
{
    let mut stated = Stated::none();
    match gather(&mut stated, alloc, tokens) {
        Ok(()) => Ok(stated),
        Err(fault) => {
            drop(stated);
            Err(fault)
        }
    }
}

/// Takes clauses in, up to where no more can begin.
#[tactic(auto, unfolding(grammar::specs::Gathering::gathering_reader, grammar::specs::Gathering::gathering_turns))]
fn gather(stated: &mut Stated, alloc: Global, tokens: &mut Tokens<'_>) -> Result<(), ReadFault>
    ensures { Reads (gathering_reader spec.entry_clauses clause_reader stated.old tokens.old)
        (result_map_both (λ _. stated.new) (λ fault. fault) result) tokens.new }
{
    for _turn in 0..tokens.len() {
        let Some(kind) = clause_at(tokens) else {
            return Ok(());
        };
        if stated.has(kind) {
            return Err(tokens.refuse());
        }
        stated.put(clause_of_kind(kind, alloc, tokens)?);
    }
    if clause_at(tokens).is_some() {
        return Err(tokens.refuse());
    }
    Ok(())
}
