//! The clauses of a SELECT, in any order, each at most once except for ALTERNATE RECORD KEY.

ghost use Rattle.std.specs.Prelude.{◌≡◌, OnOk};
ghost use Rattle.std.specs.Result.{result_map_both};
ghost use Rattle.grammar.specs.Reading.{Reads};
ghost use Rattle.grammar.specs.Gathering.{gathering_reader};
ghost use Rattle.file_control.specs.ClauseReading.{clause_reader};
ghost use Rattle.file_control.specs.Stated as spec;

use crate::clause::{Clause, ClauseKind};
use crate::clause_readers::clause_of_kind;
use crate::words::clause_at;
use grammar::{ReadFault, Tokens};
use source_tree::{Access, AlternateKeyClause, OrganizationClause, Reference};
use sqlite_items::Items;
use std::alloc::{AllocError, Global};

/// Which clauses stand in a SELECT.
#[derive(Drop)]
pub struct Stated {
    pub organization: Option<OrganizationClause>,
    pub access: Option<Access>,
    pub relative_key: Option<Reference>,
    pub record_key: Option<Reference>,
    /// In the order of writing.
    pub alternate_keys: Items<AlternateKeyClause>,
    pub status: Option<Reference>,
}

impl Stated {
    /// No clause.
    fn none(alloc: Global) -> Stated
        ensures { result ≡ spec.no_clauses }
    {
        Stated {
            organization: None,
            access: None,
            relative_key: None,
            record_key: None,
            alternate_keys: Items::new(alloc),
            status: None,
        }
    }

    /// A clause of that kind is among them and can't come again.
    fn has(&self, kind: ClauseKind) -> bool
        ensures { result ≡ spec.has_clause self.now kind }
    {
        match kind {
            ClauseKind::Organization => self.organization.is_some(),
            ClauseKind::Access => self.access.is_some(),
            ClauseKind::RelativeKey => self.relative_key.is_some(),
            ClauseKind::RecordKey => self.record_key.is_some(),
            ClauseKind::AlternateKey => false,
            ClauseKind::Status => self.status.is_some(),
        }
    }

    /// Takes a clause in, unless memory runs out.
    fn put(&mut self, clause: Clause) -> Result<(), AllocError>
        ensures { OnOk result (self.new ≡ spec.with_clause self.old clause) }
    {
        match clause {
            Clause::Organization(organization) => self.organization = Some(organization),
            Clause::Access(access) => self.access = Some(access),
            Clause::RelativeKey(key) => self.relative_key = Some(key),
            Clause::RecordKey(key) => self.record_key = Some(key),
            Clause::AlternateKey(key) => self.alternate_keys.push(key)?,
            Clause::Status(item) => self.status = Some(item),
        }
        Ok(())
    }
}

/// Clauses up to where no more can begin. One that can't come a second time is refused where it does.
pub fn stated_clauses(alloc: Global, tokens: &mut Tokens<'_>) -> Result<Stated, ReadFault>
    ensures { Reads (gathering_reader spec.select_clauses clause_reader spec.no_clauses tokens.old)
        result tokens.new }
{
    let mut stated = Stated::none(alloc);
    match gather(&mut stated, alloc, tokens) {
        Ok(()) => Ok(stated),
        Err(fault) => {
            drop(stated);
            Err(fault)
        }
    }
}

/// Takes clauses in, up to where no more can begin.
#[tactic(auto, unfolding(grammar::specs::Gathering::gathering_reader, grammar::specs::Gathering::gathering_turns))]
fn gather(stated: &mut Stated, alloc: Global, tokens: &mut Tokens<'_>) -> Result<(), ReadFault>
    ensures { Reads (gathering_reader spec.select_clauses clause_reader stated.old tokens.old)
        (result_map_both (λ _. stated.new) (λ fault. fault) result) tokens.new }
{
    for _turn in 0..tokens.len() {
        let Some(kind) = clause_at(tokens) else {
            return Ok(());
        };
        if stated.has(kind) {
            return Err(tokens.refuse());
        }
        stated.put(clause_of_kind(kind, alloc, tokens)?)?;
    }
    if clause_at(tokens).is_some() {
        return Err(tokens.refuse());
    }
    Ok(())
}
