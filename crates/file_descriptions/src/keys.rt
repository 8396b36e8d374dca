//! The keys of a file.

ghost use Rattle.std.specs.Prelude.{◌≡◌, ◌≤◌, length, IfOk, IfSome, OnOk};
ghost use Rattle.std.specs.List.{AllByRecursion};
ghost use Rattle.source_tree.specs.ProgramFiles as meaning;
ghost use Rattle.file_descriptions.specs.Clauses.{IsKey, IsKeyClause, HasPrime};
ghost use Rattle.file_descriptions.specs.Keys as spec;
ghost use Rattle.file_descriptions.specs.Sources.{IsSource, items_in};

use crate::source::Source;
use records::{AlternateKey, KeyPlace, Organization};
use source_tree::{AlternateKeyClause, OrganizationClause, Reference};
use std::alloc::{AllocError, Global};

impl Source<'_, '_> {
    /// The prime key; without its clause it has no bytes.
    fn prime_key_place(&self, key: &Option<Reference>) -> KeyPlace
        requires source { IsSource self.now }
        requires key { IfSome key.now (IsKey (items_in self.now)) }
        ensures { result ≡ meaning.prime_key_place (items_in self.now) key.now }
    {
        match key {
            Some(one) => self.key_place(one),
            None => KeyPlace {
                offset: 0,
                length: 0,
            },
        }
    }

    /// ORGANIZATION, with the prime key of an indexed file.
    pub fn organization(
        &self,
        clause: OrganizationClause,
        record_key: &Option<Reference>,
    ) -> Organization
        requires source { IsSource self.now }
        requires key { HasPrime (items_in self.now) clause record_key.now }
        ensures { result ≡ meaning.organization_by (items_in self.now) clause record_key.now }
    {
        match clause {
            OrganizationClause::Sequential => Organization::Sequential,
            OrganizationClause::Relative => Organization::Relative,
            OrganizationClause::Indexed => Organization::Indexed(self.prime_key_place(record_key)),
        }
    }

    /// The alternate keys, in order of place.
    pub fn alternates(
        &self,
        alloc: Global,
        clauses: &[AlternateKeyClause],
    ) -> Result<Vec<AlternateKey>, AllocError>
        requires source { IsSource self.now }
        requires keys { AllByRecursion (IsKeyClause (items_in self.now)) clauses.now }
        ensures { IfOk result
            (λ keys. keys.items ≡ meaning.alternates (items_in self.now) clauses.now) }
    {
        let mut keys = Vec::new(alloc);
        let mut left = clauses.len();
        'clauses: while left > 0 {
            left -= 1;
            let clause = &clauses[left];
            let key = AlternateKey {
                place: self.key_place(&clause.key),
                duplicates: clause.duplicates,
            };
            put_key(&mut keys, key)?;
        }
        Ok(keys)
    }
}

/// How many keys stand before one.
#[tactic(auto, unfolding(crate::specs::Keys::keys_before))]
fn keys_before(keys: &[AlternateKey], one: AlternateKey) -> usize
    ensures value { result ≡ spec.keys_before one keys.now }
    ensures within { result ≤ length keys.now }
{
    for (index, other) in keys.iter().enumerate() {
        if one.place.offset <= other.place.offset {
            return index;
        }
    }
    keys.len()
}

/// Puts a key among others, which are in order of place.
fn put_key(keys: &mut Vec<AlternateKey>, one: AlternateKey) -> Result<(), AllocError>
    ensures { OnOk result (keys.new.items ≡ meaning.with_key one keys.old.items) }
{
    let before = keys_before(keys, one);
    keys.insert(before, one)?;
    Ok(())
}
