//! All connectors of a program over one store.
ghost use Rattle.std.specs.Prelude.{◌≡◌, ◌<◌, ◌∷◌, ◌++◌, [], true, length, OnOk, OnErr, IsOkUnless};
ghost use Rattle.records.specs.Files.{Files};
ghost use Rattle.records.specs.Connector.{closed_connector, entry_of};
ghost use Rattle.records.specs.FileStep.{entry_at, Suits};
ghost use Rattle.file_verbs.specs.Connections.{AreLinked, entries_of, connectors_of, is_accepted};

use crate::barring::{barred, suits};
use crate::linked::{Linked, new_linked};
use crate::verb_run::{close, forget_read, perform_on};
use records::{FileVerbs, Keeps, Select, Status, Store, StoreFault, Verb};
use station::Device;
use std::alloc::Global;

/// Connectors to the files that a program names, over one store.
#[derive(Drop)]
pub struct Connectors<T> {
    alloc: Global,
    store: T,
    links: Vec<Linked>,
}

impl<T: Store> Keeps for Connectors<T> {
    ghost stands = { λ all disk files. T.stands all.store disk files
        × AreLinked files all.links.items };

    ghost holds = { λ image files. T.holds image files };

    ghost needs = { λ all. T.needs all.store };

    ghost is_spent = { λ all. T.is_spent all.store };

    ghost lacks = { λ fault image is_new name before after.
        T.lacks fault image is_new name before after };
}

impl<T: Store> FileVerbs for Connectors<T> {
    ghost entries = { λ all. entries_of all.links.items };

    ghost connectors = { λ all. connectors_of all.links.items };

    ghost held = { λ all disk image files stands crash.
        T.held all.store disk image files stands.0 crash };

    fn perform<D: Device>(
        &mut self,
        device: &mut D,
        file: usize,
        verb: Verb,
        bytes: &mut [u8],
        number: &mut u64,
    ) -> Result<Status, StoreFault> {
        if let Some(status) = barred(&self.links, file, verb) {
            forget_read(&mut self.links[file]);
            return Ok(status);
        }
        if let Verb::Close = verb {
            close(&mut self.links[file]);
            return Ok(Status::Success);
        }
        perform_on(
            &mut self.store,
            device,
            &mut self.links[file],
            verb,
            bytes,
            number,
        )
    }
}

impl<T: Store> Connectors<T> {
    ghost use Rattle.station.specs.Disk.{Disk};
    ghost use Rattle.file_verbs.specs.Over.{IsOver, IsWider};

    /// Connectors to no files. They stand for the files that the store stands for.
    pub fn new(alloc: Global, store: T) -> Connectors<T>
        ensures entries { ⟦<Connectors<T> as FileVerbs>⟧.entries result ≡ [] }
        ensures connectors { ⟦<Connectors<T> as FileVerbs>⟧.connectors result ≡ [] }
        ensures over { IsOver T.Keeps ⟦<Connectors<T> as Keeps>⟧ store result }
        ensures stands { (disk : Disk) (files : Files) → T.stands store disk files
            → ⟦<Connectors<T> as Keeps>⟧.stands result disk files }
    {
        Connectors {
            alloc,
            store,
            links: Vec::new(alloc),
        }
    }

    /// Makes a connector to one more file, which is closed, and all the room that it needs from then on. A refusal changes nothing.
    pub fn add(&mut self, select: Select) -> Result<(), StoreFault>
        ensures entries { OnOk result (⟦<Connectors<T> as FileVerbs>⟧.entries self.new
            ≡ ⟦<Connectors<T> as FileVerbs>⟧.entries self.old ++ entry_of select ∷ []) }
        ensures connectors { OnOk result (⟦<Connectors<T> as FileVerbs>⟧.connectors self.new
            ≡ ⟦<Connectors<T> as FileVerbs>⟧.connectors self.old ++ closed_connector ∷ []) }
        ensures wider { IsWider ⟦<Connectors<T> as Keeps>⟧ self.old self.new }
        ensures same { OnErr result ((⟦<Connectors<T> as FileVerbs>⟧.entries self.new
            ≡ ⟦<Connectors<T> as FileVerbs>⟧.entries self.old)
            × (⟦<Connectors<T> as FileVerbs>⟧.connectors self.new
            ≡ ⟦<Connectors<T> as FileVerbs>⟧.connectors self.old)) }
        ensures memory { IsOkUnless result StoreFault.Memory }
    {
        let linked = new_linked(self.alloc, select)?;
        self.links.push(linked)?;
        Ok(())
    }

    /// Whether there is a file of this number which the verb suits, with records of that many bytes.
    pub fn accepts(&self, file: usize, verb: Verb, record_length: usize) -> bool
        ensures exact { result ≡ is_accepted (⟦<Connectors<T> as FileVerbs>⟧.entries self.now) file
            verb record_length }
        ensures file { result ≡ true
            → file < length (⟦<Connectors<T> as FileVerbs>⟧.entries self.now) }
        ensures verb { result ≡ true
            → Suits (entry_at (⟦<Connectors<T> as FileVerbs>⟧.entries self.now) file) verb }
        ensures record_length { result ≡ true → record_length
            ≡ (entry_at (⟦<Connectors<T> as FileVerbs>⟧.entries self.now) file).spec.record_length }
    {
        if file < self.links.len() {
            let linked = &self.links[file];
            record_length == linked.select.file.record_length as usize
                && suits(&linked.select.file, verb)
        } else {
            false
        }
    }
}
