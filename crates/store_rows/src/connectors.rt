//! Connectors to the files of a case, over a store of either kind.
ghost use Rattle.std.specs.Prelude.{◌≡◌, IfOk};

use crate::answer::Answer;
use crate::statement::FileCall;
use alternate_keys::PagedStore;
use file_verbs::Connectors;
use half_store::HalfStore;
use records::{FileVerbs, Keeps, Select, Store, StoreFault, Verb};
use row_scripts::Fault;
use station::{Device, MemoryStation};
use std::alloc::Global;

/// The kind of a volume: halves, or trees with so many pages in memory, with the mark of new volumes or with the earlier one.
#[derive(Clone, Copy)]
pub enum Kind {
    Halves,
    Trees(usize),
    EarlierTrees(usize),
}

/// Over a store of halves, on a volume of so many sectors.
#[derive(Drop)]
pub struct OverHalves {
    all: Connectors<HalfStore>,
    sectors: u32,
    ghost needed: { ⟦<Connectors<HalfStore> as Keeps>⟧.needs all ≡ sectors },
}

/// Over a store of trees, on a volume of so many sectors.
#[derive(Drop)]
pub struct OverTrees {
    all: Connectors<PagedStore>,
    sectors: u32,
    ghost needed: { ⟦<Connectors<PagedStore> as Keeps>⟧.needs all ≡ sectors },
}

/// The connectors of a program, if its volume is open.
#[derive(Drop)]
pub enum Verbs {
    Closed,
    Halves(OverHalves),
    Trees(OverTrees),
}

impl Verbs {
    /// Opens the volume of a station, with connectors to these files, which are closed.
    pub fn open(
        alloc: Global,
        kind: Kind,
        station: &mut MemoryStation,
        selects: Vec<Select>,
    ) -> Result<Verbs, Fault> {
        match kind {
            Kind::Halves => Ok(Verbs::Halves(open_halves(alloc, station, selects)?)),
            Kind::Trees(cached) | Kind::EarlierTrees(cached) => {
                Ok(Verbs::Trees(open_trees(alloc, cached, station, selects)?))
            }
        }
    }

    /// Whether there is a SELECT at this place that the verb suits, with records of so many bytes.
    pub fn accepts(&self, select: usize, verb: Verb, length: usize) -> bool {
        match self {
            Verbs::Closed => false,
            Verbs::Halves(over) => over.all.accepts(select, verb, length),
            Verbs::Trees(over) => over.all.accepts(select, verb, length),
        }
    }

    /// Does a statement on a record and a number.
    pub fn perform(
        &mut self,
        station: &mut MemoryStation,
        call: FileCall,
        record: &mut [u8],
        number: &mut u64,
    ) -> Result<Answer, Fault> {
        match self {
            Verbs::Closed => Err(Fault::Spelling("the volume isn't open")),
            Verbs::Halves(over) => over.perform(station, call, record, number),
            Verbs::Trees(over) => over.perform(station, call, record, number),
        }
    }
}

impl OverHalves {
    fn perform(
        &mut self,
        station: &mut MemoryStation,
        call: FileCall,
        record: &mut [u8],
        number: &mut u64,
    ) -> Result<Answer, Fault> {
        let sectors = self.sectors;
        perform_over(&mut self.all, sectors, station, call, record, number)
    }
}

impl OverTrees {
    fn perform(
        &mut self,
        station: &mut MemoryStation,
        call: FileCall,
        record: &mut [u8],
        number: &mut u64,
    ) -> Result<Answer, Fault> {
        let sectors = self.sectors;
        perform_over(&mut self.all, sectors, station, call, record, number)
    }
}

/// The refusal to open or read a volume.
pub fn refusal(fault: StoreFault) -> Fault {
    Fault::Refused(u64::from(fault.number()))
}

fn open_halves(
    alloc: Global,
    station: &mut MemoryStation,
    selects: Vec<Select>,
) -> Result<OverHalves, Fault> {
    let store = HalfStore::open(alloc, station).map_err(refusal)?;
    let sectors = store.sectors();
    let all = connect(alloc, store, selects)?;
    Ok(OverHalves { all, sectors })
}

fn open_trees(
    alloc: Global,
    cached: usize,
    station: &mut MemoryStation,
    selects: Vec<Select>,
) -> Result<OverTrees, Fault> {
    if cached < 1 || cached > 4096 {
        return Err(Fault::Spelling("from 1 to 4096 pages are in memory"));
    }
    let store = PagedStore::open(alloc, station, cached).map_err(refusal)?;
    let sectors = store.sectors();
    let all = connect(alloc, store, selects)?;
    Ok(OverTrees { all, sectors })
}

/// Connectors to these files over a store.
fn connect<T: Store + Drop>(
    alloc: Global,
    store: T,
    selects: Vec<Select>,
) -> Result<Connectors<T>, Fault>
    ensures { IfOk result (λ all. ⟦<Connectors<T> as Keeps>⟧.needs all ≡ T.needs store) }
{
    let mut all = Connectors::new(alloc, store);
    for select in selects.into_iter() {
        if all.add(select).is_err() {
            return Err(Fault::Memory);
        }
    }
    Ok(all)
}

/// Does a statement on a record and a number, on a volume of so many sectors; or refuses a station that has fewer.
fn perform_over<T: Store + Drop>(
    all: &mut Connectors<T>,
    sectors: u32,
    station: &mut MemoryStation,
    call: FileCall,
    record: &mut [u8],
    number: &mut u64,
) -> Result<Answer, Fault>
    requires { ⟦<Connectors<T> as Keeps>⟧.needs all.old ≡ sectors }
    ensures { ⟦<Connectors<T> as Keeps>⟧.needs all.new ≡ ⟦<Connectors<T> as Keeps>⟧.needs all.old }
{
    if sectors > station.count() {
        return Err(refusal(StoreFault::Damaged));
    }
    if !all.accepts(call.select, call.verb, record.len()) {
        return Err(Fault::Spelling("the file has no such key"));
    }
    match all.perform(station, call.select, call.verb, record, number) {
        Ok(status) => Ok(Answer::Status(status.bytes())),
        Err(fault) => Ok(Answer::Refused(u64::from(fault.number()))),
    }
}
