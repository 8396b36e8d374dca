//! The ways of running a program.
ghost use Rattle.std.specs.Prelude.{◌≤◌};

use crate::ending::Ending;
use crate::row::{DAY, Part, Row};
use crate::volume::Layout;
use alternate_keys::PagedStore;
use code_image::{Verified, from_bytes, verify};
use compiler::compile;
use records::StoreFault;
use run_unit::{Ended, Refusal, run_image, run_over, run_source};
use station::MemoryStation;
use std::alloc::Global;

/// How a row is run, and over which volume if it has one.
#[derive(Clone, Copy)]
pub struct Way {
    pub name: &'static str,
    pub layout: Layout,
    call: Call,
}

/// By which call of `run_unit`.
#[derive(Clone, Copy)]
enum Call {
    Source,
    Image,
    /// With so many pages of a volume of trees in memory.
    Pages(usize),
}

/// The first way, and those of a row without a volume.
pub const BY_SOURCE: Way = Way {
    name: "by run_source",
    layout: Layout::Trees,
    call: Call::Source,
};

/// The other ways. Only the first of them needs no volume.
pub const WAYS: [Way; 4] = [
    Way {
        name: "by compile and run_image",
        layout: Layout::Trees,
        call: Call::Image,
    },
    Way {
        name: "over halves",
        layout: Layout::Halves,
        call: Call::Image,
    },
    Way {
        name: "with one page",
        layout: Layout::Trees,
        call: Call::Pages(1),
    },
    Way {
        name: "with 64 pages",
        layout: Layout::Trees,
        call: Call::Pages(64),
    },
];

impl Way {
    /// Runs the row's program.
    pub fn run(&self, alloc: Global, row: &Row, station: &mut MemoryStation) -> Ending {
        match self.call {
            Call::Source => run_text(alloc, row, station),
            Call::Image => run_compiled(alloc, row, station, None),
            Call::Pages(pages) => run_compiled(alloc, row, station, Some(pages)),
        }
    }
}

fn run_text(alloc: Global, row: &Row, station: &mut MemoryStation) -> Ending {
    match run_source(alloc, row.bytes(Part::Source), station, DAY, row.steps()) {
        Ok(ended) => Ending::Run(ended),
        Err(fault) => Ending::Compile(fault),
    }
}

fn run_compiled(
    alloc: Global,
    row: &Row,
    station: &mut MemoryStation,
    pages: Option<usize>,
) -> Ending {
    match compile(alloc, row.bytes(Part::Source)) {
        Ok(image) => Ending::Run(run_bytes(alloc, image.as_slice(), station, row.steps(), pages)),
        Err(fault) => Ending::Compile(fault),
    }
}

fn run_bytes(
    alloc: Global,
    image: &[u8],
    station: &mut MemoryStation,
    budget: u64,
    pages: Option<usize>,
) -> Ended {
    match pages {
        Some(pages) => run_with_pages(alloc, image, station, budget, pages),
        None => run_image(alloc, image, station, DAY, budget),
    }
}

/// What isn't run ends as no row does here.
const NOT_RUN: Ended = Ended::Refused(Refusal::Memory);

fn run_with_pages(
    alloc: Global,
    image: &[u8],
    station: &mut MemoryStation,
    budget: u64,
    pages: usize,
) -> Ended {
    if pages < 1 || 4096 < pages {
        return NOT_RUN;
    }
    match read_code(alloc, image) {
        Some(code) => run_code(alloc, code, station, budget, pages),
        None => NOT_RUN,
    }
}

fn read_code(alloc: Global, image: &[u8]) -> Option<Verified> {
    let code = from_bytes(alloc, image).ok()?;
    verify(alloc, code).ok()
}

/// Runs code with so many pages in memory.
fn run_code(
    alloc: Global,
    code: Verified,
    station: &mut MemoryStation,
    budget: u64,
    pages: usize,
) -> Ended
    requires least { 1 ≤ pages }
    requires most { pages ≤ 4096 }
{
    match PagedStore::open(alloc, station, pages) {
        Ok(store) => run_over(alloc, code, station, store, DAY, budget),
        Err(fault) => not_opened(fault),
    }
}

/// How a run ends whose volume isn't opened.
fn not_opened(fault: StoreFault) -> Ended {
    match fault {
        StoreFault::Damaged => Ended::Refused(Refusal::Damaged),
        _ => NOT_RUN,
    }
}
