//! The calls of a run on the station, a letter for each: R reads a sector, W writes one, C writes a root, S syncs, D shows a text, L takes
//! a console line, N notes a status. Spaces don't count.

use crate::volume::Layout;
use station::MemoryStation;

/// What a run has done on the station.
#[derive(Clone, Copy)]
pub struct Progress {
    reads: u64,
    writes: u64,
    syncs: u64,
    pub notes: usize,
    pub texts: usize,
    /// How many sectors were written since the last sync.
    waiting: u32,
    root: Root,
}

/// Where the root of the file statement in progress is.
#[derive(Clone, Copy)]
enum Root {
    Absent,
    /// It is written and waits for a sync, as the only sector.
    Waiting,
    Durable,
}

const NOTHING: Progress = Progress {
    reads: 0,
    writes: 0,
    syncs: 0,
    notes: 0,
    texts: 0,
    waiting: 0,
    root: Root::Absent,
};

/// The calls over a layout, in the line that begins with its name, if there is one.
pub fn calls_over(lines: &[u8], layout: Layout) -> Option<&[u8]> {
    let name = layout.name().as_bytes();
    for line in lines.split(|byte| *byte == b'\n') {
        if line.starts_with(name) {
            return line.get(name.len()..);
        }
    }
    None
}

/// How many calls these are.
pub fn number_of(calls: &[u8]) -> u64 {
    calls.iter().filter(|call| **call != b' ').count() as u64
}

impl Progress {
    /// After the calls before the n-th, and the n-th, which fails.
    pub fn at(calls: &[u8], n: u64) -> Progress {
        let mut progress = NOTHING;
        let mut place = 0u64;
        for call in calls.iter().filter(|call| **call != b' ') {
            place = place.saturating_add(1);
            if place < n {
                progress.does(*call);
            } else if place == n {
                progress.fails(*call);
            }
        }
        progress
    }

    /// Whether a station was to read, write and sync so often.
    pub fn is_of(&self, station: &MemoryStation) -> bool {
        self.reads == station.reads()
            && self.writes == station.writes()
            && self.syncs == station.syncs()
    }

    /// How many images a crash may leave.
    pub fn images(&self) -> u32 {
        1u32.checked_shl(self.waiting).unwrap_or(u32::MAX)
    }

    /// How many file statements the disk has, where a crash leaves an image. An odd one has the first of the sectors that wait.
    pub fn statements_on_disk(&self, image: u32) -> usize {
        let is_one_more = match self.root {
            Root::Absent => false,
            Root::Waiting => image % 2 == 1,
            Root::Durable => true,
        };
        self.notes.saturating_add(usize::from(is_one_more))
    }

    // A station counts a read, a write and a sync that fails, and a crash may leave what was to be written.
    fn fails(&mut self, call: u8) {
        match call {
            b'S' => self.syncs = self.syncs.saturating_add(1),
            b'D' | b'L' | b'N' => {}
            _ => self.does(call),
        }
    }

    fn does(&mut self, call: u8) {
        match call {
            b'R' => self.reads = self.reads.saturating_add(1),
            b'D' => self.texts = self.texts.saturating_add(1),
            b'S' => self.syncs(),
            b'N' => self.notes_status(),
            b'W' => self.writes_sector(Root::Absent),
            b'C' => self.writes_sector(Root::Waiting),
            _ => {}
        }
    }

    fn syncs(&mut self) {
        self.syncs = self.syncs.saturating_add(1);
        self.waiting = 0;
        if matches!(self.root, Root::Waiting) {
            self.root = Root::Durable;
        }
    }

    fn notes_status(&mut self) {
        self.notes = self.notes.saturating_add(1);
        self.root = Root::Absent;
    }

    fn writes_sector(&mut self, root: Root) {
        self.writes = self.writes.saturating_add(1);
        self.waiting = self.waiting.saturating_add(1);
        self.root = root;
    }
}
