//! A volume on a station in memory, with the connectors of a program over it.
use crate::answer::Answer;
use crate::connectors::{Kind, Verbs, refusal};
use crate::listing::list;
use crate::statement::FileCall;
use alternate_keys::{PagedStore, migrate};
use file_recovery::recover;
use records::{Select, Verb};
use row_scripts::{Fault, if_done, put_text};
use station::{Device, DeviceError, MemoryStation};
use std::alloc::Global;
use std::mem;

/// A station with its connectors.
#[derive(Drop)]
pub struct Volume {
    alloc: Global,
    kind: Kind,
    verbs: Verbs,
    station: MemoryStation,
}

/// The refusal to read or write a sector.
fn device_refusal(error: DeviceError) -> Fault {
    Fault::Refused(u64::from(error.number()))
}

/// Makes a volume without files, with the mark of new volumes.
fn format(kind: Kind, station: &mut MemoryStation) -> Result<(), Fault> {
    if station.count() < 1024 || station.count() > 921_600 {
        return Err(Fault::Spelling("a volume has from 1024 to 921600 sectors"));
    }
    let formatted = match kind {
        Kind::Halves => half_store::format(station),
        Kind::Trees(_) | Kind::EarlierTrees(_) => alternate_keys::format(station),
    };
    match formatted {
        Ok(()) => Ok(()),
        Err(_) => Err(Fault::Memory),
    }
}

/// The most sectors of a station here.
const MOST_SECTORS: usize = 10_000;

/// A station of so many sectors of zeros.
fn blank(alloc: Global, sectors: usize) -> Result<MemoryStation, Fault> {
    let bytes = vec![in alloc; [0; 4096]; sectors.min(MOST_SECTORS)]?;
    Ok(MemoryStation::new(alloc, bytes, Vec::new(alloc))?)
}

impl Volume {
    /// A volume of this kind that isn't open, without files, or with sectors of zeros.
    pub fn new(alloc: Global, kind: Kind, sectors: usize, is_blank: bool) -> Result<Volume, Fault> {
        let mut volume = Volume::over(alloc, kind, blank(alloc, sectors)?);
        if is_blank {
            return Ok(volume);
        }
        let formatted = volume.format();
        if_done(volume, formatted)
    }

    /// A volume of this kind that isn't open, with these sectors.
    pub fn with(alloc: Global, kind: Kind, sectors: &[[u8; 4096]]) -> Result<Volume, Fault> {
        let count = sectors.len().min(MOST_SECTORS);
        let sectors = match sectors.get(..count) {
            Some(sectors) => Vec::from_slice(alloc, sectors)?,
            None => Vec::new(alloc),
        };
        let station = MemoryStation::new(alloc, sectors, Vec::new(alloc))?;
        Ok(Volume::over(alloc, kind, station))
    }

    fn over(alloc: Global, kind: Kind, station: MemoryStation) -> Volume {
        Volume {
            alloc,
            kind,
            verbs: Verbs::Closed,
            station,
        }
    }

    /// Makes a volume without files of the station. It isn't open then.
    pub fn format(&mut self) -> Result<(), Fault> {
        self.close_files();
        format(self.kind, &mut self.station)?;
        match self.kind {
            Kind::EarlierTrees(_) => self.put_earlier_mark(),
            _ => Ok(()),
        }
    }

    /// Gives a new volume of trees the mark COBVOL01.
    fn put_earlier_mark(&mut self) -> Result<(), Fault> {
        let mut bytes = self.sector(0)?;
        bytes[7] = b'1';
        self.put(0, &bytes)
    }

    /// Opens the volume anew, with connectors to these files.
    pub fn open(&mut self, selects: Vec<Select>) -> Result<(), Fault> {
        self.close_files();
        let verbs = Verbs::open(self.alloc, self.kind, &mut self.station, selects)?;
        self.replace_verbs(verbs);
        Ok(())
    }

    /// Dropping the connectors that were there is one call here, and not a path for each form of them.
    fn replace_verbs(&mut self, verbs: Verbs) {
        drop(mem::replace(&mut self.verbs, verbs));
    }

    fn close_files(&mut self) {
        self.replace_verbs(Verbs::Closed);
    }

    /// Gives the volume the mark COBVOL02. It isn't open then.
    pub fn migrate(&mut self) -> Result<(), Fault> {
        self.close_files();
        migrate(self.alloc, &mut self.station).map_err(refusal)
    }

    /// Whether there is a SELECT at this place that the verb suits, with records of so many bytes.
    pub fn accepts(&self, select: usize, verb: Verb, length: usize) -> bool {
        self.verbs.accepts(select, verb, length)
    }

    /// Does a statement on a record and a number.
    pub fn perform(
        &mut self,
        call: FileCall,
        record: &mut [u8],
        number: &mut u64,
    ) -> Result<Answer, Fault> {
        self.verbs.perform(&mut self.station, call, record, number)
    }

    /// Makes the n-th call from now on fail, and all later calls too if it is a stop.
    pub fn disturb(&mut self, n: u64, is_stop: bool) {
        if is_stop {
            self.station.stop_at(n);
        } else {
            self.station.fail_at(n);
        }
    }

    /// Stops the program. No call fails from now on, and no write that waits for a sync is lost.
    pub fn close(&mut self) {
        self.close_files();
        self.station.fail_at(u64::MAX);
    }

    /// Stops the program. Each sector that waits for a sync gets the value of its choice.
    pub fn crash(&mut self, choices: &[u32]) {
        self.close_files();
        self.station.crash(choices);
    }

    /// Ends the record of calls on the station. Writes that wait for a sync are lost.
    pub fn forget_calls(&mut self) {
        self.station.crash(&[]);
    }

    /// Ends the record of calls on the station, if there are more writes. Writes that wait for a sync are durable then.
    pub fn renew_after(&mut self, writes: u64) -> Result<(), Fault> {
        if self.station.writes() > writes {
            return self.renew();
        }
        Ok(())
    }

    fn renew(&mut self) -> Result<(), Fault> {
        let count = self.station.count();
        let mut sectors = Vec::new(self.alloc);
        sectors.reserve(count as usize)?;
        self.copy_sectors(&mut sectors)?;
        if sectors.len() != count as usize {
            return Err(Fault::Spelling("the station lost sectors"));
        }
        self.station = MemoryStation::new(self.alloc, sectors, Vec::new(self.alloc))?;
        Ok(())
    }

    /// Copies all sectors after others.
    pub fn copy_sectors(&mut self, sectors: &mut Vec<[u8; 4096]>) -> Result<(), Fault> {
        let mut bytes = [0; 4096];
        for number in 0..self.station.count() {
            self.read(number, &mut bytes)?;
            sectors.push(bytes)?;
        }
        Ok(())
    }

    /// How often a sector was written.
    pub fn writes(&self) -> u64 {
        self.station.writes()
    }

    /// The files as text.
    pub fn files(&mut self) -> Result<Vec<u8>, Fault> {
        let files = recover(self.alloc, &mut self.station).map_err(refusal)?;
        Ok(list(self.alloc, &files)?)
    }

    /// How many sectors a commit may use, of a volume of trees.
    pub fn free(&mut self) -> Result<u64, Fault> {
        let store = PagedStore::open(self.alloc, &mut self.station, 8).map_err(refusal)?;
        let free = store.free_sectors();
        drop(store);
        Ok(u64::from(free))
    }

    /// How many sectors the station has.
    pub fn count(&self) -> u32 {
        self.station.count()
    }

    /// A sector.
    pub fn sector(&mut self, number: u32) -> Result<[u8; 4096], Fault> {
        let mut bytes = [0; 4096];
        self.read(number, &mut bytes)?;
        Ok(bytes)
    }

    /// Copies a sector.
    pub fn read(&mut self, number: u32, bytes: &mut [u8; 4096]) -> Result<(), Fault> {
        if number >= self.station.count() {
            return Err(Fault::Spelling("there is no such sector"));
        }
        self.station.read(number, bytes).map_err(device_refusal)
    }

    /// Writes a sector, which is durable then.
    pub fn put(&mut self, number: u32, bytes: &[u8; 4096]) -> Result<(), Fault> {
        if number >= self.station.count() {
            return Err(Fault::Spelling("there is no such sector"));
        }
        self.station.write(number, bytes).map_err(device_refusal)?;
        self.station.sync().map_err(device_refusal)
    }

    /// Puts a text into a sector, from a place on. The sector is durable then.
    pub fn put_text(&mut self, number: u32, place: usize, text: &[u8]) -> Result<(), Fault> {
        let mut bytes = self.sector(number)?;
        put_text(&mut bytes, place, text)?;
        self.put(number, &bytes)
    }

    /// Writes the sectors that differ from these. Then all sectors are durable.
    pub fn put_all(&mut self, sectors: &[[u8; 4096]]) -> Result<(), Fault> {
        let mut present = [0; 4096];
        let mut number = 0u32;
        for bytes in sectors.iter() {
            self.read(number, &mut present)?;
            if present != *bytes {
                self.put(number, bytes)?;
            }
            number = number.saturating_add(1);
        }
        self.station.sync().map_err(device_refusal)
    }
}
