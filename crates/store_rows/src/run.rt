//! The rows of a case, done over a volume.
use crate::answer::FULL;
use crate::calls::{Call, read_call};
use crate::case::Case;
use crate::connectors::Kind;
use crate::effect::Effect;
use crate::listing::sum_of;
use crate::select::read_select;
use crate::statement::{FileCall, Statement, is_statement, read_file_call, read_rest, verb_of};
use crate::volume::Volume;
use records::Select;
use row_scripts::{Fault, Words, if_done, unquote};
use std::alloc::{AllocError, Global};

/// The station keeps a record of its calls. After so many writes it is made anew.
const MOST_WRITES: u64 = 8192;

/// A case that begins again after so many writes gets a new station, so that its own writes are fewer than those above.
const FEW_WRITES: u64 = 1024;

/// A case on its volume.
#[derive(Drop)]
pub struct Run<'a> {
    pub alloc: Global,
    pub case: &'a Case,
    pub volume: Volume,
    saved: Vec<[u8; 4096]>,
    writes: u64,
    row_count: u64,
    is_disturbed: bool,
}

/// Why a row without a number that belongs there is none.
const NO_NUMBER: &str = "a number belongs here";

fn sector_number(words: &mut Words<'_>) -> Result<u32, Fault> {
    let Some(number) = words.number() else {
        return Err(Fault::Spelling(NO_NUMBER));
    };
    match u32::try_from(number) {
        Ok(number) => Ok(number),
        Err(_) => Err(Fault::Spelling("there is no such sector")),
    }
}

/// The number after `refused`, if that is the next word.
fn refusal(words: &mut Words<'_>) -> Option<u64> {
    if words.takes(b"refused") {
        words.number()
    } else {
        None
    }
}

fn first_line(row: &[u8]) -> &[u8] {
    row.split(|byte| *byte == b'\n').next().unwrap_or(row)
}

/// How many lines of a listing are rows: those that begin with a space.
fn rows_in(listing: &[u8]) -> u64 {
    let mut rows = 0u64;
    let mut before = b'\n';
    for byte in listing.iter() {
        if before == b'\n' && *byte == b' ' {
            rows = rows.saturating_add(1);
        }
        before = *byte;
    }
    rows
}

/// The row `files` that has the lines of a listing.
fn listing_row(alloc: Global, listing: &[u8]) -> Result<Vec<u8>, AllocError> {
    let mut row = Vec::from_slice(alloc, b"files")?;
    for line in listing.split(|byte| *byte == b'\n') {
        if !line.is_empty() {
            row.extend_from_slice(b"\n| ")?;
            row.extend_from_slice(line)?;
        }
    }
    Ok(row)
}

/// A sector of which a byte is turned, if it is there.
fn turned(bytes: &[u8; 4096], place: u64, mask: u8) -> [u8; 4096] {
    let mut turned = *bytes;
    if let Some(byte) = turned.get_mut(place as usize) {
        *byte ^= mask;
    }
    turned
}

/// Whether a turned byte is taken as a row says: what refuses to open the volume, and whether the files are the same.
fn is_taken_so(mut words: Words<'_>, opened: Option<u64>, found: Option<bool>) -> bool {
    if words.takes(b"same") {
        return opened.is_none() && found == Some(true);
    }
    if words.takes(b"other") {
        return opened.is_none() && found == Some(false);
    }
    words.word();
    found.is_none() && opened.is_some() && opened == words.number()
}

/// Nothing, if it is refused by this number; what was done, if no refusal is expected and there is none.
fn as_expected<T: Drop>(
    done: Result<T, Fault>,
    refused: Option<u64>,
    otherwise: &'static str,
) -> Result<Option<T>, Fault> {
    match (done, refused) {
        (Ok(done), None) => Ok(Some(done)),
        (Err(Fault::Refused(fault)), Some(number)) if fault == number => Ok(None),
        (Err(fault), _) => Err(fault),
        (Ok(_), Some(_)) => Err(Fault::Spelling(otherwise)),
    }
}

/// What was done, or the number of its refusal.
pub fn or_refusal<T: Drop>(done: Result<T, Fault>) -> Result<Result<T, u64>, Fault> {
    match done {
        Ok(done) => Ok(Ok(done)),
        Err(Fault::Refused(number)) => Ok(Err(number)),
        Err(fault) => Err(fault),
    }
}

impl<'a> Run<'a> {
    /// A case before its first row: an open volume without files, or a station of zeros.
    pub fn new(alloc: Global, case: &'a Case, kind: Kind) -> Result<Run<'a>, Fault> {
        let volume = Volume::new(alloc, kind, case.sectors, case.is_blank)?;
        let mut run = Run::over(alloc, case, volume);
        if case.is_blank {
            return Ok(run);
        }
        let opened = run.open();
        if_done(run, opened)
    }

    /// A case over a volume with these sectors that isn't open.
    pub fn closed(
        alloc: Global,
        case: &'a Case,
        kind: Kind,
        sectors: &[[u8; 4096]],
    ) -> Result<Run<'a>, Fault> {
        let volume = Volume::with(alloc, kind, sectors)?;
        Ok(Run::over(alloc, case, volume))
    }

    /// Begins again: the rows go on over a volume with these sectors, in which no file is open.
    pub fn restart(&mut self, sectors: &[[u8; 4096]]) -> Result<(), Fault> {
        self.volume.close();
        self.volume.put_all(sectors)?;
        self.volume.renew_after(FEW_WRITES)?;
        self.saved.clear();
        self.writes = self.volume.writes();
        self.row_count = 0;
        self.is_disturbed = false;
        self.open()
    }

    fn over(alloc: Global, case: &'a Case, volume: Volume) -> Run<'a> {
        Run {
            alloc,
            case,
            volume,
            saved: Vec::new(alloc),
            writes: 0,
            row_count: 0,
            is_disturbed: false,
        }
    }

    /// The sectors that `keep` saved.
    pub fn saved_sectors(&self) -> &[[u8; 4096]] {
        &self.saved
    }

    fn selects(&self) -> Result<Vec<Select>, Fault> {
        let mut selects = Vec::new(self.alloc);
        for row in self.case.selects.iter() {
            selects.push(read_select(self.alloc, row)?)?;
        }
        Ok(selects)
    }

    fn open(&mut self) -> Result<(), Fault> {
        let selects = self.selects()?;
        self.volume.open(selects)
    }

    /// The statement of a row.
    pub fn statement(&self, row: &[u8]) -> Result<Statement, Fault> {
        let mut words = Words::of(row);
        let Some(call) = read_file_call(&mut words, &self.case.selects) else {
            return Err(Fault::Spelling("this is no file statement"));
        };
        match self.case.selects.get(call.select) {
            Some(select) => {
                let select = read_select(self.alloc, select)?;
                read_rest(self.alloc, &mut words, call, &select.file)
            }
            None => Err(Fault::Spelling("there is no such SELECT")),
        }
    }

    /// Does a statement.
    pub fn perform(&mut self, statement: &Statement) -> Result<Effect, Fault> {
        self.perform_on(statement.call, &statement.record, statement.number)
    }

    /// Does a file statement on this record and this number.
    pub fn perform_on(
        &mut self,
        call: FileCall,
        record: &[u8],
        number: u64,
    ) -> Result<Effect, Fault> {
        let mut number = number;
        let mut record = Vec::from_slice(self.alloc, record)?;
        match self.volume.perform(call, &mut record, &mut number) {
            Ok(answer) => Ok(Effect {
                answer,
                record,
                number,
            }),
            Err(fault) => Err(fault),
        }
    }

    /// Ends a long record of calls.
    fn renew(&mut self) -> Result<(), Fault> {
        if self.is_disturbed {
            return Ok(());
        }
        self.volume.renew_after(MOST_WRITES)
    }

    /// Ends a record of calls, if none of them is to fail.
    fn forget_calls(&mut self) {
        if !self.is_disturbed {
            self.volume.forget_calls();
        }
    }

    /// Does a statement, whose writes are counted.
    fn perform_counted(&mut self, statement: &Statement) -> Result<Effect, Fault> {
        self.renew()?;
        self.writes = self.volume.writes();
        self.perform(statement)
    }

    fn do_statement(&mut self, row: &[u8]) -> Result<(), Fault> {
        let statement = self.statement(row)?;
        self.check_statement(&statement)
    }

    fn check_statement(&mut self, statement: &Statement) -> Result<(), Fault> {
        let effect = self.perform_counted(statement)?;
        effect.compare(self.alloc, &statement.expected)
    }

    /// Does a row.
    pub fn row(&mut self, row: &[u8]) -> Result<(), Fault> {
        if is_statement(row) {
            return self.do_statement(row);
        }
        let mut words = Words::of(first_line(row));
        let Some(call) = read_call(&mut words) else {
            return Err(Fault::Spelling("this is no row"));
        };
        match call {
            Call::Files => self.files(words, row),
            Call::Reopen => self.reopen(words),
            Call::Migrate => self.migrate(words),
            Call::Crash => self.crash(words),
            Call::Format => self.volume.format(),
            Call::Stop => self.disturb(words, true),
            Call::Fail => self.disturb(words, false),
            Call::Written => self.written(words),
            Call::Free => self.free(words),
            Call::Put => self.put(words),
            Call::Keep => self.keep(),
            Call::Back => self.back(),
            Call::Turn => self.turn(words),
            Call::Fill => self.fill(words),
            Call::Accepts => self.accepts(words),
            Call::Filled => self.check_row_count(),
        }
    }

    /// `files sum HEX`, `files refused N`, or `files` with the lines of the listing.
    fn files(&mut self, mut words: Words<'_>, row: &[u8]) -> Result<(), Fault> {
        let refused = refusal(&mut words);
        let found = self.recovered();
        match as_expected(found, refused, "there are files")? {
            Some(text) => self.check_files(words, &text, row),
            None => Ok(()),
        }
    }

    /// What recovery finds. It writes nothing.
    fn recovered(&mut self) -> Result<Vec<u8>, Fault> {
        self.forget_calls();
        let writes = self.volume.writes();
        let found = self.volume.files();
        if self.volume.writes() != writes {
            drop(found);
            return Err(Fault::Spelling("recovery writes"));
        }
        found
    }

    fn check_files(&self, mut words: Words<'_>, text: &[u8], row: &[u8]) -> Result<(), Fault> {
        if words.takes(b"sum") {
            return self.check_sum(words, text);
        }
        self.check_listing(text, row)
    }

    fn check_sum(&self, mut words: Words<'_>, text: &[u8]) -> Result<(), Fault> {
        let sum = sum_of(text);
        let digits = format!(in self.alloc; "{sum:016x}")?;
        if words.word() == Some(digits.as_bytes()) {
            return Ok(());
        }
        Err(Fault::found(format!(in self.alloc; "sum {digits}")))
    }

    /// The number that was found, between words.
    fn found(&self, front: &str, number: u64, end: &str) -> Fault {
        Fault::found(format!(in self.alloc; "{front}{number}{end}"))
    }

    fn check_listing(&self, text: &[u8], row: &[u8]) -> Result<(), Fault> {
        let listing = listing_row(self.alloc, text)?;
        if listing.as_slice() == row {
            return Ok(());
        }
        Err(Fault::found(String::from_utf8_lossy(self.alloc, &listing)))
    }

    /// `reopen`, or `reopen refused N`.
    fn reopen(&mut self, mut words: Words<'_>) -> Result<(), Fault> {
        let refused = refusal(&mut words);
        self.forget_calls();
        self.is_disturbed = false;
        as_expected(self.open(), refused, "it is opened")?;
        Ok(())
    }

    /// `migrate`, after which the volume is open again, or `migrate refused N`, after which it is closed.
    fn migrate(&mut self, mut words: Words<'_>) -> Result<(), Fault> {
        let refused = refusal(&mut words);
        self.renew()?;
        self.writes = self.volume.writes();
        match as_expected(self.volume.migrate(), refused, "it is migrated")? {
            Some(()) => self.open(),
            None => Ok(()),
        }
    }

    /// `crash CHOICE ..`.
    fn crash(&mut self, mut words: Words<'_>) -> Result<(), Fault> {
        let mut choices = Vec::new(self.alloc);
        for _ in 0..64 {
            if words.is_done() {
                break;
            }
            choices.push(sector_number(&mut words)?)?;
        }
        self.is_disturbed = false;
        self.volume.crash(&choices);
        Ok(())
    }

    /// `stop N` and `fail N`.
    fn disturb(&mut self, mut words: Words<'_>, is_stop: bool) -> Result<(), Fault> {
        self.is_disturbed = true;
        let Some(n) = words.number() else {
            return Err(Fault::Spelling(NO_NUMBER));
        };
        self.volume.disturb(n, is_stop);
        Ok(())
    }

    /// `written N`: so many sectors by the last statement.
    fn written(&mut self, mut words: Words<'_>) -> Result<(), Fault> {
        let Some(expected) = words.number() else {
            return Err(Fault::Spelling(NO_NUMBER));
        };
        self.check_written(expected)
    }

    fn check_written(&self, expected: u64) -> Result<(), Fault> {
        let written = self.volume.writes().saturating_sub(self.writes);
        if written == expected {
            return Ok(());
        }
        Err(self.found("written ", written, ""))
    }

    /// `free N`, or `free below N`.
    fn free(&mut self, mut words: Words<'_>) -> Result<(), Fault> {
        let free = self.volume.free()?;
        let is_below = words.takes(b"below");
        let Some(bound) = words.number() else {
            return Err(Fault::Spelling(NO_NUMBER));
        };
        if free == bound || is_below && free < bound {
            return Ok(());
        }
        Err(self.found("free ", free, ""))
    }

    /// `fill LEAST MOST` and a statement: it is done from LEAST to MOST times, until it is refused as 81, which writes nothing.
    fn fill(&mut self, mut words: Words<'_>) -> Result<(), Fault> {
        let (Some(least), Some(most)) = (words.number(), words.number()) else {
            return Err(Fault::Spelling(NO_NUMBER));
        };
        let statement = self.statement(words.rest())?;
        self.fill_by(&statement, least, most)
    }

    fn fill_by(&mut self, statement: &Statement, least: u64, most: u64) -> Result<(), Fault> {
        for turn in 0..=most {
            if self.is_filled(statement, turn >= least)? {
                self.row_count = turn;
                return self.check_written(0);
            }
        }
        Err(Fault::Spelling("the volume isn't full"))
    }

    /// Does a statement once more. The answer is whether the volume is full, which may be so only after enough turns.
    fn is_filled(&mut self, statement: &Statement, may_be_full: bool) -> Result<bool, Fault> {
        let effect = self.perform_counted(statement)?;
        if may_be_full && effect.answer == FULL {
            return Ok(true);
        }
        let compared = effect.compare(self.alloc, &statement.expected);
        drop(effect);
        compared?;
        Ok(false)
    }

    /// `filled`: the volume has as many rows as statements were done by `fill`.
    fn check_row_count(&mut self) -> Result<(), Fault> {
        let files = self.volume.files()?;
        let rows = rows_in(&files);
        drop(files);
        if rows == self.row_count {
            return Ok(());
        }
        Err(self.found("", rows, " rows"))
    }

    /// `put SECTOR PLACE TEXT`.
    fn put(&mut self, mut words: Words<'_>) -> Result<(), Fault> {
        let sector = sector_number(&mut words)?;
        let Some(place) = words.number() else {
            return Err(Fault::Spelling(NO_NUMBER));
        };
        let text = unquote(self.alloc, words.word().unwrap_or(b""))?;
        self.volume.put_text(sector, place as usize, &text)
    }

    /// `accepts PLACE VERB LENGTH so`, or `.. otherwise`: whether the SELECT at this place has such records, and the verb suits it.
    fn accepts(&mut self, mut words: Words<'_>) -> Result<(), Fault> {
        let Some(select) = words.number() else {
            return Err(Fault::Spelling(NO_NUMBER));
        };
        let Some(verb) = words.word().and_then(verb_of) else {
            return Err(Fault::Spelling("this is no verb"));
        };
        let Some(length) = words.number() else {
            return Err(Fault::Spelling(NO_NUMBER));
        };
        let is_expected = words.takes(b"so");
        let accepts = self.volume.accepts(select as usize, verb, length as usize);
        if accepts == is_expected {
            return Ok(());
        }
        Err(Fault::Spelling("the verb is accepted otherwise"))
    }

    /// `keep`: saves the sectors.
    fn keep(&mut self) -> Result<(), Fault> {
        self.saved.clear();
        self.volume.copy_sectors(&mut self.saved)
    }

    /// `back`: puts the saved sectors back.
    fn back(&mut self) -> Result<(), Fault> {
        self.volume.put_all(&self.saved)?;
        self.volume.forget_calls();
        Ok(())
    }

    /// `turn SECTOR FROM TO same`, `.. other` or `.. refused N`: each of these bytes, turned in three ways.
    fn turn(&mut self, mut words: Words<'_>) -> Result<(), Fault> {
        let sector = sector_number(&mut words)?;
        let (Some(from), Some(to)) = (words.number(), words.number()) else {
            return Err(Fault::Spelling(NO_NUMBER));
        };
        let bytes = self.volume.sector(sector)?;
        let before = self.volume.files()?;
        for place in from..to.min(4096) {
            self.turn_byte(sector, &bytes, place, words, &before)?;
            self.renew()?;
        }
        drop(before);
        self.volume.put(sector, &bytes)?;
        self.volume.forget_calls();
        self.open()
    }

    /// A byte of a sector, turned in three ways.
    fn turn_byte(
        &mut self,
        sector: u32,
        bytes: &[u8; 4096],
        place: u64,
        words: Words<'_>,
        before: &[u8],
    ) -> Result<(), Fault> {
        for mask in [1u8, 0x80, 0xFF] {
            self.volume.put(sector, &turned(bytes, place, mask))?;
            self.check_turn(words, before)?;
        }
        Ok(())
    }

    /// Checks what is found after a byte was turned.
    fn check_turn(&mut self, words: Words<'_>, before: &[u8]) -> Result<(), Fault> {
        let opened = or_refusal(self.open())?.err();
        let found = self.are_files(before)?;
        if is_taken_so(words, opened, found) {
            return Ok(());
        }
        Err(Fault::Spelling("a turned byte is taken otherwise"))
    }

    /// Whether recovery finds these files; nothing, if it refuses.
    fn are_files(&mut self, files: &[u8]) -> Result<Option<bool>, Fault> {
        match or_refusal(self.volume.files())? {
            Ok(found) => Ok(Some(found.as_slice() == files)),
            Err(_) => Ok(None),
        }
    }
}
