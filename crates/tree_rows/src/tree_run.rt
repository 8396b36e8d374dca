//! The rows of a case over a tree: `CALL OPERANDS -> ANSWER`. Beside the tree is the list of the numbers that it has to hold.
use crate::answer::{Answer, DONE, NOTHING, number_answer, whether, word_of};
use crate::calls::{Call, CountCall, EntryCall, PairCall, TreeCall, VolumeCall, call_of};
use crate::chain_calls::chain_call;
use crate::drawings::{Drawing, draw, entries_in, leaves_in, plant};
use crate::numbers::{copy, count_by_tens, first_from, has, number_at, put, take};
use crate::operands::Operands;
use crate::volume::{Found, Put, Search, Volume};
use btree_pages::RowLayout;
use row_scripts::Fault;
use std::alloc::Global;
use std::mem;

/// A tree, and the list of the numbers that it has to hold.
#[derive(Drop)]
pub struct TreeRun {
    alloc: Global,
    cached: usize,
    volume: Volume,
    /// The numbers that the tree has to hold, ascending, and those at the last commit.
    there: Vec<u32>,
    committed: Vec<u32>,
    /// The numbers of the other tree on the same volume.
    other_there: Vec<u32>,
    /// How often sectors were read and written before `count`.
    calls: (u64, u64),
    /// How many leaves were thin.
    thin: usize,
    drawing: Drawing,
}

impl TreeRun {
    /// A new volume, with a tree without entries.
    pub fn new(alloc: Global, layout: RowLayout, cached: usize) -> Result<TreeRun, Fault> {
        if !layout.is_possible() {
            return Err(Fault::Spelling("no tree has these lengths"));
        }
        match Volume::new(alloc, layout, cached) {
            Ok(volume) => Ok(TreeRun {
                alloc,
                cached,
                volume,
                there: Vec::new(alloc),
                committed: Vec::new(alloc),
                other_there: Vec::new(alloc),
                calls: (0, 0),
                thin: usize::MAX,
                drawing: Drawing::new(),
            }),
            Err(fault) => Err(fault),
        }
    }

    /// The drawing that was made last.
    pub fn drawing(&self) -> &[u8] {
        self.drawing.bytes()
    }

    /// Makes the call of a row. The row gives what this returns.
    pub fn answer(&mut self, operands: &mut Operands<'_>) -> Answer {
        let answer = self.call(operands);
        operands.or_wrong(self.volume.or_refusal(answer))
    }

    fn call(&mut self, operands: &mut Operands<'_>) -> Answer {
        let Some(call) = call_of(operands.word()) else {
            return Answer::NoRow("this is no row");
        };
        match call {
            Call::Entry(call) => self.entry_call(call, operands),
            Call::Pair(call) => self.pair_call(call, operands),
            Call::Tree(call) => self.tree_call(call, operands),
            Call::Chain(call) => chain_call(self.alloc, &mut self.volume, call, operands),
            Call::Volume(call) => {
                self.volume_call(call, operands);
                NOTHING
            }
            Call::Count(call) => number_answer(self.count(call)),
        }
    }

    /// A call on the entry of a number.
    fn entry_call(&mut self, call: EntryCall, operands: &mut Operands<'_>) -> Answer {
        let number = operands.number();
        match call {
            EntryCall::Insert => word_of(self.insert(number), "new", "there"),
            EntryCall::Remove => word_of(self.remove(number), "gone", "missing"),
            EntryCall::Drop => {
                let is_there = has(&self.there, number);
                whether(self.remove(number) == is_there)
            }
            EntryCall::Find(search) => self.find(search, number, operands.expected_number()),
        }
    }

    /// A call with two numbers.
    fn pair_call(&mut self, call: PairCall, operands: &mut Operands<'_>) -> Answer {
        let one = operands.number();
        let other = operands.number();
        match call {
            PairCall::Value => {
                word_of(self.volume.put(Put::Value, one, other), "new", "missing")
            }
            PairCall::Valued => self.valued(one, other),
            PairCall::Reads => self.reads(one, other),
            PairCall::Leaves => self.leaves(one as usize, other as usize),
            PairCall::Thinner => self.thinner(one as usize, other as usize),
        }
    }

    /// A call on the whole tree.
    fn tree_call(&mut self, call: TreeCall, operands: &mut Operands<'_>) -> Answer {
        match call {
            TreeCall::First => self.first(),
            TreeCall::Walk => self.walk(),
            TreeCall::Right => self.right(),
            TreeCall::Check => self.check(operands),
            TreeCall::Pages => self.pages(),
            TreeCall::Clear => self.clear(),
            TreeCall::Commit => self.commit(),
            TreeCall::Try => self.try_commit(),
            TreeCall::Drawn => self.draw(),
        }
    }

    /// A change of the volume.
    fn volume_call(&mut self, call: VolumeCall, operands: &mut Operands<'_>) {
        match call {
            VolumeCall::Crash => self.volume.crash(operands.number()),
            VolumeCall::Disturb { is_stop } => self.volume.disturb(operands.number(), is_stop),
            VolumeCall::Allocate => self.allocate(operands.number()),
            VolumeCall::Root => {
                self.volume.set_root(operands.number());
                self.there.clear();
            }
            VolumeCall::Reopen => self.reopen(operands),
            VolumeCall::Plant => self.plant(operands.word()),
            VolumeCall::Page => self.put_text(operands),
            VolumeCall::Swap => self.swap(),
            VolumeCall::Count => self.calls = self.volume.calls(),
        }
    }

    /// What is counted.
    fn count(&self, call: CountCall) -> u64 {
        let (reads, writes) = self.volume.calls();
        match call {
            CountCall::Read => reads.saturating_sub(self.calls.0),
            CountCall::Written => writes.saturating_sub(self.calls.1),
            CountCall::Changed => self.volume.changed_pages() as u64,
            CountCall::Free => self.volume.free_sectors() as u64,
        }
    }

    /// Refuses the row if there was no memory for numbers.
    fn need_memory(&mut self, was_there: bool) {
        if !was_there {
            self.volume.refuse(Answer::NoMemory);
        }
    }

    /// Puts an entry in. The answer is whether it is new.
    fn insert(&mut self, number: u32) -> bool {
        let is_new = self.volume.put(Put::New, number, number);
        if is_new {
            let was_put = put(&mut self.there, number);
            self.need_memory(was_put);
        }
        is_new
    }

    /// Takes an entry out. The answer is whether it was there.
    fn remove(&mut self, number: u32) -> bool {
        let was_there = self.volume.remove(number);
        if was_there {
            take(&mut self.there, number);
        }
        was_there
    }

    /// The number of the entry that a search finds, if it is the expected one.
    fn find(&mut self, search: Search, number: u32, expected: u32) -> Answer {
        match self.volume.find(search, number, expected, expected) {
            Found::Entry {
                has_key: true,
                has_value: true,
            } => number_answer(expected as u64),
            Found::Entry { .. } => Answer::Word("another"),
            _ => Answer::Word("none"),
        }
    }

    fn first(&mut self) -> Answer {
        let expected = number_at(&self.there, 0);
        self.find(Search::First, 0, expected)
    }

    /// `valued N M`: whether the entry N has the value of M.
    fn valued(&mut self, one: u32, other: u32) -> Answer {
        match self.volume.find(Search::Get, one, one, other) {
            Found::Entry { has_value, .. } => whether(has_value),
            _ => whether(false),
        }
    }

    /// Whether a search from a number finds the entry of this number, or none.
    fn is_found(&mut self, search: Search, number: u32, expected: Option<u32>) -> bool {
        let keyed = expected.unwrap_or(0);
        let found = self.volume.find(search, number, keyed, keyed);
        match found {
            Found::Entry {
                has_key: true,
                has_value: true,
            } => expected.is_some(),
            Found::Nothing => expected.is_none(),
            _ => false,
        }
    }

    /// Whether `get` finds the entry of a number exactly if it has to be there.
    fn is_got(&mut self, number: u32) -> bool {
        let is_there = has(&self.there, number);
        self.is_found(Search::Get, number, is_there.then_some(number))
    }

    /// Asks for a number by each call that takes a key.
    fn is_read(&mut self, number: u32) -> bool {
        let own = first_from(&self.there, number);
        let next = first_from(&self.there, number.wrapping_add(1));
        self.is_got(number)
            && self.is_found(Search::Seek, number, own)
            && self.is_found(Search::Next, number, next)
    }

    /// `reads FROM TO`: asks for each number.
    fn reads(&mut self, from: u32, to: u32) -> Answer {
        for number in from..to {
            if !self.is_read(number) {
                return another_at(number);
            }
        }
        RIGHT
    }

    /// Goes from the first entry to after the last, each time by the key of the entry that was answered. The answer is the number of the
    /// entry that is another one. An entry after the last one has the last one's number.
    fn first_wrong(&mut self) -> Option<u32> {
        let mut search = Search::First;
        let mut last = 0;
        for place in 0..self.there.len() {
            let number = number_at(&self.there, place);
            if !self.is_found(search, last, Some(number)) {
                return Some(number);
            }
            search = Search::Next;
            last = number;
        }
        if self.is_found(search, last, None) {
            None
        } else {
            Some(last)
        }
    }

    fn walk(&mut self) -> Answer {
        match self.first_wrong() {
            Some(number) => another_at(number),
            None => Answer::Number("", self.there.len() as u64, " entries"),
        }
    }

    /// The number of the first entry, counted by tens, that is not got as it has to be.
    fn first_not_got(&mut self) -> Option<u32> {
        let most = self.there.last().copied().unwrap_or(0) / 10;
        for tenth in 0..=most {
            let number = tenth.wrapping_mul(10);
            if !self.is_got(number) {
                return Some(number);
            }
        }
        None
    }

    /// All entries in their order, each by its key, and the pages.
    fn right(&mut self) -> Answer {
        if let Some(number) = self.first_wrong() {
            return another_at(number);
        }
        if let Some(number) = self.first_not_got() {
            return another_at(number);
        }
        self.volume.check(&mut [false; 1024]);
        RIGHT
    }

    /// How many pages the tree has.
    fn pages(&mut self) -> Answer {
        let mut seen = [false; 1024];
        self.volume.check(&mut seen);
        number_answer(marks_in(&seen))
    }

    /// `check`, or `check marked PAGE`, or `check marks COUNT`: the pages of the tree, with one marked before, or with so many marks.
    fn check(&mut self, operands: &mut Operands<'_>) -> Answer {
        let mut seen = [false; 1024];
        if operands.words.takes(b"marked") {
            put_mark(&mut seen, operands.number() as usize);
        }
        let mut count = seen.len();
        if operands.words.takes(b"marks") {
            count = operands.number() as usize;
        }
        match seen.get_mut(..count) {
            Some(seen) => self.volume.check(seen),
            None => operands.refuse(Answer::NoRow("there are 1024 marks")),
        }
        Answer::Word("a tree")
    }

    /// How many leaves there are, and how many have fewer rows than so many.
    fn leaf_counts(&mut self, least: usize) -> (usize, usize) {
        self.draw();
        leaves_in(self.drawing(), least)
    }

    /// `leaves LEAST MOST`: how many leaves have fewer rows than LEAST. The others are MOST at most.
    fn leaves(&mut self, least: usize, most: usize) -> Answer {
        let (leaves, thin) = self.leaf_counts(least);
        self.thin = thin;
        if leaves > thin.saturating_add(most) {
            return whether(false);
        }
        number_answer(thin as u64)
    }

    /// `thinner LEAST MOST`: whether no more leaves are thin than before, and the others are MOST at most.
    fn thinner(&mut self, least: usize, most: usize) -> Answer {
        let (leaves, thin) = self.leaf_counts(least);
        let is_so = thin <= self.thin && leaves <= thin.saturating_add(most);
        self.thin = thin;
        whether(is_so)
    }

    fn draw(&mut self) -> Answer {
        draw(&mut self.volume, &mut self.drawing);
        Answer::Drawing
    }

    fn clear(&mut self) -> Answer {
        if self.volume.clear() {
            self.there.clear();
        }
        DONE
    }

    /// The numbers of the last commit are those that are there.
    fn keep(&mut self) {
        let was_kept = copy(&mut self.committed, &self.there);
        self.need_memory(was_kept);
    }

    fn commit(&mut self) -> Answer {
        if self.volume.commit() {
            self.keep();
        }
        DONE
    }

    /// `try`: a commit that may be stopped.
    fn try_commit(&mut self) -> Answer {
        self.commit();
        self.volume.forgive_device();
        whether(true)
    }

    /// `reopen`, with so many pages in memory if a number follows: the entries of the last commit are there. By `reopen new` they are those
    /// that were to be committed, by `reopen either` the ones or the others.
    fn reopen(&mut self, operands: &mut Operands<'_>) {
        let mut is_new = operands.words.takes(b"new");
        let is_either = operands.words.takes(b"either");
        self.volume.reopen(operands.number_or(self.cached));
        if is_either {
            is_new = self.first_wrong().is_none();
        }
        if is_new {
            self.keep();
        } else if !self.volume.is_refused() {
            self.go_back();
        }
    }

    /// The numbers that are there are those of the last commit.
    fn go_back(&mut self) {
        let was_there = copy(&mut self.there, &self.committed);
        self.need_memory(was_there);
    }

    /// The other tree takes the place of this one.
    fn swap(&mut self) {
        self.volume.swap();
        mem::swap(&mut self.there, &mut self.other_there);
    }

    /// `plant DRAWING`.
    fn plant(&mut self, drawing: &[u8]) {
        plant(&mut self.volume, drawing);
        let were_counted = count_by_tens(&mut self.there, entries_in(drawing));
        self.need_memory(were_counted);
    }

    /// `allocate COUNT`.
    fn allocate(&mut self, count: u32) {
        for _ in 0..count {
            if self.volume.allocate() == 0 {
                break;
            }
        }
    }

    /// `page NUMBER PLACE TEXT`: bytes of a page.
    fn put_text(&mut self, operands: &mut Operands<'_>) {
        let page = operands.number();
        let place = operands.number();
        let text = operands.text(self.alloc);
        self.volume.put_text(page, place as usize, &text);
    }
}

/// The entries are those that have to be there.
const RIGHT: Answer = Answer::Word("right");

/// The entry of a number is another one.
fn another_at(number: u32) -> Answer {
    Answer::Number("another at ", number as u64, "")
}

/// How many marks are set.
fn marks_in(seen: &[bool]) -> u64 {
    let mut count = 0u64;
    for mark in seen.iter() {
        count = count.saturating_add(*mark as u64);
    }
    count
}

/// Sets a mark, if it is there.
fn put_mark(seen: &mut [bool], place: usize) {
    if let Some(mark) = seen.get_mut(place) {
        *mark = true;
    }
}
