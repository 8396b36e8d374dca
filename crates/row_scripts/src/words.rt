//! The words of a row.

/// The words that are left of a row. A word ends at a space that isn't between quotation marks.
#[derive(Clone, Copy, Drop)]
pub struct Words<'a> {
    rest: &'a [u8],
}

/// How many spaces are in front.
fn spaces_in(bytes: &[u8]) -> usize {
    for (i, byte) in bytes.iter().enumerate() {
        if *byte != b' ' {
            return i;
        }
    }
    bytes.len()
}

/// Where a byte is that isn't between quotation marks, or the end.
fn place_of(bytes: &[u8], sought: u8) -> usize {
    let mut is_quoted = false;
    for (i, byte) in bytes.iter().enumerate() {
        if *byte == b'"' {
            is_quoted = !is_quoted;
        }
        if *byte == sought && !is_quoted {
            return i;
        }
    }
    bytes.len()
}

fn front(bytes: &[u8], count: usize) -> &[u8] {
    bytes.get(..count).unwrap_or(bytes)
}

fn after(bytes: &[u8], count: usize) -> &[u8] {
    bytes.get(count..).unwrap_or(b"")
}

impl<'a> Words<'a> {
    /// All words of a row.
    pub fn of(row: &'a [u8]) -> Words<'a> {
        Words { rest: row }
    }

    /// The next word; nothing at the end.
    pub fn word(&mut self) -> Option<&'a [u8]> {
        let rest = after(self.rest, spaces_in(self.rest));
        let end = place_of(rest, b' ');
        self.rest = after(rest, end);
        let word = front(rest, end);
        if word.is_empty() { None } else { Some(word) }
    }

    /// The bytes up to this one, which is skipped; all, if it isn't there.
    pub(crate) fn up_to(&mut self, byte: u8) -> &'a [u8] {
        let rest = self.rest;
        let end = place_of(rest, byte);
        self.rest = after(rest, end.saturating_add(1));
        front(rest, end)
    }

    /// The next word, without taking it.
    pub fn ahead(&self) -> Option<&'a [u8]> {
        let mut words = *self;
        words.word()
    }

    /// Takes the next word if it is this one.
    pub fn takes(&mut self, word: &[u8]) -> bool {
        let is_there = self.ahead() == Some(word);
        if is_there {
            self.word();
        }
        is_there
    }

    /// The next word as a number.
    pub fn number(&mut self) -> Option<u64> {
        let word = self.word()?;
        number_of(word)
    }

    /// The next word as a number of 32 bits.
    pub fn small_number(&mut self) -> Option<u32> {
        match self.number() {
            Some(number) => u32::try_from(number).ok(),
            None => None,
        }
    }

    /// What is left of the row.
    pub fn rest(&self) -> &'a [u8] {
        self.rest
    }

    /// Whether no word is left.
    pub fn is_done(&self) -> bool {
        self.ahead().is_none()
    }
}

/// What a table has for a word.
pub fn look_up<T: Copy>(table: &[(&[u8], T)], word: &[u8]) -> Option<T> {
    for (name, found) in table {
        if *name == word {
            return Some(*found);
        }
    }
    None
}

/// The number that digits spell.
pub fn number_of(word: &[u8]) -> Option<u64> {
    let mut number = 0u64;
    for byte in word.iter() {
        if !byte.is_ascii_digit() {
            return None;
        }
        number = number
            .wrapping_mul(10)
            .wrapping_add(u64::from(byte.wrapping_sub(b'0')));
    }
    if word.is_empty() { None } else { Some(number) }
}
