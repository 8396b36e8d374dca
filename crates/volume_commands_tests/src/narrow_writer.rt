//! A writer that takes a few bytes at a time, and fails once it is full, or when it is flushed.
use std::alloc::Global;
use std::io;
use std::io::{Error, ErrorKind, Write};

/// How many bytes it takes in one call.
const STEP: usize = 7;

#[derive(Drop)]
pub struct NarrowWriter {
    pub taken: Vec<u8>,
    room: usize,
    fails_at_flush: bool,
}

impl NarrowWriter {
    /// A writer that takes so many bytes.
    pub fn new(alloc: Global, room: usize) -> NarrowWriter {
        NarrowWriter {
            taken: Vec::new(alloc),
            room,
            fails_at_flush: false,
        }
    }

    /// A writer that takes all bytes, and fails when it is flushed.
    pub fn that_fails_at_flush(alloc: Global) -> NarrowWriter {
        NarrowWriter {
            taken: Vec::new(alloc),
            room: usize::MAX,
            fails_at_flush: true,
        }
    }
}

impl Write for NarrowWriter {
    fn write(&mut self, bytes: &[u8]) -> io::Result<usize> {
        let count = bytes.len().min(STEP).min(self.room);
        if count == 0 {
            return Err(Error::from(ErrorKind::Other));
        }
        self.taken.extend_from_slice(&bytes[..count])?;
        self.room -= count;
        Ok(count)
    }

    fn flush(&mut self) -> io::Result<()> {
        if self.fails_at_flush {
            return Err(Error::from(ErrorKind::Other));
        }
        Ok(())
    }
}
