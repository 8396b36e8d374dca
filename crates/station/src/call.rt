//! A call that changed a station in memory.
ghost use Rattle.std.specs.Prelude.{◌≡◌};
ghost use Rattle.station.specs.Replay.{is_of_console};

use crate::Note;

/// A call, as it is kept in the record.
#[derive(Drop)]
pub enum Call {
    Show(Vec<u8>),
    Hear(Note),
    Take,
    Write(u32, Box<[u8; 4096]>),
    /// A write that failed. The sector keeps its value, and a crash may yet leave the new one.
    Keep(u32, Box<[u8; 4096]>),
    Sync,
}

impl Call {
    /// It changed no sector.
    pub fn is_of_console(&self) -> bool
        ensures { result ≡ is_of_console self.now }
    {
        matches!(self, Call::Show(_) | Call::Hear(_) | Call::Take)
    }
}
