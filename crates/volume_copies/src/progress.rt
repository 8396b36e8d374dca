//! How far a command is.

/// Where a command says how far it is.
pub trait Progress {
    /// So much is done, of so much.
    fn report(&mut self, done: u64, all: u64);
}
