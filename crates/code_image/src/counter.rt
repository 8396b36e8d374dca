//! Counters: how many turns of a loop are still to come.

/// A counter. There is one for each address.
#[derive(Clone, Copy)]
pub struct CounterIndex {
    /// The address that it belongs to. A loop counts in the one of the instruction that sets it.
    pub number: usize,
}
