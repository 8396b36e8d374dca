//! What comes between the calls of a run, and what a crash after it leaves.
use station::MemoryStation;

/// As many sectors as wait for a sync at most, and more.
const SECTORS: usize = 8;

#[derive(Clone, Copy)]
pub enum Disturbance {
    /// The call fails, and all later ones.
    Stop,
    /// The call fails.
    Failure,
    /// The call fails. Then the volume is opened again, which is stopped before its first sync.
    FailureAndStop,
}

impl Disturbance {
    pub fn name(self) -> &'static str {
        match self {
            Disturbance::Stop => "stop",
            Disturbance::Failure => "failure",
            Disturbance::FailureAndStop => "failure and stop",
        }
    }
}

/// A call that is disturbed, counted from 1, and what a crash leaves of the sectors that wait for a sync: the last value of the i-th if bit i
/// is set.
#[derive(Clone, Copy)]
pub struct Crash {
    pub how: Disturbance,
    pub call: u64,
    pub image: u32,
}

impl Crash {
    /// Disturbs the call from now on.
    pub fn disturb(&self, station: &mut MemoryStation) {
        match self.how {
            Disturbance::Stop => station.stop_at(self.call),
            Disturbance::Failure | Disturbance::FailureAndStop => station.fail_at(self.call),
        }
    }

    /// The choices of `MemoryStation::crash`.
    pub fn choices(&self) -> [u32; SECTORS] {
        let mut choices = [0; SECTORS];
        let mut bits = self.image;
        for choice in choices.iter_mut() {
            *choice = bits % 2;
            bits /= 2;
        }
        choices
    }
}
