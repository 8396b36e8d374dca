//! Which of the coming calls on a station in memory fail.

ghost use Rattle.std.specs.Prelude.{◌≡◌};

/// A failure that was asked for. Calls are counted from 1.
#[derive(Clone, Copy, PartialEq, Eq)]
pub enum Plan {
    Works,
    /// The n-th call fails.
    FailsAt(u64),
    /// The n-th call fails, and so do all later ones.
    StopsAt(u64),
    Stopped,
}

/// What becomes of one call.
#[derive(Clone, Copy, PartialEq, Eq)]
pub enum Fate {
    Works,
    Fails,
    /// It fails, and does nothing.
    Stopped,
}

impl Fate {
    ghost use Rattle.station.specs.Plan.{count_after_call};

    /// Counts a call with this fate: none after a stop is.
    pub fn count(self, counter: &mut u64)
        ensures { counter.new ≡ count_after_call self counter.old }
    {
        if self != Fate::Stopped {
            *counter = counter.saturating_add(1);
        }
    }
}

impl Plan {
    ghost use Rattle.station.specs.Plan.{fate_of, plan_after};

    /// The fate of the next call.
    pub fn step(&mut self) -> Fate
        ensures fate { result ≡ fate_of self.old }
        ensures plan { self.new ≡ plan_after self.old }
    {
        match *self {
            Plan::Works => Fate::Works,
            Plan::FailsAt(n) => {
                if n > 1 {
                    *self = Plan::FailsAt(n - 1);
                    return Fate::Works;
                }
                *self = Plan::Works;
                Fate::Fails
            }
            Plan::StopsAt(n) => {
                if n > 1 {
                    *self = Plan::StopsAt(n - 1);
                    return Fate::Works;
                }
                *self = Plan::Stopped;
                Fate::Fails
            }
            Plan::Stopped => Fate::Stopped,
        }
    }
}
