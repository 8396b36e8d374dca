//! When a volume began to be made.
ghost use Rattle.std.specs.Prelude.{[]};

use std::marker::Brand;

/// What a device was when a volume began to be made on it. A call that passes `Brand` picks it.
pub trait Beginning {
    ghost use Rattle.std.specs.Prelude.{ℕ, List};
    ghost use Rattle.station.specs.State.{State};

    /// Each state up to then.
    ghost history: { List State };

    /// How often it had failed.
    ghost failures: { ℕ };
}

impl Beginning for Brand {
    ghost history = { [] };

    ghost failures = { 0 };
}
