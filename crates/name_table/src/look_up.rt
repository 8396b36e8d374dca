//! What a name names.

ghost use Rattle.std.specs.Prelude.{◌≡◌};
ghost use Rattle.name_table.specs.Positions as spec;

/// What a name names: nothing, one thing, by its number in the order of declaration, or several things.
#[derive(Clone, Copy, PartialEq, Eq)]
pub enum LookUp {
    Unknown,
    One(usize),
    Several,
}

impl LookUp {
    /// With one more thing, declared before these.
    pub fn with(self, number: usize) -> LookUp
        ensures { result ≡ spec.with_one number self }
    {
        match self {
            LookUp::Unknown => LookUp::One(number),
            _ => LookUp::Several,
        }
    }
}
