//! What a program does wrong.

ghost use Rattle.std.specs.Prelude.{◌≡◌};
ghost use Rattle.data_instructions.specs.Faults as spec;

use items::DataFault;

/// A fault that ends the run (own choice: COBOL-85 leaves open what happens then).
#[derive(Clone, Copy, Debug, PartialEq, Eq)]
pub enum ProgramFault {
    /// Bytes that are no number where a number is wanted.
    Data,
    /// A subscript out of its range.
    Subscript,
    /// A part that isn't within its item.
    Part,
    /// A file status from 10 on that nothing in the program takes.
    FileStatus,
}

const DATA: u8 = 90;

const SUBSCRIPT: u8 = 91;

const FILE_STATUS: u8 = 92;

const PART: u8 = 93;

impl ProgramFault {
    /// The number that the product answers.
    pub fn number(self) -> u8
        ensures { result ≡ spec.fault_number (spec.fault_of self) }
    {
        match self {
            ProgramFault::Data => DATA,
            ProgramFault::Subscript => SUBSCRIPT,
            ProgramFault::Part => PART,
            ProgramFault::FileStatus => FILE_STATUS,
        }
    }
}

impl From<DataFault> for ProgramFault {
    ghost use Rattle.data_instructions.specs.declared.fault.ProgramFault.TheVariants as faults;

    ghost from_gives = { λ _ fault. fault ≡ faults.Data };

    fn from(_: DataFault) -> ProgramFault {
        ProgramFault::Data
    }
}
