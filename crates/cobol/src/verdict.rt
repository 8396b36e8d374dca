//! What a command answers: a line on standard error, and an exit status.

ghost use Rattle.std.specs.Prelude.{◌≡◌, ◌≢◌, OnOk, OnErr};
ghost use Rattle.std.specs.IoError.{error_kind};
ghost use Rattle.volume_commands.specs.Faults.{number_of};
ghost use Rattle.cobol.specs.Status.{status_of, verdict_after, verdict_refusing};

use compiler::CompileError;
use run_unit::{Ended, Refusal};
use station::DeviceError;
use std::io::ErrorKind;
use std::{fmt, io};
use volume_commands::VolumeError;
use volume_copies::CopyError;

/// The number of a host file that can't be opened, read or written.
const HOST_FILE: u8 = 85;

/// How a command ended.
#[derive(Clone, Copy, Debug, PartialEq, Eq)]
pub enum Verdict {
    /// It has done what it was asked.
    Done,
    /// The source is refused at this place. Lines and columns count from 1.
    SourceFault { line: u32, column: u8, number: u8 },
    /// The source, or a line of a text, is refused for a reason that is already printed.
    Reported,
    /// The words are no command, for a reason that is already printed.
    WrongCommand,
    /// A word of the command isn't text.
    NotText,
    /// The device, memory, an image or a host file refused something, by this number.
    Refused(u8),
    /// The budget was used up.
    Budget,
    /// The statement that began in this line did something wrong, of this number.
    ProgramFault { number: u8, line: u32 },
}

impl Verdict {
    /// How a run ended. Output is flushed after it; where that failed, it isn't known what was shown.
    pub fn after(ended: Ended, flushed: Result<(), DeviceError>) -> Verdict
        ensures told { OnOk flushed (result ≡ verdict_after ended) }
        ensures lost { OnErr flushed (result ≡ verdict_after (Ended.Refused Refusal.Device)) }
    {
        if flushed.is_err() {
            return Verdict::device();
        }
        match ended {
            Ended::Stopped => Verdict::Done,
            Ended::Budget => Verdict::Budget,
            Ended::Faulted { fault, line } => Verdict::ProgramFault {
                number: fault.number(),
                line,
            },
            Ended::Refused(refusal) => Verdict::Refused(refusal.number()),
        }
    }

    /// Why a source text wasn't run.
    pub fn refusing(fault: CompileError) -> Verdict
        ensures { result ≡ verdict_refusing fault }
    {
        match fault {
            CompileError::Memory => Verdict::memory(),
            CompileError::Refused(fault) => {
                let place = fault.place();
                Verdict::SourceFault {
                    line: place.line,
                    column: place.column,
                    number: fault.number(),
                }
            }
        }
    }

    /// A host file can't be opened, read or written.
    pub fn host_file() -> Verdict
        ensures { result ≡ Verdict.Refused 85 }
    {
        Verdict::Refused(HOST_FILE)
    }

    /// Why a host file wasn't opened, read or written.
    pub fn refusing_host_file(error: io::Error) -> Verdict
        ensures memory { error_kind error ≡ ErrorKind.OutOfMemory → result ≡ Verdict.Refused 83 }
        ensures other { error_kind error ≢ ErrorKind.OutOfMemory → result ≡ Verdict.Refused 85 }
    {
        match error.kind() {
            ErrorKind::OutOfMemory => Verdict::memory(),
            _ => Verdict::host_file(),
        }
    }

    /// Why a host file that is open wasn't filled.
    pub fn refusing_device(error: io::Error) -> Verdict
        ensures memory { error_kind error ≡ ErrorKind.OutOfMemory → result ≡ Verdict.Refused 83 }
        ensures other { error_kind error ≢ ErrorKind.OutOfMemory → result ≡ Verdict.Refused 80 }
    {
        match error.kind() {
            ErrorKind::OutOfMemory => Verdict::memory(),
            _ => Verdict::device(),
        }
    }

    /// Why a volume wasn't listed or dumped.
    pub fn refusing_volume(error: VolumeError) -> Verdict
        ensures { result ≡ Verdict.Refused (number_of error) }
    {
        Verdict::Refused(error.number())
    }

    /// Why a volume wasn't copied.
    pub fn refusing_copy(error: CopyError) -> Verdict {
        Verdict::Refused(error.number())
    }

    /// Output failed.
    pub fn device() -> Verdict
        ensures { result ≡ verdict_after (Ended.Refused Refusal.Device) }
    {
        Verdict::Refused(Refusal::Device.number())
    }

    /// Memory ran out.
    pub fn memory() -> Verdict
        ensures { result ≡ verdict_after (Ended.Refused Refusal.Memory) }
    {
        Verdict::Refused(Refusal::Memory.number())
    }

    /// The exit status.
    pub fn status(self) -> u8
        ensures { result ≡ status_of self }
    {
        match self {
            Verdict::Done => 0,
            Verdict::SourceFault { .. } | Verdict::Reported => 1,
            Verdict::WrongCommand | Verdict::NotText => 2,
            Verdict::Refused(_) => 4,
            Verdict::Budget => 5,
            Verdict::ProgramFault { .. } => 3,
        }
    }
}

impl fmt::Display for Verdict {
    fn fmt<W: fmt::Write>(&self, f: &mut fmt::Formatter<W>) -> fmt::Result {
        match self {
            Verdict::Done | Verdict::Reported | Verdict::WrongCommand => Ok(()),
            Verdict::NotText => write!(f, "error: an argument isn't text"),
            Verdict::SourceFault {
                line,
                column,
                number,
            } => write!(f, "{line}:{column}: fault {number}"),
            Verdict::Refused(number) => write!(f, "refused {number}"),
            Verdict::Budget => write!(f, "budget"),
            Verdict::ProgramFault { number, line } => write!(f, "fault {number} at line {line}"),
        }
    }
}
