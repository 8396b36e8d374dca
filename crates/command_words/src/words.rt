//! The words of a command.

ghost use Rattle.std.specs.Prelude.{◌≡◌, ◌⊎◌, None, IfOk, OnErr, codes};
ghost use Rattle.command_words.specs.Words.{IsWithinBounds, AsksToFormat, AsksToCopy, AsksToLoad, AsksToMigrate, AsksToStat, AsksToCompile, AsksToRun, AsksToList, AsksToDump, AsksToExplain, AsksToCheck, AsksToLayout, IsNumber, IsSectorCount, ReadsBudget, ReadsDate, option_of, word_of};

use crate::command_line::command_line;
use crate::numbers::{read_budget, read_day, read_number, read_sector_count};
use clap::error::ErrorKind;
use clap::{ArgMatches, Error};
use std::alloc::{AllocError, Global};

/// What the words ask for.
#[derive(Drop)]
pub enum Request<'a> {
    /// To make a volume of so many sectors.
    Format {
        volume: &'a str,
        sectors: u32,
    },
    /// To make a volume of so many sectors with the files of another one.
    Copy {
        old: &'a str,
        new: &'a str,
        sectors: u32,
    },
    /// To put lines into a file as rows.
    Load {
        volume: &'a str,
        name: &'a str,
    },
    /// To give a volume the newest mark.
    Migrate {
        volume: &'a str,
    },
    /// To print what a volume is.
    Stat {
        volume: &'a str,
    },
    /// To compile a source to an image.
    Compile {
        source: &'a str,
        image: &'a str,
    },
    /// To run an image over a volume.
    Run(RunRequest<'a>),
    /// To list the files of a volume.
    List {
        volume: &'a str,
    },
    /// To dump the rows of a file.
    Dump {
        volume: &'a str,
        name: &'a str,
    },
    /// To explain a number.
    Explain {
        number: u64,
    },
    /// To check a source.
    Check {
        source: &'a str,
    },
    /// To show where the items of a source are.
    Layout {
        source: &'a str,
    },
    /// To show this text: help, or the version.
    Show(String),
    /// Nothing: the words are no command, for this reason.
    Wrong(String),
}

/// What `run` is to do.
#[derive(Clone, Copy, Drop)]
pub struct RunRequest<'a> {
    pub image: &'a str,
    pub volume: &'a str,
    /// How many statements may begin.
    pub budget: u64,
    /// The date that the program receives, YYMMDD.
    pub day: [u8; 6],
    /// Whether it receives the host's day in place of that date.
    pub is_today: bool,
    /// Whether each file statement is printed.
    pub is_traced: bool,
}

/// The message for a word that is no size of a volume.
const SIZES: &str = "a volume has 1024 to 921600 sectors";

/// Why words are no request.
enum Fault {
    /// These words are no command, as `clap` says it.
    Words(Error),
    /// This isn't what a word has to be.
    Value(&'static str),
    Memory,
}

/// Reads the words of a command; the first is the program's name.
pub fn read_words<'a>(alloc: Global, words: &'a [String]) -> Result<Request<'a>, AllocError>
    ensures { IfOk result IsWithinBounds }
{
    match read_request(alloc, words) {
        Ok(request) => Ok(request),
        Err(Fault::Words(error)) => explain(alloc, &error),
        Err(Fault::Value(text)) => Ok(Request::Wrong(format!(in alloc; "error: {text}\n")?)),
        Err(Fault::Memory) => Err(AllocError),
    }
}

fn read_request<'a>(alloc: Global, words: &'a [String]) -> Result<Request<'a>, Fault>
    ensures { IfOk result IsWithinBounds }
{
    let matches = command_line(alloc)?.try_get_matches_from(words)?;
    read_command(alloc, &matches)
}

/// Reads the command that was found, and its words.
fn read_command<'a>(alloc: Global, matches: &ArgMatches<'a>) -> Result<Request<'a>, Fault>
    ensures { IfOk result IsWithinBounds }
{
    let Some((command, matches)) = matches.subcommand() else {
        return Ok(Request::Wrong(String::new(alloc)));
    };
    match command {
        "format" => read_format(matches),
        "copy" => read_copy(matches),
        "load" => Ok(read_load(matches)),
        "migrate" => Ok(read_migrate(matches)),
        "stat" => Ok(read_stat(matches)),
        "unload" => Ok(read_dump(matches)),
        "compile" => Ok(read_compile(matches)),
        "run" => read_run(matches),
        "list" => Ok(read_list(matches)),
        "explain" => read_explain(matches),
        "check" => Ok(read_check(matches)),
        "layout" => Ok(read_layout(matches)),
        _ => Ok(read_dump(matches)),
    }
}

/// The words of `format VOLUME SECTORS`.
fn read_format<'a>(matches: &ArgMatches<'a>) -> Result<Request<'a>, Fault>
    ensures asks { IfOk result (AsksToFormat matches.now) }
    ensures bounds { IfOk result IsWithinBounds }
    ensures refused { OnErr result (IsSectorCount (word_of matches.now (codes "SECTORS")) → ⊥) }
{
    match read_sector_count(word(matches, "SECTORS")) {
        Some(sectors) => Ok(Request::Format {
            volume: word(matches, "VOLUME"),
            sectors,
        }),
        None => Err(Fault::Value(SIZES)),
    }
}

/// The words of `copy OLD NEW SECTORS`.
fn read_copy<'a>(matches: &ArgMatches<'a>) -> Result<Request<'a>, Fault>
    ensures asks { IfOk result (AsksToCopy matches.now) }
    ensures bounds { IfOk result IsWithinBounds }
    ensures refused { OnErr result (IsSectorCount (word_of matches.now (codes "SECTORS")) → ⊥) }
{
    match read_sector_count(word(matches, "SECTORS")) {
        Some(sectors) => Ok(Request::Copy {
            old: word(matches, "OLD"),
            new: word(matches, "NEW"),
            sectors,
        }),
        None => Err(Fault::Value(SIZES)),
    }
}

/// The words of `load VOLUME NAME`.
fn read_load<'a>(matches: &ArgMatches<'a>) -> Request<'a>
    ensures { AsksToLoad matches.now result }
{
    Request::Load {
        volume: word(matches, "VOLUME"),
        name: word(matches, "NAME"),
    }
}

/// The words of `migrate VOLUME`.
fn read_migrate<'a>(matches: &ArgMatches<'a>) -> Request<'a>
    ensures { AsksToMigrate matches.now result }
{
    Request::Migrate {
        volume: word(matches, "VOLUME"),
    }
}

/// The words of `stat VOLUME`.
fn read_stat<'a>(matches: &ArgMatches<'a>) -> Request<'a>
    ensures { AsksToStat matches.now result }
{
    Request::Stat {
        volume: word(matches, "VOLUME"),
    }
}

/// The words of `compile SOURCE IMAGE`.
fn read_compile<'a>(matches: &ArgMatches<'a>) -> Request<'a>
    ensures { AsksToCompile matches.now result }
{
    Request::Compile {
        source: word(matches, "SOURCE"),
        image: word(matches, "IMAGE"),
    }
}

/// The words of `run IMAGE VOLUME [--budget N] [--date YYMMDD | --today] [--trace-files]`.
fn read_run<'a>(matches: &ArgMatches<'a>) -> Result<Request<'a>, Fault>
    ensures asks { IfOk result (AsksToRun matches.now) }
    ensures bounds { IfOk result IsWithinBounds }
    ensures refused { OnErr result (ReadsBudget (option_of matches.now (codes "budget")) None
        ⊎ ReadsDate (option_of matches.now (codes "date")) None) }
{
    let Some(budget) = read_budget(matches.get_str("budget")) else {
        return Err(Fault::Value("a budget has digits alone, and at most 18446744073709551615"));
    };
    let Some(day) = read_day(matches.get_str("date")) else {
        return Err(Fault::Value("a date has six digits"));
    };
    Ok(Request::Run(RunRequest {
        image: word(matches, "IMAGE"),
        volume: word(matches, "VOLUME"),
        budget,
        day,
        is_today: matches.get_flag("today"),
        is_traced: matches.get_flag("trace-files"),
    }))
}

/// The words of `list VOLUME`.
fn read_list<'a>(matches: &ArgMatches<'a>) -> Request<'a>
    ensures { AsksToList matches.now result }
{
    Request::List {
        volume: word(matches, "VOLUME"),
    }
}

/// The words of `dump VOLUME NAME`.
fn read_dump<'a>(matches: &ArgMatches<'a>) -> Request<'a>
    ensures { AsksToDump matches.now result }
{
    Request::Dump {
        volume: word(matches, "VOLUME"),
        name: word(matches, "NAME"),
    }
}

/// The words of `explain N`.
fn read_explain<'a>(matches: &ArgMatches<'a>) -> Result<Request<'a>, Fault>
    ensures asks { IfOk result (AsksToExplain matches.now) }
    ensures bounds { IfOk result IsWithinBounds }
    ensures refused { OnErr result (IsNumber (word_of matches.now (codes "N")) → ⊥) }
{
    match read_number(word(matches, "N")) {
        Some(number) => Ok(Request::Explain { number }),
        None => Err(Fault::Value("a number has digits alone, and at most 18446744073709551615")),
    }
}

/// The words of `check SOURCE`.
fn read_check<'a>(matches: &ArgMatches<'a>) -> Request<'a>
    ensures { AsksToCheck matches.now result }
{
    Request::Check {
        source: word(matches, "SOURCE"),
    }
}

/// The words of `layout SOURCE`.
fn read_layout<'a>(matches: &ArgMatches<'a>) -> Request<'a>
    ensures { AsksToLayout matches.now result }
{
    Request::Layout {
        source: word(matches, "SOURCE"),
    }
}

/// The word of a required argument.
fn word<'a>(matches: &ArgMatches<'a>, id: &str) -> &'a str
    ensures { result.now ≡ word_of matches.now id.now }
{
    match matches.get_str(id) {
        Some(word) => word,
        None => "",
    }
}

/// Help and the version are shown; everything else is a reason.
fn explain<'a>(alloc: Global, error: &Error) -> Result<Request<'a>, AllocError>
    ensures { IfOk result IsWithinBounds }
{
    if error.kind() == ErrorKind::OutOfMemory {
        return Err(AllocError);
    }
    let text = format!(in alloc; "{error}")?;
    if error.use_stderr() {
        return Ok(Request::Wrong(text));
    }
    Ok(Request::Show(text))
}

impl From<Error> for Fault {
    fn from(error: Error) -> Fault {
        Fault::Words(error)
    }
}

impl From<AllocError> for Fault {
    fn from(_: AllocError) -> Fault {
        Fault::Memory
    }
}
