//! A command: from its words to an exit status.

ghost use Rattle.std.specs.Prelude.{◌≡◌};
ghost use Rattle.cobol.specs.Status.{status_of};
ghost use Rattle.command_words.specs.Words.{IsWithinBounds};
ghost use Rattle.cobol.specs.declared.verdict.Verdict.{Verdict};

use crate::check_command::check;
use crate::compile_command::compile_file;
use crate::copy_command::copy;
use crate::dump_command::dump;
use crate::explain_command::explain_number;
use crate::format_command::format;
use crate::layout_command::show_layout;
use crate::list_command::list;
use crate::load_command::load;
use crate::migrate_command::migrate;
use crate::run_command::run;
use crate::stat_command::stat;
use crate::verdict::Verdict;
use command_words::{Request, read_words};
use host::Reasons;
use std::convert::AsStr;
use std::env::Env;
use std::fs::File;
use std::io::{BufRead, Write};
use std::rt::Files;
use std::time::Clock;

/// Does what the words ask for; the first is the program's name. Console lines come from `console`, shown bytes, listings and
/// dumps go to `out`, and the reason of a refusal to `err`. The answer is the exit status.
pub fn command<R, C, O, E>(rt: &R, words: &[String], mut console: C, mut out: O, mut err: E) -> u8
where
    R: Files<File = File> + AllocGlobal + Clock + Env + Clone + Drop,
    C: BufRead + Drop,
    O: Write + Drop,
    E: Reasons + Drop,
    ensures { (verdict : Verdict) × (result ≡ status_of verdict) }
{
    let verdict = match read_words(rt.alloc(), words) {
        Ok(request) => carry_out(rt, request, &mut console, &mut out, &mut err),
        Err(_) => Verdict::memory(),
    };
    explain(&mut err, verdict);
    verdict.status()
}

/// Does what is asked for.
fn carry_out<R, C, O, E>(
    rt: &R,
    request: Request,
    console: &mut C,
    out: &mut O,
    err: &mut E,
) -> Verdict
where
    R: Files<File = File> + AllocGlobal + Clock + Env + Clone + Drop,
    C: BufRead,
    O: Write,
    E: Reasons,
    requires { IsWithinBounds request }
{
    match request {
        Request::Format { volume, sectors } => format(rt, volume, sectors, err),
        Request::Copy { old, new, sectors } => copy(rt, old, new, sectors, err),
        Request::Load { volume, name } => load(rt, volume, name, console, out, err),
        Request::Migrate { volume } => migrate(rt, volume),
        Request::Stat { volume } => stat(rt, volume, out),
        Request::Compile { source, image } => compile_file(rt, source, image),
        Request::Run(request) => run(rt, request, console, out, err),
        Request::List { volume } => list(rt, volume, out),
        Request::Dump { volume, name } => dump(rt, volume, name, out, err),
        Request::Explain { number } => explain_number(rt.alloc(), number, out, err),
        Request::Check { source } => check(rt, source, out),
        Request::Layout { source } => show_layout(rt, source, out),
        Request::Show(text) => show(out, text.as_str()),
        Request::Wrong(text) => {
            let _ = err.write_all(text.as_str().as_bytes());
            Verdict::WrongCommand
        }
    }
}

/// Shows a text that was asked for.
fn show<O: Write>(out: &mut O, text: &str) -> Verdict {
    show_bytes(out, text.as_bytes())
}

/// Shows the bytes of a text.
pub fn show_bytes<O: Write>(out: &mut O, text: &[u8]) -> Verdict {
    if out.write_all(text).is_err() || out.flush().is_err() {
        return Verdict::device();
    }
    Verdict::Done
}

/// Writes the line of a verdict that has one. If that fails, only the exit status says how the command ended.
pub fn explain<E: Write>(err: &mut E, verdict: Verdict) {
    if !matches!(
        verdict,
        Verdict::Done | Verdict::Reported | Verdict::WrongCommand
    ) {
        let _ = err.writeln(verdict);
    }
    let _ = err.flush();
}
