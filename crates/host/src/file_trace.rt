//! What `run --trace-files` prints of a file statement.

ghost use Rattle.std.specs.Prelude.{◌≡◌, [], IfOk};
ghost use Rattle.volume_commands.specs.Output.{AppendsBeginning};
ghost use Rattle.volume_commands.specs.Text as text;
ghost use Rattle.host.specs.Traced as spec;

use itoa::Buffer;
use station::TracedStatement;
use std::alloc::{AllocError, Global};
use std::io::Write;
use volume_commands::bytes_text;

/// Writes the line of a file statement by one call of the writer. What it doesn't take is left out.
pub fn trace_statement<W: Write>(alloc: Global, writer: &mut W, statement: &TracedStatement)
    ensures { AppendsBeginning (W.contents writer.old) (W.contents writer.new)
        (spec.traced_line statement.now) }
{
    if let Ok(line) = traced_line(alloc, statement) {
        let _ = writer.write(line.as_slice());
    }
}

/// The line of a file statement: its line in the source, its verb, the file's name as `list` prints it, and its status.
fn traced_line(alloc: Global, statement: &TracedStatement) -> Result<Vec<u8>, AllocError>
    ensures { IfOk result (λ line. line.items ≡ spec.traced_line statement.now) }
{
    let name = bytes_text(alloc, statement.file)?;
    let mut line = Vec::new(alloc);
    spell(&mut line, statement, &name)?;
    Ok(line)
}

/// Spells the line of a file statement after an empty text.
fn spell(line: &mut Vec<u8>, statement: &TracedStatement, name: &[u8]) -> Result<(), AllocError>
    requires empty { line.old.items ≡ [] }
    requires named { name.now ≡ text.bytes_text statement.now.file.now }
    ensures { IfOk result (λ _. line.new.items ≡ spec.traced_line statement.now) }
{
    let mut digits = Buffer::new();
    line.extend_from_slice(b"line ")?;
    line.extend_from_slice(digits.format(statement.line).as_bytes())?;
    line.extend_from_slice(b": ")?;
    line.extend_from_slice(statement.verb.as_bytes())?;
    line.push(b' ')?;
    line.extend_from_slice(name)?;
    line.push(b' ')?;
    line.extend_from_slice(&statement.status)?;
    line.push(b'\n')?;
    Ok(())
}
