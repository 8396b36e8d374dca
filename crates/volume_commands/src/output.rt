//! Text that goes to a writer.
ghost use Rattle.std.specs.Prelude.{◌≡◌, ◌≤◌, length, take, IfOk, OnOk, OnErr, IsOkUnless};
ghost use Rattle.std.specs.Io.KnownBytes.{Keeps, Appends};
ghost use Rattle.volume_commands.specs.Output.{AppendsBeginning};

use crate::volume_error::VolumeError;
use std::io::{ErrorKind, Write};

/// Writes a text. If the writer fails, it has taken a beginning of it.
pub(crate) fn write_text<W: Write>(out: &mut W, text: &[u8]) -> Result<(), VolumeError>
    ensures whole { OnOk result (Appends (W.contents out.old) (W.contents out.new) text.now) }
    ensures beginning { OnErr result
        (AppendsBeginning (W.contents out.old) (W.contents out.new) text.now) }
    ensures cause { IsOkUnless result VolumeError.Output }
{
    let mut written = 0;
    for _ in 0..u64::MAX {
        if written == text.len() {
            return Ok(());
        }
        match write_some(out, &text[written..]) {
            Ok(n) => written += n,
            Err(error) => return Err(error),
        }
    }
    Err(VolumeError::Output)
}

/// Writes some bytes: none if the call was interrupted.
fn write_some<W: Write>(out: &mut W, bytes: &[u8]) -> Result<usize, VolumeError>
    ensures bound { IfOk result (λ n. n ≤ length bytes.now) }
    ensures taken { IfOk result (λ n.
        Appends (W.contents out.old) (W.contents out.new) (take n bytes.now)) }
    ensures kept { OnErr result (Keeps (W.contents out.old) (W.contents out.new)) }
    ensures cause { IsOkUnless result VolumeError.Output }
{
    match out.write(bytes) {
        Ok(0) => Err(VolumeError::Output),
        Ok(n) => Ok(n),
        Err(error) => {
            if error.kind() == ErrorKind::Interrupted {
                return Ok(0);
            }
            Err(VolumeError::Output)
        }
    }
}

/// Writes a text, and flushes.
pub(crate) fn write_through<W: Write>(out: &mut W, text: &[u8]) -> Result<(), VolumeError>
    ensures whole { OnOk result (Appends (W.contents out.old) (W.contents out.new) text.now) }
    ensures beginning { OnErr result
        (AppendsBeginning (W.contents out.old) (W.contents out.new) text.now) }
    ensures cause { IsOkUnless result VolumeError.Output }
{
    write_text(out, text)?;
    flush(out)
}

/// Flushes what was written.
pub(crate) fn flush<W: Write>(out: &mut W) -> Result<(), VolumeError>
    ensures kept { Keeps (W.contents out.old) (W.contents out.new) }
    ensures cause { IsOkUnless result VolumeError.Output }
{
    out.flush().map_err(|_| VolumeError::Output)
}
