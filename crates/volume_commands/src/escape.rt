//! The text of bytes, as it is printed.
ghost use Rattle.std.specs.Prelude.{◌≡◌, ◌<◌, ◌++◌, IfOk, OnOk};
ghost use Rattle.volume_commands.specs.Text as spec;

use std::alloc::{AllocError, Global};

const BACKSLASH: u8 = b'\\';

const DIGITS: [u8; 16] = *b"0123456789abcdef";

/// The text of bytes: a byte from 20 to 7e is itself, a backslash is doubled, and any other byte
/// is `\x` and two digits.
pub fn bytes_text(alloc: Global, bytes: &[u8]) -> Result<Vec<u8>, AllocError>
    ensures { IfOk result (λ text. text.items ≡ spec.bytes_text bytes.now) }
{
    let mut text = Vec::new(alloc);
    push_text(&mut text, bytes)?;
    Ok(text)
}

/// Appends the text of bytes.
pub(crate) fn push_text(out: &mut Vec<u8>, bytes: &[u8]) -> Result<(), AllocError>
    ensures { OnOk result (out.new.items ≡ out.old.items ++ spec.bytes_text bytes.now) }
{
    for byte in bytes {
        push_byte(out, *byte)?;
    }
    Ok(())
}

fn push_byte(out: &mut Vec<u8>, byte: u8) -> Result<(), AllocError>
    ensures { OnOk result (out.new.items ≡ out.old.items ++ spec.byte_text byte) }
{
    if byte == BACKSLASH {
        return out.extend_from_slice(&[BACKSLASH, BACKSLASH]);
    }
    if is_visible(byte) {
        return Ok(out.push(byte)?);
    }
    out.extend_from_slice(&[BACKSLASH, b'x', digit(byte / 16), digit(byte % 16)])
}

fn is_visible(byte: u8) -> bool
    ensures { result ≡ spec.is_visible byte }
{
    0x20 <= byte && byte <= 0x7e
}

fn digit(value: u8) -> u8
    requires { value < 16 }
    ensures { result ≡ spec.hexadecimal_digit value }
{
    DIGITS[value as usize]
}
