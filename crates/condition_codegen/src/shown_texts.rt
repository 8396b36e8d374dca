//! The bytes that a DISPLAY shows of literals.

ghost use Rattle.std.specs.Prelude.{◌≡◌, ◌++◌, true, OnOk, IfOk};
ghost use Rattle.source_tree.specs.Display.{shown_sign, shown_decimals, literal_text, figurative_byte, shown_literal};
ghost use Rattle.source_tree.specs.Display as spec;

use source_tree::{Figurative, LiteralValue, NumericLiteral, Sign};
use sqlite_items::Items;
use std::alloc::{AllocError, Global};

const LINE_FEED: u8 = b'\n';

const PLUS: u8 = b'+';

const MINUS: u8 = b'-';

const POINT: u8 = b'.';

/// The byte of a figurative constant.
pub fn figurative(constant: Figurative) -> u8
    ensures { result ≡ figurative_byte constant }
{
    match constant {
        Figurative::Zero => b'0',
        Figurative::Space => b' ',
        Figurative::HighValue => u8::MAX,
        Figurative::LowValue => u8::MIN,
        Figurative::Quote => b'"',
    }
}

/// What a DISPLAY shows of a literal.
pub fn literal_text(alloc: Global, value: &LiteralValue) -> Result<Items<u8>, AllocError>
    ensures { IfOk result (λ bytes. bytes ≡ shown_literal value.now) }
{
    let mut out = Vec::new(alloc);
    put_literal(&mut out, value)?;
    Ok(Items::from_vec(out))
}

/// The end of a line that is shown.
pub fn line_end(alloc: Global) -> Result<Items<u8>, AllocError>
    ensures { IfOk result (λ bytes. bytes ≡ spec.line_end true) }
{
    Items::from_slice(alloc, &[LINE_FEED])
}

fn put_sign(out: &mut Vec<u8>, sign: Sign) -> Result<(), AllocError>
    ensures { OnOk result (out.new.items ≡ out.old.items ++ shown_sign sign) }
{
    match sign {
        Sign::Unsigned => {}
        Sign::Plus => out.push(PLUS)?,
        Sign::Minus => out.push(MINUS)?,
    }
    Ok(())
}

fn put_decimals(out: &mut Vec<u8>, decimals: &[u8]) -> Result<(), AllocError>
    ensures { OnOk result (out.new.items ≡ out.old.items ++ shown_decimals decimals.now) }
{
    if decimals.is_empty() {
        return Ok(());
    }
    out.push(POINT)?;
    out.extend_from_slice(decimals)
}

fn put_number(out: &mut Vec<u8>, number: &NumericLiteral) -> Result<(), AllocError>
    ensures { OnOk result (out.new.items ≡ out.old.items ++ literal_text number.now) }
{
    put_sign(out, number.sign)?;
    out.extend_from_slice(number.whole.as_slice())?;
    put_decimals(out, number.decimals.as_slice())
}

fn put_literal(out: &mut Vec<u8>, value: &LiteralValue) -> Result<(), AllocError>
    ensures { OnOk result (out.new.items ≡ out.old.items ++ shown_literal value.now) }
{
    match value {
        LiteralValue::Numeric(number) => put_number(out, number),
        LiteralValue::Nonnumeric(bytes) => out.extend_from_slice(bytes.as_slice()),
        LiteralValue::Figurative(constant) => {
            out.push(figurative(*constant))?;
            Ok(())
        }
        LiteralValue::All(bytes) => out.extend_from_slice(bytes.as_slice()),
    }
}
