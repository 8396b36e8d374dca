//! What a file statement takes and leaves beside its record area: the number in a RELATIVE KEY item.

ghost use Rattle.std.specs.Prelude.{◌≡◌, ◌+◌, ◌%◌, ◌^◌, ◌≤◌, true, pos, length};
ghost use Rattle.items.specs.declared.item.Kind.TheVariants as kind;
ghost use Rattle.items.specs.Items.{IsOfLength, number_in};
ghost use Rattle.items.specs.Numbers.{IsNumeric, length_of};
ghost use Rattle.items.specs.Values.{bytes_of};
ghost use Rattle.source_tree.specs.References.{whole_part};
ghost use Rattle.source_tree.specs.FileRules.{is_unsigned_integer};
ghost use Rattle.source_tree.specs.FileStatements as spec;
ghost use Rattle.data_machine.specs.Writing.{with_part};

use crate::measuring::natural_in;
use crate::numbers::number_in;
use decimal18::{Dec, Rounding};
use items::{Kind, Numeric, store};

/// The integer that the bytes of an item hold, 0 where they hold none or one below 0.
pub fn number_held(kind: Kind, bytes: &[u8]) -> u64
    requires { IsOfLength kind (length bytes.now) }
    ensures { result ≡ spec.number_held (whole_part (number_in kind bytes.now)) }
{
    natural_in(number_in(kind, bytes)) as u64
}

/// An integer as a decimal.
fn decimal(number: u64) -> Dec
    ensures { result ≡ record { coefficient = pos number; scale = 0 } }
{
    Dec::new(i128::from(number), 0)
}

/// Writes the low digits of a number in an unsigned integer item.
fn put_low_digits(item: Numeric, number: u64, bytes: &mut [u8])
    requires item { IsNumeric item }
    requires kind { is_unsigned_integer (kind.Numeric item) ≡ true }
    requires length { length bytes.old ≡ length_of item }
    ensures { bytes.new
        ≡ bytes_of item (record { coefficient = pos (number % 10 ^ item.digits); scale = 0 }) }
{
    let low = decimal(number).cut(item.digits, 0, Rounding::Truncated);
    store(item, low, bytes);
}

/// The same in an item at an offset in its area: the other bytes stay.
pub fn put_number_part(item: Numeric, area: &mut [u8], offset: usize, number: u64)
    requires item { IsNumeric item }
    requires kind { is_unsigned_integer (kind.Numeric item) ≡ true }
    requires within { offset + length_of item ≤ length area.old }
    ensures { area.new ≡ with_part area.old offset (length_of item)
        (bytes_of item (record { coefficient = pos (number % 10 ^ item.digits); scale = 0 })) }
{
    let end = offset + item.length();
    put_low_digits(item, number, &mut area[offset..end]);
}
