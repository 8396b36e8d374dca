//! A sector as 1,024 numbers of four bytes.
ghost use Rattle.std.specs.Prelude.{◌≡◌, ◌<◌, ℕ, List, length, slice_set};
ghost use Rattle.pages.specs.Layout.{words, number_bytes};

use byteorder::{BigEndian, ByteOrder};

/// The numbers in a sector.
pub(crate) fn numbers_in(bytes: &[u8; 4096]) -> [u32; 1024]
    ensures { result ≡ words bytes.now }
{
    let mut numbers = [0; 1024];
    BigEndian::read_u32_into(bytes, &mut numbers);
    numbers
}

/// A sector of these numbers.
pub(crate) fn spelled_numbers(numbers: &[u32]) -> [u8; 4096]
    requires { length numbers.now ≡ 1024 }
    ensures bytes { result ≡ number_bytes numbers.now }
    ensures reads { words result ≡ numbers.now }
{
    let mut bytes = [0; 4096];
    BigEndian::write_u32_into(numbers, &mut bytes);
    bytes
}

/// Puts a number in the place of another of a sector.
pub(crate) fn put_number(bytes: &mut [u8; 4096], place: usize, number: u32)
    requires { place < 1024 }
    ensures { (numbers : List ℕ) → length numbers ≡ 1024 → bytes.old ≡ number_bytes numbers
        → bytes.new ≡ number_bytes (slice_set numbers place number) }
{
    BigEndian::write_u32(&mut bytes[4 * place..], number);
}
