//! Numbers in packed usage.

ghost use Rattle.std.specs.Prelude.{◌≡◌, ◌+◌, ◌-◌, ◌*◌, ◌/◌, ◌%◌, ◌<◌, ◌≤◌, ◌^◌, ◌⊎◌, length, slice_index, IfSome, if◌then◌else◌};
ghost use Rattle.decimal18.specs.Digits.{digits_after};
ghost use Rattle.decimal18.specs.Fraction as numbers;
ghost use Rattle.items.specs.Display.{are_digits};
ghost use Rattle.items.specs.Packed as spec;

/// The values of half a byte.
const HALF: u8 = 16;

/// The last half of an item with S: that of a negative number and that of others.
const MINUS: u8 = 0xD;

const PLUS: u8 = 0xC;

/// The last half of an item without S.
const UNSIGNED: u8 = 0xF;

/// Pairs of digits.
const COUNT: usize = 100;

/// Two digits in the halves of a byte.
static PAIRS: [u8; COUNT] = [
    0x00, 0x01, 0x02, 0x03, 0x04, 0x05, 0x06, 0x07, 0x08, 0x09, 0x10, 0x11, 0x12, 0x13, 0x14, 0x15,
    0x16, 0x17, 0x18, 0x19, 0x20, 0x21, 0x22, 0x23, 0x24, 0x25, 0x26, 0x27, 0x28, 0x29, 0x30, 0x31,
    0x32, 0x33, 0x34, 0x35, 0x36, 0x37, 0x38, 0x39, 0x40, 0x41, 0x42, 0x43, 0x44, 0x45, 0x46, 0x47,
    0x48, 0x49, 0x50, 0x51, 0x52, 0x53, 0x54, 0x55, 0x56, 0x57, 0x58, 0x59, 0x60, 0x61, 0x62, 0x63,
    0x64, 0x65, 0x66, 0x67, 0x68, 0x69, 0x70, 0x71, 0x72, 0x73, 0x74, 0x75, 0x76, 0x77, 0x78, 0x79,
    0x80, 0x81, 0x82, 0x83, 0x84, 0x85, 0x86, 0x87, 0x88, 0x89, 0x90, 0x91, 0x92, 0x93, 0x94, 0x95,
    0x96, 0x97, 0x98, 0x99,
];

/// Values of a byte.
const BYTES: usize = 256;

/// The number of the two digits in the halves of a byte, or 255 where they aren't digits.
static NUMBERS: [u8; BYTES] = [
    0, 1, 2, 3, 4, 5, 6, 7, 8, 9, 255, 255, 255, 255, 255, 255, 10, 11, 12, 13, 14, 15, 16, 17, 18,
    19, 255, 255, 255, 255, 255, 255, 20, 21, 22, 23, 24, 25, 26, 27, 28, 29, 255, 255, 255, 255,
    255, 255, 30, 31, 32, 33, 34, 35, 36, 37, 38, 39, 255, 255, 255, 255, 255, 255, 40, 41, 42, 43,
    44, 45, 46, 47, 48, 49, 255, 255, 255, 255, 255, 255, 50, 51, 52, 53, 54, 55, 56, 57, 58, 59,
    255, 255, 255, 255, 255, 255, 60, 61, 62, 63, 64, 65, 66, 67, 68, 69, 255, 255, 255, 255, 255,
    255, 70, 71, 72, 73, 74, 75, 76, 77, 78, 79, 255, 255, 255, 255, 255, 255, 80, 81, 82, 83, 84,
    85, 86, 87, 88, 89, 255, 255, 255, 255, 255, 255, 90, 91, 92, 93, 94, 95, 96, 97, 98, 99, 255,
    255, 255, 255, 255, 255, 255, 255, 255, 255, 255, 255, 255, 255, 255, 255, 255, 255, 255, 255,
    255, 255, 255, 255, 255, 255, 255, 255, 255, 255, 255, 255, 255, 255, 255, 255, 255, 255, 255,
    255, 255, 255, 255, 255, 255, 255, 255, 255, 255, 255, 255, 255, 255, 255, 255, 255, 255, 255,
    255, 255, 255, 255, 255, 255, 255, 255, 255, 255, 255, 255, 255, 255, 255, 255, 255, 255, 255,
    255, 255, 255, 255, 255, 255, 255, 255, 255, 255, 255, 255, 255, 255, 255, 255, 255, 255, 255,
    255, 255, 255, 255, 255, 255,
];

/// The greatest number of two digits.
const MOST: u8 = 99;

/// The integer that the bytes of a packed number are.
pub fn packed_integer(signed: bool, bytes: &[u8]) -> Option<i128>
    requires some { 1 ≤ length bytes.now }
    requires most { length bytes.now ≤ 10 }
    ensures { result ≡ spec.packed_integer signed bytes.now }
{
    let [front @ .., last] = bytes else {
        return None;
    };
    let front = pairs(front)?;
    let digit = *last / HALF;
    if digit > 9 {
        return None;
    }
    let magnitude = 10 * front + u64::from(digit);
    let half = *last % HALF;
    if half == sign_half(signed, false) {
        Some(signed_number(false, magnitude))
    } else if half == sign_half(signed, true) {
        Some(signed_number(true, magnitude))
    } else {
        None
    }
}

/// Writes a packed number.
pub fn put_packed(signed: bool, negative: bool, magnitude: u64, bytes: &mut [u8])
    requires { 1 ≤ length bytes.old }
    ensures { bytes.new ≡ spec.packed_bytes signed (length bytes.old) negative magnitude }
{
    let size = bytes.len();
    let (front, last) = bytes.split_at_mut(size - 1);
    put_pairs(magnitude / 10, front);
    last.fill(HALF * (magnitude % 10) as u8 + sign_half(signed, negative));
}

/// The half that tells the sign.
fn sign_half(signed: bool, negative: bool) -> u8
    ensures value { result ≡ spec.sign_half signed negative }
    ensures bound { result < 16 }
{
    match (signed, negative) {
        (true, true) => MINUS,
        (true, false) => PLUS,
        (false, _) => UNSIGNED,
    }
}

/// The number of a byte's two digits, or a greater one where its halves aren't digits.
#[inline]
fn pair(byte: u8) -> u8
    ensures digits { result ≤ 99 → (byte / 16 ≤ 9) × (byte % 16 ≤ 9)
        × (result ≡ 10 * (byte / 16) + byte % 16) }
    ensures none { 99 < result → (9 < byte / 16) ⊎ ((byte / 16 ≤ 9) × (9 < byte % 16)) }
{
    NUMBERS[byte as usize]
}

/// The number that the bytes are, two digits a byte, if their halves are digits.
fn pairs(bytes: &[u8]) -> Option<u64>
    requires { length bytes.now ≤ 9 }
    ensures value { result ≡ (if are_digits (spec.characters_of (spec.halves bytes.now))
        then Some (digits_after 0 (spec.characters_of (spec.halves bytes.now))) else None) }
    ensures bound { IfSome result (λ number. number < 100 ^ length bytes.now) }
{
    let mut number = 0;
    for byte in bytes {
        let pair = pair(*byte);
        if pair > MOST {
            return None;
        }
        number = 100 * number + u64::from(pair);
    }
    Some(number)
}

/// A number by its sign and its absolute value.
fn signed_number(negative: bool, magnitude: u64) -> i128
    ensures { result ≡ numbers.signed_integer negative magnitude }
{
    let value = i128::from(magnitude);
    if negative { -value } else { value }
}

/// Writes the last digits of a number, two a byte.
fn put_pairs(magnitude: u64, bytes: &mut [u8])
    ensures { bytes.new
        ≡ spec.bytes_of_halves (spec.digit_halves (2 * length bytes.old) magnitude) }
{
    let mut rest = magnitude;
    let mut at = bytes.len();
    while at > 0 {
        at -= 1;
        bytes[at] = PAIRS[(rest % 100) as usize];
        rest /= 100;
    }
}
