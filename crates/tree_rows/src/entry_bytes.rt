//! The bytes of the entry of a number: its key is sevens with the number in the last four bytes, or the number's last bytes in fewer, and
//! each byte of its value is a tenth of the number.
use btree_pages::MOST_ROW_BYTES;

/// Bytes of which a key or a value is the front.
pub type Bytes = [u8; MOST_ROW_BYTES];

/// The key of a number, of this length.
pub fn key_of(length: usize, number: u32) -> Bytes {
    let mut key = [7; MOST_ROW_BYTES];
    let mut place = length;
    let mut rest = number;
    for _ in 0..4 {
        place = place.wrapping_sub(1);
        if let Some(byte) = key.get_mut(place) {
            *byte = (rest % 256) as u8;
        }
        rest /= 256;
    }
    key
}

/// The value of a number, of any length.
pub fn value_of(number: u32) -> Bytes {
    [(number / 10 % 256) as u8; MOST_ROW_BYTES]
}
