//! Instructions that make a part of the newest place (ISO 1989:1985, Nucleus, "Reference modification").

/// Which part. Its first place counts from 1. Fault 93 where the part isn't within the item, and 90 where a number is no integer.
#[derive(Clone, Copy)]
pub enum Part {
    /// Takes the first place of a part that has its item's length, within so many bytes.
    Fixed { size: u32 },
    /// Takes the length, which is the newest number, and the first place below it. The part is within the bytes of the place.
    Counted,
    /// Takes the first place. The part ends where the place ends.
    Rest,
}
