//! The numbers of the entries that a tree has to hold, ascending.

/// Whether a number is among them.
pub fn has(numbers: &[u32], number: u32) -> bool {
    numbers.binary_search(&number).is_ok()
}

/// The first number from one on.
pub fn first_from(numbers: &[u32], number: u32) -> Option<u32> {
    numbers.get(place_of(numbers, number)).copied()
}

/// The number at a place, or 0.
pub fn number_at(numbers: &[u32], place: usize) -> u32 {
    numbers.get(place).copied().unwrap_or(0)
}

/// Puts a number to its place. The answer is whether there was memory.
pub fn put(numbers: &mut Vec<u32>, number: u32) -> bool {
    let place = place_of(numbers, number);
    place <= numbers.len() && numbers.insert(place, number).is_ok()
}

/// Takes a number out.
pub fn take(numbers: &mut Vec<u32>, number: u32) {
    let place = place_of(numbers, number);
    if place < numbers.len() && numbers[place] == number {
        numbers.remove(place);
    }
}

/// Makes them those of another list. The answer is whether there was memory.
pub fn copy(numbers: &mut Vec<u32>, others: &[u32]) -> bool {
    numbers.clear();
    numbers.extend_from_slice(others).is_ok()
}

/// Makes them 10, 20, 30 and so on, so many. The answer is whether there was memory.
pub fn count_by_tens(numbers: &mut Vec<u32>, count: u32) -> bool {
    numbers.clear();
    for place in 0..count {
        if numbers
            .push(place.wrapping_add(1).wrapping_mul(10))
            .is_err()
        {
            return false;
        }
    }
    true
}

/// Where a number is, or where it belongs.
fn place_of(numbers: &[u32], number: u32) -> usize {
    match numbers.binary_search(&number) {
        Ok(place) | Err(place) => place,
    }
}
