//! Parts of slices, bytes that are changed, and numbers that look like chance.

/// The elements from a place up to another, as far as they are there.
pub fn part<T>(elements: &[T], from: usize, to: usize) -> &[T] {
    let last = to.min(elements.len());
    let first = from.min(last);
    &elements[first..last]
}

/// Counts a byte up by one, from 255 to 0.
pub fn turn(bytes: &mut [u8], place: usize) {
    if let Some(byte) = bytes.get_mut(place) {
        *byte = byte.wrapping_add(1);
    }
}

/// The number behind a number, which looks like chance.
pub fn next_chance(seed: u64) -> u64 {
    let a = seed ^ (seed << 13);
    let b = a ^ (a >> 7);
    b ^ (b << 17)
}
