//! Items of lists by their places, where a place may be none.

use base_values::OutOfMemory;

/// No place of a list.
pub const NONE: u32 = 4_294_967_295;

/// The item at the place, or the other, where there is none.
pub fn at<T: Copy>(items: &[T], place: usize, other: T) -> T {
    match items.get(place) {
        Some(item) => *item,
        None => other,
    }
}

/// Puts the item at the place, if there is one.
pub fn set<T: Copy>(items: &mut [T], place: usize, item: T) {
    if place < items.len() {
        items[place] = item;
    }
}

/// The items from one place up to another, or none.
pub fn range<T>(items: &[T], from: usize, to: usize) -> &[T] {
    match items.get(from..to) {
        Some(found) => found,
        None => &[],
    }
}

/// The number in 32 bits, or the greatest of them.
pub fn short(number: usize) -> u32 {
    if number < 4_294_967_295 {
        number as u32
    } else {
        NONE
    }
}

/// Puts the item at the end. One function meets the refusal for all lists, so the others are proved faster.
pub fn push<T: Drop>(items: &mut Vec<T>, item: T) -> Result<(), OutOfMemory> {
    items.push(item)?;
    Ok(())
}
