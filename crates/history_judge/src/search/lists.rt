//! Lists of places, with reads and writes that may be past the end.

/// No place.
pub const NONE: usize = usize::MAX;

/// Returns the item at a place, or `other` past the end.
pub fn at<T: Copy>(items: &[T], place: usize, other: T) -> T {
    match items.get(place) {
        Some(item) => *item,
        None => other,
    }
}

/// Writes to a place, unless it is past the end.
pub fn put<T: Copy>(items: &mut [T], place: usize, item: T) {
    if place < items.len() {
        items[place] = item;
    }
}

/// Adds one to the count at a place.
pub fn count(counts: &mut [usize], place: usize) {
    let more = at(counts, place, 0).saturating_add(1);
    put(counts, place, more);
}
