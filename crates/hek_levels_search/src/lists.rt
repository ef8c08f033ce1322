//! Parts of lists, and lists of lists.
use hek_rules::NoMemory;

/// Adds something to the end of a list.
pub fn add<T: Copy>(list: &mut Vec<T>, value: T) -> Result<(), NoMemory> {
    list.push(value)?;
    Ok(())
}

/// The part of a list from a place up to another, or nothing if the list has no such part.
pub fn part<T>(list: &[T], from: usize, to: usize) -> &[T] {
    if from <= to && to <= list.len() {
        &list[from..to]
    } else {
        &[]
    }
}

/// What stands at a place, or the other past the end.
pub fn at<T: Copy>(list: &[T], place: usize, other: T) -> T {
    match list.get(place) {
        Some(there) => *there,
        None => other,
    }
}

/// Puts something at a place, if the list has that place.
pub fn put<T: Copy>(list: &mut Vec<T>, place: usize, value: T) {
    if let Some(there) = list.get_mut(place) {
        *there = value;
    }
}

/// The list at a place, or an empty one.
pub fn list_at<T>(lists: &[Vec<T>], place: usize) -> &[T] {
    match lists.get(place) {
        Some(list) => list.as_slice(),
        None => &[],
    }
}

/// Adds something to the end of the list at a place, if there is one.
pub fn add_in<T: Copy>(lists: &mut Vec<Vec<T>>, place: usize, value: T) -> Result<(), NoMemory> {
    match lists.get_mut(place) {
        Some(list) => add(list, value),
        None => Ok(()),
    }
}

/// The place of the first of rising numbers that isn't below another.
pub fn place_from(rising: &[u64], least: u64) -> usize {
    rising.partition_point(|one| *one < least)
}

/// Reverses a list from a place on.
pub fn reverse_from<T>(list: &mut Vec<T>, from: usize) {
    if from <= list.len() {
        let (_before, rest) = list.split_at_mut(from);
        rest.reverse();
    }
}
