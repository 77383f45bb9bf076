//! Lists of at most three things, each with a number.
use std::alloc::{AllocError, Global};

// The greatest length of a list.
const MOST: usize = 3;

/// A number that is greater than that of every list of at most three of `count` things.
pub fn numbers_of(count: usize) -> usize {
    let base = count.saturating_add(1);
    base.saturating_mul(base).saturating_mul(base)
}

/// The list of at most three of these things that has this number, if there is one. Each digit of
/// the number, the last one first, is the place of a thing, counted from 1. So a shorter list has a
/// smaller number.
pub fn list_of<T: Copy>(
    alloc: Global,
    things: &[T],
    number: usize,
) -> Result<Option<Vec<T>>, AllocError> {
    let base = things.len().saturating_add(1);
    let mut list = Vec::new(alloc);
    let mut left = number;
    for _ in 0..MOST {
        if left == 0 {
            break;
        }
        let Some(place) = (left % base).checked_sub(1) else {
            return Ok(None);
        };
        let Some(thing) = things.get(place) else {
            return Ok(None);
        };
        list.push(*thing)?;
        left /= base;
    }
    Ok(Some(list))
}
