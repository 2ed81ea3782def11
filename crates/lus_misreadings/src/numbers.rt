//! Numbers as other languages write them.

use std::alloc::{AllocError, Global};

/// How many zeros a power of ten has at most.
const MOST_ZEROS: i64 = 18;

/// A number with so many zeros behind it.
fn with_zeros(number: i64, zeros: i64) -> Option<i64> {
    if zeros > MOST_ZEROS {
        return None;
    }
    let mut product = number;
    for _zero in 0..zeros {
        product = product.checked_mul(10)?;
    }
    Some(product)
}

/// The number that decimal digits spell.
fn decimal(digits: &str) -> Option<i64> {
    i64::from_str_radix(digits, 10).ok()
}

/// The number that digits in small letters spell, behind the sign of their base or before a power of ten.
fn spelt(text: &str) -> Option<i64> {
    if let Some(digits) = text.strip_prefix("0x") {
        return i64::from_str_radix(digits, 16).ok();
    }
    if let Some(digits) = text.strip_prefix("0b") {
        return i64::from_str_radix(digits, 2).ok();
    }
    match text.split_once('e') {
        Some((digits, zeros)) => with_zeros(decimal(digits)?, decimal(zeros)?),
        None => decimal(text),
    }
}

/// The number that a text spells with a base, a power of ten or signs between digits, if it is one of the language.
pub fn number_of(alloc: Global, text: &str) -> Result<Option<i64>, AllocError> {
    let mut digits = String::new(alloc);
    for part in text.split('_') {
        digits.push_str(part)?;
    }
    digits.make_ascii_lowercase();
    Ok(spelt(digits.as_str()))
}
