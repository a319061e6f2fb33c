//! Bytes as digits.
use crate::row_error::RowError;

// Appends the bytes of these digits in hexadecimal, two a byte, with blanks and new lines between.
pub(crate) fn put_digits(bytes: &mut Vec<u8>, digits: &str) -> Result<(), RowError> {
    for word in digits.split_ascii_whitespace() {
        for pair in word.as_bytes().chunks(2) {
            bytes.extend_from_slice(&[byte_of(pair)?])?;
        }
    }
    Ok(())
}

// Puts what a word spells, as `20:00000A00`, into this header segment: a place, a colon, and the digits from there on.
pub(crate) fn change(header: &mut [u8], word: &str) -> Result<(), RowError> {
    let (place, digits) = word.split_once(':').ok_or(RowError::Word)?;
    let mut place = number_of(place)?;
    for pair in digits.as_bytes().chunks(2) {
        *header.get_mut(place).ok_or(RowError::Outside)? = byte_of(pair)?;
        place = place.wrapping_add(1);
    }
    Ok(())
}

// The number of these decimal digits.
pub(crate) fn number_of(text: &str) -> Result<usize, RowError> {
    match text.parse() {
        Ok(number) => Ok(number),
        Err(_) => Err(RowError::Digits),
    }
}

// The byte of two digits.
fn byte_of(pair: &[u8]) -> Result<u8, RowError> {
    let high = digit_of(pair.get(0))?;
    let low = digit_of(pair.get(1))?;
    Ok(high.wrapping_mul(16) | low)
}

// The value of a digit in hexadecimal.
fn digit_of(c: Option<&u8>) -> Result<u8, RowError> {
    match c {
        Some(c @ b'0'..=b'9') => Ok(*c - b'0'),
        Some(c @ b'A'..=b'F') => Ok(*c - b'A' + 10),
        _ => Err(RowError::Digits),
    }
}
