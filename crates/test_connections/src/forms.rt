//! Rows that are alike but for some parts.
use crate::digits::number_of;
use crate::row_error::RowError;
use std::alloc::Global;

/// The text of a form, filled with a line of parts between semicolons: in place of `[0]` stands the first of them, in place of `[1]` the
/// second, and so on; of a part that is not there nothing. The form has a place for the last one.
pub fn filled(alloc: Global, form: &str, parts: &str) -> Result<String, RowError> {
    let mut text = String::new(alloc);
    let mut last: usize = 0;
    for (at, piece) in form.split(['[', ']']).enumerate() {
        if at % 2 == 0 {
            text.push_str(piece)?;
        } else {
            let place = number_of(piece)?;
            text.push_str(parts.split(';').nth(place).unwrap_or("").trim())?;
            last = last.max(place);
        }
    }
    match parts.split(';').nth(last.wrapping_add(1)) {
        Some(_) => Err(RowError::Word),
        None => Ok(text),
    }
}
