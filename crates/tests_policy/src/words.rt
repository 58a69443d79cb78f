use jground::jtext::Units;
use std::alloc::{AllocError, Global};
use tests_rows::{Answer, Unread, string_of, unquoted};

/// The units of the text that is spelled so.
pub fn units_of(alloc: Global, text: &str) -> Result<Units, Unread> {
    let text = string_of(alloc, text)?;
    Ok(Units::from_text(alloc, text.as_str())?)
}

/// The text of a field, or none for `-`.
pub fn units_if(alloc: Global, field: &str) -> Result<Option<Units>, Unread> {
    match field {
        "-" => Ok(None),
        text => Ok(Some(units_of(alloc, unquoted(text)?)?)),
    }
}

/// Puts an item behind a list.
pub fn put<T: Drop>(item: T, list: &mut Vec<T>) -> Result<(), AllocError> {
    Ok(list.push(item)?)
}

/// Tells units between quotes.
pub fn tell_units(units: &[u16], answer: &mut Answer) {
    answer.tell("'");
    answer.units(units);
    answer.tell("'");
}
