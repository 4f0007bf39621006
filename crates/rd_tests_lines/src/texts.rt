//! Texts as lists of characters.
use rd_base::{Ch, ListOf, Memory};
use std::alloc::Global;

/// Adds the characters of a text.
fn add_characters(list: &mut ListOf<Ch>, text: &str) -> Result<(), Memory> {
    for c in text.chars() {
        list.push(Ch::scalar(c))?;
    }
    Ok(())
}

/// The characters of a text.
pub fn characters(alloc: Global, text: &str) -> Result<ListOf<Ch>, Memory> {
    let mut list = ListOf::new(alloc);
    add_characters(&mut list, text)?;
    Ok(list)
}
