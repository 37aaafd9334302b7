//! The policy that most scenarios are written under, and what is made of it.

use std::alloc::{AllocError, Global};

/// The text of examples/flat.toml: six attributes of a product, each of another type, one of a store and one of a customer.
pub const FLAT: &str = r#"first_year = 2023
last_year = 2026
[[product]]
name = "description"
type = 1
[[product]]
name = "brand"
type = 2
[[product]]
name = "category"
type = 6
[[product]]
name = "department"
type = 7
[[product]]
name = "launched"
type = 0
[[product]]
name = "supplier"
type = 3
[[store]]
name = "city"
type = 2
[[customer]]
name = "tier"
type = 2
[[holiday]]
day = "2024-12-25"
name = "Christmas Day"
"#;

/// A text with one in another's place.
fn changed(alloc: Global, text: &str, change: &str) -> Result<String, AllocError> {
    let (from, to) = change.split_once("->").unwrap_or(("", ""));
    let from = from.trim().replace(alloc, "|", "\n")?;
    let to = to.trim().replace(alloc, "|", "\n")?;
    text.replace(alloc, from.as_str(), to.as_str())
}

/// [`FLAT`] with CHANGES: a text, `->` and the text in its place, and further changes after ` and `; `|` stands for the end of a line.
pub fn changed_flat(alloc: Global, changes: &str) -> Result<String, AllocError> {
    let mut text = String::from_str(alloc, FLAT)?;
    for change in changes.split(" and ") {
        text = changed(alloc, text.as_str(), change)?;
    }
    Ok(text)
}
