//! The policies of scenarios of the engine, by name.

use crate::FLAT;

/// The policy of this name; any other text is none.
pub fn policy(name: &str) -> &'static str {
    match name {
        "flat" => FLAT,
        "bands-of-rows" => BANDS_OF_ROWS,
        "bands-of-facts" => BANDS_OF_FACTS,
        "brand-overwritten" => BRAND_OVERWRITTEN,
        "brand-exchanged" => BRAND_EXCHANGED,
        "age-overwritten" => AGE_OVERWRITTEN,
        "region-and-2027" => REGION_AND_2027,
        "holiday-moved" => HOLIDAY_MOVED,
        "one-more-each" => ONE_MORE_EACH,
        "later-years" => LATER_YEARS,
        "small" => SMALL,
        "small-overwritten" => SMALL_OVERWRITTEN,
        "bad-type" => BAD_TYPE,
        _ => "",
    }
}

/// [`FLAT`] with demographic bands of customers, where a customer's rows name the latest profile.
const BANDS_OF_ROWS: &str = r#"first_year = 2023
last_year = 2026
[[product]]
name = "description"
type = 1
[[product]]
name = "brand"
type = 2
[[product]]
name = "category"
type = 6
[[product]]
name = "department"
type = 7
[[product]]
name = "launched"
type = 0
[[product]]
name = "supplier"
type = 3
[[store]]
name = "city"
type = 2
[[customer]]
name = "tier"
type = 2
[[holiday]]
day = "2024-12-25"
name = "Christmas Day"
[[customer]]
name = "age_band"
type = 5
[[customer]]
name = "spend_band"
type = 5
"#;

/// The same bands, where facts alone name a profile.
const BANDS_OF_FACTS: &str = r#"first_year = 2023
last_year = 2026
[[product]]
name = "description"
type = 1
[[product]]
name = "brand"
type = 2
[[product]]
name = "category"
type = 6
[[product]]
name = "department"
type = 7
[[product]]
name = "launched"
type = 0
[[product]]
name = "supplier"
type = 3
[[store]]
name = "city"
type = 2
[[customer]]
name = "tier"
type = 2
[[holiday]]
day = "2024-12-25"
name = "Christmas Day"
[[customer]]
name = "age_band"
type = 4
[[customer]]
name = "spend_band"
type = 4
"#;

/// [`BANDS_OF_ROWS`] with the brand overwritten.
const BRAND_OVERWRITTEN: &str = r#"first_year = 2023
last_year = 2026
product = [
    { name = "description", type = 1 },
    { name = "brand", type = 1 },
    { name = "category", type = 6 },
    { name = "department", type = 7 },
    { name = "launched", type = 0 },
    { name = "supplier", type = 3 },
]
store = [
    { name = "city", type = 2 },
]
customer = [
    { name = "tier", type = 2 },
    { name = "age_band", type = 5 },
    { name = "spend_band", type = 5 },
]
[[holiday]]
day = "2024-12-25"
name = "Christmas Day"
"#;

/// [`BANDS_OF_ROWS`] with brand and category in each other's place.
const BRAND_EXCHANGED: &str = r#"first_year = 2023
last_year = 2026
product = [
    { name = "description", type = 1 },
    { name = "category", type = 6 },
    { name = "brand", type = 2 },
    { name = "department", type = 7 },
    { name = "launched", type = 0 },
    { name = "supplier", type = 3 },
]
store = [
    { name = "city", type = 2 },
]
customer = [
    { name = "tier", type = 2 },
    { name = "age_band", type = 5 },
    { name = "spend_band", type = 5 },
]
[[holiday]]
day = "2024-12-25"
name = "Christmas Day"
"#;

/// [`BANDS_OF_ROWS`] with the age band overwritten, and no longer in profiles.
const AGE_OVERWRITTEN: &str = r#"first_year = 2023
last_year = 2026
product = [
    { name = "description", type = 1 },
    { name = "brand", type = 2 },
    { name = "category", type = 6 },
    { name = "department", type = 7 },
    { name = "launched", type = 0 },
    { name = "supplier", type = 3 },
]
store = [
    { name = "city", type = 2 },
]
customer = [
    { name = "tier", type = 2 },
    { name = "age_band", type = 1 },
    { name = "spend_band", type = 5 },
]
[[holiday]]
day = "2024-12-25"
name = "Christmas Day"
"#;

/// [`BRAND_OVERWRITTEN`] with a region of stores, and one more year.
const REGION_AND_2027: &str = r#"first_year = 2023
last_year = 2027
product = [
    { name = "description", type = 1 },
    { name = "brand", type = 1 },
    { name = "category", type = 6 },
    { name = "department", type = 7 },
    { name = "launched", type = 0 },
    { name = "supplier", type = 3 },
]
store = [
    { name = "city", type = 2 },
    { name = "region", type = 1 },
]
customer = [
    { name = "tier", type = 2 },
    { name = "age_band", type = 5 },
    { name = "spend_band", type = 5 },
]
[[holiday]]
day = "2024-12-25"
name = "Christmas Day"
"#;

/// [`BANDS_OF_ROWS`] with Christmas on another day.
const HOLIDAY_MOVED: &str = r#"first_year = 2023
last_year = 2026
product = [
    { name = "description", type = 1 },
    { name = "brand", type = 2 },
    { name = "category", type = 6 },
    { name = "department", type = 7 },
    { name = "launched", type = 0 },
    { name = "supplier", type = 3 },
]
store = [
    { name = "city", type = 2 },
]
customer = [
    { name = "tier", type = 2 },
    { name = "age_band", type = 5 },
    { name = "spend_band", type = 5 },
]
[[holiday]]
day = "2024-12-26"
name = "Christmas Day"
"#;

/// [`SMALL`] with one more attribute each.
const ONE_MORE_EACH: &str = r#"first_year = 2024
last_year = 2024
product = [{ name = "brand", type = 2 }, { name = "supplier", type = 2 }]
store = [{ name = "city", type = 2 }, { name = "region", type = 3 }]
customer = [{ name = "tier", type = 2 }, { name = "age_band", type = 4 }]
"#;

/// [`SMALL`] without its only year.
const LATER_YEARS: &str = r#"first_year = 2025
last_year = 2026
product = [{ name = "brand", type = 2 }]
store = [{ name = "city", type = 2 }]
customer = [{ name = "tier", type = 2 }]
"#;

/// [`SMALL`] with the brand overwritten.
const SMALL_OVERWRITTEN: &str = r#"first_year = 2024
last_year = 2024
product = [{ name = "brand", type = 1 }]
store = [{ name = "city", type = 2 }]
customer = [{ name = "tier", type = 2 }]
"#;

/// One attribute each, and one year.
const SMALL: &str = r#"first_year = 2024
last_year = 2024
[[product]]
name = "brand"
type = 2
[[store]]
name = "city"
type = 2
[[customer]]
name = "tier"
type = 2
"#;

/// An attribute of a type that there isn't.
const BAD_TYPE: &str = r#"first_year = 2023
last_year = 2026
[[product]]
name = "description"
type = 8
[[store]]
name = "city"
type = 2
[[customer]]
name = "tier"
type = 2
"#;
