//! What is wrong with a policy.

use thiserror::Error;

/// The first fault of a policy file.
#[derive(Clone, Copy, Debug, PartialEq, Eq, Error)]
pub enum PolicyFault {
    /// The file has more than 65,536 bytes, isn't UTF-8, or isn't a TOML text.
    #[error("the file is not a TOML text of up to 65,536 bytes")]
    NotToml,
    /// A key that has to be there isn't, or a dimension isn't an array of one or more tables.
    #[error("a key is missing, or a dimension has no attribute")]
    Missing,
    /// A table has a key that has no meaning there.
    #[error("a table has a key that has no meaning there")]
    UnknownKey,
    /// The name of an attribute isn't a string of 1 to 24 bytes: a lower-case letter and then lower-case letters, digits
    /// or `_`; or it is `id` or `day`.
    #[error("an attribute has no valid name")]
    BadName,
    /// The type of an attribute isn't an integer from 0 to 7.
    #[error("the type of an attribute is not an integer from 0 to 7")]
    BadType,
    /// A dimension has more than six attributes.
    #[error("a dimension has more than six attributes")]
    TooMany,
    /// Two attributes of a dimension have one name.
    #[error("two attributes of a dimension have one name")]
    NamedTwice,
    /// An attribute of type 4 or 5 stands in a dimension without a profile: product or store.
    #[error("an attribute of type 4 or 5 stands in product or store")]
    ProfileOutside,
    /// Customer has attributes of types 4 and 5 side by side.
    #[error("customer has attributes of types 4 and 5 side by side")]
    ProfileMixed,
    /// The years aren't integers from 1900 to 2199, the first not after the last, and at most 30 of them.
    #[error("the years are not up to 30 years within 1900 to 2199")]
    BadYears,
    /// The holidays aren't an array of tables, or one of them isn't a real day within the years with a name of at least one
    /// byte, or stands on the day of another.
    #[error("a holiday is not a named day within the years, or stands on the day of another")]
    BadHoliday,
}
