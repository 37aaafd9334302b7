//! What a type says of its attributes: the columns of the table of types.

/// What the rows of a member show in the main column of an attribute's slot.
#[derive(Clone, Copy, Debug, PartialEq, Eq)]
pub enum MainColumn {
    /// The original value, on every row.
    Original,
    /// The value on the row's first day: a change of it begins a row.
    FirstDay,
    /// The latest value, on every row.
    Latest,
    /// Nothing.
    Nothing,
}

/// What they show in its second column, on every row.
#[derive(Clone, Copy, Debug, PartialEq, Eq)]
pub enum SecondColumn {
    /// Nothing.
    Nothing,
    /// The newest value that isn't the latest.
    Prior,
    /// The latest value.
    Latest,
}

/// Whether the attribute is a part of the profile.
#[derive(Clone, Copy, Debug, PartialEq, Eq)]
pub enum ProfilePart {
    /// It is none.
    NoPart,
    /// It is one.
    Part,
    /// It is one, and each row of the dimension names the newest profile.
    PartAndNewest,
}

/// Where the value for a sale is found.
#[derive(Clone, Copy, Debug, PartialEq, Eq)]
pub enum ValuePlace {
    /// In the main column of the row of its surrogate key.
    Main,
    /// In the second column of that row.
    Second,
    /// In the main column of the current row of its durable key.
    CurrentMain,
    /// In the profile of the sale.
    SaleProfile,
    /// In the profile that the current row of its durable key names.
    NewestProfile,
}

/// What a type says of its attributes: a row of the table of types.
#[derive(Clone, Copy, Debug, PartialEq, Eq)]
pub struct TypeRule {
    /// The number of the type.
    pub number: u8,
    /// The main column.
    pub main: MainColumn,
    /// The second column.
    pub second: SecondColumn,
    /// Its part of the profile.
    pub profile: ProfilePart,
    /// Where a sale finds the value as it was on the day of sale, if the type answers that.
    pub was: Option<ValuePlace>,
    /// As it is now.
    pub is_now: Option<ValuePlace>,
    /// And as it was before.
    pub prior: Option<ValuePlace>,
}
