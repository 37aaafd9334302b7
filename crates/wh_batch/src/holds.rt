//! What the fields of a batch hold.

/// What the fields of a column hold.
#[derive(Clone, Copy, Debug, PartialEq, Eq)]
pub enum Holds {
    /// A key: one up to 20 letters, digits, `-`, `_` and `.`.
    Ticket,
    /// A key of one up to 32 of these.
    Key,
    /// Such a key, or nothing: a sale without a card.
    CustomerKey,
    /// A day, written `YYYY-MM-DD`. The calendar has to have it too, which is no matter of the column.
    Day,
    /// A day up to 2199-12-31, from which on a member's values hold.
    EffectiveDay,
    /// Up to 60 bytes of text without control characters and without a parenthesis first; nothing stands for a missing value.
    Value,
    /// The number of a line on its ticket, 1 to 9999.
    Line,
    /// Up to four digits, with a minus in front or without.
    Quantity,
    /// Optionally a minus, then up to seven digits, then perhaps a point and one or two digits.
    Amount,
    /// As an amount, without a sign.
    Discount,
}
