//! The formats of a warehouse.

ghost use Rattle.std.specs.Prelude.{◌≡◌};
ghost use Rattle.wh_policy.specs.Formats.{format_number};

/// A format of a warehouse: of ten tables, or of twelve, whose sales have a discount and whose lines may be withdrawn.
#[derive(Clone, Copy, Debug, PartialEq, Eq)]
pub enum Format {
    /// Format 1, of ten tables.
    One,
    /// Format 2, of twelve: fact2 and void come with it.
    Two,
}

impl Format {
    ghost use Rattle.wh_policy.specs.declared.format.Format.{Format};

    /// Its number, which meta keeps.
    pub fn number(self) -> u64
        ensures { result ≡ format_number self }
    {
        match self {
            Format::One => 1,
            Format::Two => 2,
        }
    }
}
