//! Dimensions, their attributes and the types of slowly changing attributes.

ghost use Rattle.std.specs.Prelude.{◌≡◌, ◌++◌, ◌∷◌, [], map, IfOk, OnOk, OnErr};
ghost use Rattle.wh_policy.specs.Types.{rule, is_tracked, is_profile, is_mini, is_outrigger, attribute_type_number, attribute_type_of_number, kinds_of};
ghost use Rattle.wh_policy.specs.Words.{dim_word, dim_of_word};

use crate::type_rule::{MainColumn, ProfilePart, SecondColumn, TypeRule, ValuePlace};
use std::alloc::{AllocError, Global};
use std::marker::Model;
use wh_day::Value;

/// A dimension that has members. The calendar, which has none, isn't among them.
#[derive(Clone, Copy, Debug, PartialEq, Eq)]
pub enum Dim {
    /// What is sold.
    Product,
    /// Where it is sold.
    Store,
    /// Who owns the card. It alone has a profile.
    Customer,
}

impl Dim {
    /// The word for it, in policies, in commands and in print.
    pub fn word(self) -> &'static str
        ensures { result.now ≡ dim_word self }
    {
        match self {
            Dim::Product => "product",
            Dim::Store => "store",
            Dim::Customer => "customer",
        }
    }

    /// The dimension of a word, if it is the word for one.
    pub fn from_word(word: &str) -> Option<Dim>
        ensures { result ≡ dim_of_word word.now }
    {
        match word {
            "product" => Some(Dim::Product),
            "store" => Some(Dim::Store),
            "customer" => Some(Dim::Customer),
            _ => None,
        }
    }
}

/// How an attribute follows its changes: types 0 to 7 of slowly changing dimensions, in their order.
///
/// Kimball & Ross, *The Data Warehouse Toolkit*, 3rd edition, chapter 5, "Slowly Changing Dimension Basics" and
/// "Hybrid Slowly Changing Dimension Techniques".
#[derive(Clone, Copy, Debug, PartialEq, Eq)]
pub enum AttributeType {
    /// Type 0: the first value that was given stays.
    RetainOriginal,
    /// Type 1: every row shows the newest value.
    Overwrite,
    /// Type 2: a change begins a row.
    NewRow,
    /// Type 3: every row shows the newest value, and the one before it in a second column.
    NewAttribute,
    /// Type 4: a part of the customer's profile, which stands in a table of its own.
    MiniDimension,
    /// Type 5: as type 4, and each row of the customer names the newest profile.
    MiniDimensionOutrigger,
    /// Type 6: as type 2, with the newest value in a second column of every row.
    NewRowAndOverwrite,
    /// Type 7: as type 2; the newest value is found through the durable key.
    DualKeys,
}

// The table of types, a row each.

const RETAIN_ORIGINAL: TypeRule = TypeRule {
    number: 0,
    main: MainColumn::Original,
    second: SecondColumn::Nothing,
    profile: ProfilePart::NoPart,
    was: Some(ValuePlace::Main),
    is_now: Some(ValuePlace::Main),
    prior: None,
};

const OVERWRITE: TypeRule = TypeRule {
    number: 1,
    main: MainColumn::Latest,
    second: SecondColumn::Nothing,
    profile: ProfilePart::NoPart,
    was: Some(ValuePlace::Main),
    is_now: Some(ValuePlace::Main),
    prior: None,
};

const NEW_ROW: TypeRule = TypeRule {
    number: 2,
    main: MainColumn::FirstDay,
    second: SecondColumn::Nothing,
    profile: ProfilePart::NoPart,
    was: Some(ValuePlace::Main),
    is_now: None,
    prior: None,
};

const NEW_ATTRIBUTE: TypeRule = TypeRule {
    number: 3,
    main: MainColumn::Latest,
    second: SecondColumn::Prior,
    profile: ProfilePart::NoPart,
    was: None,
    is_now: Some(ValuePlace::Main),
    prior: Some(ValuePlace::Second),
};

const MINI_DIMENSION: TypeRule = TypeRule {
    number: 4,
    main: MainColumn::Nothing,
    second: SecondColumn::Nothing,
    profile: ProfilePart::Part,
    was: Some(ValuePlace::SaleProfile),
    is_now: None,
    prior: None,
};

const MINI_DIMENSION_OUTRIGGER: TypeRule = TypeRule {
    number: 5,
    main: MainColumn::Nothing,
    second: SecondColumn::Nothing,
    profile: ProfilePart::PartAndNewest,
    was: Some(ValuePlace::SaleProfile),
    is_now: Some(ValuePlace::NewestProfile),
    prior: None,
};

const NEW_ROW_AND_OVERWRITE: TypeRule = TypeRule {
    number: 6,
    main: MainColumn::FirstDay,
    second: SecondColumn::Latest,
    profile: ProfilePart::NoPart,
    was: Some(ValuePlace::Main),
    is_now: Some(ValuePlace::Second),
    prior: None,
};

const DUAL_KEYS: TypeRule = TypeRule {
    number: 7,
    main: MainColumn::FirstDay,
    second: SecondColumn::Nothing,
    profile: ProfilePart::NoPart,
    was: Some(ValuePlace::Main),
    is_now: Some(ValuePlace::CurrentMain),
    prior: None,
};

impl AttributeType {
    /// What it says of its attributes.
    pub fn rule(self) -> TypeRule
        ensures { result ≡ rule self }
    {
        match self {
            AttributeType::RetainOriginal => RETAIN_ORIGINAL,
            AttributeType::Overwrite => OVERWRITE,
            AttributeType::NewRow => NEW_ROW,
            AttributeType::NewAttribute => NEW_ATTRIBUTE,
            AttributeType::MiniDimension => MINI_DIMENSION,
            AttributeType::MiniDimensionOutrigger => MINI_DIMENSION_OUTRIGGER,
            AttributeType::NewRowAndOverwrite => NEW_ROW_AND_OVERWRITE,
            AttributeType::DualKeys => DUAL_KEYS,
        }
    }

    /// Its number, 0 to 7.
    pub fn number(self) -> u8
        ensures { result ≡ attribute_type_number self }
    {
        self.rule().number
    }

    /// The type of a number, 0 to 7; `None` for any other number.
    pub fn from_number(number: i64) -> Option<AttributeType>
        ensures { result ≡ attribute_type_of_number number }
    {
        match number {
            0 => Some(AttributeType::RetainOriginal),
            1 => Some(AttributeType::Overwrite),
            2 => Some(AttributeType::NewRow),
            3 => Some(AttributeType::NewAttribute),
            4 => Some(AttributeType::MiniDimension),
            5 => Some(AttributeType::MiniDimensionOutrigger),
            6 => Some(AttributeType::NewRowAndOverwrite),
            7 => Some(AttributeType::DualKeys),
            _ => None,
        }
    }

    /// Whether a change of the attribute begins a row: its main column shows the value on the row's first day.
    pub fn is_tracked(self) -> bool
        ensures { result ≡ is_tracked self }
    {
        matches!(self.rule().main, MainColumn::FirstDay)
    }

    /// Whether the attribute is a part of the profile.
    pub fn is_profile(self) -> bool
        ensures { result ≡ is_profile self }
    {
        !matches!(self.rule().profile, ProfilePart::NoPart)
    }

    /// Whether it is one whose number the rows of the dimension don't show.
    pub fn is_mini(self) -> bool
        ensures { result ≡ is_mini self }
    {
        matches!(self.rule().profile, ProfilePart::Part)
    }

    /// Whether the rows of the dimension name the newest profile for it.
    pub fn is_outrigger(self) -> bool
        ensures { result ≡ is_outrigger self }
    {
        matches!(self.rule().profile, ProfilePart::PartAndNewest)
    }
}

/// An attribute of a dimension.
#[derive(Debug, Drop)]
pub struct Attribute {
    /// Its name in policies, batch headers and reports: 1 to 24 bytes in a policy that was read.
    pub name: Value,
    /// How it follows its changes.
    pub kind: AttributeType,
}

/// The attributes of a dimension by slot, from the first. A contract sees the list.
#[derive(Debug, Drop)]
pub struct Attributes {
    list: Vec<Attribute>,
}

impl Model for Attributes {
    ghost use Rattle.std.specs.Prelude.{List};
    ghost use Rattle.wh_policy.specs.declared.attribute.Attribute.{Attribute};

    ghost Value = { List Attribute };

    ghost view = { λ a. a.list.items };
}

impl Attributes {
    /// No attribute yet.
    pub fn new(alloc: Global) -> Attributes
        ensures { result ≡ [] }
    {
        Attributes {
            list: Vec::new(alloc),
        }
    }

    /// The attributes in the order of their slots.
    pub fn as_slice(&self) -> &[Attribute]
        ensures { result.now ≡ self.now }
    {
        self.list.as_slice()
    }

    /// Adds the attribute of the next slot. After an `Err` the attributes are those before.
    pub fn push(&mut self, attribute: Attribute) -> Result<(), AllocError>
        ensures ok { OnOk result (self.new ≡ self.old ++ attribute ∷ []) }
        ensures err { OnErr result (self.new ≡ self.old) }
    {
        self.list.push(attribute)?;
        Ok(())
    }

    /// The types by slot. The error comes where memory ran out.
    pub fn types(&self, alloc: Global) -> Result<Vec<AttributeType>, AllocError>
        ensures { IfOk result (λ types. types.items ≡ kinds_of self.now) }
    {
        kinds_of(alloc, self.as_slice())
    }
}

fn kinds_of(alloc: Global, attributes: &[Attribute]) -> Result<Vec<AttributeType>, AllocError>
    ensures { IfOk result (λ types. types.items ≡ kinds_of attributes.now) }
{
    attributes
        .iter()
        .map(|attribute| attribute.kind)
        .collect(alloc)
}
