//! The policy of a warehouse: which attributes its dimensions have and how each follows its changes; the
//! records that a source sends; and the formats of a warehouse.
#![tactic(auto)]

mod attribute;
mod dimension;
mod document;
mod fault;
mod format;
mod holidays;
pub mod laws;
mod names;
mod place;
mod policy;
mod record;
mod type_rule;
mod years;

pub use attribute::{Attribute, AttributeType, Attributes, Dim};
pub use dimension::{MOST_ATTRIBUTES, NAME_LIMIT};
pub use document::POLICY_LIMIT;
pub use fault::PolicyFault;
pub use format::Format;
pub use place::{Place, PlacedFault};
pub use policy::{Policy, Years};
pub use record::{DimensionRecord, SaleRecord, VoidRecord};
pub use type_rule::{MainColumn, ProfilePart, SecondColumn, TypeRule, ValuePlace};
pub use years::{FIRST_YEAR, LAST_YEAR, MOST_YEARS};
