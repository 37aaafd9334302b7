//! What a report can be asked by, and what it shows of it.

ghost use Rattle.std.specs.Prelude.{◌≡◌, option_map};
ghost use Rattle.wh_report.specs.Subject.{after, attribute_in, subject_in, main_reading, second_reading, current_reading, profile_reading, newest_reading, place_reading, mode_place, type_reading, reading_of};

use wh_batch::Mode;
use wh_policy::{
    AttributeType, Dim, MainColumn, Policy, ProfilePart, SecondColumn, TypeRule, ValuePlace,
};

/// Which of a member's values a reading shows.
#[derive(Clone, Copy, Debug, PartialEq, Eq)]
pub enum Reading {
    /// The value in the record that is in force on the day of sale.
    AtSaleDay,
    /// The value in the record of the greatest day.
    Latest,
    /// The first value that was given.
    Original,
    /// The newest value that isn't the latest.
    PriorValue,
}

/// An attribute of a dimension under a policy.
#[derive(Clone, Copy, Debug, PartialEq, Eq)]
pub struct SlotAttribute {
    /// The dimension.
    pub dim: Dim,
    /// Its place among the dimension's slots, from 0.
    pub place: usize,
    /// Its type.
    pub kind: AttributeType,
}

/// What the labels of sales are taken from.
#[derive(Clone, Copy, Debug, PartialEq, Eq)]
pub enum Subject {
    /// An attribute of the product, the store or the customer of a sale.
    Attribute(SlotAttribute),
    /// The month of the day of sale.
    Month,
    /// The holiday on the day of sale.
    Holiday,
}

/// Which of a member's values the main column of a row shows, if it shows one.
fn main_reading(column: MainColumn) -> Option<Reading>
    ensures { result ≡ main_reading column }
{
    match column {
        MainColumn::Original => Some(Reading::Original),
        MainColumn::FirstDay => Some(Reading::AtSaleDay),
        MainColumn::Latest => Some(Reading::Latest),
        MainColumn::Nothing => None,
    }
}

/// And the second one.
fn second_reading(column: SecondColumn) -> Option<Reading>
    ensures { result ≡ second_reading column }
{
    match column {
        SecondColumn::Nothing => None,
        SecondColumn::Prior => Some(Reading::PriorValue),
        SecondColumn::Latest => Some(Reading::Latest),
    }
}

/// The value on the first day of a current row is the latest.
fn current_reading(column: MainColumn) -> Option<Reading>
    ensures { result ≡ current_reading column }
{
    match column {
        MainColumn::FirstDay => Some(Reading::Latest),
        MainColumn::Original | MainColumn::Latest | MainColumn::Nothing => None,
    }
}

/// What the profile of a sale shows.
fn profile_reading(part: ProfilePart) -> Option<Reading>
    ensures { result ≡ profile_reading part }
{
    match part {
        ProfilePart::NoPart => None,
        ProfilePart::Part | ProfilePart::PartAndNewest => Some(Reading::AtSaleDay),
    }
}

/// And the newest one of its customer.
fn newest_reading(part: ProfilePart) -> Option<Reading>
    ensures { result ≡ newest_reading part }
{
    match part {
        ProfilePart::NoPart | ProfilePart::Part => None,
        ProfilePart::PartAndNewest => Some(Reading::Latest),
    }
}

/// What a sale finds at a place.
fn place_reading(rule: TypeRule, place: ValuePlace) -> Option<Reading>
    ensures { result ≡ place_reading rule place }
{
    match place {
        ValuePlace::Main => main_reading(rule.main),
        ValuePlace::Second => second_reading(rule.second),
        ValuePlace::CurrentMain => current_reading(rule.main),
        ValuePlace::SaleProfile => profile_reading(rule.profile),
        ValuePlace::NewestProfile => newest_reading(rule.profile),
    }
}

/// The place where a mode looks, if the type answers it.
fn mode_place(rule: TypeRule, mode: Mode) -> Option<ValuePlace>
    ensures { result ≡ mode_place rule mode }
{
    match mode {
        Mode::Was => rule.was,
        Mode::Is => rule.is_now,
        Mode::Prior => rule.prior,
    }
}

/// What is shown in a mode of an attribute of a type, if the type has this reading.
fn type_reading(kind: AttributeType, mode: Mode) -> Option<Reading>
    ensures { result ≡ type_reading kind mode }
{
    let rule = kind.rule();
    match mode_place(rule, mode) {
        Some(place) => place_reading(rule, place),
        None => None,
    }
}

/// What is shown of a subject in a mode, if it has this reading. Of a day there is one value, the day of sale's.
pub fn reading_of(subject: Subject, mode: Mode) -> Option<Reading>
    ensures { result ≡ reading_of subject mode }
{
    match subject {
        Subject::Attribute(attribute) => type_reading(attribute.kind, mode),
        Subject::Month | Subject::Holiday => match mode {
            Mode::Was | Mode::Is => Some(Reading::AtSaleDay),
            Mode::Prior => None,
        },
    }
}

/// What follows the prefix, if the text begins with it.
fn after<'a>(text: &'a str, prefix: &str) -> Option<&'a str>
    ensures { option_map (λ t. t.now) result ≡ after prefix.now text.now }
{
    text.strip_prefix(prefix)
}

fn attribute_in(policy: &Policy, dim: Dim, name: &str) -> Option<Subject>
    ensures { result ≡ attribute_in policy.now dim name.now }
{
    let (slot, number) = policy.attribute(dim, name)?;
    let kind = AttributeType::from_number(number as i64)?;
    Some(Subject::Attribute(SlotAttribute {
        dim,
        place: slot.saturating_sub(1),
        kind,
    }))
}

/// What the words name under a policy: `product.NAME`, `store.NAME`, `customer.NAME`, `date.month` or `date.holiday`.
#[tactic(auto, unfolding(crate::specs::Subject::subject_in))]
pub fn subject_in(policy: &Policy, words: &str) -> Option<Subject>
    ensures { result ≡ subject_in policy.now words.now }
{
    if words == "date.month" {
        return Some(Subject::Month);
    }
    if words == "date.holiday" {
        return Some(Subject::Holiday);
    }
    if let Some(name) = after(words, "product.") {
        return attribute_in(policy, Dim::Product, name);
    }
    if let Some(name) = after(words, "store.") {
        return attribute_in(policy, Dim::Store, name);
    }
    if let Some(name) = after(words, "customer.") {
        return attribute_in(policy, Dim::Customer, name);
    }
    None
}
