//! The policy of a warehouse.

ghost use Rattle.std.specs.Prelude.{◌≡◌, ◌++◌, ◌∷◌, [], IfOk, OnOk};
ghost use Rattle.toml.specs.View.{table_view};
ghost use Rattle.wh_day.specs.Reading.{Gives};
ghost use Rattle.wh_policy.specs.Names.{slot_from, fits};
ghost use Rattle.wh_policy.specs.Policy.{policy_attributes, policy_types, trial_policy, described, policy_of_table, read_policy};
ghost use Rattle.wh_policy.specs.Years.{is_within, first_key, end_key};

use crate::attribute::{Attribute, AttributeType, Attributes, Dim};
use crate::dimension;
use crate::document::{document_of, has_only, optional, required, unknown_in};
use crate::fault::PolicyFault;
use crate::holidays::holidays_of;
use crate::names::{are_kept, slot_from};
use crate::place::{Place, PlacedFault};
use crate::years::years_of;
use std::alloc::{AllocError, Global};
use std::ops::Range;
use toml::Table;
use wh_day::{Day, Holidays, ParseError, Value};

const TOP_KEYS: [&str; 6] = [
    "first_year",
    "last_year",
    "product",
    "store",
    "customer",
    "holiday",
];

/// The years of a calendar, from the first to the last.
#[derive(Clone, Copy, Debug, PartialEq, Eq)]
pub struct Years {
    /// The first year; 1900 to 2199 where [`Policy::read`] made it.
    pub first: u16,
    /// The last year, which is one of them.
    pub last: u16,
}

impl Years {
    /// Whether the day lies in them.
    pub fn contains(self, day: Day) -> bool
        ensures { result ≡ is_within self day }
    {
        let year = day.key() / 10_000;
        self.first as u32 <= year && year <= self.last as u32
    }

    /// The numbers YYYYMMDD from 1 January of the first year to 31 December of the last. Numbers between that are no day's key lie in them too.
    pub fn keys(self) -> Range<u32>
        ensures first { result.start ≡ first_key self }
        ensures end { result.end ≡ end_key self }
    {
        self.first as u32 * 10_000 + 101..self.last as u32 * 10_000 + 1_232
    }
}

/// Which attributes the dimensions have, by slot and with their types, and the calendar's years and holidays.
#[derive(Debug, Drop)]
pub struct Policy {
    /// The attributes of products, by slot.
    pub product: Attributes,
    /// The attributes of stores, by slot.
    pub store: Attributes,
    /// The attributes of customers, by slot. In a policy that was read, types 4 and 5 stand here alone, and not side by side.
    pub customer: Attributes,
    /// The years of the calendar.
    pub years: Years,
    /// The holidays of the calendar.
    pub holidays: Holidays,
}

fn add(
    alloc: Global,
    attributes: &mut Attributes,
    name: &str,
    kind: AttributeType,
) -> Result<(), AllocError>
    ensures { OnOk result (attributes.new ≡ attributes.old ++ described name.now kind ∷ []) }
{
    let name = Value::new(alloc, name)?;
    attributes.push(Attribute { name, kind })
}

impl Policy {
    /// The policy that the bytes of a file write: a TOML text of at most [`POLICY_LIMIT`](crate::POLICY_LIMIT) bytes, as docs/policies.md says.
    ///
    /// The fault is the first one in the order that stands there; [`ParseError::Memory`] where memory ran out.
    #[tactic(auto, unfolding(crate::specs::Policy::read_policy))]
    pub fn read(alloc: Global, bytes: &[u8]) -> Result<Policy, ParseError<PolicyFault>>
        ensures { Gives (λ policy. policy) result (read_policy bytes.now) }
    {
        let table = document_of(alloc, bytes)?;
        match Policy::of_table(alloc, &table) {
            Ok(policy) => Ok(policy),
            Err(ParseError::Fault(fault)) => Err(ParseError::Fault(fault.kind())),
            Err(ParseError::Memory) => Err(ParseError::Memory),
        }
    }

    /// The policy that the table of a file writes. The fault is the first one, as [`Policy::read`] answers it, with its place.
    #[tactic(auto, unfolding(crate::specs::Policy::policy_of_table))]
    pub fn of_table<'a>(
        alloc: Global,
        table: &'a Table,
    ) -> Result<Policy, ParseError<PlacedFault<'a>>>
        ensures { Gives (λ policy. policy) result (policy_of_table (table_view table.now)) }
    {
        let place = Place::of_file();
        if !has_only(table, &TOP_KEYS) {
            return Err(unknown_in(place, table, &TOP_KEYS).fault(PolicyFault::UnknownKey));
        }
        let first_year = required(place, table, "first_year")?;
        let last_year = required(place, table, "last_year")?;
        let product = required(place, table, "product")?;
        let store = required(place, table, "store")?;
        let customer = required(place, table, "customer")?;
        let product = dimension::attributes_of(alloc, Dim::Product, product)?;
        let store = dimension::attributes_of(alloc, Dim::Store, store)?;
        let customer = dimension::attributes_of(alloc, Dim::Customer, customer)?;
        if dimension::is_mixed(customer.as_slice()) {
            let place = dimension::place_of_mixed(customer.as_slice());
            return Err(place.fault(PolicyFault::ProfileMixed));
        }
        let years = years_of(first_year, last_year)?;
        let holidays = holidays_of(alloc, years, optional(table, "holiday"))?;
        Ok(Policy {
            product,
            store,
            customer,
            years,
            holidays,
        })
    }

    /// The slot, from 1, and the number of the type, 0 to 7, of the dimension's attribute with the name. Takes no memory.
    pub fn attribute(&self, dim: Dim, name: &str) -> Option<(usize, u8)>
        ensures { result ≡ slot_from 1 name.now (policy_attributes self.now dim) }
    {
        slot_from(self.attributes(dim), name)
    }

    /// Whether a newer policy may take this one's place: each dimension's names stand in the same slots, more may follow,
    /// and no year is lost. Types and holidays may change. Takes no memory.
    pub fn fits(&self, newer: &Policy) -> bool
        ensures { result ≡ fits self.now newer.now }
    {
        are_kept(self.product.as_slice(), newer.product.as_slice())
            && are_kept(self.store.as_slice(), newer.store.as_slice())
            && are_kept(self.customer.as_slice(), newer.customer.as_slice())
            && newer.years.first <= self.years.first
            && self.years.last <= newer.years.last
    }

    /// The policy of a trial that names none: product `description` of type 1 and `brand` of type 2, store `city` and
    /// customer `tier` of type 2, and the years 2023 to 2026 without a holiday.
    pub fn trial(alloc: Global) -> Result<Policy, AllocError>
        ensures { IfOk result (λ policy. policy ≡ trial_policy) }
    {
        let mut product = Attributes::new(alloc);
        add(alloc, &mut product, "description", AttributeType::Overwrite)?;
        add(alloc, &mut product, "brand", AttributeType::NewRow)?;
        let mut store = Attributes::new(alloc);
        add(alloc, &mut store, "city", AttributeType::NewRow)?;
        let mut customer = Attributes::new(alloc);
        add(alloc, &mut customer, "tier", AttributeType::NewRow)?;
        Ok(Policy {
            product,
            store,
            customer,
            years: Years {
                first: 2023,
                last: 2026,
            },
            holidays: Holidays::new(alloc),
        })
    }

    /// The attributes of a dimension, by slot.
    pub fn attributes(&self, dim: Dim) -> &[Attribute]
        ensures { result.now ≡ policy_attributes self.now dim }
    {
        match dim {
            Dim::Product => self.product.as_slice(),
            Dim::Store => self.store.as_slice(),
            Dim::Customer => self.customer.as_slice(),
        }
    }

    /// The types of a dimension's attributes, by slot. The error comes where memory ran out.
    pub fn types(&self, alloc: Global, dim: Dim) -> Result<Vec<AttributeType>, AllocError>
        ensures { IfOk result (λ types. types.items ≡ policy_types self.now dim) }
    {
        match dim {
            Dim::Product => self.product.types(alloc),
            Dim::Store => self.store.types(alloc),
            Dim::Customer => self.customer.types(alloc),
        }
    }
}
