//! The keys of facts, and those that a member's new rows give them.

ghost use Rattle.std.specs.Prelude.{◌≡◌, filter_map, IfOk};
ghost use Rattle.wh_history.specs.Facts.{key_in, keys_with, same_keys, profile_on, keys_on, new_keys, rekeyed_fact};
ghost use Rattle.wh_history.specs.Shapes.{shape_of, shown};

use crate::dated::change_on;
use crate::dimension::{DimensionShape, RenderedRows};
use crate::profiles::current_by;
use crate::rows::DimRow;
use std::alloc::{AllocError, Global};
use wh_day::{Day, Value};
use wh_policy::Dim;

/// The keys of a fact that follow its members' rows: the surrogate keys of the rows that hold the sale day, and the number
/// of the customer's profile on that day. Without a card the customer's are 0.
///
/// Kimball & Ross, *The Data Warehouse Toolkit*, 3rd edition, chapter 3, "Dimension Surrogate Keys"; chapter 5, "Type 4: Add
/// Mini-Dimension", for the profile.
#[derive(Clone, Copy, Debug, PartialEq, Eq, Drop)]
pub struct FactKeys {
    /// Of the store's row.
    pub store_key: u64,
    /// Of the product's row.
    pub product_key: u64,
    /// Of the customer's row; 0, the row of sales without a card, where there is no card.
    pub customer_key: u64,
    /// The number of the customer's profile: 0 without a card, 1 where no record of the customer is there.
    pub profile: u64,
}

/// A fact of the grain: one line of a ticket.
///
/// Kimball & Ross, *The Data Warehouse Toolkit*, 3rd edition, chapter 3, "Declare the Grain" and "Degenerate Dimensions for
/// Transaction Numbers". It keeps the durable keys beside the surrogate ones: chapter 5, "Type 7: Dual Type 1 and Type 2
/// Dimensions".
#[derive(Debug, Drop)]
pub struct Fact {
    /// The ticket, which has no table of its own.
    pub ticket: Value,
    /// The line's number on the ticket, 1 to 9999.
    pub line: u32,
    /// The day of sale, which is the key of the calendar (YYYYMMDD).
    pub day: Day,
    /// The keys that a late record can move.
    pub keys: FactKeys,
    /// The durable key of the store.
    pub store_durable: u64,
    /// The durable key of the product.
    pub product_durable: u64,
    /// The durable key of the customer; 0 without a card.
    pub customer_durable: u64,
    /// How many were sold: -9,999 to 9,999 in a stored fact.
    pub quantity: i64,
    /// The amount in hundredths, of either sign.
    pub amount: i64,
    /// The cost in hundredths, of either sign.
    pub cost: i64,
    /// The discount in hundredths, which isn't taken from the amount; 0 in the first format.
    pub discount: u64,
}

/// What a member gives a fact of a day.
#[derive(Clone, Copy, Debug, PartialEq, Eq, Drop)]
pub struct MemberKeys {
    /// The surrogate key of its row that holds the day.
    pub key: u64,
    /// Its durable key.
    pub durable: u64,
    /// The number of a customer's profile on the day, and 0 for other members.
    pub profile: u64,
}

fn same_keys(a: FactKeys, b: FactKeys) -> bool
    ensures { result ≡ same_keys a b }
{
    a.store_key == b.store_key
        && a.product_key == b.product_key
        && a.customer_key == b.customer_key
        && a.profile == b.profile
}

/// The surrogate key of the first row that holds a day; 0 where no row holds it.
pub fn key_in(rows: &[DimRow], day: Day) -> u64
    ensures { result ≡ key_in rows.now day }
{
    match rows.iter().find(|row| row.holds(day)) {
        Some(row) => row.surrogate,
        None => 0,
    }
}

/// A fact's keys, with a member's in their places.
fn keys_with(dim: Dim, own: MemberKeys, keys: FactKeys) -> FactKeys
    ensures { result ≡ keys_with dim own keys }
{
    match dim {
        Dim::Product => FactKeys {
            product_key: own.key,
            ..keys
        },
        Dim::Store => FactKeys {
            store_key: own.key,
            ..keys
        },
        Dim::Customer => FactKeys {
            customer_key: own.key,
            profile: own.profile,
            ..keys
        },
    }
}

impl DimensionShape<'_> {
    /// The number of a customer's profile on a day. Other members have none.
    fn profile_on(&self, alloc: Global, member: &RenderedRows, day: Day) -> Result<u64, AllocError>
        ensures { IfOk result (λ n. n ≡ profile_on (shape_of self.now) (shown member.now) day) }
    {
        match self.dim {
            Dim::Customer => {
                let change = change_on(&member.dated, day);
                current_by(alloc, self.types, self.profiles, change)
            }
            _ => Ok(0),
        }
    }

    /// What a member gives a fact of a day. The error comes where memory ran out.
    pub fn keys_on(
        &self,
        alloc: Global,
        member: &RenderedRows,
        day: Day,
    ) -> Result<MemberKeys, AllocError>
        ensures { IfOk result (λ own. own ≡ keys_on (shape_of self.now) (shown member.now) day) }
    {
        Ok(MemberKeys {
            key: key_in(&member.rows, day),
            durable: member.member.durable,
            profile: self.profile_on(alloc, member, day)?,
        })
    }

    /// The keys that a member gives a fact of its own.
    fn new_keys(
        &self,
        alloc: Global,
        member: &RenderedRows,
        fact: &Fact,
    ) -> Result<FactKeys, AllocError>
        ensures { IfOk result (λ keys. keys ≡ new_keys (shape_of self.now) (shown member.now) fact.now) }
    {
        let own = self.keys_on(alloc, member, fact.day)?;
        Ok(keys_with(self.dim, own, fact.keys))
    }

    /// A fact of a member with its new keys, if they are others than it has. The error comes where memory ran out.
    pub fn rekeyed_fact(
        &self,
        alloc: Global,
        member: &RenderedRows,
        fact: &Fact,
    ) -> Result<Option<Fact>, AllocError>
        ensures { IfOk result (λ f. f ≡ rekeyed_fact (shape_of self.now) (shown member.now) fact.now) }
    {
        let new = self.new_keys(alloc, member, fact)?;
        if same_keys(new, fact.keys) {
            return Ok(None);
        }
        Ok(Some(Fact {
            ticket: fact.ticket.copy()?,
            line: fact.line,
            day: fact.day,
            keys: new,
            store_durable: fact.store_durable,
            product_durable: fact.product_durable,
            customer_durable: fact.customer_durable,
            quantity: fact.quantity,
            amount: fact.amount,
            cost: fact.cost,
            discount: fact.discount,
        }))
    }

    /// The facts among a member's whose keys change, with their new keys, in their order.
    pub(crate) fn rekeyed_facts(
        &self,
        alloc: Global,
        member: &RenderedRows,
        facts: &[Fact],
    ) -> Result<Vec<Fact>, AllocError>
        ensures { IfOk result (λ found. found.items ≡ filter_map (rekeyed_fact (shape_of self.now) (shown member.now)) facts.now) }
    {
        let mut found = Vec::new(alloc);
        for fact in facts {
            if let Some(fact) = self.rekeyed_fact(alloc, member, fact)? {
                found.push(fact)?;
            }
        }
        Ok(found)
    }
}
