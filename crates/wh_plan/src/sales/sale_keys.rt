//! What the members that sales mention give their facts.

ghost use Rattle.std.specs.Prelude.{◌≡◌, ℕ, List, length, map, find, bytes_eq, IfOk};
ghost use Rattle.std.specs.BTreeMap.{get_by};
ghost use Rattle.std.specs.Cmp.Lexicographic.{slice_cmp};
ghost use Rattle.std.specs.Ordering.{nat_cmp};
ghost use Rattle.std.specs.Option.{option_copied};
ghost use Rattle.wh_policy.specs.declared.attribute.Dim.TheVariants.{Product, Store, Customer};
ghost use Rattle.wh_history.specs.Accepted.{Accepted, member_of_sale};
ghost use Rattle.wh_history.specs.Shapes.{shape_of, rendered_in, shown};
ghost use Rattle.wh_history.specs.Tables.{fact_of};
ghost use Rattle.wh_plan.specs.SoldMembers.{keys_among, keys_sold, fact_with};

use crate::by_natural::by_natural;
use std::alloc::{AllocError, Global};
use std::collections::BTreeMap;
use wh_day::{NaturalKey, Value};
use wh_history::{DimensionShape, Fact, FactKeys, Member, MemberKeys, RenderedRows};
use wh_policy::{Dim, SaleRecord};

/// Members with their rows and dated lists.
pub fn rendered_members<'a>(
    alloc: Global,
    dimension: &DimensionShape,
    members: &'a [Member],
) -> Result<Vec<RenderedRows<'a>>, AllocError>
    ensures { IfOk result (λ all. map shown all.items ≡ map (rendered_in (shape_of dimension.now)) members.now) }
{
    let mut all = Vec::new(alloc);
    for member in members {
        all.push(dimension.rendered(alloc, member)?)?;
    }
    Ok(all)
}

/// The member of a dimension that a sale mentions, if it does.
pub(crate) fn member_of_sale(dim: Dim, sale: &SaleRecord) -> Option<&NaturalKey>
    ensures { option_copied result ≡ member_of_sale dim sale.now }
{
    match dim {
        Dim::Product => Some(&sale.product),
        Dim::Store => Some(&sale.store),
        Dim::Customer => match &sale.customer {
            Some(natural) => Some(natural),
            None => None,
        },
    }
}

/// What a sale's member gives its fact. A sale without a card has zeros.
fn keys_of_sale(
    alloc: Global,
    dimension: &DimensionShape,
    members: &BTreeMap<&str, &RenderedRows>,
    sale: &SaleRecord,
) -> Result<MemberKeys, AllocError>
    ensures { (list : List RenderedRows) → ((natural : List ℕ) → option_copied (get_by (λ k. slice_cmp nat_cmp natural k.now) members.now) ≡ find (λ m. bytes_eq m.member.now.natural natural) list)
        → IfOk result (λ keys. keys ≡ keys_among (shape_of dimension.now) (map shown list) sale.now) }
{
    let found = match member_of_sale(dimension.dim, sale) {
        Some(natural) => members.get(natural.as_str()).copied(),
        None => None,
    };
    match found {
        Some(member) => dimension.keys_on(alloc, member, sale.day),
        None => Ok(MemberKeys {
            key: 0,
            durable: 0,
            profile: 0,
        }),
    }
}

/// What each sale's member gives its fact, by the members that the sales mention.
pub(crate) fn keys_of_sales(
    alloc: Global,
    dimension: &DimensionShape,
    members: &[RenderedRows],
    sales: &[SaleRecord],
) -> Result<Vec<MemberKeys>, AllocError>
    ensures keys { IfOk result (λ keys. keys.items ≡ map (keys_among (shape_of dimension.now) (map shown members.now)) sales.now) }
    ensures many { IfOk result (λ keys. length keys.items ≡ length sales.now) }
{
    let found = by_natural(alloc, members)?;
    let mut keys = Vec::new(alloc);
    for sale in sales {
        keys.push(keys_of_sale(alloc, dimension, &found, sale)?)?;
    }
    Ok(keys)
}

/// The fact of a sale.
fn fact_with(
    alloc: Global,
    sale: &SaleRecord,
    product: MemberKeys,
    store: MemberKeys,
    customer: MemberKeys,
) -> Result<Fact, AllocError>
    ensures { IfOk result (λ fact. fact ≡ fact_with sale.now product store customer) }
{
    Ok(Fact {
        ticket: Value::new(alloc, sale.ticket.as_str())?,
        line: sale.line,
        day: sale.day,
        keys: FactKeys {
            store_key: store.key,
            product_key: product.key,
            customer_key: customer.key,
            profile: customer.profile,
        },
        store_durable: store.durable,
        product_durable: product.durable,
        customer_durable: customer.durable,
        quantity: sale.quantity,
        amount: sale.amount,
        cost: sale.cost,
        discount: sale.discount,
    })
}

/// The facts of sales, by what their members give them.
pub(crate) fn sold_facts(
    alloc: Global,
    sales: &[SaleRecord],
    products: &[MemberKeys],
    stores: &[MemberKeys],
    customers: &[MemberKeys],
) -> Result<Vec<Fact>, AllocError>
    requires products { length products.now ≡ length sales.now }
    requires stores { length stores.now ≡ length sales.now }
    requires customers { length customers.now ≡ length sales.now }
    ensures { (commands : List Accepted) → products.now ≡ map (keys_sold Product commands) sales.now → stores.now ≡ map (keys_sold Store commands) sales.now → customers.now ≡ map (keys_sold Customer commands) sales.now
        → IfOk result (λ facts. facts.items ≡ map (fact_of commands) sales.now) }
{
    let mut facts = Vec::new(alloc);
    for (place, sale) in sales.iter().enumerate() {
        facts.push(fact_with(
            alloc,
            sale,
            products[place],
            stores[place],
            customers[place],
        )?)?;
    }
    Ok(facts)
}
