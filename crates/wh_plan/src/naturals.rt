//! The natural keys that a batch mentions, each once.

ghost use Rattle.std.specs.Prelude.{◌≡◌, IfOk, OnOk};
ghost use Rattle.wh_plan.specs.NewRows.{naturals_told};
ghost use Rattle.wh_plan.specs.SoldMembers.{naturals_sold, with_natural};

use crate::sales::sale_keys::member_of_sale;
use indexmap::IndexSet;
use std::alloc::{AllocError, Global};
use wh_day::{NaturalKey, Value};
use wh_policy::{Dim, DimensionRecord, SaleRecord};

/// Adds a natural key after others, unless it is there.
fn add_natural(
    alloc: Global,
    named: &mut IndexSet<NaturalKey>,
    naturals: &mut Vec<Value>,
    natural: &NaturalKey,
) -> Result<(), AllocError>
    requires { named.old.keys ≡ naturals.old.items }
    ensures same { OnOk result (named.new.keys ≡ naturals.new.items) }
    ensures added { OnOk result (naturals.new.items ≡ with_natural natural.now naturals.old.items) }
{
    let (_, is_new) = named.insert_full(natural.copy())?;
    if is_new {
        naturals.push(Value::new(alloc, natural.as_str())?)?;
    }
    Ok(())
}

/// The natural keys that records name, each once, in order of first mention.
pub(crate) fn naturals_told(
    alloc: Global,
    records: &[DimensionRecord],
) -> Result<Vec<Value>, AllocError>
    ensures { IfOk result (λ naturals. naturals.items ≡ naturals_told records.now) }
{
    let mut named = IndexSet::new(alloc);
    let mut naturals = Vec::new(alloc);
    for incoming in records {
        add_natural(alloc, &mut named, &mut naturals, &incoming.natural)?;
    }
    Ok(naturals)
}

/// The natural keys of the members that sales mention, each once, in order of first mention.
pub(crate) fn naturals_sold(
    alloc: Global,
    dim: Dim,
    sales: &[SaleRecord],
) -> Result<Vec<Value>, AllocError>
    ensures { IfOk result (λ naturals. naturals.items ≡ naturals_sold dim sales.now) }
{
    let mut named = IndexSet::new(alloc);
    let mut naturals = Vec::new(alloc);
    for sale in sales {
        if let Some(natural) = member_of_sale(dim, sale) {
            add_natural(alloc, &mut named, &mut naturals, natural)?;
        }
    }
    Ok(naturals)
}
