//! What a batch of sales writes, by reads of what it mentions.

ghost use Rattle.std.specs.Prelude.{◌≡◌, ◌++◌, ◌∷◌, [], suc, List, length, None, Some, IfOk};
ghost use Rattle.std.specs.List.{AllByRecursion, IsDistinct};
ghost use Rattle.wh_policy.specs.Written.{IsSound};
ghost use Rattle.wh_policy.specs.declared.attribute.Dim.TheVariants.{Product, Store, Customer};
ghost use Rattle.wh_history.specs.Accepted.{Accepted, Sells, format_of, placeholders_by, policy_after};
ghost use Rattle.wh_model.specs.Defined.{command_at};
ghost use Rattle.wh_model.specs.Sound.{IsAccepted, same_line};
ghost use Rattle.wh_plan.specs.SoldMembers.{IsSoldDimension};
ghost use Rattle.wh_plan.specs.BatchRows.{AreBatchRows, IsNewLine};
ghost use Rattle.wh_plan.specs.Edits.{AreEdits};
ghost use Rattle.wh_sql.specs.Answers.{ReadsOnlyIn};
ghost use Rattle.wh_plan.specs.Reads.{WhenOfCommands};

use crate::batch_rows::{BatchRows, edits_of_batch};
use crate::edits::Edits;
use crate::fact_edits::fact_puts;
use crate::sales::sale_keys::sold_facts;
use crate::sales::sold_dimension::{SoldDimension, read_sold_dimension};
use crate::terms::Terms;
use sqlite::Alter;
use std::alloc::{AllocError, Global};
use wh_policy::{Dim, SaleRecord};
use wh_rows::CommandRow;
use wh_store::{ReadFault, Tables};

/// The rows that a batch of sales brings, from its keys, members and rows of each of the three dimensions.
fn rows_of_sales(
    alloc: Global,
    command: CommandRow,
    sales: &[SaleRecord],
    products: SoldDimension,
    stores: SoldDimension,
    customers: SoldDimension,
) -> Result<BatchRows, AllocError>
    requires products { length products.keys.items ≡ length sales.now }
    requires stores { length stores.keys.items ≡ length sales.now }
    requires customers { length customers.keys.items ≡ length sales.now }
    ensures { (commands : List Accepted) (c : Accepted) → c.content ≡ Sells sales.now
        → IsSoldDimension Product commands (commands ++ c ∷ []) sales.now products → IsSoldDimension Store commands (commands ++ c ∷ []) sales.now stores → IsSoldDimension Customer commands (commands ++ c ∷ []) sales.now customers
        → AllByRecursion (IsNewLine commands) sales.now → IsDistinct same_line sales.now
        → command_at (commands ++ c ∷ []) (suc (length commands)) ≡ Some (record command { placeholders = placeholders_by (commands ++ c ∷ []) (suc (length commands)) c.content })
        → IfOk result (AreBatchRows commands c) }
{
    let sold = sold_facts(alloc, sales, &products.keys, &stores.keys, &customers.keys)?;
    let facts = fact_puts(alloc, sold)?;
    let mut members = products.members;
    let mut of_stores = stores.members;
    let mut of_customers = customers.members;
    members.append(&mut of_stores)?;
    members.append(&mut of_customers)?;
    let mut command = command;
    command.placeholders = members.len() as u64;
    Ok(BatchRows {
        command,
        members,
        changes: Vec::new(alloc),
        profiles: Vec::new(alloc),
        facts,
        products: products.rows,
        stores: stores.rows,
        customers: customers.rows,
    })
}

/// What a batch of sales writes, from reads of the members that it mentions alone. The command's row counts the members
/// that it is the first to mention, each with a placeholder row. A late sale gets the keys of its day. The error is a read's: `Memory`,
/// `Damaged` with the table whose row is out of its type, or `Store`.
///
/// Kimball & Ross, *The Data Warehouse Toolkit*, 3rd edition, chapter 2, "Late Arriving Facts" and "Late Arriving Dimensions".
pub fn plan_sales<S: Alter>(
    tables: &mut Tables<S>,
    alloc: Global,
    terms: &Terms,
    command: CommandRow,
    sales: &[SaleRecord],
) -> Result<Edits, ReadFault>
    ensures reads { ReadsOnlyIn S.Store tables.old tables.new result }
    ensures edits { WhenOfCommands S.Store tables.old tables.new (λ limits commands. IsAccepted limits commands → terms.now.format ≡ format_of commands → (c : Accepted) → IsAccepted limits (commands ++ c ∷ []) → c.content ≡ Sells sales.now → policy_after None commands ≡ Some terms.now.policy.now → IsSound terms.now.policy.now
        → command_at (commands ++ c ∷ []) (suc (length commands)) ≡ Some (record command { placeholders = placeholders_by (commands ++ c ∷ []) (suc (length commands)) c.content }) → IfOk result (AreEdits commands (commands ++ c ∷ []))) }
    // Whatever is stored, a command that is planned writes its own row.
    ensures own { IfOk result (λ edits. length edits.commands ≡ 1) }
{
    let products = read_sold_dimension(tables, alloc, terms.policy, Dim::Product, sales)?;
    let stores = read_sold_dimension(tables, alloc, terms.policy, Dim::Store, sales)?;
    let customers = read_sold_dimension(tables, alloc, terms.policy, Dim::Customer, sales)?;
    let rows = rows_of_sales(alloc, command, sales, products, stores, customers)?;
    Ok(edits_of_batch(alloc, terms.format, rows)?)
}
