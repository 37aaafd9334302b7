//! The rows and the facts of a warehouse under a policy that takes the place of another.

ghost use Rattle.std.specs.Prelude.{◌≡◌, ◌++◌, ◌∷◌, [], List, true, filter_map, IfOk, OnOk};
ghost use Rattle.std.specs.FinMap.{values};
ghost use Rattle.wh_policy.specs.declared.attribute.Dim.{Dim};
ghost use Rattle.wh_history.specs.Accepted.{Accepted, format_of, profiles_of};
ghost use Rattle.wh_history.specs.Facts.{rekeyed_to};
ghost use Rattle.std.specs.Option.{option_copied};
ghost use Rattle.wh_history.specs.Keys.{at_place};
ghost use Rattle.wh_history.specs.Known.{all_numbered};
ghost use Rattle.wh_history.specs.Laws.{RecordsHaveDays, governs};
ghost use Rattle.wh_history.specs.Plan.{IsRowPlan};
ghost use Rattle.wh_history.specs.Shapes.{shape_of, rendered_in};
ghost use Rattle.wh_history.specs.Tables.{dimension_row, dimension_table};
ghost use Rattle.wh_model.specs.Defined.{fact_at};
ghost use Rattle.wh_rows.specs.Facts.{facts_in};
ghost use Rattle.wh_rows.specs.Rows as row;
ghost use Rattle.wh_plan.specs.Edits.{IsFactPlan};
ghost use Rattle.wh_plan.specs.Reads.{Tells, WhenOfCommands};
ghost use Rattle.wh_migration.specs.Migrated.{all_rows, keys_anew, keys_given, moved_anew, showing, AreWarehouseMembers, ArePlannedAnew, AreAllShown, AreShown, AreDimensionMembers, IsMigrated};
ghost use Rattle.wh_model.specs.Sound.{IsAccepted};
ghost use Rattle.wh_sql.specs.Answers.{state_of, ReadsOnlyIn, WhenAtRest};
ghost use Rattle.wh_store.specs.Scan.{rows_left, HandsOut};

use crate::all_members::{DimensionMembers, WarehouseMembers};
use sqlite::Alter;
use std::alloc::{AllocError, Global};
use wh_day::Day;
use wh_history::{
    DimRow, DimensionShape, Edit, Fact, FactKeys, Member, MemberKeys, Profiles, RenderedRows,
    first_rows, plan_rows,
};
use wh_plan::FactEdit;
use wh_plan::fact_edits::fact_rekeys;
use wh_plan::sales::sale_keys::rendered_members;
use wh_policy::{Dim, Format};
use wh_rows::{Cause, LineKey, tables};
use wh_store::{Cursor, ReadFault, Tables, next_row};

/// The rows of a dimension's table, by its members.
fn all_rows(
    alloc: Global,
    dimension: &DimensionShape,
    members: &[Member],
) -> Result<Vec<DimRow>, AllocError>
    ensures { IfOk result (λ found. found.items ≡ all_rows (shape_of dimension.now) members.now) }
{
    let mut found = first_rows(alloc, dimension.dim, dimension.types)?;
    for member in members {
        let mut rows = dimension.rows_of(alloc, member)?;
        found.append(&mut rows)?;
    }
    Ok(found)
}

/// The rows of a dimension's table, as they are stored.
fn stored_table<S: Alter>(
    tables: &mut Tables<S>,
    alloc: Global,
    dim: Dim,
) -> Result<Vec<DimRow>, ReadFault>
    ensures reads { ReadsOnlyIn S.Store tables.old tables.new result }
    ensures rows { WhenOfCommands S.Store tables.old tables.new (λ _ commands. IfOk result (λ rows. rows.items ≡ dimension_table commands dim)) }
{
    match dim {
        Dim::Product => tables.all::<tables::Product>(alloc),
        Dim::Store => tables.all::<tables::Store>(alloc),
        Dim::Customer => tables.all::<tables::Customer>(alloc),
    }
}

/// The edits that lead from the stored rows of a dimension to those that show all its members anew.
fn migrated_edits<S: Alter>(
    tables: &mut Tables<S>,
    alloc: Global,
    dimension: &DimensionShape,
    members: &[Member],
) -> Result<Vec<Edit<DimRow, u64>>, ReadFault>
    ensures reads { ReadsOnlyIn S.Store tables.old tables.new result }
    ensures edits { WhenOfCommands S.Store tables.old tables.new (λ _ commands. (after : List Accepted) → RecordsHaveDays after → IsMigrated after dimension.now members.now
        → IfOk result (λ edits. IsRowPlan (dimension_row commands dimension.now.dim) (dimension_row after dimension.now.dim) edits.items)) }
{
    let stored = stored_table(tables, alloc, dimension.dim)?;
    let after = all_rows(alloc, dimension, members)?;
    Ok(plan_rows(alloc, &stored, &after)?)
}

/// The edits of the rows of a dimension whose members were read.
fn dimension_edits<S: Alter>(
    tables: &mut Tables<S>,
    alloc: Global,
    read: &DimensionMembers,
    profiles: &Profiles,
) -> Result<Vec<Edit<DimRow, u64>>, ReadFault>
    ensures reads { ReadsOnlyIn S.Store tables.old tables.new result }
    ensures edits { WhenOfCommands S.Store tables.old tables.new (λ _ commands. (dim : Dim) (after : List Accepted) → RecordsHaveDays after → AreDimensionMembers dim after read.now → profiles.now ≡ all_numbered (profiles_of after)
        → IfOk result (λ edits. IsRowPlan (dimension_row commands dim) (dimension_row after dim) edits.items)) }
{
    let dimension = DimensionShape {
        dim: read.dim,
        types: &read.types,
        profiles,
    };
    migrated_edits(tables, alloc, &dimension, &read.members)
}

/// A dimension with its members as it shows them, in order of their durable keys.
#[derive(Drop)]
struct ShownDimension<'a> {
    dimension: DimensionShape<'a>,
    members: Vec<RenderedRows<'a>>,
}

/// The member with a durable key among all of its dimension.
fn at_place<'a, 'b>(members: &'b [RenderedRows<'a>], durable: u64) -> Option<&'b RenderedRows<'a>>
    ensures { option_copied result ≡ at_place durable members.now }
{
    if durable == 0 {
        return None;
    }
    members.get(durable as usize - 1)
}

impl ShownDimension<'_> {
    /// What the member with a durable key gives a fact of a day. Where there is none all is 0.
    fn keys_given(&self, alloc: Global, durable: u64, day: Day) -> Result<MemberKeys, AllocError>
        ensures { IfOk result (λ keys. keys ≡ keys_given (showing self.now) durable day) }
    {
        match at_place(&self.members, durable) {
            Some(member) => self.dimension.keys_on(alloc, member, day),
            None => Ok(MemberKeys {
                key: 0,
                durable: 0,
                profile: 0,
            }),
        }
    }
}

/// The next fact of the format's table after those that the cursor handed out.
fn next_fact<S: Alter>(
    tables: &mut Tables<S>,
    alloc: Global,
    format: Format,
    cursor: &mut Cursor<LineKey, Fact>,
) -> Result<Option<Fact>, ReadFault>
    ensures reads { ReadsOnlyIn S.Store tables.old tables.new result }
    ensures rows { WhenAtRest S.Store tables.old tables.new (λ t. t.format ≡ format → IfOk result (λ found. HandsOut (rows_left row.fact (facts_in format t) cursor.old) found (rows_left row.fact (facts_in format t) cursor.new))) }
{
    match format {
        Format::One => next_row::<tables::Fact, S>(tables, alloc, format, cursor),
        Format::Two => next_row::<tables::Fact2, S>(tables, alloc, format, cursor),
    }
}

/// The three dimensions with their members.
#[derive(Drop)]
struct ShownDimensions<'a> {
    stores: ShownDimension<'a>,
    products: ShownDimension<'a>,
    customers: ShownDimension<'a>,
}

impl ShownDimensions<'_> {
    /// The keys of a fact by its members.
    fn keys_of(&self, alloc: Global, fact: &Fact) -> Result<FactKeys, AllocError>
        ensures { IfOk result (λ keys. keys ≡ keys_anew self.now fact.now) }
    {
        let store = self.stores.keys_given(alloc, fact.store_durable, fact.day)?;
        let product = self
            .products
            .keys_given(alloc, fact.product_durable, fact.day)?;
        let customer = self
            .customers
            .keys_given(alloc, fact.customer_durable, fact.day)?;
        Ok(FactKeys {
            store_key: store.key,
            product_key: product.key,
            customer_key: customer.key,
            profile: customer.profile,
        })
    }

    /// A fact with its keys by its members, if they are others than it has.
    fn moved_fact(&self, alloc: Global, fact: Fact) -> Result<Option<Fact>, AllocError>
        ensures { IfOk result (λ moved. moved ≡ rekeyed_to fact (keys_anew self.now fact)) }
    {
        let keys = self.keys_of(alloc, &fact)?;
        if keys == fact.keys {
            return Ok(None);
        }
        Ok(Some(Fact { keys, ..fact }))
    }

    /// Adds a fact with its keys by its members, if they are others than it has.
    fn add_moved(&self, alloc: Global, fact: Fact, moved: &mut Vec<Fact>) -> Result<(), AllocError>
        ensures { OnOk result (moved.new.items ≡ moved.old.items ++ moved_anew self.now (fact ∷ [])) }
    {
        if let Some(fact) = self.moved_fact(alloc, fact)? {
            moved.push(fact)?;
        }
        Ok(())
    }

    /// Of the stored facts those whose keys change, with the new ones. The table is read a part at a time. `Size`: it has more
    /// rows than can be counted.
    fn moved_facts<S: Alter>(
        &self,
        tables: &mut Tables<S>,
        alloc: Global,
        format: Format,
    ) -> Result<Vec<Fact>, ReadFault>
        ensures reads { ReadsOnlyIn S.Store tables.old tables.new result }
        ensures moved { Tells (state_of S.Store tables.old) (state_of S.Store tables.new) result (λ t moved. t.format ≡ format → moved.items ≡ moved_anew self.now (values (facts_in format t))) }
    {
        let mut cursor = Cursor::new(alloc);
        let mut moved = Vec::new(alloc);
        'facts: for _ in 0..u64::MAX {
            match next_fact(tables, alloc, format, &mut cursor)? {
                Some(fact) => self.add_moved(alloc, fact, &mut moved)?,
                None => return Ok(moved),
            }
        }
        Err(ReadFault::Store(Cause::Size))
    }
}

/// A dimension with its members as it shows them.
fn shown_dimension<'a>(
    alloc: Global,
    read: &'a DimensionMembers,
    profiles: &'a Profiles,
) -> Result<ShownDimension<'a>, AllocError>
    ensures { IfOk result (λ d. AreShown read.now profiles.now (showing d)) }
{
    let dimension = DimensionShape {
        dim: read.dim,
        types: &read.types,
        profiles,
    };
    let members = rendered_members(alloc, &dimension, &read.members)?;
    Ok(ShownDimension { dimension, members })
}

/// The three dimensions with their members.
fn shown_dimensions<'a>(
    alloc: Global,
    read: &'a WarehouseMembers,
    profiles: &'a Profiles,
) -> Result<ShownDimensions<'a>, AllocError>
    ensures { IfOk result (λ d. AreAllShown read.now profiles.now d) }
{
    let stores = shown_dimension(alloc, &read.stores, profiles)?;
    let products = shown_dimension(alloc, &read.products, profiles)?;
    let customers = shown_dimension(alloc, &read.customers, profiles)?;
    Ok(ShownDimensions {
        stores,
        products,
        customers,
    })
}

/// The edits that give all stored facts the keys by their members, which were read.
fn migrated_facts<S: Alter>(
    tables: &mut Tables<S>,
    alloc: Global,
    format: Format,
    read: &WarehouseMembers,
    profiles: &Profiles,
) -> Result<Vec<FactEdit>, ReadFault>
    ensures reads { ReadsOnlyIn S.Store tables.old tables.new result }
    ensures edits { WhenOfCommands S.Store tables.old tables.new (λ _ commands. format ≡ format_of commands → (c : Accepted) → governs c.content ≡ true → AreWarehouseMembers (commands ++ c ∷ []) read.now → profiles.now ≡ all_numbered (profiles_of (commands ++ c ∷ []))
        → IfOk result (λ edits. IsFactPlan (fact_at commands) (fact_at (commands ++ c ∷ [])) edits.items)) }
{
    let shown = shown_dimensions(alloc, read, profiles)?;
    let moved = shown.moved_facts(tables, alloc, format)?;
    Ok(fact_rekeys(alloc, moved)?)
}

/// The edits of the rows of the three dimensions and of the facts.
#[derive(Drop)]
pub(crate) struct MigratedTables {
    pub(crate) products: Vec<Edit<DimRow, u64>>,
    pub(crate) stores: Vec<Edit<DimRow, u64>>,
    pub(crate) customers: Vec<Edit<DimRow, u64>>,
    pub(crate) facts: Vec<FactEdit>,
}

/// The edits of the rows of the three dimensions, whose members were read, and of the facts.
pub(crate) fn migrated_tables<S: Alter>(
    tables: &mut Tables<S>,
    alloc: Global,
    format: Format,
    read: &WarehouseMembers,
    profiles: &Profiles,
) -> Result<MigratedTables, ReadFault>
    ensures reads { ReadsOnlyIn S.Store tables.old tables.new result }
    ensures edits { WhenOfCommands S.Store tables.old tables.new (λ limits commands. format ≡ format_of commands → (c : Accepted) → IsAccepted limits (commands ++ c ∷ []) → governs c.content ≡ true → AreWarehouseMembers (commands ++ c ∷ []) read.now → profiles.now ≡ all_numbered (profiles_of (commands ++ c ∷ [])) → IfOk result (ArePlannedAnew commands (commands ++ c ∷ []))) }
{
    let products = dimension_edits(tables, alloc, &read.products, profiles)?;
    let stores = dimension_edits(tables, alloc, &read.stores, profiles)?;
    let customers = dimension_edits(tables, alloc, &read.customers, profiles)?;
    let facts = migrated_facts(tables, alloc, format, read, profiles)?;
    Ok(MigratedTables {
        products,
        stores,
        customers,
        facts,
    })
}
