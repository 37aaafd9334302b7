//! The limits that meta says.

ghost use Rattle.std.specs.Prelude.{◌≡◌, true, pos, codes, None, Some, IsTrue, IfSome, IfOk, IfErr, OnOk};
ghost use Rattle.sqlite.specs.Steps.{over_memory};
ghost use Rattle.wh_rows.specs.AtRest.{IsAtRest};
ghost use Rattle.wh_model.specs.Defined.{meta_at};
ghost use Rattle.wh_rows.specs.Limits.{are_limits};
ghost use Rattle.wh_rows.specs.Raw.{HasDamage};
ghost use Rattle.wh_rows.specs.Rows as row;
ghost use Rattle.wh_rows.specs.declared.table.Table.TheVariants.{Meta};
ghost use Rattle.wh_sql.specs.Reads.{IsOfDamage, IsServed, Spares};
ghost use Rattle.wh_sql.specs.Answers.{state_of, ReadsOnlyIn, SparesIn, WhenStored};
ghost use Rattle.wh_admission.specs.Checked.{stored_in};
ghost use Rattle.wh_checking.specs.Compared.{AreRowsOrNot};
ghost use Rattle.wh_checking.specs.Meta.{AreLimitsSaid, made_saying, made_in};
ghost use Rattle.wh_policy.specs.Formats.{format_number};
ghost use Rattle.wh_rows.specs.Rows.{meta};

use crate::compare::has_the_same_rows;
use sqlite::{Alter, MemStore};
use std::alloc::{AllocError, Global};
use wh_day::Value;
use wh_policy::Format;
use wh_rows::{Cause, Limits, MetaRow, tables};
use wh_store::{ReadFault, Tables, find_limits, for_init, open_fresh};

/// The row of meta that says a format.
fn format_row(alloc: Global, format: Format) -> Result<MetaRow, AllocError>
    ensures row { IfOk result (λ row. row ≡ record { name = codes "format"; value = pos (format_number format) }) }
    ensures valid { IfOk result (λ row. IsTrue (meta.is_valid row)) }
{
    Ok(MetaRow {
        name: Value::new(alloc, "format")?,
        value: format.number() as i64,
    })
}

/// Makes the tables in memory with what meta says of these limits, puts this row into meta, and commits.
fn commit_tables(
    tables: &mut Tables<MemStore>,
    alloc: Global,
    limits: Limits,
    row: &MetaRow,
) -> Result<u64, Cause>
    ensures { IsAtRest None (state_of over_memory tables.old) → IsTrue (meta.is_valid row.now) → OnOk result (IsAtRest (Some (made_saying limits row.now)) (state_of over_memory tables.new)) }
{
    let mut writing = tables.begin()?;
    writing.init(alloc, limits)?;
    writing.put::<tables::Meta>(alloc, row)?;
    writing.commit()
}

/// Tables in memory in which meta says these limits and this format, and the others are empty.
fn made_tables(
    alloc: Global,
    format: Format,
    limits: Limits,
) -> Result<Tables<MemStore>, AllocError>
    ensures { IfOk result (λ tables. IsAtRest (Some (made_in format limits)) (state_of over_memory tables)) }
{
    let row = format_row(alloc, format)?;
    let connection = open_fresh(alloc)?;
    let Ok(mut tables) = for_init(connection) else {
        return Err(AllocError);
    };
    match commit_tables(&mut tables, alloc, limits, &row) {
        Ok(_) => Ok(tables),
        Err(_) => Err(AllocError),
    }
}

/// Whether meta says this format, these limits and nothing else.
fn holds_limits<S: Alter>(
    tables: &mut Tables<S>,
    alloc: Global,
    format: Format,
    limits: Limits,
) -> Result<bool, ReadFault>
    ensures reads { ReadsOnlyIn S.Store tables.old tables.new result }
    ensures said { WhenStored S.Store tables.old tables.new (λ stored. IfOk result (AreRowsOrNot row.meta (meta_at format limits) (stored.rows Meta))) }
    ensures damaged { WhenStored S.Store tables.old tables.new (λ stored. IfErr result (IsOfDamage row.meta Meta (stored.rows Meta))) }
    ensures good { are_limits limits ≡ true }
{
    // Each is from 1 to its greatest, as these calls say.
    let _each = (limits.commands(), limits.changes(), limits.facts());
    let mut made = made_tables(alloc, format, limits)?;
    let same = has_the_same_rows::<tables::Meta, S, MemStore>(tables, alloc, format, &mut made)?;
    Ok(same)
}

/// Whether meta has no damaged row: it is read to its end, whatever it is compared with.
fn is_undamaged<S: Alter>(tables: &mut Tables<S>, alloc: Global) -> Result<(), ReadFault>
    ensures reads { ReadsOnlyIn S.Store tables.old tables.new result }
    ensures undamaged { WhenStored S.Store tables.old tables.new (λ stored. OnOk result (¬ HasDamage row.meta (stored.rows Meta))) }
    ensures damaged { WhenStored S.Store tables.old tables.new (λ stored. IfErr result (IsOfDamage row.meta Meta (stored.rows Meta))) }
{
    holds_limits(tables, alloc, Format::One, Limits::greatest())?;
    Ok(())
}

/// The limits that meta says, where it is as it should be by itself: the four names, the format of the tables and good limits. `Damaged`: a row of
/// meta is out of its type.
pub(crate) fn limits_said<S: Alter>(
    tables: &mut Tables<S>,
    alloc: Global,
    format: Format,
) -> Result<Option<Limits>, ReadFault>
    ensures reads { SparesIn S.Store tables.old tables.new (IsServed result) }
    ensures said { WhenStored S.Store tables.old tables.new (λ stored. IfOk result (AreLimitsSaid (stored_in format stored))) }
    ensures damaged { WhenStored S.Store tables.old tables.new (λ stored. IfErr result (IsOfDamage row.meta Meta (stored.rows Meta))) }
    ensures good { IfOk result (λ said. IfSome said (λ limits. are_limits limits ≡ true)) }
{
    match find_limits(tables, alloc) {
        Ok(limits) => match holds_limits(tables, alloc, format, limits) {
            Ok(true) => Ok(Some(limits)),
            Ok(false) => Ok(None),
            Err(fault) => Err(fault),
        },
        Err(ReadFault::Damaged(_)) => match is_undamaged(tables, alloc) {
            Ok(()) => Ok(None),
            Err(fault) => Err(fault),
        },
        Err(fault) => Err(fault),
    }
}
