//! The rows of meta: the format and the limits.

ghost use Rattle.std.specs.Prelude.{◌≡◌, ◌≤◌, int_lt, [], ◌∷◌, pos, false, Ok, IfOk, IfErr};
ghost use Rattle.sqlite_value.specs.declared.value.Value.TheVariants.{Text};
ghost use Rattle.sqlite.specs.State.{HasCleanDisk};
ghost use Rattle.wh_rows.specs.declared.table.Table.TheVariants.{Meta as OfMeta};
ghost use Rattle.wh_policy.specs.Formats.{format_number};
ghost use Rattle.wh_rows.specs.Rows.{meta};
ghost use Rattle.wh_rows.specs.Texts as texts;
ghost use Rattle.wh_sql.specs.Answers.{state_of, ReadsOnlyIn, SparesIn, WhenAtRest, WhenStored, IsOfDamage};
ghost use Rattle.wh_sql.specs.Reads.{FailsToShow};
ghost use Rattle.wh_store.specs.Meta.{number_in, format_of, limits_of_numbers};
ghost use Rattle.wh_store.specs.Opening.{IsServed, IsTaken, IsRefusedWith};
ghost use Rattle.wh_store.specs.Raw.{rows_named, IsNumberIn, FormatIs, IsRefusedOn};

use crate::fault::OpenFault;
use sqlite::Alter;
use std::alloc::Global;
use wh_day::Value;
use wh_policy::Format;
use wh_rows::Limits;
use wh_rows::tables::Meta;
use wh_sql::{ReadFault, Tables};

/// The number under a name, if there is one.
pub(crate) fn number<S: Alter>(
    tables: &mut Tables<S>,
    alloc: Global,
    name: &str,
) -> Result<Option<i64>, ReadFault>
    ensures reads { ReadsOnlyIn S.Store tables.old tables.new result }
    ensures counts { (state_of S.Store tables.old).faults ≤ (state_of S.Store tables.new).faults }
    ensures number { WhenAtRest S.Store tables.old tables.new (λ t. IfOk result (λ number. number ≡ number_in t name.now)) }
    // The same of any stored rows: of those under the name.
    ensures stored { WhenStored S.Store tables.old tables.new (λ stored. IfOk result (IsNumberIn stored name.now)) }
    ensures damaged { WhenStored S.Store tables.old tables.new (λ stored. IfErr result (IsOfDamage meta OfMeta (rows_named stored name.now))) }
    ensures unread { HasCleanDisk (state_of S.Store tables.new) → IfErr result (FailsToShow meta OfMeta texts.meta.get (Text name.now ∷ []) (state_of S.Store tables.old) (state_of S.Store tables.new)) }
{
    let name = match Value::new(alloc, name) {
        Ok(name) => name,
        Err(_) => return Err(ReadFault::Memory),
    };
    match tables.get::<Meta>(alloc, &name) {
        Ok(Some(row)) => Ok(Some(row.value)),
        Ok(None) => Ok(None),
        Err(refusal) => Err(refusal),
    }
}

/// The format that the number says. `newest`: the newest format that the caller knows. `second`: the tables of the second format are there too, which it
/// needs.
pub(crate) fn find_format<S: Alter>(
    tables: &mut Tables<S>,
    alloc: Global,
    newest: Format,
    second: bool,
) -> Result<Format, OpenFault>
    ensures reads { SparesIn S.Store tables.old tables.new (IsServed result) }
    ensures taken { WhenAtRest S.Store tables.old tables.new (λ t. IfOk result (IsTaken newest second t)) }
    ensures refused { WhenAtRest S.Store tables.old tables.new (λ t. IfErr result (IsRefusedWith newest second t (state_of S.Store tables.old) (state_of S.Store tables.new))) }
    ensures known { IfOk result (λ format. format_number format ≤ format_number newest) }
    ensures single { second ≡ false → IfOk result (λ format. format ≡ Format.One) }
    // The same of any stored rows: by those of the format.
    ensures taken_stored { WhenStored S.Store tables.old tables.new (λ stored. IfOk result (λ format. FormatIs newest second stored (Ok format))) }
    ensures refused_stored { WhenStored S.Store tables.old tables.new (λ stored. IfErr result (IsRefusedOn newest second stored)) }
{
    match number(tables, alloc, "format") {
        Ok(number) => format_of(newest, second, number),
        Err(ReadFault::Memory) => Err(OpenFault::Memory),
        Err(ReadFault::Damaged(table)) => Err(OpenFault::Damaged(table)),
        Err(ReadFault::Store(cause)) => Err(OpenFault::Store(cause)),
    }
}

/// Whether a number stands for a format that came after this one.
fn is_after(newest: Format, number: i64) -> bool
    ensures { result ≡ int_lt (pos (format_number newest)) number }
{
    match newest {
        Format::One => number > 1,
        Format::Two => number > 2,
    }
}

/// The format of a number that meta may have.
fn format_of(newest: Format, second: bool, number: Option<i64>) -> Result<Format, OpenFault>
    ensures { result ≡ format_of newest second number }
{
    match number {
        None => Err(OpenFault::NotAWarehouse),
        Some(number) if number < 1 => Err(OpenFault::OldFormat),
        Some(number) if is_after(newest, number) => Err(OpenFault::NewFormat),
        Some(number) if number < 2 => Ok(Format::One),
        Some(_) => {
            if second {
                Ok(Format::Two)
            } else {
                Err(OpenFault::NotAWarehouse)
            }
        }
    }
}

/// The limits of these numbers, where the three are there and good.
pub(crate) fn limits_of_numbers(
    commands: Option<i64>,
    changes: Option<i64>,
    facts: Option<i64>,
) -> Option<Limits>
    ensures { result ≡ limits_of_numbers commands changes facts }
{
    let commands = u64::try_from(commands?).ok()?;
    let changes = u64::try_from(changes?).ok()?;
    let facts = u64::try_from(facts?).ok()?;
    Limits::new(commands, changes, facts)
}
