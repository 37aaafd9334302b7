//! Reads stored rows as the rows of their tables.

ghost use Rattle.std.specs.Prelude.{◌≡◌};
ghost use Rattle.wh_day.specs.Reading.{Gives};
ghost use Rattle.wh_rows.specs.Stored.{read_meta, read_command, read_member, read_change, read_dimension, read_profile, read_date, fact_columns, read_fact, read_fact2, read_void};

use crate::columns::{self, Damaged};
use crate::limits::ID_LIMIT;
use crate::rows::{ChangeRow, CommandRow, MemberRow, MetaRow, ProfileRow, VoidRow};
use sqlite::Row;
use std::alloc::Global;
use wh_day::{DateRow, KEY_LIMIT, ParseError, TICKET_LIMIT};
use wh_history::{DimRow, Fact, FactKeys};
use wh_policy::Dim;

/// A row of meta.
#[tactic(auto, unfolding(crate::specs::Stored::read_meta))]
pub(crate) fn read_meta(alloc: Global, row: &Row) -> Result<MetaRow, ParseError<Damaged>>
    ensures { Gives (λ r. r) result (read_meta row.now) }
{
    if row.column_count() != 2 {
        return Err(ParseError::Fault(Damaged));
    }
    let name = columns::text_of(alloc, row, 0)?;
    let value = columns::integer_of(row, 1)?;
    Ok(MetaRow { name, value })
}

/// A row of command.
#[tactic(auto, unfolding(crate::specs::Stored::read_command))]
pub(crate) fn read_command(alloc: Global, row: &Row) -> Result<CommandRow, ParseError<Damaged>>
    ensures { Gives (λ r. r) result (read_command row.now) }
{
    if row.column_count() != 6 {
        return Err(ParseError::Fault(Damaged));
    }
    let number = columns::number_of(row, 0)?;
    let id = columns::key(alloc, ID_LIMIT, row, 1)?;
    let kind = columns::kind(alloc, row, 2)?;
    let bytes = columns::blob_of(alloc, row, 3)?;
    let records = columns::number_of(row, 4)?;
    let placeholders = columns::number_of(row, 5)?;
    Ok(CommandRow {
        number,
        id,
        kind,
        bytes,
        records,
        placeholders,
    })
}

/// A row of member.
#[tactic(auto, unfolding(crate::specs::Stored::read_member))]
pub(crate) fn read_member(alloc: Global, row: &Row) -> Result<MemberRow, ParseError<Damaged>>
    ensures { Gives (λ r. r) result (read_member row.now) }
{
    if row.column_count() != 4 {
        return Err(ParseError::Fault(Damaged));
    }
    let dim = columns::dim_of(row, 0)?;
    let durable = columns::number_of(row, 1)?;
    let natural = columns::key(alloc, KEY_LIMIT, row, 2)?;
    let opening = columns::number_of(row, 3)?;
    Ok(MemberRow {
        dim,
        durable,
        natural,
        opening,
    })
}

/// A row of change.
#[tactic(auto, unfolding(crate::specs::Stored::read_change))]
pub(crate) fn read_change(alloc: Global, row: &Row) -> Result<ChangeRow, ParseError<Damaged>>
    ensures { Gives (λ r. r) result (read_change row.now) }
{
    if row.column_count() != 12 {
        return Err(ParseError::Fault(Damaged));
    }
    let command = columns::number_of(row, 0)?;
    let place = columns::number_of(row, 1)?;
    let dim = columns::dim_of(row, 2)?;
    let durable = columns::number_of(row, 3)?;
    let day = columns::day_of(row, 4)?;
    let anchor = columns::number_of(row, 5)?;
    let values = columns::slots_of(alloc, row, 6)?;
    Ok(ChangeRow {
        command,
        place,
        dim,
        durable,
        day,
        anchor,
        values,
    })
}

/// A row of product, store or customer.
#[tactic(auto, unfolding(crate::specs::Stored::read_dimension))]
pub(crate) fn read_dimension(
    alloc: Global,
    dim: Dim,
    row: &Row,
) -> Result<DimRow, ParseError<Damaged>>
    ensures { Gives (λ r. r) result (read_dimension dim row.now) }
{
    if row.column_count() != 19 {
        return Err(ParseError::Fault(Damaged));
    }
    let surrogate = columns::number_of(row, 0)?;
    let durable = columns::number_of(row, 1)?;
    let natural = columns::natural(alloc, dim, surrogate, row, 2)?;
    let from_day = columns::day_of(row, 3)?;
    let to_day = columns::day_of(row, 4)?;
    let is_current = columns::flag_of(row, 5)?;
    let a = columns::slots_of(alloc, row, 6)?;
    let b = columns::slots_of(alloc, row, 12)?;
    let profile_now = columns::number_of(row, 18)?;
    Ok(DimRow {
        surrogate,
        durable,
        natural,
        from_day,
        to_day,
        is_current,
        a,
        b,
        profile_now,
    })
}

/// A row of profile.
#[tactic(auto, unfolding(crate::specs::Stored::read_profile))]
pub(crate) fn read_profile(alloc: Global, row: &Row) -> Result<ProfileRow, ParseError<Damaged>>
    ensures { Gives (λ r. r) result (read_profile row.now) }
{
    if row.column_count() != 7 {
        return Err(ParseError::Fault(Damaged));
    }
    let number = columns::number_of(row, 0)?;
    let values = columns::slots_of(alloc, row, 1)?;
    Ok(ProfileRow { number, values })
}

/// A row of calendar.
#[tactic(auto, unfolding(crate::specs::Stored::read_date))]
pub(crate) fn read_date(alloc: Global, row: &Row) -> Result<DateRow, ParseError<Damaged>>
    ensures { Gives (λ r. r) result (read_date row.now) }
{
    if row.column_count() != 11 {
        return Err(ParseError::Fault(Damaged));
    }
    let date_key = columns::day_of(row, 0)?;
    let iso = columns::text_of(alloc, row, 1)?;
    let year = columns::integer_of(row, 2)?;
    let quarter = columns::integer_of(row, 3)?;
    let month = columns::integer_of(row, 4)?;
    let day = columns::integer_of(row, 5)?;
    let day_of_year = columns::integer_of(row, 6)?;
    let weekday = columns::integer_of(row, 7)?;
    let weekday_name = columns::text_of(alloc, row, 8)?;
    let weekend = columns::flag_of(row, 9)?;
    let holiday = columns::text_of(alloc, row, 10)?;
    Ok(DateRow {
        date_key,
        iso,
        year,
        quarter,
        month,
        day,
        day_of_year,
        weekday,
        weekday_name,
        weekend,
        holiday,
    })
}

/// A row of fact.
#[tactic(auto, unfolding(crate::specs::Stored::read_fact))]
pub(crate) fn read_fact(alloc: Global, row: &Row) -> Result<Fact, ParseError<Damaged>>
    ensures { Gives (λ r. r) result (read_fact row.now) }
{
    if row.column_count() != 13 {
        return Err(ParseError::Fault(Damaged));
    }
    fact_columns(alloc, row)
}

/// A row of fact2.
#[tactic(auto, unfolding(crate::specs::Stored::read_fact2))]
pub(crate) fn read_fact2(alloc: Global, row: &Row) -> Result<Fact, ParseError<Damaged>>
    ensures { Gives (λ r. r) result (read_fact2 row.now) }
{
    if row.column_count() != 14 {
        return Err(ParseError::Fault(Damaged));
    }
    let fact = fact_columns(alloc, row)?;
    let discount = columns::discount_of(row, 13)?;
    Ok(Fact { discount, ..fact })
}

/// A row of void.
#[tactic(auto, unfolding(crate::specs::Stored::read_void))]
pub(crate) fn read_void(alloc: Global, row: &Row) -> Result<VoidRow, ParseError<Damaged>>
    ensures { Gives (λ r. r) result (read_void row.now) }
{
    if row.column_count() != 3 {
        return Err(ParseError::Fault(Damaged));
    }
    let ticket = columns::key(alloc, TICKET_LIMIT, row, 0)?;
    let line = columns::line_of(row, 1)?;
    let command = columns::number_of(row, 2)?;
    Ok(VoidRow {
        ticket,
        line,
        command,
    })
}

/// The first columns of a row, as a fact without a discount.
fn fact_columns(alloc: Global, row: &Row) -> Result<Fact, ParseError<Damaged>>
    ensures { Gives (λ r. r) result (fact_columns row.now) }
{
    let ticket = columns::key(alloc, TICKET_LIMIT, row, 0)?;
    let line = columns::line_of(row, 1)?;
    let day = columns::day_of(row, 2)?;
    let store_key = columns::number_of(row, 3)?;
    let product_key = columns::number_of(row, 4)?;
    let customer_key = columns::number_of(row, 5)?;
    let store_durable = columns::number_of(row, 6)?;
    let product_durable = columns::number_of(row, 7)?;
    let customer_durable = columns::number_of(row, 8)?;
    let profile = columns::number_of(row, 9)?;
    let quantity = columns::measure_of(9_999, row, 10)?;
    let amount = columns::measure_of(999_999_999, row, 11)?;
    let cost = columns::measure_of(999_999_999, row, 12)?;
    Ok(Fact {
        ticket,
        line,
        day,
        keys: FactKeys {
            store_key,
            product_key,
            customer_key,
            profile,
        },
        store_durable,
        product_durable,
        customer_durable,
        quantity,
        amount,
        cost,
        discount: 0,
    })
}
