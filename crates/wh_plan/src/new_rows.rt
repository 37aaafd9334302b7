//! What a batch writes, from the members that it touches.

ghost use Rattle.std.specs.Prelude.{◌≡◌, ◌++◌, ◌∷◌, [], List, length, filter_map, IfOk};
ghost use Rattle.wh_history.specs.Accepted.{Accepted, Describes, members};
ghost use Rattle.wh_history.specs.Touched.{touched_by};
ghost use Rattle.wh_model.specs.Defined.{member_at, change_at};
ghost use Rattle.wh_plan.specs.BatchRows.{numbers_after};
ghost use Rattle.wh_plan.specs.NewRows.{Records, by_place, row_of_member, new_member, row_of_record, new_change};

use crate::by_natural::by_natural;
use std::alloc::{AllocError, Global};
use wh_history::{Member, anchor_of_day, six_texts};
use wh_policy::{Dim, DimensionRecord};
use wh_rows::{ChangeKey, ChangeRow, MemberRow};

fn row_of_member(dim: Dim, member: &Member) -> Result<MemberRow, AllocError>
    ensures { IfOk result (λ row. row ≡ row_of_member dim member.now) }
{
    Ok(MemberRow {
        dim,
        durable: member.durable,
        natural: member.natural.copy()?,
        opening: member.opening,
    })
}

/// The rows of the touched members that are new: their durable keys come after all before the batch.
pub fn new_member_rows(
    alloc: Global,
    dim: Dim,
    members_before: u64,
    touched: &[Member],
) -> Result<Vec<MemberRow>, AllocError>
    ensures rows { IfOk result (λ rows. rows.items ≡ filter_map (new_member dim members_before) touched.now) }
    // They are what the member table gets.
    ensures planned { (commands : List Accepted) (c : Accepted) (records : Records) → c.content ≡ Describes dim records
        → touched.now ≡ (touched_by dim commands (commands ++ c ∷ []) records).list → members_before ≡ length (members dim commands)
        → IfOk result (λ rows. rows.items ≡ filter_map (λ n. member_at (commands ++ c ∷ []) (record { dim = dim; durable = n })) (numbers_after (length (members dim commands)) (length (members dim (commands ++ c ∷ []))))) }
{
    let mut rows = Vec::new(alloc);
    for member in touched {
        if members_before < member.durable {
            rows.push(row_of_member(dim, member)?)?;
        }
    }
    Ok(rows)
}

fn row_of_record(
    alloc: Global,
    dim: Dim,
    key: ChangeKey,
    incoming: &DimensionRecord,
    member: &Member,
) -> Result<ChangeRow, AllocError>
    ensures { IfOk result (λ row. row ≡ row_of_record dim key.command key.place incoming.now member.now) }
{
    Ok(ChangeRow {
        command: key.command,
        place: key.place,
        dim,
        durable: member.durable,
        day: incoming.day,
        anchor: anchor_of_day(member.changes.as_slice(), incoming.day),
        values: six_texts(alloc, &incoming.values)?,
    })
}

/// The rows of a batch's records, by the members that it touches.
pub fn new_change_rows(
    alloc: Global,
    dim: Dim,
    command: u64,
    touched: &[Member],
    records: &[DimensionRecord],
) -> Result<Vec<ChangeRow>, AllocError>
    ensures rows { IfOk result (λ rows. rows.items ≡ by_place (new_change dim command touched.now) 1 records.now) }
    // They are what the change table gets.
    ensures planned { (commands : List Accepted) (c : Accepted) → c.content ≡ Describes dim records.now
        → touched.now ≡ (touched_by dim commands (commands ++ c ∷ []) records.now).list → command ≡ length (commands ++ c ∷ [])
        → IfOk result (λ rows. rows.items ≡ filter_map (λ n. change_at (commands ++ c ∷ []) (record { command = command; place = n })) (numbers_after 0 (length records.now))) }
{
    let found = by_natural(alloc, touched)?;
    let mut rows = Vec::new(alloc);
    for (place, incoming) in records.iter().enumerate() {
        if let Some(member) = found.get(incoming.natural.as_str()).copied() {
            let place = place as u64 + 1;
            let key = ChangeKey { command, place };
            rows.push(row_of_record(alloc, dim, key, incoming, member)?)?;
        }
    }
    Ok(rows)
}
