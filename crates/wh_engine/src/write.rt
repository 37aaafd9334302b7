//! Writing the edits of a command, inside a transaction.

ghost use Rattle.std.specs.Prelude.{◌≡◌, ◌+◌, ◌≤◌, length, map, Option, Some, OnOk, IfOk, IsTrue, ⊤};
ghost use Rattle.std.specs.FinMap.{empty};
ghost use Rattle.sqlite.specs.State.{HasCleanDisk};
ghost use Rattle.wh_policy.specs.declared.format.Format.TheVariants.{One};
ghost use Rattle.wh_history.specs.declared.plan.Edit.TheVariants.{Put};
ghost use Rattle.wh_rows.specs.AtRest.{IsAtRest, IsWriting, Leaves};
ghost use Rattle.wh_rows.specs.Tables.{Tables as TypedTables};
ghost use Rattle.wh_sql.specs.Answers.{state_of};
ghost use Rattle.wh_engine.specs.Scanned.{WasClean, WhenAtRest};
ghost use Rattle.wh_engine.specs.Writing.{WritesIn, MakesIn, AreValidFactEdits, with_one_fact, with_fact_edits, with_rows_edited, LeavesEither};
ghost use Rattle.wh_plan.specs.Edits.{with_format, with_commands, with_dimensions, with_first_facts, with_facts, with_all_edits, count_commands, count_dimensions, count_facts, edit_count};
ghost use Rattle.wh_plan.specs.declared.edits.FactEdit.TheVariants.{Row};
ghost use Rattle.wh_plan.specs.Writable.{AreValidCommands, AreValidDimensions, AreValidFacts, IsValidFactEdit, MayBeWritten};

use sqlite::Alter;
use std::alloc::{AllocError, Global};
use wh_history::{Edit, Fact};
use wh_plan::{Edits, FactEdit};
use wh_policy::Format;
use wh_rows::{Cause, tables};
use wh_store::{ROWS_AT_ONCE, Tables, Writing};

/// Makes the tables of the second format, where the edits are an upgrade's.
fn edit_format<S: Alter>(writing: &mut Writing<'_, S>, edits: &Edits) -> Result<(), Cause>
    ensures same_reference { writing.new.tables.ghost_name ≡ writing.old.tables.ghost_name }
    ensures clean { WasClean S.Store writing.old.tables.now writing.new.tables.now }
    ensures counts { (state_of S.Store writing.old.tables.now).faults ≤ (state_of S.Store writing.new.tables.now).faults }
    ensures made { HasCleanDisk (state_of S.Store writing.new.tables.now) → (before : Option TypedTables) (made : TypedTables) → (IsTrue edits.now.upgrades → made.format ≡ One) → IsWriting before (Some made) (state_of S.Store writing.old.tables.now)
        → OnOk result (IsWriting before (Some (with_format edits.now made)) (state_of S.Store writing.new.tables.now)) }
    ensures left { HasCleanDisk (state_of S.Store writing.new.tables.now) → (before : Option TypedTables) (made : TypedTables) → (IsTrue edits.now.upgrades → made.format ≡ One) → IsWriting before (Some made) (state_of S.Store writing.old.tables.now)
        → Leaves before (state_of S.Store writing.new.tables.now) }
    ensures counted { OnOk result (writing.new.writes ≡ writing.old.writes) }
{
    if edits.upgrades {
        return writing.add_format2_tables();
    }
    Ok(())
}

/// Makes the edits of meta, command, member and change.
fn edit_commands<S: Alter>(
    writing: &mut Writing<'_, S>,
    alloc: Global,
    edits: &Edits,
) -> Result<(), Cause>
    ensures same_reference { writing.new.tables.ghost_name ≡ writing.old.tables.ghost_name }
    ensures writes { WritesIn S.Store writing.old writing.new (AreValidCommands edits.now) }
    ensures edited { MakesIn S.Store writing.old writing.new result (AreValidCommands edits.now) (with_commands edits.now) }
    ensures counted { OnOk result (writing.new.writes ≡ writing.old.writes + count_commands edits.now) }
{
    writing.edit_all::<tables::Meta>(alloc, &edits.meta)?;
    writing.edit_all::<tables::Command>(alloc, &edits.commands)?;
    writing.edit_in_parts::<tables::Member>(alloc, &edits.members)?;
    writing.edit_in_parts::<tables::Change>(alloc, &edits.changes)
}

/// Makes the edits of product, store and customer.
fn edit_dimensions<S: Alter>(
    writing: &mut Writing<'_, S>,
    alloc: Global,
    edits: &Edits,
) -> Result<(), Cause>
    ensures same_reference { writing.new.tables.ghost_name ≡ writing.old.tables.ghost_name }
    ensures writes { WritesIn S.Store writing.old writing.new (AreValidDimensions edits.now) }
    ensures edited { MakesIn S.Store writing.old writing.new result (AreValidDimensions edits.now) (with_dimensions edits.now) }
    ensures counted { OnOk result (writing.new.writes ≡ writing.old.writes + count_dimensions edits.now) }
{
    writing.edit_in_parts::<tables::Product>(alloc, &edits.products)?;
    writing.edit_in_parts::<tables::Store>(alloc, &edits.stores)?;
    writing.edit_in_parts::<tables::Customer>(alloc, &edits.customers)
}

/// Makes one edit of a fact of a format.
fn edit_fact<S: Alter>(
    writing: &mut Writing<'_, S>,
    alloc: Global,
    format: Format,
    edit: &FactEdit,
) -> Result<(), Cause>
    ensures same_reference { writing.new.tables.ghost_name ≡ writing.old.tables.ghost_name }
    ensures writes { WritesIn S.Store writing.old writing.new ⊤ }
    ensures edited { MakesIn S.Store writing.old writing.new result (IsValidFactEdit format edit.now) (with_one_fact format edit.now) }
    ensures counted { OnOk result (writing.new.writes ≡ writing.old.writes + 1) }
{
    match edit {
        FactEdit::Row(edit) => writing.edit_fact(alloc, format, edit),
        FactEdit::Rekey(line, keys) => writing.rekey_fact(alloc, format, line, keys),
    }
}

/// Makes edits of the facts of a format, one after the other.
fn edit_each_fact<S: Alter>(
    writing: &mut Writing<'_, S>,
    alloc: Global,
    format: Format,
    edits: &[FactEdit],
) -> Result<(), Cause>
    ensures same_reference { writing.new.tables.ghost_name ≡ writing.old.tables.ghost_name }
    ensures writes { WritesIn S.Store writing.old writing.new (AreValidFactEdits format edits.now) }
    ensures edited { MakesIn S.Store writing.old writing.new result (AreValidFactEdits format edits.now) (with_fact_edits format edits.now) }
    ensures counted { OnOk result (writing.new.writes ≡ writing.old.writes + length edits.now) }
{
    for edit in edits {
        edit_fact(writing, alloc, format, edit)?;
    }
    Ok(())
}

/// The facts of edits that each put one, or none where one of them doesn't.
fn facts_put<'e>(alloc: Global, edits: &'e [FactEdit]) -> Result<Option<Vec<&'e Fact>>, AllocError>
    ensures { IfOk result (λ put. (facts : _) → put ≡ Some facts → edits.now ≡ map (λ fact. Row (Put fact)) (map (λ f. f.now) facts.items)) }
{
    let mut facts = Vec::new(alloc);
    for edit in edits {
        match edit {
            FactEdit::Row(Edit::Put(fact)) => facts.push(fact)?,
            _ => return Ok(None),
        }
    }
    Ok(Some(facts))
}

/// Makes edits of the facts of a format, in one statement where it can.
fn edit_facts_at_once<S: Alter>(
    writing: &mut Writing<'_, S>,
    alloc: Global,
    format: Format,
    edits: &[FactEdit],
) -> Result<(), Cause>
    ensures same_reference { writing.new.tables.ghost_name ≡ writing.old.tables.ghost_name }
    ensures writes { WritesIn S.Store writing.old writing.new (AreValidFactEdits format edits.now) }
    ensures edited { MakesIn S.Store writing.old writing.new result (AreValidFactEdits format edits.now) (with_fact_edits format edits.now) }
    ensures counted { OnOk result (writing.new.writes ≡ writing.old.writes + length edits.now) }
{
    let Ok(Some(facts)) = facts_put(alloc, edits) else {
        return edit_each_fact(writing, alloc, format, edits);
    };
    if writing.insert_new_facts(alloc, format, &facts)? {
        return Ok(());
    }
    edit_each_fact(writing, alloc, format, edits)
}

/// Makes edits of the facts of a format, a part after the other.
fn edit_all_facts<S: Alter>(
    writing: &mut Writing<'_, S>,
    alloc: Global,
    format: Format,
    edits: &[FactEdit],
) -> Result<(), Cause>
    ensures same_reference { writing.new.tables.ghost_name ≡ writing.old.tables.ghost_name }
    ensures writes { WritesIn S.Store writing.old writing.new (AreValidFactEdits format edits.now) }
    ensures edited { MakesIn S.Store writing.old writing.new result (AreValidFactEdits format edits.now) (with_fact_edits format edits.now) }
    ensures counted { OnOk result (writing.new.writes ≡ writing.old.writes + length edits.now) }
{
    for part in edits.chunks(ROWS_AT_ONCE) {
        edit_facts_at_once(writing, alloc, format, part)?;
    }
    Ok(())
}

/// Takes out all facts of the first format; there have to be so many.
fn clear_facts<S: Alter>(writing: &mut Writing<'_, S>, count: u64) -> Result<(), Cause>
    ensures same_reference { writing.new.tables.ghost_name ≡ writing.old.tables.ghost_name }
    ensures writes { WritesIn S.Store writing.old writing.new ⊤ }
    ensures edited { MakesIn S.Store writing.old writing.new result ⊤ (λ made. record made { fact = empty }) }
    ensures counted { OnOk result (writing.new.writes ≡ writing.old.writes + count) }
{
    let cleared = writing.clear_facts()?;
    if cleared != count {
        return Err(Cause::Disk);
    }
    Ok(())
}

/// Makes the edits of the facts of the first format. Those of an upgrade take all out, and one statement does.
fn edit_first_facts<S: Alter>(
    writing: &mut Writing<'_, S>,
    alloc: Global,
    edits: &Edits,
) -> Result<(), Cause>
    ensures same_reference { writing.new.tables.ghost_name ≡ writing.old.tables.ghost_name }
    ensures writes { WritesIn S.Store writing.old writing.new (AreValidFactEdits One edits.now.facts) }
    ensures edited { MakesIn S.Store writing.old writing.new result (AreValidFactEdits One edits.now.facts) (λ made. record made { fact = with_first_facts edits.now made.fact }) }
    ensures counted { OnOk result (writing.new.writes ≡ writing.old.writes + length edits.now.facts) }
{
    if edits.upgrades {
        return clear_facts(writing, edits.facts.len() as u64);
    }
    edit_all_facts(writing, alloc, Format::One, &edits.facts)
}

/// Makes the edits of profile, calendar, the facts of each format and the lines that are withdrawn.
fn edit_facts<S: Alter>(
    writing: &mut Writing<'_, S>,
    alloc: Global,
    edits: &Edits,
) -> Result<(), Cause>
    ensures same_reference { writing.new.tables.ghost_name ≡ writing.old.tables.ghost_name }
    ensures writes { WritesIn S.Store writing.old writing.new (AreValidFacts edits.now) }
    ensures edited { MakesIn S.Store writing.old writing.new result (AreValidFacts edits.now) (with_facts edits.now) }
    ensures counted { OnOk result (writing.new.writes ≡ writing.old.writes + count_facts edits.now) }
{
    writing.edit_all::<tables::Profile>(alloc, &edits.profiles)?;
    writing.edit_all::<tables::Calendar>(alloc, &edits.calendar)?;
    edit_first_facts(writing, alloc, edits)?;
    edit_all_facts(writing, alloc, Format::Two, &edits.facts2)?;
    writing.edit_in_parts::<tables::Void>(alloc, &edits.voids)
}

/// Writes the edits of the rows of a command, in the format that the tables have.
pub fn write_edits<S: Alter>(
    writing: &mut Writing<'_, S>,
    alloc: Global,
    edits: &Edits,
) -> Result<(), Cause>
    ensures same_reference { writing.new.tables.ghost_name ≡ writing.old.tables.ghost_name }
    ensures writes { WritesIn S.Store writing.old writing.new (MayBeWritten edits.now) }
    ensures written { MakesIn S.Store writing.old writing.new result (MayBeWritten edits.now) (with_rows_edited edits.now) }
    ensures counted { OnOk result (writing.new.writes ≡ writing.old.writes + edit_count edits.now) }
{
    edit_commands(writing, alloc, edits)?;
    edit_dimensions(writing, alloc, edits)?;
    edit_facts(writing, alloc, edits)
}

/// Writes the edits of a command in one transaction, and keeps them. It answers how many keys the transaction wrote.
pub(crate) fn commit_edits<S: Alter>(
    tables: &mut Tables<S>,
    alloc: Global,
    edits: &Edits,
) -> Result<u64, Cause>
    ensures clean { WasClean S.Store tables.old tables.new }
    ensures written { WhenAtRest S.Store tables.old tables.new (λ t. MayBeWritten edits.now → (IsTrue edits.now.upgrades → t.format ≡ One) → OnOk result (IsAtRest (Some (with_all_edits edits.now t)) (state_of S.Store tables.new))) }
    ensures left { WhenAtRest S.Store tables.old tables.new (λ t. MayBeWritten edits.now → (IsTrue edits.now.upgrades → t.format ≡ One) → LeavesEither t (with_all_edits edits.now t) (state_of S.Store tables.new)) }
    ensures counted { IfOk result (λ writes. writes ≡ edit_count edits.now) }
{
    let mut writing = tables.begin()?;
    edit_format(&mut writing, edits)?;
    write_edits(&mut writing, alloc, edits)?;
    writing.commit()
}
