//! What a policy that takes the place of the one in force writes: every member shown anew.

ghost use Rattle.std.specs.Prelude.{◌≡◌, ◌++◌, ◌∷◌, [], suc, true, false, length, None, Some, IfOk};
ghost use Rattle.wh_policy.specs.Names.{fits};
ghost use Rattle.wh_policy.specs.Written.{IsSound};
ghost use Rattle.wh_history.specs.Accepted.{Accepted, Governs, format_of, policy_after};
ghost use Rattle.wh_policy.specs.declared.format.Format.TheVariants.{One, Two};
ghost use Rattle.wh_history.specs.declared.plan.Edit.TheVariants.{Put};
ghost use Rattle.wh_model.specs.Defined.{command_at};
ghost use Rattle.wh_plan.specs.Edits.{AreEdits};
ghost use Rattle.wh_plan.specs.FactEdits.{edits_in};
ghost use Rattle.wh_migration.specs.Migrated.{IsShownAnew};
ghost use Rattle.wh_plan.specs.Reads.{WhenOfCommands};
ghost use Rattle.wh_model.specs.Sound.{IsAccepted};
ghost use Rattle.wh_sql.specs.Answers.{ReadsOnlyIn};

use crate::all_members::{WarehouseMembers, read_dimensions};
use crate::calendar_plan::calendar_edits;
use crate::migrated::{MigratedTables, migrated_tables};
use crate::profile_plan::{RenumberedProfiles, renumbered_profiles};
use sqlite::Alter;
use std::alloc::{AllocError, Global};
use wh_day::{DateRow, Day};
use wh_history::Edit;
use wh_plan::fact_edits::in_tables;
use wh_plan::{Edits, Terms};
use wh_policy::{Format, Policy};
use wh_rows::CommandRow;
use wh_store::{ReadFault, Tables};

/// What is shown anew: all members, and the profiles under new numbers.
#[derive(Drop)]
struct MigratedMembers {
    members: WarehouseMembers,
    profiles: RenumberedProfiles,
}

/// All members and profiles, as a policy that takes the place of the one in force shows them.
fn shown_anew<S: Alter>(
    tables: &mut Tables<S>,
    alloc: Global,
    format: Format,
    newer: &Policy,
) -> Result<MigratedMembers, ReadFault>
    ensures reads { ReadsOnlyIn S.Store tables.old tables.new result }
    ensures shown { WhenOfCommands S.Store tables.old tables.new (λ limits commands. (c : Accepted) → IsAccepted limits (commands ++ c ∷ []) → c.content ≡ Governs newer.now → IsSound newer.now → IfOk result (IsShownAnew commands (commands ++ c ∷ []))) }
{
    let members = read_dimensions(tables, alloc, newer)?;
    let profiles = renumbered_profiles(tables, alloc, format, &members.customers.types)?;
    Ok(MigratedMembers { members, profiles })
}

/// The edits of a migration, with its own row. Members and changes stay, and so do the format and what meta holds.
fn with_own_row(
    alloc: Global,
    format: Format,
    command: CommandRow,
    migrated: MigratedTables,
    profiles: RenumberedProfiles,
    calendar: Vec<Edit<DateRow, Day>>,
) -> Result<Edits, AllocError>
    ensures { IfOk result (λ e. e ≡ record { upgrades = false; meta = []; commands = Put command ∷ []; members = []; changes = []; products = migrated.products.items; stores = migrated.stores.items; customers = migrated.customers.items; profiles = profiles.edits.items; calendar = calendar.items; facts = edits_in One format migrated.facts.items; facts2 = edits_in Two format migrated.facts.items; voids = [] }) }
{
    let mut commands = Vec::new(alloc);
    commands.push(Edit::Put(command))?;
    let facts = in_tables(alloc, format, migrated.facts);
    Ok(Edits {
        upgrades: false,
        meta: Vec::new(alloc),
        commands,
        members: Vec::new(alloc),
        changes: Vec::new(alloc),
        products: migrated.products,
        stores: migrated.stores,
        customers: migrated.customers,
        profiles: profiles.edits,
        calendar,
        facts: facts.one,
        facts2: facts.two,
        voids: Vec::new(alloc),
    })
}

/// What a migration writes: its own row, and the edits of each table whose rows are others under the new policy, which fits
/// the terms' policy, the one in force. All members and all facts are read. The error is a read's: `Memory`, `Damaged` with the table
/// whose row is out of its type, or `Store`.
pub fn plan_migration<S: Alter>(
    tables: &mut Tables<S>,
    alloc: Global,
    terms: &Terms,
    newer: &Policy,
    command: CommandRow,
) -> Result<Edits, ReadFault>
    ensures reads { ReadsOnlyIn S.Store tables.old tables.new result }
    ensures edits { WhenOfCommands S.Store tables.old tables.new (λ limits commands. terms.now.format ≡ format_of commands → (c : Accepted) → IsAccepted limits (commands ++ c ∷ []) → c.content ≡ Governs newer.now → policy_after None commands ≡ Some terms.now.policy.now → IsSound newer.now → fits terms.now.policy.now newer.now ≡ true
        → command_at (commands ++ c ∷ []) (suc (length commands)) ≡ Some command → IfOk result (AreEdits commands (commands ++ c ∷ []))) }
    // Whatever is stored, a command that is planned writes its own row.
    ensures own { IfOk result (λ edits. length edits.commands ≡ 1) }
{
    let anew = shown_anew(tables, alloc, terms.format, newer)?;
    let known = &anew.profiles.known;
    let migrated = migrated_tables(tables, alloc, terms.format, &anew.members, known)?;
    let calendar = calendar_edits(alloc, terms.policy, newer)?;
    Ok(with_own_row(
        alloc,
        terms.format,
        command,
        migrated,
        anew.profiles,
        calendar,
    )?)
}
