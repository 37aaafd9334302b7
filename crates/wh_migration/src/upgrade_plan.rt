//! What an upgrade writes: the number of the second format, its own row, and each fact in the table of that format.

ghost use Rattle.std.specs.Prelude.{◌≡◌, ◌++◌, ◌∷◌, [], suc, pos, true, codes, length, None, Some, IfOk};
ghost use Rattle.wh_history.specs.Accepted.{Accepted, Upgrades, format_of};
ghost use Rattle.wh_history.specs.declared.plan.Edit.TheVariants.{Put};
ghost use Rattle.wh_model.specs.Defined.{command_at};
ghost use Rattle.wh_model.specs.Sound.{IsAccepted};
ghost use Rattle.wh_plan.specs.Edits.{AreEdits};
ghost use Rattle.wh_plan.specs.Reads.{WhenOfCommands};
ghost use Rattle.wh_policy.specs.declared.format.Format.TheVariants.{One};
ghost use Rattle.wh_sql.specs.Answers.{ReadsOnlyIn};

use sqlite::Alter;
use std::alloc::{AllocError, Global};
use wh_day::Value;
use wh_history::Edit;
use wh_plan::Edits;
use wh_plan::fact_edits::{FactTables, carried_over};
use wh_rows::{CommandRow, MetaRow, tables};
use wh_store::{ReadFault, Tables};

/// The edits of an upgrade that carries these facts, with its own row. All other tables stay.
fn upgrade_edits(alloc: Global, command: CommandRow, facts: FactTables) -> Result<Edits, AllocError>
    ensures { IfOk result (λ e. e ≡ record { upgrades = true; meta = Put (record { name = codes "format"; value = pos 2 }) ∷ []; commands = Put command ∷ []; members = []; changes = []; products = []; stores = []; customers = []; profiles = []; calendar = []; facts = facts.one.items; facts2 = facts.two.items; voids = [] }) }
{
    let mut edits = Edits::none(alloc);
    edits.upgrades = true;
    edits.meta.push(Edit::Put(MetaRow {
        name: Value::new(alloc, "format")?,
        value: 2,
    }))?;
    edits.commands.push(Edit::Put(command))?;
    edits.facts = facts.one;
    edits.facts2 = facts.two;
    Ok(edits)
}

/// What an upgrade of a warehouse of the first format writes. All facts are read. The error is a read's: `Memory`, `Damaged` with the table
/// whose row is out of its type, or `Store`.
pub fn plan_upgrade<S: Alter>(
    tables: &mut Tables<S>,
    alloc: Global,
    command: CommandRow,
) -> Result<Edits, ReadFault>
    ensures reads { ReadsOnlyIn S.Store tables.old tables.new result }
    ensures edits { WhenOfCommands S.Store tables.old tables.new (λ limits commands. (c : Accepted) → c.content ≡ Upgrades → format_of commands ≡ One
        → command_at (commands ++ c ∷ []) (suc (length commands)) ≡ Some command → IfOk result (AreEdits commands (commands ++ c ∷ []))) }
    // Whatever is stored, a command that is planned writes its own row.
    ensures own { IfOk result (λ edits. length edits.commands ≡ 1) }
{
    let facts = tables.all::<tables::Fact>(alloc)?;
    let carried = carried_over(alloc, facts)?;
    Ok(upgrade_edits(alloc, command, carried)?)
}
