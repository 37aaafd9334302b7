//! Whether a command is accepted, as far as the tables say.

ghost use Rattle.std.specs.Prelude.{◌≡◌, ◌+◌, ◌-◌, ◌*◌, ◌<◌, ◌≤◌, nat_le, length, false, not, is_some, IfOk};
ghost use Rattle.std.specs.FinMap.{len};
ghost use Rattle.std.specs.List.{list_any};
ghost use Rattle.wh_history.specs.Accepted.{format_of, sold, standing};
ghost use Rattle.wh_admission.specs.Admission.{first_line_missing, first_line_there, number_for, upgrades_again};
ghost use Rattle.wh_admission.specs.Said.{says};
ghost use Rattle.wh_engine.specs.Decided.{HasNoCommand, lines_in};
ghost use Rattle.wh_model.specs.Defined.{command_at, void_at};
ghost use Rattle.wh_engine.specs.Faults.{Judges};
ghost use Rattle.wh_model.specs.Sound.{IsAccepted, is_sold_line, same_line};
ghost use Rattle.wh_engine.specs.Scanned.{Reads, ReadsOnlyIn, WhenAccepted, WhenAtRest, WhenOfCommands, WhenStored};

use crate::fault::Fault;
use crate::session::Session;
use crate::tickets::are_new;
use sqlite::Alter;
use std::alloc::Global;
use wh_admission::{Content, Limit, Refusal};
use wh_batch::MOST_RECORDS;
use wh_day::Value;
use wh_policy::{Format, SaleRecord, VoidRecord};
use wh_rows::{Cause, LineKey, tables};
use wh_store::{KeyedTable, ReadFault, Tables};

/// Whether there is room under a limit for so many more than are kept.
fn has_room_left(limit: u64, kept: u64, records: u64) -> bool
    ensures { result ≡ nat_le records (limit - kept) }
{
    records <= limit.saturating_sub(kept)
}

/// Whether `records` more rows fit under `limit`. The rows are counted only where full batches could have left too little room.
fn has_room_for<T: KeyedTable, S: Alter>(
    tables: &mut Tables<S>,
    alloc: Global,
    limit: u64,
    commands: u64,
    records: u64,
) -> Result<bool, ReadFault>
    ensures reads { ReadsOnlyIn S.Store tables.old tables.new result }
    ensures room { WhenAtRest S.Store tables.old tables.new (λ t. IfOk result (λ room. len (T.rows t) ≤ commands * 5000 → len (T.rows t) ≤ limit → room ≡ nat_le (len (T.rows t) + records) limit)) }
{
    let most = commands.saturating_mul(u64::from(MOST_RECORDS));
    if has_room_left(limit, most, records) {
        return Ok(true);
    }
    let kept = tables.count::<T>(alloc)?;
    Ok(has_room_left(limit, kept, records))
}

/// How many lines of tickets were sold: the stored facts, and the withdrawn lines.
fn count_lines<S: Alter>(
    tables: &mut Tables<S>,
    alloc: Global,
    format: Format,
) -> Result<u64, ReadFault>
    ensures reads { ReadsOnlyIn S.Store tables.old tables.new result }
    ensures count { WhenAtRest S.Store tables.old tables.new (λ t. IfOk result (λ count. count ≡ lines_in format t)) }
{
    let facts = tables.count_facts(alloc, format)?;
    match format {
        Format::One => Ok(facts),
        Format::Two => {
            let voids = tables.count::<tables::Void>(alloc)?;
            match facts.checked_add(voids) {
                Some(lines) => Ok(lines),
                None => Err(ReadFault::Store(Cause::Size)),
            }
        }
    }
}

/// The same of the lines of tickets.
fn has_room_for_lines<S: Alter>(
    tables: &mut Tables<S>,
    alloc: Global,
    format: Format,
    limit: u64,
    commands: u64,
    records: u64,
) -> Result<bool, ReadFault>
    ensures reads { ReadsOnlyIn S.Store tables.old tables.new result }
    ensures room { WhenAtRest S.Store tables.old tables.new (λ t. IfOk result (λ room. lines_in format t ≤ commands * 5000 → lines_in format t ≤ limit → room ≡ nat_le (lines_in format t + records) limit)) }
{
    let most = commands.saturating_mul(u64::from(MOST_RECORDS));
    if has_room_left(limit, most, records) {
        return Ok(true);
    }
    let kept = count_lines(tables, alloc, format)?;
    Ok(has_room_left(limit, kept, records))
}

/// Whether a line of a ticket was withdrawn. In the first format none is.
fn is_withdrawn<S: Alter>(
    tables: &mut Tables<S>,
    alloc: Global,
    format: Format,
    line: &LineKey,
) -> Result<bool, ReadFault>
    ensures reads { ReadsOnlyIn S.Store tables.old tables.new result }
    ensures withdrawn { WhenOfCommands S.Store tables.old tables.new (λ limits commands. format ≡ format_of commands → IsAccepted limits commands → IfOk result (λ withdrawn. withdrawn ≡ is_some (void_at commands line.now))) }
{
    match format {
        Format::One => Ok(false),
        Format::Two => {
            let row = tables.get::<tables::Void>(alloc, line)?;
            Ok(row.is_some())
        }
    }
}

/// Whether a fact with a sale's ticket and line is stored, or was withdrawn.
fn is_line_there<S: Alter>(
    tables: &mut Tables<S>,
    alloc: Global,
    format: Format,
    sale: &SaleRecord,
) -> Result<bool, ReadFault>
    ensures reads { ReadsOnlyIn S.Store tables.old tables.new result }
    ensures there { WhenOfCommands S.Store tables.old tables.new (λ limits commands. format ≡ format_of commands → IsAccepted limits commands → IfOk result (λ there. there ≡ list_any (λ s. same_line s sale.now) (sold commands))) }
{
    let key = LineKey {
        ticket: Value::new(alloc, sale.ticket.as_str())?,
        line: sale.line,
    };
    let fact = tables.fact(alloc, format, &key)?;
    if fact.is_some() {
        return Ok(true);
    }
    is_withdrawn(tables, alloc, format, &key)
}

/// The first sale, from 1, whose line has a stored fact or was withdrawn, by a question for each.
fn first_line_found<S: Alter>(
    tables: &mut Tables<S>,
    alloc: Global,
    format: Format,
    sales: &[SaleRecord],
) -> Result<Option<u64>, ReadFault>
    ensures reads { ReadsOnlyIn S.Store tables.old tables.new result }
    ensures there { WhenOfCommands S.Store tables.old tables.new (λ limits commands. format ≡ format_of commands → IsAccepted limits commands → IfOk result (λ there. there ≡ first_line_there (sold commands) 1 sales.now)) }
{
    for (place, sale) in sales.iter().enumerate() {
        if is_line_there(tables, alloc, format, sale)? {
            return Ok(Some(place as u64 + 1));
        }
    }
    Ok(None)
}

/// The first sale, from 1, whose line has a stored fact or was withdrawn.
fn first_line_there<S: Alter>(
    tables: &mut Tables<S>,
    alloc: Global,
    format: Format,
    sales: &[SaleRecord],
) -> Result<Option<u64>, ReadFault>
    ensures reads { ReadsOnlyIn S.Store tables.old tables.new result }
    ensures there { WhenOfCommands S.Store tables.old tables.new (λ limits commands. format ≡ format_of commands → IsAccepted limits commands → IfOk result (λ there. there ≡ first_line_there (sold commands) 1 sales.now)) }
{
    if are_new(tables, alloc, format, sales)? {
        return Ok(None);
    }
    first_line_found(tables, alloc, format, sales)
}

/// Whether no fact with a void's ticket and line is stored.
fn is_line_missing<S: Alter>(
    tables: &mut Tables<S>,
    alloc: Global,
    format: Format,
    void: &VoidRecord,
) -> Result<bool, ReadFault>
    ensures reads { ReadsOnlyIn S.Store tables.old tables.new result }
    ensures missing { WhenOfCommands S.Store tables.old tables.new (λ _ commands. format ≡ format_of commands → IfOk result (λ missing. missing ≡ not (is_sold_line (standing commands) void.now))) }
{
    let key = LineKey {
        ticket: Value::new(alloc, void.ticket.as_str())?,
        line: void.line,
    };
    let fact = tables.fact(alloc, format, &key)?;
    Ok(fact.is_none())
}

/// The first void, from 1, whose ticket and line no stored fact has.
fn first_line_missing<S: Alter>(
    tables: &mut Tables<S>,
    alloc: Global,
    format: Format,
    voids: &[VoidRecord],
) -> Result<Option<u64>, ReadFault>
    ensures reads { ReadsOnlyIn S.Store tables.old tables.new result }
    ensures missing { WhenOfCommands S.Store tables.old tables.new (λ _ commands. format ≡ format_of commands → IfOk result (λ missing. missing ≡ first_line_missing (standing commands) 1 voids.now)) }
{
    for (place, void) in voids.iter().enumerate() {
        if is_line_missing(tables, alloc, format, void)? {
            return Ok(Some(place as u64 + 1));
        }
    }
    Ok(None)
}

/// Whether a command is stored under a number.
fn is_taken<S: Alter>(tables: &mut Tables<S>, alloc: Global, number: u64) -> Result<bool, ReadFault>
    ensures reads { ReadsOnlyIn S.Store tables.old tables.new result }
    ensures taken { WhenOfCommands S.Store tables.old tables.new (λ _ commands. IfOk result (λ taken. taken ≡ is_some (command_at commands number))) }
    ensures free { WhenStored S.Store tables.old tables.new (λ stored. IfOk result (λ taken. taken ≡ false → HasNoCommand stored number)) }
{
    let row = tables.get::<tables::Command>(alloc, &number)?;
    Ok(row.is_some())
}

/// The first number, from one on, under which no command is stored. The next one is free in the tables of accepted commands; where a row
/// is gone it may not be, and the last command must not be written over.
fn free_number<S: Alter>(tables: &mut Tables<S>, alloc: Global, next: u64) -> Result<u64, ReadFault>
    ensures reads { ReadsOnlyIn S.Store tables.old tables.new result }
    ensures next { WhenOfCommands S.Store tables.old tables.new (λ _ commands. length commands < next → IfOk result (λ number. number ≡ next)) }
    ensures free { WhenStored S.Store tables.old tables.new (λ stored. IfOk result (HasNoCommand stored)) }
{
    'numbers: for number in next..u64::MAX {
        if !is_taken(tables, alloc, number)? {
            return Ok(number);
        }
    }
    Err(ReadFault::Store(Cause::Size))
}

/// Refuses a command that withdraws a line that isn't there, sells one that is, or says more than there is room for.
fn admit<S: Alter>(
    tables: &mut Tables<S>,
    alloc: Global,
    session: &Session,
    commands: u64,
    content: &Content,
) -> Result<(), Fault>
    ensures reads { Reads S.Store tables.old tables.new result }
    ensures admits { WhenAccepted S.Store tables.old tables.new session.now.limits (λ before. session.now.format ≡ format_of before → length before ≡ commands → commands < session.now.limits.commands → upgrades_again before (says content.now) ≡ false → Judges (λ _ next. next ≡ commands + 1) result (number_for session.now.limits before (says content.now))) }
{
    let limits = session.limits;
    let format = session.format;
    if let Some(number) = first_line_missing(tables, alloc, format, content.withdrawn())? {
        return Err(Fault::Refused(Refusal::NoLine(number)));
    }
    let sales = content.sold();
    if let Some(number) = first_line_there(tables, alloc, format, sales)? {
        return Err(Fault::Refused(Refusal::LineThere(number)));
    }
    let changes = content.changes();
    if !has_room_for::<tables::Change, S>(tables, alloc, limits.changes(), commands, changes)? {
        return Err(Fault::Refused(Refusal::Full(Limit::Changes)));
    }
    let count = sales.len() as u64;
    if !has_room_for_lines(tables, alloc, format, limits.facts(), commands, count)? {
        return Err(Fault::Refused(Refusal::Full(Limit::Facts)));
    }
    Ok(())
}

/// The number of the next command, where there is room for it and for what it says.
pub(crate) fn number_for<S: Alter>(
    tables: &mut Tables<S>,
    alloc: Global,
    session: &Session,
    content: &Content,
) -> Result<u64, Fault>
    ensures reads { Reads S.Store tables.old tables.new result }
    // No stored command has the answered number, whatever rows are stored.
    ensures free { WhenStored S.Store tables.old tables.new (λ stored. IfOk result (HasNoCommand stored)) }
    ensures number { WhenAccepted S.Store tables.old tables.new session.now.limits (λ commands. session.now.format ≡ format_of commands → Judges (λ number next. number ≡ next) result (number_for session.now.limits commands (says content.now))) }
{
    let commands = tables.count::<tables::Command>(alloc)?;
    if session.limits.commands() <= commands {
        return Err(Fault::Refused(Refusal::Full(Limit::Commands)));
    }
    if content.upgrades_again(session.format) {
        return Err(Fault::Refused(Refusal::Upgraded));
    }
    admit(tables, alloc, session, commands, content)?;
    let number = free_number(tables, alloc, commands + 1)?;
    Ok(number)
}
