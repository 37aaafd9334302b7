//! The lines of tickets in a batch, and the commands that sold and withdrew them.

use crate::explanation::SentCommand;
use indexmap::IndexSet;
use std::alloc::{AllocError, Global};
use wh_admission::Refusal;
use wh_batch::{BatchKind, CommandKind, Records, read};
use wh_day::{Day, NaturalKey, ParseError, Value};
use wh_policy::{Format, Policy, SaleRecord, VoidRecord};
use wh_rows::CommandRow;

/// A line of a ticket.
#[derive(Debug, PartialEq, Eq, Hash, Drop)]
pub(crate) struct TicketLine {
    pub(crate) ticket: NaturalKey,
    pub(crate) line: u32,
}

impl TicketLine {
    fn of_sale(sale: &SaleRecord) -> TicketLine {
        TicketLine {
            ticket: sale.ticket.copy(),
            line: sale.line,
        }
    }

    fn of_void(void: &VoidRecord) -> TicketLine {
        TicketLine {
            ticket: void.ticket.copy(),
            line: void.line,
        }
    }
}

/// An accepted command.
#[derive(Debug, Drop)]
pub(crate) struct Source {
    /// Its number, from 1.
    pub(crate) number: u64,
    /// What its sender calls it.
    pub(crate) id: Value,
}

/// The sale of a line.
#[derive(Debug, Drop)]
pub(crate) struct Sold {
    /// The place of its command among those that are noted.
    command: usize,
    pub(crate) day: Day,
    /// The natural key of its store.
    pub(crate) store: NaturalKey,
}

impl Sold {
    fn by(command: usize, sale: &SaleRecord) -> Sold {
        Sold {
            command,
            day: sale.day,
            store: sale.store.copy(),
        }
    }
}

/// How a line was sold and withdrawn: its sale, and the place of the command that withdrew it among those that are noted.
#[derive(Debug, Drop)]
pub(crate) struct Traces {
    sold: Option<Sold>,
    withdrawn: Option<usize>,
}

/// The lines of a batch that is refused for one of them, and the commands that are known to have sold or withdrawn some.
#[derive(Debug, Drop)]
pub struct TracedLines {
    /// Sales, where lines are there already; voids, where they don't stand.
    kind: BatchKind,
    /// The place of the line that is told in the refusal.
    refused: usize,
    lines: IndexSet<TicketLine>,
    /// Those of each line.
    traces: Vec<Traces>,
    commands: Vec<Source>,
    /// The place of the command with the bytes of the batch, if there is one.
    same: Option<usize>,
}

impl TracedLines {
    fn new(alloc: Global, kind: BatchKind, number: u64) -> Result<TracedLines, AllocError> {
        Ok(TracedLines {
            kind,
            refused: number.saturating_sub(1) as usize,
            lines: IndexSet::with_capacity(alloc, 0)?,
            traces: Vec::new(alloc),
            commands: Vec::new(alloc),
            same: None,
        })
    }

    fn add(&mut self, line: TicketLine) -> Result<(), AllocError> {
        self.traces.push(Traces {
            sold: None,
            withdrawn: None,
        })?;
        self.lines.insert(line)?;
        Ok(())
    }

    /// Which commands sold and withdrew a line, if it is one of these.
    fn traces_of(&mut self, line: &TicketLine) -> Option<&mut Traces> {
        let place = self.lines.get_index_of(line)?;
        self.traces.get_mut(place)
    }

    /// Whether sales sold some of the lines; notes for each that the next command did.
    fn note_sales(&mut self, sales: &[SaleRecord]) -> bool {
        let command = self.commands.len();
        let mut found = false;
        for sale in sales {
            let line = TicketLine::of_sale(sale);
            if let Some(traces) = self.traces_of(&line) {
                traces.sold = Some(Sold::by(command, sale));
                found = true;
            }
        }
        found
    }

    /// Whether voids withdrew some of the lines; notes for each that the next command did.
    fn note_voids(&mut self, voids: &[VoidRecord]) -> bool {
        let command = self.commands.len();
        let mut found = false;
        for void in voids {
            let line = TicketLine::of_void(void);
            if let Some(traces) = self.traces_of(&line) {
                traces.withdrawn = Some(command);
                found = true;
            }
        }
        found
    }

    fn note_records(&mut self, records: &Records) -> bool {
        match records {
            Records::Dimension(_) => false,
            Records::Sales(sales) => self.note_sales(sales.as_slice()),
            Records::Voids(voids) => self.note_voids(voids.as_slice()),
        }
    }

    /// Notes which of the lines a kept command sold or withdrew, and whether its bytes are these of the batch. The policy in force
    /// reads the batches that were kept under those before, whose years it has.
    pub fn note(
        &mut self,
        alloc: Global,
        policy: &Policy,
        bytes: &[u8],
        row: CommandRow,
    ) -> Result<(), AllocError> {
        let Some(kind) = kind_of(&row) else {
            return Ok(());
        };
        let Some(records) = kept_records(alloc, kind, policy, row.bytes.as_slice())? else {
            return Ok(());
        };
        if !self.note_records(&records) {
            return Ok(());
        }
        if kind == self.kind && row.bytes.as_slice() == bytes {
            self.same = Some(self.commands.len());
        }
        self.commands.push(Source {
            number: row.number,
            id: row.id,
        })?;
        Ok(())
    }

    /// Whether the line in this place is one for which the batch is refused: a sale of a line that is there, or a void of one that
    /// doesn't stand.
    pub(crate) fn is_refused(&self, place: usize) -> bool {
        if place == self.refused {
            return true;
        }
        match (self.kind, self.traces.get(place)) {
            (BatchKind::Voids, Some(traces)) => traces.sold.is_none() || traces.withdrawn.is_some(),
            (_, Some(traces)) => traces.sold.is_some(),
            (_, None) => false,
        }
    }

    /// Whether they are of sales that are there already.
    pub(crate) fn are_sales(&self) -> bool {
        matches!(self.kind, BatchKind::Sales)
    }

    /// How many lines the batch has.
    pub(crate) fn len(&self) -> usize {
        self.traces.len()
    }

    /// The line in a place.
    pub(crate) fn line_at(&self, place: usize) -> Option<&TicketLine> {
        self.lines.get_index(place)
    }

    /// The sale of the line in a place, if one is noted.
    pub(crate) fn sale_of(&self, place: usize) -> Option<&Sold> {
        self.traces.get(place)?.sold.as_ref()
    }

    /// The command of a sale.
    pub(crate) fn seller_of(&self, sold: &Sold) -> Option<&Source> {
        self.commands.get(sold.command)
    }

    /// The command that withdrew the line in a place, if one is noted.
    pub(crate) fn withdrawer_of(&self, place: usize) -> Option<&Source> {
        self.commands.get(self.traces.get(place)?.withdrawn?)
    }

    /// The command with the bytes of the batch, if one is noted.
    pub(crate) fn same_command(&self) -> Option<&Source> {
        self.commands.get(self.same?)
    }
}

/// The kind of a kept command that has lines of tickets.
fn kind_of(row: &CommandRow) -> Option<BatchKind> {
    match BatchKind::from_word(row.kind.as_str())? {
        BatchKind::Dimension(_) => None,
        kind => Some(kind),
    }
}

/// The records of a batch without a fault.
pub(crate) fn records_in(
    alloc: Global,
    kind: BatchKind,
    policy: &Policy,
    format: Format,
    bytes: &[u8],
) -> Result<Option<Records>, AllocError> {
    match read(alloc, kind, policy, format, bytes) {
        Ok(records) => Ok(Some(records)),
        Err(ParseError::Fault(_)) => Ok(None),
        Err(ParseError::Memory) => Err(AllocError),
    }
}

/// The records of a kept batch. Its header is that of the format that the warehouse had then, and no batch has both.
fn kept_records(
    alloc: Global,
    kind: BatchKind,
    policy: &Policy,
    bytes: &[u8],
) -> Result<Option<Records>, AllocError> {
    match records_in(alloc, kind, policy, Format::One, bytes)? {
        Some(records) => Ok(Some(records)),
        None => records_in(alloc, kind, policy, Format::Two, bytes),
    }
}

fn add_sales(lines: &mut TracedLines, sales: &[SaleRecord]) -> Result<(), AllocError> {
    for sale in sales {
        lines.add(TicketLine::of_sale(sale))?;
    }
    Ok(())
}

fn add_voids(lines: &mut TracedLines, voids: &[VoidRecord]) -> Result<(), AllocError> {
    for void in voids {
        lines.add(TicketLine::of_void(void))?;
    }
    Ok(())
}

/// The lines of a batch, of which the record with this number is refused.
fn lines_sent(
    alloc: Global,
    kind: BatchKind,
    sent: &SentCommand,
    number: u64,
) -> Result<Option<TracedLines>, AllocError> {
    let Some(records) = records_in(alloc, kind, sent.policy, sent.format, sent.bytes)? else {
        return Ok(None);
    };
    let mut lines = TracedLines::new(alloc, kind, number)?;
    match &records {
        Records::Dimension(_) => return Ok(None),
        Records::Sales(sales) => add_sales(&mut lines, sales.as_slice())?,
        Records::Voids(voids) => add_voids(&mut lines, voids.as_slice())?,
    }
    Ok(Some(lines))
}

/// The lines of a batch that is refused for one of them, which is there already or doesn't stand. No command is noted yet.
pub fn refused_lines(
    alloc: Global,
    why: &Refusal,
    sent: &SentCommand,
) -> Result<Option<TracedLines>, AllocError> {
    match (why, sent.kind) {
        (Refusal::LineThere(number), CommandKind::Batch(kind)) => {
            lines_sent(alloc, kind, sent, *number)
        }
        (Refusal::NoLine(number), CommandKind::Batch(kind)) => {
            lines_sent(alloc, kind, sent, *number)
        }
        _ => Ok(None),
    }
}
