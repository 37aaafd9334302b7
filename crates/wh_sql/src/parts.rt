//! The tables: the texts that show a part of them, and the keys of their rows. And each of them by its name.

ghost use Rattle.wh_sql.specs.Described.{described};

use crate::paged_table::{PagedTable, PartStatements};
use crate::visitor::TableVisitor;
use std::alloc::{AllocError, Global};
use wh_day::{DateRow, Day, Value};
use wh_history::{DimRow, Fact};
use wh_rows::{
    ChangeKey, ChangeRow, CommandRow, LineKey, MemberKey, MemberRow, MetaRow, ProfileRow, Table,
    VoidRow, tables,
};

impl PagedTable for tables::Meta {
    ghost use Rattle.wh_rows.specs.Parts as texts;
    ghost use Rattle.wh_rows.proofs.Parts as meanings;
    ghost use Rattle.wh_rows.proofs.Once as once;

    ghost part_texts = { texts.meta };

    ghost shows_parts = { meanings.meta };

    ghost keyed = { meanings.meta_keyed };

    ghost once = { once.meta };

    fn part_statements() -> PartStatements {
        PartStatements {
            first: "SELECT * FROM meta ORDER BY name LIMIT 256",
            after: "SELECT * FROM meta WHERE name > ?1 ORDER BY name LIMIT 256",
            most: 256,
        }
    }

    fn key_of(row: &MetaRow) -> Result<Value, AllocError> {
        row.name.copy()
    }
}

impl PagedTable for tables::Command {
    ghost use Rattle.wh_rows.specs.Parts as texts;
    ghost use Rattle.wh_rows.proofs.Parts as meanings;
    ghost use Rattle.wh_rows.proofs.Once as once;

    ghost part_texts = { texts.command };

    ghost shows_parts = { meanings.command };

    ghost keyed = { meanings.command_keyed };

    ghost once = { once.command };

    fn part_statements() -> PartStatements {
        PartStatements {
            first: "SELECT * FROM command ORDER BY number LIMIT 1",
            after: "SELECT * FROM command WHERE number > ?1 ORDER BY number LIMIT 1",
            most: 1,
        }
    }

    fn key_of(row: &CommandRow) -> Result<u64, AllocError> {
        Ok(row.number)
    }
}

impl PagedTable for tables::Member {
    ghost use Rattle.wh_rows.specs.Parts as texts;
    ghost use Rattle.wh_rows.proofs.Parts as meanings;
    ghost use Rattle.wh_rows.proofs.Once as once;

    ghost part_texts = { texts.member };

    ghost shows_parts = { meanings.member };

    ghost keyed = { meanings.member_keyed };

    ghost once = { once.member };

    fn part_statements() -> PartStatements {
        PartStatements {
            first: "SELECT * FROM member ORDER BY dim, durable LIMIT 256",
            after: "SELECT * FROM member WHERE dim >= ?1 AND (dim > ?1 OR durable > ?2) ORDER BY dim, durable LIMIT 256",
            most: 256,
        }
    }

    fn key_of(row: &MemberRow) -> Result<MemberKey, AllocError> {
        Ok(MemberKey {
            dim: row.dim,
            durable: row.durable,
        })
    }
}

impl PagedTable for tables::Change {
    ghost use Rattle.wh_rows.specs.Parts as texts;
    ghost use Rattle.wh_rows.proofs.Parts as meanings;
    ghost use Rattle.wh_rows.proofs.Once as once;

    ghost part_texts = { texts.change };

    ghost shows_parts = { meanings.change };

    ghost keyed = { meanings.change_keyed };

    ghost once = { once.change };

    fn part_statements() -> PartStatements {
        PartStatements {
            first: "SELECT * FROM change ORDER BY command, record LIMIT 256",
            after: "SELECT * FROM change WHERE command >= ?1 AND (command > ?1 OR record > ?2) ORDER BY command, record LIMIT 256",
            most: 256,
        }
    }

    fn key_of(row: &ChangeRow) -> Result<ChangeKey, AllocError> {
        Ok(ChangeKey {
            command: row.command,
            place: row.place,
        })
    }
}

impl PagedTable for tables::Product {
    ghost use Rattle.wh_rows.specs.Parts as texts;
    ghost use Rattle.wh_rows.proofs.Parts as meanings;
    ghost use Rattle.wh_rows.proofs.Once as once;

    ghost part_texts = { texts.product };

    ghost shows_parts = { meanings.product };

    ghost keyed = { meanings.product_keyed };

    ghost once = { once.product };

    fn part_statements() -> PartStatements {
        PartStatements {
            first: "SELECT * FROM product ORDER BY surrogate LIMIT 256",
            after: "SELECT * FROM product WHERE surrogate > ?1 ORDER BY surrogate LIMIT 256",
            most: 256,
        }
    }

    fn key_of(row: &DimRow) -> Result<u64, AllocError> {
        Ok(row.surrogate)
    }
}

impl PagedTable for tables::Store {
    ghost use Rattle.wh_rows.specs.Parts as texts;
    ghost use Rattle.wh_rows.proofs.Parts as meanings;
    ghost use Rattle.wh_rows.proofs.Once as once;

    ghost part_texts = { texts.store };

    ghost shows_parts = { meanings.store };

    ghost keyed = { meanings.store_keyed };

    ghost once = { once.store };

    fn part_statements() -> PartStatements {
        PartStatements {
            first: "SELECT * FROM store ORDER BY surrogate LIMIT 256",
            after: "SELECT * FROM store WHERE surrogate > ?1 ORDER BY surrogate LIMIT 256",
            most: 256,
        }
    }

    fn key_of(row: &DimRow) -> Result<u64, AllocError> {
        Ok(row.surrogate)
    }
}

impl PagedTable for tables::Customer {
    ghost use Rattle.wh_rows.specs.Parts as texts;
    ghost use Rattle.wh_rows.proofs.Parts as meanings;
    ghost use Rattle.wh_rows.proofs.Once as once;

    ghost part_texts = { texts.customer };

    ghost shows_parts = { meanings.customer };

    ghost keyed = { meanings.customer_keyed };

    ghost once = { once.customer };

    fn part_statements() -> PartStatements {
        PartStatements {
            first: "SELECT * FROM customer ORDER BY surrogate LIMIT 256",
            after: "SELECT * FROM customer WHERE surrogate > ?1 ORDER BY surrogate LIMIT 256",
            most: 256,
        }
    }

    fn key_of(row: &DimRow) -> Result<u64, AllocError> {
        Ok(row.surrogate)
    }
}

impl PagedTable for tables::Profile {
    ghost use Rattle.wh_rows.specs.Parts as texts;
    ghost use Rattle.wh_rows.proofs.Parts as meanings;
    ghost use Rattle.wh_rows.proofs.Once as once;

    ghost part_texts = { texts.profile };

    ghost shows_parts = { meanings.profile };

    ghost keyed = { meanings.profile_keyed };

    ghost once = { once.profile };

    fn part_statements() -> PartStatements {
        PartStatements {
            first: "SELECT * FROM profile ORDER BY number LIMIT 256",
            after: "SELECT * FROM profile WHERE number > ?1 ORDER BY number LIMIT 256",
            most: 256,
        }
    }

    fn key_of(row: &ProfileRow) -> Result<u64, AllocError> {
        Ok(row.number)
    }
}

impl PagedTable for tables::Calendar {
    ghost use Rattle.wh_rows.specs.Parts as texts;
    ghost use Rattle.wh_rows.proofs.Parts as meanings;
    ghost use Rattle.wh_rows.proofs.Once as once;

    ghost part_texts = { texts.calendar };

    ghost shows_parts = { meanings.calendar };

    ghost keyed = { meanings.calendar_keyed };

    ghost once = { once.calendar };

    fn part_statements() -> PartStatements {
        PartStatements {
            first: "SELECT * FROM calendar ORDER BY date_key LIMIT 256",
            after: "SELECT * FROM calendar WHERE date_key > ?1 ORDER BY date_key LIMIT 256",
            most: 256,
        }
    }

    fn key_of(row: &DateRow) -> Result<Day, AllocError> {
        Ok(row.date_key)
    }
}

impl PagedTable for tables::Fact {
    ghost use Rattle.wh_rows.specs.Parts as texts;
    ghost use Rattle.wh_rows.proofs.Parts as meanings;
    ghost use Rattle.wh_rows.proofs.Once as once;

    ghost part_texts = { texts.fact };

    ghost shows_parts = { meanings.fact };

    ghost keyed = { meanings.fact_keyed };

    ghost once = { once.fact };

    fn part_statements() -> PartStatements {
        PartStatements {
            first: "SELECT * FROM fact ORDER BY ticket, line LIMIT 256",
            after: "SELECT * FROM fact WHERE ticket >= ?1 AND (ticket > ?1 OR line > ?2) ORDER BY ticket, line LIMIT 256",
            most: 256,
        }
    }

    fn key_of(row: &Fact) -> Result<LineKey, AllocError> {
        let ticket = row.ticket.copy()?;
        Ok(LineKey {
            ticket,
            line: row.line,
        })
    }
}

impl PagedTable for tables::Fact2 {
    ghost use Rattle.wh_rows.specs.Parts as texts;
    ghost use Rattle.wh_rows.proofs.Parts as meanings;
    ghost use Rattle.wh_rows.proofs.Once as once;

    ghost part_texts = { texts.fact2 };

    ghost shows_parts = { meanings.fact2_in };

    ghost keyed = { meanings.fact2_keyed };

    ghost once = { once.fact2 };

    fn part_statements() -> PartStatements {
        PartStatements {
            first: "SELECT * FROM fact2 ORDER BY ticket, line LIMIT 256",
            after: "SELECT * FROM fact2 WHERE ticket >= ?1 AND (ticket > ?1 OR line > ?2) ORDER BY ticket, line LIMIT 256",
            most: 256,
        }
    }

    fn key_of(row: &Fact) -> Result<LineKey, AllocError> {
        let ticket = row.ticket.copy()?;
        Ok(LineKey {
            ticket,
            line: row.line,
        })
    }
}

impl PagedTable for tables::Void {
    ghost use Rattle.wh_rows.specs.Parts as texts;
    ghost use Rattle.wh_rows.proofs.Parts as meanings;
    ghost use Rattle.wh_rows.proofs.Once as once;

    ghost part_texts = { texts.void };

    ghost shows_parts = { meanings.void_in };

    ghost keyed = { meanings.void_keyed };

    ghost once = { once.void };

    fn part_statements() -> PartStatements {
        PartStatements {
            first: "SELECT * FROM void ORDER BY ticket, line LIMIT 256",
            after: "SELECT * FROM void WHERE ticket >= ?1 AND (ticket > ?1 OR line > ?2) ORDER BY ticket, line LIMIT 256",
            most: 256,
        }
    }

    fn key_of(row: &VoidRow) -> Result<LineKey, AllocError> {
        let ticket = row.ticket.copy()?;
        Ok(LineKey {
            ticket,
            line: row.line,
        })
    }
}

/// Has a visitor do with the table of a name what it does with any.
pub fn for_table<A, B, V: TableVisitor<A, B>>(
    table: Table,
    visitor: &V,
    alloc: Global,
    first: &mut A,
    second: &mut B,
) -> V::Output
    ensures { V.promises table (described table) visitor.now first.old first.new second.old second.new result }
{
    match table {
        Table::Meta => visitor.visit::<tables::Meta>(alloc, first, second),
        Table::Command => visitor.visit::<tables::Command>(alloc, first, second),
        Table::Member => visitor.visit::<tables::Member>(alloc, first, second),
        Table::Change => visitor.visit::<tables::Change>(alloc, first, second),
        Table::Product => visitor.visit::<tables::Product>(alloc, first, second),
        Table::Store => visitor.visit::<tables::Store>(alloc, first, second),
        Table::Customer => visitor.visit::<tables::Customer>(alloc, first, second),
        Table::Profile => visitor.visit::<tables::Profile>(alloc, first, second),
        Table::Calendar => visitor.visit::<tables::Calendar>(alloc, first, second),
        Table::Fact => visitor.visit::<tables::Fact>(alloc, first, second),
        Table::Fact2 => visitor.visit::<tables::Fact2>(alloc, first, second),
        Table::Void => visitor.visit::<tables::Void>(alloc, first, second),
    }
}
